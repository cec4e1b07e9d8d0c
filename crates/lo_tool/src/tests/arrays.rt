//! Scripts of array variables, with their whole output.
use super::dialogue::{Dialogue, check_dialogue};
use std::alloc::{AllocError, Global};
use std::test::Fail;

const NO_VARIABLE: &str = "ERROR 42704: variable does not exist";

const MALFORMED: &str = "ERROR 22P02: malformed array literal";

const FAILED: &str =
    "ERROR 25P02: current transaction is aborted, commands ignored until end of transaction block";

/// The most elements of an array.
const MOST_ELEMENTS: usize = 1_048_576;

#[test]
fn elements_are_set_within_and_beyond_the_bounds(rt: HostRuntime) -> Result<(), Fail> {
    check_dialogue(
        &rt,
        rt.alloc(),
        &[
            ("A", "array v {1,2}", "OK"),
            ("A", "set v 5 5", "OK"),
            ("A", "show v", "{1,2,NULL,NULL,5}"),
            ("A", "set v 0 9", "OK"),
            ("A", "show v", "[0:5]={9,1,2,NULL,NULL,5}"),
            ("A", "elem v 3", "null"),
            ("A", "elem v 0", "9"),
            ("A", "elem v -1", "null"),
            ("A", "array w {}", "OK"),
            ("A", "show w", "{}"),
            ("A", "set w 5 7", "OK"),
            ("A", "show w", "[5:5]={7}"),
            ("A", "set w 5 null", "OK"),
            ("A", "show w", "[5:5]={NULL}"),
            ("A", "array x {1,", MALFORMED),
            ("A", "show x", NO_VARIABLE),
            ("A", "array z {2147483648}", MALFORMED),
            ("A", "show z", NO_VARIABLE),
        ],
    )
}

// Each session has variables of its own. A malformed text leaves the old array, and a name in use gets the new one.
#[test]
fn variables_are_of_one_session(rt: HostRuntime) -> Result<(), Fail> {
    check_dialogue(
        &rt,
        rt.alloc(),
        &[
            ("A", "array v [-1:1]={-5,null,+07}", "OK"),
            ("A", "show v", "[-1:1]={-5,NULL,7}"),
            ("B", "show v", NO_VARIABLE),
            ("B", "array v {2}", "OK"),
            ("P", "set v 1 1", NO_VARIABLE),
            ("P", "elem v 1", NO_VARIABLE),
            ("A", "array v {3}}", MALFORMED),
            ("A", "show v", "[-1:1]={-5,NULL,7}"),
            ("A", "array v {4}", "OK"),
            ("A", "show v", "{4}"),
            ("B", "show v", "{2}"),
        ],
    )
}

// A rollback leaves the variables, and a refusal in a block undoes what was written, not what was set.
#[test]
fn rollbacks_leave_variables(rt: HostRuntime) -> Result<(), Fail> {
    check_dialogue(
        &rt,
        rt.alloc(),
        &[
            ("A", "lo_from_bytea 17000 \\x41", "17000"),
            ("A", "begin", "BEGIN"),
            ("A", "array v {1}", "OK"),
            ("A", "lo_put 17000 0 \\x42", "OK"),
            ("A", "savepoint s", "SAVEPOINT"),
            ("A", "set v 1 2", "OK"),
            ("A", "elem u 1", NO_VARIABLE),
            ("A", "show v", FAILED),
            ("A", "rollback to s", "ROLLBACK"),
            ("A", "show v", "{2}"),
            ("A", "lo_get 17000", "\\x42"),
            ("A", "rollback", "ROLLBACK"),
            ("A", "show v", "{2}"),
            ("A", "lo_get 17000", "\\x41"),
        ],
    )
}

/// A text of so many elements that are 1.
fn ones(alloc: Global, count: usize) -> Result<String, AllocError> {
    let mut text = String::from_str(alloc, "{1")?;
    for _ in 1..count {
        text.push_str(",1")?;
    }
    text.push_str("}")?;
    Ok(text)
}

#[test]
fn a_million_elements_are_read_set_shown_and_stored(rt: HostRuntime) -> Result<(), Fail> {
    let alloc = rt.alloc();
    let mut dialogue = Dialogue::new(alloc);
    let most = ones(alloc, MOST_ELEMENTS)?;
    let more = ones(alloc, MOST_ELEMENTS + 1)?;
    let too_many = "ERROR 54000: array size 1048577 exceeds the maximum allowed (1048576)";
    dialogue.add("A", &["array v ", more.as_str()], too_many)?;
    dialogue.add("A", &["array v ", most.as_str()], "OK")?;
    dialogue.add("A", &["set v 1048577 1"], too_many)?;
    dialogue.add("A", &["set v 0 1"], too_many)?;
    dialogue.add("A", &["set v 1048576 1"], "OK")?;
    dialogue.add("A", &["elem v 1048576"], "1")?;
    dialogue.add("A", &["show v"], most.as_str())?;
    dialogue.add("A", &["create table t id:int8 v:int4[]"], "CREATE TABLE")?;
    dialogue.add("A", &["insert t 1 @v"], "INSERT 1")?;
    dialogue.add("A", &["load w t 1 v"], "OK")?;
    dialogue.add("A", &["elem w 1048576"], "1")?;
    dialogue.check(&rt, alloc)
}
