//! Scripts of tables and cursors, with their whole output.
use super::dialogue::{Dialogue, check_dialogue};
use std::alloc::{AllocError, Global};
use std::test::Fail;

const FAILED: &str =
    "ERROR 25P02: current transaction is aborted, commands ignored until end of transaction block";

const ROW_HELD: &str = "ERROR 55P03: another transaction holds this: 1";

const NO_CURSOR: &str = "ERROR 34000: cursor does not exist";

const TOO_BIG: &str = "ERROR 54000: row is too big: size 8168, maximum size 8160";

/// `\x` and a byte's two digits so many times.
fn repeated(alloc: Global, digits: &str, times: usize) -> Result<String, AllocError> {
    let mut text = String::from_str(alloc, "\\x")?;
    for _ in 0..times {
        text.push_str(digits)?;
    }
    Ok(text)
}

#[test]
fn rows_are_inserted_changed_and_deleted(rt: HostRuntime) -> Result<(), Fail> {
    check_dialogue(
        &rt,
        rt.alloc(),
        &[
            ("A", "create table t id:int8 o:oid b:bytea", "CREATE TABLE"),
            (
                "A",
                "insert t 1 4294967296 null",
                "ERROR 42804: value 2 does not fit its column",
            ),
            ("A", "insert t 1 5 \\x41", "INSERT 1"),
            ("A", "get t 1", "ROW 1 5 \\x41"),
            ("A", "update t 1 b=null", "UPDATE 1"),
            ("A", "get t 1", "ROW 1 5 null"),
            (
                "A",
                "insert t 1 6 null",
                "ERROR 23505: row 1 already exists",
            ),
            ("A", "ids t", "IDS 1"),
            ("A", "delete t 2", "ERROR 02000: row 2 does not exist"),
            ("A", "delete t 1", "DELETE 1"),
            ("A", "ids t", "IDS"),
            ("A", "get u 1", "ERROR 42P01: table does not exist"),
        ],
    )
}

/// A table with a row of 1996 bytes, which stay in it, and one of 1997, which go out.
fn add_long_rows(dialogue: &mut Dialogue, alloc: Global) -> Result<(), AllocError> {
    let inside = repeated(alloc, "61", 1996)?;
    let outside = repeated(alloc, "62", 1997)?;
    dialogue.add(
        "A",
        &["create table t id:int8 body:bytea:external"],
        "CREATE TABLE",
    )?;
    dialogue.add("A", &["insert t 1 ", inside.as_str()], "INSERT 1")?;
    dialogue.add("A", &["insert t 2 ", outside.as_str()], "INSERT 1")
}

#[test]
fn a_long_value_is_read_in_slices(rt: HostRuntime) -> Result<(), Fail> {
    let alloc = rt.alloc();
    let mut dialogue = Dialogue::new(alloc);
    add_long_rows(&mut dialogue, alloc)?;
    dialogue.add("A", &["slice t 2 body 1990 10"], "\\x62626262626262")?;
    dialogue.add("A", &["slice t 2 body 1997 5"], "\\x")?;
    let negative = "ERROR 22023: requested length cannot be negative";
    dialogue.add("A", &["slice t 2 body -1 5"], negative)?;
    dialogue.check(&rt, alloc)
}

// Of two values of 1500 bytes one goes out. What may not go out may be too big.
#[test]
fn a_row_is_stored_by_its_columns(rt: HostRuntime) -> Result<(), Fail> {
    let alloc = rt.alloc();
    let mut dialogue = Dialogue::new(alloc);
    let half = repeated(alloc, "61", 1500)?;
    let most = repeated(alloc, "62", 8124)?;
    let more = repeated(alloc, "62", 8125)?;
    let two = "create table d id:int8 a:bytea:external b:bytea:external";
    dialogue.add("A", &[two], "CREATE TABLE")?;
    dialogue.add(
        "A",
        &["insert d 1 ", half.as_str(), " ", half.as_str()],
        "INSERT 1",
    )?;
    let row = ["ROW 1 ", half.as_str(), " ", half.as_str()];
    let mut stored = String::new(alloc);
    for piece in row {
        stored.push_str(piece)?;
    }
    dialogue.add("A", &["get d 1"], stored.as_str())?;
    dialogue.add(
        "A",
        &["create table m id:int8 v:bytea:main"],
        "CREATE TABLE",
    )?;
    dialogue.add("A", &["insert m 1 ", most.as_str()], "INSERT 1")?;
    dialogue.add("A", &["insert m 2 ", more.as_str()], "INSERT 1")?;
    dialogue.add(
        "A",
        &["create table p id:int8 v:bytea:plain"],
        "CREATE TABLE",
    )?;
    dialogue.add("A", &["insert p 1 ", most.as_str()], "INSERT 1")?;
    dialogue.add("A", &["insert p 2 ", more.as_str()], TOO_BIG)?;
    dialogue.add("A", &["ids p"], "IDS 1")?;
    dialogue.check(&rt, alloc)
}

#[test]
fn a_cursor_reads_the_row_as_it_was(rt: HostRuntime) -> Result<(), Fail> {
    let alloc = rt.alloc();
    let mut dialogue = Dialogue::new(alloc);
    let body = repeated(alloc, "62", 1997)?;
    dialogue.add(
        "A",
        &["create table t id:int8 body:bytea:external"],
        "CREATE TABLE",
    )?;
    dialogue.add("A", &["insert t 2 ", body.as_str()], "INSERT 1")?;
    dialogue.add("A", &["begin"], "BEGIN")?;
    dialogue.add("A", &["declare c t 2"], "DECLARE")?;
    dialogue.add("B", &["update t 2 body=\\x63"], "UPDATE 1")?;
    dialogue.add("A", &["fetch c body 1990 10"], "\\x62626262626262")?;
    dialogue.add("A", &["slice t 2 body 0 10"], "\\x63")?;
    dialogue.add(
        "A",
        &["declare c t 2"],
        "ERROR 42P03: cursor already exists",
    )?;
    dialogue.add("A", &["rollback"], "ROLLBACK")?;
    dialogue.add("A", &["fetch c body 0 1"], NO_CURSOR)?;
    dialogue.check(&rt, alloc)
}

// A cursor that a savepoint's level declared goes with a rollback to it, and one from before it stays.
#[test]
fn a_rollback_to_a_savepoint_closes_its_cursors(rt: HostRuntime) -> Result<(), Fail> {
    check_dialogue(
        &rt,
        rt.alloc(),
        &[
            ("A", "create table t id:int8 b:bytea", "CREATE TABLE"),
            ("A", "insert t 1 \\x6f6c64", "INSERT 1"),
            ("A", "begin", "BEGIN"),
            ("A", "declare c t 1", "DECLARE"),
            ("A", "savepoint s", "SAVEPOINT"),
            ("A", "update t 1 b=\\x6e6577", "UPDATE 1"),
            ("A", "declare d t 1", "DECLARE"),
            ("A", "fetch c b 0 9", "\\x6f6c64"),
            ("A", "fetch d b 0 9", "\\x6e6577"),
            ("A", "rollback to s", "ROLLBACK"),
            ("A", "fetch c b 0 9", "\\x6f6c64"),
            ("A", "slice t 1 b 0 9", "\\x6f6c64"),
            ("A", "close c", "CLOSE"),
            ("A", "fetch d b 0 9", NO_CURSOR),
            ("A", "rollback", "ROLLBACK"),
            (
                "A",
                "declare c t 1",
                "ERROR 25P01: no transaction block is open",
            ),
        ],
    )
}

// A row is held by who changes it, and its neighbour is not.
#[test]
fn rows_are_held_one_by_one(rt: HostRuntime) -> Result<(), Fail> {
    check_dialogue(
        &rt,
        rt.alloc(),
        &[
            ("A", "create table t id:int8 n:int8", "CREATE TABLE"),
            ("A", "insert t 1 10", "INSERT 1"),
            ("A", "insert t 2 20", "INSERT 1"),
            ("A", "begin", "BEGIN"),
            ("B", "begin", "BEGIN"),
            ("A", "update t 1 n=11", "UPDATE 1"),
            ("B", "update t 2 n=21", "UPDATE 1"),
            ("B", "get t 1", "ROW 1 10"),
            ("B", "update t 1 n=12", ROW_HELD),
            ("B", "get t 2", FAILED),
            ("B", "commit", "ROLLBACK"),
            ("A", "commit", "COMMIT"),
            ("B", "get t 1", "ROW 1 11"),
            ("B", "get t 2", "ROW 2 20"),
        ],
    )
}

#[test]
fn a_rewrite_stores_rows_anew_beside_readers(rt: HostRuntime) -> Result<(), Fail> {
    let alloc = rt.alloc();
    let mut dialogue = Dialogue::new(alloc);
    let long = repeated(alloc, "62", 8125)?;
    add_long_rows(&mut dialogue, alloc)?;
    dialogue.add("A", &["begin"], "BEGIN")?;
    dialogue.add("A", &["declare c t 2"], "DECLARE")?;
    dialogue.add("B", &["rewrite t body:main"], "REWRITE 2")?;
    dialogue.add("A", &["fetch c body 1990 10"], "\\x62626262626262")?;
    dialogue.add("A", &["rollback"], "ROLLBACK")?;
    dialogue.add(
        "A",
        &["create table m id:int8 v:bytea:main"],
        "CREATE TABLE",
    )?;
    dialogue.add("A", &["insert m 1 ", long.as_str()], "INSERT 1")?;
    dialogue.add("A", &["rewrite m v:plain"], TOO_BIG)?;
    let unfit = "ERROR 42804: value 1 does not fit its column";
    dialogue.add("A", &["rewrite m id:main"], unfit)?;
    dialogue.add("A", &["rewrite m v:external"], "REWRITE 1")?;
    dialogue.add("A", &["begin"], "BEGIN")?;
    dialogue.add("A", &["update m 1 v=", long.as_str()], "UPDATE 1")?;
    dialogue.add("B", &["rewrite m v:main"], ROW_HELD)?;
    dialogue.check(&rt, alloc)
}

// An array goes into a row and comes back into a variable of its own, which grows downwards and goes in once more.
#[test]
fn an_array_is_stored_loaded_and_stored_again(rt: HostRuntime) -> Result<(), Fail> {
    check_dialogue(
        &rt,
        rt.alloc(),
        &[
            ("A", "create table a id:int8 v:int4[]", "CREATE TABLE"),
            ("A", "array v {1,2}", "OK"),
            ("A", "set v 0 9", "OK"),
            ("A", "insert a 1 @v", "INSERT 1"),
            ("A", "load w a 1 v", "OK"),
            ("A", "show w", "[0:2]={9,1,2}"),
            ("A", "get a 1", "ROW 1 [0:2]={9,1,2}"),
            ("A", "set w -1 8", "OK"),
            ("A", "update a 1 v=@w", "UPDATE 1"),
            ("A", "get a 1", "ROW 1 [-1:2]={8,9,1,2}"),
            ("A", "show v", "[0:2]={9,1,2}"),
            (
                "A",
                "insert a 2 {1,",
                "ERROR 22P02: malformed array literal",
            ),
            ("A", "insert a 2 @u", "ERROR 42704: variable does not exist"),
            ("A", "load w a 2 v", "ERROR 02000: row 2 does not exist"),
            (
                "A",
                "set v 1048577 1",
                "ERROR 54000: array size 1048578 exceeds the maximum allowed (1048576)",
            ),
        ],
    )
}
