//! Scripts of transactions, with their whole output.
use super::dialogue::{Dialogue, SESSIONS, check_dialogue};
use std::test::Fail;

const HELD_BY_1: &str = "ERROR 55P03: another transaction holds this: 1";

const FAILED: &str =
    "ERROR 25P02: current transaction is aborted, commands ignored until end of transaction block";

#[test]
fn a_savepoint_gives_the_bytes_back(rt: HostRuntime) -> Result<(), Fail> {
    check_dialogue(
        &rt,
        rt.alloc(),
        &[
            ("A", "lo_create 17000", "17000"),
            ("A", "begin", "BEGIN"),
            ("A", "lo_put 17000 0 \\x41", "OK"),
            ("A", "savepoint s", "SAVEPOINT"),
            ("A", "lo_put 17000 0 \\x42", "OK"),
            ("B", "lo_get 17000", "\\x"),
            ("B", "lo_put 17000 0 \\x43", HELD_BY_1),
            ("A", "rollback to s", "ROLLBACK"),
            ("A", "lo_get 17000", "\\x41"),
            ("A", "savepoint s", "SAVEPOINT"),
            ("A", "release t", "ERROR 3B001: savepoint does not exist"),
            ("A", "lo_get 17000", FAILED),
            ("A", "rollback to s", "ROLLBACK"),
            ("A", "lo_get 17000", "\\x41"),
            ("A", "commit", "COMMIT"),
            ("B", "lo_get 17000", "\\x41"),
        ],
    )
}

#[test]
fn what_is_out_of_place_is_refused(rt: HostRuntime) -> Result<(), Fail> {
    check_dialogue(
        &rt,
        rt.alloc(),
        &[
            (
                "A",
                "savepoint s",
                "ERROR 25P01: no transaction block is open",
            ),
            ("A", "begin", "BEGIN"),
            (
                "A",
                "vacuum",
                "ERROR 25001: cannot run inside a transaction block",
            ),
            ("A", "commit", "ROLLBACK"),
            ("A", "vacuum", "VACUUM"),
        ],
    )
}

// Neighbouring blocks of one object are written by two sessions, and both commit. A third is told the lower of the two.
#[test]
fn neighbouring_blocks_are_no_conflict(rt: HostRuntime) -> Result<(), Fail> {
    check_dialogue(
        &rt,
        rt.alloc(),
        &[
            ("A", "lo_create 5", "5"),
            ("B", "begin", "BEGIN"),
            ("B", "lo_put 5 2048 \\x42", "OK"),
            ("A", "begin", "BEGIN"),
            ("A", "lo_put 5 2047 \\x41", "OK"),
            ("C", "lo_put 5 2047 \\x4343", HELD_BY_1),
            ("C", "lo_put 5 2048 \\x", "OK"),
            ("A", "commit", "COMMIT"),
            (
                "C",
                "lo_put 5 2047 \\x4343",
                "ERROR 55P03: another transaction holds this: 2",
            ),
            ("B", "commit", "COMMIT"),
            ("C", "lo_put 5 2047 \\x4343", "OK"),
        ],
    )
}

// An object that another open transaction has created is neither there nor free. The last block is open at the end.
#[test]
fn a_creation_holds_its_object(rt: HostRuntime) -> Result<(), Fail> {
    check_dialogue(
        &rt,
        rt.alloc(),
        &[
            ("A", "begin", "BEGIN"),
            ("A", "lo_create 6", "6"),
            (
                "P",
                "lo_get 6",
                "ERROR 42704: large object 6 does not exist",
            ),
            ("P", "begin", "BEGIN"),
            ("P", "lo_create 6", HELD_BY_1),
            ("A", "rollback", "ROLLBACK"),
            ("P", "lo_create 6", FAILED),
            ("P", "rollback", "ROLLBACK"),
            ("P", "begin", "BEGIN"),
            ("P", "lo_create 6", "6"),
        ],
    )
}

// Every session creates and fills its own object in a block. No session sees another's before its commit, and what the
// last one asks for is refused, so that its commit is a rollback.
#[test]
fn sixteen_sessions_have_a_block_each(rt: HostRuntime) -> Result<(), Fail> {
    let mut dialogue = Dialogue::new(rt.alloc());
    for (letter, object) in SESSIONS.iter() {
        dialogue.add(*letter, &["begin"], "BEGIN")?;
        dialogue.add(*letter, &["lo_create ", *object], *object)?;
    }
    for (letter, object) in SESSIONS.iter() {
        dialogue.add(*letter, &["lo_put ", *object, " 1 \\x41"], "OK")?;
        dialogue.add(*letter, &["lo_get ", *object], "\\x0041")?;
    }
    dialogue.add(
        "P",
        &["lo_get 17001"],
        "ERROR 42704: large object 17001 does not exist",
    )?;
    for (letter, _) in SESSIONS.iter() {
        let reply = if *letter == "P" { "ROLLBACK" } else { "COMMIT" };
        dialogue.add(*letter, &["commit"], reply)?;
    }
    dialogue.add("A", &["lo_get 17015"], "\\x0041")?;
    dialogue.add(
        "A",
        &["lo_get 17016"],
        "ERROR 42704: large object 17016 does not exist",
    )?;
    dialogue.check(&rt, rt.alloc())
}
