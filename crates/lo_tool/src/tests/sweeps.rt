//! Scripts with clean-ups of orphans, with their whole output. A `finish` prints a line for each of its acts.
use super::dialogue::check_dialogue;
use std::test::Fail;

const FAILED: &str =
    "ERROR 25P02: current transaction is aborted, commands ignored until end of transaction block";

#[test]
fn what_no_column_names_is_removed(rt: HostRuntime) -> Result<(), Fail> {
    check_dialogue(
        &rt,
        rt.alloc(),
        &[
            ("A", "lo_create 17001", "17001"),
            ("A", "lo_create 17002", "17002"),
            ("A", "create table p id:int8 o:oid", "CREATE TABLE"),
            ("A", "insert p 1 17001", "INSERT 1"),
            ("A", "vacuumlo 0", "LISTED 2"),
            ("A", "step", "SCANNED 1"),
            ("A", "finish", "BEGIN\nA: 1\nA: COMMIT\nA: REMOVED 1"),
            ("A", "lo_get 17001", "\\x"),
            (
                "A",
                "lo_get 17002",
                "ERROR 42704: large object 17002 does not exist",
            ),
            ("A", "vacuumlo -n 2147483647", "LISTED 1"),
            ("A", "finish", "SCANNED 0\nA: WOULD REMOVE 0"),
        ],
    )
}

#[test]
fn a_block_refuses_a_clean_up(rt: HostRuntime) -> Result<(), Fail> {
    check_dialogue(
        &rt,
        rt.alloc(),
        &[
            ("A", "vacuumlo 0", "LISTED 0"),
            ("A", "finish", "REMOVED 0"),
            ("A", "begin", "BEGIN"),
            (
                "A",
                "vacuumlo 0",
                "ERROR 25001: cannot run inside a transaction block",
            ),
            ("A", "step", FAILED),
            ("A", "finish", FAILED),
            ("A", "rollback", "ROLLBACK"),
        ],
    )
}

#[test]
fn a_refused_removal_ends_the_clean_up(rt: HostRuntime) -> Result<(), Fail> {
    check_dialogue(
        &rt,
        rt.alloc(),
        &[
            ("A", "lo_create 17001", "17001"),
            ("A", "lo_create 17002", "17002"),
            ("A", "lo_create 17003", "17003"),
            ("A", "lo_create 17004", "17004"),
            ("A", "vacuumlo 2", "LISTED 4"),
            ("B", "lo_create 17009", "17009"),
            ("A", "step", "BEGIN"),
            ("A", "step", "1"),
            ("A", "step", "1"),
            ("A", "step", "COMMIT"),
            ("B", "lo_unlink 17004", "1"),
            (
                "A",
                "finish",
                "BEGIN\nA: 1\nA: ERROR 42704: large object 17004 does not exist\n\
                A: ROLLBACK\nA: STOPPED 17004 2",
            ),
            ("A", "lo_get 17003", "\\x"),
            ("A", "lo_get 17009", "\\x"),
        ],
    )
}

#[test]
fn a_reference_counts_where_its_column_is_scanned_later(rt: HostRuntime) -> Result<(), Fail> {
    check_dialogue(
        &rt,
        rt.alloc(),
        &[
            ("A", "lo_create 17001", "17001"),
            ("A", "lo_create 17002", "17002"),
            ("A", "create table a id:int8 o:oid", "CREATE TABLE"),
            ("A", "create table b id:int8 p:lo", "CREATE TABLE"),
            ("A", "vacuumlo 1", "LISTED 2"),
            ("A", "step", "SCANNED 2"),
            // The column of table `a` was scanned already, that of `b` was not.
            ("B", "insert a 1 17001", "INSERT 1"),
            ("B", "insert b 1 17002", "INSERT 1"),
            ("A", "step", "SCANNED 1"),
            ("A", "step", "BEGIN"),
            ("A", "step", "1"),
            ("A", "step", "COMMIT"),
            ("A", "step", "REMOVED 1"),
            ("A", "step", "IDLE"),
            ("A", "finish", "IDLE"),
            (
                "A",
                "lo_get 17001",
                "ERROR 42704: large object 17001 does not exist",
            ),
            ("A", "lo_get 17002", "\\x"),
        ],
    )
}
