//! Scripts of large objects by their numbers, with their whole output.
use super::dialogue::check_dialogue;
use std::test::Fail;

const HELD_BY_1: &str = "ERROR 55P03: another transaction holds this: 1";

const FAILED: &str =
    "ERROR 25P02: current transaction is aborted, commands ignored until end of transaction block";

#[test]
fn a_hole_reads_as_zeros(rt: HostRuntime) -> Result<(), Fail> {
    check_dialogue(
        &rt,
        rt.alloc(),
        &[
            ("A", "lo_create 17000", "17000"),
            ("A", "lo_put 17000 2047 \\x4142", "OK"),
            ("A", "lo_get 17000 2046 3", "\\x004142"),
        ],
    )
}

// Two sessions write the same page, and one of them is refused; two others write neighbouring pages, and both commit.
#[test]
fn pages_are_held_by_who_writes_them(rt: HostRuntime) -> Result<(), Fail> {
    check_dialogue(
        &rt,
        rt.alloc(),
        &[
            ("A", "lo_create 17000", "17000"),
            ("A", "begin", "BEGIN"),
            ("B", "begin", "BEGIN"),
            ("A", "lo_put 17000 0 \\x41", "OK"),
            ("B", "lo_put 17000 1 \\x42", HELD_BY_1),
            ("B", "lo_get 17000", FAILED),
            ("B", "commit", "ROLLBACK"),
            ("A", "commit", "COMMIT"),
            ("C", "begin", "BEGIN"),
            ("D", "begin", "BEGIN"),
            ("C", "lo_put 17000 0 \\x43", "OK"),
            ("D", "lo_put 17000 2048 \\x44", "OK"),
            ("C", "commit", "COMMIT"),
            ("D", "commit", "COMMIT"),
            ("A", "lo_get 17000 0 1", "\\x43"),
            ("A", "lo_get 17000 2046 3", "\\x000044"),
        ],
    )
}

#[test]
fn an_object_reaches_the_largest_size(rt: HostRuntime) -> Result<(), Fail> {
    check_dialogue(
        &rt,
        rt.alloc(),
        &[
            ("A", "lo_create 17000", "17000"),
            ("A", "lo_put 17000 4398046509055 \\x41", "OK"),
            ("A", "lo_get 17000 4398046509054 9", "\\x0041"),
            (
                "A",
                "lo_get 17000",
                "ERROR 22023: large object read request is too large: 4398046509056",
            ),
            (
                "A",
                "lo_put 17000 4398046509056 \\x41",
                "ERROR 22023: invalid large object write request size: 1",
            ),
            (
                "A",
                "lo_put 17000 -1 \\x41",
                "ERROR 22023: invalid large object seek target: -1",
            ),
            (
                "A",
                "lo_get 17000 0 -1",
                "ERROR 22023: requested length cannot be negative",
            ),
        ],
    )
}

// The counter moves with each number that is picked, also where the transaction is undone.
#[test]
fn picked_numbers_are_not_given_back(rt: HostRuntime) -> Result<(), Fail> {
    check_dialogue(
        &rt,
        rt.alloc(),
        &[
            ("A", "lo_creat -1", "16384"),
            ("A", "begin", "BEGIN"),
            ("A", "lo_create 0", "16385"),
            ("A", "rollback", "ROLLBACK"),
            ("B", "lo_from_bytea 0 \\x41", "16386"),
            ("B", "lo_get 16386", "\\x41"),
            ("B", "lo_unlink 16386", "1"),
            (
                "B",
                "lo_unlink 16386",
                "ERROR 42704: large object 16386 does not exist",
            ),
        ],
    )
}
