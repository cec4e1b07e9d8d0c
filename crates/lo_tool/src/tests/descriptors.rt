//! Scripts of large objects through their descriptors, with their whole output.
use super::dialogue::{Dialogue, SESSIONS, check_dialogue};
use itoa::Buffer;
use std::test::Fail;

/// The modes of reading alone, and of both. (Manual, Large Objects, Client Interfaces, lo_open.)
const READ: &str = "lo_open 17000 262144";

const BOTH: &str = "lo_open 17000 393216";

// A descriptor is moved, read and written; a write above the largest size is refused, and the block is lost.
#[test]
fn a_position_reaches_the_largest_size(rt: HostRuntime) -> Result<(), Fail> {
    check_dialogue(
        &rt,
        rt.alloc(),
        &[
            ("A", "begin", "BEGIN"),
            ("A", "lo_create 17000", "17000"),
            ("A", BOTH, "0"),
            ("A", "lo_lseek 0 10240 0", "10240"),
            ("A", "lo_write 0 \\x58", "1"),
            ("A", "lo_lseek 0 0 2", "10241"),
            ("A", "lo_lseek 0 2047 0", "2047"),
            ("A", "lo_read 0 3", "\\x000000"),
            ("A", "lo_lseek64 0 4398046509055 0", "4398046509055"),
            ("A", "lo_write 0 \\x59", "1"),
            (
                "A",
                "lo_write 0 \\x5a",
                "ERROR 22023: invalid large object write request size: 1",
            ),
            ("A", "commit", "ROLLBACK"),
        ],
    )
}

// What a cut took away does not come back: there are zeros.
#[test]
fn a_cut_leaves_zeros_behind_it(rt: HostRuntime) -> Result<(), Fail> {
    let alloc = rt.alloc();
    let mut bytes = String::new(alloc);
    for _ in 0..5000 {
        bytes.push_str("61")?;
    }
    let mut dialogue = Dialogue::new(alloc);
    dialogue.add("A", &["lo_from_bytea 17000 \\x", bytes.as_str()], "17000")?;
    dialogue.add("A", &["begin"], "BEGIN")?;
    dialogue.add("A", &[BOTH], "0")?;
    dialogue.add("A", &["lo_truncate 0 2048"], "0")?;
    dialogue.add("A", &["lo_truncate 0 5000"], "0")?;
    dialogue.add("A", &["lo_lseek 0 2040 0"], "2040")?;
    dialogue.add(
        "A",
        &["lo_read 0 16"],
        "\\x61616161616161610000000000000000",
    )?;
    dialogue.check(&rt, alloc)
}

#[test]
fn a_reader_keeps_its_bytes_and_a_writer_sees_new_ones(rt: HostRuntime) -> Result<(), Fail> {
    check_dialogue(
        &rt,
        rt.alloc(),
        &[
            ("A", "lo_from_bytea 17000 \\x6f6c64", "17000"),
            ("A", "begin", "BEGIN"),
            ("A", READ, "0"),
            ("A", BOTH, "1"),
            ("B", "lo_put 17000 0 \\x6e6577", "OK"),
            ("A", "lo_read 0 10", "\\x6f6c64"),
            ("A", "lo_read 1 10", "\\x6e6577"),
        ],
    )
}

#[test]
fn a_rollback_to_a_savepoint_closes_what_was_opened_since(rt: HostRuntime) -> Result<(), Fail> {
    check_dialogue(
        &rt,
        rt.alloc(),
        &[
            ("A", "begin", "BEGIN"),
            ("A", "lo_create 17000", "17000"),
            ("A", READ, "0"),
            ("A", "savepoint o", "SAVEPOINT"),
            ("A", "savepoint s", "SAVEPOINT"),
            ("A", READ, "1"),
            ("A", "rollback to s", "ROLLBACK"),
            ("A", READ, "1"),
            ("A", "release s", "RELEASE"),
            ("A", "lo_tell 1", "0"),
            ("A", "rollback to o", "ROLLBACK"),
            (
                "A",
                "lo_tell 1",
                "ERROR 42704: invalid large-object descriptor: 1",
            ),
            ("A", "rollback to o", "ROLLBACK"),
            ("A", "lo_tell 0", "0"),
        ],
    )
}

#[test]
fn the_lowest_free_number_is_given(rt: HostRuntime) -> Result<(), Fail> {
    check_dialogue(
        &rt,
        rt.alloc(),
        &[
            ("A", "lo_create 17000", "17000"),
            ("A", "begin", "BEGIN"),
            ("A", READ, "0"),
            ("A", READ, "1"),
            ("A", READ, "2"),
            ("A", "lo_close 1", "0"),
            ("A", READ, "1"),
            (
                "A",
                "lo_read 7 1",
                "ERROR 42704: invalid large-object descriptor: 7",
            ),
            ("A", "rollback", "ROLLBACK"),
            ("A", "begin", "BEGIN"),
            ("A", READ, "0"),
            (
                "A",
                "lo_write 0 \\x41",
                "ERROR 55000: large object descriptor 0 was not opened for writing",
            ),
        ],
    )
}

// Outside a block a descriptor ends with its request.
#[test]
fn outside_a_block_no_descriptor_stays(rt: HostRuntime) -> Result<(), Fail> {
    check_dialogue(
        &rt,
        rt.alloc(),
        &[
            ("A", "lo_create 17000", "17000"),
            ("A", READ, "0"),
            (
                "A",
                "lo_read 0 1",
                "ERROR 42704: invalid large-object descriptor: 0",
            ),
            (
                "A",
                "lo_open 17000 1",
                "ERROR 22023: invalid flags for opening a large object: 1",
            ),
        ],
    )
}

// The old object goes on under its reader, the new one of its number is another.
#[test]
fn an_unlinked_object_goes_on_under_its_reader(rt: HostRuntime) -> Result<(), Fail> {
    check_dialogue(
        &rt,
        rt.alloc(),
        &[
            ("A", "lo_from_bytea 17000 \\x6f6c64", "17000"),
            ("A", "begin", "BEGIN"),
            ("A", READ, "0"),
            ("A", BOTH, "1"),
            ("B", "begin", "BEGIN"),
            ("B", "lo_unlink 17000", "1"),
            ("B", "lo_create 17000", "17000"),
            ("B", "commit", "COMMIT"),
            ("A", "lo_read 0 3", "\\x6f6c64"),
            ("A", "lo_read 1 3", "\\x"),
        ],
    )
}

#[test]
fn a_position_above_31_bits_is_told_in_64(rt: HostRuntime) -> Result<(), Fail> {
    check_dialogue(
        &rt,
        rt.alloc(),
        &[
            ("A", "begin", "BEGIN"),
            ("A", "lo_create 0", "16384"),
            ("A", "lo_open 16384 393216", "0"),
            ("A", "lo_lseek64 0 2147483648 0", "2147483648"),
            ("A", "lo_tell64 0", "2147483648"),
            (
                "A",
                "lo_tell 0",
                "ERROR 22003: result out of range for large-object descriptor 0",
            ),
        ],
    )
}

#[test]
fn the_257th_descriptor_is_refused(rt: HostRuntime) -> Result<(), Fail> {
    let alloc = rt.alloc();
    let mut dialogue = Dialogue::new(alloc);
    let mut number = Buffer::new();
    dialogue.add("A", &["begin"], "BEGIN")?;
    dialogue.add("A", &["lo_create 17000"], "17000")?;
    for fd in 0..256_u32 {
        dialogue.add("A", &[READ], number.format(fd))?;
    }
    dialogue.add(
        "A",
        &[READ],
        "ERROR 54000: too many open large-object descriptors: 256",
    )?;
    dialogue.check(&rt, alloc)
}

// Forty commits of others go by, and a vacuum after each; the reader reads what was there when it was opened.
#[test]
fn a_reader_outlives_forty_versions(rt: HostRuntime) -> Result<(), Fail> {
    let alloc = rt.alloc();
    let mut dialogue = Dialogue::new(alloc);
    dialogue.add("A", &["lo_from_bytea 17000 \\x6f6c64"], "17000")?;
    dialogue.add("A", &["begin"], "BEGIN")?;
    dialogue.add("A", &[READ], "0")?;
    for _ in 0..40 {
        dialogue.add("B", &["lo_put 17000 0 \\x6e6577"], "OK")?;
        dialogue.add("C", &["vacuum"], "VACUUM")?;
    }
    dialogue.add("A", &["lo_read 0 3"], "\\x6f6c64")?;
    dialogue.add("A", &["lo_get 17000"], "\\x6e6577")?;
    dialogue.check(&rt, alloc)
}

// A descriptor that was opened before a savepoint reads what the rollback gives back, and keeps its position.
#[test]
fn a_savepoint_goes_under_an_older_descriptor(rt: HostRuntime) -> Result<(), Fail> {
    check_dialogue(
        &rt,
        rt.alloc(),
        &[
            ("A", "lo_from_bytea 17000 \\x616263", "17000"),
            ("A", "begin", "BEGIN"),
            ("A", BOTH, "0"),
            ("A", "lo_lseek 0 1 0", "1"),
            ("A", "savepoint s", "SAVEPOINT"),
            ("A", "lo_write 0 \\x58", "1"),
            ("A", "lo_tell 0", "2"),
            ("A", "rollback to s", "ROLLBACK"),
            ("A", "lo_tell 0", "2"),
            ("A", "lo_lseek 0 0 0", "0"),
            ("A", "lo_read 0 3", "\\x616263"),
            ("A", "commit", "COMMIT"),
        ],
    )
}

// A vacuum of another session takes nothing that a savepoint below can give back.
#[test]
fn a_vacuum_leaves_what_savepoints_give_back(rt: HostRuntime) -> Result<(), Fail> {
    check_dialogue(
        &rt,
        rt.alloc(),
        &[
            ("A", "lo_from_bytea 17000 \\x6f6e65", "17000"),
            ("A", "begin", "BEGIN"),
            ("A", "lo_put 17000 0 \\x74776f", "OK"),
            ("A", "savepoint s", "SAVEPOINT"),
            ("A", "lo_put 17000 0 \\x736978", "OK"),
            ("B", "vacuum", "VACUUM"),
            ("A", "rollback to s", "ROLLBACK"),
            ("A", "lo_get 17000", "\\x74776f"),
            ("A", "rollback", "ROLLBACK"),
            ("A", "lo_get 17000", "\\x6f6e65"),
        ],
    )
}

// Each session has a position of its own in the one object.
#[test]
fn sixteen_sessions_read_one_object(rt: HostRuntime) -> Result<(), Fail> {
    let alloc = rt.alloc();
    let mut dialogue = Dialogue::new(alloc);
    let mut number = Buffer::new();
    dialogue.add(
        "A",
        &["lo_from_bytea 17000 \\x000102030405060708090a0b0c0d0e0f"],
        "17000",
    )?;
    for (letter, _) in SESSIONS.iter() {
        dialogue.add(*letter, &["begin"], "BEGIN")?;
        dialogue.add(*letter, &[READ], "0")?;
    }
    for (place, (letter, _)) in SESSIONS.iter().enumerate() {
        let at = number.format(place as u32);
        dialogue.add(*letter, &["lo_lseek 0 ", at, " 0"], at)?;
    }
    let digits = "0123456789abcdef";
    for (place, (letter, _)) in SESSIONS.iter().enumerate() {
        let byte = digits.get(place..place + 1).unwrap_or("");
        let mut reply = String::from_str(alloc, "\\x0")?;
        reply.push_str(byte)?;
        dialogue.add(*letter, &["lo_read 0 1"], reply.as_str())?;
    }
    dialogue.check(&rt, alloc)
}
