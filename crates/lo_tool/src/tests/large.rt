//! Scripts far past small numbers, whose whole output is compared: a body that gives up early is refused here alone.
use super::dialogue::{Dialogue, SESSIONS};
use itoa::Buffer;
use std::alloc::{AllocError, Global};
use std::test::Fail;

const DIGITS: [&str; 16] = [
    "0", "1", "2", "3", "4", "5", "6", "7", "8", "9", "a", "b", "c", "d", "e", "f",
];

/// The most bytes that one put takes.
const MOST_BYTES: usize = 8_388_608;

/// `\x` and two digits for each of the bytes, and that so many times.
fn hex_of(alloc: Global, bytes: &[u8], times: usize) -> Result<String, AllocError> {
    let mut once = String::new(alloc);
    for byte in bytes {
        once.push_str(DIGITS[(*byte / 16) as usize])?;
        once.push_str(DIGITS[(*byte % 16) as usize])?;
    }
    let mut text = String::from_str(alloc, "\\x")?;
    for _ in 0..times {
        text.push_str(once.as_str())?;
    }
    Ok(text)
}

/// The bytes from one to another, the last one included.
fn bytes_to(alloc: Global, from: u8, to: u8) -> Result<Vec<u8>, AllocError> {
    let mut bytes = Vec::new(alloc);
    for byte in from..=to {
        bytes.push(byte)?;
    }
    Ok(bytes)
}

/// A put of one byte at an offset.
fn put(
    dialogue: &mut Dialogue,
    alloc: Global,
    session: (&str, &str),
    at: u32,
    byte: u8,
) -> Result<(), AllocError> {
    let mut number = Buffer::new();
    let offset = number.format(at);
    let byte = hex_of(alloc, &[byte], 1)?;
    let request = ["lo_put ", session.1, " ", offset, " ", byte.as_str()];
    dialogue.add(session.0, &request, "OK")
}

// Each of 100 savepoints covers one byte more, and each rollback takes one byte back.
#[test]
fn a_hundred_savepoints_nest(rt: HostRuntime) -> Result<(), Fail> {
    let alloc = rt.alloc();
    let mut dialogue = Dialogue::new(alloc);
    let mut number = Buffer::new();
    dialogue.add("A", &["lo_create 17001"], "17001")?;
    dialogue.add("A", &["begin"], "BEGIN")?;
    for i in 0..100_u8 {
        dialogue.add("A", &["savepoint s", number.format(i)], "SAVEPOINT")?;
        put(&mut dialogue, alloc, ("A", "17001"), i as u32, i + 1)?;
    }
    for i in (0..100_u8).rev() {
        let left = hex_of(alloc, &bytes_to(alloc, 1, i + 1)?, 1)?;
        dialogue.add("A", &["lo_get 17001"], left.as_str())?;
        dialogue.add("A", &["rollback to s", number.format(i)], "ROLLBACK")?;
    }
    dialogue.add("A", &["lo_get 17001"], "\\x")?;
    dialogue.add("A", &["commit"], "COMMIT")?;
    dialogue.check(&rt, alloc)
}

// Put number i writes the byte i / 100 + i % 100 at i % 100, so that the last hundred of 2,000 leave the bytes 19 to 118.
#[test]
fn an_object_is_changed_two_thousand_times(rt: HostRuntime) -> Result<(), Fail> {
    let alloc = rt.alloc();
    let mut dialogue = Dialogue::new(alloc);
    dialogue.add("A", &["lo_create 17001"], "17001")?;
    for i in 0..2000_u32 {
        put(
            &mut dialogue,
            alloc,
            ("A", "17001"),
            i % 100,
            (i / 100 + i % 100) as u8,
        )?;
    }
    let last = hex_of(alloc, &bytes_to(alloc, 19, 118)?, 1)?;
    dialogue.add("A", &["lo_get 17001"], last.as_str())?;
    dialogue.add("P", &["lo_get 17001"], last.as_str())?;
    dialogue.check(&rt, alloc)
}

// Sixteen sessions of 100 lines each, in turn: all have a transaction open at once.
#[test]
fn sixteen_sessions_have_a_hundred_lines_each(rt: HostRuntime) -> Result<(), Fail> {
    let alloc = rt.alloc();
    let mut dialogue = Dialogue::new(alloc);
    for (letter, object) in SESSIONS.iter() {
        dialogue.add(*letter, &["begin"], "BEGIN")?;
        dialogue.add(*letter, &["lo_create ", *object], *object)?;
    }
    for byte in 1..=96_u8 {
        for session in SESSIONS.iter() {
            put(&mut dialogue, alloc, *session, byte as u32 - 1, byte)?;
        }
    }
    let written = hex_of(alloc, &bytes_to(alloc, 1, 96)?, 1)?;
    for (letter, object) in SESSIONS.iter() {
        dialogue.add(*letter, &["commit"], "COMMIT")?;
        dialogue.add(*letter, &["lo_get ", *object], written.as_str())?;
    }
    dialogue.check(&rt, alloc)
}

// The 256 bytes from 0 to 255, again and again, fill the most that one put takes.
#[test]
fn the_longest_put_is_read_back(rt: HostRuntime) -> Result<(), Fail> {
    let alloc = rt.alloc();
    let mut dialogue = Dialogue::new(alloc);
    let all = hex_of(alloc, &bytes_to(alloc, 0, 255)?, MOST_BYTES / 256)?;
    dialogue.add("A", &["lo_create 17001"], "17001")?;
    dialogue.add("A", &["lo_put 17001 0 ", all.as_str()], "OK")?;
    dialogue.add("A", &["lo_get 17001"], all.as_str())?;
    dialogue.check(&rt, alloc)
}

// Twenty thousand puts of 100 bytes side by side, and as many gets of 100 bytes.
#[test]
fn twenty_thousand_pieces_are_put_and_got(rt: HostRuntime) -> Result<(), Fail> {
    let alloc = rt.alloc();
    let mut dialogue = Dialogue::new(alloc);
    let mut number = Buffer::new();
    dialogue.add("A", &["lo_create 17001"], "17001")?;
    for piece in 0..20_000_u32 {
        let bytes = hex_of(alloc, &[(piece % 251) as u8], 100)?;
        let at = number.format(piece * 100);
        dialogue.add("A", &["lo_put 17001 ", at, " ", bytes.as_str()], "OK")?;
    }
    for piece in 0..20_000_u32 {
        let bytes = hex_of(alloc, &[(piece % 251) as u8], 100)?;
        let at = number.format(piece * 100);
        dialogue.add("B", &["lo_get 17001 ", at, " 100"], bytes.as_str())?;
    }
    dialogue.check(&rt, alloc)
}

// Twenty thousand puts into one page, with a vacuum after every ten.
#[test]
fn one_page_is_put_twenty_thousand_times(rt: HostRuntime) -> Result<(), Fail> {
    let alloc = rt.alloc();
    let mut dialogue = Dialogue::new(alloc);
    dialogue.add("A", &["lo_create 17001"], "17001")?;
    for times in 0..20_000_u32 {
        put(
            &mut dialogue,
            alloc,
            ("A", "17001"),
            times % 100,
            (times % 251) as u8,
        )?;
        if times % 10 == 9 {
            dialogue.add("B", &["vacuum"], "VACUUM")?;
        }
    }
    // The last hundred are numbers 19900 to 19999, and 19900 % 251 is 71.
    let last = hex_of(alloc, &bytes_to(alloc, 71, 170)?, 1)?;
    dialogue.add("A", &["lo_get 17001"], last.as_str())?;
    dialogue.check(&rt, alloc)
}
