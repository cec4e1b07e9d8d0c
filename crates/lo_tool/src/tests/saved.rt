// Databases that are kept: what the image holds after each command, byte by byte, and what is left where a call fails.
use super::{Case, FAULT, PRINTED, SCRIPT, check};
use crate::run::Status;
use lo_outside::{Files, MemFiles};
use std::alloc::Global;
use std::marker::Sync;
use std::process::Abort;
use std::test::Fail;
use std::thread::Threads;

/// No table and no object, 65536 blocks, and the counter 16384.
pub const EMPTY: &[u8] = b"PGLOIMG1\x00\x00\x01\x00\x00\x40\x00\x00\x00\x00\x00\x00\x00\x00\
    \x00\x00\x00\x00\x00\x00\x00\x00\x00\x00\x00\x00\x00\x00\x00\x00";

/// The object 17000 of three zeros and an A.
pub const OBJECT: &[u8] = b"PGLOIMG1\x00\x00\x01\x00\x00\x40\x00\x00\x00\x00\x00\x00\x00\x00\
    \x00\x00\x00\x00\x00\x00\x00\x00\x01\x00\x00\x00\x00\x00\x00\x00\
    \x68\x42\x00\x00\x04\x00\x00\x00\x00\x00\x00\x00\x01\x00\x00\x00\
    \x00\x00\x00\x00\x04\x00\x00\x00\x00A";

/// Table `t` with `id` and `body`, a bytea that is external, and two rows.
const HEAD: &[u8] = b"PGLOIMG1\x00\x00\x01\x00\x00\x40\x00\x00\x00\x00\x00\x00\x01\x00\
    \x01t\x02\x02id\x01p\x04body\x04e\x02\x00\x00\x00\x00\x00\x00\x00\
    \x01\x01\x00\x00\x00\x00\x00\x00\x00\x01\xcc\x07\x00\x00";

/// Row 2, whose 1997 bytes are outside, the number of chunks, and the head of the first.
const OUTSIDE: &[u8] = b"\x01\x02\x00\x00\x00\x00\x00\x00\x00\
    \x02\x01\x12\xd1\x07\x00\x00\xcd\x07\x00\x00\x01\x00\x00\x00\x01\x00\x00\x00\
    \x02\x00\x00\x00\x00\x00\x00\x00\x01\x00\x00\x00\x00\x00\x00\x00\xcc\x07";

/// The second chunk, of one byte, and no object.
const LAST: &[u8] = b"\x01\x00\x00\x00\x01\x00\x00\x00\x01\x00b\x00\x00\x00\x00\x00\x00\x00\x00";

pub fn case<'a>(words: &'a str, status: Status, printed: &'a str, said: &'a str) -> Case<'a> {
    Case {
        words,
        script: "",
        most: 1000,
        failing: (0, 0, 0),
        status,
        printed,
        said,
    }
}

pub fn done<'a>(words: &'a str, printed: &'a str) -> Case<'a> {
    case(words, Status::Done, printed, "")
}

pub fn refused<'a>(words: &'a str, said: &'a str) -> Case<'a> {
    case(words, Status::BadInput, "", said)
}

/// A folder with a script under `s`, and some bytes under `db.img` unless there are none.
pub fn folder(alloc: Global, image: &[u8], script: &[u8]) -> Result<MemFiles, Fail> {
    let mut files = MemFiles::new(alloc, 4, 40_000)?;
    if !files.put("s", script) {
        return Err(Fail::new("no room"));
    }
    if !image.is_empty() && !files.put("db.img", image) {
        return Err(Fail::new("no room"));
    }
    Ok(files)
}

/// Fails exactly where `db.img` does not hold these bytes, or is there and none are to come.
pub fn holds(rt: &impl Abort, files: &mut MemFiles, bytes: &[u8]) -> Result<(), Fail> {
    let mut found = [0; 24_000];
    let count = files.read("db.img", 0, &mut found)?;
    assert!(rt; found.get(..count) == Some(bytes));
    Ok(())
}

#[test]
fn a_database_is_kept(rt: HostRuntime) -> Result<(), Fail> {
    let mut files = folder(rt.alloc(), b"", SCRIPT.as_bytes())?;
    check(&rt, rt.alloc(), &mut files, &done("init db.img", ""))?;
    holds(&rt, &mut files, EMPTY)?;
    check(
        &rt,
        rt.alloc(),
        &mut files,
        &done("script db.img s", PRINTED),
    )?;
    holds(&rt, &mut files, OBJECT)?;
    for (script, printed) in [
        ("", ""),
        ("A: lo_get 17000\n", "A: \\x00000041\n"),
        ("A: begin\nA: lo_unlink 17000\n", "A: BEGIN\nA: 1\n"),
        (
            "A: lo_get 5\n",
            "A: ERROR 42704: large object 5 does not exist\n",
        ),
    ] {
        assert!(rt; files.put("s", script.as_bytes()));
        check(
            &rt,
            rt.alloc(),
            &mut files,
            &done("script db.img s", printed),
        )?;
        holds(&rt, &mut files, OBJECT)?;
    }
    let said = "lo_tool: db.img: file exists\n";
    check(&rt, rt.alloc(), &mut files, &refused("init db.img", said))?;
    holds(&rt, &mut files, OBJECT)
}

#[test]
fn a_bad_image_stays(rt: HostRuntime) -> Result<(), Fail> {
    let short = EMPTY.get(..37).ok_or("37")?;
    let mut files = folder(rt.alloc(), short, b"no script")?;
    let said = "lo_tool: db.img: bad image at 30: Short\n";
    check(
        &rt,
        rt.alloc(),
        &mut files,
        &refused("script db.img s", said),
    )?;
    holds(&rt, &mut files, short)?;
    let said = "lo_tool: none: no such file\n";
    check(
        &rt,
        rt.alloc(),
        &mut files,
        &refused("script none none", said),
    )?;
    assert!(rt; files.put("db.img", EMPTY));
    let said = "lo_tool: s: line 1 column 1\n";
    check(
        &rt,
        rt.alloc(),
        &mut files,
        &refused("script db.img s", said),
    )?;
    holds(&rt, &mut files, EMPTY)
}

/// The command with the files' call of that number failing. The image is then as it was.
fn fails<R: Abort + Threads + Sync>(
    rt: &R,
    alloc: Global,
    words: &str,
    image: &[u8],
    call: u64,
) -> Result<(), Fail> {
    let mut files = folder(alloc, image, SCRIPT.as_bytes())?;
    files.fail(vec![in alloc; call]?);
    let fault = case(words, Status::Fault, "", FAULT);
    check(rt, alloc, &mut files, &fault)?;
    files.fail(Vec::new(alloc));
    holds(rt, &mut files, image)
}

// Of `init` the size, and the new file's creation, its one piece, its sync and its renaming; of a script on an image also a read
// of the image, and the size and a read of the script; of a removal the size and a read of the image, and the save.
#[test]
fn each_call_that_fails_leaves_the_image(rt: HostRuntime) -> Result<(), Fail> {
    for call in 1..=5 {
        fails(&rt, rt.alloc(), "init db.img", b"", call)?;
    }
    for call in 1..=8 {
        fails(&rt, rt.alloc(), "script db.img s", EMPTY, call)?;
    }
    for call in 1..=6 {
        fails(&rt, rt.alloc(), "unlink db.img 17000", OBJECT, call)?;
    }
    for call in 1..=2 {
        fails(&rt, rt.alloc(), "list db.img", OBJECT, call)?;
    }
    let mut files = folder(rt.alloc(), EMPTY, SCRIPT.as_bytes())?;
    files.fail(vec![in rt.alloc(); 9]?);
    check(
        &rt,
        rt.alloc(),
        &mut files,
        &done("script db.img s", PRINTED),
    )?;
    files.fail(Vec::new(rt.alloc()));
    holds(&rt, &mut files, OBJECT)
}

#[test]
fn an_image_is_saved_before_the_text_is_printed(rt: HostRuntime) -> Result<(), Fail> {
    let mut files = folder(rt.alloc(), EMPTY, SCRIPT.as_bytes())?;
    let mut lost = case("script db.img s", Status::Fault, "", FAULT);
    lost.failing = (0, 1, 0);
    check(&rt, rt.alloc(), &mut files, &lost)?;
    holds(&rt, &mut files, OBJECT)
}

#[test]
fn objects_are_told_and_removed(rt: HostRuntime) -> Result<(), Fail> {
    let script =
        b"A: lo_create 17001\nA: lo_truncate64 0 5\nA: lo_put 5 0 \\x41\nA: lo_from_bytea 7 \\x4142\n";
    let mut files = folder(rt.alloc(), OBJECT, script)?;
    check(
        &rt,
        rt.alloc(),
        &mut files,
        &done("list db.img", "17000 4\n"),
    )?;
    holds(&rt, &mut files, OBJECT)?;
    let printed = "A: 17001\nA: ERROR 42704: invalid large-object descriptor: 0\n\
        A: ERROR 42704: large object 5 does not exist\nA: 7\n";
    check(
        &rt,
        rt.alloc(),
        &mut files,
        &done("script db.img s", printed),
    )?;
    check(
        &rt,
        rt.alloc(),
        &mut files,
        &done("list db.img", "7 2\n17000 4\n17001 0\n"),
    )?;
    for (words, printed) in [
        ("unlink db.img 7", "lo_unlink 7\n"),
        ("unlink db.img 17001", "lo_unlink 17001\n"),
        ("list db.img", "17000 4\n"),
    ] {
        check(&rt, rt.alloc(), &mut files, &done(words, printed))?;
        let said = "lo_tool: ERROR 42704: large object 7 does not exist\n";
        let no_object = case("unlink db.img 7", Status::Refused, "", said);
        check(&rt, rt.alloc(), &mut files, &no_object)?;
    }
    holds(&rt, &mut files, OBJECT)?;
    let said = "lo_tool: none: no such file\n";
    check(&rt, rt.alloc(), &mut files, &refused("list none", said))?;
    check(&rt, rt.alloc(), &mut files, &refused("unlink none 7", said))
}

fn repeat(bytes: &mut Vec<u8>, count: usize, piece: &[u8]) -> Result<(), Fail> {
    for _ in 0..count {
        bytes.extend_from_slice(piece)?;
    }
    Ok(())
}

// Of a table's values one fits its row, and one is outside it, in two chunks.
#[test]
fn rows_are_kept(rt: HostRuntime) -> Result<(), Fail> {
    let mut script = Vec::new(rt.alloc());
    script.extend_from_slice(b"A: create table t id:int8 body:bytea:external\nA: insert t 1 \\x")?;
    repeat(&mut script, 1996, b"61")?;
    script.extend_from_slice(b"\nA: insert t 2 \\x")?;
    repeat(&mut script, 1997, b"62")?;
    let mut image = Vec::new(rt.alloc());
    image.extend_from_slice(HEAD)?;
    repeat(&mut image, 1996, b"a")?;
    image.extend_from_slice(OUTSIDE)?;
    repeat(&mut image, 1996, b"b")?;
    image.extend_from_slice(LAST)?;
    let mut files = folder(rt.alloc(), EMPTY, &script)?;
    let printed = "A: CREATE TABLE\nA: INSERT 1\nA: INSERT 1\n";
    check(
        &rt,
        rt.alloc(),
        &mut files,
        &done("script db.img s", printed),
    )?;
    holds(&rt, &mut files, &image)?;
    assert!(rt; files.put("s", b"B: slice t 2 body 1990 10\n"));
    let printed = "B: \\x62626262626262\n";
    check(
        &rt,
        rt.alloc(),
        &mut files,
        &done("script db.img s", printed),
    )?;
    holds(&rt, &mut files, &image)
}

/// Table `d` with `id` and two external columns, whose one row has the first value outside and 1500 bytes in it.
const TWO_VALUES: &[u8] = b"PGLOIMG1\x00\x00\x01\x00\x00\x40\x00\x00\x00\x00\x00\x00\x02\x00\
    \x01d\x03\x02id\x01p\x01a\x04e\x01b\x04e\x01\x00\x00\x00\x00\x00\x00\x00\
    \x01\x01\x00\x00\x00\x00\x00\x00\x00\
    \x02\x01\x12\xe0\x05\x00\x00\xdc\x05\x00\x00\x01\x00\x00\x00\x01\x00\x00\x00\
    \x01\xdc\x05\x00\x00";

/// Table `m` with `id` and a column of storage main; of its two rows the first has 8124 bytes in it.
const LONG_VALUES: &[u8] = b"\x01m\x02\x02id\x01p\x01v\x04m\x02\x00\x00\x00\x00\x00\x00\x00\
    \x01\x01\x00\x00\x00\x00\x00\x00\x00\x01\xbc\x1f\x00\x00";

/// The second has 8125 bytes outside. Six chunks follow, of which the first has 1500 bytes.
const LONG_OUTSIDE: &[u8] = b"\x01\x02\x00\x00\x00\x00\x00\x00\x00\
    \x02\x01\x12\xc1\x1f\x00\x00\xbd\x1f\x00\x00\x02\x00\x00\x00\x02\x00\x00\x00\
    \x06\x00\x00\x00\x00\x00\x00\x00\x01\x00\x00\x00\x00\x00\x00\x00\xdc\x05";

fn planned_image(alloc: Global) -> Result<Vec<u8>, Fail> {
    let mut image = Vec::new(alloc);
    image.extend_from_slice(TWO_VALUES)?;
    repeat(&mut image, 1500, b"b")?;
    image.extend_from_slice(LONG_VALUES)?;
    repeat(&mut image, 8124, b"c")?;
    image.extend_from_slice(LONG_OUTSIDE)?;
    repeat(&mut image, 1500, b"a")?;
    for chunk in 0..4 {
        image.extend_from_slice(&[2, 0, 0, 0, chunk, 0, 0, 0, 0xcc, 7])?;
        repeat(&mut image, 1996, b"d")?;
    }
    image.extend_from_slice(&[2, 0, 0, 0, 4, 0, 0, 0, 0x8d, 0])?;
    repeat(&mut image, 141, b"d")?;
    repeat(&mut image, 8, b"\x00")?;
    Ok(image)
}

// Of two values of 1500 bytes the first moves out; of storage main 8124 bytes fit their row, and 8125 move out.
#[test]
fn rows_lie_as_they_are_planned(rt: HostRuntime) -> Result<(), Fail> {
    let mut script = Vec::new(rt.alloc());
    script.extend_from_slice(b"A: create table m id:int8 v:bytea:main\nA: insert m 1 \\x")?;
    repeat(&mut script, 8124, b"63")?;
    script.extend_from_slice(b"\nA: insert m 2 \\x")?;
    repeat(&mut script, 8125, b"64")?;
    script.extend_from_slice(b"\nA: create table d id:int8 a:bytea:external b:bytea:external\n")?;
    script.extend_from_slice(b"A: insert d 1 \\x")?;
    repeat(&mut script, 1500, b"61")?;
    script.extend_from_slice(b" \\x")?;
    repeat(&mut script, 1500, b"62")?;
    let mut files = folder(rt.alloc(), EMPTY, &script)?;
    let printed = "A: CREATE TABLE\nA: INSERT 1\nA: INSERT 1\nA: CREATE TABLE\nA: INSERT 1\n";
    check(
        &rt,
        rt.alloc(),
        &mut files,
        &done("script db.img s", printed),
    )?;
    holds(&rt, &mut files, &planned_image(rt.alloc())?)
}
