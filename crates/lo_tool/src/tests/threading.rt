//! The command `threads`. Which order the threads take is open, so what is to come is what every order gives, or what a script
//! of the printed order gives.
use super::saved::{EMPTY, OBJECT, case, done, folder, holds, refused};
use super::{FAULT, PRINTED, check, words_of};
use crate::run::{Status, run};
use lo_outside::{Files, MemFiles, MemSink, OpenGate};
use std::alloc::{AllocError, Global};
use std::marker::Sync;
use std::process::Abort;
use std::test::Fail;
use std::thread::Threads;

/// The lines of `SCRIPT` with no marks.
const PROGRAM: &[u8] = b"lo_create 17000\n# a hole\nlo_put 17000 3 \\x41\n\nlo_get 17000\n";

/// What a command that is done prints.
fn printed<R: Abort + Threads + Sync>(
    rt: &R,
    alloc: Global,
    files: &mut MemFiles,
    words: &str,
) -> Result<MemSink, Fail> {
    let words = words_of(alloc, words)?;
    let mut out = MemSink::new(alloc, 20_000, 1000)?;
    let mut err = MemSink::new(alloc, 1000, 1000)?;
    let status = run(rt, alloc, &words, files, &mut out, &mut err, &OpenGate);
    assert!(rt; status == Status::Done);
    assert!(rt; err.taken().is_empty());
    Ok(out)
}

/// The lines of a text that begin with a letter, with their line feeds.
fn lines_of(alloc: Global, text: &[u8], letter: u8) -> Result<Vec<u8>, AllocError> {
    let mut lines = Vec::new(alloc);
    for line in text.split_inclusive(|byte| *byte == b'\n') {
        if line.first() == Some(&letter) {
            lines.extend_from_slice(line)?;
        }
    }
    Ok(lines)
}

#[test]
fn one_program_runs_in_its_order(rt: HostRuntime) -> Result<(), Fail> {
    let mut files = folder(rt.alloc(), EMPTY, PROGRAM)?;
    check(
        &rt,
        rt.alloc(),
        &mut files,
        &done("threads db.img s", PRINTED),
    )?;
    holds(&rt, &mut files, OBJECT)?;
    assert!(rt; files.put("s", b""));
    check(&rt, rt.alloc(), &mut files, &done("threads db.img s s", ""))?;
    holds(&rt, &mut files, OBJECT)
}

#[test]
fn two_programs_keep_their_orders(rt: HostRuntime) -> Result<(), Fail> {
    let alloc = rt.alloc();
    let mut files = folder(alloc, EMPTY, PROGRAM)?;
    assert!(rt; files.put("p2", b"lo_get 5\nbegin\nlo_create 16000\n"));
    let out = printed(&rt, alloc, &mut files, "threads db.img s p2")?;
    let second = "B: ERROR 42704: large object 5 does not exist\nB: BEGIN\nB: 16000\n";
    assert!(rt; lines_of(alloc, out.taken(), b'A')?.as_slice() == PRINTED.as_bytes());
    assert!(rt; lines_of(alloc, out.taken(), b'B')?.as_slice() == second.as_bytes());
    assert!(rt; out.taken().len() == PRINTED.len() + second.len());
    holds(&rt, &mut files, OBJECT)
}

#[test]
fn the_first_file_of_no_use_is_named(rt: HostRuntime) -> Result<(), Fail> {
    let mut files = folder(rt.alloc(), OBJECT, PROGRAM)?;
    assert!(rt; files.put("p2", b"A: begin\n"));
    assert!(rt; files.put("p3", b"begin\n\ncommit 2\n"));
    for (words, said) in [
        ("threads none none", "lo_tool: none: no such file\n"),
        ("threads s none p2", "lo_tool: s: bad image at 0: Magic\n"),
        ("threads db.img s none p2", "lo_tool: none: no such file\n"),
        ("threads db.img s p2 none", "lo_tool: p2: line 1 column 1\n"),
        ("threads db.img s s p3 p2", "lo_tool: p3: line 3 column 8\n"),
    ] {
        check(&rt, rt.alloc(), &mut files, &refused(words, said))?;
        holds(&rt, &mut files, OBJECT)?;
    }
    Ok(())
}

// Of each file the size and a read, and the creation of the new one, its one piece, its sync and its renaming.
#[test]
fn each_call_that_fails_leaves_the_image(rt: HostRuntime) -> Result<(), Fail> {
    for call in 1..=10 {
        let mut files = folder(rt.alloc(), EMPTY, PROGRAM)?;
        files.fail(vec![in rt.alloc(); call]?);
        let fault = case("threads db.img s s", Status::Fault, "", FAULT);
        check(&rt, rt.alloc(), &mut files, &fault)?;
        files.fail(Vec::new(rt.alloc()));
        holds(&rt, &mut files, EMPTY)?;
    }
    Ok(())
}

#[test]
fn an_image_is_saved_before_the_text_is_printed(rt: HostRuntime) -> Result<(), Fail> {
    let mut files = folder(rt.alloc(), EMPTY, PROGRAM)?;
    let mut lost = case("threads db.img s", Status::Fault, "", FAULT);
    lost.failing = (0, 1, 0);
    check(&rt, rt.alloc(), &mut files, &lost)?;
    holds(&rt, &mut files, OBJECT)
}

/// The lines of every program. What is replied to some of them depends on the order.
const LINES: [&[u8]; 6] = [
    b"lo_creat 0\n",
    b"begin\n",
    b"lo_put 17000 1 \\x42\n",
    b"lo_creat 0\n",
    b"commit\n",
    b"lo_get 17000\n",
];

/// The script whose lines are those of the programs in the order of some printed lines.
fn script_of(alloc: Global, printed: &[u8]) -> Result<Vec<u8>, Fail> {
    let mut script = Vec::new(alloc);
    let mut counts = [0; 16];
    for line in printed.split_inclusive(|byte| *byte == b'\n') {
        let letter = *line.first().ok_or("no letter")?;
        let place = letter.checked_sub(b'A').ok_or("no letter")? as usize;
        let count = *counts.get(place).ok_or("no session")?;
        script.extend_from_slice(&[letter, b':', b' '])?;
        script.extend_from_slice(LINES.get(count).ok_or("too many lines")?)?;
        counts[place] = count + 1;
    }
    for count in counts {
        if count != LINES.len() {
            return Err(Fail::new("a line is left out"));
        }
    }
    Ok(script)
}

fn image_of(alloc: Global, files: &mut MemFiles) -> Result<Vec<u8>, Fail> {
    let mut found = [0; 24_000];
    let count = files.read("db.img", 0, &mut found)?;
    let mut image = Vec::new(alloc);
    image.extend_from_slice(found.get(..count).ok_or("too long")?)?;
    Ok(image)
}

// Sixteen programs that meet at one object and at the counter: a script in the order that they took prints and leaves the same.
#[test]
fn a_script_of_the_order_does_the_same(rt: HostRuntime) -> Result<(), Fail> {
    let alloc = rt.alloc();
    let mut program = Vec::new(alloc);
    for line in LINES {
        program.extend_from_slice(line)?;
    }
    let mut files = folder(alloc, OBJECT, &program)?;
    let words = "threads db.img s s s s s s s s s s s s s s s s";
    let out = printed(&rt, alloc, &mut files, words)?;
    let image = image_of(alloc, &mut files)?;
    let mut files = folder(alloc, OBJECT, &script_of(alloc, out.taken())?)?;
    let again = printed(&rt, alloc, &mut files, "script db.img s")?;
    assert!(rt; again.taken() == out.taken());
    holds(&rt, &mut files, &image)
}
