//! Whole commands: words, one file, and what the two sinks took. What is to come is written by hand.

mod arrays;
mod cleaning;
mod descriptors;
mod dialogue;
mod large;
mod objects;
mod refused_memory;
mod saved;
mod sweeps;
mod tables;
mod threading;
mod transactions;

use crate::run::{Status, run};
use lo_outside::{Failed, Files, MemFiles, MemSink, OpenGate};
use std::alloc::{AllocError, Global};
use std::marker::Sync;
use std::process::Abort;
use std::test::Fail;
use std::thread::Threads;

const SCRIPT: &str = "A: lo_create 17000\nA: lo_put 17000 3 \\x41\nA: lo_get 17000\n";

const PRINTED: &str = "A: 17000\nA: OK\nA: \\x00000041\n";

const USAGE: &str = "usage: lo_tool init|script|threads|vacuumlo|import|export|list|unlink|gen\n";

const FAULT: &str = "lo_tool: input or output failed\n";

// Files that tell a size and no content, and read as some bytes whatever their name.
#[derive(Drop)]
struct Told {
    size: u64,
    bytes: &'static [u8],
}

impl Files for Told {
    ghost use Rattle.std.specs.Prelude.{false, None};

    ghost tells = { λ _. false };

    ghost folder = { λ _ _. None };

    ghost faults = { λ _. 0 };

    fn size(&mut self, _name: &str) -> Result<Option<u64>, Failed> {
        Ok(Some(self.size))
    }

    fn read(&mut self, _name: &str, at: u64, out: &mut [u8]) -> Result<usize, Failed> {
        let rest = match self.bytes.get(at as usize..) {
            Some(rest) => rest,
            None => &[],
        };
        let n = rest.len().min(out.len());
        out[..n].copy_from_slice(&rest[..n]);
        Ok(n)
    }

    fn create(&mut self, _name: &str) -> Result<(), Failed> {
        Ok(())
    }

    fn append(&mut self, _name: &str, _piece: &[u8]) -> Result<(), Failed> {
        Ok(())
    }

    fn sync(&mut self, _name: &str) -> Result<(), Failed> {
        Ok(())
    }

    fn rename(&mut self, _from: &str, _to: &str) -> Result<(), Failed> {
        Ok(())
    }
}

// One run: the words, the content of the one file, which is named `s`, the most bytes that one write takes, and the
// number of the call of the files, of standard output and of standard error that fails, if any (0: none). What is to
// come: the status, and what the two sinks took.
#[derive(Clone, Copy)]
struct Case<'a> {
    words: &'a str,
    script: &'a str,
    most: u64,
    failing: (u64, u64, u64),
    status: Status,
    printed: &'a str,
    said: &'a str,
}

fn words_of(alloc: Global, line: &str) -> Result<Vec<String>, AllocError> {
    let mut words = Vec::new(alloc);
    for word in line.split(' ') {
        words.push(String::from_str(alloc, word)?)?;
    }
    Ok(words)
}

// A sink with room for a text, and for some that is not to come.
fn sink(alloc: Global, text: &str, most: u64, failing: u64) -> Result<MemSink, Fail> {
    let mut sink = MemSink::new(alloc, text.len() as u64 + 4000, most.max(1))?;
    sink.fail(vec![in alloc; failing]?);
    Ok(sink)
}

fn one_file(alloc: Global, bytes: &[u8], failing: u64) -> Result<MemFiles, Fail> {
    let mut files = MemFiles::new(alloc, 1, bytes.len() as u64)?;
    if !files.put("s", bytes) {
        return Err(Fail::new("no room"));
    }
    files.fail(vec![in alloc; failing]?);
    Ok(files)
}

fn check<R: Abort + Threads + Sync, F: Files>(
    rt: &R,
    alloc: Global,
    files: &mut F,
    case: &Case,
) -> Result<(), Fail> {
    let words = words_of(alloc, case.words)?;
    let mut out = sink(alloc, case.printed, case.most, case.failing.1)?;
    let mut err = sink(alloc, case.said, case.most, case.failing.2)?;
    let status = run(rt, alloc, &words, files, &mut out, &mut err, &OpenGate);
    assert!(rt; status == case.status);
    assert!(rt; out.taken() == case.printed.as_bytes());
    assert!(rt; err.taken() == case.said.as_bytes());
    Ok(())
}

fn check_all<R: Abort + Threads + Sync>(rt: &R, alloc: Global, cases: &[Case]) -> Result<(), Fail> {
    for case in cases {
        let mut files = one_file(alloc, case.script.as_bytes(), case.failing.0)?;
        check(rt, alloc, &mut files, case)?;
    }
    Ok(())
}

fn done<'a>(script: &'a str, most: u64, printed: &'a str) -> Case<'a> {
    Case {
        words: "script - s",
        script,
        most,
        failing: (0, 0, 0),
        status: Status::Done,
        printed,
        said: "",
    }
}

fn printing(most: u64) -> Case<'static> {
    done(SCRIPT, most, PRINTED)
}

fn usage<'a>(words: &'a str) -> Case<'a> {
    Case {
        words,
        script: SCRIPT,
        most: 1000,
        failing: (0, 0, 0),
        status: Status::Usage,
        printed: "",
        said: USAGE,
    }
}

fn bad<'a>(words: &'a str, script: &'a str, said: &'a str) -> Case<'a> {
    Case {
        words,
        script,
        most: 1000,
        failing: (0, 0, 0),
        status: Status::BadInput,
        printed: "",
        said,
    }
}

fn faulty<'a>(
    words: &'a str,
    most: u64,
    failing: (u64, u64, u64),
    printed: &'a str,
    said: &'a str,
) -> Case<'a> {
    Case {
        words,
        script: SCRIPT,
        most,
        failing,
        status: Status::Fault,
        printed,
        said,
    }
}

#[test]
fn a_script_prints_its_replies(rt: HostRuntime) -> Result<(), Fail> {
    check_all(&rt, rt.alloc(), &[printing(1), printing(7), printing(1000)])
}

#[test]
fn other_words_are_usage(rt: HostRuntime) -> Result<(), Fail> {
    for words in [
        "",
        "script",
        "script -",
        "script - -s",
        "script - ",
        "script - s t",
        "script s -s",
        "script -s s",
        "init",
        "init -s",
        "init s 0",
        "init s 02",
        "init s 262145",
        "init s 2 3",
        "list",
        "list -s",
        "unlink s",
        "unlink s -1",
        "unlink s 4294967296",
        "threads",
        "threads s",
        "threads -s s",
        "threads s -s",
        "threads s s -s s",
        "threads s ",
        "threads s s  s",
        "threads s 1 2 3 4 5 6 7 8 9 10 11 12 13 14 15 16 17",
        "vacuumlo",
        "vacuumlo -n",
        "vacuumlo -l s",
        "vacuumlo -l x s",
        "vacuumlo -l -1 s",
        "vacuumlo -l 2147483648 s",
        "vacuumlo -l5 s",
        "vacuumlo --limit 5 s",
        "vacuumlo --limit= s",
        "vacuumlo --limit=x --limit=5 s",
        "vacuumlo -nv s",
        "vacuumlo s -n",
        "vacuumlo s t",
        "-n",
    ] {
        check_all(&rt, rt.alloc(), &[usage(words)])?;
    }
    Ok(())
}

#[test]
fn bad_input_is_named(rt: HostRuntime) -> Result<(), Fail> {
    for (words, script, said) in [
        ("script - none", SCRIPT, "lo_tool: none: no such file\n"),
        (
            "script - s",
            "A: lo_opne 5 1",
            "lo_tool: s: line 1 column 4\n",
        ),
        (
            "script - s",
            "# x\r\n\nA: lo_get\r\n",
            "lo_tool: s: line 3 column 10\n",
        ),
        (
            "script - s",
            "A: lo_create 5\nA:  lo_get 5\n",
            "lo_tool: s: line 2 column 4\n",
        ),
    ] {
        check_all(&rt, rt.alloc(), &[bad(words, script, said)])?;
    }
    Ok(())
}

// The size is asked for first, and one read follows; the third call is never made.
#[test]
fn a_file_that_fails_is_a_fault(rt: HostRuntime) -> Result<(), Fail> {
    for k in [1, 2] {
        check_all(
            &rt,
            rt.alloc(),
            &[faulty("script - s", 1000, (k, 0, 0), "", FAULT)],
        )?;
    }
    let mut last = printing(1000);
    last.failing = (3, 0, 0);
    check_all(&rt, rt.alloc(), &[last])
}

// Five bytes a write, so that six writes print the whole text.
#[test]
fn standard_output_that_fails_keeps_a_front(rt: HostRuntime) -> Result<(), Fail> {
    for (k, front) in [
        (1, ""),
        (2, "A: 17"),
        (3, "A: 17000\nA"),
        (4, "A: 17000\nA: OK\n"),
        (5, "A: 17000\nA: OK\nA: \\x"),
        (6, "A: 17000\nA: OK\nA: \\x00000"),
    ] {
        check_all(
            &rt,
            rt.alloc(),
            &[faulty("script - s", 5, (0, k, 0), front, FAULT)],
        )?;
    }
    let mut last = printing(5);
    last.failing = (0, 7, 0);
    check_all(&rt, rt.alloc(), &[last])
}

// Twenty bytes a write: what standard error took of a line stays, and nothing follows it.
#[test]
fn standard_error_that_fails_keeps_a_front(rt: HostRuntime) -> Result<(), Fail> {
    for (k, front) in [
        (1, ""),
        (2, "usage: lo_tool init|"),
        (3, "usage: lo_tool init|script|threads|vacuu"),
        (
            4,
            "usage: lo_tool init|script|threads|vacuumlo|import|export|li",
        ),
    ] {
        check_all(
            &rt,
            rt.alloc(),
            &[faulty("script", 20, (0, 0, k), "", front)],
        )?;
    }
    Ok(())
}

#[test]
fn a_told_size_is_a_limit_and_no_promise(rt: HostRuntime) -> Result<(), Fail> {
    for (size, case) in [
        (100, printing(1000)),
        (67_108_864, printing(1000)),
        (67_108_865, bad("script - s", "", "lo_tool: s: too long\n")),
    ] {
        let mut files = Told {
            size,
            bytes: SCRIPT.as_bytes(),
        };
        check(&rt, rt.alloc(), &mut files, &case)?;
    }
    Ok(())
}
