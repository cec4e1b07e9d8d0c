//! The command `vacuumlo`, with all that it prints and the database that it leaves.
use super::saved::done;
use super::{Case, FAULT, check};
use crate::run::Status;
use lo_outside::MemFiles;
use std::alloc::Global;
use std::marker::Sync;
use std::process::Abort;
use std::test::Fail;
use std::thread::Threads;

/// The objects 17000 to 17004, of which a column of type oid names one and a column of type lo another.
const PICTURES: &str =
    "A: lo_create 17000\nA: lo_create 17001\nA: lo_create 17002\nA: lo_create 17003\n\
    A: lo_create 17004\nA: create table a id:int8 o:oid\nA: create table b id:int8 p:lo\n\
    A: insert a 1 17000\nA: insert b 1 17003\n";

const MADE: &str =
    "A: 17000\nA: 17001\nA: 17002\nA: 17003\nA: 17004\nA: CREATE TABLE\nA: CREATE TABLE\n\
    A: INSERT 1\nA: INSERT 1\n";

const ALL: &str = "17000 0\n17001 0\n17002 0\n17003 0\n17004 0\n";

const NAMED: &str = "17000 0\n17003 0\n";

/// A folder with a script under `s`, and under `db.img` the database that it makes.
fn made<R: Abort + Threads + Sync>(
    rt: &R,
    alloc: Global,
    script: &str,
    printed: &str,
) -> Result<MemFiles, Fail> {
    let mut files = MemFiles::new(alloc, 4, 40_000)?;
    assert!(rt; files.put("s", script.as_bytes()));
    check(rt, alloc, &mut files, &done("init db.img", ""))?;
    check(rt, alloc, &mut files, &done("script db.img s", printed))?;
    Ok(files)
}

fn all_done<R: Abort + Threads + Sync>(
    rt: &R,
    alloc: Global,
    files: &mut MemFiles,
    cases: &[(&str, &str)],
) -> Result<(), Fail> {
    for (words, printed) in cases {
        check(rt, alloc, files, &done(words, printed))?;
    }
    Ok(())
}

#[test]
fn what_no_column_names_is_removed(rt: HostRuntime) -> Result<(), Fail> {
    let mut files = made(&rt, rt.alloc(), PICTURES, MADE)?;
    let would = "listed 5\nchecked a.o\nchecked b.p\nwould remove 17001\nwould remove 17002\n\
        would remove 17004\nwould remove 3 large objects\n";
    let removed =
        "listed 5\nchecked a.o\nchecked b.p\nremoving 17001\nremoving 17002\ncommitted 2\n\
        removing 17004\ncommitted 1\nremoved 3 large objects\n";
    all_done(
        &rt,
        rt.alloc(),
        &mut files,
        &[
            ("vacuumlo -n -v db.img", would),
            ("list db.img", ALL),
            ("vacuumlo -n db.img", "would remove 3 large objects\n"),
            ("vacuumlo -v -l 2 db.img", removed),
            ("list db.img", NAMED),
            ("vacuumlo db.img", ""),
            ("list db.img", NAMED),
        ],
    )
}

#[test]
fn options_come_in_any_order(rt: HostRuntime) -> Result<(), Fail> {
    let would = "would remove 3 large objects\n";
    let one = "listed 5\nchecked a.o\nchecked b.p\nremoving 17001\ncommitted 1\nremoving 17002\n\
        committed 1\nremoving 17004\ncommitted 1\nremoved 3 large objects\n";
    let whole =
        "listed 5\nchecked a.o\nchecked b.p\nremoving 17001\nremoving 17002\nremoving 17004\n\
        committed 3\nremoved 3 large objects\n";
    for (words, printed) in [
        ("vacuumlo --dry-run db.img", would),
        ("vacuumlo -l 0 -n -n db.img", would),
        ("vacuumlo --limit=1 -v db.img", one),
        ("vacuumlo -v --limit=2 -l 1 db.img", one),
        ("vacuumlo -l 0 --verbose db.img", whole),
        ("vacuumlo -l 2147483647 -v db.img", whole),
        ("vacuumlo -v -v db.img", whole),
    ] {
        let mut files = made(&rt, rt.alloc(), PICTURES, MADE)?;
        all_done(&rt, rt.alloc(), &mut files, &[(words, printed)])?;
    }
    Ok(())
}

#[test]
fn an_empty_database_has_nothing_to_remove(rt: HostRuntime) -> Result<(), Fail> {
    let mut files = made(&rt, rt.alloc(), "", "")?;
    all_done(
        &rt,
        rt.alloc(),
        &mut files,
        &[
            ("vacuumlo db.img", ""),
            ("vacuumlo -v db.img", "listed 0\nremoved 0 large objects\n"),
            ("vacuumlo -n db.img", "would remove 0 large objects\n"),
        ],
    )?;
    let mut none = done("vacuumlo none", "");
    none.status = Status::BadInput;
    none.said = "lo_tool: none: no such file\n";
    check(&rt, rt.alloc(), &mut files, &none)
}

/// The command with the files' call of that number failing, after which the image is as it was.
fn fails<R: Abort + Threads + Sync>(
    rt: &R,
    alloc: Global,
    words: &str,
    call: u64,
) -> Result<(), Fail> {
    let mut files = made(rt, alloc, PICTURES, MADE)?;
    files.fail(vec![in alloc; call]?);
    let mut fault: Case = done(words, "");
    fault.status = Status::Fault;
    fault.said = FAULT;
    check(rt, alloc, &mut files, &fault)?;
    files.fail(Vec::new(alloc));
    all_done(rt, alloc, &mut files, &[("list db.img", ALL)])
}

// The size and the read of the image, and of a run that saves the new file's creation, its one piece, its sync and its renaming.
#[test]
fn each_call_that_fails_leaves_the_image(rt: HostRuntime) -> Result<(), Fail> {
    for call in 1..=6 {
        fails(&rt, rt.alloc(), "vacuumlo -v db.img", call)?;
    }
    for call in 1..=2 {
        fails(&rt, rt.alloc(), "vacuumlo -n db.img", call)?;
    }
    Ok(())
}

#[test]
fn an_image_is_saved_before_the_text_is_printed(rt: HostRuntime) -> Result<(), Fail> {
    let mut files = made(&rt, rt.alloc(), PICTURES, MADE)?;
    let mut lost: Case = done("vacuumlo -v db.img", "");
    lost.status = Status::Fault;
    lost.said = FAULT;
    lost.failing = (0, 1, 0);
    check(&rt, rt.alloc(), &mut files, &lost)?;
    all_done(&rt, rt.alloc(), &mut files, &[("list db.img", NAMED)])
}
