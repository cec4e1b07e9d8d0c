// Images that are written: their bytes, in how many calls, and what is left where a call fails.
use super::{OBJECT, TABLE, outside};
use crate::{read_image, write_image};
use lo_opening::Opening;
use lo_outside::{Failed, Files, MemFiles};
use std::alloc::Global;
use std::process::Abort;

/// No table and no object, 65536 blocks, and the counter 16384.
const EMPTY: &[u8] = b"PGLOIMG1\x00\x00\x01\x00\x00\x40\x00\x00\x00\x00\x00\x00\x00\x00\
    \x00\x00\x00\x00\x00\x00\x00\x00\x00\x00\x00\x00\x00\x00\x00\x00";

/// A folder that has a file of the name `image` already.
fn folder(rt: &impl Abort, alloc: Global) -> MemFiles {
    let mut files = MemFiles::new(alloc, 3, 12_000).expect(rt, "memory");
    assert_eq!(rt; files.put("image", b"what stood there before"), true);
    assert_eq!(rt; files.put("other", b"kept"), true);
    files
}

fn opening_of(rt: &impl Abort, alloc: Global, image: &[u8]) -> Opening {
    match read_image(alloc, image) {
        Ok(opening) => opening,
        Err(_) => panic!(rt; "no image"),
    }
}

/// Fails exactly where the file does not hold these bytes.
fn holds(rt: &impl Abort, files: &mut MemFiles, name: &str, bytes: &[u8]) {
    let mut found = [0; 12_000];
    let count = files.read(name, 0, &mut found).expect(rt, "a file");
    assert_eq!(rt; count, bytes.len());
    assert_eq!(rt; found.get(..count).expect(rt, "a front") == bytes, true);
}

/// The image read is written again as it was, under a new name and over another file.
fn is_written(rt: &impl Abort, alloc: Global, image: &[u8]) {
    let opening = opening_of(rt, alloc, image);
    let mut files = folder(rt, alloc);
    for name in ["image", "new"] {
        assert_eq!(rt; write_image(&opening, &mut files, name), Ok(()));
        holds(rt, &mut files, name, image);
    }
    holds(rt, &mut files, "other", b"kept");
}

/// With the call of that number failing.
fn with_fault(rt: &impl Abort, alloc: Global, image: &[u8], call: u64) -> Result<(), Failed> {
    let opening = opening_of(rt, alloc, image);
    let mut files = folder(rt, alloc);
    let mut calls = Vec::new(alloc);
    calls.push(call).expect(rt, "memory");
    files.fail(calls);
    let result = write_image(&opening, &mut files, "image");
    files.fail(Vec::new(alloc));
    holds(rt, &mut files, "other", b"kept");
    result
}

#[test]
fn an_image_is_written_as_it_was_read(rt: HostRuntime) {
    assert_eq!(rt; EMPTY.len(), 38);
    assert_eq!(rt; OBJECT.len(), 64);
    let long = outside::image(&rt, rt.alloc());
    for image in [EMPTY, OBJECT, TABLE, &long] {
        is_written(&rt, rt.alloc(), image);
    }
}

#[test]
fn each_call_that_fails_is_told(rt: HostRuntime) {
    let alloc = rt.alloc();
    let long = outside::image(&rt, alloc);
    for (call, want) in [(1, Err(Failed)), (2, Err(Failed)), (3, Ok(()))] {
        assert_eq!(rt; with_fault(&rt, alloc, OBJECT, call), want);
    }
    // The pieces are of 8192 and of 2007 bytes.
    for (call, want) in [
        (1, Err(Failed)),
        (2, Err(Failed)),
        (3, Err(Failed)),
        (4, Ok(())),
    ] {
        assert_eq!(rt; with_fault(&rt, alloc, &long, call), want);
    }
}

#[test]
fn a_failed_piece_leaves_a_front(rt: HostRuntime) {
    let alloc = rt.alloc();
    let long = outside::image(&rt, alloc);
    let opening = opening_of(&rt, alloc, &long);
    let mut files = MemFiles::new(alloc, 1, 9000).expect(&rt, "memory");
    assert_eq!(rt; write_image(&opening, &mut files, "image"), Err(Failed));
    // Half of the second piece had no room, and so much was added as had.
    let front = long.get(..9000).expect(&rt, "a front");
    holds(&rt, &mut files, "image", front);
    assert_eq!(rt;
        write_image(&opening, &mut files, "a second name"),
        Err(Failed)
    );
}
