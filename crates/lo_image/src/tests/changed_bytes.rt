// An image with a value inline and one outside, and what each of its bytes tells.
use super::outside::{fill, put};
use crate::{read_image, write_image};
use lo_outside::{Files, MemFiles};
use std::alloc::Global;
use std::process::Abort;

/// 65536 blocks; table `t` with `id` and `body`, a bytea that is external; two rows.
const HEAD: &[u8] = b"PGLOIMG1\x00\x00\x01\x00\x00\x40\x00\x00\x00\x00\x00\x00\x01\x00\
    \x01t\x02\x02id\x01p\x04body\x04e\x02\x00\x00\x00\x00\x00\x00\x00";

/// Row 1, whose 1996 bytes are inline.
const INLINE: &[u8] = b"\x01\x01\x00\x00\x00\x00\x00\x00\x00\x01\xcc\x07\x00\x00";

/// Row 2, whose 1997 bytes are outside, and how many chunks there are.
const OUTSIDE: &[u8] = b"\x01\x02\x00\x00\x00\x00\x00\x00\x00\
    \x02\x01\x12\xd1\x07\x00\x00\xcd\x07\x00\x00\x01\x00\x00\x00\x01\x00\x00\x00\
    \x02\x00\x00\x00\x00\x00\x00\x00";

fn image(rt: &impl Abort, alloc: Global) -> Vec<u8> {
    let mut bytes = Vec::new(alloc);
    put(rt, &mut bytes, HEAD);
    put(rt, &mut bytes, INLINE);
    fill(rt, &mut bytes, 1996, b'a');
    put(rt, &mut bytes, OUTSIDE);
    put(rt, &mut bytes, b"\x01\x00\x00\x00\x00\x00\x00\x00\xcc\x07");
    fill(rt, &mut bytes, 1996, b'b');
    put(rt, &mut bytes, b"\x01\x00\x00\x00\x01\x00\x00\x00\x01\x00b");
    fill(rt, &mut bytes, 8, 0);
    bytes
}

/// Whether the bytes are no image, or written as they are from the opening that was read.
fn is_told_apart(rt: &impl Abort, alloc: Global, files: &mut MemFiles, bytes: &[u8]) -> bool {
    let Ok(opening) = read_image(alloc, bytes) else {
        return true;
    };
    let mut found = [0; 5000];
    assert_eq!(rt; write_image(&opening, files, "image"), Ok(()));
    let count = files.read("image", 0, &mut found).expect(rt, "a file");
    found.get(..count) == Some(bytes)
}

#[test]
fn each_byte_tells_something(rt: HostRuntime) {
    let mut bytes = image(&rt, rt.alloc());
    let mut files = MemFiles::new(rt.alloc(), 1, 5000).expect(&rt, "memory");
    assert_eq!(rt; bytes.len(), 4116);
    assert_eq!(rt; read_image(rt.alloc(), &bytes).is_ok(), true);
    for place in 0..bytes.len() {
        let byte = bytes[place];
        bytes[place] = byte.wrapping_add(1);
        assert_eq!(rt; is_told_apart(&rt, rt.alloc(), &mut files, &bytes), true);
        bytes[place] = byte;
    }
}
