// Images that are read, and what is wrong of others: an image of an object and one of a table, each changed in one place.
mod changed_bytes;
mod outside;
mod writing;

use crate::{BadImage, Defect, ImageError, read_image};
use std::alloc::Global;
use std::process::Abort;

/// What is done to an image.
#[derive(Clone, Copy)]
enum Change {
    Nothing,
    /// Only so many of its bytes are there.
    Cut(usize),
    /// Other bytes stand from a place on.
    Put(usize, &'static [u8]),
    /// So many bytes from two places on stand in each other's place.
    Swap(usize, usize, usize),
    /// So many bytes from a place on are zeros.
    Zeros(usize, usize),
    /// A byte follows.
    More,
}

use Change::*;
use Defect::*;

/// An image after a change, and the place and kind of the first field that does not hold.
type Case = (Change, Option<(u64, Defect)>);

/// 65536 blocks, and object 17000 of the four bytes 0 0 0 A.
const OBJECT: &[u8] = b"PGLOIMG1\x00\x00\x01\x00\x00\x40\x00\x00\x00\x00\x00\x00\x00\x00\
    \x00\x00\x00\x00\x00\x00\x00\x00\x01\x00\x00\x00\x00\x00\x00\x00\
    \x68\x42\x00\x00\x04\x00\x00\x00\x00\x00\x00\x00\x01\x00\x00\x00\
    \x00\x00\x00\x00\x04\x00\x00\x00\x00A";

const OF_OBJECT: [Case; 41] = [
    (Nothing, None),
    (Cut(0), Some((0, Short))),
    (Cut(7), Some((0, Short))),
    (Cut(8), Some((8, Short))),
    (Cut(11), Some((8, Short))),
    (Cut(12), Some((12, Short))),
    (Cut(20), Some((20, Short))),
    (Cut(22), Some((22, Short))),
    (Cut(29), Some((22, Short))),
    (Cut(30), Some((30, Short))),
    (Cut(38), Some((38, Short))),
    (Cut(42), Some((42, Short))),
    (Cut(50), Some((50, Short))),
    (Cut(54), Some((54, Short))),
    (Cut(58), Some((58, Short))),
    (Cut(60), Some((60, Short))),
    (Cut(63), Some((60, Short))),
    (Put(0, b"p"), Some((0, Magic))),
    (Put(7, b"2"), Some((0, Magic))),
    (Put(8, &[0, 0, 0, 0]), Some((8, Range))),
    (Put(8, &[0, 0, 4, 0]), None),
    (Put(8, &[1, 0, 4, 0]), Some((8, Range))),
    (Put(12, &[255, 63]), Some((12, Range))),
    (Put(12, &[0, 0, 0, 0, 1]), None),
    (Put(12, &[1, 0, 0, 0, 1]), Some((12, Range))),
    (Put(20, &[233, 3]), Some((20, Range))),
    (Put(22, &[1]), Some((22, Mismatch))),
    (Put(30, &[0]), Some((38, Extra))),
    (Put(30, &[2]), Some((64, Short))),
    (Put(38, &[0, 0]), Some((38, Range))),
    (Put(42, &[0, 0, 0, 0, 0, 4]), Some((42, Range))),
    (Put(42, &[0, 248, 255, 255, 255, 3]), Some((58, Mismatch))),
    (Put(42, &[4, 8]), Some((58, Mismatch))),
    (Put(50, &[2]), Some((50, Mismatch))),
    (Put(50, &[0]), Some((54, Extra))),
    (Put(54, &[1]), Some((54, Mismatch))),
    (Put(58, &[3]), Some((58, Mismatch))),
    (Put(58, &[5]), Some((58, Mismatch))),
    (Put(60, &[0, 0, 0, 0]), Some((60, Range))),
    (Put(60, &[1, 0, 0, 0]), None),
    (More, Some((64, Extra))),
];

/// Table `t` with the columns `id` and `body`, an external bytea, and the row of id 1 with a null.
const TABLE: &[u8] = b"PGLOIMG1\x00\x00\x01\x00\x00\x40\x00\x00\x00\x00\x00\x00\x01\x00\
    \x01t\x02\x02id\x01p\x04body\x04e\x01\x00\x00\x00\x00\x00\x00\x00\
    \x01\x01\x00\x00\x00\x00\x00\x00\x00\x00\
    \x00\x00\x00\x00\x00\x00\x00\x00\x00\x00\x00\x00\x00\x00\x00\x00";

const OF_TABLE: [Case; 35] = [
    (Nothing, None),
    (Cut(22), Some((22, Short))),
    (Cut(23), Some((22, Short))),
    (Cut(24), Some((24, Short))),
    (Cut(27), Some((25, Short))),
    (Cut(28), Some((28, Short))),
    (Cut(29), Some((29, Short))),
    (Cut(34), Some((30, Short))),
    (Cut(37), Some((37, Short))),
    (Cut(45), Some((45, Short))),
    (Cut(53), Some((46, Short))),
    (Cut(54), Some((54, Short))),
    (Cut(55), Some((55, Short))),
    (Put(20, &[2]), Some((55, Range))),
    (Put(22, &[0]), Some((22, Range))),
    (Put(23, b" "), Some((22, Range))),
    (Put(24, &[0]), Some((24, Range))),
    (Put(24, &[33]), Some((24, Range))),
    (Put(26, b"ie"), Some((25, Range))),
    (Put(28, &[2]), Some((28, Range))),
    (Put(29, b"e"), Some((29, Range))),
    (Put(35, &[0]), Some((35, Range))),
    (Put(35, &[6]), Some((35, Range))),
    (Put(35, &[1]), Some((36, Range))),
    (Put(35, &[5]), None),
    (Put(36, b"y"), Some((36, Range))),
    (Put(36, b"m"), None),
    (Put(37, &[0]), Some((45, Mismatch))),
    (Put(37, &[2]), Some((55, Range))),
    (Put(45, &[0]), Some((45, Range))),
    (Put(45, &[2]), Some((45, Range))),
    (Put(54, &[1]), Some((67, Short))),
    (Put(54, &[2]), Some((55, Mismatch))),
    (Put(54, &[3]), Some((54, Range))),
    (More, Some((71, Extra))),
];

fn set(rt: &impl Abort, bytes: &mut [u8], at: usize, index: usize, byte: u8) {
    let place = at.checked_add(index).expect(rt, "a place");
    *bytes.get_mut(place).expect(rt, "a byte") = byte;
}

fn get(rt: &impl Abort, bytes: &[u8], at: usize, index: usize) -> u8 {
    let place = at.checked_add(index).expect(rt, "a place");
    *bytes.get(place).expect(rt, "a byte")
}

/// An image after a change.
fn changed(rt: &impl Abort, alloc: Global, image: &[u8], change: Change) -> Vec<u8> {
    let mut bytes = Vec::from_slice(alloc, image).expect(rt, "memory");
    match change {
        Nothing => {}
        Cut(count) => bytes.truncate(count),
        Put(at, piece) => {
            for (index, byte) in piece.iter().enumerate() {
                set(rt, &mut bytes, at, index, *byte);
            }
        }
        Swap(one, two, count) => {
            for index in 0..count {
                set(rt, &mut bytes, one, index, get(rt, image, two, index));
                set(rt, &mut bytes, two, index, get(rt, image, one, index));
            }
        }
        Zeros(at, count) => {
            for index in 0..count {
                set(rt, &mut bytes, at, index, 0);
            }
        }
        More => bytes.push(0).expect(rt, "memory"),
    }
    bytes
}

fn check(rt: &impl Abort, alloc: Global, image: &[u8], cases: &[Case]) {
    for (change, expected) in cases {
        let bytes = changed(rt, alloc, image, *change);
        let bad = match read_image(alloc, &bytes) {
            Ok(_opening) => None,
            Err(ImageError::Bad(BadImage { offset, kind })) => Some((offset, kind)),
            Err(ImageError::NoMemory) => panic!(rt; "memory"),
        };
        assert_eq!(rt; bad, *expected);
    }
}

#[test]
fn an_image_of_an_object(rt: HostRuntime) {
    check(&rt, rt.alloc(), OBJECT, &OF_OBJECT);
}

#[test]
fn an_image_of_a_table(rt: HostRuntime) {
    check(&rt, rt.alloc(), TABLE, &OF_TABLE);
}
