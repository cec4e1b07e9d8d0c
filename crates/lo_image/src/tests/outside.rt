// An image of more than 8192 bytes with values outside, over several chunks, and objects with holes; and what is wrong of others.
use super::{Case, Change, check};
use crate::Defect;
use Change::*;
use Defect::*;
use std::alloc::Global;
use std::process::Abort;

/// 65536 blocks; table `t` with `id`, `body` (a bytea) and `list` (an array), both external; two rows. Of row 1 the body of
/// 4000 bytes is outside under 1, and the list of 2020 bytes under 2. Row 2 has `abc` and a null. Five chunks follow.
const FRONT: &[u8] = b"PGLOIMG1\x00\x00\x01\x00\x00\x40\x00\x00\x00\x00\x00\x00\x01\x00\
    \x01t\x03\x02id\x01p\x04body\x04e\x04list\x05e\x02\x00\x00\x00\x00\x00\x00\x00\
    \x01\x01\x00\x00\x00\x00\x00\x00\x00\
    \x02\x01\x12\xa4\x0f\x00\x00\xa0\x0f\x00\x00\x01\x00\x00\x00\x01\x00\x00\x00\
    \x02\x01\x12\xe8\x07\x00\x00\xe4\x07\x00\x00\x02\x00\x00\x00\x01\x00\x00\x00\
    \x01\x02\x00\x00\x00\x00\x00\x00\x00\x01\x03\x00\x00\x00abc\x00\
    \x05\x00\x00\x00\x00\x00\x00\x00";

/// 500 numbers from subscript 1.
const LIST: &[u8] =
    b"\x01\x00\x00\x00\x00\x00\x00\x00\x17\x00\x00\x00\xf4\x01\x00\x00\x01\x00\x00\x00";

/// Two objects: 17000 of 6000 bytes, whose blocks 0 and 2 are stored, and 17001 of 5000 zeros.
const FIRST: &[u8] = b"\x02\x00\x00\x00\x00\x00\x00\x00\
    \x68\x42\x00\x00\x70\x17\x00\x00\x00\x00\x00\x00\x02\x00\x00\x00\x00\x00\x00\x00\x00\x08";

const SECOND: &[u8] = b"\x69\x42\x00\x00\x88\x13\x00\x00\x00\x00\x00\x00\x00\x00\x00\x00";

pub(crate) fn put(rt: &impl Abort, bytes: &mut Vec<u8>, piece: &[u8]) {
    bytes.extend_from_slice(piece).expect(rt, "memory");
}

pub(crate) fn fill(rt: &impl Abort, bytes: &mut Vec<u8>, count: usize, byte: u8) {
    for _ in 0..count {
        bytes.push(byte).expect(rt, "memory");
    }
}

/// The whole image, of 10199 bytes: the chunks begin at 125, 2131, 4137, 4155 and 6161, the objects at 6203 and 10183.
pub(crate) fn image(rt: &impl Abort, alloc: Global) -> Vec<u8> {
    let mut bytes = Vec::new(alloc);
    put(rt, &mut bytes, FRONT);
    put(rt, &mut bytes, b"\x01\x00\x00\x00\x00\x00\x00\x00\xcc\x07");
    fill(rt, &mut bytes, 1996, 7);
    put(rt, &mut bytes, b"\x01\x00\x00\x00\x01\x00\x00\x00\xcc\x07");
    fill(rt, &mut bytes, 1996, 0);
    put(rt, &mut bytes, b"\x01\x00\x00\x00\x02\x00\x00\x00\x08\x00");
    fill(rt, &mut bytes, 8, 9);
    put(rt, &mut bytes, b"\x02\x00\x00\x00\x00\x00\x00\x00\xcc\x07");
    put(rt, &mut bytes, LIST);
    fill(rt, &mut bytes, 1976, 1);
    put(rt, &mut bytes, b"\x02\x00\x00\x00\x01\x00\x00\x00\x18\x00");
    fill(rt, &mut bytes, 24, 2);
    put(rt, &mut bytes, FIRST);
    fill(rt, &mut bytes, 2048, 1);
    put(rt, &mut bytes, b"\x02\x00\x00\x00\x70\x07");
    fill(rt, &mut bytes, 1904, 2);
    put(rt, &mut bytes, SECOND);
    bytes
}

const OF_ROWS: [Case; 42] = [
    (Nothing, None),
    (Cut(61), Some((61, Short))),
    (Cut(63), Some((62, Short))),
    (Cut(67), Some((64, Short))),
    (Cut(71), Some((68, Short))),
    (Cut(75), Some((72, Short))),
    (Cut(79), Some((76, Short))),
    (Cut(81), Some((81, Short))),
    (Cut(98), Some((95, Short))),
    (Put(52, &[0]), Some((52, Range))),
    (Put(61, &[0]), Some((67, Short))),
    (Put(61, &[1]), Some((62, Range))),
    (Put(61, &[3]), Some((61, Range))),
    (Put(62, &[0]), Some((62, Mismatch))),
    (Put(63, &[19]), Some((62, Mismatch))),
    (Put(64, &[163]), Some((68, Mismatch))),
    (Put(64, &[3, 0, 0, 0]), Some((64, Range))),
    (Put(64, &[4, 0, 0, 1]), Some((68, Mismatch))),
    (Put(64, &[5, 0, 0, 1]), Some((64, Range))),
    (Put(64, &[24, 0, 0, 0, 20, 0, 0, 0]), Some((52, Plan))),
    (Put(68, &[161]), Some((68, Mismatch))),
    (Put(72, &[0]), Some((72, Mismatch))),
    (Put(72, &[2]), Some((72, Mismatch))),
    (Put(76, &[0]), Some((76, Mismatch))),
    (Put(76, &[2]), Some((76, Mismatch))),
    (Put(80, &[0]), Some((92, Mismatch))),
    (Put(82, &[17]), Some((81, Mismatch))),
    (Put(83, &[3, 0, 0, 0]), Some((83, Range))),
    (Put(83, &[104, 0, 0, 0, 100, 0, 0, 0]), Some((52, Plan))),
    (Put(87, &[1]), Some((87, Mismatch))),
    (Put(91, &[1]), Some((91, Mismatch))),
    (Put(91, &[3]), Some((91, Mismatch))),
    (Put(95, &[0]), Some((95, Mismatch))),
    (Put(99, &[0]), Some((99, Range))),
    (Put(100, &[0]), Some((100, Order))),
    (Put(100, &[1]), Some((100, Order))),
    (Put(100, &[3]), None),
    (Put(108, &[2]), Some((109, Mismatch))),
    (Put(116, &[1]), Some((116, Array))),
    (Put(116, &[2]), Some((117, Mismatch))),
    (Put(116, &[3]), Some((116, Range))),
    (More, Some((10199, Extra))),
];

const OF_CHUNKS: [Case; 42] = [
    (Cut(124), Some((117, Short))),
    (Cut(128), Some((125, Short))),
    (Cut(132), Some((129, Short))),
    (Cut(134), Some((133, Short))),
    (Cut(136), Some((135, Short))),
    (Cut(2130), Some((135, Short))),
    (Cut(2131), Some((2131, Short))),
    (Cut(6194), Some((6171, Short))),
    (Put(117, &[0]), Some((117, Mismatch))),
    (Put(117, &[4]), Some((117, Mismatch))),
    (Put(117, &[6]), Some((117, Mismatch))),
    (Put(121, &[1]), Some((117, Mismatch))),
    (Put(125, &[0]), Some((125, Mismatch))),
    (Put(125, &[2]), Some((125, Mismatch))),
    (Put(129, &[1]), Some((129, Mismatch))),
    (Put(133, &[203]), Some((133, Mismatch))),
    (Put(133, &[205]), Some((133, Mismatch))),
    (Put(2131, &[2]), Some((2131, Mismatch))),
    (Put(2135, &[0]), Some((2135, Mismatch))),
    (Put(2135, &[2]), Some((2135, Mismatch))),
    (Put(2139, &[0, 0]), Some((2139, Mismatch))),
    (Put(4137, &[2]), Some((4137, Mismatch))),
    (Put(4141, &[1]), Some((4141, Mismatch))),
    (Put(4141, &[3]), Some((4141, Mismatch))),
    (Put(4145, &[7]), Some((4145, Mismatch))),
    (Put(4145, &[9]), Some((4145, Mismatch))),
    (Put(4155, &[1]), Some((4155, Mismatch))),
    (Put(4155, &[3]), Some((4155, Mismatch))),
    (Put(4159, &[1]), Some((4159, Mismatch))),
    (Put(4163, &[0]), Some((4163, Mismatch))),
    (Put(4165, &[2]), Some((4155, Array))),
    (Put(4173, &[24]), Some((4155, Array))),
    (Put(4177, &[245]), Some((4155, Array))),
    (Put(4200, &[255]), None),
    (Put(6161, &[1]), Some((6161, Mismatch))),
    (Put(6165, &[0]), Some((6165, Mismatch))),
    (Put(6169, &[23]), Some((6169, Mismatch))),
    (Put(6169, &[25]), Some((6169, Mismatch))),
    (Put(6194, &[255]), None),
    (Swap(125, 2131, 2006), Some((129, Mismatch))),
    (Swap(125, 4155, 2006), Some((125, Mismatch))),
    (Swap(135, 2141, 1996), None),
];

const OF_HOLES: [Case; 27] = [
    (Cut(6202), Some((6195, Short))),
    (Put(6195, &[0]), Some((6203, Extra))),
    (Put(6195, &[1]), Some((10183, Extra))),
    (Put(6195, &[3]), Some((10199, Short))),
    (Put(6203, &[0, 0]), Some((6203, Range))),
    (Put(6207, &[0, 0, 0, 0, 0, 4]), Some((6207, Range))),
    (Put(6207, &[0, 16]), Some((8273, Mismatch))),
    (Put(6207, &[1, 16]), Some((8277, Mismatch))),
    (Put(6215, &[0]), Some((6219, Range))),
    (Put(6215, &[1]), Some((8273, Order))),
    (Put(6215, &[3]), Some((10183, Mismatch))),
    (Put(6215, &[4]), Some((6215, Mismatch))),
    (Put(6219, &[3]), Some((6219, Mismatch))),
    (Put(6219, &[2]), Some((6223, Mismatch))),
    (Put(6223, &[0, 7]), Some((6223, Mismatch))),
    (Zeros(6225, 2048), Some((6225, Range))),
    (Zeros(6225, 2047), None),
    (Put(8273, &[0]), Some((8273, Order))),
    (Put(8273, &[1]), Some((8277, Mismatch))),
    (Put(8273, &[3]), Some((8273, Mismatch))),
    (Put(8277, &[113]), Some((8277, Mismatch))),
    (Zeros(8279, 1904), Some((8279, Range))),
    (Put(10183, &[0x68]), Some((10183, Order))),
    (Put(10187, &[0, 0]), None),
    (Put(10195, &[1]), Some((10199, Short))),
    (Put(10195, &[4]), Some((10195, Mismatch))),
    (Cut(10198), Some((10195, Short))),
];

#[test]
fn rows_with_values_outside(rt: HostRuntime) {
    let bytes = image(&rt, rt.alloc());
    assert_eq!(rt; bytes.len(), 10199);
    check(&rt, rt.alloc(), &bytes, &OF_ROWS);
}

#[test]
fn values_in_chunks(rt: HostRuntime) {
    let bytes = image(&rt, rt.alloc());
    check(&rt, rt.alloc(), &bytes, &OF_CHUNKS);
}

#[test]
fn objects_with_holes(rt: HostRuntime) {
    let bytes = image(&rt, rt.alloc());
    check(&rt, rt.alloc(), &bytes, &OF_HOLES);
}
