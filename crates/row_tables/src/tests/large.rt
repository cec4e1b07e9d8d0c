// Long values: stored, read back whole and in parts over the edges of chunks.
use crate::bench::{Act, run};
use crate::spelled::{Answer, ID, Spec, Spelled};
use Act::*;
use Answer::{Done, Part, Refused, Row};
use Spelled::{Bytes, Int, Null, Run};
use lo_base::{Cause, ColType, Storage};

const BODY: Spec = ("body", ColType::Bytea, Storage::External);

/// A chunk has 1996 bytes. The first value stays in its row.
const EDGES: [Act; 19] = [
    Create("t", &[ID, BODY], Done),
    Insert("t", &[Int(1), Run(1996, 0)], Done),
    Insert("t", &[Int(2), Run(1997, 0)], Done),
    Insert("t", &[Int(3), Run(3992, 0)], Done),
    Insert("t", &[Int(4), Run(3993, 0)], Done),
    Get("t", 1, Row(&[Int(1), Run(1996, 0)])),
    Get("t", 2, Row(&[Int(2), Run(1997, 0)])),
    Get("t", 3, Row(&[Int(3), Run(3992, 0)])),
    Get("t", 4, Row(&[Int(4), Run(3993, 0)])),
    Slice("t", 1, "body", 1995, 9, Part(Run(1, 1995))),
    Slice("t", 2, "body", 1995, 9, Part(Run(2, 1995))),
    Slice("t", 3, "body", 1995, 2, Part(Run(2, 1995))),
    Slice("t", 3, "body", 1996, 1996, Part(Run(1996, 1996))),
    Slice("t", 3, "body", 3991, 9, Part(Run(1, 3991))),
    Slice("t", 4, "body", 1995, 1998, Part(Run(1998, 1995))),
    Slice("t", 4, "body", 3992, 9, Part(Run(1, 3992))),
    Slice("t", 4, "body", 3993, 9, Part(Bytes(b""))),
    Slice("t", 4, "body", 1, 3990, Part(Run(3990, 1))),
    Slice("t", 4, "body", 1996, 0, Part(Bytes(b""))),
];

#[test]
fn edges_of_chunks(rt: HostRuntime) {
    run(&rt, rt.alloc(), &EDGES);
}

/// A value that goes out, comes in again, and is null, and one that others push out.
const MOVES: [Act; 16] = [
    Create(
        "t",
        &[ID, BODY, ("more", ColType::Bytea, Storage::External)],
        Done,
    ),
    Insert("t", &[Int(1), Run(1500, 0), Null], Done),
    Get("t", 1, Row(&[Int(1), Run(1500, 0), Null])),
    Update("t", 1, &[("more", Run(1400, 1))], Done),
    Get("t", 1, Row(&[Int(1), Run(1500, 0), Run(1400, 1)])),
    Update("t", 1, &[("more", Run(1600, 2))], Done),
    Get("t", 1, Row(&[Int(1), Run(1500, 0), Run(1600, 2)])),
    Vacuum,
    Get("t", 1, Row(&[Int(1), Run(1500, 0), Run(1600, 2)])),
    Update(
        "t",
        1,
        &[("more", Run(3000, 3)), ("body", Run(2000, 4))],
        Done,
    ),
    Get("t", 1, Row(&[Int(1), Run(2000, 4), Run(3000, 3)])),
    Update("t", 1, &[("body", Null)], Done),
    Vacuum,
    Get("t", 1, Row(&[Int(1), Null, Run(3000, 3)])),
    Update("t", 1, &[("more", Bytes(b""))], Done),
    Get("t", 1, Row(&[Int(1), Null, Bytes(b"")])),
];

#[test]
fn values_that_move(rt: HostRuntime) {
    run(&rt, rt.alloc(), &MOVES);
}

/// The longest value, of 16,777,216 bytes.
const LONGEST: [Act; 13] = [
    Create("t", &[ID, BODY], Done),
    Insert("t", &[Int(1), Run(16777216, 0)], Done),
    Get("t", 1, Row(&[Int(1), Run(16777216, 0)])),
    Slice("t", 1, "body", 8388608, 4000, Part(Run(4000, 8388608))),
    Slice("t", 1, "body", 16776379, 2, Part(Run(2, 16776379))),
    Slice("t", 1, "body", 16776380, 900, Part(Run(836, 16776380))),
    Slice("t", 1, "body", 16777215, 900, Part(Run(1, 16777215))),
    Slice("t", 1, "body", 16777216, 900, Part(Bytes(b""))),
    Update("t", 1, &[("body", Run(16777216, 1))], Done),
    Slice("t", 1, "body", 1996, 4, Part(Run(4, 1997))),
    Delete("t", 1, Done),
    Vacuum,
    Get("t", 1, Refused(Cause::NoRow, 1)),
];

#[test]
fn sixteen_megabytes(rt: HostRuntime) {
    run(&rt, rt.alloc(), &LONGEST);
}
