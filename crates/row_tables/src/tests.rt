// Tests of tables over real transactions: worked rows, and the edges of each rule. Expected values are those of the rules.
mod cursors;
mod large;
mod many;
mod rewrites;
mod sessions;

use crate::bench::{Act, run};
use crate::spelled::{Answer, ID, Spec, Spelled};
use Act::*;
use Answer::{Done, Ids as Has, Part, Refused, Row};
use Spelled::{Bytes, Fill, Int, Null, Oid, Run};
use lo_base::{Cause, ColType, Storage};

const EXTERNAL: Spec = ("body", ColType::Bytea, Storage::External);

const MAIN: Spec = ("v", ColType::Bytea, Storage::Main);

const PLAIN: Spec = ("v", ColType::Bytea, Storage::Plain);

/// One row through its life. A refusal names the id, or 0 for a table.
const LIFE: [Act; 17] = [
    Create(
        "t",
        &[
            ID,
            ("o", ColType::Oid, Storage::Plain),
            ("b", ColType::Bytea, Storage::Extended),
        ],
        Done,
    ),
    Insert("t", &[Int(1), Oid(5), Bytes(b"A")], Done),
    Get("t", 1, Row(&[Int(1), Oid(5), Bytes(b"A")])),
    Update("t", 1, &[("b", Null)], Done),
    Get("t", 1, Row(&[Int(1), Oid(5), Null])),
    Insert("t", &[Int(1), Oid(6), Null], Refused(Cause::RowExists, 1)),
    Get("t", 1, Row(&[Int(1), Oid(5), Null])),
    Ids("t", Has(&[1])),
    Delete("t", 2, Refused(Cause::NoRow, 2)),
    Update("t", -2, &[("b", Null)], Refused(Cause::NoRow, -2)),
    Get("u", 1, Refused(Cause::NoTable, 0)),
    Delete("t", 1, Done),
    Ids("t", Has(&[])),
    Get("t", 1, Refused(Cause::NoRow, 1)),
    Delete("t", 1, Refused(Cause::NoRow, 1)),
    Insert("t", &[Int(1), Null, Bytes(b"")], Done),
    Get("t", 1, Row(&[Int(1), Null, Bytes(b"")])),
];

#[test]
fn the_life_of_a_row(rt: HostRuntime) {
    run(&rt, rt.alloc(), &LIFE);
}

/// Every call on a table that is not there.
const NO_TABLE: [Act; 8] = [
    Begin,
    Insert("t", &[Int(1)], Refused(Cause::NoTable, 0)),
    Update("t", 1, &[("b", Null)], Refused(Cause::NoTable, 0)),
    Delete("t", 1, Refused(Cause::NoTable, 0)),
    Get("t", 1, Refused(Cause::NoTable, 0)),
    Slice("t", 1, "b", -1, -1, Refused(Cause::NoTable, 0)),
    Ids("t", Refused(Cause::NoTable, 0)),
    Declare("c", "t", 1, Refused(Cause::NoTable, 0)),
];

#[test]
fn a_table_that_is_not_there(rt: HostRuntime) {
    run(&rt, rt.alloc(), &NO_TABLE);
}

/// A row of 2032 bytes with its header stays whole, and with one byte more the value moves out. Both are read alike.
const SLICES: [Act; 25] = [
    Create("t", &[ID, EXTERNAL], Done),
    Insert("t", &[Int(1), Fill(1996, b'a')], Done),
    Insert("t", &[Int(2), Fill(1997, b'b')], Done),
    Insert("t", &[Int(3), Null], Done),
    Get("t", 1, Row(&[Int(1), Fill(1996, b'a')])),
    Get("t", 2, Row(&[Int(2), Fill(1997, b'b')])),
    Slice("t", 1, "body", 1990, 10, Part(Fill(6, b'a'))),
    Slice("t", 1, "body", 0, 3, Part(Bytes(b"aaa"))),
    Slice("t", 1, "body", 1996, 5, Part(Bytes(b""))),
    Slice("t", 1, "body", 4294967296, 5, Part(Bytes(b""))),
    Slice(
        "t",
        1,
        "body",
        0,
        9223372036854775807,
        Part(Fill(1996, b'a')),
    ),
    Slice("t", 2, "body", 1990, 10, Part(Fill(7, b'b'))),
    Slice("t", 2, "body", 1997, 5, Part(Bytes(b""))),
    Slice("t", 2, "body", 1996, 0, Part(Bytes(b""))),
    Slice("t", 2, "body", 4294967296, 5, Part(Bytes(b""))),
    Slice(
        "t",
        2,
        "body",
        9223372036854775807,
        9223372036854775807,
        Part(Bytes(b"")),
    ),
    Slice(
        "t",
        2,
        "body",
        0,
        9223372036854775807,
        Part(Fill(1997, b'b')),
    ),
    Slice("t", 2, "body", -1, 5, Refused(Cause::BadLength, -1)),
    Slice("t", 2, "body", -7, -5, Refused(Cause::BadLength, -7)),
    Slice("t", 2, "body", 0, -5, Refused(Cause::BadLength, -5)),
    Slice("t", 2, "id", -1, 5, Refused(Cause::WrongType, 2)),
    Slice("t", 2, "bodies", -1, 5, Refused(Cause::NoColumn, 2)),
    Slice("t", 4, "bodies", -1, 5, Refused(Cause::NoRow, 4)),
    Slice("t", 3, "body", 0, 5, Part(Null)),
    Slice("t", 3, "body", 0, -5, Refused(Cause::BadLength, -5)),
];

#[test]
fn slices_of_values_in_the_row_and_outside(rt: HostRuntime) {
    run(&rt, rt.alloc(), &SLICES);
}

/// Columns of each type, and what a part can be read of.
const TYPES: [Act; 10] = [
    Create(
        "t",
        &[
            ID,
            ("o", ColType::Oid, Storage::Plain),
            ("l", ColType::Lo, Storage::Plain),
            ("n", ColType::Int8, Storage::Plain),
            ("a", ColType::Int4Array, Storage::Extended),
            ("b", ColType::Bytea, Storage::Extended),
        ],
        Done,
    ),
    Insert(
        "t",
        &[
            Int(-1),
            Oid(4294967295),
            Oid(17000),
            Int(-9223372036854775808),
            Bytes(b"\x01\0\0\0"),
            Run(126, 0),
        ],
        Done,
    ),
    Get(
        "t",
        -1,
        Row(&[
            Int(-1),
            Oid(4294967295),
            Oid(17000),
            Int(-9223372036854775808),
            Bytes(b"\x01\0\0\0"),
            Run(126, 0),
        ]),
    ),
    Slice("t", -1, "o", 0, 1, Refused(Cause::WrongType, 2)),
    Slice("t", -1, "l", 0, 1, Refused(Cause::WrongType, 2)),
    Slice("t", -1, "n", 0, 1, Refused(Cause::WrongType, 2)),
    Slice("t", -1, "a", 0, 1, Refused(Cause::WrongType, 2)),
    Slice("t", -1, "b", 120, 9, Part(Run(6, 120))),
    Update(
        "t",
        -1,
        &[("b", Run(127, 5)), ("n", Null), ("l", Oid(0))],
        Done,
    ),
    Get(
        "t",
        -1,
        Row(&[
            Int(-1),
            Oid(4294967295),
            Oid(0),
            Null,
            Bytes(b"\x01\0\0\0"),
            Run(127, 5),
        ]),
    ),
];

#[test]
fn values_of_each_type(rt: HostRuntime) {
    run(&rt, rt.alloc(), &TYPES);
}

/// A row has 8160 bytes at most with all moved out that may be. A refusal tells how long it would be, and changes nothing.
const SIZES: [Act; 22] = [
    Create(
        "d",
        &[
            ID,
            ("a", ColType::Bytea, Storage::External),
            ("b", ColType::Bytea, Storage::External),
        ],
        Done,
    ),
    Insert("d", &[Int(1), Run(1500, 0), Run(1500, 9)], Done),
    Get("d", 1, Row(&[Int(1), Run(1500, 0), Run(1500, 9)])),
    Slice("d", 1, "a", 1490, 20, Part(Run(10, 1490))),
    Slice("d", 1, "b", 1490, 20, Part(Run(10, 1499))),
    Create("m", &[ID, MAIN], Done),
    Insert("m", &[Int(1), Run(8124, 0)], Done),
    Insert("m", &[Int(2), Run(8125, 1)], Done),
    Get("m", 1, Row(&[Int(1), Run(8124, 0)])),
    Get("m", 2, Row(&[Int(2), Run(8125, 1)])),
    Create("p", &[ID, PLAIN], Done),
    Insert("p", &[Int(1), Run(8124, 0)], Done),
    Insert(
        "p",
        &[Int(2), Run(8125, 0)],
        Refused(Cause::RowTooBig, 8168),
    ),
    Insert("p", &[Int(1), Run(8125, 0)], Refused(Cause::RowExists, 1)),
    Get("p", 1, Row(&[Int(1), Run(8124, 0)])),
    Get("p", 2, Refused(Cause::NoRow, 2)),
    Update(
        "p",
        1,
        &[("v", Run(8125, 0))],
        Refused(Cause::RowTooBig, 8168),
    ),
    Update(
        "p",
        1,
        &[("v", Run(10000, 0))],
        Refused(Cause::RowTooBig, 10040),
    ),
    Update("p", 2, &[("v", Run(8125, 0))], Refused(Cause::NoRow, 2)),
    Get("p", 1, Row(&[Int(1), Run(8124, 0)])),
    Update("p", 1, &[("v", Run(100, 3))], Done),
    Get("p", 1, Row(&[Int(1), Run(100, 3)])),
];

#[test]
fn rows_of_the_largest_size(rt: HostRuntime) {
    run(&rt, rt.alloc(), &SIZES);
}

/// Ids ascend from the lowest number to the highest one, and each table has its own.
const IDS: [Act; 15] = [
    Create("t", &[ID], Done),
    Create("u", &[ID], Done),
    Insert("t", &[Int(9223372036854775807)], Done),
    Insert("t", &[Int(-9223372036854775808)], Done),
    Insert("t", &[Int(0)], Done),
    Insert("t", &[Int(-1)], Done),
    Ids(
        "t",
        Has(&[-9223372036854775808, -1, 0, 9223372036854775807]),
    ),
    Ids("u", Has(&[])),
    Insert("u", &[Int(0)], Done),
    Delete("t", 0, Done),
    Delete("t", -9223372036854775808, Done),
    Ids("t", Has(&[-1, 9223372036854775807])),
    Ids("u", Has(&[0])),
    Get("u", 0, Row(&[Int(0)])),
    Get(
        "t",
        -9223372036854775808,
        Refused(Cause::NoRow, -9223372036854775808),
    ),
];

#[test]
fn ids_in_order(rt: HostRuntime) {
    run(&rt, rt.alloc(), &IDS);
}
