// What sessions see of each other, what is in the way of whom, and what comes back with a level.
use crate::bench::{Act, run};
use crate::spelled::{Answer, ID, Spec, Spelled};
use Act::*;
use Answer::{Done, Ids as Has, Part, Refused, Row};
use Spelled::{Bytes, Int, Run};
use lo_base::{Cause, ColType, Storage};

const BODY: Spec = ("body", ColType::Bytea, Storage::External);

const PLAIN: Spec = ("v", ColType::Bytea, Storage::Plain);

/// Nobody else sees what a transaction made before it is committed, and each request sees what is committed by then.
const SEEN: [Act; 24] = [
    Create("t", &[ID, BODY], Done),
    Insert("t", &[Int(1), Run(3000, 0)], Done),
    As(2),
    Begin,
    Get("t", 1, Row(&[Int(1), Run(3000, 0)])),
    As(1),
    Begin,
    Insert("t", &[Int(2), Run(3000, 1)], Done),
    Update("t", 1, &[("body", Run(3000, 2))], Done),
    Get("t", 1, Row(&[Int(1), Run(3000, 2)])),
    Ids("t", Has(&[1, 2])),
    As(2),
    Get("t", 1, Row(&[Int(1), Run(3000, 0)])),
    Get("t", 2, Refused(Cause::NoRow, 2)),
    Ids("t", Has(&[1])),
    As(1),
    Delete("t", 2, Done),
    Ids("t", Has(&[1])),
    Insert("t", &[Int(2), Run(4000, 5)], Done),
    Commit,
    As(2),
    Get("t", 1, Row(&[Int(1), Run(3000, 2)])),
    Slice("t", 2, "body", 3990, 90, Part(Run(10, 3995))),
    Ids("t", Has(&[1, 2])),
];

#[test]
fn what_sessions_see(rt: HostRuntime) {
    run(&rt, rt.alloc(), &SEEN);
}

/// Who has changed a row is in the way of others there, and nowhere else. That a row is there, or is not, is judged before, and
/// so is its size.
const BUSY: [Act; 34] = [
    Create("t", &[ID, BODY], Done),
    Create("p", &[ID, PLAIN], Done),
    Insert("t", &[Int(1), Bytes(b"old")], Done),
    Insert("t", &[Int(2), Bytes(b"old")], Done),
    Insert("p", &[Int(1), Bytes(b"old")], Done),
    As(2),
    Begin,
    Update("t", 1, &[("body", Bytes(b"new"))], Done),
    Insert("t", &[Int(3), Bytes(b"new")], Done),
    Delete("p", 1, Done),
    As(1),
    Update("t", 1, &[("body", Bytes(b"mine"))], Refused(Cause::Busy, 2)),
    Delete("t", 1, Refused(Cause::Busy, 2)),
    Insert("t", &[Int(1), Bytes(b"mine")], Refused(Cause::RowExists, 1)),
    Insert("t", &[Int(3), Bytes(b"mine")], Refused(Cause::Busy, 2)),
    Update(
        "t",
        3,
        &[("body", Bytes(b"mine"))],
        Refused(Cause::NoRow, 3),
    ),
    Update(
        "p",
        1,
        &[("v", Run(8125, 0))],
        Refused(Cause::RowTooBig, 8168),
    ),
    Update("p", 1, &[("v", Run(8124, 0))], Refused(Cause::Busy, 2)),
    Insert("p", &[Int(1), Run(8125, 0)], Refused(Cause::RowExists, 1)),
    Get("p", 1, Row(&[Int(1), Bytes(b"old")])),
    Update("t", 2, &[("body", Bytes(b"mine"))], Done),
    Insert("p", &[Int(3), Bytes(b"mine")], Done),
    As(3),
    Delete("t", 1, Refused(Cause::Busy, 2)),
    Insert("t", &[Int(3), Run(8000, 0)], Refused(Cause::Busy, 2)),
    As(2),
    Rollback,
    As(1),
    Insert("t", &[Int(3), Bytes(b"mine")], Done),
    Begin,
    Delete("t", 1, Done),
    As(2),
    Update("t", 1, &[("body", Bytes(b"new"))], Refused(Cause::Busy, 1)),
    Insert("t", &[Int(1), Bytes(b"new")], Refused(Cause::RowExists, 1)),
];

#[test]
fn who_is_busy(rt: HostRuntime) {
    run(&rt, rt.alloc(), &BUSY);
}

/// What a rolled back level changed is as before, its row is free again, and what a released one changed stays.
const LEVELS: [Act; 36] = [
    Create("t", &[ID, BODY], Done),
    Insert("t", &[Int(1), Run(2500, 0)], Done),
    Insert("t", &[Int(2), Run(2500, 1)], Done),
    Begin,
    Update("t", 1, &[("body", Run(2500, 2))], Done),
    Savepoint,
    Update("t", 1, &[("body", Bytes(b"short"))], Done),
    Delete("t", 2, Done),
    Insert("t", &[Int(3), Run(2500, 3)], Done),
    Savepoint,
    Update("t", 3, &[("body", Run(2500, 4))], Done),
    UndoTo(3),
    Vacuum,
    Get("t", 3, Row(&[Int(3), Run(2500, 3)])),
    Release(3),
    Get("t", 1, Row(&[Int(1), Bytes(b"short")])),
    Ids("t", Has(&[1, 3])),
    UndoTo(2),
    Vacuum,
    Get("t", 1, Row(&[Int(1), Run(2500, 2)])),
    Ids("t", Has(&[1, 2])),
    Slice("t", 2, "body", 1990, 10, Part(Run(10, 1991))),
    As(2),
    Update("t", 1, &[("body", Bytes(b"mine"))], Refused(Cause::Busy, 1)),
    Update("t", 2, &[("body", Run(2600, 7))], Done),
    Insert("t", &[Int(3), Bytes(b"mine")], Done),
    As(1),
    Delete("t", 2, Done),
    Release(2),
    As(2),
    Get("t", 2, Row(&[Int(2), Run(2600, 7)])),
    As(1),
    Rollback,
    Get("t", 1, Row(&[Int(1), Run(2500, 0)])),
    Get("t", 2, Row(&[Int(2), Run(2600, 7)])),
    Ids("t", Has(&[1, 2, 3])),
];

#[test]
fn levels_of_changes(rt: HostRuntime) {
    run(&rt, rt.alloc(), &LEVELS);
}

/// A table is made while no other session has a transaction. No rollback takes it away again.
const TABLES: [Act; 22] = [
    Begin,
    Create("t", &[ID], Done),
    Insert("t", &[Int(1)], Done),
    Create("t", &[ID, BODY], Refused(Cause::TableExists, 0)),
    Rollback,
    Ids("t", Has(&[])),
    Insert("t", &[Int(1)], Done),
    As(5),
    Begin,
    As(3),
    Begin,
    Create("u", &[ID], Refused(Cause::Busy, 5)),
    As(1),
    Create("u", &[ID], Refused(Cause::Busy, 3)),
    Create("t", &[ID], Refused(Cause::TableExists, 0)),
    Get("t", 1, Row(&[Int(1)])),
    As(3),
    Commit,
    As(5),
    Create("u", &[ID], Done),
    Commit,
    Ids("u", Has(&[])),
];

#[test]
fn when_tables_are_made(rt: HostRuntime) {
    run(&rt, rt.alloc(), &TABLES);
}
