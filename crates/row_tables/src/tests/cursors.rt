// Cursors: each reads its row as it was at the declaration, until its level or its transaction ends.
use crate::bench::{Act, run};
use crate::spelled::{Answer, ID, Spec, Spelled};
use Act::*;
use Answer::{Done, Ids as Has, Part, Refused, Row};
use Spelled::{Bytes, Fill, Int, Null, Oid, Run};
use lo_base::{Cause, ColType, Storage};

const BODY: Spec = ("body", ColType::Bytea, Storage::External);

/// A cursor goes on reading the old bytes while a request reads the new ones.
const OLD: [Act; 19] = [
    Create("t", &[ID, BODY], Done),
    Insert("t", &[Int(2), Fill(1997, b'b')], Done),
    Begin,
    Declare("c", "t", 2, Done),
    As(2),
    Fetch("c", "body", 0, 10, Refused(Cause::NoCursor, 0)),
    Update("t", 2, &[("body", Bytes(b"c"))], Done),
    Vacuum,
    As(1),
    Fetch("c", "body", 1990, 10, Part(Fill(7, b'b'))),
    Fetch("c", "body", 0, 5000, Part(Fill(1997, b'b'))),
    Slice("t", 2, "body", 0, 10, Part(Bytes(b"c"))),
    Declare("c", "t", 2, Refused(Cause::CursorExists, 0)),
    Declare("d", "t", 2, Done),
    Fetch("d", "body", 0, 10, Part(Bytes(b"c"))),
    Rollback,
    Fetch("c", "body", 1990, 10, Refused(Cause::NoCursor, 0)),
    Declare("c", "t", 2, Done),
    Fetch("c", "body", 0, 10, Refused(Cause::NoCursor, 0)),
];

#[test]
fn old_bytes_and_new_ones(rt: HostRuntime) {
    run(&rt, rt.alloc(), &OLD);
}

/// What refuses the calls on cursors, in order.
const REFUSED: [Act; 18] = [
    Create("t", &[ID, BODY], Done),
    Insert("t", &[Int(1), Null], Done),
    Begin,
    Declare("c", "u", 1, Refused(Cause::NoTable, 0)),
    Declare("c", "t", 2, Refused(Cause::NoRow, 2)),
    Declare("c", "t", 1, Done),
    Declare("c", "u", 1, Refused(Cause::NoTable, 0)),
    Declare("c", "t", 2, Refused(Cause::NoRow, 2)),
    Declare("c", "t", 1, Refused(Cause::CursorExists, 0)),
    Fetch("d", "bodies", -1, -1, Refused(Cause::NoCursor, 0)),
    Fetch("c", "bodies", -1, -1, Refused(Cause::NoColumn, 2)),
    Fetch("c", "id", -1, -1, Refused(Cause::WrongType, 2)),
    Fetch("c", "body", -3, -2, Refused(Cause::BadLength, -3)),
    Fetch("c", "body", 0, -2, Refused(Cause::BadLength, -2)),
    Fetch("c", "body", 0, 2, Part(Null)),
    Close("d", Refused(Cause::NoCursor, 0)),
    Close("c", Done),
    Close("c", Refused(Cause::NoCursor, 0)),
];

#[test]
fn what_refuses_a_cursor(rt: HostRuntime) {
    run(&rt, rt.alloc(), &REFUSED);
}

/// Cursors of one name in two sessions, and several on one row.
const OWN: [Act; 27] = [
    Create("t", &[ID, BODY], Done),
    Insert("t", &[Int(1), Run(3000, 0)], Done),
    Insert("t", &[Int(2), Bytes(b"two")], Done),
    Begin,
    Declare("c", "t", 1, Done),
    As(2),
    Begin,
    Declare("c", "t", 2, Done),
    Update("t", 1, &[("body", Run(3000, 100))], Done),
    Declare("d", "t", 1, Done),
    Update("t", 1, &[("body", Run(3000, 200))], Done),
    Fetch("c", "body", 0, 9, Part(Bytes(b"two"))),
    Fetch("d", "body", 1995, 2, Part(Run(2, 2095))),
    Slice("t", 1, "body", 1995, 2, Part(Run(2, 2195))),
    As(1),
    Fetch("c", "body", 1995, 2, Part(Run(2, 1995))),
    Fetch("d", "body", 1995, 2, Refused(Cause::NoCursor, 0)),
    Close("c", Done),
    As(2),
    Fetch("c", "body", 0, 9, Part(Bytes(b"two"))),
    Commit,
    Vacuum,
    As(1),
    Declare("c", "t", 1, Done),
    Fetch("c", "body", 1995, 2, Part(Run(2, 2195))),
    Commit,
    Fetch("c", "body", 1995, 2, Refused(Cause::NoCursor, 0)),
];

#[test]
fn cursors_of_two_sessions(rt: HostRuntime) {
    run(&rt, rt.alloc(), &OWN);
}

/// A rollback to a savepoint closes the cursors of its level and of those above, and a release gives them to the level below.
const LEVELS: [Act; 31] = [
    Create("t", &[ID, BODY], Done),
    Insert("t", &[Int(1), Bytes(b"abc")], Done),
    Begin,
    Declare("c", "t", 1, Done),
    Savepoint,
    Declare("d", "t", 1, Done),
    Savepoint,
    Declare("e", "t", 1, Done),
    Update("t", 1, &[("body", Bytes(b"new"))], Done),
    UndoTo(3),
    Fetch("e", "body", 0, 9, Refused(Cause::NoCursor, 0)),
    Fetch("d", "body", 0, 9, Part(Bytes(b"abc"))),
    Declare("e", "t", 1, Done),
    Release(3),
    Fetch("e", "body", 1, 9, Part(Bytes(b"bc"))),
    Savepoint,
    Declare("f", "t", 1, Done),
    UndoTo(2),
    Fetch("d", "body", 0, 9, Refused(Cause::NoCursor, 0)),
    Fetch("e", "body", 0, 9, Refused(Cause::NoCursor, 0)),
    Fetch("f", "body", 0, 9, Refused(Cause::NoCursor, 0)),
    Fetch("c", "body", 0, 2, Part(Bytes(b"ab"))),
    Declare("e", "t", 1, Done),
    Release(2),
    Savepoint,
    Close("c", Done),
    UndoTo(2),
    Fetch("c", "body", 0, 2, Refused(Cause::NoCursor, 0)),
    Fetch("e", "body", 0, 2, Part(Bytes(b"ab"))),
    UndoTo(1),
    Fetch("e", "body", 0, 2, Refused(Cause::NoCursor, 0)),
];

#[test]
fn levels_of_cursors(rt: HostRuntime) {
    run(&rt, rt.alloc(), &LEVELS);
}

/// A cursor reads a row that was deleted, and one of the same id that was made since is another one, also to the session
/// itself.
const DELETED: [Act; 27] = [
    Create("t", &[ID, BODY], Done),
    Insert("t", &[Int(1), Run(4000, 0)], Done),
    Insert("t", &[Int(2), Run(100, 0)], Done),
    Begin,
    Declare("c", "t", 1, Done),
    Declare("d", "t", 2, Done),
    Delete("t", 2, Done),
    As(2),
    Delete("t", 1, Done),
    Vacuum,
    Get("t", 1, Refused(Cause::NoRow, 1)),
    As(1),
    Vacuum,
    Get("t", 1, Refused(Cause::NoRow, 1)),
    Fetch("c", "body", 1990, 10, Part(Run(10, 1990))),
    Fetch("d", "body", 95, 10, Part(Run(5, 95))),
    Insert("t", &[Int(2), Run(3000, 7)], Done),
    As(2),
    Insert("t", &[Int(1), Bytes(b"again")], Done),
    Vacuum,
    As(1),
    Fetch("c", "body", 3990, 20, Part(Run(10, 3990))),
    Fetch("d", "body", 95, 10, Part(Run(5, 95))),
    Get("t", 1, Row(&[Int(1), Bytes(b"again")])),
    Commit,
    Vacuum,
    Get("t", 2, Row(&[Int(2), Run(3000, 7)])),
];

#[test]
fn a_deleted_row(rt: HostRuntime) {
    run(&rt, rt.alloc(), &DELETED);
}

/// A change of another column keeps a value outside as it is: through a rollback, to who holds the old row, and to who reads the
/// new one. What vacuums take is what nobody can read.
const KEPT: [Act; 36] = [
    Create("t", &[ID, ("n", ColType::Oid, Storage::Plain), BODY], Done),
    Insert("t", &[Int(1), Oid(1), Run(5000, 0)], Done),
    Begin,
    Update("t", 1, &[("n", Oid(2))], Done),
    Get("t", 1, Row(&[Int(1), Oid(2), Run(5000, 0)])),
    Vacuum,
    Rollback,
    Vacuum,
    Get("t", 1, Row(&[Int(1), Oid(1), Run(5000, 0)])),
    As(2),
    Begin,
    Declare("c", "t", 1, Done),
    As(1),
    Update("t", 1, &[("n", Null)], Done),
    Vacuum,
    Get("t", 1, Row(&[Int(1), Null, Run(5000, 0)])),
    As(2),
    Fetch("c", "body", 1990, 10, Part(Run(10, 1990))),
    Slice("t", 1, "body", 3990, 10, Part(Run(10, 3990))),
    As(1),
    Update("t", 1, &[("n", Oid(3)), ("body", Run(4000, 9))], Done),
    Vacuum,
    Get("t", 1, Row(&[Int(1), Oid(3), Run(4000, 9)])),
    Begin,
    Update("t", 1, &[("body", Bytes(b"short"))], Done),
    Savepoint,
    Update("t", 1, &[("body", Run(6000, 11))], Done),
    UndoTo(2),
    Vacuum,
    Get("t", 1, Row(&[Int(1), Oid(3), Bytes(b"short")])),
    Rollback,
    Vacuum,
    Get("t", 1, Row(&[Int(1), Oid(3), Run(4000, 9)])),
    As(2),
    Fetch("c", "body", 0, 9000, Part(Run(5000, 0))),
    Commit,
];

#[test]
fn a_value_that_stays(rt: HostRuntime) {
    run(&rt, rt.alloc(), &KEPT);
}
