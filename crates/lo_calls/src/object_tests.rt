// Tests of the calls that name an object, over real transactions.
ghost use Rattle.std.specs.Prelude.{◌≡◌, ◌≤◌, []};
ghost use Rattle.lo_calls.specs.Pair.{AreReady};

use crate::bench::{Answer, Bench, is_content, is_done, is_number};
use lo_base::{Cause, Oid};
use std::alloc::Global;
use std::process::Abort;

/// What a test does, step by step. The last of each is what is expected.
#[derive(Clone, Copy)]
enum Act {
    /// Commits, or rolls back, and begins again.
    Commit,
    Rollback,
    /// The other session acts from here on.
    Switch,
    Create(Oid, Answer),
    FromBytea(Oid, &'static [u8], Answer),
    Unlink(Oid, Answer),
    Get(Oid, i64, Option<i32>, Answer),
    Put(Oid, i64, &'static [u8], Answer),
    /// Opens a descriptor in a mode, which has this number.
    Open(Oid, i32, i32),
    /// How many descriptors the session has open.
    Descriptors(usize),
    /// The number from which on numbers are picked.
    Counter(u64),
}

use Act::*;
use Answer::{Content, Done, Number, Refused};

impl Bench {
    /// Does an act, or compares what it expects.
    #[tactic(auto, using(crate::proofs::Benching::kept_ready, crate::proofs::Benching::swapped))]
    fn act(&mut self, rt: &impl Abort, act: &Act)
        requires ready { AreReady self.old.core.xacts self.old.store self.old.session self.old.other }
        ensures ready { AreReady self.new.core.xacts self.new.store self.new.session self.new.other }
    {
        match act {
            Act::Commit => self.commit(rt),
            Act::Rollback => self.rollback(rt),
            Act::Switch => std::mem::swap(&mut self.session, &mut self.other),
            Act::Create(oid, answer) => {
                let answered = self
                    .session
                    .lo_create(&mut self.store, &mut self.core, *oid);
                assert!(rt; is_number(&answered.map(i64::from), *answer));
            }
            Act::FromBytea(oid, bytes, answer) => {
                assert!(rt; bytes.len() <= 16777216);
                let answered = self
                    .session
                    .lo_from_bytea(&mut self.store, &mut self.core, *oid, bytes);
                assert!(rt; is_number(&answered.map(i64::from), *answer));
            }
            Act::Open(oid, mode, fd) => {
                assert!(rt; self.core.xacts.views() < 1000);
                let answered = self
                    .session
                    .lo_open(&self.store, &mut self.core, *oid, *mode);
                assert!(rt; answered.is_ok_and(|number| number == *fd));
            }
            Act::Unlink(oid, answer) => {
                let answered = self
                    .session
                    .lo_unlink(&mut self.store, &mut self.core, *oid);
                assert!(rt; is_done(&answered, *answer));
            }
            Act::Put(oid, at, bytes, answer) => {
                let answered = self
                    .session
                    .lo_put(&mut self.store, &mut self.core, *oid, *at, bytes);
                assert!(rt; is_done(&answered, *answer));
            }
            _ => self.compare(rt, act),
        }
    }

    fn compare(&self, rt: &impl Abort, act: &Act)
        requires ready { AreReady self.now.core.xacts self.now.store self.now.session self.now.other }
    {
        match act {
            Act::Get(oid, from, length, answer) => {
                let answered = self
                    .session
                    .lo_get(&self.store, &self.core, *oid, *from, *length);
                assert!(rt; is_content(&answered, *answer));
            }
            Act::Descriptors(count) => assert_eq!(rt; self.session.descs.entries.len(), *count),
            Act::Counter(counter) => assert_eq!(rt; self.store.counter, *counter),
            _ => {}
        }
    }
}

fn run(rt: &impl Abort, alloc: Global, counter: u64, acts: &[Act])
    requires { counter ≤ 4294967296 }
{
    let mut bench = Bench::new(rt, alloc, counter);
    for act in acts {
        bench.act(rt, act);
    }
}

/// Each call on its happy path, and its refusals in one session.
const CALLS: [Act; 23] = [
    Create(17000, Number(17000)),
    Create(17000, Refused(Cause::ObjectExists, 17000)),
    FromBytea(17000, b"abc", Refused(Cause::ObjectExists, 17000)),
    Get(17000, 0, None, Content(b"")),
    Put(17000, 3, b"A", Done),
    Get(17000, 0, None, Content(b"\0\0\0A")),
    Get(17000, 2, Some(9), Content(b"\0A")),
    Get(17000, 2, Some(1), Content(b"\0")),
    Get(17000, 2, None, Content(b"\0A")),
    Get(17000, 9, Some(9), Content(b"")),
    Get(17000, 0, Some(0), Content(b"")),
    Put(17000, 9, b"", Done),
    Get(17000, 0, None, Content(b"\0\0\0A")),
    FromBytea(17001, b"old", Number(17001)),
    FromBytea(17002, b"", Number(17002)),
    Get(17001, 0, None, Content(b"old")),
    Get(17002, 0, None, Content(b"")),
    Unlink(17001, Done),
    Unlink(17001, Refused(Cause::NoObject, 17001)),
    Put(17001, 0, b"A", Refused(Cause::NoObject, 17001)),
    Get(17001, 0, None, Refused(Cause::NoObject, 17001)),
    // The object that is missing comes first, then the offset, then the length.
    Get(17001, -1, Some(-1), Refused(Cause::NoObject, 17001)),
    Get(17000, -1, Some(-1), Refused(Cause::BadSeek, -1)),
];

#[test]
fn each_call(rt: HostRuntime) {
    run(&rt, rt.alloc(), 16384, &CALLS);
}

/// One byte at the largest offset of an object, and what is refused above it and below 0.
const LARGEST: [Act; 14] = [
    Create(17000, Number(17000)),
    Put(17000, 4398046509055, b"A", Done),
    Get(17000, 4398046509054, Some(9), Content(b"\0A")),
    Get(17000, 4398046509056, Some(9), Content(b"")),
    Get(17000, 0, None, Refused(Cause::TooMuch, 4398046509056)),
    Get(17000, 0, Some(16777217), Refused(Cause::TooMuch, 16777217)),
    Get(
        17000,
        4398046509057,
        Some(9),
        Refused(Cause::BadSeek, 4398046509057),
    ),
    Get(17000, 0, Some(-1), Refused(Cause::BadLength, -1)),
    Get(
        17000,
        4398046509056,
        Some(-1),
        Refused(Cause::BadLength, -1),
    ),
    Put(17000, 4398046509056, b"A", Refused(Cause::BadWrite, 1)),
    Put(17000, 4398046509056, b"", Done),
    Put(17000, 4398046509055, b"AB", Refused(Cause::BadWrite, 2)),
    Put(
        17000,
        4398046509057,
        b"A",
        Refused(Cause::BadSeek, 4398046509057),
    ),
    Put(17000, -1, b"A", Refused(Cause::BadSeek, -1)),
];

#[test]
fn the_largest_object(rt: HostRuntime) {
    run(&rt, rt.alloc(), 16384, &LARGEST);
}

/// The number 0 picks the least free one from the counter on, which no rollback turns back. A named one is not counted.
const PICKED: [Act; 14] = [
    Create(0, Number(16384)),
    Counter(16385),
    Create(5, Number(5)),
    Create(16386, Number(16386)),
    Counter(16385),
    Rollback,
    Get(16384, 0, None, Refused(Cause::NoObject, 16384)),
    Create(0, Number(16385)),
    FromBytea(0, b"abc", Number(16386)),
    Get(16386, 0, None, Content(b"abc")),
    Create(16387, Number(16387)),
    Commit,
    Create(0, Number(16388)),
    Counter(16389),
];

#[test]
fn picked_numbers(rt: HostRuntime) {
    run(&rt, rt.alloc(), 16384, &PICKED);
}

/// Where no number is left to pick, a named one can still be had.
const NONE_LEFT: [Act; 7] = [
    Create(0, Refused(Cause::NoOids, 0)),
    FromBytea(0, b"abc", Refused(Cause::NoOids, 0)),
    Counter(4294967296),
    Create(5, Number(5)),
    Create(4294967295, Number(4294967295)),
    Create(0, Refused(Cause::NoOids, 0)),
    Counter(4294967296),
];

#[test]
fn no_number_is_left(rt: HostRuntime) {
    run(&rt, rt.alloc(), 4294967296, &NONE_LEFT);
}

/// The last number is picked once.
const LAST: [Act; 5] = [
    FromBytea(0, b"z", Number(4294967295)),
    Counter(4294967296),
    Get(4294967295, 0, None, Content(b"z")),
    Create(0, Refused(Cause::NoOids, 0)),
    Counter(4294967296),
];

#[test]
fn the_last_number(rt: HostRuntime) {
    run(&rt, rt.alloc(), 4294967295, &LAST);
}

/// An unlinking closes the session's own descriptors on the object, and no other.
const CLOSED: [Act; 15] = [
    FromBytea(17000, b"abc", Number(17000)),
    FromBytea(17001, b"def", Number(17001)),
    Commit,
    Open(17000, 262144, 0),
    Open(17001, 262144, 1),
    Open(17000, 393216, 2),
    Switch,
    Open(17000, 262144, 0),
    Switch,
    Unlink(17000, Done),
    Descriptors(1),
    Switch,
    Descriptors(1),
    Get(17000, 0, None, Content(b"abc")),
    Unlink(17000, Refused(Cause::Busy, 1)),
];

#[test]
fn an_unlinking_closes_descriptors(rt: HostRuntime) {
    run(&rt, rt.alloc(), 16384, &CLOSED);
}

/// Who holds an object or a page of it is in the way of others.
const HELD: [Act; 21] = [
    FromBytea(17000, b"abc", Number(17000)),
    Commit,
    Create(7, Number(7)),
    Put(17000, 0, b"A", Done),
    Switch,
    Create(7, Refused(Cause::Busy, 1)),
    FromBytea(7, b"abc", Refused(Cause::Busy, 1)),
    Put(7, 0, b"x", Refused(Cause::NoObject, 7)),
    Put(17000, 1, b"B", Refused(Cause::Busy, 1)),
    Put(17000, 1, b"", Done),
    Unlink(17000, Refused(Cause::Busy, 1)),
    Put(17000, 2048, b"D", Done),
    Get(17000, 0, Some(4), Content(b"abc\0")),
    Switch,
    Unlink(17000, Refused(Cause::Busy, 2)),
    Put(17000, 2048, b"C", Refused(Cause::Busy, 2)),
    Commit,
    Switch,
    Get(17000, 0, Some(4), Content(b"Abc\0")),
    Get(17000, 2046, Some(3), Content(b"\0\0D")),
    Create(7, Refused(Cause::ObjectExists, 7)),
];

#[test]
fn who_is_busy(rt: HostRuntime) {
    run(&rt, rt.alloc(), 16384, &HELD);
}
