// Tests of the calls on descriptors, over real transactions.
ghost use Rattle.std.specs.Prelude.{◌≡◌, ◌<◌, ◌≤◌, ◌+◌, ◌^◌};
ghost use Rattle.lo_calls.specs.Pair.{AreReady, LeavesReady};

use crate::bench::{Answer, Bench, is_content, is_done, is_number};
use lo_base::{Cause, Denied, Oid};
use std::alloc::Global;
use std::process::Abort;

/// What a test does, step by step. The last of most is what is expected.
#[derive(Clone, Copy)]
enum Act {
    /// Commits, or rolls back, and begins again.
    Commit,
    Rollback,
    /// The other session acts from here on.
    Switch,
    /// The clock moves on, as before each request.
    Tick,
    Savepoint,
    /// Rolls back to the savepoint of a level, or releases it. The first one is of level 2.
    UndoTo(u64),
    Release(u64),
    FromBytea(Oid, &'static [u8]),
    Put(Oid, i64, &'static [u8]),
    Unlink(Oid),
    Open(Oid, i32, Answer),
    Close(i32, Answer),
    Read(i32, i32, Answer),
    Write(i32, &'static [u8], Answer),
    /// lo_lseek64, and lo_lseek.
    Seek(i32, i64, i32, Answer),
    SeekNear(i32, i64, i32, Answer),
    /// lo_tell64, and lo_tell.
    Tell(i32, Answer),
    TellNear(i32, Answer),
    Truncate(i32, i64, Answer),
}

use Act::*;
use Answer::{Content, Done, Number, Refused};

/// The mode to read, and the one to read and write.
const READ: i32 = 262144;

const BOTH: i32 = 393216;

impl Bench {
    #[tactic(auto, using(crate::proofs::Benching::swapped_leaves))]
    fn play(&mut self, rt: &impl Abort, alloc: Global, act: &Act)
        requires ready { AreReady self.old.core.xacts self.old.store self.old.session self.old.other }
        requires few { self.old.core.xacts.undos < 2 ^ 63 }
        ensures { LeavesReady self.old.core.xacts self.new.core.xacts self.new.store
            self.new.session self.new.other }
    {
        match act {
            Act::Commit => self.commit(rt),
            Act::Rollback => self.rollback(rt),
            Act::Switch => std::mem::swap(&mut self.session, &mut self.other),
            Act::Tick => self.tick(rt),
            Act::Savepoint => self.savepoint(rt, alloc),
            Act::UndoTo(level) => self.undo(rt, *level),
            Act::Release(level) => self.release(rt, *level),
            Act::FromBytea(..) | Act::Put(..) | Act::Unlink(..) => self.change(rt, act),
            _ => self.describe(rt, act),
        }
    }

    /// Changes an object by its number.
    #[tactic(auto, using(crate::proofs::Benching::kept_leaves))]
    fn change(&mut self, rt: &impl Abort, act: &Act)
        requires ready { AreReady self.old.core.xacts self.old.store self.old.session self.old.other }
        ensures { LeavesReady self.old.core.xacts self.new.core.xacts self.new.store
            self.new.session self.new.other }
    {
        match act {
            Act::FromBytea(oid, bytes) => {
                assert!(rt; bytes.len() <= 16777216);
                let answered = self
                    .session
                    .lo_from_bytea(&mut self.store, &mut self.core, *oid, bytes);
                assert!(rt; answered.is_ok_and(|number| number == *oid));
            }
            Act::Put(oid, at, bytes) => {
                let answered = self
                    .session
                    .lo_put(&mut self.store, &mut self.core, *oid, *at, bytes);
                assert!(rt; answered.is_ok());
            }
            Act::Unlink(oid) => {
                let answered = self
                    .session
                    .lo_unlink(&mut self.store, &mut self.core, *oid);
                assert!(rt; answered.is_ok());
            }
            _ => {}
        }
    }

    /// Opens, closes, reads or writes a descriptor.
    #[tactic(auto, using(crate::proofs::Benching::kept_leaves))]
    fn describe(&mut self, rt: &impl Abort, act: &Act)
        requires ready { AreReady self.old.core.xacts self.old.store self.old.session self.old.other }
        ensures { LeavesReady self.old.core.xacts self.new.core.xacts self.new.store
            self.new.session self.new.other }
    {
        match act {
            Act::Open(oid, mode, answer) => {
                assert!(rt; self.core.xacts.views() < 1000);
                let answered = self
                    .session
                    .lo_open(&self.store, &mut self.core, *oid, *mode);
                assert!(rt; is_number(&answered.map(i64::from), *answer));
            }
            Act::Close(fd, answer) => {
                let answered = self.session.lo_close(&mut self.core, *fd);
                assert!(rt; is_done(&answered.map_err(Denied::By), *answer));
            }
            Act::Read(fd, len, answer) => {
                let answered = self.session.lo_read(&self.store, &self.core, *fd, *len);
                assert!(rt; is_content(&answered, *answer));
            }
            Act::Write(fd, bytes, answer) => {
                let answered = self
                    .session
                    .lo_write(&mut self.store, &mut self.core, *fd, bytes);
                assert!(rt; is_number(&answered, *answer));
            }
            Act::Truncate(fd, len, answer) => {
                let answered = self
                    .session
                    .lo_truncate(&mut self.store, &mut self.core, *fd, *len);
                assert!(rt; is_done(&answered, *answer));
            }
            _ => self.seek(rt, act),
        }
    }

    /// Moves a descriptor, or tells its position.
    fn seek(&mut self, rt: &impl Abort, act: &Act)
        requires ready { AreReady self.old.core.xacts self.old.store self.old.session self.old.other }
        ensures { LeavesReady self.old.core.xacts self.new.core.xacts self.new.store
            self.new.session self.new.other }
    {
        match act {
            Act::Seek(fd, offset, whence, answer) => {
                let answered = self
                    .session
                    .lo_lseek(&self.store, &self.core, *fd, *offset, *whence, true);
                assert!(rt; is_number(&answered.map_err(Denied::By), *answer));
            }
            Act::SeekNear(fd, offset, whence, answer) => {
                let answered = self
                    .session
                    .lo_lseek(&self.store, &self.core, *fd, *offset, *whence, false);
                assert!(rt; is_number(&answered.map_err(Denied::By), *answer));
            }
            Act::Tell(fd, answer) => {
                let answered = self.session.lo_tell(*fd, true);
                assert!(rt; is_number(&answered.map_err(Denied::By), *answer));
            }
            Act::TellNear(fd, answer) => {
                let answered = self.session.lo_tell(*fd, false);
                assert!(rt; is_number(&answered.map_err(Denied::By), *answer));
            }
            _ => {}
        }
    }
}

fn run(rt: &impl Abort, alloc: Global, acts: &[Act]) {
    assert!(rt; acts.len() < 1000);
    let mut bench = Bench::new(rt, alloc, 16384);
    for act in acts {
        bench.play(rt, alloc, act);
    }
}

/// Writing behind a hole, up to the largest size and not above it.
const WRITTEN: [Act; 15] = [
    FromBytea(17000, b""),
    Open(17000, BOTH, Number(0)),
    Seek(0, 10240, 0, Number(10240)),
    Write(0, b"X", Number(1)),
    Seek(0, 0, 2, Number(10241)),
    Seek(0, 2047, 0, Number(2047)),
    Read(0, 3, Content(b"\0\0\0")),
    Tell(0, Number(2050)),
    Seek(0, 4398046509055, 0, Number(4398046509055)),
    Write(0, b"Y", Number(1)),
    Tell(0, Number(4398046509056)),
    Write(0, b"Z", Refused(Cause::BadWrite, 1)),
    Write(0, b"", Number(0)),
    Tell(0, Number(4398046509056)),
    Read(0, 9, Content(b"")),
];

#[test]
fn writing_behind_a_hole(rt: HostRuntime) {
    run(&rt, rt.alloc(), &WRITTEN);
}

/// Where a move leads: from the start, from the position or from the end, to the largest size at most. One that is refused
/// moves nothing.
const MOVED: [Act; 18] = [
    FromBytea(17000, b"abcde"),
    Open(17000, READ, Number(0)),
    Seek(0, 3, 0, Number(3)),
    Seek(0, -1, 1, Number(2)),
    Read(0, 2, Content(b"cd")),
    Seek(0, -4, 2, Number(1)),
    Seek(0, 4, 2, Number(9)),
    Read(0, 2, Content(b"")),
    Seek(0, 4398046509056, 0, Number(4398046509056)),
    Seek(0, 4398046509057, 0, Refused(Cause::BadSeek, 4398046509057)),
    Seek(0, 1, 1, Refused(Cause::BadSeek, 1)),
    Seek(0, -1, 0, Refused(Cause::BadSeek, -1)),
    Seek(0, -6, 2, Refused(Cause::BadSeek, -6)),
    Seek(0, 0, 3, Refused(Cause::BadWhence, 3)),
    Seek(0, 0, -1, Refused(Cause::BadWhence, -1)),
    Seek(7, 0, 3, Refused(Cause::NoDescriptor, 7)),
    Tell(0, Number(4398046509056)),
    Tell(-1, Refused(Cause::NoDescriptor, -1)),
];

#[test]
fn where_a_move_leads(rt: HostRuntime) {
    run(&rt, rt.alloc(), &MOVED);
}

/// The calls without 64 answer positions up to 2147483647.
const NEAR: [Act; 12] = [
    FromBytea(17000, b""),
    Open(17000, BOTH, Number(0)),
    SeekNear(0, 2147483647, 0, Number(2147483647)),
    TellNear(0, Number(2147483647)),
    SeekNear(0, 1, 1, Refused(Cause::PositionRange, 0)),
    TellNear(0, Number(2147483647)),
    Seek(0, 2147483648, 0, Number(2147483648)),
    Tell(0, Number(2147483648)),
    TellNear(0, Refused(Cause::PositionRange, 0)),
    SeekNear(0, 4398046509057, 0, Refused(Cause::BadSeek, 4398046509057)),
    SeekNear(0, 0, 1, Refused(Cause::PositionRange, 0)),
    SeekNear(0, 0, 0, Number(0)),
];

#[test]
fn near_positions(rt: HostRuntime) {
    run(&rt, rt.alloc(), &NEAR);
}

/// A descriptor that may not write reads what was there at its opening, and one that may what is there now.
const CHANGED: [Act; 21] = [
    FromBytea(17000, b"old"),
    Commit,
    Open(17000, READ, Number(0)),
    Open(17000, BOTH, Number(1)),
    Tick,
    Switch,
    Put(17000, 0, b"newer"),
    Switch,
    Read(1, 10, Content(b"old")),
    Switch,
    Commit,
    Switch,
    Read(0, 10, Content(b"old")),
    Seek(0, 0, 2, Number(3)),
    Read(1, 10, Content(b"er")),
    Seek(1, 0, 0, Number(0)),
    Write(1, b"N", Number(1)),
    Open(17000, READ, Number(2)),
    Read(2, 10, Content(b"Newer")),
    Write(0, b"N", Refused(Cause::NotWritable, 0)),
    Truncate(0, -1, Refused(Cause::NotWritable, 0)),
];

#[test]
fn old_bytes_and_new_ones(rt: HostRuntime) {
    run(&rt, rt.alloc(), &CHANGED);
}

/// The same where the object is taken away and made anew, and where it is gone.
const GONE: [Act; 23] = [
    FromBytea(17000, b"old"),
    FromBytea(17001, b"old"),
    Commit,
    Open(17000, READ, Number(0)),
    Open(17000, BOTH, Number(1)),
    Open(17001, READ, Number(2)),
    Open(17001, BOTH, Number(3)),
    Tick,
    Switch,
    Unlink(17000),
    FromBytea(17000, b""),
    Unlink(17001),
    Commit,
    Switch,
    Read(0, 3, Content(b"old")),
    Read(1, 3, Content(b"")),
    Read(2, 3, Content(b"old")),
    Read(3, 3, Content(b"")),
    Seek(3, 0, 2, Number(0)),
    Write(3, b"A", Refused(Cause::NoObject, 17001)),
    Truncate(3, -1, Refused(Cause::NoObject, 17001)),
    Open(17001, 1, Refused(Cause::NoObject, 17001)),
    Open(17000, 1, Refused(Cause::BadMode, 1)),
];

#[test]
fn an_object_that_is_gone(rt: HostRuntime) {
    run(&rt, rt.alloc(), &GONE);
}

/// A rollback to a savepoint closes the descriptors of its level, and a release gives them to the level below.
const LEVELS: [Act; 19] = [
    FromBytea(17000, b"abc"),
    Open(17000, READ, Number(0)),
    Savepoint,
    Savepoint,
    Open(17000, READ, Number(1)),
    UndoTo(3),
    Tell(1, Refused(Cause::NoDescriptor, 1)),
    Open(17000, READ, Number(1)),
    Release(3),
    Tell(1, Number(0)),
    UndoTo(2),
    Tell(1, Refused(Cause::NoDescriptor, 1)),
    UndoTo(2),
    Tell(0, Number(0)),
    Open(17000, READ, Number(1)),
    Release(2),
    Read(1, 2, Content(b"ab")),
    Rollback,
    Tell(0, Refused(Cause::NoDescriptor, 0)),
];

#[test]
fn levels_of_descriptors(rt: HostRuntime) {
    run(&rt, rt.alloc(), &LEVELS);
}

/// The lowest free number is given, and the end of a transaction closes all descriptors.
const NUMBERS: [Act; 15] = [
    FromBytea(17000, b""),
    Commit,
    Open(17000, READ, Number(0)),
    Open(17000, READ, Number(1)),
    Open(17000, READ, Number(2)),
    Close(1, Done),
    Close(1, Refused(Cause::NoDescriptor, 1)),
    Open(17000, READ, Number(1)),
    Read(7, 1, Refused(Cause::NoDescriptor, 7)),
    Close(-1, Refused(Cause::NoDescriptor, -1)),
    Rollback,
    Open(17000, READ, Number(0)),
    Write(0, b"A", Refused(Cause::NotWritable, 0)),
    Commit,
    Read(0, 1, Refused(Cause::NoDescriptor, 0)),
];

#[test]
fn numbers_of_descriptors(rt: HostRuntime) {
    run(&rt, rt.alloc(), &NUMBERS);
}

/// A size takes bytes off the end or adds zeros there, and moves no descriptor. Who has written is in the way of others.
const SIZED: [Act; 20] = [
    FromBytea(17000, b"abcdefghij"),
    Commit,
    Open(17000, BOTH, Number(0)),
    Seek(0, 9, 0, Number(9)),
    Truncate(0, 3, Done),
    Truncate(0, 6, Done),
    Tell(0, Number(9)),
    Seek(0, 1, 0, Number(1)),
    Read(0, -1, Content(b"")),
    Read(0, 16, Content(b"bc\0\0\0")),
    Truncate(0, -1, Refused(Cause::BadTruncate, -1)),
    Truncate(0, 4398046509057, Refused(Cause::BadTruncate, 4398046509057)),
    Truncate(0, 4398046509056, Done),
    Read(0, 16777217, Refused(Cause::TooMuch, 16777217)),
    Tell(0, Number(6)),
    Switch,
    Open(17000, BOTH, Number(0)),
    Write(0, b"A", Refused(Cause::Busy, 1)),
    Truncate(0, 0, Refused(Cause::Busy, 1)),
    Tell(0, Number(0)),
];

#[test]
fn sizes_and_who_is_busy(rt: HostRuntime) {
    run(&rt, rt.alloc(), &SIZED);
}

/// A session has 256 descriptors at most.
#[test]
fn the_last_descriptor(rt: HostRuntime) {
    let mut bench = Bench::new(&rt, rt.alloc(), 16384);
    bench.play(&rt, rt.alloc(), &FromBytea(17000, b""));
    for number in 0..256_u32 {
        let next = Open(17000, READ, Number(i64::from(number)));
        bench.play(&rt, rt.alloc(), &next);
    }
    let many = Open(17000, READ, Refused(Cause::TooManyDescriptors, 256));
    bench.play(&rt, rt.alloc(), &many);
    bench.play(&rt, rt.alloc(), &Close(7, Done));
    bench.play(&rt, rt.alloc(), &Open(17000, BOTH, Number(7)));
    bench.play(&rt, rt.alloc(), &many);
}
