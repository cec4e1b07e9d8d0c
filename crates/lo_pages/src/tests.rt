// Tests of large objects over real transactions. A bench keeps what each call needs, so that a test is a list of acts.
ghost use Rattle.std.specs.Prelude.{◌≡◌, ◌<◌, ◌≤◌, ◌^◌, length};
ghost use Rattle.lo_pages.specs.Standing.{GoWith};
ghost use Rattle.row_versions.specs.Looks.{IsLook};
ghost use Rattle.xact_core.specs.Kept.{HoldsWholeViews};
ghost use Rattle.xact_core.specs.Transactions.{levels_of};

use crate::{LARGEST_SIZE, Pages};
use lo_base::{Cause, Denied, Name, Refusal, SessionNo};
use row_versions::Core;
use std::alloc::Global;
use std::process::Abort;
use xact_core::{Snapshot, Xacts};

/// What a call that changes objects answers.
#[derive(Clone, Copy, PartialEq, Eq)]
enum Answer {
    Done,
    Refused(Cause, i64),
}

/// A view to read in: that of what is committed, a session's own one, or the one that was held last.
#[derive(Clone, Copy)]
enum Look {
    Committed,
    Own(u8),
    Held,
}

/// What a test does, step by step. Sessions go by their numbers, levels count from 1, and offsets and sizes are in bytes.
#[derive(Clone, Copy)]
enum Act {
    Tick,
    Begin(u8),
    Push(u8),
    Undo(u8, u64),
    Commit(u8),
    Rollback(u8),
    /// Holds the view of what is committed now, for good.
    Hold,
    Vacuum,
    Create(u8, u32, Answer),
    /// A session writes these bytes to an object, at an offset.
    Write(u8, u32, u64, &'static [u8], Answer),
    /// A session writes one byte so many times, at an offset.
    WriteRun(u8, u32, u64, usize, u8, Answer),
    Cut(u8, u32, u64, Answer),
    Unlink(u8, u32, Answer),
    Exists(Look, u32, bool),
    Size(Look, u32, u64),
    /// What is read of an object from an offset on: these bytes, where there is room for so many.
    Reads(Look, u32, u64, usize, &'static [u8]),
    /// So many bytes from an offset on are all this one.
    ReadsRun(Look, u32, u64, usize, u8),
    /// The least free number from one on.
    FreeOid(u64, Option<u32>),
    /// The least object from a number on.
    NextObject(Look, u32, Option<u32>),
    /// The least page of an object, from a number on, with a byte other than 0.
    NextBlock(Look, u32, u32, Option<u32>),
}

use Act::*;
use Answer::{Done, Refused};
use Look::{Committed, Held, Own};

/// Pages with their transactions, and the number of their undoings.
#[derive(Drop)]
struct Bench {
    alloc: Global,
    core: Core,
    pages: Pages,
    undos: u64,
    ghost counted: { core.xacts.undos ≡ undos },
}

fn session(rt: &impl Abort, number: u8) -> SessionNo {
    SessionNo::new(number).expect(rt, "a session")
}

/// So many of one byte.
fn run_of(rt: &impl Abort, alloc: Global, count: usize, byte: u8) -> Vec<u8> {
    let mut bytes = Vec::new(alloc);
    bytes.resize(count, byte).expect(rt, "memory");
    bytes
}

fn is_answer(answered: &Result<(), Denied>, answer: Answer) -> bool {
    match (answered, answer) {
        (Ok(()), Answer::Done) => true,
        (Err(Denied::By(r)), Answer::Refused(cause, subject)) => {
            r.cause == cause && r.subject == subject
        }
        _ => false,
    }
}

impl Bench {
    fn new(rt: &impl Abort, alloc: Global) -> Self
        ensures whole { HoldsWholeViews result.core.xacts }
        ensures goes { GoWith result.core.xacts result.pages }
    {
        Bench {
            alloc,
            core: Core {
                xacts: Xacts::new(alloc).expect(rt, "memory"),
            },
            pages: Pages::new(alloc).expect(rt, "memory"),
            undos: 0,
        }
    }

    /// Does an act, or compares what it expects.
    fn act(&mut self, rt: &impl Abort, act: &Act)
        requires whole { HoldsWholeViews self.old.core.xacts }
        requires goes { GoWith self.old.core.xacts self.old.pages }
        ensures whole { HoldsWholeViews self.new.core.xacts }
        ensures goes { GoWith self.new.core.xacts self.new.pages }
    {
        match act {
            Act::Tick => self.tick(rt),
            Act::Begin(n) => self.begin(rt, session(rt, *n)),
            Act::Push(n) => self.push(rt, session(rt, *n)),
            Act::Undo(n, level) => self.undo(rt, session(rt, *n), *level),
            Act::Commit(n) => self.commit(rt, session(rt, *n)),
            Act::Rollback(n) => self.rollback(rt, session(rt, *n)),
            Act::Hold => self.hold(rt),
            Act::Vacuum => self.pages.vacuum(&mut self.core),
            Act::Create(n, oid, answer) => self.create(rt, session(rt, *n), *oid, *answer),
            Act::Write(n, oid, at, bytes, answer) => {
                self.write(rt, session(rt, *n), *oid, *at, bytes, *answer);
            }
            Act::WriteRun(n, oid, at, count, byte, answer) => {
                let bytes = run_of(rt, self.alloc, *count, *byte);
                self.write(rt, session(rt, *n), *oid, *at, bytes.as_slice(), *answer);
            }
            Act::Cut(n, oid, to, answer) => self.cut(rt, session(rt, *n), *oid, *to, *answer),
            Act::Unlink(n, oid, answer) => self.unlink(rt, session(rt, *n), *oid, *answer),
            _ => self.compare(rt, act),
        }
    }

    fn tick(&mut self, rt: &impl Abort)
        requires whole { HoldsWholeViews self.old.core.xacts }
        requires goes { GoWith self.old.core.xacts self.old.pages }
        ensures whole { HoldsWholeViews self.new.core.xacts }
        ensures goes { GoWith self.new.core.xacts self.new.pages }
    {
        assert!(rt; self.core.xacts.now() < 1 << 63);
        self.core.xacts.tick();
    }

    fn begin(&mut self, rt: &impl Abort, s: SessionNo)
        requires whole { HoldsWholeViews self.old.core.xacts }
        requires goes { GoWith self.old.core.xacts self.old.pages }
        ensures whole { HoldsWholeViews self.new.core.xacts }
        ensures goes { GoWith self.new.core.xacts self.new.pages }
    {
        assert_eq!(rt; self.core.xacts.levels(s), 0);
        assert!(rt; self.core.xacts.views() < 1000);
        self.core.xacts.begin(s).expect(rt, "memory");
    }

    fn push(&mut self, rt: &impl Abort, s: SessionNo)
        requires whole { HoldsWholeViews self.old.core.xacts }
        requires goes { GoWith self.old.core.xacts self.old.pages }
        ensures whole { HoldsWholeViews self.new.core.xacts }
        ensures goes { GoWith self.new.core.xacts self.new.pages }
    {
        assert!(rt; self.core.xacts.levels(s) > 0);
        assert!(rt; self.core.xacts.views() < 1000);
        self.core
            .xacts
            .push_level(s, Name::new(self.alloc))
            .expect(rt, "memory");
    }

    fn undo(&mut self, rt: &impl Abort, s: SessionNo, level: u64)
        requires whole { HoldsWholeViews self.old.core.xacts }
        requires goes { GoWith self.old.core.xacts self.old.pages }
        ensures whole { HoldsWholeViews self.new.core.xacts }
        ensures goes { GoWith self.new.core.xacts self.new.pages }
    {
        assert!(rt; 1 <= level);
        assert!(rt; level <= self.core.xacts.levels(s));
        assert!(rt; self.undos < 1000);
        self.core.xacts.undo_level(s, level);
        self.undos += 1;
    }

    fn commit(&mut self, rt: &impl Abort, s: SessionNo)
        requires whole { HoldsWholeViews self.old.core.xacts }
        requires goes { GoWith self.old.core.xacts self.old.pages }
        ensures whole { HoldsWholeViews self.new.core.xacts }
        ensures goes { GoWith self.new.core.xacts self.new.pages }
    {
        assert!(rt; self.core.xacts.levels(s) > 0);
        self.core.xacts.commit(s);
    }

    fn rollback(&mut self, rt: &impl Abort, s: SessionNo)
        requires whole { HoldsWholeViews self.old.core.xacts }
        requires goes { GoWith self.old.core.xacts self.old.pages }
        ensures whole { HoldsWholeViews self.new.core.xacts }
        ensures goes { GoWith self.new.core.xacts self.new.pages }
    {
        assert!(rt; self.core.xacts.levels(s) > 0);
        self.core.xacts.abort(s);
    }

    fn hold(&mut self, rt: &impl Abort)
        requires whole { HoldsWholeViews self.old.core.xacts }
        requires goes { GoWith self.old.core.xacts self.old.pages }
        ensures whole { HoldsWholeViews self.new.core.xacts }
        ensures goes { GoWith self.new.core.xacts self.new.pages }
    {
        assert!(rt; self.core.xacts.views() < 1000);
        let view = self.core.xacts.committed();
        self.core.xacts.hold(view).expect(rt, "memory");
    }

    fn create(&mut self, rt: &impl Abort, s: SessionNo, oid: u32, answer: Answer)
        requires whole { HoldsWholeViews self.old.core.xacts }
        requires goes { GoWith self.old.core.xacts self.old.pages }
        ensures whole { HoldsWholeViews self.new.core.xacts }
        ensures goes { GoWith self.new.core.xacts self.new.pages }
    {
        assert!(rt; self.core.xacts.levels(s) > 0);
        let result = self.pages.create(&mut self.core, s, oid);
        assert!(rt; is_answer(&result, answer));
    }

    fn write(
        &mut self,
        rt: &impl Abort,
        s: SessionNo,
        oid: u32,
        at: u64,
        bytes: &[u8],
        answer: Answer,
    )
        requires whole { HoldsWholeViews self.old.core.xacts }
        requires goes { GoWith self.old.core.xacts self.old.pages }
        ensures whole { HoldsWholeViews self.new.core.xacts }
        ensures goes { GoWith self.new.core.xacts self.new.pages }
    {
        assert!(rt; self.core.xacts.levels(s) > 0);
        let result = self.pages.write(&mut self.core, s, oid, at, bytes);
        assert!(rt; is_answer(&result, answer));
    }

    fn cut(&mut self, rt: &impl Abort, s: SessionNo, oid: u32, to: u64, answer: Answer)
        requires whole { HoldsWholeViews self.old.core.xacts }
        requires goes { GoWith self.old.core.xacts self.old.pages }
        ensures whole { HoldsWholeViews self.new.core.xacts }
        ensures goes { GoWith self.new.core.xacts self.new.pages }
    {
        assert!(rt; self.core.xacts.levels(s) > 0);
        assert!(rt; to < 1 << 63);
        let result = self.pages.cut(&mut self.core, s, oid, to);
        assert!(rt; is_answer(&result, answer));
    }

    fn unlink(&mut self, rt: &impl Abort, s: SessionNo, oid: u32, answer: Answer)
        requires whole { HoldsWholeViews self.old.core.xacts }
        requires goes { GoWith self.old.core.xacts self.old.pages }
        ensures whole { HoldsWholeViews self.new.core.xacts }
        ensures goes { GoWith self.new.core.xacts self.new.pages }
    {
        assert!(rt; self.core.xacts.levels(s) > 0);
        let result = self.pages.drop_object(&mut self.core, s, oid);
        assert!(rt; is_answer(&result, answer));
    }

    fn look(&self, rt: &impl Abort, look: Look) -> Snapshot
        ensures { IsLook self.now.core.xacts result }
    {
        match look {
            Look::Committed => self.core.xacts.committed(),
            Look::Own(n) => {
                let s = session(rt, n);
                assert!(rt; self.core.xacts.levels(s) > 0);
                self.core.xacts.snapshot(s)
            }
            // The held views are the last ones that are kept.
            Look::Held => self.core.xacts.view(self.core.xacts.views() - 1),
        }
    }

    fn compare(&self, rt: &impl Abort, act: &Act)
        requires goes { GoWith self.now.core.xacts self.now.pages }
    {
        match act {
            Act::Exists(look, oid, is_there) => {
                let view = self.look(rt, *look);
                assert_eq!(rt; self.pages.exists(&self.core, &view, *oid), *is_there);
            }
            Act::Size(look, oid, size) => {
                let view = self.look(rt, *look);
                assert_eq!(rt; self.pages.size(&self.core, &view, *oid), *size);
            }
            Act::Reads(look, oid, at, room, bytes) => {
                assert!(rt; self.reads(rt, *look, *oid, *at, *room).as_slice() == *bytes);
            }
            Act::ReadsRun(look, oid, at, count, byte) => {
                let bytes = self.reads(rt, *look, *oid, *at, *count);
                assert!(rt; bytes.as_slice() == run_of(rt, self.alloc, *count, *byte).as_slice());
            }
            Act::FreeOid(from, oid) => {
                assert_eq!(rt; self.pages.free_oid(&self.core, *from), *oid);
            }
            Act::NextObject(look, from, oid) => {
                let view = self.look(rt, *look);
                assert_eq!(rt; self.pages.next_object(&self.core, &view, *from), *oid);
            }
            Act::NextBlock(look, oid, from, number) => {
                let view = self.look(rt, *look);
                let found = self.pages.next_block(&self.core, &view, *oid, *from);
                assert_eq!(rt; found, *number);
            }
            _ => {}
        }
    }

    /// What is read where there is room for so many bytes. The rest of the room stays as it was.
    fn reads(&self, rt: &impl Abort, look: Look, oid: u32, at: u64, room: usize) -> Vec<u8> {
        let view = self.look(rt, look);
        let mut out = run_of(rt, self.alloc, room, 255);
        let count = self
            .pages
            .read_into(&self.core, &view, oid, at, out.as_mut_slice());
        assert!(rt; count <= room);
        assert!(rt; out.iter().skip(count).all(|byte| *byte == 255));
        out.truncate(count);
        out
    }
}

fn run(rt: &impl Abort, alloc: Global, acts: &[Act]) {
    let mut bench = Bench::new(rt, alloc);
    for act in acts {
        bench.act(rt, act);
    }
}

/// Each call on its happy path, and its refusals in one session.
const CALLS: [Act; 53] = [
    Tick,
    Begin(1),
    FreeOid(7, Some(7)),
    Create(1, 7, Done),
    Create(1, 7, Refused(Cause::ObjectExists, 7)),
    Write(1, 7, 0, b"hello", Done),
    Size(Own(1), 7, 5),
    Size(Committed, 7, 0),
    Exists(Own(1), 7, true),
    Exists(Committed, 7, false),
    Reads(Own(1), 7, 0, 8, b"hello"),
    Reads(Own(1), 7, 3, 1, b"l"),
    Reads(Own(1), 7, 5, 4, b""),
    Reads(Own(1), 7, 0, 0, b""),
    Reads(Committed, 7, 0, 4, b""),
    // An open edit takes a number as an object does.
    FreeOid(7, Some(8)),
    FreeOid(1, Some(1)),
    FreeOid(4294967295, Some(4294967295)),
    FreeOid(4294967296, None),
    NextObject(Own(1), 0, Some(7)),
    NextObject(Own(1), 8, None),
    NextObject(Committed, 0, None),
    NextBlock(Own(1), 7, 0, Some(0)),
    NextBlock(Own(1), 7, 1, None),
    Commit(1),
    Exists(Committed, 7, true),
    Reads(Committed, 7, 0, 5, b"hello"),
    FreeOid(7, Some(8)),
    Tick,
    Begin(2),
    Cut(2, 7, 2, Done),
    Reads(Own(2), 7, 0, 8, b"he"),
    Vacuum,
    Reads(Committed, 7, 0, 8, b"hello"),
    Commit(2),
    Size(Committed, 7, 2),
    Tick,
    Begin(1),
    Write(1, 7, 4, b"", Done),
    Size(Own(1), 7, 2),
    Unlink(1, 7, Done),
    Unlink(1, 7, Refused(Cause::NoObject, 7)),
    Write(1, 7, 0, b"x", Refused(Cause::NoObject, 7)),
    Cut(1, 7, 0, Refused(Cause::NoObject, 7)),
    Exists(Committed, 7, true),
    FreeOid(7, Some(8)),
    Commit(1),
    FreeOid(7, Some(7)),
    NextObject(Committed, 0, None),
    Vacuum,
    Exists(Committed, 7, false),
    Size(Committed, 7, 0),
    NextBlock(Committed, 7, 0, None),
];

#[test]
fn each_call(rt: HostRuntime) {
    run(&rt, rt.alloc(), &CALLS);
}

/// One byte at the largest offset of an object, and what is refused above it.
const LARGEST: [Act; 29] = [
    Tick,
    Begin(1),
    Create(1, 7, Done),
    Write(1, 7, LARGEST_SIZE - 1, b"z", Done),
    Size(Own(1), 7, LARGEST_SIZE),
    Reads(Own(1), 7, LARGEST_SIZE - 2, 5, b"\0z"),
    ReadsRun(Own(1), 7, 0, 5000, 0),
    Reads(Own(1), 7, LARGEST_SIZE, 5, b""),
    Reads(Own(1), 7, u64::MAX, 5, b""),
    NextBlock(Own(1), 7, 0, Some(2147483646)),
    NextBlock(Own(1), 7, 2147483647, None),
    Write(1, 7, LARGEST_SIZE, b"z", Refused(Cause::BadWrite, 1)),
    Write(1, 7, LARGEST_SIZE - 1, b"zz", Refused(Cause::BadWrite, 2)),
    Write(1, 7, u64::MAX, b"zzz", Refused(Cause::BadWrite, 3)),
    Cut(
        1,
        7,
        LARGEST_SIZE + 1,
        Refused(Cause::BadTruncate, 4398046509057),
    ),
    Commit(1),
    Tick,
    Begin(2),
    Cut(2, 7, 0, Done),
    Size(Own(2), 7, 0),
    Cut(2, 7, LARGEST_SIZE, Done),
    Size(Own(2), 7, LARGEST_SIZE),
    ReadsRun(Own(2), 7, LARGEST_SIZE - 3000, 3000, 0),
    NextBlock(Own(2), 7, 0, None),
    Size(Committed, 7, LARGEST_SIZE),
    Unlink(2, 7, Done),
    Commit(2),
    Vacuum,
    Exists(Committed, 7, false),
];

#[test]
fn the_largest_offset(rt: HostRuntime) {
    run(&rt, rt.alloc(), &LARGEST);
}

/// Writes over several pages: over a short page in front, over two that are there, and with pages between that are not.
const WRITES: [Act; 24] = [
    Tick,
    Begin(1),
    Create(1, 7, Done),
    Write(1, 7, 0, b"ab", Done),
    WriteRun(1, 7, 2040, 2064, 5, Done),
    Size(Own(1), 7, 4104),
    Reads(Own(1), 7, 0, 4, b"ab\0\0"),
    ReadsRun(Own(1), 7, 2, 2038, 0),
    ReadsRun(Own(1), 7, 2040, 2064, 5),
    Reads(Own(1), 7, 4100, 10, b"\x05\x05\x05\x05"),
    Write(1, 7, 4094, b"abcd", Done),
    Reads(Own(1), 7, 4092, 8, b"\x05\x05abcd\x05\x05"),
    Size(Own(1), 7, 4104),
    Write(1, 7, 2048, b"p", Done),
    Reads(Own(1), 7, 2047, 3, b"\x05p\x05"),
    Write(1, 7, 10000, b"q", Done),
    Size(Own(1), 7, 10001),
    ReadsRun(Own(1), 7, 4104, 5896, 0),
    Reads(Own(1), 7, 9999, 5, b"\0q"),
    NextBlock(Own(1), 7, 3, Some(4)),
    Commit(1),
    Vacuum,
    Reads(Committed, 7, 4092, 8, b"\x05\x05abcd\x05\x05"),
    Size(Committed, 7, 10001),
];

#[test]
fn writes_over_pages(rt: HostRuntime) {
    run(&rt, rt.alloc(), &WRITES);
}

/// Cuts to the end of a page, above the end, to nothing and up again.
const CUTS: [Act; 34] = [
    Tick,
    Begin(1),
    Create(1, 7, Done),
    WriteRun(1, 7, 0, 5000, 9, Done),
    Cut(1, 7, 4096, Done),
    Size(Own(1), 7, 4096),
    ReadsRun(Own(1), 7, 0, 4096, 9),
    Cut(1, 7, 4100, Done),
    Size(Own(1), 7, 4100),
    Reads(Own(1), 7, 4094, 10, b"\x09\x09\0\0\0\0"),
    Cut(1, 7, 0, Done),
    Size(Own(1), 7, 0),
    Reads(Own(1), 7, 0, 4, b""),
    Exists(Own(1), 7, true),
    Cut(1, 7, 3000, Done),
    Size(Own(1), 7, 3000),
    ReadsRun(Own(1), 7, 0, 3000, 0),
    NextBlock(Own(1), 7, 0, None),
    Write(1, 7, 2999, b"x", Done),
    NextBlock(Own(1), 7, 0, Some(1)),
    Cut(1, 7, 2500, Done),
    Cut(1, 7, 3000, Done),
    ReadsRun(Own(1), 7, 0, 3000, 0),
    Cut(1, 7, 2500, Done),
    Commit(1),
    Tick,
    Begin(2),
    Cut(2, 7, 6000, Done),
    Vacuum,
    Size(Own(2), 7, 6000),
    Size(Committed, 7, 2500),
    Rollback(2),
    Vacuum,
    Size(Committed, 7, 2500),
];

#[test]
fn cuts_down_and_up(rt: HostRuntime) {
    run(&rt, rt.alloc(), &CUTS);
}

/// Sessions that write different pages of one object at once, and who is in the way of whom.
const SESSIONS: [Act; 51] = [
    Tick,
    Begin(1),
    Create(1, 7, Done),
    WriteRun(1, 7, 0, 6144, 1, Done),
    Commit(1),
    Tick,
    Begin(1),
    Begin(2),
    Begin(3),
    Write(1, 7, 0, b"aa", Done),
    Write(2, 7, 2048, b"bb", Done),
    Write(2, 7, 10, b"c", Refused(Cause::Busy, 1)),
    Write(1, 7, 2047, b"cc", Refused(Cause::Busy, 2)),
    Write(1, 7, 4096, b"dd", Done),
    Cut(2, 7, 4096, Refused(Cause::Busy, 1)),
    Unlink(1, 7, Refused(Cause::Busy, 2)),
    Unlink(3, 7, Refused(Cause::Busy, 1)),
    Reads(Own(1), 7, 0, 2, b"aa"),
    Reads(Own(1), 7, 2048, 2, b"\x01\x01"),
    Reads(Own(2), 7, 2048, 2, b"bb"),
    Reads(Own(2), 7, 0, 2, b"\x01\x01"),
    Vacuum,
    Commit(2),
    Reads(Own(1), 7, 2048, 2, b"bb"),
    Write(1, 7, 2047, b"cc", Done),
    Commit(1),
    Reads(Committed, 7, 2046, 4, b"\x01ccb"),
    Write(3, 7, 0, b"e", Done),
    Rollback(3),
    Reads(Committed, 7, 0, 2, b"aa"),
    // A cut has the page of the new end and each one above open, also where they are not there.
    Tick,
    Begin(1),
    Begin(2),
    Cut(1, 7, 3000, Done),
    Write(2, 7, 2048, b"f", Refused(Cause::Busy, 1)),
    Write(2, 7, 900000, b"f", Refused(Cause::Busy, 1)),
    Cut(2, 7, 900000, Refused(Cause::Busy, 1)),
    Write(2, 7, 2047, b"f", Done),
    // A creation that was not committed is seen by nobody else, and is in the way.
    Create(2, 8, Done),
    Create(1, 8, Refused(Cause::Busy, 2)),
    Write(1, 8, 0, b"g", Refused(Cause::NoObject, 8)),
    FreeOid(7, Some(9)),
    Commit(2),
    Create(1, 8, Refused(Cause::ObjectExists, 8)),
    Write(1, 8, 0, b"g", Done),
    Commit(1),
    Size(Committed, 7, 3000),
    Reads(Committed, 7, 2046, 4, b"\x01fcb"),
    NextObject(Committed, 8, Some(8)),
    Vacuum,
    Reads(Committed, 8, 0, 2, b"g"),
];

#[test]
fn sessions_in_each_others_way(rt: HostRuntime) {
    run(&rt, rt.alloc(), &SESSIONS);
}

/// What a savepoint's undoing gives back.
const LEVELS: [Act; 19] = [
    Tick,
    Begin(1),
    Create(1, 7, Done),
    Write(1, 7, 0, b"abc", Done),
    Push(1),
    Write(1, 7, 1, b"X", Done),
    Cut(1, 7, 2, Done),
    Reads(Own(1), 7, 0, 4, b"aX"),
    Vacuum,
    Undo(1, 2),
    Reads(Own(1), 7, 0, 4, b"abc"),
    Unlink(1, 7, Done),
    Exists(Own(1), 7, false),
    Undo(1, 2),
    Vacuum,
    Reads(Own(1), 7, 0, 4, b"abc"),
    Write(1, 7, 3, b"d", Done),
    Commit(1),
    Reads(Committed, 7, 0, 8, b"abcd"),
];

#[test]
fn undone_levels(rt: HostRuntime) {
    run(&rt, rt.alloc(), &LEVELS);
}

/// What a held view is to read for good.
const HELD: [Act; 6] = [
    Tick,
    Begin(1),
    Create(1, 7, Done),
    WriteRun(1, 7, 0, 3000, 5, Done),
    Commit(1),
    Hold,
];

const WRITTEN: [Act; 10] = [
    Tick,
    Begin(1),
    WriteRun(1, 7, 1000, 4000, 6, Done),
    Write(1, 7, 0, b"x", Done),
    Commit(1),
    Vacuum,
    Size(Held, 7, 3000),
    ReadsRun(Held, 7, 0, 3000, 5),
    Reads(Committed, 7, 0, 1, b"x"),
    ReadsRun(Committed, 7, 1000, 4000, 6),
];

const MADE_ANEW: [Act; 9] = [
    Tick,
    Begin(1),
    Unlink(1, 7, Done),
    Create(1, 7, Done),
    Write(1, 7, 2, b"new", Done),
    Commit(1),
    Vacuum,
    ReadsRun(Held, 7, 0, 3000, 5),
    Reads(Committed, 7, 0, 9, b"\0\0new"),
];

#[test]
fn a_reader_over_forty_commits(rt: HostRuntime) {
    let mut bench = Bench::new(&rt, rt.alloc());
    for act in &HELD {
        bench.act(&rt, act);
    }
    for _turn in 0..20 {
        for act in &WRITTEN {
            bench.act(&rt, act);
        }
        for act in &MADE_ANEW {
            bench.act(&rt, act);
        }
    }
}

/// Three megabytes in one write, and half of them cut off.
const MEGABYTES: [Act; 18] = [
    Tick,
    Begin(1),
    Create(1, 7, Done),
    WriteRun(1, 7, 100, 3000000, 4, Done),
    Size(Own(1), 7, 3000100),
    ReadsRun(Own(1), 7, 0, 100, 0),
    ReadsRun(Own(1), 7, 100, 3000000, 4),
    Commit(1),
    Tick,
    Begin(1),
    Cut(1, 7, 1500000, Done),
    Write(1, 7, 1500000, b"end", Done),
    Commit(1),
    Vacuum,
    Size(Committed, 7, 1500003),
    ReadsRun(Committed, 7, 100, 1499900, 4),
    Reads(Committed, 7, 1499999, 9, b"\x04end"),
    NextBlock(Committed, 7, 733, None),
];

#[test]
fn megabytes_in_one_call(rt: HostRuntime) {
    run(&rt, rt.alloc(), &MEGABYTES);
}
