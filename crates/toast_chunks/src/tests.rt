// Tests of chunks over real transactions. A bench keeps what each call needs, so that a test is a list of acts.
ghost use Rattle.std.specs.Prelude.{◌≡◌, ◌<◌, ◌≤◌, ◌^◌, length, true};
ghost use Rattle.row_versions.specs.Looks.{IsLook};
ghost use Rattle.toast_chunks.specs.Calls.{IsFree};
ghost use Rattle.toast_chunks.specs.Values.{GoWith};
ghost use Rattle.xact_core.specs.Kept.{HoldsWholeViews};
ghost use Rattle.xact_core.specs.Transactions.{levels_of};

use crate::Chunks;
use crate::chunk_key::ChunkKey;
use lo_base::{Name, SessionNo};
use row_versions::Core;
use std::alloc::Global;
use std::process::Abort;
use xact_core::{Snapshot, Xacts};

/// A view to read in: that of what is committed, a session's own one, or the one that was held last.
#[derive(Clone, Copy)]
enum Look {
    Committed,
    Own(u8),
    Held,
}

/// What a test does, step by step. Sessions go by their numbers, levels count from 1, and values go by their index in the order
/// stored. A value is told by its length and its first byte; each further byte is one more, and 0 comes after 250.
#[derive(Clone, Copy)]
enum Act {
    Tick,
    Begin(u8),
    Push(u8),
    Release(u8, u64),
    Undo(u8, u64),
    Commit(u8),
    Rollback(u8),
    /// Holds the view of what is committed now, for good.
    Hold,
    Vacuum,
    Store(u8, usize, u8),
    Erase(u8, usize),
    /// A view has the value whole.
    Has(Look, usize, usize, u8),
    /// A view does not have the value.
    Misses(Look, usize),
    /// What a view reads of a value from an offset on where there is room for so many bytes: so many, the first of which is this
    /// one.
    Slice(Look, usize, u32, usize, usize, u8),
}

use Act::*;
use Look::{Committed, Held, Own};

/// Chunks with their transactions, the numbers of the values, and the number of undoings.
#[derive(Drop)]
struct Bench {
    alloc: Global,
    core: Core,
    chunks: Chunks,
    values: Vec<u64>,
    undos: u64,
    ghost counted: { core.xacts.undos ≡ undos },
}

fn session(rt: &impl Abort, number: u8) -> SessionNo {
    SessionNo::new(number).expect(rt, "a session")
}

/// The bytes of a value.
fn bytes_of(rt: &impl Abort, alloc: Global, count: usize, first: u8) -> Vec<u8> {
    let mut round = Vec::new(alloc);
    for i in 0..251 {
        round
            .push(((i + first as usize) % 251) as u8)
            .expect(rt, "memory");
    }
    let mut bytes = Vec::new(alloc);
    for _turn in 0..count / 251 + 1 {
        bytes
            .extend_from_slice(round.as_slice())
            .expect(rt, "memory");
    }
    bytes.truncate(count);
    bytes
}

impl Bench {
    fn new(rt: &impl Abort, alloc: Global) -> Self
        ensures whole { HoldsWholeViews result.core.xacts }
        ensures goes { GoWith result.core.xacts result.chunks }
    {
        Bench {
            alloc,
            core: Core {
                xacts: Xacts::new(alloc).expect(rt, "memory"),
            },
            chunks: Chunks::new(alloc).expect(rt, "memory"),
            values: Vec::new(alloc),
            undos: 0,
        }
    }

    /// Does an act, or compares what it expects.
    fn act(&mut self, rt: &impl Abort, act: &Act)
        requires whole { HoldsWholeViews self.old.core.xacts }
        requires goes { GoWith self.old.core.xacts self.old.chunks }
        ensures whole { HoldsWholeViews self.new.core.xacts }
        ensures goes { GoWith self.new.core.xacts self.new.chunks }
    {
        match act {
            Act::Tick => self.tick(rt),
            Act::Begin(n) => self.begin(rt, session(rt, *n)),
            Act::Push(n) => self.push(rt, session(rt, *n)),
            Act::Release(n, level) => self.release(rt, session(rt, *n), *level),
            Act::Undo(n, level) => self.undo(rt, session(rt, *n), *level),
            Act::Commit(n) => self.commit(rt, session(rt, *n)),
            Act::Rollback(n) => self.rollback(rt, session(rt, *n)),
            Act::Hold => self.hold(rt),
            Act::Vacuum => self.chunks.vacuum(&mut self.core),
            Act::Store(n, count, first) => self.store(rt, session(rt, *n), *count, *first),
            Act::Erase(n, index) => self.erase(rt, session(rt, *n), *index),
            _ => self.compare(rt, act),
        }
    }

    fn tick(&mut self, rt: &impl Abort)
        requires whole { HoldsWholeViews self.old.core.xacts }
        requires goes { GoWith self.old.core.xacts self.old.chunks }
        ensures whole { HoldsWholeViews self.new.core.xacts }
        ensures goes { GoWith self.new.core.xacts self.new.chunks }
    {
        assert!(rt; self.core.xacts.now() < 1 << 63);
        self.core.xacts.tick();
    }

    fn begin(&mut self, rt: &impl Abort, s: SessionNo)
        requires whole { HoldsWholeViews self.old.core.xacts }
        requires goes { GoWith self.old.core.xacts self.old.chunks }
        ensures whole { HoldsWholeViews self.new.core.xacts }
        ensures goes { GoWith self.new.core.xacts self.new.chunks }
    {
        assert_eq!(rt; self.core.xacts.levels(s), 0);
        assert!(rt; self.core.xacts.views() < 1000);
        self.core.xacts.begin(s).expect(rt, "memory");
    }

    fn push(&mut self, rt: &impl Abort, s: SessionNo)
        requires whole { HoldsWholeViews self.old.core.xacts }
        requires goes { GoWith self.old.core.xacts self.old.chunks }
        ensures whole { HoldsWholeViews self.new.core.xacts }
        ensures goes { GoWith self.new.core.xacts self.new.chunks }
    {
        assert!(rt; self.core.xacts.levels(s) > 0);
        assert!(rt; self.core.xacts.views() < 1000);
        self.core
            .xacts
            .push_level(s, Name::new(self.alloc))
            .expect(rt, "memory");
    }

    fn release(&mut self, rt: &impl Abort, s: SessionNo, level: u64)
        requires whole { HoldsWholeViews self.old.core.xacts }
        requires goes { GoWith self.old.core.xacts self.old.chunks }
        ensures whole { HoldsWholeViews self.new.core.xacts }
        ensures goes { GoWith self.new.core.xacts self.new.chunks }
    {
        assert!(rt; 2 <= level);
        assert!(rt; level <= self.core.xacts.levels(s));
        self.core.xacts.release_level(s, level);
    }

    fn undo(&mut self, rt: &impl Abort, s: SessionNo, level: u64)
        requires whole { HoldsWholeViews self.old.core.xacts }
        requires goes { GoWith self.old.core.xacts self.old.chunks }
        ensures whole { HoldsWholeViews self.new.core.xacts }
        ensures goes { GoWith self.new.core.xacts self.new.chunks }
    {
        assert!(rt; 1 <= level);
        assert!(rt; level <= self.core.xacts.levels(s));
        assert!(rt; self.undos < 1000);
        self.core.xacts.undo_level(s, level);
        self.undos += 1;
    }

    fn commit(&mut self, rt: &impl Abort, s: SessionNo)
        requires whole { HoldsWholeViews self.old.core.xacts }
        requires goes { GoWith self.old.core.xacts self.old.chunks }
        ensures whole { HoldsWholeViews self.new.core.xacts }
        ensures goes { GoWith self.new.core.xacts self.new.chunks }
    {
        assert!(rt; self.core.xacts.levels(s) > 0);
        self.core.xacts.commit(s);
    }

    fn rollback(&mut self, rt: &impl Abort, s: SessionNo)
        requires whole { HoldsWholeViews self.old.core.xacts }
        requires goes { GoWith self.old.core.xacts self.old.chunks }
        ensures whole { HoldsWholeViews self.new.core.xacts }
        ensures goes { GoWith self.new.core.xacts self.new.chunks }
    {
        assert!(rt; self.core.xacts.levels(s) > 0);
        self.core.xacts.abort(s);
    }

    fn hold(&mut self, rt: &impl Abort)
        requires whole { HoldsWholeViews self.old.core.xacts }
        requires goes { GoWith self.old.core.xacts self.old.chunks }
        ensures whole { HoldsWholeViews self.new.core.xacts }
        ensures goes { GoWith self.new.core.xacts self.new.chunks }
    {
        assert!(rt; self.core.xacts.views() < 1000);
        let view = self.core.xacts.committed();
        self.core.xacts.hold(view).expect(rt, "memory");
    }

    fn store(&mut self, rt: &impl Abort, s: SessionNo, count: usize, first: u8)
        requires whole { HoldsWholeViews self.old.core.xacts }
        requires goes { GoWith self.old.core.xacts self.old.chunks }
        ensures whole { HoldsWholeViews self.new.core.xacts }
        ensures goes { GoWith self.new.core.xacts self.new.chunks }
    {
        assert!(rt; self.core.xacts.levels(s) > 0);
        let bytes = bytes_of(rt, self.alloc, count, first);
        let stored = self.chunks.store(&mut self.core, s, bytes.as_slice());
        let value = stored.expect(rt, "memory");
        assert!(rt; !self.values.as_slice().contains(&value));
        self.values.push(value).expect(rt, "memory");
    }

    fn erase(&mut self, rt: &impl Abort, s: SessionNo, index: usize)
        requires whole { HoldsWholeViews self.old.core.xacts }
        requires goes { GoWith self.old.core.xacts self.old.chunks }
        ensures whole { HoldsWholeViews self.new.core.xacts }
        ensures goes { GoWith self.new.core.xacts self.new.chunks }
    {
        assert!(rt; self.core.xacts.levels(s) > 0);
        let value = self.value(rt, index);
        assert!(rt; self.is_free(s, value));
        self.chunks.erase(&self.core, s, value).expect(rt, "memory");
    }

    /// Whether no other session has a chunk of the value open.
    fn is_free(&self, s: SessionNo, value: u64) -> bool
        requires goes { GoWith self.now.core.xacts self.now.chunks }
        ensures { result ≡ true → IsFree self.now.core.xacts s self.now.chunks value }
    {
        let first = ChunkKey { value, number: 0 };
        let last = ChunkKey {
            value,
            number: u64::MAX,
        };
        self.chunks
            .versions
            .busy_in(&self.core, &first, &last, s)
            .is_none()
    }

    /// The number of a value.
    fn value(&self, rt: &impl Abort, index: usize) -> u64 {
        *self.values.as_slice().get(index).expect(rt, "a value")
    }

    fn look(&self, rt: &impl Abort, look: Look) -> Snapshot
        ensures { IsLook self.now.core.xacts result }
    {
        match look {
            Look::Committed => self.core.xacts.committed(),
            Look::Own(n) => {
                let s = session(rt, n);
                assert!(rt; self.core.xacts.levels(s) > 0);
                self.core.xacts.snapshot(s)
            }
            // The held views are the last ones that are kept.
            Look::Held => self.core.xacts.view(self.core.xacts.views() - 1),
        }
    }

    fn compare(&self, rt: &impl Abort, act: &Act) {
        match act {
            Act::Has(look, index, count, first) => self.has(rt, *look, *index, *count, *first),
            Act::Misses(look, index) => self.slice(rt, *look, *index, 0, 9, 0, 0),
            Act::Slice(look, index, from, room, count, first) => {
                self.slice(rt, *look, *index, *from, *room, *count, *first);
            }
            _ => {}
        }
    }

    /// Compares a value with what a view has, whole, and in room for one byte more.
    fn has(&self, rt: &impl Abort, look: Look, index: usize, count: usize, first: u8) {
        let view = self.look(rt, look);
        let value = self.value(rt, index);
        let bytes = bytes_of(rt, self.alloc, count, first);
        let mut out = Vec::new(self.alloc);
        out.resize(count, 255).expect(rt, "memory");
        self.chunks
            .fetch_into(&self.core, &view, value, out.as_mut_slice());
        assert!(rt; out.as_slice() == bytes.as_slice());
        self.slice(rt, look, index, 0, count + 1, count, first);
    }

    /// Compares what a view reads of a value. The rest of the room stays as it was.
    fn slice(
        &self,
        rt: &impl Abort,
        look: Look,
        index: usize,
        from: u32,
        room: usize,
        count: usize,
        first: u8,
    ) {
        let view = self.look(rt, look);
        let value = self.value(rt, index);
        let mut out = Vec::new(self.alloc);
        out.resize(room, 255).expect(rt, "memory");
        let read = self
            .chunks
            .slice_into(&self.core, &view, value, from, out.as_mut_slice());
        assert_eq!(rt; read, count);
        let mut bytes = bytes_of(rt, self.alloc, count, first);
        bytes.resize(room, 255).expect(rt, "memory");
        assert!(rt; out.as_slice() == bytes.as_slice());
    }
}

fn run(rt: &impl Abort, alloc: Global, acts: &[Act]) {
    let mut bench = Bench::new(rt, alloc);
    for act in acts {
        bench.act(rt, act);
    }
}

/// Values of lengths about those of full chunks. A value of no bytes is none.
const LENGTHS: [Act; 20] = [
    Tick,
    Begin(1),
    Store(1, 1995, 0),
    Store(1, 1996, 1),
    Store(1, 1997, 2),
    Store(1, 3992, 3),
    Store(1, 3993, 4),
    Store(1, 1, 5),
    Store(1, 0, 6),
    Has(Own(1), 1, 1996, 1),
    Misses(Own(1), 6),
    Misses(Committed, 1),
    Commit(1),
    Has(Committed, 0, 1995, 0),
    Has(Committed, 1, 1996, 1),
    Has(Committed, 2, 1997, 2),
    Has(Committed, 3, 3992, 3),
    Has(Committed, 4, 3993, 4),
    Has(Committed, 5, 1, 5),
    Misses(Committed, 6),
];

#[test]
fn lengths_about_full_chunks(rt: HostRuntime) {
    run(&rt, rt.alloc(), &LENGTHS);
}

/// Slices at the edges of chunks and over them, and behind the end.
const SLICES: [Act; 22] = [
    Tick,
    Begin(1),
    Store(1, 3993, 0),
    Store(1, 1997, 0),
    Commit(1),
    Slice(Committed, 0, 1990, 10, 10, 233),
    Slice(Committed, 0, 1995, 1, 1, 238),
    Slice(Committed, 0, 1995, 2, 2, 238),
    Slice(Committed, 0, 1996, 1, 1, 239),
    Slice(Committed, 0, 1996, 1996, 1996, 239),
    Slice(Committed, 0, 1996, 2500, 1997, 239),
    Slice(Committed, 0, 1995, 1998, 1998, 238),
    Slice(Committed, 0, 3991, 10, 2, 226),
    Slice(Committed, 0, 3992, 10, 1, 227),
    Slice(Committed, 0, 3992, 0, 0, 0),
    Slice(Committed, 0, 3993, 10, 0, 0),
    Slice(Committed, 0, 5000, 10, 0, 0),
    Slice(Committed, 0, 4294967295, 10, 0, 0),
    Slice(Committed, 0, 0, 0, 0, 0),
    Slice(Committed, 0, 0, 4000, 3993, 0),
    Slice(Committed, 1, 1990, 10, 7, 233),
    Slice(Committed, 1, 1997, 5, 0, 0),
];

#[test]
fn slices_at_edges(rt: HostRuntime) {
    run(&rt, rt.alloc(), &SLICES);
}

/// An erasure takes a value out of the views that see it, and out of no other.
const VIEWS: [Act; 24] = [
    Tick,
    Begin(1),
    Store(1, 5000, 7),
    Misses(Committed, 0),
    Commit(1),
    Hold,
    Tick,
    Begin(1),
    Begin(2),
    Erase(2, 0),
    Store(2, 4000, 8),
    Misses(Own(2), 0),
    Has(Own(2), 1, 4000, 8),
    Has(Own(1), 0, 5000, 7),
    Misses(Own(1), 1),
    Commit(2),
    Misses(Own(1), 0),
    Has(Own(1), 1, 4000, 8),
    Vacuum,
    Misses(Committed, 0),
    Has(Committed, 1, 4000, 8),
    Has(Held, 0, 5000, 7),
    Slice(Held, 0, 1995, 3, 3, 245),
    Misses(Held, 1),
];

#[test]
fn two_views_of_an_erased_value(rt: HostRuntime) {
    run(&rt, rt.alloc(), &VIEWS);
}

/// What a savepoint's undoing gives back, and what a release passes on.
const LEVELS: [Act; 23] = [
    Tick,
    Begin(1),
    Store(1, 2000, 1),
    Push(1),
    Erase(1, 0),
    Store(1, 3000, 2),
    Misses(Own(1), 0),
    Vacuum,
    Undo(1, 2),
    Has(Own(1), 0, 2000, 1),
    Misses(Own(1), 1),
    Store(1, 4000, 3),
    Erase(1, 0),
    Release(1, 2),
    Vacuum,
    Misses(Own(1), 0),
    Has(Own(1), 2, 4000, 3),
    Rollback(1),
    Misses(Committed, 2),
    Vacuum,
    Begin(1),
    Store(1, 10, 4),
    Has(Own(1), 3, 10, 4),
];

#[test]
fn undone_levels(rt: HostRuntime) {
    run(&rt, rt.alloc(), &LEVELS);
}

/// A value of 16,777,216 bytes, which has 8406 chunks.
const MEGABYTES: [Act; 15] = [
    Tick,
    Begin(1),
    Store(1, 16777216, 0),
    Commit(1),
    Has(Committed, 0, 16777216, 0),
    Slice(Committed, 0, 8388608, 4000, 4000, 188),
    Slice(Committed, 0, 16776379, 2, 2, 41),
    Slice(Committed, 0, 16776380, 900, 836, 42),
    Slice(Committed, 0, 16777216, 900, 0, 0),
    Tick,
    Begin(1),
    Erase(1, 0),
    Commit(1),
    Vacuum,
    Misses(Committed, 0),
];

#[test]
fn sixteen_megabytes(rt: HostRuntime) {
    run(&rt, rt.alloc(), &MEGABYTES);
}
