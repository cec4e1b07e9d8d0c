// Tests of the store over real transactions. A bench keeps what each call needs, so that a test is a list of acts.
ghost use Rattle.std.specs.Prelude.{◌≡◌, ◌<◌, ◌≤◌, refl, length};
ghost use Rattle.row_versions.specs.Store.{GoesWith};
ghost use Rattle.row_versions.specs.Keys.{exact_by_two};
ghost use Rattle.xact_core.specs.Kept.{HoldsWholeViews};
ghost use Rattle.xact_core.specs.Transactions.{levels_of};

use crate::{Core, Heads, Key};
use lo_base::{Bytes, Name, SessionNo};
use std::alloc::Global;
use std::process::Abort;
use xact_core::Xacts;

/// A key of two numbers, as that of a page.
#[derive(Clone, Copy, Debug, PartialEq, Eq, PartialOrd, Ord)]
pub struct Spot {
    pub object: u32,
    pub number: u32,
}

impl Key for Spot {
    ghost exact = { exact_by_two (λ a. a.object) (λ a. a.number) (λ p. record { object = p.0; number = p.1 }) (λ a. refl) };
}

/// What a test does, step by step. Sessions go by their numbers, levels count from 1, and keys go by their index in a list
/// of keys in order. Contents are single bytes.
#[derive(Clone, Copy)]
enum Act {
    Tick,
    Begin(u8),
    Push(u8),
    Release(u8, u64),
    Undo(u8, u64),
    Commit(u8),
    Abort(u8),
    Put(u8, usize, u8),
    Erase(u8, usize),
    Vacuum,
    /// Holds the view of what is committed now, for good.
    Hold,
    /// What the view that was held last finds at a key: a byte, or 0 for nothing.
    FindsHeld(usize, u8),
    /// What the session's own view finds at a key: a byte, or 0 for nothing.
    Finds(u8, usize, u8),
    /// What is committed at a key: a byte, or 0 for nothing.
    FindsCommitted(usize, u8),
    /// The session with which a key is busy for another one, or 0 for none.
    Busy(u8, usize, u8),
    BusyIn(u8, usize, usize, u8),
    /// The least committed key from one on.
    First(usize, Option<usize>),
    /// The greatest committed key from one to another.
    Last(usize, usize, Option<usize>),
    /// How many keys have a version.
    Keys(usize),
}

/// A store with its transactions, and the number of their undoings.
#[derive(Drop)]
struct Bench<K: Key> {
    core: Core,
    store: Heads<K>,
    undos: u64,
    ghost counted: { core.xacts.undos ≡ undos },
}

fn session(rt: &impl Abort, number: u8) -> SessionNo {
    SessionNo::new(number).expect(rt, "a session")
}

fn content(rt: &impl Abort, alloc: Global, byte: u8) -> Bytes {
    Bytes::from_slice(alloc, &[byte]).expect(rt, "memory")
}

fn byte_of(content: Option<&Bytes>) -> u8 {
    content
        .and_then(|bytes| bytes.items().first().copied())
        .unwrap_or(0)
}

fn key_at<K: Key>(rt: &impl Abort, keys: &[K], index: usize) -> K {
    keys.get(index).copied().expect(rt, "a key")
}

fn number_of(s: Option<SessionNo>) -> u8 {
    s.map_or(0, |s| s.number())
}

impl<K: Key> Bench<K> {
    fn new(rt: &impl Abort, alloc: Global) -> Self
        ensures whole { HoldsWholeViews result.core.xacts }
        ensures goes { GoesWith K.cmp result.core.xacts result.store }
    {
        Bench {
            core: Core {
                xacts: Xacts::new(alloc).expect(rt, "memory"),
            },
            store: Heads::new(alloc).expect(rt, "memory"),
            undos: 0,
        }
    }

    /// Does an act, or compares what it expects.
    fn act(&mut self, rt: &impl Abort, alloc: Global, keys: &[K], act: &Act)
        requires whole { HoldsWholeViews self.old.core.xacts }
        requires goes { GoesWith K.cmp self.old.core.xacts self.old.store }
        ensures whole { HoldsWholeViews self.new.core.xacts }
        ensures goes { GoesWith K.cmp self.new.core.xacts self.new.store }
    {
        match act {
            Act::Tick => self.tick(rt),
            Act::Begin(n) => self.begin(rt, session(rt, *n)),
            Act::Push(n) => self.push(rt, alloc, session(rt, *n)),
            Act::Release(n, level) => {
                let s = session(rt, *n);
                assert!(rt; 2 <= *level && *level <= self.core.xacts.levels(s));
                self.release(s, *level);
            }
            Act::Undo(n, level) => {
                let s = session(rt, *n);
                assert!(rt; 1 <= *level && *level <= self.core.xacts.levels(s));
                self.undo(rt, s, *level);
            }
            Act::Commit(n) => {
                let s = session(rt, *n);
                assert!(rt; self.core.xacts.levels(s) > 0);
                self.commit(s);
            }
            Act::Abort(n) => {
                let s = session(rt, *n);
                assert!(rt; self.core.xacts.levels(s) > 0);
                self.abort(s);
            }
            Act::Put(n, key, byte) => {
                let content = content(rt, alloc, *byte);
                self.put(rt, session(rt, *n), key_at(rt, keys, *key), content);
            }
            Act::Erase(n, key) => self.erase(rt, session(rt, *n), key_at(rt, keys, *key)),
            Act::Vacuum => self.store.vacuum(&self.core),
            Act::Hold => self.hold(rt),
            _ => self.compare(rt, keys, act),
        }
    }

    fn tick(&mut self, rt: &impl Abort)
        requires whole { HoldsWholeViews self.old.core.xacts }
        requires goes { GoesWith K.cmp self.old.core.xacts self.old.store }
        ensures whole { HoldsWholeViews self.new.core.xacts }
        ensures goes { GoesWith K.cmp self.new.core.xacts self.new.store }
    {
        assert!(rt; self.core.xacts.now() < 1 << 63);
        self.core.xacts.tick();
    }

    fn begin(&mut self, rt: &impl Abort, s: SessionNo)
        requires whole { HoldsWholeViews self.old.core.xacts }
        requires goes { GoesWith K.cmp self.old.core.xacts self.old.store }
        ensures whole { HoldsWholeViews self.new.core.xacts }
        ensures goes { GoesWith K.cmp self.new.core.xacts self.new.store }
    {
        assert_eq!(rt; self.core.xacts.levels(s), 0);
        assert!(rt; self.core.xacts.views() < 1000);
        self.core.xacts.begin(s).expect(rt, "memory");
    }

    fn push(&mut self, rt: &impl Abort, alloc: Global, s: SessionNo)
        requires whole { HoldsWholeViews self.old.core.xacts }
        requires goes { GoesWith K.cmp self.old.core.xacts self.old.store }
        ensures whole { HoldsWholeViews self.new.core.xacts }
        ensures goes { GoesWith K.cmp self.new.core.xacts self.new.store }
    {
        assert!(rt; self.core.xacts.levels(s) > 0);
        assert!(rt; self.core.xacts.views() < 1000);
        self.core
            .xacts
            .push_level(s, Name::new(alloc))
            .expect(rt, "memory");
    }

    fn release(&mut self, s: SessionNo, level: u64)
        requires low { 2 ≤ level }
        requires high { level ≤ length (levels_of self.old.core.xacts s) }
        requires whole { HoldsWholeViews self.old.core.xacts }
        requires goes { GoesWith K.cmp self.old.core.xacts self.old.store }
        ensures whole { HoldsWholeViews self.new.core.xacts }
        ensures goes { GoesWith K.cmp self.new.core.xacts self.new.store }
    {
        self.core.xacts.release_level(s, level);
    }

    fn undo(&mut self, rt: &impl Abort, s: SessionNo, level: u64)
        requires low { 1 ≤ level }
        requires high { level ≤ length (levels_of self.old.core.xacts s) }
        requires whole { HoldsWholeViews self.old.core.xacts }
        requires goes { GoesWith K.cmp self.old.core.xacts self.old.store }
        ensures whole { HoldsWholeViews self.new.core.xacts }
        ensures goes { GoesWith K.cmp self.new.core.xacts self.new.store }
    {
        assert!(rt; self.undos < 1000);
        self.core.xacts.undo_level(s, level);
        self.undos += 1;
    }

    fn commit(&mut self, s: SessionNo)
        requires some { 0 < length (levels_of self.old.core.xacts s) }
        requires whole { HoldsWholeViews self.old.core.xacts }
        requires goes { GoesWith K.cmp self.old.core.xacts self.old.store }
        ensures whole { HoldsWholeViews self.new.core.xacts }
        ensures goes { GoesWith K.cmp self.new.core.xacts self.new.store }
    {
        self.core.xacts.commit(s);
    }

    fn abort(&mut self, s: SessionNo)
        requires some { 0 < length (levels_of self.old.core.xacts s) }
        requires whole { HoldsWholeViews self.old.core.xacts }
        requires goes { GoesWith K.cmp self.old.core.xacts self.old.store }
        ensures whole { HoldsWholeViews self.new.core.xacts }
        ensures goes { GoesWith K.cmp self.new.core.xacts self.new.store }
    {
        self.core.xacts.abort(s);
    }

    fn hold(&mut self, rt: &impl Abort)
        requires whole { HoldsWholeViews self.old.core.xacts }
        requires goes { GoesWith K.cmp self.old.core.xacts self.old.store }
        ensures whole { HoldsWholeViews self.new.core.xacts }
        ensures goes { GoesWith K.cmp self.new.core.xacts self.new.store }
    {
        assert!(rt; self.core.xacts.views() < 1000);
        let view = self.core.xacts.committed();
        self.core.xacts.hold(view).expect(rt, "memory");
    }

    fn put(&mut self, rt: &impl Abort, s: SessionNo, key: K, content: Bytes)
        requires whole { HoldsWholeViews self.old.core.xacts }
        requires goes { GoesWith K.cmp self.old.core.xacts self.old.store }
        ensures whole { HoldsWholeViews self.new.core.xacts }
        ensures goes { GoesWith K.cmp self.new.core.xacts self.new.store }
    {
        assert!(rt; self.core.xacts.levels(s) > 0);
        assert!(rt; self.store.busy(&self.core, &key, s).is_none());
        self.store
            .put(&mut self.core, s, key, content)
            .expect(rt, "memory");
    }

    fn erase(&mut self, rt: &impl Abort, s: SessionNo, key: K)
        requires whole { HoldsWholeViews self.old.core.xacts }
        requires goes { GoesWith K.cmp self.old.core.xacts self.old.store }
        ensures whole { HoldsWholeViews self.new.core.xacts }
        ensures goes { GoesWith K.cmp self.new.core.xacts self.new.store }
    {
        assert!(rt; self.core.xacts.levels(s) > 0);
        assert!(rt; self.store.busy(&self.core, &key, s).is_none());
        self.store.erase(&self.core, s, key).expect(rt, "memory");
    }

    fn compare(&self, rt: &impl Abort, keys: &[K], act: &Act)
        requires goes { GoesWith K.cmp self.now.core.xacts self.now.store }
    {
        let committed = self.core.xacts.committed();
        match act {
            Act::Finds(n, key, byte) => {
                let s = session(rt, *n);
                assert!(rt; self.core.xacts.levels(s) > 0);
                let own = self.core.xacts.snapshot(s);
                let key = key_at(rt, keys, *key);
                assert_eq!(rt; byte_of(self.store.find(&self.core, &key, &own)), *byte);
            }
            Act::FindsHeld(key, byte) => {
                // The held views are the last ones that are kept.
                let held = self.core.xacts.view(self.core.xacts.views() - 1);
                let key = key_at(rt, keys, *key);
                assert_eq!(rt; byte_of(self.store.find(&self.core, &key, &held)), *byte);
            }
            Act::FindsCommitted(key, byte) => {
                let key = key_at(rt, keys, *key);
                assert_eq!(rt;
                    byte_of(self.store.find(&self.core, &key, &committed)),
                    *byte
                );
            }
            Act::Busy(n, key, other) => {
                let key = key_at(rt, keys, *key);
                let busy = self.store.busy(&self.core, &key, session(rt, *n));
                assert_eq!(rt; number_of(busy), *other);
            }
            Act::BusyIn(n, from, to, other) => {
                let (from, to) = (key_at(rt, keys, *from), key_at(rt, keys, *to));
                let busy = self.store.busy_in(&self.core, &from, &to, session(rt, *n));
                assert_eq!(rt; number_of(busy), *other);
            }
            Act::First(from, key) => {
                let found = self
                    .store
                    .range(&self.core, &key_at(rt, keys, *from), &committed);
                assert!(rt; found == key.map(|key| key_at(rt, keys, key)));
            }
            Act::Last(from, to, key) => {
                let (from, to) = (key_at(rt, keys, *from), key_at(rt, keys, *to));
                let found = self.store.last_in(&self.core, &from, &to, &committed);
                assert!(rt; found == key.map(|key| key_at(rt, keys, key)));
            }
            Act::Keys(count) => assert_eq!(rt; self.store.chains.len(), *count),
            _ => {}
        }
    }
}

fn run<K: Key>(rt: &impl Abort, alloc: Global, keys: &[K], acts: &[Act]) {
    let mut bench = Bench::new(rt, alloc);
    for act in acts {
        bench.act(rt, alloc, keys, act);
    }
}

fn at(object: u32, number: u32) -> Spot {
    Spot { object, number }
}

/// A key is put at two levels, and the upper one is undone, then released into the middle.
const LEVELS: [Act; 34] = [
    Act::Tick,
    Act::Begin(1),
    Act::Put(1, 0, 1),
    Act::Put(1, 0, 2),
    Act::Finds(1, 0, 2),
    Act::FindsCommitted(0, 0),
    Act::Push(1),
    Act::Tick,
    Act::Put(1, 0, 3),
    Act::Finds(1, 0, 3),
    Act::Vacuum,
    Act::Undo(1, 2),
    Act::Finds(1, 0, 2),
    Act::Put(1, 0, 4),
    Act::Push(1),
    Act::Erase(1, 0),
    Act::Put(1, 1, 5),
    Act::Finds(1, 0, 0),
    Act::Busy(2, 0, 1),
    Act::Busy(1, 0, 0),
    Act::Release(1, 3),
    Act::Finds(1, 0, 0),
    Act::Vacuum,
    Act::Finds(1, 1, 5),
    Act::Undo(1, 2),
    Act::Finds(1, 0, 2),
    Act::Finds(1, 1, 0),
    Act::Tick,
    Act::Commit(1),
    Act::FindsCommitted(0, 2),
    Act::Busy(2, 0, 0),
    Act::Vacuum,
    Act::FindsCommitted(0, 2),
    Act::Keys(1),
];

#[test]
fn levels_at_a_number(rt: HostRuntime) {
    run(&rt, rt.alloc(), &[7u64, 9u64], &LEVELS);
}

#[test]
fn levels_at_a_pair(rt: HostRuntime) {
    run(&rt, rt.alloc(), &[at(7, 2), at(7, 3)], &LEVELS);
}

/// Three keys in order: what is found from one on and between two, over an erased key, and who is busy at both ends.
const SEARCHES: [Act; 38] = [
    Act::Tick,
    Act::Begin(1),
    Act::Put(1, 0, 1),
    Act::Put(1, 1, 2),
    Act::Put(1, 2, 3),
    Act::First(0, None),
    Act::Commit(1),
    Act::First(0, Some(0)),
    Act::First(1, Some(1)),
    Act::Last(0, 2, Some(2)),
    Act::Last(0, 1, Some(1)),
    Act::Tick,
    Act::Begin(2),
    Act::Erase(2, 1),
    Act::First(1, Some(1)),
    Act::Commit(2),
    Act::First(1, Some(2)),
    Act::Last(0, 1, Some(0)),
    Act::Last(1, 1, None),
    Act::Last(2, 0, None),
    Act::Vacuum,
    Act::First(1, Some(2)),
    Act::Keys(2),
    Act::Tick,
    Act::Begin(3),
    Act::Begin(4),
    Act::Put(4, 0, 4),
    Act::Erase(3, 2),
    Act::BusyIn(1, 0, 2, 3),
    Act::BusyIn(3, 0, 2, 4),
    Act::BusyIn(4, 0, 1, 0),
    Act::BusyIn(4, 1, 2, 3),
    Act::BusyIn(1, 1, 1, 0),
    Act::BusyIn(1, 2, 0, 0),
    Act::Abort(3),
    Act::BusyIn(1, 0, 2, 4),
    Act::Vacuum,
    Act::FindsCommitted(2, 3),
];

#[test]
fn searches_of_numbers(rt: HostRuntime) {
    run(&rt, rt.alloc(), &[0u32, 7u32, u32::MAX], &SEARCHES);
}

#[test]
fn searches_of_pairs(rt: HostRuntime) {
    run(
        &rt,
        rt.alloc(),
        &[at(1, u32::MAX), at(2, 0), at(2, 1)],
        &SEARCHES,
    );
}

/// Session 2 puts and commits after the hold, and what was put before it stays for the held view alone.
const HELD: [Act; 24] = [
    Act::Tick,
    Act::Begin(1),
    Act::Put(1, 0, 1),
    Act::Commit(1),
    Act::Hold,
    Act::Tick,
    Act::Begin(2),
    Act::Put(2, 0, 2),
    Act::Put(2, 1, 3),
    Act::FindsHeld(0, 1),
    Act::FindsHeld(1, 0),
    Act::Commit(2),
    Act::Tick,
    Act::Vacuum,
    Act::FindsCommitted(0, 2),
    Act::FindsHeld(0, 1),
    Act::FindsHeld(1, 0),
    Act::Begin(3),
    Act::Erase(3, 0),
    Act::Commit(3),
    Act::Vacuum,
    Act::FindsCommitted(0, 0),
    Act::FindsHeld(0, 1),
    Act::Keys(2),
];

#[test]
fn a_commit_under_a_hold(rt: HostRuntime) {
    run(&rt, rt.alloc(), &[7u64, 9u64], &HELD);
    run(&rt, rt.alloc(), &[at(7, 2), at(7, 3)], &HELD);
}

const ROUND: [Act; 5] = [
    Act::Tick,
    Act::Begin(1),
    Act::Put(1, 0, 5),
    Act::Commit(1),
    Act::Vacuum,
];

#[test]
fn ten_thousand_puts_of_one_key(rt: HostRuntime) {
    let mut bench = Bench::new(&rt, rt.alloc());
    for round in 0..10_000 {
        for act in &ROUND {
            bench.act(&rt, rt.alloc(), &[7u64], act);
        }
        if round == 5000 {
            bench.act(&rt, rt.alloc(), &[7u64], &Act::Hold);
        }
    }
    let kept = bench
        .store
        .chains
        .get(&7u64)
        .map_or(0, |entries| entries.len());
    assert_eq!(rt; kept, 2);
    bench.act(&rt, rt.alloc(), &[7u64], &Act::FindsHeld(0, 5));
}

#[test]
fn a_hundred_thousand_keys_erased(rt: HostRuntime) {
    let mut bench = Bench::new(&rt, rt.alloc());
    bench.act(&rt, rt.alloc(), &[], &Act::Begin(1));
    for key in 0..100_000u32 {
        bench.act(&rt, rt.alloc(), &[key], &Act::Put(1, 0, 1));
    }
    bench.act(&rt, rt.alloc(), &[], &Act::Commit(1));
    bench.act(&rt, rt.alloc(), &[], &Act::Vacuum);
    bench.act(&rt, rt.alloc(), &[], &Act::Keys(100_000));
    bench.act(&rt, rt.alloc(), &[], &Act::Begin(1));
    for key in 0..100_000u32 {
        bench.act(&rt, rt.alloc(), &[key], &Act::Erase(1, 0));
    }
    bench.act(&rt, rt.alloc(), &[], &Act::Commit(1));
    bench.act(&rt, rt.alloc(), &[], &Act::Vacuum);
    bench.act(&rt, rt.alloc(), &[], &Act::Keys(0));
    assert_eq!(rt; bench.store.unsettled.len(), 0);
}
