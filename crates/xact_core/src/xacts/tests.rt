// Worked runs of the calls: levels, owners and views step by step, and runs far past small numbers.
ghost use Rattle.std.specs.Prelude.{◌≡◌, [], ◌∷◌, ◌++◌};

use super::*;
use std::process::Abort;

/// What a test does, step by step. Sessions go by their numbers, levels count from 1, and stamps and snapshots that
/// were taken go by their order, from 0.
#[derive(Clone, Copy)]
enum Act {
    Tick,
    Begin(u8),
    Push(u8, &'static [u8]),
    /// A transaction with levels above the first, named by one letter each, and a stamp in each of its levels.
    Nest(u8, &'static [u8]),
    Release(u8, u64),
    Undo(u8, u64),
    Commit(u8),
    Abort(u8),
    /// A stamp of an edit of the session.
    Stamp(u8),
    /// A snapshot of the session.
    Look(u8),
    /// A snapshot of what is committed.
    LookCommitted,
    /// The kept view at a place.
    LookAt(u64),
    /// Which of the stamps a snapshot sees: `y` or `n` for each, in order.
    Sees(usize, &'static [u8]),
    /// Whose each stamp is, in order: `1` to `9` for an open transaction at that level, `c` for a commit, `-` for none.
    Owners(&'static [u8]),
    /// How many levels the session has.
    Levels(u8, u64),
    /// The newest level with the name, 0 for none.
    Newest(u8, &'static [u8], u64),
    /// How many views are kept.
    Views(u64),
}

/// Transactions with what was taken of them, and the number of their undoings.
#[derive(Drop)]
struct Bench {
    alloc: Global,
    xacts: Xacts,
    undos: u64,
    stamps: Vec<Stamp>,
    looks: Vec<Snapshot>,
    ghost counted: { xacts.undos ≡ undos },
}

fn session(rt: &impl Abort, number: u8) -> SessionNo {
    SessionNo::new(number).expect(rt, "a session")
}

impl Bench {
    fn new(rt: &impl Abort, alloc: Global) -> Bench {
        Bench {
            alloc,
            xacts: Xacts::new(alloc).expect(rt, "memory"),
            undos: 0,
            stamps: Vec::new(alloc),
            looks: Vec::new(alloc),
        }
    }

    /// Does an act, or compares what it expects.
    fn act(&mut self, rt: &impl Abort, act: &Act)
        ensures { self.new.xacts.held ≡ self.old.xacts.held }
    {
        match act {
            Act::Tick => {
                assert!(rt; self.xacts.now() < 1 << 63);
                self.xacts.tick();
            }
            Act::Begin(n) => self.begin(rt, session(rt, *n)),
            Act::Push(n, name) => self.push(rt, session(rt, *n), name),
            Act::Nest(n, names) => self.nest(rt, session(rt, *n), names),
            Act::Release(n, level) => {
                let s = session(rt, *n);
                assert!(rt; 2 <= *level && *level <= self.xacts.levels(s));
                self.xacts.release_level(s, *level);
            }
            Act::Undo(n, level) => self.undo(rt, session(rt, *n), *level),
            Act::Commit(n) => {
                let s = session(rt, *n);
                assert!(rt; self.xacts.levels(s) > 0);
                self.xacts.commit(s);
            }
            Act::Abort(n) => {
                let s = session(rt, *n);
                assert!(rt; self.xacts.levels(s) > 0);
                self.xacts.abort(s);
            }
            Act::Stamp(n) => self.stamp(rt, session(rt, *n)),
            Act::Look(n) => self
                .looks
                .push(self.xacts.snapshot(session(rt, *n)))
                .expect(rt, "memory"),
            Act::LookCommitted => self.looks.push(self.xacts.committed()).expect(rt, "memory"),
            Act::LookAt(k) => {
                assert!(rt; *k < self.xacts.views());
                self.looks.push(self.xacts.view(*k)).expect(rt, "memory");
            }
            _ => self.compare(rt, act),
        }
    }

    fn compare(&self, rt: &impl Abort, act: &Act) {
        match act {
            Act::Sees(look, wanted) => self.compare_seen(rt, *look, wanted),
            Act::Owners(wanted) => self.compare_owners(rt, wanted),
            Act::Levels(n, wanted) => assert_eq!(rt; self.xacts.levels(session(rt, *n)), *wanted),
            Act::Newest(n, name, wanted) => {
                let name = Name::from_slice(self.alloc, *name).expect(rt, "memory");
                assert_eq!(rt;
                    self.xacts.newest(session(rt, *n), &name).unwrap_or(0),
                    *wanted
                );
            }
            Act::Views(wanted) => assert_eq!(rt; self.xacts.views(), *wanted),
            _ => (),
        }
    }

    fn begin(&mut self, rt: &impl Abort, s: SessionNo)
        ensures { self.new.xacts.held ≡ self.old.xacts.held }
    {
        assert_eq!(rt; self.xacts.levels(s), 0);
        assert!(rt; self.xacts.views() < 1000);
        self.xacts.begin(s).expect(rt, "memory");
    }

    fn push(&mut self, rt: &impl Abort, s: SessionNo, name: &[u8])
        ensures { self.new.xacts.held ≡ self.old.xacts.held }
    {
        let name = Name::from_slice(self.alloc, name).expect(rt, "memory");
        assert!(rt; self.xacts.levels(s) > 0);
        assert!(rt; self.xacts.views() < 1000);
        self.xacts.push_level(s, name).expect(rt, "memory");
    }

    fn stamp(&mut self, rt: &impl Abort, s: SessionNo)
        ensures { self.new.xacts.held ≡ self.old.xacts.held }
    {
        assert!(rt; self.xacts.levels(s) > 0);
        self.stamps.push(self.xacts.stamp(s)).expect(rt, "memory");
    }

    fn nest(&mut self, rt: &impl Abort, s: SessionNo, names: &[u8])
        ensures { self.new.xacts.held ≡ self.old.xacts.held }
    {
        self.begin(rt, s);
        self.stamp(rt, s);
        for index in 0..names.len() {
            self.push(rt, s, &names[index..index + 1]);
            self.stamp(rt, s);
        }
    }

    fn undo(&mut self, rt: &impl Abort, s: SessionNo, level: u64)
        ensures { self.new.xacts.held ≡ self.old.xacts.held }
    {
        assert!(rt; 1 <= level && level <= self.xacts.levels(s));
        assert!(rt; self.undos < 1 << 20);
        self.xacts.undo_level(s, level);
        self.undos += 1;
    }

    fn compare_seen(&self, rt: &impl Abort, look: usize, wanted: &[u8]) {
        let snap = self.looks.get(look).expect(rt, "a snapshot");
        assert_eq!(rt; wanted.len(), self.stamps.len());
        for (index, stamp) in self.stamps.iter().enumerate() {
            let sees = wanted.get(index).copied() == Some(b'y');
            assert_eq!(rt;
                self.xacts.sees(snap, *stamp),
                sees,
                "snapshot {look} and stamp {index}"
            );
        }
    }

    fn compare_owners(&self, rt: &impl Abort, wanted: &[u8]) {
        assert_eq!(rt; wanted.len(), self.stamps.len());
        for (index, stamp) in self.stamps.iter().enumerate() {
            let letter = match self.xacts.owner(*stamp) {
                None => b'-',
                Some(Owner::Committed(_)) => b'c',
                Some(Owner::Running(_, level)) if level < 10 => b'0' + level as u8,
                Some(Owner::Running(_, _)) => b'?',
            };
            assert_eq!(rt; Some(letter), wanted.get(index).copied(), "stamp {index}");
        }
    }
}

fn run(rt: &impl Abort, alloc: Global, acts: &[Act]) -> Bench {
    let mut bench = Bench::new(rt, alloc);
    for act in acts {
        bench.act(rt, act);
    }
    bench
}

/// Runs of one session, each from the start.
const RUNS: [&[Act]; 5] = [
    // Levels with equal names: the newest one is found.
    &[
        Act::Levels(3, 0),
        Act::Nest(3, b"sts"),
        Act::Levels(3, 4),
        Act::Newest(3, b"s", 4),
        Act::Newest(3, b"t", 3),
        Act::Newest(3, b"u", 0),
        Act::Newest(3, b"", 0),
        Act::Release(3, 4),
        Act::Newest(3, b"s", 2),
        Act::Newest(4, b"s", 0),
        Act::Undo(3, 2),
        Act::Newest(3, b"s", 2),
        Act::Newest(3, b"t", 0),
    ],
    // A release of a level below others.
    &[
        Act::Nest(1, b"abc"),
        Act::Owners(b"1234"),
        Act::Release(1, 3),
        Act::Levels(1, 2),
        Act::Owners(b"1222"),
        Act::Stamp(1),
        Act::Owners(b"12222"),
        Act::Undo(1, 2),
        Act::Levels(1, 2),
        Act::Owners(b"1----"),
        Act::Commit(1),
        Act::Levels(1, 0),
        Act::Owners(b"c----"),
    ],
    // An undoing of a level below others, and an abort.
    &[
        Act::Nest(2, b"ab"),
        Act::Undo(2, 2),
        Act::Levels(2, 2),
        Act::Newest(2, b"b", 0),
        Act::Owners(b"1--"),
        Act::Stamp(2),
        Act::Owners(b"1--2"),
        Act::Abort(2),
        Act::Levels(2, 0),
        Act::Owners(b"----"),
        Act::Begin(2),
        Act::Stamp(2),
        Act::Owners(b"----1"),
    ],
    // The kept views of a session, and those after its commit.
    &[
        Act::Tick,
        Act::Views(1),
        Act::Nest(2, b"ab"),
        Act::Views(5),
        Act::LookAt(0),
        Act::Sees(0, b"nnn"),
        Act::LookAt(1),
        Act::Sees(1, b"yyy"),
        Act::LookAt(2),
        Act::Sees(2, b"nnn"),
        Act::LookAt(3),
        Act::Sees(3, b"ynn"),
        Act::LookAt(4),
        Act::Sees(4, b"yyn"),
        Act::Commit(2),
        Act::Views(1),
        Act::LookCommitted,
        Act::Sees(5, b"yyy"),
        Act::Look(1),
        Act::Sees(6, b"yyy"),
    ],
    // Views below levels after a release of the upper one.
    &[
        Act::Nest(1, b"ab"),
        Act::LookAt(3),
        Act::LookAt(4),
        Act::Sees(0, b"ynn"),
        Act::Sees(1, b"yyn"),
        Act::Release(1, 3),
        Act::Sees(0, b"ynn"),
        Act::Sees(1, b"yyy"),
    ],
];

#[test]
fn runs_of_one_session(rt: HostRuntime) {
    for acts in &RUNS {
        run(&rt, rt.alloc(), acts);
    }
}

/// Does the same acts again and again.
fn repeat(rt: &impl Abort, bench: &mut Bench, times: usize, acts: &[Act]) {
    for _time in 0..times {
        for act in acts {
            bench.act(rt, act);
        }
    }
}

#[test]
fn a_hundred_thousand_savepoints(rt: HostRuntime) {
    let mut bench = run(&rt, rt.alloc(), &[Act::Nest(1, b""), Act::Begin(2)]);
    repeat(
        &rt,
        &mut bench,
        100_000,
        &[Act::Push(1, b"a"), Act::Release(1, 2)],
    );
    bench.act(&rt, &Act::Levels(1, 1));
    bench.act(&rt, &Act::Push(1, b"a"));
    bench.act(&rt, &Act::Stamp(1));
    repeat(
        &rt,
        &mut bench,
        10_000,
        &[Act::Push(1, b"b"), Act::Undo(1, 2)],
    );
    bench.act(&rt, &Act::Stamp(1));
    for act in &[
        Act::Levels(1, 2),
        Act::Views(6),
        Act::Newest(1, b"a", 2),
        Act::Newest(1, b"b", 0),
        Act::Owners(b"1-2"),
        Act::Commit(1),
        Act::Owners(b"c-c"),
    ] {
        bench.act(&rt, act);
    }
}

#[test]
fn a_hundred_levels(rt: HostRuntime) {
    let mut bench = run(&rt, rt.alloc(), &[Act::Nest(7, b"")]);
    repeat(&rt, &mut bench, 100, &[Act::Push(7, b"s")]);
    for act in &[
        Act::Newest(7, b"s", 101),
        Act::Stamp(7),
        Act::Undo(7, 101),
        Act::Stamp(7),
        Act::Release(7, 3),
        Act::Levels(7, 2),
        Act::Owners(b"1-2"),
    ] {
        bench.act(&rt, act);
    }
}

#[test]
fn sixteen_sessions(rt: HostRuntime) {
    let mut bench = Bench::new(&rt, rt.alloc());
    for number in 1..=SESSIONS {
        bench.act(&rt, &Act::Nest(number, b""));
        bench.act(&rt, &Act::Look(number));
    }
    bench.act(&rt, &Act::Views(33));
    for (index, look) in bench.looks.iter().enumerate() {
        for (other, stamp) in bench.stamps.iter().enumerate() {
            assert_eq!(rt;
                bench.xacts.sees(look, *stamp),
                index == other,
                "{index} and {other}"
            );
        }
    }
    for act in &[
        Act::Commit(16),
        Act::Abort(1),
        Act::Undo(2, 1),
        Act::Owners(b"--1111111111111c"),
        Act::Sees(0, b"nnnnnnnnnnnnnnny"),
        Act::Sees(14, b"nnnnnnnnnnnnnnyy"),
    ] {
        bench.act(&rt, act);
    }
}

/// Holds the view of a session that has a transaction.
fn held(rt: &impl Abort, bench: &mut Bench, number: u8) -> Hold
    ensures { bench.new.xacts.held ≡ bench.old.xacts.held ++ result ∷ [] }
{
    let s = session(rt, number);
    assert!(rt; bench.xacts.levels(s) > 0);
    assert!(rt; bench.xacts.views() < 1000);
    let view = bench.xacts.snapshot(s);
    bench.xacts.hold(view).expect(rt, "memory")
}

#[test]
fn holds_of_one_session_round_a_commit_of_another(rt: HostRuntime) {
    let mut bench = Bench::new(&rt, rt.alloc());
    for act in [Act::Tick, Act::Begin(1), Act::Begin(2), Act::Stamp(2)] {
        bench.act(&rt, &act);
    }
    let before = held(&rt, &mut bench, 1);
    bench.act(&rt, &Act::Tick);
    bench.act(&rt, &Act::Commit(2));
    bench.act(&rt, &Act::Tick);
    let after = held(&rt, &mut bench, 1);
    bench.act(&rt, &Act::Views(5));
    let stamp = bench.stamps.first().copied().expect(&rt, "a stamp");
    assert!(rt; !bench.xacts.sees(&before.snapshot(), stamp));
    assert!(rt; bench.xacts.sees(&after.snapshot(), stamp));
    bench.xacts.let_go(after);
    bench.act(&rt, &Act::Views(4));
    bench.act(&rt, &Act::LookAt(3));
    bench.act(&rt, &Act::Sees(0, b"n"));
}

#[test]
fn holds_round_an_own_edit(rt: HostRuntime) {
    let mut bench = Bench::new(&rt, rt.alloc());
    bench.act(&rt, &Act::Tick);
    bench.act(&rt, &Act::Begin(1));
    let before = held(&rt, &mut bench, 1);
    bench.act(&rt, &Act::Tick);
    bench.act(&rt, &Act::Stamp(1));
    bench.act(&rt, &Act::Tick);
    let after = held(&rt, &mut bench, 1);
    let stamp = bench.stamps.first().copied().expect(&rt, "a stamp");
    assert!(rt; !bench.xacts.sees(&before.snapshot(), stamp));
    assert!(rt; bench.xacts.sees(&after.snapshot(), stamp));
    bench.act(&rt, &Act::Undo(1, 1));
    assert!(rt; !bench.xacts.sees(&after.snapshot(), stamp));
}
