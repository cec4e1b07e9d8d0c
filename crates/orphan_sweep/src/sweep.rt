//! The sweep's state and its steps. Its invariant and what contracts see of it stand in `specs/Inside.antt`.
ghost use Rattle.std.specs.Prelude.{◌≡◌, ℕ, IsTrue, [], reverse, drop};
ghost use Rattle.std.specs.List.Sorted.{IsStrictlyIncreasing};
ghost use Rattle.orphan_sweep.specs.Rest.{less};
ghost use Rattle.orphan_sweep.specs.Plan.{is_answer_to};
ghost use Rattle.orphan_sweep.specs.History.{History, begun, and_told, next_act, removed_of, rest_of};
ghost use Rattle.orphan_sweep.specs.State.{state_of, next_of};
ghost use Rattle.orphan_sweep.specs.Place.{opening_act, group_size, is_unlink, not_below, begins_with, after};

use crate::act::{Scan, Scans, SweepAct, Told};
use lo_base::{Oid, Oids};
use std::marker::Model;

/// A clean-up of unreferenced large objects under way.
#[derive(Debug, Drop)]
pub struct Sweep {
    dry: bool,
    limit: u32,
    // The list less what was found so far.
    list: Vec<Oid>,
    // The scans after the present act, the next one last.
    scans: Vec<Scan>,
    // The present act.
    act: SweepAct,
    // How many numbers of the list were unlinked.
    unlinked: usize,
    // How many are still to be unlinked in the group that was begun.
    room: usize,
    // How many were unlinked in groups that are committed.
    removed: usize,
}

impl Model for Sweep {
    ghost use Rattle.orphan_sweep.specs.State.{State};

    ghost Value = { State };

    ghost use Rattle.orphan_sweep.specs.Inside.{state_at, IsInPlace};

    ghost view = { state_at };

    ghost invariant = { IsInPlace };
}

impl Sweep {
    /// A sweep that removes the numbers of the list that no scan finds, in ascending order, at most `limit` in one
    /// transaction; 0 is no limit. A dry run only scans and reports. It never lists the objects again.
    pub fn new(dry: bool, limit: u32, list: Oids, scans: Scans) -> Sweep
        requires { IsStrictlyIncreasing list }
        ensures { result ≡ state_of (begun dry limit list scans) }
    {
        let list = list.into_vec();
        let mut scans = scans.into_vec();
        scans.reverse();
        let act = take_opening_act(&mut scans, dry, list.as_slice());
        Sweep {
            dry,
            limit,
            list,
            scans,
            act,
            unlinked: 0,
            room: 0,
            removed: 0,
        }
    }

    /// The act to do now. It is `Idle` once the report was made.
    pub fn next(&self) -> &SweepAct
        ensures act { result.now ≡ next_of self.now }
        ensures by_history { (h : History) → self.now ≡ state_of h → result.now ≡ next_act h }
    {
        &self.act
    }

    /// Takes the answer to the present act, and goes on to the next one. After a scan with k numbers found this sorts
    /// them and walks once along both lists; after any other act it takes a few steps.
    pub fn told(&mut self, answer: Told)
        requires { IsTrue (is_answer_to (next_of self.old) answer) }
        ensures { (h : History) → self.old ≡ state_of h → self.new ≡ state_of (and_told h answer) }
    {
        match answer {
            Told::Found(numbers) => self.after_scan(numbers.into_vec()),
            Told::Granted => self.after_granted(),
            Told::Refused => self.after_refused(),
        }
    }

    /// How many objects were removed, in groups that are committed.
    pub fn removed(&self) -> u64
        ensures removed { result ≡ self.now.removed }
        ensures by_history { (h : History) → self.now ≡ state_of h → result ≡ removed_of h }
    {
        self.removed as u64
    }

    /// The list less what the scans found so far.
    pub fn rest(&self) -> &[Oid]
        ensures rest { result.now ≡ self.now.rest }
        ensures by_history { (h : History) → self.now ≡ state_of h → result.now ≡ rest_of h }
        ensures ascending { IsStrictlyIncreasing result.now }
    {
        self.list.as_slice()
    }

    fn after_scan(&mut self, numbers: Vec<Oid>)
        requires { IsTrue (is_answer_to (next_of self.old) (Told.Found numbers.items)) }
        ensures { self.new ≡ after self.old (Told.Found numbers.items) }
    {
        take_off(&mut self.list, numbers);
        self.act = take_opening_act(&mut self.scans, self.dry, self.list.as_slice());
    }

    fn after_granted(&mut self)
        requires { IsTrue (is_answer_to (next_of self.old) Told.Granted) }
        ensures { self.new ≡ after self.old Told.Granted }
    {
        match self.act {
            SweepAct::Begin => self.start_group(),
            SweepAct::Unlink(_) => self.after_unlink(),
            SweepAct::Commit => self.end_group(),
            SweepAct::Rollback => self.act = SweepAct::Report,
            SweepAct::Report => self.act = SweepAct::Idle,
            SweepAct::Scan { .. } | SweepAct::Idle => unreachable!(),
        }
    }

    fn after_refused(&mut self)
        requires { IsTrue (is_answer_to (next_of self.old) Told.Refused) }
        ensures { self.new ≡ after self.old Told.Refused }
    {
        self.act = SweepAct::Rollback;
    }

    fn start_group(&mut self)
        requires { next_of self.old ≡ SweepAct.Begin }
        ensures { self.new ≡ after self.old Told.Granted }
    {
        self.room = size_of_group(self.limit, self.list.len() - self.unlinked);
        self.act = SweepAct::Unlink(self.list[self.unlinked]);
    }

    fn after_unlink(&mut self)
        requires { IsTrue (is_unlink (next_of self.old)) }
        ensures { self.new ≡ after self.old Told.Granted }
    {
        self.unlinked += 1;
        self.room -= 1;
        self.act = if self.room == 0 {
            SweepAct::Commit
        } else {
            SweepAct::Unlink(self.list[self.unlinked])
        };
    }

    fn end_group(&mut self)
        requires { next_of self.old ≡ SweepAct.Commit }
        ensures { self.new ≡ after self.old Told.Granted }
    {
        self.removed = self.unlinked;
        self.act = if self.unlinked < self.list.len() {
            SweepAct::Begin
        } else {
            SweepAct::Report
        };
    }
}

/// The act that asks for the first scan, which stands last, else the removal's first act.
fn take_opening_act(scans: &mut Vec<Scan>, dry: bool, list: &[Oid]) -> SweepAct
    ensures act { result ≡ opening_act (reverse scans.old.items) dry list.now }
    ensures others { scans.new.items ≡ reverse (drop 1 (reverse scans.old.items)) }
{
    match scans.pop() {
        Some(Scan { table, column }) => SweepAct::Scan { table, column },
        None if dry || list.is_empty() => SweepAct::Report,
        None => SweepAct::Begin,
    }
}

/// Takes the numbers found off the ascending list: once they are sorted, both are walked along together.
fn take_off(list: &mut Vec<Oid>, mut found: Vec<Oid>)
    requires { IsStrictlyIncreasing list.old.items }
    ensures { list.new.items ≡ less list.old.items found.items }
{
    found.sort_unstable();
    let mut coming = found.as_slice();
    let mut kept = 0;
    for at in 0..list.len() {
        let number = list[at];
        coming = not_below(coming, number);
        if !begins_with(coming, number) {
            list[kept] = number;
            kept += 1;
        }
    }
    list.truncate(kept);
}

/// The numbers from the first that is not below `least` on.
fn not_below(numbers: &[Oid], least: Oid) -> &[Oid]
    ensures { result.now ≡ not_below least numbers.now }
{
    for (at, number) in numbers.iter().enumerate() {
        if *number >= least {
            return &numbers[at..];
        }
    }
    &[]
}

fn begins_with(numbers: &[Oid], number: Oid) -> bool
    ensures { result ≡ begins_with number numbers.now }
{
    match numbers.first() {
        Some(first) => *first == number,
        None => false,
    }
}

/// How many of the numbers that wait go into one group.
fn size_of_group(limit: u32, waiting: usize) -> usize
    ensures { result ≡ group_size limit waiting }
{
    if limit == 0 {
        waiting
    } else {
        waiting.min(limit as usize)
    }
}
