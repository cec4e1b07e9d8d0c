// The open levels of one session, and which fates belong to each of them. Only `Xacts` uses it: nothing here is public.
ghost use Rattle.std.specs.Prelude.{◌≡◌, ◌+◌, ◌-◌, ◌^◌, ◌<◌, ◌≤◌, ◌↔◌, IsTrue, length, slice_index, OnOk, OnErr};
ghost use Rattle.xact_core.specs.Kept.{views_of};
ghost use Rattle.xact_core.specs.Opened.{nothing, start, from_level, first_of, with_level, with_released, with_undone};
ghost use Rattle.xact_core.specs.Transactions.{FindsNewest};

use lo_base::{Name, NoMemory};
use std::alloc::Global;
use std::marker::Model;

/// A level of a session's transaction: its name, and the index among the session's places at which its own begin.
#[derive(Drop)]
struct Level {
    name: Option<Name>,
    start: usize,
}

/// A session's open transaction: its levels, and the places of the fates that belong to them, those of level 1 first. The
/// last place is that of the top level. Both lists are empty outside a transaction.
#[derive(Drop)]
pub struct Session {
    levels: Vec<Level>,
    places: Vec<usize>,
}

impl Model for Session {
    ghost use Rattle.xact_core.specs.Opened.{Opened, opened_of};

    ghost Value = { Opened };

    ghost view = { λ s. opened_of s.levels.items s.places.items };
}

impl Session {
    /// No transaction.
    pub fn new(alloc: Global) -> Session
        ensures { result ≡ nothing }
    {
        Session {
            levels: Vec::new(alloc),
            places: Vec::new(alloc),
        }
    }

    /// How many levels there are.
    pub fn levels(&self) -> usize
        ensures count { result ≡ length self.now.names }
        ensures small { result < 2 ^ 63 }
    {
        self.levels.len()
    }

    /// How many views of the session are kept.
    pub fn views(&self) -> usize
        ensures { result ≡ views_of self.now.names }
    {
        match self.levels() {
            0 => 0,
            levels => levels + 1,
        }
    }

    /// The places of all levels.
    pub fn places(&self) -> &[usize]
        ensures { result.now ≡ self.now.places }
    {
        self.places.as_slice()
    }

    /// The places of a level, from 1, and of all above it.
    pub fn places_from(&self, level: u64) -> &[usize]
        requires low { 1 ≤ level }
        requires high { level ≤ length self.now.starts }
        requires start { start self.now level ≤ length self.now.places }
        ensures { result.now ≡ from_level level self.now }
    {
        &self.places[self.levels[level as usize - 1].start..]
    }

    /// The first place of a level.
    pub fn first(&self, level: u64) -> usize
        requires low { 1 ≤ level }
        requires high { level ≤ length self.now.starts }
        requires start { start self.now level < length self.now.places }
        ensures { result ≡ first_of level self.now }
    {
        self.places[self.levels[level as usize - 1].start]
    }

    /// The place of the top level's fate.
    pub fn top(&self) -> usize
        requires { 0 < length self.now.places }
        ensures { result ≡ slice_index self.now.places (length self.now.places - 1) }
    {
        self.places[self.places.len() - 1]
    }

    /// Adds a level whose fate is at a place.
    pub fn push(&mut self, name: Option<Name>, place: usize) -> Result<(), NoMemory>
        ensures ok { OnOk result (self.new ≡ with_level name place self.old) }
        ensures err { OnErr result (self.new ≡ self.old) }
    {
        self.places.reserve(1)?;
        let start = self.places.len();
        self.levels.push(Level { name, start })?;
        self.places.push_reserved(place);
        Ok(())
    }

    /// Gives the places of a level and of all above it to the level below it.
    pub fn release(&mut self, level: u64)
        requires { 1 ≤ level }
        ensures { self.new ≡ with_released level self.old }
    {
        self.levels.truncate(level as usize - 1);
    }

    /// Leaves of a level and of all above it the first place, which is the level's.
    pub fn undo(&mut self, level: u64)
        requires low { 1 ≤ level }
        requires high { level ≤ length self.old.starts }
        requires start { start self.old level < length self.old.places }
        ensures { self.new ≡ with_undone level self.old }
    {
        let start = self.levels[level as usize - 1].start;
        self.places.truncate(start + 1);
        self.levels.truncate(level as usize);
    }

    /// Ends the transaction.
    pub fn clear(&mut self)
        ensures { self.new ≡ nothing }
    {
        self.levels.clear();
        self.places.clear();
    }

    /// The newest level with the name, counted from 1.
    pub fn newest(&self, name: &Name) -> Option<u64>
        ensures { FindsNewest self.now.names name.now result }
    {
        for index in (0..self.levels.len()).rev() {
            if is_named(&self.levels[index].name, name) {
                return Some(index as u64 + 1);
            }
        }
        None
    }
}

fn is_named(level: &Option<Name>, name: &Name) -> bool
    ensures { IsTrue result ↔ (level.now ≡ Some name.now) }
{
    match level {
        Some(own) => own.items() == name.items(),
        None => false,
    }
}
