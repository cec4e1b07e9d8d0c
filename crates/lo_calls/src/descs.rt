// A session's open descriptors, and what the ends of levels and transactions make of them. One loop closes descriptors, and
// gives each one's hold back.
ghost use Rattle.std.specs.Prelude.{◌≡◌, ◌≤◌, ◌<◌, ℕ, [], map, length, IfOk, IfErr, IfSome, OnOk, Contains, vec_len, vec_capacity};
ghost use Rattle.lo_model.specs.Descriptor.{descriptor_released, descriptors_below, free_number, with_position};
ghost use Rattle.xact_core.specs.Transactions.{Transactions};
ghost use Rattle.lo_calls.specs.Descriptors.{descriptors_of, holds_of, AreOpen, AreHeld, Ends, GivesBack, FindsDescriptor, FindsNone, has_number, last_position, closes, left_open};

use lo_base::{Cause, NoMemory, Oid, Refusal};
use std::alloc::Global;
use xact_core::{Hold, Xacts};

/// The most descriptors that a session can have open.
pub(crate) const MOST_DESCRIPTORS: usize = 256;

/// An open descriptor. `level` is that of the session's transaction to which it belongs. One that may not write holds the
/// view of its opening.
#[derive(Drop)]
pub(crate) struct Descriptor {
    pub(crate) number: u32,
    pub(crate) oid: Oid,
    pub(crate) position: u64,
    pub(crate) level: u64,
    pub(crate) hold: Option<Hold>,
}

/// Which descriptors are closed: those of a level and of all above it, those on an object, or the one of a number.
#[derive(Drop)]
pub(crate) enum Closing {
    FromLevel(u64),
    OnObject(Oid),
    OfNumber(u32),
}

/// A session's open descriptors, in the order opened.
#[derive(Drop)]
pub struct Descs {
    pub(crate) alloc: Global,
    pub(crate) entries: Vec<Descriptor>,
}

impl Descs {
    /// No descriptors.
    pub fn new(alloc: Global) -> Result<Descs, NoMemory>
        ensures none { IfOk result (λ descs. descriptors_of descs ≡ []) }
        ensures holds { IfOk result (λ descs. holds_of descs ≡ []) }
        ensures open { (x : Transactions) (s : ℕ) → IfOk result (AreOpen x s) }
    {
        Ok(Descs {
            alloc,
            entries: Vec::new(alloc),
        })
    }

    /// Gives the descriptors of a level and of all above it to the level below, as the release of a savepoint does. The
    /// level is 2 or higher.
    pub fn release_level(&mut self, xacts: &mut Xacts, level: u64)
        requires low { 2 ≤ level }
        ensures descriptors { descriptors_of self.new ≡ map (descriptor_released level) (descriptors_of self.old) }
        ensures holds { holds_of self.new ≡ holds_of self.old }
        ensures xacts { xacts.new ≡ xacts.old }
        ensures open { (s : ℕ) → AreOpen xacts.old s self.old → AreOpen xacts.new s self.new }
    {
        for descriptor in self.entries.iter_mut() {
            descriptor.level = descriptor.level.min(level - 1);
        }
    }

    /// Closes the descriptors of a level and of all above it, as a rollback to a savepoint does. The level is 1 or higher.
    pub fn undo_level(&mut self, xacts: &mut Xacts, level: u64)
        requires low { 1 ≤ level }
        requires held { AreHeld xacts.old self.old }
        ensures descriptors { descriptors_of self.new ≡ descriptors_below level (descriptors_of self.old) }
        ensures ends { Ends xacts.old xacts.new self.old self.new }
    {
        self.close(xacts, &Closing::FromLevel(level));
    }

    /// Closes all descriptors, as the end of a transaction does.
    pub fn end_all(&mut self, xacts: &mut Xacts)
        requires held { AreHeld xacts.old self.old }
        ensures descriptors { descriptors_of self.new ≡ [] }
        ensures ends { Ends xacts.old xacts.new self.old self.new }
    {
        self.close(xacts, &Closing::FromLevel(0));
    }

    /// Closes some descriptors. Their holds are given back one by one.
    pub(crate) fn close(&mut self, xacts: &mut Xacts, closing: &Closing)
        requires held { AreHeld xacts.old self.old }
        ensures left { self.new.entries.items ≡ left_open closing.now self.old.entries.items }
        ensures ends { Ends xacts.old xacts.new self.old self.new }
    {
        let mut index = 0;
        while index < self.entries.len() {
            if closes(closing, &self.entries[index]) {
                let closed = self.entries.remove(index);
                give_back(xacts, closed.hold);
            } else {
                index += 1;
            }
        }
    }

    /// Room for one descriptor more.
    pub(crate) fn make_room(&mut self) -> Result<(), NoMemory>
        ensures same { self.new.entries.items ≡ self.old.entries.items }
        ensures room { OnOk result (vec_len self.new.entries < vec_capacity self.new.entries) }
    {
        self.entries.reserve(1)?;
        Ok(())
    }

    /// At which index the descriptor of a number stands. It is refused with `NoDescriptor` where no open one has it.
    pub(crate) fn find(&self, fd: i32) -> Result<usize, Refusal>
        ensures ok { IfOk result (FindsDescriptor fd self.now) }
        ensures err { IfErr result (FindsNone fd self.now) }
    {
        for (index, descriptor) in self.entries.iter().enumerate() {
            if i64::from(descriptor.number) == i64::from(fd) {
                return Ok(index);
            }
        }
        Err(Refusal {
            cause: Cause::NoDescriptor,
            subject: i64::from(fd),
        })
    }

    /// The lowest number that no open descriptor has. It is at most their count.
    pub(crate) fn free_number(&self) -> u32
        requires most { length self.now.entries.items ≤ 256 }
        ensures { result ≡ free_number (descriptors_of self.now) }
    {
        let count = self.entries.len() as u32;
        for number in 0..count {
            if !self.is_taken(number) {
                return number;
            }
        }
        count
    }

    fn is_taken(&self, number: u32) -> bool
        ensures { result ≡ has_number self.now.entries.items number }
    {
        self.entries.iter().any(|d| d.number == number)
    }

    /// Moves the descriptor of a number to a position.
    pub(crate) fn move_to(&mut self, number: u32, position: u64)
        ensures moved { descriptors_of self.new ≡ with_position number position
            (descriptors_of self.old) }
        ensures holds { holds_of self.new ≡ holds_of self.old }
        ensures open { (x : Transactions) (s : ℕ) → position ≤ last_position →
            AreOpen x s self.old → AreOpen x s self.new }
    {
        for descriptor in self.entries.iter_mut() {
            if descriptor.number == number {
                descriptor.position = position;
            }
        }
    }
}

/// Gives a closed descriptor's hold back.
fn give_back(xacts: &mut Xacts, hold: Option<Hold>)
    requires { IfSome hold (Contains xacts.old.held) }
    ensures { GivesBack hold xacts.old xacts.new }
{
    match hold {
        Some(hold) => xacts.let_go(hold),
        None => {}
    }
}

/// Whether a descriptor is among those that are closed.
fn closes(closing: &Closing, descriptor: &Descriptor) -> bool
    ensures { result ≡ closes closing.now descriptor.now }
{
    match closing {
        Closing::FromLevel(level) => *level <= descriptor.level,
        Closing::OnObject(oid) => descriptor.oid == *oid,
        Closing::OfNumber(number) => descriptor.number == *number,
    }
}
