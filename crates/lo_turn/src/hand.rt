// The rule of the table that threads share: one word, the turn, and one slot, in which the run lies while nobody has the
// turn. What seats know of it is proof alone.
ghost use Rattle.lo_turn.specs.Turns.{after_cut, cut_off, joined, spent, Tried, Gave};

use atomic_table::{Join, Play, Seat, Shared, Split, Table, TableRule};
use lo_base::{ListOf, SessionNo};
use lo_machine::Running;
use std::alloc::Global;
use std::snapshot::Snapshot;

/// What a seat knows. Programs never make one.
pub struct Hand {
    /// The sessions that the seat answers for.
    pub sessions: ListOf<SessionNo>,
    pub has_turn: bool,
    /// The seat was joined to another.
    pub is_spent: bool,
    /// The run before the first turn.
    pub given: Running,
}

/// The word counts who has the turn; the slot is full while it is 0.
pub struct Turn;

impl TableRule<Option<Running>, Hand, Snapshot<Running>> for Turn {
    ghost use Rattle.lo_turn.specs.Turns.{Turns, owner_of_all};

    ghost holds = { λ key. Turns key.value };

    ghost first = { λ key. owner_of_all key.value };
}

/// A try for the turn, which swaps 1 in.
pub struct Try;

impl Play<Option<Running>, Hand> for Try {
    ghost then = { λ _ before found after. Tried before found after };
}

/// The end of a turn, which stores 0.
pub struct Giving;

impl Play<Option<Running>, Hand> for Giving {
    ghost then = { λ _ before _ after. Gave before after };
}

/// A new seat gets the first session of another.
pub struct Cut;

impl Split<Hand> for Cut {
    ghost left = { after_cut };

    ghost right = { cut_off };
}

/// A seat gets the sessions of another back.
pub struct Back;

impl Join<Hand> for Back {
    ghost both = { joined };

    ghost spent = { spent };
}

pub type Board = Table<Option<Running>, Hand, Snapshot<Running>, Turn, Global>;

pub type Common = Shared<Option<Running>, Hand, Snapshot<Running>, Turn>;

pub type Place = Seat<Option<Running>, Hand>;
