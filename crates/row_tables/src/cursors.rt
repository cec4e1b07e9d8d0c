// The open cursors of all sessions, and what the ends of levels and transactions make of them. One loop closes cursors, and
// gives each one's hold back.
ghost use Rattle.std.specs.Prelude.{◌≡◌, ◌≢◌, ◌<◌, ◌≤◌, ℕ, [], map, IfOk, OnOk, vec_len, vec_capacity};
ghost use Rattle.std.specs.Option.{option_copied};
ghost use Rattle.lo_model.specs.Descriptor.{cursor_released};
ghost use Rattle.xact_core.specs.Transactions.{Transactions};
ghost use Rattle.row_tables.specs.Cursors.{AreHeld, AreOpen, Ends, FindsCursor, closes, cursors_of, holds_of, left_open};

use lo_base::{Name, NoMemory, SessionNo};
use std::alloc::Global;
use xact_core::{Hold, Xacts};

/// An open cursor: one row, in the view of its declaration. `level` is that of the session's transaction to which it belongs.
#[derive(Drop)]
pub(crate) struct Cursor {
    pub(crate) session: SessionNo,
    pub(crate) name: Name,
    pub(crate) table: Name,
    pub(crate) id: i64,
    pub(crate) level: u64,
    pub(crate) hold: Hold,
}

/// Which cursors of a session are closed: those of a level and of all above it, or the one of a name.
#[derive(Clone, Copy)]
pub(crate) enum Closing<'a> {
    FromLevel(u64),
    OfName(&'a Name),
}

/// The open cursors, in the order declared.
#[derive(Drop)]
pub(crate) struct Cursors {
    pub(crate) entries: Vec<Cursor>,
}

impl Cursors {
    /// No cursors.
    pub(crate) fn new(alloc: Global) -> Result<Cursors, NoMemory>
        ensures none { IfOk result (λ cursors. cursors.entries.items ≡ []) }
        ensures open { (x : Transactions) → IfOk result (AreOpen x) }
    {
        Ok(Cursors {
            entries: Vec::new(alloc),
        })
    }

    /// Gives a session's cursors of a level and of all above it to the level below, as the release of a savepoint does. The
    /// level is 2 or higher.
    pub(crate) fn release_level(&mut self, s: SessionNo, level: u64)
        requires low { 2 ≤ level }
        ensures own { cursors_of s self.new ≡ map (cursor_released level) (cursors_of s self.old) }
        ensures others { (t : ℕ) → t ≢ s → cursors_of t self.new ≡ cursors_of t self.old }
        ensures holds { holds_of self.new ≡ holds_of self.old }
        ensures open { (x : Transactions) → AreOpen x self.old → AreOpen x self.new }
    {
        for cursor in self.entries.iter_mut() {
            if cursor.session == s {
                cursor.level = cursor.level.min(level - 1);
            }
        }
    }

    /// Closes some cursors of a session. Their holds are given back one by one.
    pub(crate) fn close(&mut self, xacts: &mut Xacts, s: SessionNo, closing: &Closing)
        requires held { AreHeld xacts.old self.old }
        ensures left { self.new.entries.items ≡ left_open s closing.now self.old.entries.items }
        ensures ends { Ends xacts.old xacts.new self.old self.new }
    {
        let mut index = 0;
        while index < self.entries.len() {
            if closes(s, closing, &self.entries[index]) {
                let closed = self.entries.remove(index);
                xacts.let_go(closed.hold);
            } else {
                index += 1;
            }
        }
    }

    /// Room for one cursor more.
    pub(crate) fn make_room(&mut self) -> Result<(), NoMemory>
        ensures same { self.new.entries.items ≡ self.old.entries.items }
        ensures room { OnOk result (vec_len self.new.entries < vec_capacity self.new.entries) }
    {
        self.entries.reserve(1)?;
        Ok(())
    }

    /// A session's cursor of a name.
    pub(crate) fn find(&self, s: SessionNo, name: &Name) -> Option<&Cursor>
        ensures { FindsCursor s name.now self.now (option_copied result) }
    {
        self.entries.iter().find(|cursor| cursor.session == s
            && cursor.name.items() == name.items())
    }
}

/// Whether a cursor is among those that are closed.
fn closes(s: SessionNo, closing: &Closing, cursor: &Cursor) -> bool
    ensures { result ≡ closes s closing.now cursor.now }
{
    cursor.session == s
        && match closing {
            Closing::FromLevel(level) => *level <= cursor.level,
            Closing::OfName(name) => cursor.name.items() == name.items(),
        }
}
