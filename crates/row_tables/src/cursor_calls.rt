// The calls on cursors. Each is the row of its name in CursorRules.
ghost use Rattle.std.specs.Prelude.{◌≡◌, ◌≢◌, ◌<◌, ◌≤◌, ◌-◌, ◌^◌, ℕ, length, map, IfOk, IfErr, OnOk};
ghost use Rattle.lo_base.specs.declared.reply.Reply.TheVariants.{Word};
ghost use Rattle.lo_base.specs.declared.reply.Word.TheVariants as words;
ghost use Rattle.lo_model.specs.Descriptor.{cursor_released, cursors_below};
ghost use Rattle.xact_core.specs.Kept.{kept_views};
ghost use Rattle.xact_core.specs.Transactions.{Transactions, levels_of};
ghost use Rattle.row_tables.specs.CursorRules.{close_row, declare_row, fetch_row};
ghost use Rattle.row_tables.specs.Cursors.{AreHeld, AreOpen, Ends, cursors_of, holds_of};
ghost use Rattle.row_tables.specs.RowRules.{slice_reply};
ghost use Rattle.row_tables.specs.Standing.{cursors_in};
ghost use Rattle.row_tables.specs.World.{Denies, Grants, IsReady, Keeps, Refuses, SameRows, world};

use crate::cursors::{Closing, Cursor};
use crate::reading::{bytea_place, part_of, slice_cell};
use crate::row_key::RowKey;
use crate::tables::{Tables, refused};
use lo_base::{Cause, Denied, Name, Refusal, SessionNo, Value};
use row_versions::Core;

impl Tables {
    /// Opens a cursor on a row, in the session's current view, which it holds. It belongs to the session's top level. It is
    /// refused with `NoTable`, `NoRow` and `CursorExists`.
    pub fn declare(
        &mut self,
        core: &mut Core,
        s: SessionNo,
        cursor: Name,
        table: &Name,
        id: i64,
    ) -> Result<(), Denied>
        requires ready { IsReady (world core.old.xacts self.old s) }
        requires open { 0 < length (levels_of core.old.xacts s) }
        requires views { length (kept_views core.old.xacts) < 2 ^ 64 - 4 }
        ensures ok { OnOk result (Grants (declare_row cursor table.now id)
            (world core.old.xacts self.old s) (world core.new.xacts self.new s)
            (Word words.Declare)) }
        ensures err { IfErr result (Denies (declare_row cursor table.now id)
            (world core.old.xacts self.old s) (world core.new.xacts self.new s)) }
        ensures keeps { OnOk result (Keeps (world core.old.xacts self.old s)
            (world core.new.xacts self.new s)) }
    {
        let number = self.number(table)?;
        let snap = core.xacts.snapshot(s);
        let key = RowKey { table: number, id };
        if self.rows.find(core, &key, &snap).is_none() {
            return Err(refused(Cause::NoRow, id));
        }
        if self.cursors.find(s, &cursor).is_some() {
            return Err(refused(Cause::CursorExists, 0));
        }
        let table = Name::from_slice(self.alloc, table.items())?;
        self.cursors.make_room()?;
        let hold = core.xacts.hold(snap)?;
        self.cursors.entries.push_reserved(Cursor {
            session: s,
            name: cursor,
            table,
            id,
            level: core.xacts.levels(s),
            hold,
        });
        Ok(())
    }

    /// Bytes of a column of a cursor's row, as `slice` gives them, in the view of the declaration, whatever became of the row
    /// since. It is refused with `NoCursor`, `NoColumn`, `WrongType` and `BadLength`.
    pub fn fetch_slice(
        &self,
        core: &Core,
        s: SessionNo,
        cursor: &Name,
        column: &Name,
        from: i64,
        length: i64,
    ) -> Result<Value, Denied>
        requires ready { IsReady (world core.now.xacts self.now s) }
        ensures ok { IfOk result (λ value. Grants (fetch_row cursor.now column.now from length)
            (world core.now.xacts self.now s) (world core.now.xacts self.now s)
            (slice_reply value)) }
        ensures err { IfErr result (Denies (fetch_row cursor.now column.now from length)
            (world core.now.xacts self.now s) (world core.now.xacts self.now s)) }
    {
        let Some(cursor) = self.cursors.find(s, cursor) else {
            return Err(refused(Cause::NoCursor, 0));
        };
        let snap = cursor.hold.snapshot();
        let number = self.number(&cursor.table)?;
        let place = bytea_place(self.catalog.columns(number), column)?;
        let part = part_of(from, length)?;
        let key = RowKey {
            table: number,
            id: cursor.id,
        };
        let Some(row) = self.rows.find(core, &key, &snap) else {
            return Ok(Value::Null);
        };
        let cell = &row.items()[place];
        Ok(slice_cell(self.alloc, &self.chunks, core, &snap, cell, part)?)
    }

    /// Closes a cursor. It is refused with `NoCursor`.
    pub fn close_cursor(
        &mut self,
        core: &mut Core,
        s: SessionNo,
        cursor: &Name,
    ) -> Result<(), Refusal>
        requires ready { IsReady (world core.old.xacts self.old s) }
        ensures ok { OnOk result (Grants (close_row cursor.now)
            (world core.old.xacts self.old s) (world core.new.xacts self.new s)
            (Word words.Close)) }
        ensures err { IfErr result (Refuses (close_row cursor.now)
            (world core.old.xacts self.old s) (world core.new.xacts self.new s)) }
        ensures keeps { Keeps (world core.old.xacts self.old s)
            (world core.new.xacts self.new s) }
    {
        if self.cursors.find(s, cursor).is_none() {
            return Err(Refusal {
                cause: Cause::NoCursor,
                subject: 0,
            });
        }
        self.cursors
            .close(&mut core.xacts, s, &Closing::OfName(cursor));
        Ok(())
    }

    /// Gives a session's cursors of a level and of all above it to the level below, as the release of a savepoint does. The
    /// level is 2 or higher.
    pub fn release_level(&mut self, core: &mut Core, s: SessionNo, level: u64)
        requires low { 2 ≤ level }
        ensures own { cursors_of s (cursors_in self.new)
            ≡ map (cursor_released level) (cursors_of s (cursors_in self.old)) }
        ensures others { (t : ℕ) → t ≢ s →
            cursors_of t (cursors_in self.new) ≡ cursors_of t (cursors_in self.old) }
        ensures holds { holds_of (cursors_in self.new) ≡ holds_of (cursors_in self.old) }
        ensures open { (x : Transactions) → AreOpen x (cursors_in self.old) →
            AreOpen x (cursors_in self.new) }
        ensures rows { SameRows self.old self.new }
        ensures core { core.new ≡ core.old }
    {
        self.cursors.release_level(s, level);
    }

    /// Closes a session's cursors of a level and of all above it, as a rollback to a savepoint does; with level 1 all of them,
    /// as the end of a transaction does.
    pub fn undo_level(&mut self, core: &mut Core, s: SessionNo, level: u64)
        requires low { 1 ≤ level }
        requires held { AreHeld core.old.xacts (cursors_in self.old) }
        ensures own { cursors_of s (cursors_in self.new)
            ≡ cursors_below level (cursors_of s (cursors_in self.old)) }
        ensures others { (t : ℕ) → t ≢ s →
            cursors_of t (cursors_in self.new) ≡ cursors_of t (cursors_in self.old) }
        ensures ends { Ends core.old.xacts core.new.xacts
            (cursors_in self.old) (cursors_in self.new) }
        ensures rows { SameRows self.old self.new }
    {
        self.cursors
            .close(&mut core.xacts, s, &Closing::FromLevel(level));
    }
}
