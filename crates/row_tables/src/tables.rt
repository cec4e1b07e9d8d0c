// The tables as a whole: making one, finding one by its name, and the vacuum. The calls on rows stand in `change`, `reading`
// and `rewrite`, those on cursors in `cursor_calls`.
ghost use Rattle.std.specs.Prelude.{◌≡◌, [], ℕ, IfOk, IfErr, IfSome, OnOk, List, map, option_map, slice_get};
ghost use Rattle.std.specs.Option.{option_copied};
ghost use Rattle.lo_base.specs.declared.refusal.Denied.TheVariants.{By};
ghost use Rattle.lo_base.specs.declared.reply.Reply.TheVariants.{Word};
ghost use Rattle.lo_base.specs.declared.reply.Word.TheVariants as words;
ghost use Rattle.lo_model.specs.Edit.{Deed, Edit};
ghost use Rattle.lo_model.specs.Listing.{tables_in_order};
ghost use Rattle.toast_plan.specs.Columns.{IsTableColumns};
ghost use Rattle.xact_core.specs.Transactions.{Transactions};
ghost use Rattle.row_tables.specs.Calls.{IsNoTable, IsTable};
ghost use Rattle.row_tables.specs.Catalog.{AreTables, columns_of, name_of, table_in};
ghost use Rattle.row_tables.specs.Cursors.{AreOpen, holds_of};
ghost use Rattle.row_tables.specs.RowRules.{create_table_row};
ghost use Rattle.row_tables.specs.Standing.{GoWith, StandFor, cursors_in, tables_in};
ghost use Rattle.row_tables.specs.Terms.{refusal};
ghost use Rattle.row_tables.specs.Vacuum.{LeavesFound, Vacuums};
ghost use Rattle.row_tables.specs.World.{Denies, Grants, IsReady, Keeps, other_open, world};

use crate::catalog::Catalog;
use crate::cursors::Cursors;
use crate::row_key::RowKey;
use lo_base::{
    Cause, Cells, Column, ColumnList, Denied, Name, NoMemory, Refusal, SESSIONS, SessionNo,
};
use row_versions::{Core, Store};
use std::alloc::Global;
use toast_chunks::Chunks;

/// The most tables of a database.
pub const MOST_TABLES: usize = 1000;

/// The tables of a database, their rows in versions with the long values in chunks, and the open cursors of all sessions.
#[derive(Drop)]
pub struct Tables {
    pub(crate) alloc: Global,
    pub(crate) catalog: Catalog,
    pub(crate) rows: Store<RowKey, Cells>,
    pub(crate) chunks: Chunks,
    pub(crate) cursors: Cursors,
}

impl Tables {
    /// No tables and no cursors.
    pub fn new(alloc: Global) -> Result<Tables, NoMemory>
        ensures none { IfOk result (λ tables. tables_in tables ≡ []) }
        ensures stand { (x : Transactions) → IfOk result (λ tables. StandFor x tables []) }
        ensures goes { (x : Transactions) → IfOk result (GoWith x) }
        ensures cursors { IfOk result (λ tables. holds_of (cursors_in tables) ≡ []) }
        ensures open { (x : Transactions) → IfOk result (λ tables. AreOpen x (cursors_in tables)) }
    {
        Ok(Tables {
            alloc,
            catalog: Catalog::new(alloc)?,
            rows: Store::new(alloc)?,
            chunks: Chunks::new(alloc)?,
            cursors: Cursors::new(alloc)?,
        })
    }

    /// Makes a table. It is refused with `TableExists`, with `TooManyTables` where there are 1000, and with `Busy` where
    /// another session has a transaction. No rollback takes the table away again.
    pub fn create_table(
        &mut self,
        core: &Core,
        s: SessionNo,
        name: Name,
        columns: ColumnList,
    ) -> Result<(), Denied>
        requires ready { IsReady (world core.now.xacts self.old s) }
        requires columns { IsTableColumns columns }
        ensures ok { OnOk result (Grants (create_table_row name columns)
            (world core.now.xacts self.old s) (world core.now.xacts self.new s)
            (Word words.CreateTable)) }
        ensures err { IfErr result (Denies (create_table_row name columns)
            (world core.now.xacts self.old s) (world core.now.xacts self.new s)) }
        ensures keeps { OnOk result (Keeps (world core.now.xacts self.old s)
            (world core.now.xacts self.new s)) }
    {
        if self.catalog.number(name.items()).is_some() {
            return Err(refused(Cause::TableExists, 0));
        }
        if self.catalog.len() >= MOST_TABLES {
            return Err(refused(Cause::TooManyTables, MOST_TABLES as i64));
        }
        if let Some(other) = other_open(core, s) {
            return Err(refused(Cause::Busy, i64::from(other.number())));
        }
        self.catalog.add(name, columns)?;
        Ok(())
    }

    /// The columns of a table in its order, or none where there is no such table. It costs a search by the name.
    pub fn columns(&self, table: &Name) -> Option<&[Column]>
        ensures columns { option_copied result
            ≡ option_map columns_of (table_in table.now (tables_in self.now)) }
        ensures can { IfSome result (λ columns. IsTableColumns columns.now) }
    {
        let number = self.catalog.number(table.items())?;
        Some(self.catalog.columns(number))
    }

    /// The name of the table at a place, from 0, where names ascend byte by byte.
    pub fn table(&self, k: u32) -> Option<&Name>
        ensures { option_copied result
            ≡ slice_get (map name_of (tables_in_order (tables_in self.now))) k }
    {
        self.catalog.name_at(k)
    }

    /// Takes away the versions of rows and the chunks that no kept view needs. It takes no memory.
    pub fn vacuum(&mut self, core: &mut Core)
        requires goes { GoWith core.old.xacts self.old }
        ensures core { core.new ≡ core.old }
        ensures goes { GoWith core.old.xacts self.new }
        ensures stand { (ys : List (Edit Deed)) → StandFor core.old.xacts self.old ys →
            StandFor core.old.xacts self.new ys }
        ensures catalog { tables_in self.new ≡ tables_in self.old }
        ensures cursors { cursors_in self.new ≡ cursors_in self.old }
        // Of each row and each chunk, what no kept view needs is gone, and what is left some kept view finds.
        ensures all { Vacuums core.old.xacts self.old self.new }
        ensures left { LeavesFound core.old.xacts self.old self.new }
    {
        self.rows.vacuum(core);
        self.chunks.vacuum(core);
    }

    /// The number of a table. It is refused with `NoTable`.
    pub(crate) fn number(&self, table: &Name) -> Result<u32, Refusal>
        ensures ok { IfOk result (IsTable self.now table.now) }
        ensures err { IfErr result (IsNoTable self.now table.now) }
        ensures tables { AreTables (tables_in self.now) }
    {
        match self.catalog.number(table.items()) {
            Some(number) => Ok(number),
            None => Err(Refusal {
                cause: Cause::NoTable,
                subject: 0,
            }),
        }
    }
}

/// The lowest other session that has a transaction.
fn other_open(core: &Core, s: SessionNo) -> Option<SessionNo>
    ensures { result ≡ other_open core.now.xacts s }
{
    for number in 1..=SESSIONS {
        let Some(other) = SessionNo::new(number) else {
            continue;
        };
        if other != s && core.xacts.levels(other) > 0 {
            return Some(other);
        }
    }
    None
}

pub(crate) fn refused(cause: Cause, subject: i64) -> Denied
    ensures { result ≡ By (refusal cause subject) }
{
    Denied::By(Refusal { cause, subject })
}
