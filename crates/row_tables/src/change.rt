// The calls that change a row: insert, update and delete. Each judges first, then stores and erases values, and puts the
// row's version last.
ghost use Rattle.std.specs.Prelude.{◌≡◌, ◌<◌, length, [], Some, None, IfOk, IfErr, OnOk, slice_get};
ghost use Rattle.lo_base.specs.declared.reply.Reply.TheVariants.{Word};
ghost use Rattle.lo_base.specs.declared.reply.Word.TheVariants as words;
ghost use Rattle.xact_core.specs.Transactions.{levels_of};
ghost use Rattle.row_versions.specs.Count.{Different};
ghost use Rattle.row_versions.specs.Search.{busy_at};
ghost use Rattle.row_versions.specs.Stack.{Each};
ghost use Rattle.toast_chunks.specs.Calls.{IsFree};
ghost use Rattle.toast_chunks.specs.Values.{next_number};
ghost use Rattle.row_tables.specs.Calls.{ChangesFitTable, FitRows, FitTable, IsHeld};
ghost use Rattle.row_tables.specs.Catalog.{columns_in};
ghost use Rattle.row_tables.specs.Cells.{all_moved, all_settled};
ghost use Rattle.row_tables.specs.Drafts.{DeniesDraft, IsDraft};
ghost use Rattle.row_tables.specs.Keys.{key_cmp};
ghost use Rattle.row_tables.specs.Outside.{ChangesRow, FitsLength};
ghost use Rattle.row_tables.specs.RowRules.{delete_row, insert_row, update_row};
ghost use Rattle.row_tables.specs.Standing.{Go, GoWith};
ghost use Rattle.row_tables.specs.Values.{id_of};
ghost use Rattle.row_tables.specs.World.{Denies, Grants, IsReady, Keeps, LeavesOwn, world};

use crate::cells::{cells_of, changed_cells, dropped, plan_of};
use crate::outside::{bring_in, erase_all, move_out};
use crate::row_key::RowKey;
use crate::tables::{Tables, refused};
use lo_base::{Cause, Cell, Cells, Denied, Name, NoMemory, Refusal, SessionNo, Value};
use row_versions::Core;
use toast_plan::Plan;

/// What an update gives a column. A value of an `int4[]` column is null or the array's flat bytes.
#[derive(Debug, Drop)]
pub struct Change {
    pub column: Name,
    pub value: Value,
}

/// What an update would make of a row: its cells with the values inside that are to be there, which values are to be outside,
/// and the numbers of those that go.
#[derive(Drop)]
struct Draft {
    row: Vec<Cell>,
    plan: Plan,
    gone: Vec<u64>,
}

impl Tables {
    /// Adds a row, under the id that stands first among its values. Where the table is there, there is one value for each
    /// column, which fits it. It is refused with `NoTable`, `RowExists`, `RowTooBig` and `Busy`. It costs the row's values.
    pub fn insert(
        &mut self,
        core: &mut Core,
        s: SessionNo,
        table: &Name,
        values: &[Value],
    ) -> Result<(), Denied>
        requires ready { IsReady (world core.old.xacts self.old s) }
        requires open { 0 < length (levels_of core.old.xacts s) }
        requires fit { FitTable self.old table.now values.now }
        ensures ok { OnOk result (Grants (insert_row table.now values.now)
            (world core.old.xacts self.old s) (world core.new.xacts self.new s)
            (Word words.Insert)) }
        ensures err { IfErr result (Denies (insert_row table.now values.now)
            (world core.old.xacts self.old s) (world core.new.xacts self.new s)) }
        ensures keeps { OnOk result (Keeps (world core.old.xacts self.old s)
            (world core.new.xacts self.new s)) }
        ensures core { core.new ≡ core.old }
    {
        let number = self.number(table)?;
        let id = id_of(values);
        let key = RowKey { table: number, id };
        let snap = core.xacts.snapshot(s);
        if self.rows.find(core, &key, &snap).is_some() {
            return Err(refused(Cause::RowExists, id));
        }
        let row = cells_of(self.alloc, values)?;
        let columns = self.catalog.columns(number);
        let plan = plan_of(columns, &row)?;
        let count = columns.len();
        self.free(core, s, &key)?;
        self.put_row(core, s, key, &[], row, &plan.outside[..count])?;
        Ok(())
    }

    /// Gives some columns of a row other values. Where the table is there, each change fits its column, and none is of `id`. A
    /// value outside that stays outside keeps its chunks where no change names its column. It is refused with `NoTable`,
    /// `NoRow`, `RowTooBig` and `Busy`. It costs the row's cells and the values that come and go.
    pub fn update(
        &mut self,
        core: &mut Core,
        s: SessionNo,
        table: &Name,
        id: i64,
        changes: &[Change],
    ) -> Result<(), Denied>
        requires ready { IsReady (world core.old.xacts self.old s) }
        requires open { 0 < length (levels_of core.old.xacts s) }
        requires fit { ChangesFitTable self.old table.now changes.now }
        ensures ok { OnOk result (Grants (update_row table.now id changes.now)
            (world core.old.xacts self.old s) (world core.new.xacts self.new s)
            (Word words.Update)) }
        ensures err { IfErr result (Denies (update_row table.now id changes.now)
            (world core.old.xacts self.old s) (world core.new.xacts self.new s)) }
        ensures keeps { OnOk result (Keeps (world core.old.xacts self.old s)
            (world core.new.xacts self.new s)) }
        ensures core { core.new ≡ core.old }
    {
        let number = self.number(table)?;
        let key = RowKey { table: number, id };
        let Draft { row, plan, gone } = self.draft(core, s, &key, changes)?;
        let count = row.len();
        self.put_row(core, s, key, &gone, row, &plan.outside[..count])?;
        Ok(())
    }

    /// Takes a row away, with all of its values outside. It is refused with `NoTable`, `NoRow` and `Busy`. It costs a search
    /// and an erasure for each chunk.
    pub fn delete(
        &mut self,
        core: &mut Core,
        s: SessionNo,
        table: &Name,
        id: i64,
    ) -> Result<(), Denied>
        requires ready { IsReady (world core.old.xacts self.old s) }
        requires open { 0 < length (levels_of core.old.xacts s) }
        ensures ok { OnOk result (Grants (delete_row table.now id)
            (world core.old.xacts self.old s) (world core.new.xacts self.new s)
            (Word words.Delete)) }
        ensures err { IfErr result (Denies (delete_row table.now id)
            (world core.old.xacts self.old s) (world core.new.xacts self.new s)) }
        ensures keeps { OnOk result (Keeps (world core.old.xacts self.old s)
            (world core.new.xacts self.new s)) }
        ensures core { core.new ≡ core.old }
    {
        let number = self.number(table)?;
        let key = RowKey { table: number, id };
        let snap = core.xacts.snapshot(s);
        let Some(old) = self.rows.find(core, &key, &snap) else {
            return Err(refused(Cause::NoRow, id));
        };
        let gone = dropped(self.alloc, old.items(), &[])?;
        self.free(core, s, &key)?;
        self.erase_row(core, s, key, &gone)?;
        Ok(())
    }

    /// What an update would make of a row. It is denied with `NoRow`, `RowTooBig` and `Busy`.
    fn draft(
        &self,
        core: &Core,
        s: SessionNo,
        key: &RowKey,
        changes: &[Change],
    ) -> Result<Draft, Denied>
        requires goes { GoWith core.now.xacts self.now }
        requires open { 0 < length (levels_of core.now.xacts s) }
        requires there { key.now.table < length self.now.catalog }
        requires fit { FitRows changes.now (columns_in (slice_get self.now.catalog key.now.table)) }
        ensures ok { IfOk result (IsDraft core.now.xacts s self.now key.now changes.now) }
        ensures err { IfErr result (DeniesDraft core.now.xacts s self.now key.now changes.now) }
    {
        let snap = core.xacts.snapshot(s);
        let Some(old) = self.rows.find(core, key, &snap) else {
            return Err(refused(Cause::NoRow, key.id));
        };
        let columns = self.catalog.columns(key.table);
        let mut row = changed_cells(self.alloc, columns, changes, old.items())?;
        let plan = plan_of(columns, &row)?;
        self.free(core, s, key)?;
        bring_in(
            self.alloc,
            &self.chunks,
            core,
            &snap,
            &mut row,
            &plan.outside[..columns.len()],
        )?;
        let gone = dropped(self.alloc, old.items(), &row)?;
        Ok(Draft { row, plan, gone })
    }

    /// It is refused with `Busy` where another session holds the row.
    fn free(&self, core: &Core, s: SessionNo, key: &RowKey) -> Result<(), Refusal>
        requires goes { Go core.now.xacts self.now }
        ensures ok { OnOk result (busy_at key_cmp core.now.xacts s self.now.rows key.now ≡ None) }
        ensures err { IfErr result (IsHeld core.now.xacts s self.now key.now) }
    {
        match self.rows.busy(core, key, s) {
            None => Ok(()),
            Some(other) => Err(Refusal {
                cause: Cause::Busy,
                subject: i64::from(other.number()),
            }),
        }
    }

    /// Puts a row: the values move out that are to be outside, those of some numbers go, and the row gets its version.
    pub(crate) fn put_row(
        &mut self,
        core: &mut Core,
        s: SessionNo,
        key: RowKey,
        gone: &[u64],
        mut row: Vec<Cell>,
        outside: &[bool],
    ) -> Result<(), NoMemory>
        requires open { 0 < length (levels_of core.old.xacts s) }
        requires goes { Go core.old.xacts self.old }
        requires free { busy_at key_cmp core.old.xacts s self.old.rows key ≡ None }
        requires plan { length outside.now ≡ length row.items }
        requires short { Each FitsLength row.items }
        requires erasable { Each (IsFree core.old.xacts s self.old.chunks) gone.now }
        requires given { Each (λ n. n < next_number self.old.chunks) gone.now }
        requires once { Different gone.now }
        ensures ok { OnOk result (ChangesRow core.old.xacts s key
            (all_moved outside.now row.items (next_number self.old.chunks)) gone.now
            (Some (all_settled outside.now row.items (next_number self.old.chunks)))
            self.old self.new) }
        ensures left { LeavesOwn core.old.xacts s self.old self.new }
        ensures goes { Go core.old.xacts self.new }
        ensures core { core.new ≡ core.old }
    {
        move_out(&mut self.chunks, core, s, &mut row, outside)?;
        erase_all(&mut self.chunks, core, s, gone)?;
        self.rows.put(core, s, key, Cells::from_vec(row))
    }

    /// Erases a row and the values of some numbers.
    fn erase_row(
        &mut self,
        core: &Core,
        s: SessionNo,
        key: RowKey,
        gone: &[u64],
    ) -> Result<(), NoMemory>
        requires open { 0 < length (levels_of core.now.xacts s) }
        requires goes { Go core.now.xacts self.old }
        requires free { busy_at key_cmp core.now.xacts s self.old.rows key ≡ None }
        requires erasable { Each (IsFree core.now.xacts s self.old.chunks) gone.now }
        requires once { Different gone.now }
        ensures ok { OnOk result (ChangesRow core.now.xacts s key [] gone.now None
            self.old self.new) }
        ensures left { LeavesOwn core.now.xacts s self.old self.new }
        ensures goes { Go core.now.xacts self.new }
    {
        erase_all(&mut self.chunks, core, s, gone)?;
        self.rows.erase(core, s, key)
    }
}

/// The id of a row, which stands first among its values.
fn id_of(values: &[Value]) -> i64
    ensures { result ≡ id_of values.now }
{
    match values {
        [Value::Int(id), ..] => *id,
        _ => 0,
    }
}
