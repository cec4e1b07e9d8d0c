// The rewrite of a table: its rows are stored anew under other storages. All is judged before a row is changed, and the table
// gets its new columns last.
ghost use Rattle.std.specs.Prelude.{◌≡◌, ◌<◌, None, Some, length, IfOk, IfErr, OnOk, slice_get};
ghost use Rattle.std.specs.Int.{w64};
ghost use Rattle.std.specs.Int.RustNames.{FitsSigned};
ghost use Rattle.std.specs.Option.{option_copied};
ghost use Rattle.std.specs.Ordering.{int_cmp};
ghost use Rattle.std.specs.List.Sorted.{IsStrictlySortedBy};
ghost use Rattle.lo_base.specs.declared.reply.Reply.TheVariants.{Counted};
ghost use Rattle.lo_base.specs.declared.reply.Word.TheVariants as words;
ghost use Rattle.toast_plan.specs.Columns.{IsTableColumns};
ghost use Rattle.xact_core.specs.Kept.{HoldsWholeViews};
ghost use Rattle.xact_core.specs.Transactions.{levels_of};
ghost use Rattle.row_versions.specs.Looks.{IsLook};
ghost use Rattle.row_versions.specs.Stack.{Each};
ghost use Rattle.row_tables.specs.Catalog.{AreTables, columns_in};
ghost use Rattle.row_tables.specs.RewriteRules.{rewrite_row, storage_refusals, stored_by, with_storages};
ghost use Rattle.row_tables.specs.Rewriting.{AreThere, DeniesStorages, IsFreeTable, IsHeldTable, IsThere, SameKinds, StoresAnew, StoresRows, first_too_big, storage_terms};
ghost use Rattle.row_tables.specs.RowRules.{column_in};
ghost use Rattle.row_tables.specs.Standing.{Go, GoWith};
ghost use Rattle.row_tables.specs.Terms.{first_of};
ghost use Rattle.row_tables.specs.World.{Denies, Grants, IsReady, Keeps, LeavesOwn, world};

use crate::cells::{dropped, plan_of};
use crate::outside::whole_row;
use crate::row_key::RowKey;
use crate::tables::Tables;
use lo_base::{Cause, ColType, Column, ColumnList, Denied, Name, NoMemory, Refusal, SessionNo};
use row_versions::Core;
use std::alloc::Global;
use xact_core::Snapshot;

impl Tables {
    /// Stores each row of the session's view of a table anew, by ascending id, with other storages of some columns: each value
    /// outside under a new number. It answers how many rows there are. Older views go on reading the old rows. It is refused
    /// with `NoTable`, with `NoColumn` and `WrongType` for the first column that is not there or whose values have a fixed
    /// length, with `RowTooBig` of the least id, and with `Busy` where another session holds a row of the table. It costs the
    /// values of all rows.
    pub fn rewrite(
        &mut self,
        core: &mut Core,
        s: SessionNo,
        table: &Name,
        storages: &[Column],
    ) -> Result<u64, Denied>
        requires ready { IsReady (world core.old.xacts self.old s) }
        requires open { 0 < length (levels_of core.old.xacts s) }
        ensures ok { IfOk result (λ count. Grants (rewrite_row table.now storages.now)
            (world core.old.xacts self.old s) (world core.new.xacts self.new s)
            (Counted words.Rewrite count)) }
        ensures err { IfErr result (Denies (rewrite_row table.now storages.now)
            (world core.old.xacts self.old s) (world core.new.xacts self.new s)) }
        ensures keeps { OnOk result (Keeps (world core.old.xacts self.old s)
            (world core.new.xacts self.new s)) }
        ensures core { core.new ≡ core.old }
    {
        let number = self.number(table)?;
        let columns = with_storages(self.alloc, self.catalog.columns(number), storages)?;
        let snap = core.xacts.snapshot(s);
        let ids = self.ids_of(core, &snap, number)?;
        self.judge_rows(core, &snap, number, columns.items(), &ids)?;
        self.free_table(core, s, number)?;
        self.store_rows(core, s, number, columns.items(), &ids)?;
        self.catalog.set_columns(number, columns);
        Ok(ids.len() as u64)
    }

    /// It is refused with `RowTooBig` for the first of some rows that would be too big under other columns.
    fn judge_rows(
        &self,
        core: &Core,
        snap: &Snapshot,
        number: u32,
        columns: &[Column],
        ids: &[i64],
    ) -> Result<(), Refusal>
        requires kept { IsLook core.now.xacts snap.now }
        requires goes { GoWith core.now.xacts self.now }
        requires columns { IsTableColumns columns.now }
        requires kinds { SameKinds (columns_in (slice_get self.now.catalog number)) columns.now }
        requires fit { Each (FitsSigned w64) ids.now }
        ensures ok { OnOk result (first_too_big core.now.xacts snap.now self.now number
            columns.now ids.now ≡ None) }
        ensures err { IfErr result (λ r. first_too_big core.now.xacts snap.now self.now number
            columns.now ids.now ≡ Some r) }
    {
        for id in ids {
            let key = RowKey {
                table: number,
                id: *id,
            };
            if let Some(row) = self.rows.find(core, &key, snap) {
                plan_of(columns, row.items())?;
            }
        }
        Ok(())
    }

    /// It is refused with `Busy` where another session holds a row of a table.
    fn free_table(&self, core: &Core, s: SessionNo, number: u32) -> Result<(), Refusal>
        requires goes { Go core.now.xacts self.now }
        ensures ok { OnOk result (IsFreeTable core.now.xacts s self.now number) }
        ensures err { IfErr result (IsHeldTable core.now.xacts s self.now number) }
    {
        let from = RowKey {
            table: number,
            id: i64::MIN,
        };
        let to = RowKey {
            table: number,
            id: i64::MAX,
        };
        match self.rows.busy_in(core, &from, &to, s) {
            None => Ok(()),
            Some(other) => Err(Refusal {
                cause: Cause::Busy,
                subject: i64::from(other.number()),
            }),
        }
    }

    /// Stores some rows of a table anew.
    fn store_rows(
        &mut self,
        core: &mut Core,
        s: SessionNo,
        number: u32,
        columns: &[Column],
        ids: &[i64],
    ) -> Result<(), NoMemory>
        requires open { 0 < length (levels_of core.old.xacts s) }
        requires whole { HoldsWholeViews core.old.xacts }
        requires goes { GoWith core.old.xacts self.old }
        requires tables { AreTables self.old.catalog }
        requires table { number < length self.old.catalog }
        requires columns { IsTableColumns columns.now }
        requires kinds { SameKinds (columns_in (slice_get self.old.catalog number)) columns.now }
        requires order { IsStrictlySortedBy int_cmp ids.now }
        requires there { AreThere core.old.xacts s self.old number columns.now ids.now }
        ensures ok { OnOk result (StoresRows core.old.xacts s number columns.now ids.now
            self.old self.new) }
        ensures left { LeavesOwn core.old.xacts s self.old self.new }
        ensures goes { Go core.old.xacts self.new }
        ensures core { core.new ≡ core.old }
    {
        for id in ids {
            let key = RowKey {
                table: number,
                id: *id,
            };
            self.store_anew(core, s, key, columns)?;
        }
        Ok(())
    }

    /// Stores a row anew, under other columns of its table.
    fn store_anew(
        &mut self,
        core: &mut Core,
        s: SessionNo,
        key: RowKey,
        columns: &[Column],
    ) -> Result<(), NoMemory>
        requires open { 0 < length (levels_of core.old.xacts s) }
        requires goes { GoWith core.old.xacts self.old }
        requires columns { IsTableColumns columns.now }
        requires kinds { SameKinds (columns_in (slice_get self.old.catalog key.table)) columns.now }
        requires there { IsThere core.old.xacts s self.old key columns.now }
        ensures ok { OnOk result (StoresAnew core.old.xacts s key columns.now self.old self.new) }
        ensures left { LeavesOwn core.old.xacts s self.old self.new }
        ensures goes { Go core.old.xacts self.new }
        ensures core { core.new ≡ core.old }
    {
        let snap = core.xacts.snapshot(s);
        let Some(old) = self.rows.find(core, &key, &snap) else {
            unreachable!()
        };
        let Ok(plan) = plan_of(columns, old.items()) else {
            unreachable!()
        };
        let row = whole_row(self.alloc, &self.chunks, core, &snap, old.items())?;
        let gone = dropped(self.alloc, old.items(), &[])?;
        self.put_row(core, s, key, &gone, row, &plan.outside[..columns.len()])
    }
}

/// The column of a name.
fn column_in<'a>(columns: &'a [Column], name: &[u8]) -> Option<&'a Column>
    ensures { option_copied result ≡ column_in name.now columns.now }
{
    columns.iter().find(|column| column.name.items() == name)
}

/// The columns with the storages that some of them get. It is refused with `NoColumn` and `WrongType`.
fn with_storages(
    alloc: Global,
    columns: &[Column],
    storages: &[Column],
) -> Result<ColumnList, Denied>
    requires { IsTableColumns columns.now }
    ensures ok { IfOk result (λ new. new ≡ with_storages storages.now columns.now) }
    ensures judged { OnOk result (first_of (storage_refusals 1 columns.now storages.now) ≡ None) }
    ensures err { IfErr result (DeniesStorages columns.now storages.now) }
{
    judge_storages(columns, storages)?;
    let mut new = ColumnList::new(alloc);
    for column in columns {
        new.push(stored_by(alloc, column, storages)?)?;
    }
    Ok(new)
}

/// A column, with the storage that it gets.
fn stored_by(alloc: Global, column: &Column, storages: &[Column]) -> Result<Column, NoMemory>
    ensures { IfOk result (λ new. new ≡ stored_by column.now
        (column_in column.now.name storages.now)) }
{
    let storage = match column_in(storages, column.name.items()) {
        None => column.storage,
        Some(storage) => storage.storage,
    };
    Ok(Column {
        name: Name::from_slice(alloc, column.name.items())?,
        kind: column.kind,
        storage,
    })
}

/// It is refused with `NoColumn` and `WrongType`, which name a storage's place from 1.
fn judge_storages(columns: &[Column], storages: &[Column]) -> Result<(), Refusal>
    ensures ok { OnOk result (first_of (storage_refusals 1 columns.now storages.now) ≡ None) }
    ensures err { IfErr result (λ r. first_of (storage_refusals 1 columns.now storages.now)
        ≡ Some r) }
{
    for (index, storage) in storages.iter().enumerate() {
        judge_storage(columns, storage, index as i64 + 1)?;
    }
    Ok(())
}

/// It is refused with `NoColumn` where there is no column of the name, and with `WrongType` where its values have a fixed
/// length.
fn judge_storage(columns: &[Column], storage: &Column, place: i64) -> Result<(), Refusal>
    ensures ok { OnOk result (first_of (storage_terms columns.now storage.now place) ≡ None) }
    ensures err { IfErr result (λ r. first_of (storage_terms columns.now storage.now place)
        ≡ Some r) }
{
    let cause = match column_in(columns, storage.name.items()) {
        None => Cause::NoColumn,
        Some(column) => match column.kind {
            ColType::Bytea | ColType::Int4Array => return Ok(()),
            ColType::Int8 | ColType::Oid | ColType::Lo => Cause::WrongType,
        },
    };
    Err(Refusal {
        cause,
        subject: place,
    })
}
