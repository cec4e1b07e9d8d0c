// The calls that read rows in a view. They change nothing.
ghost use Rattle.std.specs.Prelude.{◌≡◌, ◌<◌, ℕ, length, IfOk, IfErr};
ghost use Rattle.lo_base.specs.declared.reply.Reply.TheVariants.{Ids as IdsReply, Row as RowReply};
ghost use Rattle.xact_core.specs.Transactions.{Transactions};
ghost use Rattle.row_versions.specs.Looks.{IsLook};
ghost use Rattle.toast_chunks.specs.Values.{slice_of};
ghost use Rattle.row_tables.specs.Cells.{Told, value_told};
ghost use Rattle.row_tables.specs.Outside.{HasItsValue};
ghost use Rattle.row_tables.specs.Reading.{IsNoPart, IsNoPlace, IsPart, IsPlace, ListsIds};
ghost use Rattle.row_tables.specs.RowRules.{get_row, ids_row, slice_in, slice_reply, slice_row};
ghost use Rattle.row_tables.specs.Standing.{GoWith};
ghost use Rattle.row_tables.specs.World.{RefusesIn, Tells, world};

use crate::outside::whole_row;
use crate::row_key::RowKey;
use crate::tables::{Tables, refused};
use lo_base::{
    Bytes, Cause, Cell, Cells, ColType, Column, Denied, Ids, Name, NoMemory, Refusal, Value,
};
use row_versions::Core;
use std::alloc::Global;
use toast_chunks::Chunks;
use xact_core::Snapshot;

/// A part of a value: so many bytes from an offset on, at most.
#[derive(Clone, Copy)]
pub(crate) struct Part {
    pub(crate) from: u64,
    pub(crate) count: u64,
}

impl Tables {
    /// A row with all of its values, in a view. An array is `Inline`, with its flat bytes. It is refused with `NoTable` and
    /// `NoRow`.
    pub fn get(&self, core: &Core, snap: &Snapshot, table: &Name, id: i64) -> Result<Cells, Denied>
        requires kept { IsLook core.now.xacts snap.now }
        requires goes { GoWith core.now.xacts self.now }
        ensures ok { (s : ℕ) → IfOk result (λ row. Tells (get_row table.now id)
            (world core.now.xacts self.now s) snap.now (RowReply row)) }
        ensures err { (s : ℕ) → IfErr result (RefusesIn (get_row table.now id)
            (world core.now.xacts self.now s) snap.now) }
    {
        let number = self.number(table)?;
        let key = RowKey { table: number, id };
        let Some(row) = self.rows.find(core, &key, snap) else {
            return Err(refused(Cause::NoRow, id));
        };
        let whole = whole_row(self.alloc, &self.chunks, core, snap, row.items())?;
        Ok(Cells::from_vec(whole))
    }

    /// Bytes of a row's `bytea` column from an offset on, at most so many, in a view; null where the value is null. It costs
    /// the chunks that the bytes lie in. It is refused with `NoTable`, `NoRow`, `NoColumn`, with `WrongType` where the column
    /// is no `bytea`, and with `BadLength` where a number is negative.
    pub fn slice(
        &self,
        core: &Core,
        snap: &Snapshot,
        table: &Name,
        id: i64,
        column: &Name,
        from: i64,
        length: i64,
    ) -> Result<Value, Denied>
        requires kept { IsLook core.now.xacts snap.now }
        requires goes { GoWith core.now.xacts self.now }
        ensures ok { (s : ℕ) → IfOk result (λ value.
            Tells (slice_row table.now id column.now from length)
            (world core.now.xacts self.now s) snap.now (slice_reply value)) }
        ensures err { (s : ℕ) → IfErr result (RefusesIn
            (slice_row table.now id column.now from length)
            (world core.now.xacts self.now s) snap.now) }
    {
        let number = self.number(table)?;
        let key = RowKey { table: number, id };
        let Some(row) = self.rows.find(core, &key, snap) else {
            return Err(refused(Cause::NoRow, id));
        };
        let place = bytea_place(self.catalog.columns(number), column)?;
        let part = part_of(from, length)?;
        let cell = &row.items()[place];
        Ok(slice_cell(self.alloc, &self.chunks, core, snap, cell, part)?)
    }

    /// The ids of a table's rows in a view, ascending. It costs a search for each. It is refused with `NoTable`.
    pub fn ids(&self, core: &Core, snap: &Snapshot, table: &Name) -> Result<Ids, Denied>
        requires kept { IsLook core.now.xacts snap.now }
        requires goes { GoWith core.now.xacts self.now }
        ensures ok { (s : ℕ) → IfOk result (λ ids. Tells (ids_row table.now)
            (world core.now.xacts self.now s) snap.now (IdsReply ids)) }
        ensures err { (s : ℕ) → IfErr result (RefusesIn (ids_row table.now)
            (world core.now.xacts self.now s) snap.now) }
    {
        let number = self.number(table)?;
        Ok(Ids::from_vec(self.ids_of(core, snap, number)?))
    }

    /// The ids of the rows that a view has of a table, ascending.
    pub(crate) fn ids_of(
        &self,
        core: &Core,
        snap: &Snapshot,
        number: u32,
    ) -> Result<Vec<i64>, NoMemory>
        requires kept { IsLook core.now.xacts snap.now }
        ensures { IfOk result (λ ids. ListsIds core.now.xacts snap.now self.now number ids.items) }
    {
        let mut ids = Vec::new(self.alloc);
        let from = RowKey {
            table: number,
            id: i64::MIN,
        };
        let mut last = Some(i64::MAX);
        while let Some(id) = last {
            let to = RowKey { table: number, id };
            let Some(key) = self.rows.last_in(core, &from, &to, snap) else {
                break;
            };
            ids.push(key.id)?;
            last = key.id.checked_sub(1);
        }
        ids.reverse();
        Ok(ids)
    }
}

/// The place of a `bytea` column. It is refused with `NoColumn` and `WrongType`.
pub(crate) fn bytea_place(columns: &[Column], name: &Name) -> Result<usize, Refusal>
    ensures ok { IfOk result (IsPlace columns.now name.now) }
    ensures err { IfErr result (IsNoPlace columns.now name.now) }
{
    for (place, column) in columns.iter().enumerate() {
        if column.name.items() == name.items() {
            return match column.kind {
                ColType::Bytea => Ok(place),
                ColType::Int8 | ColType::Oid | ColType::Lo | ColType::Int4Array => Err(Refusal {
                    cause: Cause::WrongType,
                    subject: 2,
                }),
            };
        }
    }
    Err(Refusal {
        cause: Cause::NoColumn,
        subject: 2,
    })
}

/// The part of two numbers of a request. It is refused with `BadLength` where one is negative.
pub(crate) fn part_of(from: i64, count: i64) -> Result<Part, Refusal>
    ensures ok { IfOk result (IsPart from count) }
    ensures err { IfErr result (IsNoPart from count) }
{
    let Ok(first) = u64::try_from(from) else {
        return Err(Refusal {
            cause: Cause::BadLength,
            subject: from,
        });
    };
    let Ok(most) = u64::try_from(count) else {
        return Err(Refusal {
            cause: Cause::BadLength,
            subject: count,
        });
    };
    Ok(Part {
        from: first,
        count: most,
    })
}

/// A part of a cell's value, null for a null and for a number.
pub(crate) fn slice_cell(
    alloc: Global,
    chunks: &Chunks,
    core: &Core,
    snap: &Snapshot,
    cell: &Cell,
    part: Part,
) -> Result<Value, NoMemory>
    requires kept { IsLook core.now.xacts snap.now }
    ensures { (told : ℕ → Told) → HasItsValue told core.now.xacts snap.now chunks.now cell.now →
        IfOk result (λ value. value ≡ slice_in part.from part.count (value_told told cell.now)) }
{
    match cell {
        Cell::Null | Cell::Int(_) | Cell::Oid(_) => Ok(Value::Null),
        Cell::Inline(bytes) | Cell::Text(bytes) => {
            let bytes = Bytes::from_slice(alloc, part_in(bytes.items(), part))?;
            Ok(Value::Bytes(bytes))
        }
        Cell::Outside { length, value } => {
            let rest = u64::from(*length).saturating_sub(part.from);
            let mut bytes = Vec::from_elem(alloc, 0, rest.min(part.count) as usize)?;
            if let Ok(from) = u32::try_from(part.from) {
                chunks.slice_into(core, snap, *value, from, &mut bytes);
            }
            Ok(Value::Bytes(Bytes::from_vec(bytes)))
        }
    }
}

fn part_in(bytes: &[u8], part: Part) -> &[u8]
    ensures { result.now ≡ slice_of part.from part.count bytes.now }
{
    let from = part.from.min(bytes.len() as u64) as usize;
    let rest = &bytes[from..];
    &rest[..part.count.min(rest.len() as u64) as usize]
}
