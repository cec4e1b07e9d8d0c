// Tables as plain data: each table in the order of the names, with the rows that a view has of it by ascending id.
ghost use Rattle.std.specs.Prelude.{◌≡◌, ◌≤◌, ◌<◌, ◌^◌, ℤ, List, None, All, IfOk, length, map};
ghost use Rattle.std.specs.List.{AllByRecursion};
ghost use Rattle.lo_model.specs.Edit.{Deed, Edit};
ghost use Rattle.lo_model.specs.View.{view};
ghost use Rattle.toast_plan.specs.Writing.{HasRange};
ghost use Rattle.row_tables.specs.Catalog.{table_in};
ghost use Rattle.row_tables.specs.Standing.{GoWith, StandFor, tables_in};
ghost use Rattle.row_tables.specs.Values.{cell_of, cells_of};
ghost use Rattle.row_versions.specs.Looks.{IsLook};
ghost use Rattle.lo_opening.specs.Opening.{AreTables, tables_chunks};
ghost use Rattle.lo_restore.specs.Tables.{named_of, rows_of};
ghost use Rattle.lo_restore.specs.TablesSaved.{AreInOrder, CanBeSaved, HasRowThere, HasTable, HasValueIn, IsTable, row_values, rows_in, tables_with_rows};

use crate::tables_counted::are_countable;
use crate::tables_restored::copy_of;
use lo_base::{Cell, Cells, Denied, Name, NoMemory, RowList, Value, Values};
use lo_opening::{TableData, TableList};
use row_tables::{MOST_TABLES, Tables};
use row_versions::Core;
use std::alloc::Global;
use xact_core::Snapshot;

/// The tables in the order of their names, each with the rows that a view has of it, by ascending id. It costs all values. Where
/// the values outside are more than can be numbered in 32 bits, or cut into more chunks, the answer is want of memory.
pub fn saved_tables(
    alloc: Global,
    tables: &Tables,
    core: &Core,
    snap: &Snapshot,
) -> Result<TableList, NoMemory>
    requires kept { IsLook core.now.xacts snap.now }
    requires goes { GoWith core.now.xacts tables.now }
    requires can { CanBeSaved core.now.xacts tables.now snap.now }
    ensures rows { (ys : List (Edit Deed)) → StandFor core.now.xacts tables.now ys →
        IfOk result (λ list. map rows_of list
        ≡ tables_with_rows (view snap.now.clock snap.now.viewer ys) (tables_in tables.now)) }
    ensures rules { IfOk result (AreTables None 1 1) }
    ensures few { IfOk result (λ list. length list ≤ 1000) }
    ensures chunks { IfOk result (λ list. tables_chunks list < 2 ^ 32) }
{
    let list = all_tables(alloc, tables, core, snap)?;
    if !are_countable(list.items()) {
        return Err(NoMemory);
    }
    Ok(list)
}

fn all_tables(
    alloc: Global,
    tables: &Tables,
    core: &Core,
    snap: &Snapshot,
) -> Result<TableList, NoMemory>
    requires kept { IsLook core.now.xacts snap.now }
    requires goes { GoWith core.now.xacts tables.now }
    requires can { CanBeSaved core.now.xacts tables.now snap.now }
    ensures rows { (ys : List (Edit Deed)) → StandFor core.now.xacts tables.now ys →
        IfOk result (λ list. map rows_of list
        ≡ tables_with_rows (view snap.now.clock snap.now.viewer ys) (tables_in tables.now)) }
    ensures order { IfOk result AreInOrder }
    ensures few { IfOk result (λ list. length list ≤ 1000) }
{
    let mut list = TableList::new(alloc);
    for k in 0..MOST_TABLES as u32 {
        let Some(name) = tables.table(k) else {
            return Ok(list);
        };
        list.push(saved_table(alloc, tables, core, snap, name)?)?;
    }
    Ok(list)
}

/// A table that is there, with its rows.
fn saved_table(
    alloc: Global,
    tables: &Tables,
    core: &Core,
    snap: &Snapshot,
    name: &Name,
) -> Result<TableData, NoMemory>
    requires kept { IsLook core.now.xacts snap.now }
    requires goes { GoWith core.now.xacts tables.now }
    requires can { CanBeSaved core.now.xacts tables.now snap.now }
    requires there { HasTable tables.now name.now }
    ensures table { IfOk result (λ t. table_in name.now (tables_in tables.now)
        ≡ Some (named_of t)) }
    ensures rows { (ys : List (Edit Deed)) → StandFor core.now.xacts tables.now ys →
        IfOk result (λ t. t.rows ≡ rows_in (view snap.now.clock snap.now.viewer ys) name.now) }
    ensures is { IfOk result IsTable }
{
    let Some(columns) = tables.columns(name) else {
        unreachable!()
    };
    Ok(TableData {
        name: Name::from_slice(alloc, name.items())?,
        columns: copy_of(alloc, columns)?,
        rows: saved_rows(alloc, tables, core, snap, name)?,
    })
}

/// The rows of a table that is there, by ascending id.
fn saved_rows(
    alloc: Global,
    tables: &Tables,
    core: &Core,
    snap: &Snapshot,
    name: &Name,
) -> Result<RowList, NoMemory>
    requires kept { IsLook core.now.xacts snap.now }
    requires goes { GoWith core.now.xacts tables.now }
    requires can { CanBeSaved core.now.xacts tables.now snap.now }
    requires there { HasTable tables.now name.now }
    ensures rows { (ys : List (Edit Deed)) → StandFor core.now.xacts tables.now ys →
        IfOk result (λ rows. rows ≡ rows_in (view snap.now.clock snap.now.viewer ys) name.now) }
    ensures range { IfOk result (AllByRecursion (λ row. All HasRange row)) }
    ensures few { IfOk result (λ rows. length rows < 2 ^ 64) }
{
    let ids = match tables.ids(core, snap, name) {
        Ok(ids) => ids,
        Err(Denied::NoMemory) => return Err(NoMemory),
        Err(Denied::By(_)) => unreachable!(),
    };
    let mut rows = RowList::new(alloc);
    for id in ids.items() {
        rows.push(saved_row(alloc, tables, core, snap, name, *id)?)?;
    }
    Ok(rows)
}

/// The values of a row that the view has.
fn saved_row(
    alloc: Global,
    tables: &Tables,
    core: &Core,
    snap: &Snapshot,
    name: &Name,
    id: i64,
) -> Result<Values, NoMemory>
    requires kept { IsLook core.now.xacts snap.now }
    requires goes { GoWith core.now.xacts tables.now }
    requires there { HasRowThere core.now.xacts tables.now snap.now name.now id }
    ensures row { (ys : List (Edit Deed)) → StandFor core.now.xacts tables.now ys →
        IfOk result (λ row. row
        ≡ row_values (view snap.now.clock snap.now.viewer ys) name.now id) }
    ensures range { IfOk result (All HasRange) }
{
    match tables.get(core, snap, name, id) {
        Ok(cells) => values_of(alloc, cells),
        Err(Denied::NoMemory) => Err(NoMemory),
        Err(Denied::By(_)) => unreachable!(),
    }
}

/// The values of cells that have them all.
fn values_of(alloc: Global, cells: Cells) -> Result<Values, NoMemory>
    requires { AllByRecursion HasValueIn cells }
    ensures cells { IfOk result (λ row. cells_of row ≡ cells) }
    ensures range { IfOk result (All HasRange) }
{
    let mut row = Values::new(alloc);
    for cell in cells.into_vec() {
        row.push(value_of(cell))?;
    }
    Ok(row)
}

fn value_of(cell: Cell) -> Value
    requires { HasValueIn cell }
    ensures cell { cell_of result ≡ cell }
    ensures range { HasRange result }
{
    match cell {
        Cell::Null => Value::Null,
        Cell::Int(number) => Value::Int(number),
        Cell::Oid(oid) => Value::Oid(oid),
        Cell::Inline(bytes) => {
            are_bytes(bytes.items());
            Value::Bytes(bytes)
        }
        Cell::Text(_) | Cell::Outside { .. } => unreachable!(),
    }
}

/// Bytes are numbers below 256.
fn are_bytes(_bytes: &[u8])
    ensures { All (λ b. b < 256) _bytes.now }
{}
