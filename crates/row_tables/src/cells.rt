// Cells of a row, with no store: copies, changes, lengths and plans, and the numbers of values outside.
ghost use Rattle.std.specs.Prelude.{◌≡◌, ◌<◌, ◌^◌, [], ◌∷◌, ◌++◌, pos, length, IfOk, IfErr, OnOk};
ghost use Rattle.std.specs.Option.{option_copied};
ghost use Rattle.lo_base.specs.declared.refusal.Cause.TheVariants.{RowTooBig as TooBig};
ghost use Rattle.toast_plan.specs.Choice.{IsPlanFor};
ghost use Rattle.toast_plan.specs.Columns.{AreLengths, IsTableColumns};
ghost use Rattle.row_versions.specs.Stack.{Each};
ghost use Rattle.row_tables.specs.Cells.{cell_length, cell_lengths, changed_cell, changed_cells, dropped, has_number};
ghost use Rattle.row_tables.specs.Drafts.{IsTooBig};
ghost use Rattle.row_tables.specs.Outside.{FitsLength};
ghost use Rattle.row_tables.specs.Terms.{refusal};
ghost use Rattle.row_tables.specs.Values.{cell_of, cells_of, change_of};

use crate::change::Change;
use lo_base::{Bytes, Cause, Cell, Column, NoMemory, Refusal, Value};
use std::alloc::Global;
use toast_plan::{COLUMN_LIMIT, Plan, RowTooBig, plan};

/// A copy of a cell.
pub(crate) fn copy_of(alloc: Global, cell: &Cell) -> Result<Cell, NoMemory>
    ensures { IfOk result (λ copy. copy ≡ cell.now) }
{
    Ok(match cell {
        Cell::Null => Cell::Null,
        Cell::Int(number) => Cell::Int(*number),
        Cell::Oid(oid) => Cell::Oid(*oid),
        Cell::Inline(bytes) => Cell::Inline(Bytes::from_slice(alloc, bytes.items())?),
        Cell::Text(bytes) => Cell::Text(Bytes::from_slice(alloc, bytes.items())?),
        Cell::Outside { length, value } => Cell::Outside {
            length: *length,
            value: *value,
        },
    })
}

/// A value as a cell in the row.
pub(crate) fn cell_of(alloc: Global, value: &Value) -> Result<Cell, NoMemory>
    ensures { IfOk result (λ cell. cell ≡ cell_of value.now) }
{
    Ok(match value {
        Value::Null => Cell::Null,
        Value::Int(number) => Cell::Int(*number),
        Value::Oid(oid) => Cell::Oid(*oid),
        Value::Bytes(bytes) => Cell::Inline(Bytes::from_slice(alloc, bytes.items())?),
    })
}

pub(crate) fn cells_of(alloc: Global, values: &[Value]) -> Result<Vec<Cell>, NoMemory>
    ensures { IfOk result (λ row. row.items ≡ cells_of values.now) }
{
    let mut row = Vec::with_capacity(alloc, values.len())?;
    for value in values {
        row.push(cell_of(alloc, value)?)?;
    }
    Ok(row)
}

/// The change of a column.
fn change_of<'a>(changes: &'a [Change], name: &[u8]) -> Option<&'a Change>
    ensures { option_copied result ≡ change_of name.now changes.now }
{
    changes.iter().find(|change| change.column.items() == name)
}

fn changed_cell(
    alloc: Global,
    column: &Column,
    changes: &[Change],
    cell: &Cell,
) -> Result<Cell, NoMemory>
    ensures { IfOk result (λ c. c ≡ changed_cell (change_of column.now.name changes.now) cell.now) }
{
    match change_of(changes, column.name.items()) {
        None => copy_of(alloc, cell),
        Some(change) => cell_of(alloc, &change.value),
    }
}

/// The cells of a row with those of some columns changed. Values outside stay outside.
pub(crate) fn changed_cells(
    alloc: Global,
    columns: &[Column],
    changes: &[Change],
    row: &[Cell],
) -> Result<Vec<Cell>, NoMemory>
    requires { length row.now ≡ length columns.now }
    ensures { IfOk result (λ new. new.items ≡ changed_cells changes.now columns.now row.now) }
{
    let mut new = Vec::with_capacity(alloc, columns.len())?;
    for (index, column) in columns.iter().enumerate() {
        new.push(changed_cell(alloc, column, changes, &row[index])?)?;
    }
    Ok(new)
}

/// The length of a cell's value in bytes. A null has none.
fn cell_length(cell: &Cell) -> Option<u32>
    requires { FitsLength cell.now }
    ensures { result ≡ cell_length cell.now }
{
    match cell {
        Cell::Null => None,
        Cell::Int(_) => Some(8),
        Cell::Oid(_) => Some(4),
        Cell::Inline(bytes) | Cell::Text(bytes) => Some(bytes.items().len() as u32),
        Cell::Outside { length, .. } => Some(*length),
    }
}

fn put_lengths(row: &[Cell], lengths: &mut [Option<u32>])
    requires room { length lengths.old ≡ length row.now }
    requires short { Each FitsLength row.now }
    ensures { lengths.new ≡ cell_lengths row.now }
{
    for (index, cell) in row.iter().enumerate() {
        lengths[index] = cell_length(cell);
    }
}

/// Which values of a row are to be outside. It is refused with `RowTooBig`.
pub(crate) fn plan_of(columns: &[Column], row: &[Cell]) -> Result<Plan, Refusal>
    requires columns { IsTableColumns columns.now }
    requires lengths { AreLengths columns.now (cell_lengths row.now) }
    ensures ok { IfOk result (IsPlanFor columns.now (cell_lengths row.now)) }
    ensures err { IfErr result (IsTooBig columns.now row.now) }
{
    let mut lengths = [None; COLUMN_LIMIT];
    put_lengths(row, &mut lengths[..row.len()]);
    plan(columns, &lengths[..row.len()]).map_err(too_big)
}

fn too_big(e: RowTooBig) -> Refusal
    requires { e.size < 2 ^ 63 }
    ensures { result ≡ refusal TooBig (pos e.size) }
{
    Refusal {
        cause: Cause::RowTooBig,
        subject: e.size as i64,
    }
}

/// Whether a row has the value of a number outside.
fn has_number(row: &[Cell], number: u64) -> bool
    ensures { result ≡ has_number row.now number }
{
    row.iter().any(|cell| is_outside(cell, number))
}

fn is_outside(cell: &Cell, number: u64) -> bool
    ensures { result ≡ has_number (cell.now ∷ []) number }
{
    match cell {
        Cell::Outside { value, .. } => *value == number,
        Cell::Null | Cell::Int(_) | Cell::Oid(_) | Cell::Inline(_) | Cell::Text(_) => false,
    }
}

/// The numbers of the values outside of a row that another one has not.
pub(crate) fn dropped(alloc: Global, old: &[Cell], new: &[Cell]) -> Result<Vec<u64>, NoMemory>
    ensures { IfOk result (λ numbers. numbers.items ≡ dropped old.now new.now) }
{
    let mut numbers = Vec::new(alloc);
    for cell in old {
        add_dropped(&mut numbers, cell, new)?;
    }
    Ok(numbers)
}

fn add_dropped(numbers: &mut Vec<u64>, cell: &Cell, new: &[Cell]) -> Result<(), NoMemory>
    ensures { OnOk result (numbers.new.items ≡ numbers.old.items ++ dropped (cell.now ∷ []) new.now) }
{
    match cell {
        Cell::Outside { value, .. } if !has_number(new, *value) => {
            numbers.push(*value)?;
            Ok(())
        }
        _ => Ok(()),
    }
}
