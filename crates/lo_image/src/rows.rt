//! The rows of a table, as cells: values outside stand behind the tables.
ghost use Rattle.std.specs.Prelude.{◌≡◌, ◌<◌, ◌≤◌, ◌^◌, ◌∷◌, [], length, map, drop, false, IsTrue, IfOk, Some};
ghost use Rattle.std.specs.Int.{w32, w64, cast_signed};
ghost use Rattle.toast_plan.specs.Columns.{IsTableColumns, AreLengths};
ghost use Rattle.toast_plan.specs.Reading.{cell_lengths, is_cell_outside};
ghost use Rattle.lo_base.specs.declared.value.Cell.TheVariants as cells;
ghost use Rattle.lo_base.specs.declared.column.ColType.TheVariants as types;
ghost use Rattle.expanded_array.specs.Layout.{is_flat_layout};
ghost use Rattle.lo_opening.specs.Opening.{id_follows};
ghost use Rattle.lo_image.specs.Readers.{Gives, number, tested, with_front, each};
ghost use Rattle.lo_image.specs.Reading.{int_at, id_defect, id_at, is_plain, tag_defect, length_defect, raw_defect, bytes_at, inline_at, outside_at, payload_at, tagged_at, is_array_kind, array_defect, cell_defect, cell_at, after_cell, after_column_cell, after_cells, are_planned, cells_at, row_at, after_row, rows_at, after_rows, byte_at};

use crate::fault::{Defect, Stop};
use crate::fields::{byte_at, fails, fixed_piece, fixed_u32, piece_at, u32_at, u64_at};
use crate::place::RowPlace;
use crate::plans;
use expanded_array::is_flat;
use lo_base::{Cell, Cells, ColType, Column, ListOf, Storage};
use std::alloc::Global;

/// The most bytes of a value.
const VALUE_LIMIT: u32 = 16_777_216;

fn int_at(bytes: &[u8]) -> Result<(i64, &[u8]), Stop>
    ensures { Gives (λ x. (x.0, x.1.now)) result (int_at bytes.now) }
{
    let (number, rest) = u64_at(bytes)?;
    Ok((number.cast_signed(), rest))
}

fn id_follows(last: Option<i64>, id: i64) -> bool
    ensures { result ≡ id_follows last id }
{
    match last {
        None => true,
        Some(last) => last < id,
    }
}

fn later_id_at(last: Option<i64>, bytes: &[u8]) -> Result<(i64, &[u8]), Stop>
    ensures { Gives (λ x. (x.0, x.1.now)) result (tested (id_defect last) int_at bytes.now) }
{
    let (id, rest) = int_at(bytes)?;
    if !id_follows(last, id) {
        return Err(fails(Defect::Order, bytes));
    }
    Ok((id, rest))
}

fn id_at(last: Option<i64>, bytes: &[u8]) -> Result<(i64, &[u8]), Stop>
    ensures { Gives (λ x. (cells.Int x.0, x.1.now)) result (id_at last bytes.now) }
{
    let rest = fixed_piece(&[1], Defect::Range, bytes)?;
    later_id_at(last, rest)
}

fn is_plain(storage: Storage) -> bool
    ensures { result ≡ is_plain storage }
{
    matches!(storage, Storage::Plain)
}

fn tag_at(storage: Storage, bytes: &[u8]) -> Result<(u8, &[u8]), Stop>
    ensures { Gives (λ x. (x.0, x.1.now)) result (tested (tag_defect storage) byte_at bytes.now) }
{
    let (tag, rest) = byte_at(bytes)?;
    if tag > 1 && (tag != 2 || is_plain(storage)) {
        return Err(fails(Defect::Range, bytes));
    }
    Ok((tag, rest))
}

fn length_at(bytes: &[u8]) -> Result<(u32, &[u8]), Stop>
    ensures { Gives (λ x. (x.0, x.1.now)) result (tested length_defect (number w32) bytes.now) }
{
    let (length, rest) = u32_at(bytes)?;
    if length > VALUE_LIMIT {
        return Err(fails(Defect::Range, bytes));
    }
    Ok((length, rest))
}

fn bytes_at(alloc: Global, bytes: &[u8]) -> Result<(Cell, &[u8]), Stop>
    ensures { Gives (λ x. (x.0, x.1.now)) result (bytes_at bytes.now) }
{
    let (length, rest) = length_at(bytes)?;
    let (found, rest) = piece_at(length as usize, rest)?;
    Ok((Cell::Inline(ListOf::from_slice(alloc, found)?), rest))
}

fn oid_cell_at(bytes: &[u8]) -> Result<(Cell, &[u8]), Stop>
    ensures { Gives (λ x. (x.0, x.1.now)) result (inline_at types.Oid bytes.now) }
{
    let (oid, rest) = u32_at(bytes)?;
    Ok((Cell::Oid(oid), rest))
}

fn int_cell_at(bytes: &[u8]) -> Result<(Cell, &[u8]), Stop>
    ensures { Gives (λ x. (x.0, x.1.now)) result (inline_at types.Int8 bytes.now) }
{
    let (number, rest) = int_at(bytes)?;
    Ok((Cell::Int(number), rest))
}

/// What stands behind the tag of a value in the row.
fn inline_at(alloc: Global, kind: ColType, bytes: &[u8]) -> Result<(Cell, &[u8]), Stop>
    ensures read { Gives (λ x. (x.0, x.1.now)) result (inline_at kind bytes.now) }
    ensures inside { IfOk result (λ x. is_cell_outside x.0 ≡ false) }
{
    match kind {
        ColType::Int8 => int_cell_at(bytes),
        ColType::Oid | ColType::Lo => oid_cell_at(bytes),
        ColType::Bytea | ColType::Int4Array => bytes_at(alloc, bytes),
    }
}

fn raw_at(bytes: &[u8]) -> Result<(u32, &[u8]), Stop>
    ensures read { Gives (λ x. (x.0, x.1.now)) result (tested raw_defect (number w32) bytes.now) }
    ensures some { IfOk result (λ x. 4 ≤ x.0) }
{
    let (raw, rest) = u32_at(bytes)?;
    if !(4..=VALUE_LIMIT + 4).contains(&raw) {
        return Err(fails(Defect::Range, bytes));
    }
    Ok((raw, rest))
}

/// The pointer behind the tag of a value outside.
fn outside_at(table: u32, value: u64, bytes: &[u8]) -> Result<(Cell, &[u8]), Stop>
    ensures read { Gives (λ x. (x.0, x.1.now)) result (outside_at table value bytes.now) }
    ensures few { IfOk result (λ x. value < 2 ^ 32) }
{
    let rest = fixed_piece(&[1, 18], Defect::Mismatch, bytes)?;
    let (raw, rest) = raw_at(rest)?;
    let length = raw - 4;
    let rest = fixed_u32(length as u64, rest)?;
    let rest = fixed_u32(value, rest)?;
    let rest = fixed_u32(table as u64, rest)?;
    Ok((Cell::Outside { length, value }, rest))
}

fn payload_at(
    alloc: Global,
    kind: ColType,
    table: u32,
    value: u64,
    tag: u8,
    bytes: &[u8],
) -> Result<(Cell, &[u8]), Stop>
    ensures read { Gives (λ x. (x.0, x.1.now)) result (payload_at kind table value tag bytes.now) }
    ensures few { IfOk result (λ x. IsTrue (is_cell_outside x.0) → value < 2 ^ 32) }
{
    match tag {
        0 => Ok((Cell::Null, bytes)),
        1 => inline_at(alloc, kind, bytes),
        _ => outside_at(table, value, bytes),
    }
}

fn tagged_at<'a>(
    alloc: Global,
    table: u32,
    value: u64,
    column: &Column,
    bytes: &'a [u8],
) -> Result<(Cell, &'a [u8]), Stop>
    ensures read { Gives (λ x. (x.0, x.1.now)) result (tagged_at table value column.now bytes.now) }
    ensures few { IfOk result (λ x. IsTrue (is_cell_outside x.0) → value < 2 ^ 32) }
{
    let (tag, rest) = tag_at(column.storage, bytes)?;
    payload_at(alloc, column.kind, table, value, tag, rest)
}

fn is_array_kind(kind: ColType) -> bool
    ensures { result ≡ is_array_kind kind }
{
    matches!(kind, ColType::Int4Array)
}

fn is_array(bytes: &[u8]) -> bool
    ensures { result ≡ is_flat_layout bytes.now }
{
    is_flat(bytes)
}

/// Bytes in a column of arrays that are no array.
pub fn array_defect(kind: ColType, bytes: &[u8]) -> Option<Defect>
    ensures { result ≡ array_defect kind bytes.now }
{
    if is_array_kind(kind) && !is_array(bytes) {
        Some(Defect::Array)
    } else {
        None
    }
}

fn cell_defect(kind: ColType, cell: &Cell) -> Option<Defect>
    ensures { result ≡ cell_defect kind cell.now }
{
    match cell {
        Cell::Inline(bytes) => array_defect(kind, bytes.items()),
        Cell::Null | Cell::Int(_) | Cell::Oid(_) | Cell::Text(_) | Cell::Outside { .. } => None,
    }
}

/// The cell of a column: its tag, and what stands behind it.
fn cell_at<'a>(
    alloc: Global,
    table: u32,
    value: u64,
    column: &Column,
    bytes: &'a [u8],
) -> Result<(Cell, &'a [u8]), Stop>
    ensures read { Gives (λ x. (x.0, x.1.now)) result (cell_at table value column.now bytes.now) }
    ensures few { IfOk result (λ x. IsTrue (is_cell_outside x.0) → value < 2 ^ 32) }
{
    let (cell, rest) = tagged_at(alloc, table, value, column, bytes)?;
    if let Some(kind) = cell_defect(column.kind, &cell) {
        return Err(fails(kind, bytes));
    }
    Ok((cell, rest))
}

fn after_cell(value: u64, cell: &Cell) -> u64
    requires { IsTrue (is_cell_outside cell.now) → value < 2 ^ 32 }
    ensures { result ≡ after_cell value cell.now }
{
    match cell {
        Cell::Outside { .. } => value + 1,
        Cell::Null | Cell::Int(_) | Cell::Oid(_) | Cell::Inline(_) | Cell::Text(_) => value,
    }
}

/// The cells of columns behind those in front, and the number of the next value outside.
fn other_cells_at<'a>(
    alloc: Global,
    columns: &[Column],
    table: u32,
    value: u64,
    front: Cells,
    bytes: &'a [u8],
) -> Result<((Cells, u64), &'a [u8]), Stop>
    requires { after_cells value front ≡ value }
    ensures read { Gives (λ x. (x.0.0, x.1.now)) result
        (with_front front (each (cell_at table) after_column_cell value columns.now bytes.now)) }
    ensures value { IfOk result (λ x. x.0.1 ≡ after_cells value x.0.0) }
{
    let mut cells = front;
    let mut next = value;
    let mut rest = bytes;
    for column in columns {
        let (cell, after) = cell_at(alloc, table, next, column, rest)?;
        next = after_cell(next, &cell);
        cells.push(cell)?;
        rest = after;
    }
    Ok(((cells, next), rest))
}

fn cells_at<'a>(
    alloc: Global,
    columns: &[Column],
    table: u32,
    place: RowPlace,
    bytes: &'a [u8],
) -> Result<((Cells, RowPlace), &'a [u8]), Stop>
    requires { 1 ≤ length columns.now }
    ensures read { Gives (λ x. (x.0.0, x.1.now)) result (cells_at columns.now table place bytes.now) }
    ensures place { IfOk result (λ x. x.0.1 ≡ after_row place x.0.0) }
{
    let (id, rest) = id_at(place.last, bytes)?;
    let (_, others) = columns.split_at(1);
    let mut front = ListOf::new(alloc);
    front.push(Cell::Int(id))?;
    let ((cells, value), rest) = other_cells_at(alloc, others, table, place.value, front, rest)?;
    let next = RowPlace {
        last: Some(id),
        value,
    };
    Ok(((cells, next), rest))
}

fn are_planned(columns: &[Column], cells: &[Cell]) -> bool
    requires columns { IsTableColumns columns.now }
    requires same { length cells.now ≡ length columns.now }
    requires lengths { AreLengths columns.now (cell_lengths cells.now) }
    ensures { result ≡ are_planned columns.now cells.now }
{
    plans::are_planned(columns, cells)
}

/// A row, and where the next one may stand.
fn row_at<'a>(
    alloc: Global,
    columns: &[Column],
    table: u32,
    place: RowPlace,
    bytes: &'a [u8],
) -> Result<((Cells, RowPlace), &'a [u8]), Stop>
    requires { IsTableColumns columns.now }
    ensures read { Gives (λ x. (x.0.0, x.1.now)) result (row_at columns.now table place bytes.now) }
    ensures place { IfOk result (λ x. x.0.1 ≡ after_row place x.0.0) }
{
    let ((cells, next), rest) = cells_at(alloc, columns, table, place, bytes)?;
    if !are_planned(columns, cells.items()) {
        return Err(fails(Defect::Plan, bytes));
    }
    Ok(((cells, next), rest))
}

/// So many rows, and the number of the next value outside.
pub fn rows_at<'a>(
    alloc: Global,
    columns: &[Column],
    table: u32,
    value: u64,
    count: u64,
    bytes: &'a [u8],
) -> Result<((ListOf<Cells>, u64), &'a [u8]), Stop>
    requires { IsTableColumns columns.now }
    ensures read { Gives (λ x. (x.0.0, x.1.now)) result (rows_at columns.now table value count bytes.now) }
    ensures value { IfOk result (λ x. x.0.1 ≡ after_rows value x.0.0) }
    ensures count { IfOk result (λ x. length x.0.0 ≡ count) }
{
    let mut rows = ListOf::new(alloc);
    let mut place = RowPlace { last: None, value };
    let mut rest = bytes;
    for _ in 0..count {
        let ((row, next), after) = row_at(alloc, columns, table, place, rest)?;
        rows.push(row)?;
        place = next;
        rest = after;
    }
    Ok(((rows, place.value), rest))
}
