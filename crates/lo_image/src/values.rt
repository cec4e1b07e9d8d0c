//! The values outside: their chunks, one behind the other, and the rows filled with them.
ghost use Rattle.std.specs.Prelude.{◌≡◌, ◌+◌, ◌-◌, ◌^◌, min, drop};
ghost use Rattle.std.specs.Int.{w32};
ghost use Rattle.lo_model.specs.Held.{chunk_bytes, pieces};
ghost use Rattle.lo_image.specs.Readers.{Gives, tested};
ghost use Rattle.lo_image.specs.Reading.{cell_chunks, chunks_in_row, chunks_in_rows, chunks_in_tables, chunk_at, value_at, array_defect, kind_in, cell_value_at, row_values_at, rows_values_at, table_values_at, tables_values_at};

use crate::fault::Stop;
use crate::fields::{fails, fixed_u16, fixed_u32, piece_at};
use crate::place::{ChunkPlace, TableCells, TableCellsList};
use crate::rows::array_defect;
use lo_base::{Bytes, Cell, Cells, ColType, Column, ListOf, RowList, Value, Values};
use lo_opening::{TableData, TableList};
use std::alloc::Global;

/// The bytes of a full chunk.
pub(crate) const CHUNK_BYTES: u32 = 1996;

/// The chunks of a value of that length.
pub(crate) fn pieces_of(length: u32) -> u64
    ensures { result ≡ pieces chunk_bytes length }
{
    (length as u64 + 1995) / 1996
}

fn cell_chunks(cell: &Cell) -> u64
    ensures { result ≡ cell_chunks cell.now }
{
    match cell {
        Cell::Outside { length, .. } => pieces_of(*length),
        Cell::Null | Cell::Int(_) | Cell::Oid(_) | Cell::Inline(_) | Cell::Text(_) => 0,
    }
}

/// Adds the chunks of a row's values outside. The sum stops at the last number of 128 bits.
fn add_row(total: u128, row: &[Cell]) -> u128
    ensures { result ≡ min (total + chunks_in_row row.now) (2 ^ 128 - 1) }
{
    let mut sum = total;
    for cell in row {
        sum = sum.saturating_add(cell_chunks(cell) as u128);
    }
    sum
}

fn add_rows(total: u128, rows: &[Cells]) -> u128
    ensures { result ≡ min (total + chunks_in_rows rows.now) (2 ^ 128 - 1) }
{
    let mut sum = total;
    for row in rows {
        sum = add_row(sum, row.items());
    }
    sum
}

/// The number of all chunks, or the last number of 128 bits where there are more.
pub fn chunks_in_tables(tables: &[TableCells]) -> u128
    ensures { result ≡ min (chunks_in_tables tables.now) (2 ^ 128 - 1) }
{
    let mut sum = 0;
    for table in tables {
        sum = add_rows(sum, table.rows.items());
    }
    sum
}

fn chunk_at(value: u64, place: ChunkPlace, bytes: &[u8]) -> Result<(&[u8], &[u8]), Stop>
    ensures { Gives (λ x. (x.0.now, x.1.now)) result (chunk_at value place bytes.now) }
{
    let length = place.left.min(CHUNK_BYTES);
    let rest = fixed_u32(value, bytes)?;
    let rest = fixed_u32(place.number as u64, rest)?;
    let rest = fixed_u16(length as u16, rest)?;
    piece_at(length as usize, rest)
}

/// A value of that length, by its chunks.
fn value_at(alloc: Global, value: u64, length: u32, bytes: &[u8]) -> Result<(Bytes, &[u8]), Stop>
    ensures { Gives (λ x. (x.0, x.1.now)) result (value_at value length bytes.now) }
{
    let mut found = ListOf::new(alloc);
    let mut place = ChunkPlace {
        number: 0,
        left: length,
    };
    let mut rest = bytes;
    let count = pieces_of(length);
    for _ in 0..count {
        let (chunk, after) = chunk_at(value, place, rest)?;
        found.extend(chunk)?;
        place = ChunkPlace {
            number: place.number + 1,
            left: place.left.saturating_sub(CHUNK_BYTES),
        };
        rest = after;
    }
    Ok((found, rest))
}

fn outside_value_at(
    alloc: Global,
    kind: ColType,
    value: u64,
    length: u32,
    bytes: &[u8],
) -> Result<(Bytes, &[u8]), Stop>
    ensures { Gives (λ x. (x.0, x.1.now)) result (tested (array_defect kind) (value_at value length) bytes.now) }
{
    let (found, rest) = value_at(alloc, value, length, bytes)?;
    if let Some(kind) = array_defect(kind, found.items()) {
        return Err(fails(kind, bytes));
    }
    Ok((found, rest))
}

/// The value of a cell: the cell's own where it is in the row.
fn cell_value_at(
    alloc: Global,
    kind: ColType,
    cell: Cell,
    bytes: &[u8],
) -> Result<(Value, &[u8]), Stop>
    ensures { Gives (λ x. (x.0, x.1.now)) result (cell_value_at kind cell bytes.now) }
{
    match cell {
        Cell::Null | Cell::Text(_) => Ok((Value::Null, bytes)),
        Cell::Int(number) => Ok((Value::Int(number), bytes)),
        Cell::Oid(oid) => Ok((Value::Oid(oid), bytes)),
        Cell::Inline(own) => Ok((Value::Bytes(own), bytes)),
        Cell::Outside { length, value } => {
            let (found, rest) = outside_value_at(alloc, kind, value, length, bytes)?;
            Ok((Value::Bytes(found), rest))
        }
    }
}

fn kind_in(columns: &[Column]) -> ColType
    ensures { result ≡ kind_in columns.now }
{
    match columns {
        [] => ColType::Bytea,
        [first, ..] => first.kind,
    }
}

fn next_columns(columns: &[Column]) -> &[Column]
    ensures { result.now ≡ drop 1 columns.now }
{
    match columns {
        [] => columns,
        [_, others @ ..] => others,
    }
}

fn row_values_at<'a>(
    alloc: Global,
    columns: &[Column],
    row: Cells,
    bytes: &'a [u8],
) -> Result<(Values, &'a [u8]), Stop>
    ensures { Gives (λ x. (x.0, x.1.now)) result (row_values_at columns.now row bytes.now) }
{
    let mut values = ListOf::new(alloc);
    let mut left = columns;
    let mut rest = bytes;
    for cell in row.into_vec() {
        let (value, after) = cell_value_at(alloc, kind_in(left), cell, rest)?;
        values.push(value)?;
        left = next_columns(left);
        rest = after;
    }
    Ok((values, rest))
}

fn rows_values_at<'a>(
    alloc: Global,
    columns: &[Column],
    rows: ListOf<Cells>,
    bytes: &'a [u8],
) -> Result<(RowList, &'a [u8]), Stop>
    ensures { Gives (λ x. (x.0, x.1.now)) result (rows_values_at columns.now rows bytes.now) }
{
    let mut filled = ListOf::new(alloc);
    let mut rest = bytes;
    for row in rows.into_vec() {
        let (values, after) = row_values_at(alloc, columns, row, rest)?;
        filled.push(values)?;
        rest = after;
    }
    Ok((filled, rest))
}

fn table_values_at(
    alloc: Global,
    table: TableCells,
    bytes: &[u8],
) -> Result<(TableData, &[u8]), Stop>
    ensures { Gives (λ x. (x.0, x.1.now)) result (table_values_at 0 table bytes.now) }
{
    let TableCells {
        name,
        columns,
        rows,
    } = table;
    let (rows, rest) = rows_values_at(alloc, columns.items(), rows, bytes)?;
    Ok((
        TableData {
            name,
            columns,
            rows,
        },
        rest,
    ))
}

/// The tables with their values.
pub fn tables_values_at(
    alloc: Global,
    tables: TableCellsList,
    bytes: &[u8],
) -> Result<(TableList, &[u8]), Stop>
    ensures { Gives (λ x. (x.0, x.1.now)) result (tables_values_at tables bytes.now) }
{
    let mut filled = ListOf::new(alloc);
    let mut rest = bytes;
    for table in tables.into_vec() {
        let (table, after) = table_values_at(alloc, table, rest)?;
        filled.push(table)?;
        rest = after;
    }
    Ok((filled, rest))
}
