//! The tables of an image.
ghost use Rattle.std.specs.Prelude.{◌≡◌, length, IfOk};
ghost use Rattle.lo_image.specs.Readers.{Gives};
ghost use Rattle.lo_image.specs.Reading.{table_at, after_rows, tables_at};
ghost use Rattle.lo_image.specs.Tables.{place_of, last_name};

use crate::columns::{columns_at, table_name_at};
use crate::fault::Stop;
use crate::fields::u64_at;
use crate::place::{TableCells, TableCellsList};
use crate::rows::rows_at;
use lo_base::ListOf;
use std::alloc::Global;

/// A table, and the number of the next value outside.
fn table_at<'a>(
    alloc: Global,
    before: &[TableCells],
    table: u32,
    value: u64,
    bytes: &'a [u8],
) -> Result<((TableCells, u64), &'a [u8]), Stop>
    ensures read { Gives (λ x. (x.0.0, x.1.now)) result
        (table_at (place_of (last_name before.now) table value) bytes.now) }
    ensures value { IfOk result (λ x. x.0.1 ≡ after_rows value x.0.0.rows) }
{
    let (name, rest) = table_name_at(before, bytes)?;
    let (columns, rest) = columns_at(alloc, rest)?;
    let (count, rest) = u64_at(rest)?;
    let ((rows, next), rest) = rows_at(alloc, columns.items(), table, value, count, rest)?;
    let name = ListOf::from_slice(alloc, name)?;
    Ok((
        (
            TableCells {
                name,
                columns,
                rows,
            },
            next,
        ),
        rest,
    ))
}

/// So many tables.
pub fn tables_at(alloc: Global, count: u16, bytes: &[u8]) -> Result<(TableCellsList, &[u8]), Stop>
    ensures read { Gives (λ x. (x.0, x.1.now)) result (tables_at count bytes.now) }
    ensures count { IfOk result (λ x. length x.0 ≡ count) }
{
    let mut tables: TableCellsList = ListOf::new(alloc);
    let mut value = 1;
    let mut rest = bytes;
    for _ in 0..count {
        let number = tables.items().len() as u32 + 1;
        let ((table, next), after) = table_at(alloc, tables.items(), number, value, rest)?;
        tables.push(table)?;
        value = next;
        rest = after;
    }
    Ok((tables, rest))
}
