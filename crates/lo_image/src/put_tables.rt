//! The tables of an opening, given to a file: of a value outside its row has a pointer.
ghost use Rattle.std.specs.Prelude.{◌≡◌, ◌<◌, ◌≤◌, ◌+◌, ◌^◌, length, IfOk};
ghost use Rattle.toast_plan.specs.Columns.{IsTableColumns};
ghost use Rattle.toast_plan.specs.Row.{planned_fields, row_form};
ghost use Rattle.lo_opening.specs.Opening.{marks_of, row_outside, rows_outside, marked_chunks, rows_chunks, tables_chunks};
ghost use Rattle.lo_image.specs.Image.{rows_form, table_form, tables_form};
ghost use Rattle.lo_image.specs.Writing.{written, Puts, IsNumberedRow, AreNumberedRows, IsNumberedTable, AreNumberedTables};

use crate::buffer::Buffer;
use crate::outside::{ValuePlace, after_values, plan_of};
use crate::put_columns::{put_columns, put_name};
use crate::putting::{put, put_u64};
use lo_base::{Column, Value, Values};
use lo_opening::TableData;
use lo_outside::{Failed, Files};
use toast_plan::{ROW_ROOM, row_bytes};

/// A row, and what it leaves to the rows behind it.
fn put_row<F: Files>(
    buffer: &mut Buffer,
    files: &mut F,
    name: &str,
    columns: &[Column],
    values: &[Value],
    table: u32,
    before: ValuePlace,
) -> Result<ValuePlace, Failed>
    requires columns { IsTableColumns columns.now }
    requires row { IsNumberedRow columns.now before.value values.now }
    requires few { before.chunks + marked_chunks values.now (marks_of columns.now values.now)
        < 2 ^ 32 }
    ensures puts { Puts (written F.Files files.old buffer.old)
        (written F.Files files.new buffer.new) name.now
        (row_form (planned_fields columns.now table before.value values.now)) result }
    ensures value { IfOk result (λ next. next.value
        ≡ before.value + row_outside columns.now values.now) }
    ensures chunks { IfOk result (λ next. next.chunks
        ≡ before.chunks + marked_chunks values.now (marks_of columns.now values.now)) }
{
    let plan = plan_of(columns, values);
    let mut row = [0; ROW_ROOM];
    // Where the next number is 2^32, no value of the row is outside.
    let first = before.value.min(0xffff_ffff) as u32;
    let count = row_bytes(columns, values, &plan, first, table, &mut row);
    put(buffer, files, name, &row[..count])?;
    Ok(after_values(values, &plan.outside[..columns.len()], before))
}

fn put_rows<F: Files>(
    buffer: &mut Buffer,
    files: &mut F,
    name: &str,
    columns: &[Column],
    rows: &[Values],
    table: u32,
    before: ValuePlace,
) -> Result<ValuePlace, Failed>
    requires columns { IsTableColumns columns.now }
    requires rows { AreNumberedRows columns.now before.value rows.now }
    requires few { before.chunks + rows_chunks columns.now rows.now < 2 ^ 32 }
    ensures puts { Puts (written F.Files files.old buffer.old)
        (written F.Files files.new buffer.new) name.now
        (rows_form columns.now table before.value rows.now) result }
    ensures value { IfOk result (λ next. next.value
        ≡ before.value + rows_outside columns.now rows.now) }
    ensures chunks { IfOk result (λ next. next.chunks
        ≡ before.chunks + rows_chunks columns.now rows.now) }
{
    let mut next = before;
    for row in rows {
        let values = row.items();
        next = put_row(buffer, files, name, columns, values, table, next)?;
    }
    Ok(next)
}

/// A table, and what it leaves to the tables behind it.
fn put_table<F: Files>(
    buffer: &mut Buffer,
    files: &mut F,
    name: &str,
    table: &TableData,
    number: u32,
    before: ValuePlace,
) -> Result<ValuePlace, Failed>
    requires table { IsNumberedTable before.value table.now }
    requires few { before.chunks + rows_chunks table.now.columns table.now.rows < 2 ^ 32 }
    ensures puts { Puts (written F.Files files.old buffer.old)
        (written F.Files files.new buffer.new) name.now
        (table_form number before.value table.now) result }
    ensures value { IfOk result (λ next. next.value
        ≡ before.value + rows_outside table.now.columns table.now.rows) }
    ensures chunks { IfOk result (λ next. next.chunks
        ≡ before.chunks + rows_chunks table.now.columns table.now.rows) }
{
    let columns = table.columns.items();
    let rows = table.rows.items();
    put_name(buffer, files, name, table.name.items())?;
    put(buffer, files, name, &[columns.len() as u8])?;
    put_columns(buffer, files, name, columns)?;
    put_u64(buffer, files, name, rows.len() as u64)?;
    put_rows(buffer, files, name, columns, rows, number, before)
}

/// The tables, and how many chunks their values outside are cut into.
pub(crate) fn put_tables<F: Files>(
    buffer: &mut Buffer,
    files: &mut F,
    name: &str,
    tables: &[TableData],
) -> Result<u64, Failed>
    requires tables { AreNumberedTables 1 tables.now }
    requires few { length tables.now ≤ 1000 }
    requires few_chunks { tables_chunks tables.now < 2 ^ 32 }
    ensures puts { Puts (written F.Files files.old buffer.old)
        (written F.Files files.new buffer.new) name.now (tables_form 1 1 tables.now) result }
    ensures chunks { IfOk result (λ chunks. chunks ≡ tables_chunks tables.now) }
{
    let mut next = ValuePlace {
        value: 1,
        chunks: 0,
    };
    for (place, table) in tables.iter().enumerate() {
        next = put_table(buffer, files, name, table, place as u32 + 1, next)?;
    }
    Ok(next.chunks)
}
