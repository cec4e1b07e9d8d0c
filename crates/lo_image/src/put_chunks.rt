//! The values outside of an opening, given to a file in chunks.
ghost use Rattle.std.specs.Prelude.{◌≡◌, ◌<◌, ◌≤◌, ◌+◌, ◌^◌, All, length, IsTrue, IfOk};
ghost use Rattle.toast_plan.specs.Columns.{IsTableColumns};
ghost use Rattle.toast_plan.specs.Row.{count_outside};
ghost use Rattle.lo_opening.specs.Opening.{rows_outside};
ghost use Rattle.lo_image.specs.Image.{chunk_form, value_form, marked_form, row_chunks_form, rows_chunks_form, tables_chunks_form};
ghost use Rattle.lo_image.specs.Writing.{written, Puts, IsShortValue, AreNumberedRows, AreNumberedTables};

use crate::buffer::Buffer;
use crate::outside::plan_of;
use crate::putting::{put, put_u16, put_u32};
use crate::values::{CHUNK_BYTES, pieces_of};
use lo_base::{Column, Value, Values};
use lo_opening::TableData;
use lo_outside::{Failed, Files};
use toast_plan::VALUE_LIMIT;

fn put_chunk<F: Files>(
    buffer: &mut Buffer,
    files: &mut F,
    name: &str,
    value: u32,
    number: u32,
    bytes: &[u8],
) -> Result<(), Failed>
    requires { length bytes.now ≤ CHUNK_BYTES }
    ensures { Puts (written F.Files files.old buffer.old)
        (written F.Files files.new buffer.new) name.now (chunk_form value number bytes.now) result }
{
    put_u32(buffer, files, name, value)?;
    put_u32(buffer, files, name, number)?;
    put_u16(buffer, files, name, bytes.len() as u16)?;
    put(buffer, files, name, bytes)
}

/// A value in chunks, all of them full but the last.
fn put_value<F: Files>(
    buffer: &mut Buffer,
    files: &mut F,
    name: &str,
    value: u32,
    bytes: &[u8],
) -> Result<(), Failed>
    requires { length bytes.now ≤ VALUE_LIMIT }
    ensures { Puts (written F.Files files.old buffer.old)
        (written F.Files files.new buffer.new) name.now (value_form value bytes.now) result }
{
    let count = pieces_of(bytes.len() as u32);
    let mut rest = bytes;
    for number in 0..count {
        let length = rest.len().min(CHUNK_BYTES as usize);
        let (chunk, behind) = rest.split_at(length);
        put_chunk(buffer, files, name, value, number as u32, chunk)?;
        rest = behind;
    }
    Ok(())
}

/// The chunks of a value where it is marked.
fn put_marked<F: Files>(
    buffer: &mut Buffer,
    files: &mut F,
    name: &str,
    number: u64,
    value: &Value,
    outside: bool,
) -> Result<(), Failed>
    requires number { IsTrue outside → number < 2 ^ 32 }
    requires short { IsShortValue value.now }
    ensures { Puts (written F.Files files.old buffer.old)
        (written F.Files files.new buffer.new) name.now
        (marked_form number value.now outside) result }
{
    match value {
        Value::Bytes(bytes) if outside => {
            put_value(buffer, files, name, number as u32, bytes.items())
        }
        Value::Null | Value::Int(_) | Value::Oid(_) | Value::Bytes(_) => Ok(()),
    }
}

/// The chunks of a row's values that are marked, and the number of the next value outside.
fn put_row_chunks<F: Files>(
    buffer: &mut Buffer,
    files: &mut F,
    name: &str,
    values: &[Value],
    marks: &[bool],
    first: u64,
) -> Result<u64, Failed>
    requires marks { length marks.now ≡ length values.now }
    requires short { All IsShortValue values.now }
    requires numbers { first + count_outside marks.now ≤ 2 ^ 32 }
    ensures puts { Puts (written F.Files files.old buffer.old)
        (written F.Files files.new buffer.new) name.now
        (row_chunks_form first values.now marks.now) result }
    ensures value { IfOk result (λ next. next ≡ first + count_outside marks.now) }
{
    let mut number = first;
    for (place, value) in values.iter().enumerate() {
        put_marked(buffer, files, name, number, value, marks[place])?;
        number += u64::from(marks[place]);
    }
    Ok(number)
}

/// The chunks of rows, and the number of the next value outside.
fn put_rows_chunks<F: Files>(
    buffer: &mut Buffer,
    files: &mut F,
    name: &str,
    columns: &[Column],
    rows: &[Values],
    first: u64,
) -> Result<u64, Failed>
    requires columns { IsTableColumns columns.now }
    requires rows { AreNumberedRows columns.now first rows.now }
    ensures puts { Puts (written F.Files files.old buffer.old)
        (written F.Files files.new buffer.new) name.now
        (rows_chunks_form columns.now first rows.now) result }
    ensures value { IfOk result (λ next. next ≡ first + rows_outside columns.now rows.now) }
{
    let mut number = first;
    for row in rows {
        let values = row.items();
        let plan = plan_of(columns, values);
        let marks = &plan.outside[..columns.len()];
        number = put_row_chunks(buffer, files, name, values, marks, number)?;
    }
    Ok(number)
}

/// The chunks of all values outside.
pub(crate) fn put_tables_chunks<F: Files>(
    buffer: &mut Buffer,
    files: &mut F,
    name: &str,
    tables: &[TableData],
) -> Result<(), Failed>
    requires { AreNumberedTables 1 tables.now }
    ensures { Puts (written F.Files files.old buffer.old)
        (written F.Files files.new buffer.new) name.now (tables_chunks_form 1 tables.now) result }
{
    let mut number = 1;
    for table in tables {
        let columns = table.columns.items();
        let rows = table.rows.items();
        number = put_rows_chunks(buffer, files, name, columns, rows, number)?;
    }
    Ok(())
}
