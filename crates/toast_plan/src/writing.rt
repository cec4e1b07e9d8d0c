//! A row's bytes, written into room that the caller has. What is written here is read in `reading.rt`.
ghost use Rattle.std.specs.Prelude.{◌≡◌, ◌+◌, ◌^◌, ◌<◌, ◌≤◌, ◌++◌, ◌∷◌, All, IsTrue, length, take, drop};
ghost use Rattle.toast_plan.specs.Columns.{IsTableColumns};
ghost use Rattle.toast_plan.specs.Choice.{outside_of, IsPlanFor};
ghost use Rattle.toast_plan.specs.Row.{AreRowValues, IsRow, value_length, value_lengths, count_outside, field_of, field_form, fields_of, planned_fields, row_form};
ghost use Rattle.toast_plan.specs.Row.{Inline as InlineField, Outside as OutsideField};
ghost use Rattle.toast_plan.specs.Writing.{with_piece, HasRange};
ghost use Rattle.std.specs.Option.{IfSome};

use crate::layout::Plan;
use crate::pointer::{Pointer, VALUE_LIMIT, pointer_bytes};
use lo_base::{Column, Value};

/// The tag of a null.
pub(crate) const NULL_TAG: u8 = 0;

/// The tag of a value in the row.
pub(crate) const INLINE_TAG: u8 = 1;

/// The tag of a pointer to a value outside.
pub(crate) const OUTSIDE_TAG: u8 = 2;

/// Enough bytes for every row.
pub const ROW_ROOM: usize = 8448;

/// Writes a piece at a place, and answers the place behind it.
fn put(out: &mut [u8], at: usize, piece: &[u8]) -> usize
    requires { at + length piece.now ≤ length out.old }
    ensures end { result ≡ at + length piece.now }
    ensures written { out.new ≡ with_piece at piece.now out.old }
{
    let end = at + piece.len();
    out[at..end].copy_from_slice(piece);
    end
}

/// Writes a tag and a piece behind it.
fn put_tagged(out: &mut [u8], at: usize, tag: u8, piece: &[u8]) -> usize
    requires { at + 1 + length piece.now ≤ length out.old }
    ensures end { result ≡ at + 1 + length piece.now }
    ensures written { out.new ≡ with_piece at (tag ∷ piece.now) out.old }
{
    let next = put(out, at, &[tag]);
    put(out, next, piece)
}

/// Writes the field of bytes that stay in the row.
fn put_inline(out: &mut [u8], at: usize, bytes: &[u8]) -> usize
    requires short { length bytes.now ≤ VALUE_LIMIT }
    requires room { at + 5 + length bytes.now ≤ length out.old }
    ensures end { result ≡ at + 5 + length bytes.now }
    ensures written { out.new ≡ with_piece at (field_form (InlineField bytes.now)) out.old }
    ensures small { All (λ b. b < 256) bytes.now }
{
    let next = put_tagged(out, at, INLINE_TAG, &(bytes.len() as u32).to_le_bytes());
    put(out, next, bytes)
}

/// Writes the field of bytes that are kept outside under the number.
fn put_outside(out: &mut [u8], at: usize, bytes: &[u8], number: u32, table: u32) -> usize
    requires short { length bytes.now ≤ VALUE_LIMIT }
    requires room { at + 19 ≤ length out.old }
    ensures end { result ≡ at + 19 }
    ensures written { out.new ≡ with_piece at
        (field_form (OutsideField (record { length = length bytes.now; value = number; table = table }))) out.old }
    ensures small { All (λ b. b < 256) bytes.now }
{
    let length = bytes.len() as u32;
    let pointer = pointer_bytes(Pointer {
        length,
        value: number,
        table,
    });
    put_tagged(out, at, OUTSIDE_TAG, &pointer)
}

/// Writes the field of a value at a place, and answers the place behind it.
fn put_field(
    value: &Value,
    outside: bool,
    number: u64,
    table: u32,
    out: &mut [u8],
    at: usize,
) -> usize
    requires number { IsTrue outside → number < 2 ^ 32 }
    requires short { IfSome (value_length value.now) (λ n. n ≤ VALUE_LIMIT) }
    requires room { at + length (field_form (field_of table number value.now outside)) ≤ length out.old }
    ensures end { result ≡ at + length (field_form (field_of table number value.now outside)) }
    ensures written { out.new ≡ with_piece at (field_form (field_of table number value.now outside)) out.old }
    ensures range { HasRange value.now }
{
    match value {
        Value::Null => put(out, at, &[NULL_TAG]),
        Value::Int(n) => put_tagged(out, at, INLINE_TAG, &n.to_le_bytes()),
        Value::Oid(n) => put_tagged(out, at, INLINE_TAG, &n.to_le_bytes()),
        Value::Bytes(bytes) if outside => put_outside(out, at, bytes.items(), number as u32, table),
        Value::Bytes(bytes) => put_inline(out, at, bytes.items()),
    }
}

/// Writes the fields of values, of which those that are marked are outside, one after another.
fn put_fields(values: &[Value], outside: &[bool], first: u32, table: u32, out: &mut [u8]) -> usize
    requires marks { length outside.now ≡ length values.now }
    requires short { All (λ v. IfSome (value_length v) (λ n. n ≤ VALUE_LIMIT)) values.now }
    requires room { length (row_form (fields_of table first values.now outside.now)) ≤ length out.old }
    requires numbers { first + count_outside outside.now ≤ 2 ^ 32 }
    ensures end { result ≡ length (row_form (fields_of table first values.now outside.now)) }
    ensures form { take result out.new ≡ row_form (fields_of table first values.now outside.now) }
    ensures rest { drop result out.new ≡ drop result out.old }
    ensures range { All HasRange values.now }
{
    let mut at = 0;
    let mut number = u64::from(first);
    for (place, value) in values.iter().enumerate() {
        at = put_field(value, outside[place], number, table, out, at);
        number += u64::from(outside[place]);
    }
    at
}

/// Writes a row at the front of `out`, and answers how many bytes it has. The values outside are numbered one after another
/// from `first`.
pub fn row_bytes(
    columns: &[Column],
    values: &[Value],
    plan: &Plan,
    first: u32,
    table: u32,
    out: &mut [u8],
) -> usize
    requires columns { IsTableColumns columns.now }
    requires values { AreRowValues columns.now values.now }
    requires plan { IsPlanFor columns.now (value_lengths values.now) plan.now }
    requires room { ROW_ROOM ≤ length out.old }
    requires numbers { first + count_outside (outside_of columns.now (value_lengths values.now)) ≤ 2 ^ 32 }
    ensures end { result ≡ length (row_form (planned_fields columns.now table first values.now)) }
    ensures form { take result out.new ≡ row_form (planned_fields columns.now table first values.now) }
    ensures rest { drop result out.new ≡ drop result out.old }
    // What was written is a row.
    ensures row { IsRow columns.now (planned_fields columns.now table first values.now) }
{
    put_fields(values, &plan.outside[..columns.len()], first, table, out)
}
