//! How long a row is: headers, alignments and limits. The numbers are those of PostgreSQL's manual (TOAST; Database Page
//! Layout); nothing is chosen here.
ghost use Rattle.std.specs.Prelude.{◌≡◌, ◌+◌, ◌*◌, ◌^◌, ◌<◌, ◌≤◌, length, IfSome, is_none};
ghost use Rattle.std.specs.List.{list_any};
ghost use Rattle.toast_plan.specs.Rounds.{AreShort};
ghost use Rattle.toast_plan.specs.Layout.{up_to_4, up_to_8, has_short_header, value_header, value_end, field_end, data_length, header_length};

use lo_base::{ColType, Column, Storage};

/// The most columns of a table.
pub const COLUMN_LIMIT: usize = 32;

/// The most bytes of a row, rounded up to a multiple of 8.
pub const ROW_LIMIT: u32 = 8160;

/// What rows are to have at most, as long as there are values of EXTERNAL or EXTENDED to move out.
pub const ROW_TARGET: u32 = 2032;

/// The most bytes of a value behind a header of one byte.
const SHORT_LIMIT: u32 = 126;

/// The bytes that a value leaves in its row when it moves out.
pub const POINTER_BYTES: usize = 18;

/// Where the values of a row stand.
#[derive(Clone, Copy, Debug, PartialEq, Eq)]
pub struct Plan {
    /// The row's length in bytes, not rounded.
    pub size: u32,
    /// Whether the value of the column at that place is outside. Behind the last column it is false.
    pub outside: [bool; COLUMN_LIMIT],
}

/// A row that is too long even with all values outside that may move.
#[derive(Clone, Copy, Debug, PartialEq, Eq)]
pub struct RowTooBig {
    /// The row's length in bytes, rounded up to a multiple of 8.
    pub size: u64,
}

fn up_to_4(n: u32) -> u32
    requires { n < 2 ^ 31 }
    ensures { result ≡ up_to_4 n }
{
    (n + 3) / 4 * 4
}

pub(crate) fn up_to_8(n: u32) -> u32
    requires { n < 2 ^ 31 }
    ensures { result ≡ up_to_8 n }
{
    (n + 7) / 8 * 8
}

fn has_short_header(storage: Storage, length: u32) -> bool
    ensures { result ≡ has_short_header storage length }
{
    match storage {
        Storage::Plain => false,
        Storage::External | Storage::Extended | Storage::Main => length <= SHORT_LIMIT,
    }
}

pub(crate) fn value_header(storage: Storage, length: u32) -> u32
    ensures { result ≡ value_header storage length }
{
    if has_short_header(storage, length) {
        1
    } else {
        4
    }
}

/// Where a value ends that is put at the place `at` of a row's data.
fn value_end(kind: ColType, storage: Storage, length: u32, at: u32) -> u32
    requires length { length ≤ 2 ^ 24 }
    requires at { at < 2 ^ 30 }
    ensures end { result ≡ value_end kind storage length at }
    ensures bound { result ≤ at + 2 ^ 25 }
{
    match kind {
        ColType::Int8 => up_to_8(at) + length,
        ColType::Oid | ColType::Lo => up_to_4(at) + length,
        ColType::Bytea | ColType::Int4Array => {
            if has_short_header(storage, length) {
                at + 1 + length
            } else {
                up_to_4(at) + 4 + length
            }
        }
    }
}

/// Where a column's part of the data ends.
fn field_end(column: &Column, length: Option<u32>, outside: bool, at: u32) -> u32
    requires length { IfSome length (λ n. n ≤ 2 ^ 24) }
    requires at { at < 2 ^ 30 }
    ensures end { result ≡ field_end column.now length outside at }
    ensures bound { result ≤ at + 2 ^ 25 }
{
    match length {
        None => at,
        Some(_) if outside => at + POINTER_BYTES as u32,
        Some(length) => value_end(column.kind, column.storage, length, at),
    }
}

/// The length of a row's data with these of its values outside.
pub(crate) fn data_length(columns: &[Column], lengths: &[Option<u32>], outside: &[bool]) -> u32
    requires few { length columns.now ≤ COLUMN_LIMIT }
    requires lengths { length lengths.now ≡ length columns.now }
    requires short { AreShort lengths.now }
    requires outside { length outside.now ≡ length columns.now }
    ensures length { result ≡ data_length columns.now lengths.now outside.now }
    ensures bound { result ≤ 2 ^ 30 }
{
    let mut at = 0;
    for (place, column) in columns.iter().enumerate() {
        at = field_end(column, lengths[place], outside[place], at);
    }
    at
}

fn has_null(lengths: &[Option<u32>]) -> bool
    ensures { result ≡ list_any is_none lengths.now }
{
    lengths.iter().any(|length| length.is_none())
}

/// The length of a row's header.
pub(crate) fn header_length(lengths: &[Option<u32>]) -> u32
    requires { length lengths.now ≤ COLUMN_LIMIT }
    ensures length { result ≡ header_length lengths.now }
    ensures bound { result ≤ COLUMN_LIMIT }
{
    let bitmap = if has_null(lengths) {
        (lengths.len() as u32 + 7) / 8
    } else {
        0
    };
    up_to_8(23 + bitmap)
}
