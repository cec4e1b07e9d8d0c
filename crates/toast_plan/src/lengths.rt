//! The lengths of a row's values, as `plan` takes them.
ghost use Rattle.std.specs.Prelude.{◌≡◌, ◌≤◌, IfSome, length, take};
ghost use Rattle.toast_plan.specs.Columns.{AreLengths};
ghost use Rattle.toast_plan.specs.Row.{FitColumns, value_length, value_lengths};
ghost use Rattle.toast_plan.specs.Rounds.{AreShort};

use crate::layout::COLUMN_LIMIT;
use crate::pointer::VALUE_LIMIT;
use lo_base::{Column, Value};

fn value_length(value: &Value) -> Option<u32>
    requires { IfSome (value_length value.now) (λ n. n ≤ VALUE_LIMIT) }
    ensures { result ≡ value_length value.now }
{
    match value {
        Value::Null => None,
        Value::Int(_) => Some(8),
        Value::Oid(_) => Some(4),
        Value::Bytes(bytes) => Some(bytes.items().len() as u32),
    }
}

/// Writes the lengths of the values.
fn put_lengths(values: &[Value], lengths: &mut [Option<u32>])
    requires room { length lengths.old ≡ length values.now }
    requires short { AreShort (value_lengths values.now) }
    ensures { lengths.new ≡ value_lengths values.now }
{
    for (index, value) in values.iter().enumerate() {
        lengths[index] = value_length(value);
    }
}

/// The lengths in bytes of a row's values, one for each column and none for a null; behind the last column there is none.
pub fn lengths_of(columns: &[Column], values: &[Value]) -> [Option<u32>; COLUMN_LIMIT]
    requires few { length columns.now ≤ COLUMN_LIMIT }
    requires fit { FitColumns columns.now values.now }
    ensures lengths { take (length columns.now) result ≡ value_lengths values.now }
    ensures fit { AreLengths columns.now (value_lengths values.now) }
{
    let mut lengths = [None; COLUMN_LIMIT];
    put_lengths(values, &mut lengths[..columns.len()]);
    lengths
}
