//! The values outside of rows that are written: their plan, their numbers, and into how many chunks they
//! are cut.
ghost use Rattle.std.specs.Prelude.{◌≡◌, ◌<◌, ◌≤◌, ◌+◌, ◌^◌, All, length};
ghost use Rattle.toast_plan.specs.Columns.{IsTableColumns};
ghost use Rattle.toast_plan.specs.Layout.{up_to_8};
ghost use Rattle.toast_plan.specs.Choice.{IsPlanFor, planned_length};
ghost use Rattle.toast_plan.specs.Row.{AreRowValues, count_outside, value_lengths};
ghost use Rattle.lo_opening.specs.Opening.{value_chunks, marked_chunks};
ghost use Rattle.lo_image.specs.Writing.{IsShortValue};

use crate::values::pieces_of;
use lo_base::{Column, Value};
use toast_plan::{Plan, lengths_of, plan};

/// Where the next value outside may stand: its number, and how many chunks stand before it.
#[derive(Clone, Copy)]
pub(crate) struct ValuePlace {
    pub(crate) value: u64,
    pub(crate) chunks: u64,
}

/// The plan of a row's values.
pub(crate) fn plan_of(columns: &[Column], values: &[Value]) -> Plan
    requires columns { IsTableColumns columns.now }
    requires values { AreRowValues columns.now values.now }
    requires fits { up_to_8 (planned_length columns.now (value_lengths values.now)) ≤ 8160 }
    ensures { IsPlanFor columns.now (value_lengths values.now) result }
{
    let lengths = lengths_of(columns, values);
    let Ok(plan) = plan(columns, &lengths[..columns.len()]) else {
        unreachable!();
    };
    plan
}

fn value_chunks(value: &Value) -> u64
    requires { IsShortValue value.now }
    ensures { result ≡ value_chunks value.now }
{
    match value {
        Value::Bytes(bytes) => pieces_of(bytes.items().len() as u32),
        Value::Null | Value::Int(_) | Value::Oid(_) => 0,
    }
}

/// What the values of a row leave to those behind: the marked ones are outside.
pub(crate) fn after_values(values: &[Value], marks: &[bool], before: ValuePlace) -> ValuePlace
    requires marks { length marks.now ≡ length values.now }
    requires short { All IsShortValue values.now }
    requires numbers { before.value + count_outside marks.now ≤ 2 ^ 32 }
    requires few { before.chunks + marked_chunks values.now marks.now < 2 ^ 32 }
    ensures value { result.value ≡ before.value + count_outside marks.now }
    ensures chunks { result.chunks ≡ before.chunks + marked_chunks values.now marks.now }
{
    let mut next = before;
    for (place, value) in values.iter().enumerate() {
        if marks[place] {
            next = ValuePlace {
                value: next.value + 1,
                chunks: next.chunks + value_chunks(value),
            };
        }
    }
    next
}
