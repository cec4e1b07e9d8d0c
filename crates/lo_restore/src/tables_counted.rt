// How many values outside tables have, and into how many chunks these are cut: both have to fit 32 bits in an image.
ghost use Rattle.std.specs.Prelude.{◌≡◌, ◌<◌, ◌≤◌, ◌+◌, ◌*◌, ◌^◌, ◌↔◌, All, IsTrue, IfNone, IfSome, None, length};
ghost use Rattle.std.specs.List.{AllByRecursion};
ghost use Rattle.toast_plan.specs.Choice.{IsPlanFor};
ghost use Rattle.toast_plan.specs.Columns.{IsTableColumns};
ghost use Rattle.toast_plan.specs.Row.{count_outside, value_lengths};
ghost use Rattle.lo_opening.specs.Opening.{AreTables, marked_chunks, marks_of, row_outside, rows_chunks, rows_outside, tables_chunks, value_chunks};
ghost use Rattle.lo_restore.specs.Tables.{tables_outside};
ghost use Rattle.lo_restore.specs.TablesCounted.{AreTooMany, HasPlans, IsShortValue, IsSumOf, no_counts};
ghost use Rattle.lo_restore.specs.TablesSaved.{AreCountable, IsRowOf, IsTable};

use lo_base::{Column, Value, Values};
use lo_opening::TableData;
use toast_plan::{Plan, lengths_of, plan};

/// The bytes of a chunk.
const CHUNK_BYTES: u64 = 1996;

/// The first number that does not fit 32 bits.
const LIMIT: u64 = 1 << 32;

/// How many values outside there are, and how many chunks.
#[derive(Clone, Copy)]
pub(crate) struct Counts {
    pub(crate) values: u64,
    pub(crate) chunks: u64,
}

/// How many chunks the values outside of tables are cut into: so many blocks stand before those of objects.
pub fn chunks_held(list: &[TableData]) -> u64
    requires rules { AreTables None 1 1 list.now }
    requires few { tables_chunks list.now < 2 ^ 32 }
    ensures { result ≡ tables_chunks list.now }
{
    let Some(counts) = counts_in(list) else {
        unreachable!();
    };
    counts.chunks
}

/// Whether the values outside of tables can be numbered from 1 on, and their chunks counted, in 32 bits.
pub(crate) fn are_countable(list: &[TableData]) -> bool
    requires { AllByRecursion IsTable list.now }
    ensures { IsTrue result ↔ AreCountable list.now }
{
    counts_in(list).is_some()
}

/// The counts of tables, or none where one of them does not fit 32 bits.
fn counts_in(list: &[TableData]) -> Option<Counts>
    requires { AllByRecursion HasPlans list.now }
    ensures some { IfSome result (IsSumOf no_counts (tables_outside list.now)
        (tables_chunks list.now)) }
    ensures none { IfNone result (AreTooMany no_counts (tables_outside list.now)
        (tables_chunks list.now)) }
{
    let mut counts = Counts {
        values: 0,
        chunks: 0,
    };
    for table in list {
        counts = after_rows(table.columns.items(), table.rows.items(), counts)?;
    }
    Some(counts)
}

/// The counts with those of a table's rows, or none where one of them does not fit 32 bits.
fn after_rows(columns: &[Column], rows: &[Values], before: Counts) -> Option<Counts>
    requires columns { IsTableColumns columns.now }
    requires rows { AllByRecursion (IsRowOf columns.now) rows.now }
    requires values { before.values < 2 ^ 32 }
    requires chunks { before.chunks < 2 ^ 32 }
    ensures some { IfSome result (IsSumOf before (rows_outside columns.now rows.now)
        (rows_chunks columns.now rows.now)) }
    ensures none { IfNone result (AreTooMany before (rows_outside columns.now rows.now)
        (rows_chunks columns.now rows.now)) }
{
    let mut counts = before;
    for row in rows {
        let more = counts_of(columns, row.items());
        counts = Counts {
            values: counts.values + more.values,
            chunks: counts.chunks + more.chunks,
        };
        if counts.values >= LIMIT || counts.chunks >= LIMIT {
            return None;
        }
    }
    Some(counts)
}

/// The counts of a row.
fn counts_of(columns: &[Column], values: &[Value]) -> Counts
    requires columns { IsTableColumns columns.now }
    requires row { IsRowOf columns.now values.now }
    ensures values { result.values ≡ row_outside columns.now values.now }
    ensures chunks { result.chunks ≡ marked_chunks values.now (marks_of columns.now values.now) }
    ensures few { result.values < 2 ^ 32 }
    ensures small { result.chunks < 2 ^ 32 }
{
    let plan = plan_of(columns, values);
    marked_counts(values, &plan.outside[..columns.len()])
}

/// The plan of a row's values.
fn plan_of(columns: &[Column], values: &[Value]) -> Plan
    requires columns { IsTableColumns columns.now }
    requires row { IsRowOf columns.now values.now }
    ensures { IsPlanFor columns.now (value_lengths values.now) result }
{
    let lengths = lengths_of(columns, values);
    let Ok(plan) = plan(columns, &lengths[..columns.len()]) else {
        unreachable!();
    };
    plan
}

/// The counts of the marked values of a row.
fn marked_counts(values: &[Value], marks: &[bool]) -> Counts
    requires marks { length marks.now ≡ length values.now }
    requires few { length values.now ≤ 32 }
    requires short { All IsShortValue values.now }
    ensures values { result.values ≡ count_outside marks.now }
    ensures chunks { result.chunks ≡ marked_chunks values.now marks.now }
    ensures few { result.values < 2 ^ 32 }
    ensures small { result.chunks < 2 ^ 32 }
{
    let mut counts = Counts {
        values: 0,
        chunks: 0,
    };
    for (place, value) in values.iter().enumerate() {
        if marks[place] {
            counts = Counts {
                values: counts.values + 1,
                chunks: counts.chunks + chunks_of(value),
            };
        }
    }
    counts
}

/// Into how many chunks a value is cut.
fn chunks_of(value: &Value) -> u64
    requires { IsShortValue value.now }
    ensures chunks { result ≡ value_chunks value.now }
    ensures few { result < 2 ^ 24 }
{
    match value {
        Value::Bytes(bytes) => (bytes.items().len() as u64 + CHUNK_BYTES - 1) / CHUNK_BYTES,
        Value::Null | Value::Int(_) | Value::Oid(_) => 0,
    }
}
