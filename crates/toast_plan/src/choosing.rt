//! The choice of the values that move out: two rounds, each of which moves the longest first and stops as soon as the row is
//! short enough. The lengths that it counts with are those of `layout.rt`.
ghost use Rattle.std.specs.Prelude.{◌≡◌, ◌+◌, ◌-◌, ◌^◌, ◌<◌, ◌≤◌, ◌↔◌, length, take, drop, replicate, false, None, IsErr, IfErr, IfOk, IfSome, option_map};
ghost use Rattle.toast_plan.specs.Columns.{IsTableColumns, AreLengths};
ghost use Rattle.toast_plan.specs.Layout.{up_to_8, header_length};
ghost use Rattle.toast_plan.specs.Choice.{candidate_at, candidates, after_round, outside_of, planned_length, too_long, refused_size, IsPlanFor};
ghost use Rattle.toast_plan.specs.Rounds.{moves_in, seen, first_of, chosen_of, AreShort};

use crate::layout::{
    COLUMN_LIMIT, Plan, ROW_LIMIT, ROW_TARGET, RowTooBig, data_length, header_length, up_to_8,
    value_header,
};
use lo_base::{Column, Storage};

/// What a value has to be above, with its header, to be moved out.
const CANDIDATE_LIMIT: u32 = 24;

/// Whose values move out: those that are to be outside of long rows, or those that are to stay as long as the row fits.
#[derive(Clone, Copy)]
enum Round {
    First,
    Second,
}

/// A value that may move out.
#[derive(Clone, Copy)]
struct Candidate {
    place: usize,
    bytes: u32,
}

fn moves(round: Round, storage: Storage) -> bool
    ensures { result ≡ moves_in round storage }
{
    match round {
        Round::First => matches!(storage, Storage::External | Storage::Extended),
        Round::Second => matches!(storage, Storage::Main),
    }
}

fn candidate_at(
    round: Round,
    place: usize,
    column: &Column,
    length: Option<u32>,
    outside: bool,
) -> Option<Candidate>
    requires { IfSome length (λ n. n ≤ 2 ^ 24) }
    ensures value { option_map seen result ≡ candidate_at (moves_in round) place column.now length outside }
    ensures place { IfSome result (λ c. c.place ≡ place) }
{
    let bytes = length?;
    if moves(round, column.storage)
        && bytes + value_header(column.storage, bytes) > CANDIDATE_LIMIT
        && !outside
    {
        Some(Candidate { place, bytes })
    } else {
        None
    }
}

/// The one of two candidates that goes first. The second is of a later column.
fn chosen_of(best: Option<Candidate>, found: Option<Candidate>) -> Option<Candidate>
    requires { IfSome best (λ b. IfSome found (λ f. b.place < f.place)) }
    ensures value { option_map seen result ≡ chosen_of (option_map seen best) (option_map seen found) }
{
    match (best, found) {
        (Some(best), Some(found)) if found.bytes > best.bytes => Some(found),
        (Some(best), _) => Some(best),
        (None, found) => found,
    }
}

/// The candidate of the round that goes first, if there is one.
fn first_candidate(
    round: Round,
    columns: &[Column],
    lengths: &[Option<u32>],
    outside: &[bool],
) -> Option<Candidate>
    requires lengths { length lengths.now ≡ length columns.now }
    requires short { AreShort lengths.now }
    requires outside { length outside.now ≡ length columns.now }
    ensures value { option_map seen result
        ≡ first_of None (candidates (moves_in round) columns.now lengths.now outside.now) }
    ensures place { IfSome result (λ c. c.place < length columns.now) }
{
    let mut best = None;
    for (place, column) in columns.iter().enumerate() {
        best = chosen_of(
            best,
            candidate_at(round, place, column, lengths[place], outside[place]),
        );
    }
    best
}

/// Moves the candidates of the round out, the first ones first, until the data are no longer than the target.
fn move_out(
    round: Round,
    target: u32,
    columns: &[Column],
    lengths: &[Option<u32>],
    outside: &mut [bool],
)
    requires few { length columns.now ≤ COLUMN_LIMIT }
    requires lengths { length lengths.now ≡ length columns.now }
    requires short { AreShort lengths.now }
    requires outside { length outside.old ≡ length columns.now }
    ensures { outside.new ≡ after_round (moves_in round) target columns.now lengths.now outside.old }
{
    while data_length(columns, lengths, outside) > target {
        let Some(first) = first_candidate(round, columns, lengths, outside) else {
            return;
        };
        outside[first.place] = true;
    }
}

/// Marks the values that the two rounds move out.
fn mark_outside(header: u32, columns: &[Column], lengths: &[Option<u32>], outside: &mut [bool])
    requires few { length columns.now ≤ COLUMN_LIMIT }
    requires lengths { length lengths.now ≡ length columns.now }
    requires short { AreShort lengths.now }
    requires header { header ≡ header_length lengths.now }
    requires inside { outside.old ≡ replicate (length columns.now) false }
    ensures { outside.new ≡ outside_of columns.now lengths.now }
{
    move_out(Round::First, ROW_TARGET - header, columns, lengths, outside);
    move_out(Round::Second, ROW_LIMIT - header, columns, lengths, outside);
}

/// Which values of a row are moved out (PostgreSQL manual, TOAST), the lengths of its values in bytes being given, none for
/// a null: 8 for an int8, 4 for an oid or lo, and at most 16,777,216 for a bytea and for the flat bytes of an int4[].
/// `RowTooBig` where the row has more than 8160 bytes, rounded up to a multiple of 8, with all moved that can be.
pub fn plan(columns: &[Column], lengths: &[Option<u32>]) -> Result<Plan, RowTooBig>
    requires columns { IsTableColumns columns.now }
    requires lengths { AreLengths columns.now lengths.now }
    ensures refused { refused_size result ≡ too_long columns.now lengths.now }
    ensures too_big { IsErr result ↔ (ROW_LIMIT < up_to_8 (planned_length columns.now lengths.now)) }
    ensures rounded { IfErr result (λ e. e.size ≡ up_to_8 (planned_length columns.now lengths.now)) }
    ensures plan { IfOk result (IsPlanFor columns.now lengths.now) }
{
    let header = header_length(lengths);
    let mut outside = [false; COLUMN_LIMIT];
    mark_outside(header, columns, lengths, &mut outside[..columns.len()]);
    let size = header + data_length(columns, lengths, &outside[..columns.len()]);
    let rounded = up_to_8(size);
    if rounded > ROW_LIMIT {
        return Err(RowTooBig {
            size: u64::from(rounded),
        });
    }
    Ok(Plan { size, outside })
}
