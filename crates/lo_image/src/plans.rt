// Whether a row's values lie where its plan has them: the test of a row that was read. It knows no bytes.
ghost use Rattle.std.specs.Prelude.{◌≡◌, ◌≤◌, ◌↔◌, IsTrue, IfSome, length, map};
ghost use Rattle.toast_plan.specs.Columns.{AreLengths, IsTableColumns};
ghost use Rattle.toast_plan.specs.Reading.{ArePlanned, cell_length, cell_lengths, is_cell_outside};
ghost use Rattle.toast_plan.specs.Rounds.{AreShort};

use lo_base::{Cell, Column};
use toast_plan::{COLUMN_LIMIT, VALUE_LIMIT, plan};

fn cell_length(cell: &Cell) -> Option<u32>
    requires { IfSome (cell_length cell.now) (λ n. n ≤ VALUE_LIMIT) }
    ensures { result ≡ cell_length cell.now }
{
    match cell {
        Cell::Null | Cell::Text(_) => None,
        Cell::Int(_) => Some(8),
        Cell::Oid(_) => Some(4),
        Cell::Inline(bytes) => Some(bytes.items().len() as u32),
        Cell::Outside { length, .. } => Some(*length),
    }
}

/// Writes the lengths of the cells.
fn put_lengths(cells: &[Cell], lengths: &mut [Option<u32>])
    requires room { length lengths.old ≡ length cells.now }
    requires short { AreShort (cell_lengths cells.now) }
    ensures { lengths.new ≡ cell_lengths cells.now }
{
    for (index, cell) in cells.iter().enumerate() {
        lengths[index] = cell_length(cell);
    }
}

/// Whether exactly the cells outside are marked.
fn are_marked(cells: &[Cell], marks: &[bool]) -> bool
    requires { length marks.now ≡ length cells.now }
    ensures { IsTrue result ↔ (map is_cell_outside cells.now ≡ marks.now) }
{
    for (index, cell) in cells.iter().enumerate() {
        if matches!(cell, Cell::Outside { .. }) != marks[index] {
            return false;
        }
    }
    true
}

fn are_planned_by(columns: &[Column], cells: &[Cell], lengths: &[Option<u32>]) -> bool
    requires columns { IsTableColumns columns.now }
    requires same { length cells.now ≡ length columns.now }
    requires lengths { AreLengths columns.now lengths.now }
    requires own { lengths.now ≡ cell_lengths cells.now }
    ensures { IsTrue result ↔ ArePlanned columns.now cells.now }
{
    match plan(columns, lengths) {
        Ok(plan) => are_marked(cells, &plan.outside[..columns.len()]),
        Err(_) => false,
    }
}

/// Whether exactly those cells are outside that the plan for their lengths moves, and the row is not too big.
pub(crate) fn are_planned(columns: &[Column], cells: &[Cell]) -> bool
    requires columns { IsTableColumns columns.now }
    requires same { length cells.now ≡ length columns.now }
    requires lengths { AreLengths columns.now (cell_lengths cells.now) }
    ensures { IsTrue result ↔ ArePlanned columns.now cells.now }
{
    let mut lengths = [None; COLUMN_LIMIT];
    put_lengths(cells, &mut lengths[..cells.len()]);
    are_planned_by(columns, cells, &lengths[..cells.len()])
}
