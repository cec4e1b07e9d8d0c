//! A row's cells read from its bytes. What is read here is written in `writing.rt`: a change of the form touches both, and
//! `specs/Row.antt`.
ghost use Rattle.std.specs.Prelude.{◌≡◌, ◌↔◌, ◌≤◌, ◌<◌, ◌^◌, All, IsTrue, IfOk, IfSome, IfNone, ℕ, List, ◌++◌, length, map, drop, Ok, Some};
ghost use Rattle.std.specs.Int.{w32, w64, cast_signed};
ghost use Rattle.toast_plan.specs.Columns.{IsTableColumns, AreLengths};
ghost use Rattle.toast_plan.specs.Rounds.{AreShort};
ghost use Rattle.toast_plan.specs.Reading.{Gives, number_front, int_front, oid_front, inline_front, outside_front, value_front, moved_front, tagged_front, cell_front, cells_front, cell_length, cell_lengths, is_cell_outside, StartsWithCell, ArePlanned, AreRowCells, ReadsRow, HasNoRow, row_of};
ghost use Rattle.toast_plan.specs.Row.{Field, row_form, IsRow};

use crate::choosing::plan;
use crate::layout::{COLUMN_LIMIT, POINTER_BYTES};
use crate::pointer::{VALUE_LIMIT, read_pointer};
use crate::writing::{INLINE_TAG, NULL_TAG, OUTSIDE_TAG};
use lo_base::{Cell, Cells, ColType, Column, ListOf, NoMemory};
use std::alloc::Global;

/// A row's cells, and how many bytes it takes.
#[derive(Debug, Drop)]
pub struct ReadRow {
    /// One cell for each column. Those outside name the values' numbers as they stand.
    pub cells: Cells,
    /// How many bytes the row has.
    pub taken: u64,
}

/// Why no row was read.
#[derive(Clone, Copy)]
enum Stop {
    NoRow,
    NoMemory,
}

fn u32_front(bytes: &[u8]) -> Result<(u32, &[u8]), Stop>
    ensures { Gives (λ x. (x.0, x.1.now)) result (number_front w32 bytes.now) }
{
    if bytes.len() < 4 {
        return Err(Stop::NoRow);
    }
    let (front, rest) = bytes.split_at(4);
    Ok((
        u32::from_le_bytes([front[0], front[1], front[2], front[3]]),
        rest,
    ))
}

fn int_front(bytes: &[u8]) -> Result<(Cell, usize), Stop>
    ensures read { Gives (λ x. (x.0, drop x.1 bytes.now)) result (int_front bytes.now) }
    ensures within { IfOk result (λ x. x.1 ≤ length bytes.now) }
{
    if bytes.len() < 8 {
        return Err(Stop::NoRow);
    }
    let (front, _) = bytes.split_at(8);
    let number = i64::from_le_bytes([
        front[0], front[1], front[2], front[3], front[4], front[5], front[6], front[7],
    ]);
    Ok((Cell::Int(number), 8))
}

fn oid_front(bytes: &[u8]) -> Result<(Cell, usize), Stop>
    ensures read { Gives (λ x. (x.0, drop x.1 bytes.now)) result (oid_front bytes.now) }
    ensures within { IfOk result (λ x. x.1 ≤ length bytes.now) }
{
    let (number, _) = u32_front(bytes)?;
    Ok((Cell::Oid(number), 4))
}

fn inline_front(alloc: Global, bytes: &[u8]) -> Result<(Cell, usize), Stop>
    ensures read { Gives (λ x. (x.0, drop x.1 bytes.now)) result (inline_front bytes.now) }
    ensures within { IfOk result (λ x. x.1 ≤ length bytes.now) }
{
    let (length, rest) = u32_front(bytes)?;
    let count = length as usize;
    if length > VALUE_LIMIT || rest.len() < count {
        return Err(Stop::NoRow);
    }
    let (text, _) = rest.split_at(count);
    let Ok(text) = ListOf::from_slice(alloc, text) else {
        return Err(Stop::NoMemory);
    };
    Ok((Cell::Inline(text), 4 + count))
}

fn outside_front(bytes: &[u8]) -> Result<(Cell, usize), Stop>
    ensures read { Gives (λ x. (x.0, drop x.1 bytes.now)) result (outside_front bytes.now) }
    ensures within { IfOk result (λ x. x.1 ≤ length bytes.now) }
{
    if bytes.len() < POINTER_BYTES {
        return Err(Stop::NoRow);
    }
    let (front, _) = bytes.split_at(POINTER_BYTES);
    let Some(p) = read_pointer(front) else {
        return Err(Stop::NoRow);
    };
    let cell = Cell::Outside {
        length: p.length,
        value: u64::from(p.value),
    };
    Ok((cell, POINTER_BYTES))
}

fn value_front(alloc: Global, kind: ColType, bytes: &[u8]) -> Result<(Cell, usize), Stop>
    ensures read { Gives (λ x. (x.0, drop x.1 bytes.now)) result (value_front kind bytes.now) }
    ensures within { IfOk result (λ x. x.1 ≤ length bytes.now) }
{
    match kind {
        ColType::Int8 => int_front(bytes),
        ColType::Oid | ColType::Lo => oid_front(bytes),
        ColType::Bytea | ColType::Int4Array => inline_front(alloc, bytes),
    }
}

fn moved_front(kind: ColType, bytes: &[u8]) -> Result<(Cell, usize), Stop>
    ensures read { Gives (λ x. (x.0, drop x.1 bytes.now)) result (moved_front kind bytes.now) }
    ensures within { IfOk result (λ x. x.1 ≤ length bytes.now) }
{
    match kind {
        ColType::Int8 | ColType::Oid | ColType::Lo => Err(Stop::NoRow),
        ColType::Bytea | ColType::Int4Array => outside_front(bytes),
    }
}

/// The cell that stands behind a tag.
fn tagged_front(alloc: Global, kind: ColType, tag: u8, bytes: &[u8]) -> Result<(Cell, usize), Stop>
    ensures read { Gives (λ x. (x.0, drop x.1 bytes.now)) result (tagged_front kind tag bytes.now) }
    ensures within { IfOk result (λ x. x.1 ≤ length bytes.now) }
{
    match tag {
        NULL_TAG => Ok((Cell::Null, 0)),
        INLINE_TAG => value_front(alloc, kind, bytes),
        OUTSIDE_TAG => moved_front(kind, bytes),
        _ => Err(Stop::NoRow),
    }
}

/// The cell of a column at the front of the bytes, and how many bytes it takes.
fn cell_front(alloc: Global, kind: ColType, bytes: &[u8]) -> Result<(Cell, usize), Stop>
    ensures read { Gives (λ x. (x.0, drop x.1 bytes.now)) result (cell_front kind bytes.now) }
    ensures within { IfOk result (λ x. x.1 ≤ length bytes.now) }
{
    let [tag, rest @ ..] = bytes else {
        return Err(Stop::NoRow);
    };
    let (cell, taken) = tagged_front(alloc, kind, *tag, rest)?;
    Ok((cell, taken + 1))
}

/// The cells of the columns at the front of the bytes, and how many bytes they take.
fn read_cells(alloc: Global, columns: &[Column], bytes: &[u8]) -> Result<(Cells, usize), Stop>
    ensures read { Gives (λ x. (x.0, drop x.1 bytes.now)) result (cells_front columns.now bytes.now) }
    ensures within { IfOk result (λ x. x.1 ≤ length bytes.now) }
{
    let mut cells = ListOf::new(alloc);
    let mut at = 0;
    for column in columns {
        let (_, rest) = bytes.split_at(at);
        let (cell, taken) = cell_front(alloc, column.kind, rest)?;
        if cells.push(cell).is_err() {
            return Err(Stop::NoMemory);
        }
        at += taken;
    }
    Ok((cells, at))
}

fn cell_length(cell: &Cell) -> Option<u32>
    requires { IfSome (cell_length cell.now) (λ n. n ≤ 2 ^ 24) }
    ensures { result ≡ cell_length cell.now }
{
    match cell {
        Cell::Null | Cell::Text(_) => None,
        Cell::Int(_) => Some(8),
        Cell::Oid(_) => Some(4),
        Cell::Inline(bytes) => Some(bytes.items().len() as u32),
        Cell::Outside { length, .. } => Some(*length),
    }
}

/// Writes the lengths of the cells.
fn put_lengths(cells: &[Cell], lengths: &mut [Option<u32>])
    requires room { length lengths.old ≡ length cells.now }
    requires short { AreShort (cell_lengths cells.now) }
    ensures { lengths.new ≡ cell_lengths cells.now }
{
    for (place, cell) in cells.iter().enumerate() {
        lengths[place] = cell_length(cell);
    }
}

fn is_cell_outside(cell: &Cell) -> bool
    ensures { result ≡ is_cell_outside cell.now }
{
    matches!(cell, Cell::Outside { .. })
}

/// Whether exactly the cells outside are marked.
fn are_marked(cells: &[Cell], marks: &[bool]) -> bool
    requires { length marks.now ≡ length cells.now }
    ensures { IsTrue result ↔ (map is_cell_outside cells.now ≡ marks.now) }
{
    for (place, cell) in cells.iter().enumerate() {
        if is_cell_outside(cell) != marks[place] {
            return false;
        }
    }
    true
}

/// Whether exactly those cells are outside that the plan for their lengths moves, and the row is not too big.
fn are_planned_by(columns: &[Column], cells: &[Cell], lengths: &[Option<u32>]) -> bool
    requires columns { IsTableColumns columns.now }
    requires same { length cells.now ≡ length columns.now }
    requires lengths { AreLengths columns.now lengths.now }
    requires own { lengths.now ≡ cell_lengths cells.now }
    ensures { IsTrue result ↔ ArePlanned columns.now cells.now }
{
    match plan(columns, lengths) {
        Ok(plan) => are_marked(cells, &plan.outside[..columns.len()]),
        Err(_) => false,
    }
}

fn are_planned(columns: &[Column], cells: &[Cell]) -> bool
    requires columns { IsTableColumns columns.now }
    requires same { length cells.now ≡ length columns.now }
    requires lengths { AreLengths columns.now (cell_lengths cells.now) }
    ensures { IsTrue result ↔ ArePlanned columns.now cells.now }
{
    let mut lengths = [None; COLUMN_LIMIT];
    put_lengths(cells, &mut lengths[..columns.len()]);
    are_planned_by(columns, cells, &lengths[..columns.len()])
}

fn starts_with_cell(cells: &[Cell]) -> bool
    ensures { IsTrue result ↔ StartsWithCell cells.now }
{
    match cells {
        [] | [Cell::Null, ..] => false,
        [_, ..] => true,
    }
}

/// Whether a row can have these cells: the id is there, and they are planned.
fn are_row_cells(columns: &[Column], cells: &[Cell]) -> bool
    requires columns { IsTableColumns columns.now }
    requires same { length cells.now ≡ length columns.now }
    requires lengths { AreLengths columns.now (cell_lengths cells.now) }
    ensures { IsTrue result ↔ AreRowCells columns.now cells.now }
{
    starts_with_cell(cells) && are_planned(columns, cells)
}

/// Reads one row from the front of the bytes, whatever follows it. It is read with any numbers of values and of tables, and
/// whether the bytes of an int4[] are an array is not looked at: the caller judges these.
pub fn read_row(
    alloc: Global,
    columns: &[Column],
    bytes: &[u8],
) -> Result<Option<ReadRow>, NoMemory>
    requires { IsTableColumns columns.now }
    ensures found { IfOk result (λ o. IfSome o (ReadsRow columns.now bytes.now)) }
    ensures none { IfOk result (λ o. IfNone o (HasNoRow columns.now bytes.now)) }
    // What was written is read back.
    ensures read_back { (fields : List Field) (rest : List ℕ) →
        IsRow columns.now fields → bytes.now ≡ row_form fields ++ rest → IfOk result (λ o. o ≡ Some (row_of fields)) }
{
    let (cells, taken) = match read_cells(alloc, columns, bytes) {
        Ok(found) => found,
        Err(Stop::NoRow) => return Ok(None),
        Err(Stop::NoMemory) => return Err(NoMemory),
    };
    if !are_row_cells(columns, cells.items()) {
        return Ok(None);
    }
    Ok(Some(ReadRow {
        cells,
        taken: taken as u64,
    }))
}
