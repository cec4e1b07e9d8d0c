// Rows as replies have them, and the array of a row's column: the bytes of an array column are flat.
ghost use Rattle.std.specs.Prelude.{◌≡◌, ◌↔◌, pos, List, Some, None, IfOk, IfErr, IsTrue, drop};
ghost use Rattle.expanded_array.specs.Flat.{IsFlat};
ghost use Rattle.expanded_array.specs.Layout.{array_in};
ghost use Rattle.lo_base.specs.declared.refusal.Cause.TheVariants.{WrongType};
ghost use Rattle.lo_base.specs.declared.value.Value.{Value};
ghost use Rattle.lo_pages.specs.Outcome.{first_of};
ghost use Rattle.row_tables.specs.Terms.{refusal};
ghost use Rattle.row_tables.specs.Values as rows;
ghost use Rattle.lo_machine.specs.ArrayRows.{no_array};
ghost use Rattle.lo_machine.specs.FlatRows.{AreFlatCells, IsFlatCell, array_cell, told_cell};
ghost use Rattle.lo_machine.specs.Literals.{IsArrayOf};
ghost use Rattle.lo_machine.specs.Values.{cells_of};

use expanded_array::{ArrayVar, is_flat};
use lo_base::{Bytes, Cause, Cell, Cells, ColType, Column, Name, NoMemory, Refusal};
use std::alloc::Global;

/// Whether a row has a value for each column, and flat bytes in those of arrays. It costs the values.
pub(crate) fn are_flat(columns: &[Column], row: &[Cell]) -> bool
    ensures { IsTrue result ↔ AreFlatCells columns.now row.now }
{
    if columns.len() != row.len() {
        return false;
    }
    for (index, cell) in row.iter().enumerate() {
        if !is_flat_cell(columns[index].kind, cell) {
            return false;
        }
    }
    true
}

/// Whether a value is one of its column: null or flat bytes where the column has arrays.
fn is_flat_cell(kind: ColType, cell: &Cell) -> bool
    ensures { IsTrue result ↔ IsFlatCell kind cell.now }
{
    match kind {
        ColType::Int4Array => match cell {
            Cell::Null => true,
            Cell::Inline(flat) => is_flat(flat.items()),
            Cell::Int(_) | Cell::Oid(_) | Cell::Text(_) | Cell::Outside { .. } => false,
        },
        ColType::Int8 | ColType::Oid | ColType::Lo | ColType::Bytea => true,
    }
}

/// A row as a reply has it: the value of an array column is the array's text. It costs the texts.
pub(crate) fn reply_cells(alloc: Global, columns: &[Column], row: Cells) -> Result<Cells, NoMemory>
    requires flat { AreFlatCells columns.now row }
    ensures { (values : List Value) → row ≡ rows.cells_of values →
        IfOk result (λ cells. cells ≡ cells_of columns.now values) }
{
    let mut cells = Cells::new(alloc);
    let mut left = columns;
    for cell in row.into_vec() {
        cells.push(reply_cell(alloc, left[0].kind, cell)?)?;
        left = next_columns(left);
    }
    Ok(cells)
}

/// The columns behind the first one.
fn next_columns(columns: &[Column]) -> &[Column]
    ensures { result.now ≡ drop 1 columns.now }
{
    match columns {
        [] => columns,
        [_, others @ ..] => others,
    }
}

/// One value as a reply has it.
fn reply_cell(alloc: Global, kind: ColType, cell: Cell) -> Result<Cell, NoMemory>
    requires flat { IsFlatCell kind cell }
    ensures { IfOk result (λ answer. answer ≡ told_cell kind cell) }
{
    match (kind, cell) {
        (ColType::Int4Array, Cell::Inline(flat)) => {
            let mut text = Bytes::new(alloc);
            array_in(flat).text(&mut text)?;
            Ok(Cell::Text(text))
        }
        (_, cell) => Ok(cell),
    }
}

/// The array of flat bytes.
fn array_in(flat: Bytes) -> ArrayVar
    requires { IsFlat flat }
    ensures { result ≡ array_in flat }
{
    ArrayVar::from_flat(flat)
}

/// The array of a row's column. It is refused with `NoColumn`, and with `WrongType` where the column has no arrays or the value is
/// null.
pub(crate) fn array_of(columns: &[Column], name: &Name, row: Cells) -> Result<ArrayVar, Refusal>
    requires flat { AreFlatCells columns.now row }
    ensures ok { (values : List Value) → row ≡ rows.cells_of values →
        IfOk result (IsArrayOf name.now columns.now values) }
    ensures err { (values : List Value) → row ≡ rows.cells_of values →
        IfErr result (λ r. first_of (no_array name.now columns.now values) ≡ Some r) }
{
    let mut left = columns;
    for cell in row.into_vec() {
        let column = &left[0];
        if column.name.items() == name.items() {
            return array_of_cell(column.kind, cell);
        }
        left = next_columns(left);
    }
    Err(refused(Cause::NoColumn))
}

/// The array of one cell. It is refused with `WrongType` where it is none.
fn array_of_cell(kind: ColType, cell: Cell) -> Result<ArrayVar, Refusal>
    requires flat { IsFlatCell kind cell }
    ensures ok { IfOk result (λ a. array_cell kind cell ≡ Some a) }
    ensures none { IfErr result (λ r. array_cell kind cell ≡ None) }
    ensures err { IfErr result (λ r. r ≡ refusal WrongType (pos 3)) }
{
    match (kind, cell) {
        (ColType::Int4Array, Cell::Inline(flat)) => Ok(array_in(flat)),
        _ => Err(refused(Cause::WrongType)),
    }
}

/// A refusal of the third word behind the form's.
fn refused(cause: Cause) -> Refusal
    ensures { result ≡ refusal cause (pos 3) }
{
    Refusal { cause, subject: 3 }
}
