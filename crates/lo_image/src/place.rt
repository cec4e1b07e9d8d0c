//! Where the next record may stand: what the records before it leave.
ghost use Rattle.std.specs.Prelude.{◌≡◌};

use lo_base::{Cells, ColumnList, ListOf, Name};

/// Where the next block of an object may stand: the least number that follows the order, how many blocks are left to read,
/// and how many are held by then.
#[derive(Clone, Copy)]
pub struct BlockPlace {
    pub least: u64,
    pub left: u32,
    pub held: u64,
}

/// Where the next object may stand: the least number that follows the order, and how many blocks are held by then.
#[derive(Clone, Copy)]
pub struct ObjectPlace {
    pub least: u64,
    pub held: u64,
}

/// Where the next row may stand: the last id, and the number of the next value outside.
#[derive(Clone, Copy)]
pub struct RowPlace {
    pub last: Option<i64>,
    pub value: u64,
}

/// Where the next chunk of a value may stand: its number, and how many bytes are left.
#[derive(Clone, Copy)]
pub struct ChunkPlace {
    pub number: u32,
    pub left: u32,
}

/// A table as it is read first: the values outside are not there yet.
#[derive(Drop)]
pub struct TableCells {
    pub name: Name,
    pub columns: ColumnList,
    pub rows: ListOf<Cells>,
}

/// Tables as they are read first.
pub type TableCellsList = ListOf<TableCells>;
