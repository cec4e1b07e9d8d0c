use crate::list::{Bytes, ListOf, Name};

/// A column's value in a row.
#[derive(Debug, Drop)]
pub enum Value {
    Null,
    Int(i64),
    Oid(u32),
    /// A `bytea`, or the flat bytes of an `int4[]`.
    Bytes(Bytes),
}

/// A value as a script spells it.
#[derive(Debug, Drop)]
pub enum Literal {
    Null,
    Number(i64),
    Bytes(Bytes),
    /// The text of an array, not looked at yet.
    ArrayText(Bytes),
    /// The name of an array variable.
    Variable(Name),
}

/// A column's value as it is kept or answered.
#[derive(Debug, Drop)]
pub enum Cell {
    Null,
    Int(i64),
    Oid(u32),
    Inline(Bytes),
    /// An array's text, in replies alone.
    Text(Bytes),
    /// A value moved out of its row: the length in bytes, and the number that its chunks are kept under.
    Outside { length: u32, value: u64 },
}

/// A row.
pub type Values = ListOf<Value>;

/// The literals of an `insert`, one for each column.
pub type Literals = ListOf<Literal>;

/// A row as it is kept or answered.
pub type Cells = ListOf<Cell>;

/// Rows of a table.
pub type RowList = ListOf<Values>;
