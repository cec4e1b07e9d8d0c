use crate::list::{ListOf, Name};

/// A column's type.
#[derive(Clone, Copy, Debug, PartialEq, Eq)]
pub enum ColType {
    Int8,
    Oid,
    /// The oid of a large object, which `vacuumlo` looks for as it does in a column of type oid.
    Lo,
    Bytea,
    /// A one-dimensional array of int4.
    Int4Array,
}

/// How a column's long values may be stored (PostgreSQL manual, chapter TOAST). Nothing is ever compressed.
#[derive(Clone, Copy, Debug, PartialEq, Eq)]
pub enum Storage {
    /// Always in the row, with a header of 4 bytes.
    Plain,
    External,
    /// As `External`, since nothing is compressed.
    Extended,
    /// Out of the row only where the row would not fit otherwise.
    Main,
}

/// A column of a table: its name, its type, and how its long values may be stored.
#[derive(Debug, Drop)]
pub struct Column {
    pub name: Name,
    pub kind: ColType,
    pub storage: Storage,
}

/// The columns of a table, in its order.
pub type ColumnList = ListOf<Column>;
