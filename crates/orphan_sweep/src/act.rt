//! What a sweep asks for and what it is told.
use lo_base::{ListOf, Name, Oid, Oids};

/// A column whose values are numbers of large objects, in use as long as a row has them.
#[derive(Debug, Drop)]
pub struct Scan {
    /// The table's name.
    pub table: Name,
    /// The column's name.
    pub column: Name,
}

/// The columns to scan, in the order in which they are scanned.
pub type Scans = ListOf<Scan>;

/// What a sweep does next.
#[derive(Debug, Drop)]
pub enum SweepAct {
    /// Find the numbers in a column.
    Scan { table: Name, column: Name },
    /// Begin the transaction of a group.
    Begin,
    /// Remove this object.
    Unlink(Oid),
    /// Commit the group.
    Commit,
    /// Undo the group in which an object could not be removed.
    Rollback,
    /// Say what was removed.
    Report,
    /// Nothing: the report was made.
    Idle,
}

/// What came of an act.
#[derive(Debug, Drop)]
pub enum Told {
    /// The numbers in the column that was scanned, in any order and any number of times.
    Found(Oids),
    /// The act was done.
    Granted,
    /// The object could not be removed.
    Refused,
}
