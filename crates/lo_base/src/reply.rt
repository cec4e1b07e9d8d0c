use crate::Oid;
use crate::list::{Bytes, Ids};
use crate::refusal::Refusal;
use crate::value::Cells;

/// The answer to one request: a variant for each shape of a printed line.
#[derive(Debug, Drop)]
pub enum Reply {
    Word(Word),
    Number(i64),
    /// Bytes, printed as `\x` and hexadecimal digits.
    Content(Bytes),
    /// A null, or an element outside an array's bounds.
    Nothing,
    /// A row's values. An array among them is `Cell::Text`, any other value of variable length `Cell::Inline`.
    Row(Cells),
    Ids(Ids),
    /// The text of an array.
    Text(Bytes),
    /// A word and a number: how many were listed, removed, or stored anew.
    Counted { what: Word, count: u64 },
    /// The report of a clean-up that was stopped: the object whose removal was refused, and how many were removed before.
    Stopped { oid: Oid, removed: u64 },
    Refused(Refusal),
}

/// The fixed words of replies. Those from `Listed` on stand with a number.
#[derive(Clone, Copy, Debug, PartialEq, Eq)]
pub enum Word {
    Begin,
    Commit,
    Rollback,
    Savepoint,
    Release,
    CreateTable,
    Insert,
    Update,
    Delete,
    Declare,
    Close,
    Vacuum,
    Idle,
    Ok,
    Listed,
    Scanned,
    Removed,
    WouldRemove,
    Rewrite,
}
