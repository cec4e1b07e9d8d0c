// The requests: one variant for each form of a script's line. What each does stands in lo_machine, how it is spelled in
// lo_script; here are only the names and the types of the arguments, which follow the form's order.
use crate::Oid;
use crate::column::ColumnList;
use crate::list::{Bytes, ListOf, Name};
use crate::value::{Literal, Literals};

/// One line of a session's program: a variant for each form, named by the form's words.
#[derive(Debug, Drop)]
pub enum Request {
    // Transactions.
    Begin,
    Commit,
    Rollback,
    Savepoint(Name),
    Release(Name),
    RollbackTo(Name),

    // Large objects (PostgreSQL manual, chapter Large Objects). A descriptor is an i32, as there.
    /// A new object under a picked number. The mode is not looked at.
    LoCreat(i32),
    /// A new object of this number, or of a picked one for 0.
    LoCreate(Oid),
    /// The object and the mode, whose bits are INV_READ and INV_WRITE.
    LoOpen(Oid, i32),
    LoClose(i32),
    /// The descriptor, and how many bytes at most.
    LoRead(i32, i32),
    LoWrite(i32, Bytes),
    /// The descriptor, the offset, and whence: 0 from the start, 1 from the position, 2 from the end.
    LoLseek(i32, i32, i32),
    LoLseek64(i32, i64, i32),
    LoTell(i32),
    LoTell64(i32),
    /// The descriptor and the new size.
    LoTruncate(i32, i32),
    LoTruncate64(i32, i64),
    LoUnlink(Oid),
    /// The object, the offset of the first byte, and how many bytes at most, or all up to the end.
    LoGet(Oid, i64, Option<i32>),
    /// The object, the offset of the first byte, and the bytes.
    LoPut(Oid, i64, Bytes),
    /// A new object of these bytes, under this number or a picked one for 0.
    LoFromBytea(Oid, Bytes),

    // Tables and cursors. A row is named by its table and its id.
    CreateTable(Name, ColumnList),
    Insert(Name, Literals),
    Update(Name, i64, Assignments),
    Delete(Name, i64),
    Get(Name, i64),
    Ids(Name),
    /// The row, the column, the offset of the first byte, and how many bytes at most.
    Slice(Name, i64, Name, i64, i64),
    /// The cursor, and its row.
    Declare(Name, Name, i64),
    /// The cursor, the column, the offset of the first byte, and how many bytes at most.
    Fetch(Name, Name, i64, i64),
    Close(Name),
    /// The table, and the columns with new storages. Their types are not looked at.
    Rewrite(Name, ColumnList),
    Vacuum,

    // Array variables, each of one session.
    Array(Name, Bytes),
    /// The variable, the row, and the column that it is loaded from.
    Load(Name, Name, i64, Name),
    /// The variable, the subscript, and the element.
    Set(Name, i32, Option<i32>),
    Elem(Name, i32),
    Show(Name),

    // Clean-ups of orphans.
    /// Whether it is a dry run, and the most objects that are removed in one transaction, or 0 for all.
    Vacuumlo(bool, u32),
    Step,
    Finish,
}

/// A program, or a part of one.
pub type Requests = ListOf<Request>;

/// A column's new value in an `update`.
#[derive(Debug, Drop)]
pub struct Assign {
    pub column: Name,
    pub value: Literal,
}

/// The changes of an `update`, in the order of its line.
pub type Assignments = ListOf<Assign>;
