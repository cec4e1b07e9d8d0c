// The causes of refusals: one table, with the SQLSTATE code and the text of each. A new cause is one variant and one arm in
// `code` and in `wording`, and the same in specs/Cause.antt.
ghost use Rattle.std.specs.Prelude.{◌≡◌, ◌++◌, OnOk, OnErr};
ghost use Rattle.lo_base.specs.Cause.{code_of, opening_of, ending_of};
ghost use Rattle.lo_base.specs.Code.{sqlstate_of};
ghost use Rattle.lo_base.specs.Refusal.{text_of};
ghost use Rattle.lo_base.specs.Appended.{AddsFront};
ghost use Rattle.std.specs.Option.{option_copied};

use crate::list::Bytes;
use crate::memory::NoMemory;
use itoa::Buffer;

/// Why a request was refused. Each cause has one SQLSTATE code and one text, in which a number may stand.
#[derive(Clone, Copy, Debug, PartialEq, Eq)]
pub enum Cause {
    Failed,
    NoBlock,
    InBlock,
    NoSavepoint,
    NoObject,
    NoDescriptor,
    NoVariable,
    NoTable,
    TableExists,
    NoColumn,
    WrongType,
    NoRow,
    RowExists,
    ObjectExists,
    NoCursor,
    CursorExists,
    BadMode,
    NotWritable,
    BadWhence,
    BadSeek,
    BadTruncate,
    BadWrite,
    BadLength,
    TooMuch,
    PositionRange,
    BadArray,
    TooManyDescriptors,
    NoOids,
    TooManyTables,
    RowTooBig,
    ArrayTooBig,
    Busy,
    PoolShort,
}

/// An SQLSTATE code (PostgreSQL manual, appendix PostgreSQL Error Codes).
#[derive(Clone, Copy, Debug, PartialEq, Eq)]
pub enum Code {
    C25P02,
    C25P01,
    C25001,
    C3B001,
    C42704,
    C42P01,
    C42P07,
    C42703,
    C42804,
    C02000,
    C23505,
    C34000,
    C42P03,
    C22023,
    C55000,
    C22003,
    C22P02,
    C54000,
    C55P03,
    C53100,
}

/// A request's refusal: its cause, and the number that the cause's text names, 0 where it names none.
#[derive(Clone, Copy, Debug, PartialEq, Eq)]
pub struct Refusal {
    pub cause: Cause,
    pub subject: i64,
}

/// Why a call did nothing: a refusal of the request, or want of memory.
#[derive(Clone, Copy, Debug, PartialEq, Eq)]
pub enum Denied {
    By(Refusal),
    NoMemory,
}

impl From<NoMemory> for Denied {
    ghost use Rattle.std.specs.Prelude.{◌≡◌};
    ghost use Rattle.lo_base.specs.declared.refusal.Denied.TheVariants.{NoMemory as OutOfMemory};

    ghost from_gives = { λ _ d. d ≡ OutOfMemory };

    fn from(_e: NoMemory) -> Denied {
        Denied::NoMemory
    }
}

impl From<Refusal> for Denied {
    ghost use Rattle.std.specs.Prelude.{◌≡◌};
    ghost use Rattle.lo_base.specs.declared.refusal.Denied.TheVariants.{By};

    ghost from_gives = { λ r d. d ≡ By r };

    fn from(r: Refusal) -> Denied {
        Denied::By(r)
    }
}

impl Code {
    /// The five characters of the code.
    pub fn as_str(self) -> &'static str
        ensures { result.now ≡ sqlstate_of self }
    {
        match self {
            Code::C25P02 => "25P02",
            Code::C25P01 => "25P01",
            Code::C25001 => "25001",
            Code::C3B001 => "3B001",
            Code::C42704 => "42704",
            Code::C42P01 => "42P01",
            Code::C42P07 => "42P07",
            Code::C42703 => "42703",
            Code::C42804 => "42804",
            Code::C02000 => "02000",
            Code::C23505 => "23505",
            Code::C34000 => "34000",
            Code::C42P03 => "42P03",
            Code::C22023 => "22023",
            Code::C55000 => "55000",
            Code::C22003 => "22003",
            Code::C22P02 => "22P02",
            Code::C54000 => "54000",
            Code::C55P03 => "55P03",
            Code::C53100 => "53100",
        }
    }
}

impl Cause {
    pub fn code(self) -> Code
        ensures { result ≡ code_of self }
    {
        match self {
            Cause::Failed => Code::C25P02,
            Cause::NoBlock => Code::C25P01,
            Cause::InBlock => Code::C25001,
            Cause::NoSavepoint => Code::C3B001,
            Cause::NoObject | Cause::NoDescriptor | Cause::NoVariable => Code::C42704,
            Cause::NoTable => Code::C42P01,
            Cause::TableExists => Code::C42P07,
            Cause::NoColumn => Code::C42703,
            Cause::WrongType => Code::C42804,
            Cause::NoRow => Code::C02000,
            Cause::RowExists | Cause::ObjectExists => Code::C23505,
            Cause::NoCursor => Code::C34000,
            Cause::CursorExists => Code::C42P03,
            Cause::BadMode
            | Cause::BadWhence
            | Cause::BadSeek
            | Cause::BadTruncate
            | Cause::BadWrite
            | Cause::BadLength
            | Cause::TooMuch => Code::C22023,
            Cause::NotWritable => Code::C55000,
            Cause::PositionRange => Code::C22003,
            Cause::BadArray => Code::C22P02,
            Cause::TooManyDescriptors
            | Cause::NoOids
            | Cause::TooManyTables
            | Cause::RowTooBig
            | Cause::ArrayTooBig => Code::C54000,
            Cause::Busy => Code::C55P03,
            Cause::PoolShort => Code::C53100,
        }
    }

    /// The text up to its number, and what follows the number where the text has one.
    fn wording(self) -> (&'static str, Option<&'static str>)
        ensures opening { result.0.now ≡ opening_of self }
        ensures ending { option_copied result.1 ≡ ending_of self }
    {
        match self {
            Cause::Failed => (
                "current transaction is aborted, commands ignored until end of transaction block",
                None,
            ),
            Cause::NoBlock => ("no transaction block is open", None),
            Cause::InBlock => ("cannot run inside a transaction block", None),
            Cause::NoSavepoint => ("savepoint does not exist", None),
            Cause::NoObject => ("large object ", Some(" does not exist")),
            Cause::NoDescriptor => ("invalid large-object descriptor: ", Some("")),
            Cause::NoVariable => ("variable does not exist", None),
            Cause::NoTable => ("table does not exist", None),
            Cause::TableExists => ("table already exists", None),
            Cause::NoColumn => ("column does not exist", None),
            Cause::WrongType => ("value ", Some(" does not fit its column")),
            Cause::NoRow => ("row ", Some(" does not exist")),
            Cause::RowExists => ("row ", Some(" already exists")),
            Cause::ObjectExists => ("large object ", Some(" already exists")),
            Cause::NoCursor => ("cursor does not exist", None),
            Cause::CursorExists => ("cursor already exists", None),
            Cause::BadMode => ("invalid flags for opening a large object: ", Some("")),
            Cause::NotWritable => (
                "large object descriptor ",
                Some(" was not opened for writing"),
            ),
            Cause::BadWhence => ("invalid whence setting: ", Some("")),
            Cause::BadSeek => ("invalid large object seek target: ", Some("")),
            Cause::BadTruncate => ("invalid large object truncation target: ", Some("")),
            Cause::BadWrite => ("invalid large object write request size: ", Some("")),
            Cause::BadLength => ("requested length cannot be negative", None),
            Cause::TooMuch => ("large object read request is too large: ", Some("")),
            Cause::PositionRange => ("result out of range for large-object descriptor ", Some("")),
            Cause::BadArray => ("malformed array literal", None),
            Cause::TooManyDescriptors => ("too many open large-object descriptors: ", Some("")),
            Cause::NoOids => ("no large object number is free", None),
            Cause::TooManyTables => ("too many tables: ", Some("")),
            Cause::RowTooBig => ("row is too big: size ", Some(", maximum size 8160")),
            Cause::ArrayTooBig => (
                "array size ",
                Some(" exceeds the maximum allowed (1048576)"),
            ),
            Cause::Busy => ("another transaction holds this: ", Some("")),
            Cause::PoolShort => ("no free block: ", Some(" needed")),
        }
    }
}

impl Refusal {
    pub fn code(&self) -> Code
        ensures { result ≡ code_of self.now.cause }
    {
        self.cause.code()
    }

    /// Appends the text. Where there is no memory, a front of it may have been appended.
    pub fn text(&self, out: &mut Bytes) -> Result<(), NoMemory>
        ensures ok { OnOk result (out.new ≡ out.old ++ text_of self.now) }
        ensures err { OnErr result (AddsFront out.old out.new (text_of self.now)) }
    {
        let (opening, ending) = self.cause.wording();
        out.extend(opening.as_bytes())?;
        if let Some(ending) = ending {
            let mut number = Buffer::new();
            out.extend(number.format(self.subject).as_bytes())?;
            out.extend(ending.as_bytes())?;
        }
        Ok(())
    }
}
