// Why a script was not read, and where: readers of a line know the column, and only `read_text` the line.
use lo_base::NoMemory;
use thiserror::Error;

/// A line of a script and a column in it, both from 1. Every line counts, and columns are counted in bytes.
#[derive(Clone, Copy, Debug, PartialEq, Eq)]
pub struct BadLine {
    pub line: u64,
    pub column: u64,
}

/// Why a script was not read.
#[derive(Debug, Drop, Error)]
pub enum ScriptError {
    /// The script is outside the grammar: where the first token begins that is not allowed after those
    /// before it. Where a token is missing, the column is the line's length plus 1.
    #[error("line {} column {}", .0.line, .0.column)]
    Bad(BadLine),
    /// There was no memory for the script. It may be read again.
    #[error("out of memory")]
    NoMemory,
}

impl From<NoMemory> for ScriptError {
    ghost use Rattle.std.specs.Prelude.{◌≡◌};
    ghost use Rattle.lo_script.specs.declared.error.ScriptError.TheVariants.{NoMemory as OutOfMemory};

    ghost from_gives = { λ _ e. e ≡ OutOfMemory };

    fn from(_e: NoMemory) -> ScriptError {
        ScriptError::NoMemory
    }
}

/// Why a line was not read.
#[derive(Debug, Drop)]
pub enum LineError {
    /// The column of the first token that is not allowed after those before it, as in a `BadLine`.
    Bad(u64),
    NoMemory,
}

impl LineError {
    ghost use Rattle.std.specs.Prelude.{◌≡◌};
    ghost use Rattle.lo_script.specs.Answer.{in_line};

    /// The error of a script whose line of that number was not read.
    pub fn in_line(self, line: u64) -> ScriptError
        ensures { result ≡ in_line line self }
    {
        match self {
            LineError::Bad(column) => ScriptError::Bad(BadLine { line, column }),
            LineError::NoMemory => ScriptError::NoMemory,
        }
    }
}

impl From<NoMemory> for LineError {
    ghost use Rattle.std.specs.Prelude.{◌≡◌};
    ghost use Rattle.lo_script.specs.declared.error.LineError.TheVariants.{NoMemory as OutOfMemory};

    ghost from_gives = { λ _ e. e ≡ OutOfMemory };

    fn from(_e: NoMemory) -> LineError {
        LineError::NoMemory
    }
}
