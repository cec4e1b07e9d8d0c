//! Why a command makes nothing.
use lo_base::{Bytes, NoMemory};
use lo_outside::Failed;

/// Why a command makes nothing.
#[derive(Debug, Drop)]
pub enum Stop {
    /// A file cannot be used, as the line for standard error says.
    BadInput(Bytes),
    /// A request was refused, as the line for standard error says.
    Refused(Bytes),
    /// A file failed.
    Fault,
    /// There was not memory enough.
    NoMemory,
}

impl From<Failed> for Stop {
    ghost use Rattle.std.specs.Prelude.{◌≡◌};
    ghost use Rattle.lo_tool.specs.declared.stop.Stop.TheVariants.{Fault};

    ghost from_gives = { λ _ stop. stop ≡ Fault };

    fn from(_e: Failed) -> Stop {
        Stop::Fault
    }
}

impl From<NoMemory> for Stop {
    ghost use Rattle.std.specs.Prelude.{◌≡◌};
    ghost use Rattle.lo_tool.specs.declared.stop.Stop.TheVariants.{NoMemory as OutOfMemory};

    ghost from_gives = { λ _ stop. stop ≡ OutOfMemory };

    fn from(_e: NoMemory) -> Stop {
        Stop::NoMemory
    }
}
