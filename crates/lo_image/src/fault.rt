//! Why bytes are no image.

ghost use Rattle.std.specs.Prelude.{◌≡◌};
ghost use Rattle.lo_image.specs.declared.fault.Stop.TheVariants.{Memory};

use lo_base::NoMemory;
use std::alloc::{AllocError, AllocFailed};

/// What does not hold of a field (docs/FORMATS.md, the image).
#[derive(Clone, Copy, Debug, PartialEq, Eq)]
pub enum Defect {
    Magic,
    Short,
    Range,
    Order,
    Mismatch,
    Plan,
    Array,
    Extra,
}

/// The first field that does not hold: how many bytes are left from its first byte on, and what is wrong.
#[derive(Clone, Copy, Debug, PartialEq, Eq)]
pub struct Fault {
    pub left: usize,
    pub kind: Defect,
}

/// Why nothing was read.
#[derive(Clone, Copy, Debug)]
pub enum Stop {
    Memory,
    At(Fault),
}

impl From<NoMemory> for Stop {
    ghost from_gives = { λ _ e. e ≡ Memory };

    fn from(_e: NoMemory) -> Stop {
        Stop::Memory
    }
}

impl From<AllocError> for Stop {
    ghost from_gives = { λ _ e. e ≡ Memory };

    fn from(_e: AllocError) -> Stop {
        Stop::Memory
    }
}

impl<T: Drop> From<AllocFailed<T>> for Stop {
    ghost from_gives = { λ _ e. e ≡ Memory };

    fn from(_e: AllocFailed<T>) -> Stop {
        Stop::Memory
    }
}

#[derive(Clone, Copy, Debug, PartialEq, Eq)]
pub struct BadImage {
    pub offset: u64,
    pub kind: Defect,
}

#[derive(Clone, Copy, Debug, PartialEq, Eq)]
pub enum ImageError {
    Bad(BadImage),
    NoMemory,
}
