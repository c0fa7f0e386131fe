// Why a text isn't read as a stimulus.

use cif_bits::NoMemory;
use std::alloc::{AllocError, AllocFailed};
use thiserror::Error;

/// Why a text gives no stimulus. Lines are counted from 1 on, with those that are passed over.
#[derive(Debug, Drop, Error)]
pub enum StimFault {
    /// A line has no form that may stand at its place, or a coding or a number in it is wrong.
    #[error("line {0}")]
    BadLine(u64),
    /// A line names no register, no memory, no wire, or no input port other than the clock.
    #[error("name at line {0}")]
    NoSuchName(u64),
    /// A word has another width than what the line names.
    #[error("width at line {0}")]
    WrongWidth(u64),
    /// There is no line of the number of cycles, or it says 0.
    #[error("no cycles")]
    NoCycles,
    /// There are more than 1,000,000 cycles.
    #[error("too many cycles")]
    TooManyCycles,
    /// A line gives again what a line before it gave.
    #[error("set again at line {0}")]
    SetTwice(u64),
    /// A memory has no word at an address.
    #[error("address at line {0}")]
    BadAddress(u64),
    /// Want of memory.
    #[error("out of memory")]
    Memory,
}

impl From<NoMemory> for StimFault {
    ghost use Rattle.std.specs.Prelude.{◌≡◌};
    ghost use Rattle.cif_stimulus.specs.declared.fault.StimFault.TheVariants.{Memory};

    ghost from_gives = { λ _ e. e ≡ Memory };

    fn from(_error: NoMemory) -> Self {
        StimFault::Memory
    }
}

impl From<AllocError> for StimFault {
    ghost use Rattle.std.specs.Prelude.{◌≡◌};
    ghost use Rattle.cif_stimulus.specs.declared.fault.StimFault.TheVariants.{Memory};

    ghost from_gives = { λ _ e. e ≡ Memory };

    fn from(_error: AllocError) -> Self {
        StimFault::Memory
    }
}
