// Why a text isn't read as a script.

use cif_bits::NoMemory;
use std::alloc::AllocFailed;
use thiserror::Error;

/// Why a text gives no script. Lines are counted from 1 on, with those that are passed over.
#[derive(Debug, Drop, Error)]
pub enum ScriptFault {
    /// A line has no form that may stand at its place, or a coding or a number in it is wrong.
    #[error("line {0}")]
    BadLine(u64),
    /// A line shows what is neither a netname nor a port.
    #[error("name at line {0}")]
    NoSuchName(u64),
    /// A line shows a name that has no bits, more than 65,536 bits, an x or z, the clock, or a bit without a driver.
    #[error("no two-valued name at line {0}")]
    NotTwoValued(u64),
    /// There are more than 16 sessions.
    #[error("too many sessions")]
    TooManySessions,
    /// A line begins a session under a name that an earlier session has.
    #[error("session again at line {0}")]
    SameName(u64),
    /// The lines count more than 268,435,456 together.
    #[error("script too large")]
    ScriptTooLarge,
    /// Want of memory.
    #[error("out of memory")]
    Memory,
}

impl From<NoMemory> for ScriptFault {
    ghost use Rattle.std.specs.Prelude.{◌≡◌};
    ghost use Rattle.cif_script.specs.declared.fault.ScriptFault.TheVariants.{Memory};

    ghost from_gives = { λ _ e. e ≡ Memory };

    fn from(_error: NoMemory) -> Self {
        ScriptFault::Memory
    }
}

impl<T: Drop> From<AllocFailed<T>> for ScriptFault {
    ghost use Rattle.std.specs.Prelude.{◌≡◌};
    ghost use Rattle.cif_script.specs.declared.fault.ScriptFault.TheVariants.{Memory};

    ghost from_gives = { λ _ e. e ≡ Memory };

    fn from(_error: AllocFailed<T>) -> Self {
        ScriptFault::Memory
    }
}
