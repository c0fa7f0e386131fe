// Why a command ends before its whole text is written.
use cif_bits::NoMemory;
use cif_defs::Listed;
use std::alloc::{AllocError, AllocFailed};

/// Why a command ends before its whole text is written. A line is what tells it on err, with its end.
#[derive(Debug, Drop)]
pub(crate) enum Stop {
    /// The words fit no form.
    Usage,
    /// A file, or what is asked of it, is refused.
    Refused(Line),
    /// The store failed to give a file.
    Unread(Line),
    /// Out failed to take a piece of the text.
    Unwritten,
    /// Want of memory.
    NoMemory,
}

/// A line for err.
pub(crate) type Line = Listed<u8>;

impl From<NoMemory> for Stop {
    ghost use Rattle.std.specs.Prelude.{◌≡◌};
    ghost use Rattle.cif_desk.specs.declared.stop.Stop.TheVariants.{NoMemory};

    ghost from_gives = { λ _ e. e ≡ NoMemory };

    fn from(_error: NoMemory) -> Stop {
        Stop::NoMemory
    }
}

impl From<AllocError> for Stop {
    ghost use Rattle.std.specs.Prelude.{◌≡◌};
    ghost use Rattle.cif_desk.specs.declared.stop.Stop.TheVariants.{NoMemory};

    ghost from_gives = { λ _ e. e ≡ NoMemory };

    fn from(_error: AllocError) -> Stop {
        Stop::NoMemory
    }
}

impl<T: Drop> From<AllocFailed<T>> for Stop {
    ghost use Rattle.std.specs.Prelude.{◌≡◌};
    ghost use Rattle.cif_desk.specs.declared.stop.Stop.TheVariants.{NoMemory};

    ghost from_gives = { λ _ e. e ≡ NoMemory };

    fn from(_error: AllocFailed<T>) -> Stop {
        Stop::NoMemory
    }
}
