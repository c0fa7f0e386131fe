// Why a netlist isn't augmented.
use cif_bits::NoMemory;
use cif_defs::Name;
use std::alloc::{AllocError, AllocFailed};
use thiserror::Error;

/// Why a netlist isn't augmented.
#[derive(Debug, Drop, Error)]
pub enum InstrumentFault {
    /// A name that is wanted for a new port, netname or cell stands already, or is wanted twice: the first such name in
    /// byte order.
    #[error("name taken")]
    NameTaken(Name),
    /// The number of cells and the sum of their weights, which is more than 400,000.
    #[error("augmented size {0}")]
    AugTooLarge(u64),
    /// Want of memory.
    #[error("out of memory")]
    Memory,
}

impl From<NoMemory> for InstrumentFault {
    ghost use Rattle.std.specs.Prelude.{◌≡◌};
    ghost use Rattle.cif_augment.specs.declared.fault.InstrumentFault.TheVariants.{Memory};

    ghost from_gives = { λ _ e. e ≡ Memory };

    fn from(_error: NoMemory) -> Self {
        InstrumentFault::Memory
    }
}

impl From<AllocError> for InstrumentFault {
    ghost use Rattle.std.specs.Prelude.{◌≡◌};
    ghost use Rattle.cif_augment.specs.declared.fault.InstrumentFault.TheVariants.{Memory};

    ghost from_gives = { λ _ e. e ≡ Memory };

    fn from(_error: AllocError) -> Self {
        InstrumentFault::Memory
    }
}

impl<T: Drop> From<AllocFailed<T>> for InstrumentFault {
    ghost use Rattle.std.specs.Prelude.{◌≡◌};
    ghost use Rattle.cif_augment.specs.declared.fault.InstrumentFault.TheVariants.{Memory};

    ghost from_gives = { λ _ e. e ≡ Memory };

    fn from(_error: AllocFailed<T>) -> Self {
        InstrumentFault::Memory
    }
}
