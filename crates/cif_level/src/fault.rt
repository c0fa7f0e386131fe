// Why a netlist has no order.
use cif_defs::Listed;
use std::alloc::{AllocError, AllocFailed};

/// Cells of a netlist, by their places among its cells.
pub type Places = Listed<u32>;

/// Why a netlist has no levels.
#[derive(Debug, Drop, thiserror::Error)]
pub enum LevelFault {
    /// These cells drive each other: each drives the next, and the last drives the first, which has the least name.
    /// No cell stands there twice; a cell that drives itself stands alone.
    #[error("cells drive each other in a loop")]
    Loop(Places),
    /// Want of memory.
    #[error("out of memory")]
    Memory,
}

impl From<AllocError> for LevelFault {
    ghost use Rattle.std.specs.Prelude.{◌≡◌};
    ghost use Rattle.cif_level.specs.declared.fault.LevelFault.TheVariants.{Memory};

    ghost from_gives = { λ _ e. e ≡ Memory };

    fn from(_error: AllocError) -> Self {
        LevelFault::Memory
    }
}

impl<T: Drop> From<AllocFailed<T>> for LevelFault {
    ghost use Rattle.std.specs.Prelude.{◌≡◌};
    ghost use Rattle.cif_level.specs.declared.fault.LevelFault.TheVariants.{Memory};

    ghost from_gives = { λ _ e. e ≡ Memory };

    fn from(_error: AllocFailed<T>) -> Self {
        LevelFault::Memory
    }
}
