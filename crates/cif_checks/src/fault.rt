// Why a raw module isn't accepted.
use cif_defs::Name;
use std::alloc::AllocError;

/// A port of the module, or of a cell.
#[derive(Debug, Drop)]
pub enum Spot {
    Port(Name),
    CellPort { cell: Name, port: Name },
}

/// The first check that a raw module fails. Cells, ports and parameters are named; bits are net numbers of the file,
/// and indexes are places in a port, lowest first.
#[derive(Debug, Drop, thiserror::Error)]
pub enum BuildFault {
    #[error("a cell of a type that isn't known")]
    UnsupportedCell(Name, Name),
    #[error("a port of a cell isn't connected")]
    MissingPort(Name, Name),
    #[error("a port of a cell has another width than its parameters say")]
    WidthMismatch(Name, Name),
    #[error("a port is too wide")]
    WidthLimit(Spot),
    #[error("a parameter of a cell is absent or has no good value")]
    BadParameter(Name, Name),
    #[error("x or z where a bit is read")]
    XOperand(Spot, u32),
    #[error("bit {0} has two drivers")]
    MultiDriven(u64),
    #[error("bit {0} has no driver")]
    Undriven(u64),
    #[error("a constant where a bit is driven")]
    ConstantOutput(Spot, u32),
    #[error("a cell with another clock")]
    TwoClocks(Name),
    #[error("the clock is read as data")]
    ClockAsData(Name),
    #[error("a port of both directions")]
    InoutPort(Name),
    #[error("bit {0} has two initial values")]
    InitConflict(u64),
    #[error("a memory of a form that isn't read")]
    MemoryForm(Name),
    #[error("{0} cells are too many")]
    TooManyCells(u64),
    #[error("{0} bits are too many")]
    TooManyBits(u64),
    #[error("a port without bits")]
    ZeroWidth(Spot),
    #[error("a clock that isn't an input port of one bit")]
    NoClockInput(Name),
    #[error("bit {0} stands at two input places")]
    PortClash(u64),
    #[error("out of memory")]
    Memory,
}

impl From<AllocError> for BuildFault {
    ghost use Rattle.std.specs.Prelude.{◌≡◌};
    ghost use Rattle.cif_checks.specs.declared.fault.BuildFault.TheVariants.{Memory};

    ghost from_gives = { λ _ e. e ≡ Memory };

    fn from(_e: AllocError) -> Self {
        BuildFault::Memory
    }
}
