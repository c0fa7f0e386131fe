// Why a netlist file isn't read.
use cif_defs::Name;

/// Why a netlist file isn't read. The first that applies is told.
#[derive(Debug, Drop, thiserror::Error)]
pub enum JsonFault {
    /// The bytes aren't JSON in UTF-8 that nests at most 127 deep.
    #[error("not JSON")]
    BadJson,
    /// The value isn't an object with an object `modules` of at least one member.
    #[error("no modules")]
    NoModules,
    /// There are several modules, and not exactly one is marked as top.
    #[error("no top module")]
    NoTop,
    /// The module has a wrong shape at this place: the names that lead there, joined by `/`.
    #[error("a wrong shape")]
    BadShape(Name),
    #[error("out of memory")]
    Memory,
}
