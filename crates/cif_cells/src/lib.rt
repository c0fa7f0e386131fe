//! Cells and netlists: what a raw module says, once it is accepted.
#![tactic(auto)]

mod assemble;
mod build;
mod drivers;
mod finding;
mod laws;
mod netlist;
mod state;

pub use cif_checks::{BuildFault, Spot};
pub use cif_defs::{
    CellList, CellPort, Connection, Connections, Direction, Driver, Kind, Listed, Name, NetBit,
    Param, ParamValue, Params, PortRow, PortWidth, Raw, RawBit, RawBits, RawCell, RawName,
    RawNames, RawParam, RawPort, RawPorts, Role, Src, Wire,
};
pub use cif_kinds::{Cell, Digits, Given, Sources, Targets, table};
pub use cif_meanings::meaning;
pub use cif_registers::{register_next, register_show};
pub use finding::Found;
pub use laws::accepted_is_counted_and_well_formed;
pub use netlist::Netlist;
