//! The table of kinds, and cells of an accepted netlist.
#![tactic(auto)]

mod cell;
pub mod table;

pub use cell::{Cell, Digits, Given, Sources, Targets};
pub use cif_defs::{CellPort, Kind, Listed, Name, NetBit, Param, PortRow, PortWidth, Role, Src};
