//! Parts of a frame: which cells each part of a netlist owns and evaluates, and what one part owns of the frame of a cycle.
//!
//! Contracts see a `Plan` as its lists of cells, a `PartDone` as its case, its cycle, its part and the number of parts, and
//! `Slots` as a list of these. That a piece holds the defined values and taints of what its part owns is kept by its type.
#![tactic(auto)]

mod piece;
mod plan;
mod slots;

pub use piece::{OwnedBits, PartDone};
pub use plan::{PartCells, Plan};
pub use slots::Slots;
