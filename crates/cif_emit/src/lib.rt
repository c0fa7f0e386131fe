//! Terms as cells: a term becomes cells of an augmented netlist that compute it, and the bits that hold its word.
//!
//! What the cells say is a law on assignments of the net numbers (`Assigned.antt` of `cif_raw_runs`), with no order of
//! evaluation: under every assignment that meets the appended cells, the emitted bits read the value of the term. Besides,
//! the cells have new names, drive new nets, and read only operands and what cells before them drive
//! (`specs/Emitted.antt`).
#![tactic(auto)]

mod cells;
mod names;
mod pieces;
mod scope;
mod terms;
#[cfg(test)]
mod tests;

pub use names::{NameMaker, NetNumbers};
pub use terms::{OperandBits, OperandPair, emit};
