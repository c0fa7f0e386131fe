//! Which bit of an augmented netlist holds the taint of each net bit: a table by net bit, and the operands of a cell with
//! their taints.
#![tactic(auto)]

mod operands;
mod table;

pub use operands::{operand_pairs, taints_of};
pub use table::Shadows;
