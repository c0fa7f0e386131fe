//! The words at a cell's ports as numbers, straight from the net bits. No call takes memory.
#![tactic(auto)]

mod gather;
mod operands;

pub use gather::{port_taint, port_value};
pub use operands::{operand_taints, operand_values};
