//! Word formulas: values and taints of narrow combinational cells, worked out on numbers. No call takes memory.
//!
//! A cell is read once, into its form. In a cycle its form gives what the definitions of cells and of taint give: the same
//! words that `meaning` gives, and the same taints that the terms of the cell give.
#![tactic(auto)]

mod form;
mod narrow_ports;

pub use form::WordForm;
pub use narrow_ports::narrow;
