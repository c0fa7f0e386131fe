//! The plain meaning of every combinational kind of cell: the words of its outputs, from the words of its operands.
#![tactic(auto)]

mod meanings;

pub use meanings::meaning;
pub use meanings::numbers::operand;
