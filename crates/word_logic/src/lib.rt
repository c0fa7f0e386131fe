//! Values and taints of bitwise, reducing and wiring cells whose ports have at most 128 bits, worked out on numbers.
//!
//! A cell is read once, into its form; in a cycle a form gives the words of the outputs and their exact taint from the
//! words of the operands and theirs, and takes no memory. Both are what the definitions of cells and of taint say:
//! a bit of a bitwise kind reads one bit of each operand, so its taint follows by a truth table, as GLIFT has it; a
//! reduction grows with each of its bits or is a parity, so its taint follows from the operand with its tainted bits set
//! and with them cleared.
#![tactic(auto)]

mod adder;
mod binary;
mod bounds;
mod extension;
mod form;
mod read;
#[cfg(test)]
mod tests;
mod unary;

pub use extension::Extension;
pub use form::LogicForm;
