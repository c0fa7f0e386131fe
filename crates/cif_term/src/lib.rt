//! Terms: what computes the taint of a cell's outputs from the words and the taints of its operands.
//!
//! A term is at once a program, which `Term::eval` runs, and a circuit, whose cost in cells is known. Contracts see it
//! as a formula: `formula_of`. What a formula stands for, how wide it is and what it costs are definitions.
#![tactic(auto)]

mod apply;
mod cost;
mod eval;
mod extended;
mod ops;
mod scope;
mod shadow;
mod term;
#[cfg(test)]
mod tests;
mod width;

pub use ops::{Op1, Op2};
pub use shadow::{Shadow, all_terms};
pub use term::{Places, Term};
