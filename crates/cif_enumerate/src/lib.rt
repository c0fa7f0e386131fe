//! Exact taint by its definition: whether a bit differs over the completions of its operands, found by trying each of
//! them.
//!
//! The time doubles with each tainted bit. The crate is no part of the program: rules of taint are compared with it.
#![tactic(auto)]

mod differ;
mod function;
mod outputs;
mod places;
#[cfg(test)]
mod tests;

pub use differ::can_differ;
pub use function::Function;
pub use outputs::{OutputBit, exact_taint};
