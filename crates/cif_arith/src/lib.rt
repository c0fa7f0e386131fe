//! Arithmetic on numbers of 1 to 128 bits, which a `u128` holds in its lowest bits.
//!
//! Each call takes the width in bits first. It gives what the cell of its name gives on words of that width, with the
//! names and meanings of the Yosys cell library for operands without x. Where an operand is signed, a number stands
//! for itself less `2^width` if its highest bit is 1. No call takes memory, and none refuses.
//!
//! `proofs/Meanings.antt` ties each answer to the word that the cell gives.
#![tactic(auto)]

mod division;
mod integer;
mod order;
mod sums;
#[cfg(test)]
mod tests;

pub use division::{div, div_floor, mod_floor, modulo};
pub use order::less;
pub use sums::{AluOut, add, alu, mul, neg, sub};
