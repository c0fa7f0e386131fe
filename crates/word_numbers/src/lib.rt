//! Words of at most 128 bits, held by numbers: the word of n bits is held by the number below `2^n` whose binary digits
//! are its bits, lowest first.
//!
//! Each call is an operation on words under that view, and contracts say which. Bit by bit, the operators `&`, `|` and
//! `^` of numbers are those of words already; `proofs/Digits.antt` has the laws. No call takes memory, and none refuses.
#![tactic(auto)]

mod flags;
mod masks;
mod moves;
mod ones;
mod parameters;
#[cfg(test)]
mod tests;
mod widths;
mod words;

pub use flags::{bit, flag, has_one, is_all_ones, is_odd, top};
pub use masks::{complement, lowest, mask, repeated};
pub use moves::{lowered, raised};
pub use ones::{filled, highest_one, lowest_one};
pub use parameters::narrow_number;
pub use widths::{extend, join, slice};
pub use words::Words;
