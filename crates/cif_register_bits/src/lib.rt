//! What registers store next and show, bit by bit, each bit with its exact taint. Nothing here takes memory.
//!
//! A bit that a register stores next is a choice, by its enable and its reset, between a bit at D, a bit of the reset
//! value and the stored bit. It reads one bit of each, so its exact taint follows choice by choice.
#![tactic(auto)]

mod controls;
mod sources;
mod tainted_bit;

pub use controls::{Controls, Precedence};
pub use sources::operand_bit;
pub use tainted_bit::TaintedBit;
