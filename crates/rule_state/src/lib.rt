//! The taint of registers as terms, and of memories as calls.
//!
//! A bit that a register stores next is a choice, by its enable and its reset, between a bit at D, a bit of the reset
//! value and the stored bit. It reads one bit of each, so its exact taint follows choice by choice: where a control is
//! untainted it is that of the chosen bit, else that of both bits and of their difference.
//!
//! A memory has a stored taint for each of its bits, and one flag that, once set, taints every read. A write port with an
//! untainted address changes stored taint of the addressed word alone; one with a tainted address that may write sets
//! the flag.
#![tactic(auto)]

mod marks;
mod memory;
mod registers;

pub use memory::{WritePort, read_taint, write_flag, write_taint};
pub use registers::{next_taint_term, show_taint_term};
