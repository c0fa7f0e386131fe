//! Selections and shifts of cells whose ports have at most 128 bits, on numbers: the words that they give, and the exact
//! taints of these. No call takes memory, and none refuses.
//!
//! A taint follows the select bits one by one: where a bit is untainted it is that of the chosen part, else that of both
//! parts and of their difference. A table is a word without taint, among whose bits an address chooses.
#![tactic(auto)]

mod choice_taints;
mod choices;
mod form;
mod read;
mod shadowed;
mod shapes;
mod shift_taints;
mod shifts;
mod tables;

pub use choice_taints::{bmux_taint, demux_taint, mux_taint, pmux_taint};
pub use choices::{bmux_value, demux_value, mux_value, pmux_value};
pub use form::{SelectForm, taint, value};
pub use shadowed::Shadowed;
pub use shapes::{Blocks, Chain, Shift, Table};
pub use shift_taints::{indexed_taint, left_taint, offset_taint, right_taint, signed_taint};
pub use shifts::{indexed_value, left_value, offset_value, right_value, signed_value};
pub use tables::{lut_taint, lut_value};
