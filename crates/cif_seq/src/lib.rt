//! Frames: the value and the taint of each bit of a netlist, cycle by cycle.
#![tactic(auto)]

mod case;
mod combinational;
mod frame;
mod inputs;
mod memory;
mod register;
mod roles;
mod settle;
mod sources;
mod state;

pub use case::Case;
pub use cif_rules::taint_of;
pub use frame::{Frame, Held, first_frame, following_frame, next_frame};
pub use inputs::{first_inputs, next_inputs};
pub use roles::{next_state, start_state};
pub use settle::{NetBits, settled};
pub use state::is_known_same;
