//! The checks of a raw module by itself: its counts, its ports, and its cells one by one.
//!
//! `specs/Checks.antt` has all checks of a module, also those of its nets, in their order.
#![tactic(auto)]

mod cells;
mod fault;
mod given;
mod known;
mod parameters;
mod ports;
pub mod raw_access;
mod widths;

pub use cells::{check_cells, port_names};
pub use fault::{BuildFault, Spot};
pub use known::{KnownCell, KnownModule, PortBits};
pub use ports::{check_counts, check_ports};
