//! The order in which the cells of a netlist are evaluated, or a loop among them.
//!
//! A cell is passing where it is combinational, a memory, or a register with asynchronous reset: its outputs follow
//! its operands within the cycle. The order has each passing cell once, after those that drive operand bits of it that
//! count. Where cells drive each other in a loop there is no such order, and the loop is named.
#![tactic(auto)]

mod fault;
mod feeders;
mod order;
mod ring;
mod search;

pub use fault::{LevelFault, Places};
pub use order::Levels;
pub use search::levels;
