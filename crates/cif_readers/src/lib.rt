//! Which cells of a netlist read a net bit, and the marks of those whose operand bits changed.
#![tactic(auto)]

mod marks;
mod readers;
mod readings;
mod tables;

pub use readers::Readers;
