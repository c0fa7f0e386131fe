//! The outside of the tool: where files come from, where texts go, and who is told of its steps.
//!
//! `Store`, `Sink` and `Gate` are traits, so that all code above is proved for any store, sink and
//! gate. A store and a sink count their faults, and may tell their content; what they tell is what
//! contracts speak of. Here are those in memory, for tests, and those of the system.
#![tactic(auto)]

mod lists;
mod memory;
mod outside;
mod system;
#[cfg(test)]
mod tests;

pub use lists::{Bytes, CallNumbers, File, Files};
pub use memory::{MemSink, MemStore};
pub use outside::{FILE_LIMIT, Failed, Gate, Open, Sink, Store, StoreFault, write_all};
pub use system::{FileStore, StdSink};
