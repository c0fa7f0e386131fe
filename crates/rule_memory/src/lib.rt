//! The taint of memories as terms: what an augmented netlist computes at the ports of a memory.
//!
//! The stored taint is held by a memory of the same shape, with the same addresses, and the flag by one bit. A read gives
//! the stored taint of its word, or all ones where its address is tainted or the flag is set. A write port with an
//! untainted address writes the taint of data or enable wherever an enable is 1 or tainted; one with a tainted address
//! writes nothing, and sets the flag where an enable is 1 or tainted.
#![tactic(auto)]

mod terms;

pub use terms::MemoryTerms;
