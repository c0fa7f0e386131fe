//! What one cell gives in a cycle, from the bits that it reads and what it stores: the words that it reads, what a register
//! or a memory shows, and what it stores next. What a combinational cell gives stands below: `meaning` says its words, and
//! `taint_of` their taints.
#![tactic(auto)]

mod bits;
mod gather;
mod memory;
mod register;
mod stored;
mod tainted;

pub use bits::bit_of;
pub use gather::{taint_words, value_words};
pub use memory::{next_memory, read_data};
pub use register::{ShownBits, next_register};
pub use stored::{CellState, StateRef, StateWord, StoredWords};
pub use tainted::{Tainted, TaintedWord};
