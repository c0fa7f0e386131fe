//! Words written to the net bits that a cell's outputs drive, with the marks of the cells that read a bit that changes. No
//! call takes memory.
#![tactic(auto)]

mod write;

pub use write::{write_numbers, write_shown, write_word, write_words};
