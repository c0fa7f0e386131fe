//! What registers and memories start with, by the lines of a stimulus.
#![tactic(auto)]

mod starts;

pub use starts::{StartLines, start_word};
