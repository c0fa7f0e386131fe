//! The text of a stimulus.
#![tactic(auto)]

mod write;

pub use write::write_stimulus;
