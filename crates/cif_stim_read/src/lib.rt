//! Reading a stimulus from its text.
#![tactic(auto)]

mod form;
mod given;
mod lines;
mod read;
mod reader;

pub use lines::{Line, next_line};
pub use read::read_stimulus;
