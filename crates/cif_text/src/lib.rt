//! Texts of names and numbers: lines and words of a text, coded names, and decimal numbers, read and written.
#![tactic(auto)]

mod lines;
mod names;
mod numbers;
#[cfg(test)]
mod tests;
mod words;

pub use lines::{is_skipped, split_line};
pub use names::{push_name, read_name};
pub use numbers::{push_number, read_number};
pub use words::{FirstWord, are_visible, first_word, is_binary, is_blank, only_word};
