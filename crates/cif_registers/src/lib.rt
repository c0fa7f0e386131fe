//! The plain meaning of every kind of register: what it stores next, and what it shows under asynchronous reset.
#![tactic(auto)]

mod registers;

pub use registers::{register_next, register_show};
