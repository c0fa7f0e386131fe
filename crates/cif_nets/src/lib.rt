//! The nets of a raw module: its net numbers, what drives each, and the checks of drivers, clocks, bits that are read, and
//! initial values.
#![tactic(auto)]

pub mod clock;
pub mod drives;
pub mod inits;
mod nets;
pub mod numbers;
pub mod reads;

pub use nets::Nets;
