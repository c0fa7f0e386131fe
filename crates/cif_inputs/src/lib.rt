//! The words that input ports hold in a run over a stimulus, from cycle to cycle.
#![tactic(auto)]

mod inputs;

pub use inputs::{InputMap, Inputs};
