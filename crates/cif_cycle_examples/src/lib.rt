//! Runs of many cycles of a netlist with every kind of cell, each frame beside one that is worked out from nothing; and
//! stimuli that are made by calls.
#![tactic(auto)]

#[cfg(test)]
mod cycles;
#[cfg(test)]
mod drawn;
#[cfg(test)]
mod fresh;
pub mod made;
#[cfg(test)]
mod netlist;
#[cfg(test)]
mod stimuli;
