//! Cycles in parts: a netlist is run in pieces, for several numbers of parts, and each frame that they are joined to stands
//! beside the one that is worked out whole.
#![tactic(auto)]

pub mod joined;
#[cfg(test)]
mod netlist;
#[cfg(test)]
mod parts;
