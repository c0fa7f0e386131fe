//! The core by hand: a run of five cycles of a netlist without cells, whose pieces and frames hold nothing, so that every
//! reply shows the machine alone.
#![tactic(auto)]

#[cfg(test)]
mod by_hand;
