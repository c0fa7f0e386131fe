//! Live runs by example: under gates that hold pieces up, and without threads.
#![tactic(auto)]

#[cfg(test)]
mod alone;
#[cfg(test)]
mod counter;
#[cfg(test)]
mod gate;
#[cfg(test)]
mod gated;
