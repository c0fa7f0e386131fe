//! Worked examples of the tool: each is a row of a table with a command over files and what it has to leave. Beside them
//! stand tests of calls that no command shows: what a netlist answers, what frames store, and lists that share their pages.
#![tactic(auto)]

#[cfg(test)]
mod accepted;
#[cfg(test)]
mod augmented;
#[cfg(test)]
mod cells;
#[cfg(test)]
mod counter;
#[cfg(test)]
mod driver;
#[cfg(test)]
mod frames;
#[cfg(test)]
mod generated;
#[cfg(test)]
mod hostile;
#[cfg(test)]
mod limits;
#[cfg(test)]
mod memories;
#[cfg(test)]
mod netlists;
#[cfg(test)]
mod pages;
#[cfg(test)]
mod sessions;
#[cfg(test)]
mod state;
#[cfg(test)]
mod stimuli;
