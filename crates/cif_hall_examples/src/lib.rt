//! The hall by example, on one thread: what its workers and sessions hand on of what was answered under the lock, and its
//! closing.
#![tactic(auto)]

#[cfg(test)]
mod counter;
#[cfg(test)]
mod scenes;
