//! The rules of taint, compared with the enumeration of completions.
//!
//! A rule is a term that computes the taint of a cell; the enumeration tries every completion of the cell's operands. Both
//! are proved to give the exact taint, so that they always agree: here the program's own terms, those of `cif_rules`, are
//! run beside the enumeration over small widths, at all values and all taints. Products and divisions have a coarse taint,
//! which is compared with what the words of its rule give on plain numbers. The crate is no part of the program.
#![tactic(auto)]

mod agree;
#[cfg(test)]
mod examples;
#[cfg(test)]
mod families;
#[cfg(test)]
mod modules;
#[cfg(test)]
mod plain;
#[cfg(test)]
mod words;

pub use agree::{agrees, rules_are_exact};
