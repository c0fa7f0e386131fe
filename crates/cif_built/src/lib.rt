//! What is built to augment a module: the new cells for each cell, which bits hold the taints, and what new cells read and
//! compute, under any values that meet them (`specs/Built.antt`).
//!
//! It has no code: the crates above it build a module so, and show that such a module augments.
#![tactic(auto)]
