//! A cycle worked out in pieces: the plan, which says for each part of a netlist which cells it owns, which it evaluates, and
//! of which it needs what they store; the piece of a part, worked out from the frame of the cycle before; and the frame of a
//! cycle, joined from the pieces of all parts.
#![tactic(auto)]

mod join;
mod list;
mod mark;
mod planning;
mod run;
mod walk;

pub use join::assemble;
pub use planning::plan;
pub use run::run_part;
