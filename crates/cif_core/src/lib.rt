//! The machine behind a live run: which part of which cycle is computed next, which frames are kept, and what each session
//! wants. It computes nothing itself and knows no threads: pieces and frames are handed in and out.
//!
//! Contracts see a `Core` as its numbers and marks (`State`), and say each reply as a relation between the state before,
//! the reply and the state after. Case, plan, window and number of sessions are members of its name, `Run`.
#![tactic(auto)]

mod laws;
mod machine;
mod mark;
mod name;
mod reply;
mod scan;
mod shelf;

pub use laws::{events_keep, wants_are_kept};
pub use machine::Core;
pub use mark::Mark;
pub use name::Run;
pub use reply::{Claim, Deposit, Look, Newest, Piece, Publish};
