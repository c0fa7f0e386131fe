//! What lies under the lock of a live run, and the frames and pieces that are made outside it.
//!
//! A `Kept` is a core with a mark that rises with the core's events, and with the book of the pieces that were taken.
//! Contracts see it as the core's state and the mark.
#![tactic(auto)]

mod kept;
mod work;

pub use kept::Kept;
pub use work::{joined, piece_after, reach};
