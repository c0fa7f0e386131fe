//! The hall: the lock of a live run, the workers that compute its frames, and the sessions that look at them meanwhile.
//!
//! What lies under the lock is a `Kept`: the core, a mark, and the book of the pieces that were taken. A worker holds a share
//! of the book, so what the workers count adds up to what the core took. Contracts see a `Worker` as its number and its
//! count, and a `Session` as its number, its pinned cycle, and whether it found no memory.
//!
//! Nothing is promised of progress, of fairness, or of when a call that takes the lock or waits returns.
#![tactic(auto)]

mod close;
mod finish;
mod hall;
mod pin;
mod session;
mod show;
mod told;
mod turn;
mod worker;

pub use close::Closed;
pub use hall::{Hall, Opened};
pub use session::Session;
pub use told::{AskFault, Asked, AtFault, NotPinned, ShowFault, Shown, Step, Turn};
pub use worker::Worker;
