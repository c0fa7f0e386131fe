//! A live run: workers and sessions, each in a thread of its own, and what the run tells in the end.
//!
//! Which runs are right stands in `specs/Runs.antt`: any number of threads, any order in which they get on, and any size of
//! the run give a legal transcript for each session, and counts that add up. Nothing is promised of progress, of fairness,
//! or of when `run` returns.
#![tactic(auto)]

mod alone;
mod live;
mod name;
mod reader;
mod reply;
mod roles;
mod round;
mod size;
mod text;
mod threads;
mod told;
mod work;

pub use alone::run_alone;
pub use live::run;
pub use name::Scripted;
pub use size::RunSize;
pub use text::run_text;
pub use told::Told;
