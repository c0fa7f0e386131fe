//! The commands of the tool: words and files in, a text, a refusal or a fault out.
#![tactic(auto)]

mod command;
mod desk;
mod evaluation;
mod files;
mod live;
mod refusal;
mod stop;
mod text;

pub use command::waits;
pub use desk::quiet;
pub use live::cellift;
