//! Session scripts, and the lines of a transcript. What a text says of a script stands in specs/ScriptText.antt, which
//! transcripts are legal in specs/Legal.antt, and how their lines are written in specs/AnswerText.antt.
#![tactic(auto)]

mod answer;
mod fault;
mod form;
mod laws;
mod read;
mod reader;
mod script;
mod session;
mod sizes;
mod wires;

pub use answer::{Answer, line_text};
pub use fault::ScriptFault;
pub use laws::cycles_never_go_back;
pub use read::read_sessions;
pub use script::Script;
pub use session::{Line, Lines, SessionScript};
