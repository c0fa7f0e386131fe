//! Stimuli: what is given to the inputs of a netlist, cycle by cycle, and which bits of it are tainted. What a text says
//! of it stands in specs/StimulusText.antt.
#![tactic(auto)]

mod fault;
mod fitting;
mod line;
mod lookup;
mod stimulus;
mod version;
mod walk;

pub use fault::StimFault;
pub use fitting::has_address;
pub use line::{Pair, StimLine};
pub use lookup::{cell_place, memory, port_place, register, settable_port};
pub use stimulus::Stimulus;
pub use version::Version;
pub use walk::set_pair;
