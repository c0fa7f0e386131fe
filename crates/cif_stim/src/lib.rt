//! Stimuli: what is given to the inputs of a netlist, cycle by cycle, and which bits of it are tainted; read from a text,
//! written, and followed through a run.
#![tactic(auto)]

pub use cif_inputs::{InputMap, Inputs};
pub use cif_stim_read::read_stimulus;
pub use cif_stim_write::write_stimulus;
pub use cif_stimulus::{Pair, StimFault, StimLine, Stimulus};
