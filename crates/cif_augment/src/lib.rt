//! Augmentation: a module that shows the taint of another as values.
//!
//! A module augments another under some released net bits where it has all of it, and beside it for each port but the
//! clock a port `p__t` that shows its taint, whatever the stimulus (`specs/Augmented.antt`). The new cells for a cell are
//! at most as many as it weighs. The stimulus for the augmented module gives values to what the original one says of
//! values and of taints (`specs/Stimuli.antt`). `specs/Refusals.antt` says which modules are refused.
#![tactic(auto)]

mod fault;
mod names;
mod released;
mod size;
mod stimulus;
mod taken;
mod wanted;
mod weights;

pub use fault::InstrumentFault;
pub use names::{flag_name, stored_name, taint_name};
pub use size::{check_instrument, check_size};
pub use stimulus::augment_stimulus;
pub use taken::check_names;
pub use weights::weight;
