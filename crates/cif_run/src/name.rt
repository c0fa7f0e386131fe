// The name of a run with its script.
ghost use Rattle.cif_script.specs.Scripts.{ScriptData};
ghost use Rattle.cif_script.specs.ScriptText.{no_sessions};

use cif_core::Run;
use std::marker::Brand;

/// The name of a run whose sessions follow a script.
pub trait Scripted: Run {
    ghost script: { ScriptData };
}

impl Scripted for Brand {
    ghost script = { no_sessions };
}
