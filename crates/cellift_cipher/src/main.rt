//! `cellift` once more, so that the gate runs it on the cipher's published test vector.
#![tactic(auto)]

use cif_main::run;
use std::process::ExitCode;

fn main(rt: HostRuntime) -> ExitCode {
    run(&rt, rt.stdout(), rt.stderr())
}
