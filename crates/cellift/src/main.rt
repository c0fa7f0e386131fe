//! `cellift`: shows where secret or untrusted bits flow in a netlist.
#![tactic(auto)]

use cif_main::run;
use std::process::ExitCode;

fn main(rt: HostRuntime) -> ExitCode {
    run(&rt, rt.stdout(), rt.stderr())
}
