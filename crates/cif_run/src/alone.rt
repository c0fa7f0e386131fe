// A run without threads.
ghost use Rattle.std.specs.Prelude.{◌≡◌, ◌≤◌, IfOk, IfSome, length, map, vec_len};
ghost use Rattle.std.specs.List.{All};
ghost use Rattle.cif_pieces.specs.Plans.{IsPlanOf};
ghost use Rattle.cif_seq.specs.Cases.{net_of};
ghost use Rattle.cif_script.specs.ShownWires.{IsWireOf};
ghost use Rattle.cif_run.specs.Readers.{number_of};
ghost use Rattle.cif_run.specs.Runs.{IsRun, IsSize};

use crate::live::{Begun, begin, finish};
use crate::name::Scripted;
use crate::roles::Roles;
use crate::round::round;
use crate::size::RunSize;
use crate::told::Told;
use cif_bits::NoMemory;
use cif_hall::Hall;
use cif_io::Gate;
use cif_parts::plan as plan_of;
use cif_pieces::Plan;
use cif_script::Script;
use cif_seq::Case;
use std::alloc::Global;
use std::marker::Brand;
use std::sync::Wait;
use std::sync::ledger::Blank;

/// Turns the roles in rotation until each has ended; none where so many rounds are too few.
fn turned_out<'s, N: Scripted, R: Wait, G: Gate>(
    rt: &R,
    alloc: Global,
    hall: &Hall<N>,
    gate: &G,
    roles: Roles<'s, N>,
    rounds: u64,
) -> Option<Roles<'s, N>>
    ensures workers { IfSome result (λ z. vec_len z.workers ≡ vec_len roles.entry.workers) }
    ensures readers { IfSome result (λ z. vec_len z.readers ≡ vec_len roles.entry.readers) }
    ensures numbers { IfSome result (λ z. map number_of z.readers.items ≡ map number_of roles.entry.readers.items) }
{
    let mut roles = roles;
    for _round in 0..rounds {
        if !round(rt, alloc, hall, gate, &mut roles) {
            return Some(roles);
        }
    }
    None
}

/// Such a run under a name.
fn alone_named<N: Scripted, R: Wait, G: Gate>(
    rt: &R,
    alloc: Global,
    blank: Blank,
    case: Case,
    plan: Plan,
    script: &Script,
    size: RunSize,
    gate: &G,
    rounds: u64,
) -> Result<Option<Told>, NoMemory>
    requires name { blank.name ≡ N.name }
    requires workers { (blank.parts ≡ N.parts) × (size.workers ≡ N.parts) × (1 ≤ size.workers) × (size.workers ≤ 32) }
    requires case { case ≡ N.case }
    requires plan { (plan ≡ N.plan) × IsPlanOf N.case N.plan × (N.plan.parts ≡ size.parts) }
    requires window { (size.window ≡ N.window) × (2 ≤ size.window) × (size.window ≤ 64) }
    requires script { (script.now ≡ N.script) × (N.sessions ≡ length N.script.sessions) }
    requires wires { All (IsWireOf N.case.raw) N.script.wires }
    ensures { IfOk result (λ told. IfSome told (IsRun (net_of N.case) N.case.stimulus N.script size)) }
{
    let Begun { hall, roles } = begin::<N>(alloc, blank, case, plan, script, size)?;
    let Some(roles) = turned_out(rt, alloc, &hall, gate, roles, rounds) else {
        return Ok(None);
    };
    Ok(Some(finish(alloc, hall, roles, size)?))
}

/// Runs a case without a thread: the caller turns workers and sessions in rotation, in at most so many rounds. None where one
/// of them hasn't ended by then. What it tells is as right as what `run` tells.
pub fn run_alone<R: Wait, G: Gate>(
    rt: &R,
    alloc: Global,
    case: Case,
    script: &Script,
    size: RunSize,
    gate: &G,
    rounds: u64,
) -> Result<Option<Told>, NoMemory>
    requires size { IsSize size }
    requires wires { All (IsWireOf case.raw) script.now.wires }
    ensures { IfOk result (λ told. IfSome told (IsRun (net_of case) case.stimulus script.now size)) }
{
    let plan = plan_of(alloc, &case, size.parts)?;
    let blank = Blank::new(u64::from(size.workers));
    alone_named::<Brand, R, G>(rt, alloc, blank, case, plan, script, size, gate, rounds)
}
