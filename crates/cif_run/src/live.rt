// A whole run.
ghost use Rattle.std.specs.Prelude.{◌≡◌, ◌<◌, ◌≤◌, ◌*◌, ℕ, IfOk, length, sum, vec_len, slice_index_or};
ghost use Rattle.std.specs.List.{All, sum_by};
ghost use Rattle.cif_pieces.specs.Plans.{IsPlanOf};
ghost use Rattle.cif_seq.specs.Cases.{net_of};
ghost use Rattle.cif_hall.specs.Sessions.{new_session};
ghost use Rattle.cif_script.specs.ShownWires.{IsWireOf};
ghost use Rattle.cif_run.specs.Readers.{AllLegal, AreNumbered};
ghost use Rattle.cif_run.specs.Runs.{IsRun, IsSize};

use crate::name::Scripted;
use crate::reader::Reader;
use crate::roles::Roles;
use crate::size::RunSize;
use crate::threads::{Staying, run_roles};
use crate::told::Told;
use cif_bits::NoMemory;
use cif_core::{Core, Run};
use cif_defs::Listed;
use cif_hall::{Closed, Hall, Opened, Session, Worker};
use cif_io::Gate;
use cif_parts::plan as plan_of;
use cif_pieces::Plan;
use cif_script::{Answer, Script};
use cif_seq::Case;
use std::alloc::Global;
use std::marker::Brand;
use std::sync::ledger::Blank;
use std::sync::{Arc, Wait};
use std::thread::Threads;

/// Sessions at the beginning of their lines.
fn readers_of<'s, N: Scripted>(
    alloc: Global,
    sessions: Vec<Session<N>>,
    script: &'s Script,
) -> Result<Vec<Reader<'s, N>>, NoMemory>
    requires script { script.now ≡ N.script }
    requires len { vec_len sessions ≡ length N.script.sessions }
    requires fresh { (i : ℕ) (d : _) → i < vec_len sessions → slice_index_or sessions.items i d ≡ new_session i }
    requires wires { All (IsWireOf N.case.raw) N.script.wires }
    ensures len { IfOk result (λ rs. vec_len rs ≡ vec_len sessions) }
    ensures numbers { IfOk result (λ rs. AreNumbered rs.items) }
{
    let mut readers = Vec::with_capacity(alloc, sessions.len())?;
    for session in sessions {
        readers.push(Reader::new(alloc, session, script))?;
    }
    Ok(readers)
}

/// The transcripts of sessions that have answered all their lines; want of memory where one hasn't.
fn transcripts_of<'s, N: Scripted>(
    alloc: Global,
    readers: Vec<Reader<'s, N>>,
) -> Result<Vec<Listed<Answer>>, NoMemory>
    requires { AreNumbered readers.items }
    ensures len { IfOk result (λ ts. vec_len ts ≡ vec_len readers.entry) }
    ensures legal { IfOk result (λ ts. AllLegal (net_of N.case) N.case.stimulus N.script ts.items) }
{
    let mut transcripts = Vec::with_capacity(alloc, readers.len())?;
    for reader in readers {
        let Some(transcript) = reader.into_transcript() else {
            return Err(NoMemory);
        };
        transcripts.push(transcript)?;
    }
    Ok(transcripts)
}

/// The counts of workers.
fn counts_of<N: Run>(alloc: Global, workers: &Vec<Worker<N>>) -> Result<Vec<u64>, NoMemory>
    ensures len { IfOk result (λ cs. vec_len cs ≡ vec_len workers.now) }
    ensures sum { IfOk result (λ cs. sum cs.items ≡ sum_by (λ w. w.accepted) workers.now.items) }
{
    let mut counts = Vec::with_capacity(alloc, workers.len())?;
    for worker in workers {
        counts.push(worker.accepted())?;
    }
    Ok(counts)
}

/// A hall with its roles.
#[derive(Drop)]
pub struct Begun<'s, N: Scripted> {
    /// The hall.
    pub hall: Hall<N>,
    /// Its workers, and its sessions at the beginning of their lines.
    pub roles: Roles<'s, N>,
}

/// Opens the hall of a run, for the sessions of a script.
pub(crate) fn begin<'s, N: Scripted>(
    alloc: Global,
    blank: Blank,
    case: Case,
    plan: Plan,
    script: &'s Script,
    size: RunSize,
) -> Result<Begun<'s, N>, NoMemory>
    requires name { blank.name ≡ N.name }
    requires workers { (blank.parts ≡ N.parts) × (size.workers ≡ N.parts) × (1 ≤ size.workers) × (size.workers ≤ 32) }
    requires case { case ≡ N.case }
    requires plan { (plan ≡ N.plan) × IsPlanOf N.case N.plan }
    requires window { (size.window ≡ N.window) × (2 ≤ size.window) × (size.window ≤ 64) }
    requires script { (script.now ≡ N.script) × (N.sessions ≡ length N.script.sessions) }
    requires wires { All (IsWireOf N.case.raw) N.script.wires }
    ensures workers { IfOk result (λ b. vec_len b.roles.workers ≡ N.parts) }
    ensures readers { IfOk result (λ b. vec_len b.roles.readers ≡ length N.script.sessions) }
    ensures numbers { IfOk result (λ b. AreNumbered b.roles.readers.items) }
{
    let case = Arc::new(alloc, case)?;
    let plan = Arc::new(alloc, plan)?;
    let sessions = script.sessions().len() as u32;
    let core = Core::<N>::new(alloc, case, plan, size.window, sessions)?;
    let Opened {
        hall,
        workers,
        sessions,
    } = Hall::open(alloc, core, size.workers, blank)?;
    let readers = readers_of(alloc, sessions, script)?;
    let roles = Roles { workers, readers };
    Ok(Begun { hall, roles })
}

/// Closes the hall of a run whose roles have ended, and says what it tells.
pub(crate) fn finish<'s, N: Scripted>(
    alloc: Global,
    hall: Hall<N>,
    roles: Roles<'s, N>,
    size: RunSize,
) -> Result<Told, NoMemory>
    requires workers { (vec_len roles.workers ≡ N.parts) × (size.workers ≡ N.parts) × (1 ≤ size.workers) }
    requires parts { N.plan.parts ≡ size.parts }
    requires readers { vec_len roles.readers ≡ length N.script.sessions }
    requires numbers { AreNumbered roles.readers.items }
    ensures { IfOk result (IsRun (net_of N.case) N.case.stimulus N.script size) }
{
    let Roles { workers, readers } = roles;
    let transcripts = transcripts_of(alloc, readers)?;
    let Closed {
        failed,
        workers,
        ..
    } = hall.close(alloc, workers, Vec::new(alloc))?;
    if failed {
        return Err(NoMemory);
    }
    let counts = counts_of(alloc, &workers)?;
    Ok(Told::of(transcripts, counts))
}

/// A run under a name.
fn run_named<N: Scripted + Send + Sync, R: Threads + Wait + Sync, G: Gate + Sync>(
    rt: &R,
    alloc: Global,
    blank: Blank,
    case: Case,
    plan: Plan,
    script: &Script,
    size: RunSize,
    gate: &G,
) -> Result<Told, NoMemory>
    requires name { blank.name ≡ N.name }
    requires workers { (blank.parts ≡ N.parts) × (size.workers ≡ N.parts) × (1 ≤ size.workers) × (size.workers ≤ 32) }
    requires case { case ≡ N.case }
    requires plan { (plan ≡ N.plan) × IsPlanOf N.case N.plan × (N.plan.parts ≡ size.parts) }
    requires window { (size.window ≡ N.window) × (2 ≤ size.window) × (size.window ≤ 64) }
    requires script { (script.now ≡ N.script) × (N.sessions ≡ length N.script.sessions) }
    requires wires { All (IsWireOf N.case.raw) N.script.wires }
    ensures { IfOk result (IsRun (net_of N.case) N.case.stimulus N.script size) }
{
    let Begun { hall, roles } = begin::<N>(alloc, blank, case, plan, script, size)?;
    let staying = Staying::none();
    let roles = run_roles(rt, alloc, &hall, gate, &staying, roles)?;
    finish(alloc, hall, roles, size)
}

/// Runs a case with workers and the sessions of a script, each in a thread of its own; where no more threads can be started,
/// the caller turns those that are left.
///
/// If it returns `Ok`, the transcripts are legal and the counts add up, for any number of workers and parts, any window, and
/// any order in which the threads get on. The gate is told of each piece that was computed and each cycle that a session
/// pinned. `NoMemory` is want of memory anywhere in the run.
pub fn run<R: Threads + Wait + Sync, G: Gate + Sync>(
    rt: &R,
    alloc: Global,
    case: Case,
    script: &Script,
    size: RunSize,
    gate: &G,
) -> Result<Told, NoMemory>
    requires size { IsSize size }
    requires wires { All (IsWireOf case.raw) script.now.wires }
    ensures { IfOk result (IsRun (net_of case) case.stimulus script.now size) }
{
    let plan = plan_of(alloc, &case, size.parts)?;
    let blank = Blank::new(u64::from(size.workers));
    run_named::<Brand, R, G>(rt, alloc, blank, case, plan, script, size, gate)
}
