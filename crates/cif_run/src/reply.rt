// What a session answers to a line.
ghost use Rattle.std.specs.Prelude.{◌≡◌, ◌≤◌, length, Err, IfOk, OnErr};
ghost use Rattle.cif_seq.specs.Cases.{net_of};
ghost use Rattle.cif_hall.specs.Sessions.{TriesAt, TriesNewest, TriesNext};
ghost use Rattle.cif_script.specs.Legal.{Show_steps};
ghost use Rattle.cif_run.specs.Readers.{Goes, IsGoing, IsReply};

use cif_bits::NoMemory;
use cif_checks::raw_access::name_copy;
use cif_core::Run;
use cif_defs::Wire;
use cif_hall::{AtFault, Hall, Session, ShowFault, Shown, Step};
use cif_io::Gate;
use cif_script::{Answer, Line};
use std::alloc::Global;
use std::sync::Wait;

/// Whether a session waits for a cycle that isn't done.
#[derive(Clone, Copy, Debug, Drop, PartialEq, Eq)]
pub enum Manner {
    /// It waits until the cycle is done.
    Waits,
    /// It goes there only where the cycle is done already.
    Tries,
}

/// Goes to a cycle.
fn go_at<N: Run, R: Wait>(
    session: &mut Session<N>,
    rt: &R,
    alloc: Global,
    hall: &Hall<N>,
    cycle: u64,
    manner: Manner,
) -> Result<Step, AtFault>
    ensures { TriesAt N.case.stimulus.cycles session.old cycle result session.new }
{
    match manner {
        Manner::Waits => match session.at(rt, alloc, hall, cycle) {
            Ok(()) => Ok(Step::Pinned),
            Err(fault) => Err(fault),
        },
        Manner::Tries => session.try_at(rt, alloc, hall, cycle),
    }
}

/// Goes to the next cycle.
fn go_next<N: Run, R: Wait>(
    session: &mut Session<N>,
    rt: &R,
    alloc: Global,
    hall: &Hall<N>,
    manner: Manner,
) -> Result<Step, AtFault>
    ensures { TriesNext N.case.stimulus.cycles session.old result session.new }
{
    match manner {
        Manner::Waits => match session.next(rt, alloc, hall) {
            Ok(()) => Ok(Step::Pinned),
            Err(fault) => Err(fault),
        },
        Manner::Tries => session.try_next(rt, alloc, hall),
    }
}

/// Goes to the newest cycle.
fn go_newest<N: Run, R: Wait>(
    session: &mut Session<N>,
    rt: &R,
    hall: &Hall<N>,
    manner: Manner,
) -> Result<Step, AtFault>
    ensures { TriesNewest N.case.stimulus.cycles session.old result session.new }
{
    match manner {
        Manner::Waits => match session.newest(rt, hall) {
            Ok(()) => Ok(Step::Pinned),
            Err(fault) => Err(fault),
        },
        Manner::Tries => session.try_newest(rt, hall),
    }
}

/// Goes where a line says.
pub(crate) fn go<N: Run, R: Wait>(
    session: &mut Session<N>,
    rt: &R,
    alloc: Global,
    hall: &Hall<N>,
    line: Line,
    manner: Manner,
) -> Result<Step, AtFault>
    requires { IsGoing line }
    ensures { Goes N.case.stimulus.cycles line session.old result session.new }
{
    match line {
        Line::At(cycle) => go_at(session, rt, alloc, hall, cycle, manner),
        Line::Next => go_next(session, rt, alloc, hall, manner),
        Line::Newest => go_newest(session, rt, hall, manner),
        Line::Show(_) => unreachable!(),
    }
}

/// The answer to such a line, once the session was told; none where the cycle isn't done. The gate hears of a cycle that is
/// pinned.
pub(crate) fn reply_to<N: Run, G: Gate>(
    session: &Session<N>,
    gate: &G,
    told: Result<Step, AtFault>,
) -> Result<Option<Answer>, NoMemory>
    ensures ok { IfOk result (IsReply session.now.pin told) }
    ensures err { OnErr result (told ≡ Err AtFault.Memory) }
{
    match told {
        Ok(Step::Pinned) => match session.cycle() {
            Some(cycle) => {
                gate.pinned(session.number(), cycle);
                Ok(Some(Answer::Cycle(cycle)))
            }
            None => Ok(None),
        },
        Ok(Step::Again(_)) => Ok(None),
        Err(AtFault::Back(own)) => Ok(Some(Answer::Back(own))),
        Err(AtFault::Past(total)) => Ok(Some(Answer::Past(total))),
        Err(AtFault::Memory) => Err(NoMemory),
    }
}

/// The answer to a line that shows a wire.
pub(crate) fn show<N: Run>(
    session: &Session<N>,
    alloc: Global,
    wire: &Wire,
) -> Result<Answer, NoMemory>
    requires { length wire.now.bits ≤ 65536 }
    ensures { IfOk result (λ answer.
        Show_steps (net_of N.case) N.case.stimulus session.now.pin wire.now answer session.now.pin) }
{
    match session.show(alloc, wire) {
        Ok(Shown { value, taint }) => {
            let name = name_copy(alloc, wire.name().items())?;
            Ok(Answer::Shown { name, value, taint })
        }
        Err(ShowFault::NotPinned) => Ok(Answer::Unpinned),
        Err(ShowFault::Memory) => Err(NoMemory),
    }
}
