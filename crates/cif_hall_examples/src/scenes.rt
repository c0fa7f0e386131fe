// Workers and sessions that are turned by hand, over the counter in two parts with a window of 64 cycles, two workers and
// four sessions.
ghost use Rattle.std.specs.Prelude.{◌≡◌, ◌*◌, vec_len};
ghost use Rattle.cif_pieces.specs.Plans.{IsPlanOf};

use crate::counter::counter_case;
use cif_core::{Core, Run};
use cif_hall::{AskFault, Asked, AtFault, Closed, Hall, Opened, Session, Step, Turn, Worker};
use cif_io::{Gate, Open};
use cif_parts::plan;
use cif_pieces::Plan;
use cif_seq::Case;
use std::alloc::Global;
use std::marker::Brand;
use std::process::Abort;
use std::sync::ledger::Blank;
use std::sync::{Arc, Wait};
use std::test::Fail;

/// What is done in a hall.
#[derive(Clone, Copy)]
enum Scene {
    /// Cycles are asked for before any worker's turn.
    Early,
    /// The run has failed before any worker's turn.
    Failed,
    /// The newest frame is asked for once a worker has ended.
    Newest,
    /// A session asks for a cycle below the one that it wants.
    Apart,
    /// The run fails while a piece is computed.
    Late,
    /// The hall is closed after a worker took work that it never hands in.
    Lost(Lost),
}

/// What the second worker does before the first takes its work, and after.
#[derive(Clone, Copy)]
struct Lost {
    before: &'static [Turn],
    after: &'static [Turn],
}

/// Each of the four kinds of work that may be lost: a part of the first and of a later cycle, and their assemblies.
const LOST: [Lost; 4] = [
    Lost {
        before: &[],
        after: &[Turn::Deposited, Turn::Blocked(1)],
    },
    Lost {
        before: &[Turn::Deposited, Turn::Deposited],
        after: &[Turn::Blocked(2)],
    },
    Lost {
        before: &[
            Turn::Deposited,
            Turn::Deposited,
            Turn::Published,
            Turn::Deposited,
        ],
        after: &[Turn::Blocked(4)],
    },
    Lost {
        before: &[
            Turn::Deposited,
            Turn::Deposited,
            Turn::Published,
            Turn::Deposited,
            Turn::Deposited,
        ],
        after: &[Turn::Blocked(5)],
    },
];

/// The turns of a worker alone over a cycle.
const CYCLE: [Turn; 3] = [Turn::Deposited, Turn::Deposited, Turn::Published];

/// Its turns over the other four.
const REST: [Turn; 13] = [
    Turn::Deposited,
    Turn::Deposited,
    Turn::Published,
    Turn::Deposited,
    Turn::Deposited,
    Turn::Published,
    Turn::Deposited,
    Turn::Deposited,
    Turn::Published,
    Turn::Deposited,
    Turn::Deposited,
    Turn::Published,
    Turn::Ended,
];

/// Turns a worker, which does what is listed.
fn turn_through<N: Run, R: Abort + Wait>(
    rt: &R,
    alloc: Global,
    hall: &Hall<N>,
    worker: &mut Worker<N>,
    turns: &[Turn],
) {
    for turn in turns {
        assert_eq!(rt; worker.turn(rt, alloc, hall, &Open), *turn);
    }
}

/// No cycle is done yet.
fn ask_early<N: Run, R: Abort + Wait>(rt: &R, alloc: Global, opened: Opened<N>)
    requires { vec_len opened.sessions ≡ 4 }
{
    let Opened {
        hall,
        mut sessions,
        ..
    } = opened;
    assert_eq!(rt; sessions[0].try_at(rt, alloc, &hall, 0), Ok(Step::Again(0)));
    assert_eq!(rt; sessions[1].try_next(rt, alloc, &hall), Ok(Step::Again(0)));
    assert_eq!(rt; sessions[2].try_newest(rt, &hall), Ok(Step::Again(0)));
}

/// The want of memory of some role is told to whoever asks, and ends the workers.
fn ask_after_failure<N: Run, R: Abort + Wait>(rt: &R, alloc: Global, opened: Opened<N>)
    requires { vec_len opened.sessions ≡ 4 }
{
    let Opened {
        hall,
        mut workers,
        mut sessions,
    } = opened;
    let [worker, _] = workers.as_mut_slice() else {
        panic!(rt; "two workers");
    };
    hall.fail(rt);
    assert_eq!(rt; sessions[0].at(rt, alloc, &hall, 0), Err(AtFault::Memory));
    assert_eq!(rt; sessions[1].next(rt, alloc, &hall), Err(AtFault::Memory));
    assert_eq!(rt; sessions[2].newest(rt, &hall), Err(AtFault::Memory));
    assert_eq!(rt;
        sessions[3].try_at(rt, alloc, &hall, 0),
        Err(AtFault::Memory)
    );
    turn_through(rt, alloc, &hall, worker, &[Turn::Ended]);
}

/// The last frame of all is pinned by those who had pinned the first, and by those who had pinned none.
fn ask_newest<N: Run, R: Abort + Wait>(rt: &R, alloc: Global, opened: Opened<N>)
    requires { vec_len opened.sessions ≡ 4 }
{
    let Opened {
        hall,
        mut workers,
        mut sessions,
    } = opened;
    let [worker, _] = workers.as_mut_slice() else {
        panic!(rt; "two workers");
    };
    turn_through(rt, alloc, &hall, worker, &CYCLE);
    assert_eq!(rt; sessions[0].at(rt, alloc, &hall, 0), Ok(()));
    assert_eq!(rt; sessions[1].at(rt, alloc, &hall, 0), Ok(()));
    turn_through(rt, alloc, &hall, worker, &REST);
    assert_eq!(rt; sessions[0].newest(rt, &hall), Ok(()));
    assert_eq!(rt; sessions[1].try_newest(rt, &hall), Ok(Step::Pinned));
    assert_eq!(rt; sessions[2].newest(rt, &hall), Ok(()));
    assert_eq!(rt; sessions[3].try_newest(rt, &hall), Ok(Step::Pinned));
    for session in &sessions {
        assert_eq!(rt; session.cycle(), Some(4));
    }
}

/// A session that wants cycle 3 and has pinned none isn't given cycle 1, and no event happens. It computes that frame itself,
/// before any worker's turn.
fn ask_apart<N: Run, R: Abort + Wait>(rt: &R, alloc: Global, opened: Opened<N>) {
    let Opened {
        hall,
        mut sessions,
        ..
    } = opened;
    let [session, _, _, _] = sessions.as_mut_slice() else {
        panic!(rt; "four sessions");
    };
    assert_eq!(rt; hall.cycles(), 5);
    assert!(rt; session.cycle().is_none());
    let mut guard = hall.lock(rt);
    assert_eq!(rt; session.ask_at(&mut *guard, 3), Ok(Step::Again(0)));
    assert!(rt; session.cycle().is_none());
    let mark = guard.mark();
    assert_eq!(rt;
        session.ask_at(&mut *guard, 1),
        Err(AskFault::Apart(Some(3)))
    );
    assert_eq!(rt; guard.mark(), mark);
    assert_eq!(rt; guard.core().kept_want(session.number()), Some(3));
    drop(guard);
    assert!(rt; session.cycle().is_none());
    assert_eq!(rt; session.at(rt, alloc, &hall, 1), Ok(()));
    assert_eq!(rt; session.cycle(), Some(1));
    assert_eq!(rt; hall.lock(rt).core().done(), 0);
}

/// A gate at which the run fails.
struct Failing<'a, N: Run, R: Wait> {
    rt: &'a R,
    hall: &'a Hall<N>,
}

impl<N: Run, R: Wait> Gate for Failing<'_, N, R> {
    fn pass(&self, _worker: u32, _cycle: u64, _part: u32) {
        self.hall.fail(self.rt);
    }

    fn pinned(&self, _session: u32, _cycle: u64) {}
}

/// The piece that a worker computed before a failure isn't taken after it.
fn turn_late<N: Run, R: Abort + Wait>(rt: &R, alloc: Global, opened: Opened<N>) {
    let Opened {
        hall,
        mut workers,
        ..
    } = opened;
    let [worker, _] = workers.as_mut_slice() else {
        panic!(rt; "two workers");
    };
    let gate = Failing { rt, hall: &hall };
    assert_eq!(rt; worker.turn(rt, alloc, &hall, &gate), Turn::Dropped);
    let Failing { rt: _, hall: _ } = gate;
    assert_eq!(rt; worker.accepted(), 0);
    turn_through(rt, alloc, &hall, worker, &[Turn::Ended]);
}

/// Takes work, and drops it.
fn lose_work<N: Run, R: Abort + Wait>(rt: &R, hall: &Hall<N>, worker: &mut Worker<N>) {
    let mut guard = hall.lock(rt);
    assert!(rt; matches!(worker.ask(&mut *guard), Ok(Asked::Work(_))));
}

/// The closing finishes all five cycles, in the first worker's name.
fn close<N: Run, R: Abort + Wait>(
    rt: &R,
    alloc: Global,
    opened: Opened<N>,
    lost: Lost,
) -> Result<(), Fail>
    requires { N.parts ≡ 2 }
{
    let Opened {
        hall,
        mut workers,
        sessions,
    } = opened;
    let [first, second] = workers.as_mut_slice() else {
        panic!(rt; "two workers");
    };
    turn_through(rt, alloc, &hall, second, lost.before);
    lose_work(rt, &hall, first);
    turn_through(rt, alloc, &hall, second, lost.after);
    let given = second.accepted();
    assert_eq!(rt; workers.len(), 2);
    let Closed {
        done,
        failed,
        workers,
    } = hall.close(alloc, workers, sessions)?;
    assert_eq!(rt; (done, failed), (5, false));
    let [first, second] = workers.as_slice() else {
        panic!(rt; "two workers");
    };
    assert_eq!(rt; first.accepted().saturating_add(given), 10);
    assert_eq!(rt; second.accepted(), given);
    Ok(())
}

/// A scene, in a hall under a name.
fn play<N: Run, R: Abort + Wait>(
    rt: &R,
    alloc: Global,
    blank: Blank,
    case: Case,
    plan: Plan,
    scene: Scene,
) -> Result<(), Fail>
    requires name { blank.name ≡ N.name }
    requires workers { (blank.parts ≡ N.parts) × (N.parts ≡ 2) }
    requires case { case ≡ N.case }
    requires plan { (plan ≡ N.plan) × IsPlanOf N.case N.plan }
    requires size { (N.window ≡ 64) × (N.sessions ≡ 4) }
{
    let case = Arc::new(alloc, case)?;
    let plan = Arc::new(alloc, plan)?;
    let core = Core::<N>::new(alloc, case, plan, 64, 4)?;
    let opened = Hall::open(alloc, core, 2, blank)?;
    match scene {
        Scene::Early => ask_early(rt, alloc, opened),
        Scene::Failed => ask_after_failure(rt, alloc, opened),
        Scene::Newest => ask_newest(rt, alloc, opened),
        Scene::Apart => ask_apart(rt, alloc, opened),
        Scene::Late => turn_late(rt, alloc, opened),
        Scene::Lost(lost) => close(rt, alloc, opened, lost)?,
    }
    Ok(())
}

/// A scene, in a hall of its own.
fn assert_scene<R: Abort + Wait>(rt: &R, alloc: Global, scene: Scene) -> Result<(), Fail> {
    let case = counter_case(rt, alloc)?;
    let plan = plan(alloc, &case, 2)?;
    play::<Brand, R>(rt, alloc, Blank::new(2), case, plan, scene)
}

#[test]
fn asked_early(rt: HostRuntime) -> Result<(), Fail> {
    assert_scene(&rt, rt.alloc(), Scene::Early)
}

#[test]
fn asked_after_a_failure(rt: HostRuntime) -> Result<(), Fail> {
    assert_scene(&rt, rt.alloc(), Scene::Failed)
}

#[test]
fn asked_for_the_newest(rt: HostRuntime) -> Result<(), Fail> {
    assert_scene(&rt, rt.alloc(), Scene::Newest)
}

#[test]
fn asked_apart(rt: HostRuntime) -> Result<(), Fail> {
    assert_scene(&rt, rt.alloc(), Scene::Apart)
}

#[test]
fn turned_late(rt: HostRuntime) -> Result<(), Fail> {
    assert_scene(&rt, rt.alloc(), Scene::Late)
}

#[test]
fn closed_after_a_loss(rt: HostRuntime) -> Result<(), Fail> {
    for lost in LOST {
        assert_scene(&rt, rt.alloc(), Scene::Lost(lost))?;
    }
    Ok(())
}
