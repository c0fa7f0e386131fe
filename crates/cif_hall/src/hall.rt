// The hall, and its opening.
ghost use Rattle.std.specs.Prelude.{◌≡◌, ◌<◌, ◌≤◌, ℕ, IfOk, vec_len, slice_index_or};
ghost use Rattle.cif_pieces.specs.Plans.{IsCounted, IsPlanOf};
ghost use Rattle.cif_core.specs.Machine.{fresh};
ghost use Rattle.cif_hall.specs.Sessions.{new_session};
ghost use Rattle.cif_hall.specs.Workers.{new_worker};

use crate::session::Session;
use crate::worker::Worker;
use cif_bits::NoMemory;
use cif_core::{Core, Run};
use cif_kept::Kept;
use cif_pieces::Plan;
use cif_seq::Case;
use std::alloc::Global;
use std::marker::Model;
use std::sync::ledger::{Blank, Share};
use std::sync::{Arc, Condvar, Mutex, MutexGuard, Wait};

/// The lock of a run with what lies under it, what wakes those that wait, and the run's case and plan. Contracts see it as
/// the case.
#[derive(Drop)]
pub struct Hall<N: Run> {
    kept: Mutex<Kept<N>>,
    moved: Condvar,
    case: Arc<Case>,
    plan: Arc<Plan>,
}

impl<N: Run> Model for Hall<N> {
    ghost use Rattle.std.specs.Prelude.{◌≡◌, ◌*◌};
    ghost use Rattle.cif_pieces.specs.Plans.{IsPlanOf};
    ghost use Rattle.cif_seq.specs.Cases.{CaseOf};

    ghost Value = { CaseOf };

    ghost view = { λ h. h.case.value };

    ghost invariant = { λ h. (h.case.value ≡ N.case) × (h.plan.value ≡ N.plan) × IsPlanOf N.case N.plan };
}

/// A hall with all its roles.
#[derive(Drop)]
pub struct Opened<N: Run> {
    /// The hall.
    pub hall: Hall<N>,
    /// Its workers, by number.
    pub workers: Vec<Worker<N>>,
    /// Its sessions, by number.
    pub sessions: Vec<Session<N>>,
}

/// So many workers, each with one part of the book.
fn new_workers<N: Run>(
    alloc: Global,
    workers: u32,
    share: Share<N>,
) -> Result<Vec<Worker<N>>, NoMemory>
    requires share { (share.parts ≡ workers) × (share.amount ≡ 0) }
    ensures len { IfOk result (λ ws. vec_len ws ≡ workers) }
    ensures each { IfOk result (λ ws. (i : ℕ) (d : _) → i < workers → slice_index_or ws.items i d ≡ new_worker i) }
{
    let mut rest = share;
    let mut roles = Vec::new(alloc);
    for number in 0..workers {
        let own = rest.split_off(1, 0);
        roles.push(Worker::of(number, 0, own))?;
    }
    Ok(roles)
}

/// So many sessions.
fn new_sessions<N: Run>(alloc: Global, sessions: u32) -> Result<Vec<Session<N>>, NoMemory>
    requires { sessions ≡ N.sessions }
    ensures len { IfOk result (λ ss. vec_len ss ≡ sessions) }
    ensures each { IfOk result (λ ss. (i : ℕ) (d : _) → i < sessions → slice_index_or ss.items i d ≡ new_session i) }
{
    let mut roles = Vec::new(alloc);
    for number in 0..sessions {
        roles.push(Session::new(number))?;
    }
    Ok(roles)
}

impl<N: Run> Hall<N> {
    /// Opens a hall over a new core, with so many workers and as many sessions as the core has. The book of the pieces that
    /// are taken is made from the blank ledger, which has one part for each worker.
    pub fn open(
        alloc: Global,
        core: Core<N>,
        workers: u32,
        blank: Blank,
    ) -> Result<Opened<N>, NoMemory>
        requires core { core ≡ fresh N.plan.parts N.sessions }
        requires workers { (1 ≤ workers) × (workers ≤ 32) }
        requires name { blank.name ≡ N.name }
        requires parts { (blank.parts ≡ N.parts) × (workers ≡ N.parts) }
        ensures workers { IfOk result (λ o. vec_len o.workers ≡ N.parts) }
        ensures each_worker { IfOk result (λ o. (i : ℕ) (d : _) → i < N.parts → slice_index_or o.workers.items i d ≡ new_worker i) }
        ensures sessions { IfOk result (λ o. vec_len o.sessions ≡ N.sessions) }
        ensures each_session { IfOk result (λ o. (i : ℕ) (d : _) → i < N.sessions → slice_index_or o.sessions.items i d ≡ new_session i) }
    {
        let case = Arc::try_clone(core.case())?;
        let plan = Arc::try_clone(core.plan())?;
        let sessions = new_sessions(alloc, core.sessions())?;
        let _taken = core.taken();
        let (book, share) = blank.open::<N>();
        let workers = new_workers(alloc, workers, share)?;
        let hall = Hall {
            kept: Mutex::new(Kept::new(core, book)),
            moved: Condvar::new(),
            case,
            plan,
        };
        Ok(Opened {
            hall,
            workers,
            sessions,
        })
    }

    /// The case.
    pub fn case(&self) -> &Arc<Case>
        ensures { result.now.value ≡ N.case }
    {
        &self.case
    }

    /// The plan, which is the case's.
    pub fn plan(&self) -> &Arc<Plan>
        ensures is { result.now.value ≡ N.plan }
        ensures planned { IsPlanOf N.case N.plan }
        ensures counted { IsCounted N.plan }
    {
        let _parts = self.plan.parts();
        &self.plan
    }

    /// The number of cycles, from 1 to 1,000,000.
    pub fn cycles(&self) -> u64
        ensures is { result ≡ N.case.stimulus.cycles }
        ensures some { 0 < result }
        ensures few { result ≤ 1000000 }
    {
        let _lines = self.case.stimulus().lines();
        self.case.cycles()
    }

    /// What lies under the lock, without it.
    pub(crate) fn into_kept(self) -> Kept<N> {
        let Hall { kept, .. } = self;
        kept.into_inner()
    }
}

/// The lock.
impl<N: Run> Hall<N> {
    /// Takes the lock. Whoever makes the mark rise under it has to call `wake` then.
    pub fn lock<R: Wait>(&self, rt: &R) -> MutexGuard<'_, Kept<N>> {
        self.kept.lock(rt)
    }

    /// Wakes all that wait where the mark rose, from `before` to `now`. At its end it rises without a change.
    pub fn wake(&self, before: u64, now: u64) {
        if before != now || now == u64::MAX {
            self.moved.notify_all();
        }
    }

    /// Lets go of the lock until someone is woken, and takes it again.
    pub(crate) fn wait_with<'a, R: Wait>(
        &'a self,
        rt: &R,
        guard: MutexGuard<'a, Kept<N>>,
    ) -> MutexGuard<'a, Kept<N>> {
        self.moved.wait(rt, guard)
    }

    /// Waits until the mark isn't this one. It doesn't wait where the mark is at its end.
    pub fn wait<R: Wait>(&self, rt: &R, mark: u64) {
        let mut guard = self.lock(rt);
        for _ in rt.forever() {
            if guard.mark() != mark || mark == u64::MAX {
                return;
            }
            guard = self.wait_with(rt, guard);
        }
    }

    /// Keeps a failure for good: a role found no memory.
    pub fn fail<R: Wait>(&self, rt: &R) {
        let mut guard = self.lock(rt);
        let before = guard.mark();
        guard.fail();
        self.wake(before, guard.mark());
    }
}
