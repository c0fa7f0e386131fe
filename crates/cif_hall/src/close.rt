// Closing a hall.
ghost use Rattle.std.specs.Prelude.{◌≡◌, ◌*◌, ◌+◌, ◌≤◌, ◌<◌, false, true, IfOk, vec_len};
ghost use Rattle.std.specs.List.{sum_by};

use crate::finish::{finish, leave_all, take_over};
use crate::hall::Hall;
use crate::session::Session;
use crate::worker::Worker;
use cif_bits::NoMemory;
use cif_core::Run;
use std::alloc::Global;
use std::sync::ledger::Book;

/// How a run ended.
#[derive(Drop)]
pub struct Closed<N: Run> {
    /// How many cycles are done.
    pub done: u64,
    /// Whether a role, or the closing itself, found no memory.
    pub failed: bool,
    /// The workers, with their counts.
    pub workers: Vec<Worker<N>>,
}

/// A worker's number and count.
#[derive(Clone, Copy)]
struct Tally {
    number: u32,
    accepted: u64,
}

/// Puts the shares of all workers together, which shows that their counts add up to the total of the book, and hands them out
/// again.
fn audit_all<N: Run>(
    alloc: Global,
    book: &mut Book<N>,
    workers: Vec<Worker<N>>,
) -> Result<Vec<Worker<N>>, NoMemory>
    requires { (vec_len workers ≡ N.parts) × (0 < vec_len workers) }
    ensures sum { IfOk result (λ ws. sum_by (λ w. w.accepted) ws.items ≡ book.old.total) }
    ensures len { IfOk result (λ ws. vec_len ws ≡ vec_len workers) }
{
    let mut left = workers;
    let mut tallies = Vec::new(alloc);
    let Some(last) = left.pop() else {
        unreachable!()
    };
    let (number, accepted, share) = last.apart();
    let mut all = share;
    tallies.push(Tally { number, accepted })?;
    while let Some(worker) = left.pop() {
        let (number, accepted, share) = worker.apart();
        all.merge(share);
        tallies.push(Tally { number, accepted })?;
    }
    book.audit(&mut all);
    let mut back = Vec::new(alloc);
    while let Some(tally) = tallies.pop() {
        let Tally { number, accepted } = tally;
        let share = all.split_off(1, accepted);
        back.push(Worker::of(number, accepted, share))?;
    }
    Ok(back)
}

impl<N: Run> Hall<N> {
    /// Closes a hall to which all its workers were handed back. Every session leaves; then, unless a failure is kept, the
    /// cycles that aren't done are finished on the caller's thread, in the name of worker 0, with the parts and the frame
    /// that someone else had begun.
    ///
    /// Without a failure every cycle is done, and the workers' counts add up to the cycles times the parts. The only error is
    /// want of memory for the list of workers; any other want of memory is a failure that is kept.
    pub fn close(
        self,
        alloc: Global,
        workers: Vec<Worker<N>>,
        sessions: Vec<Session<N>>,
    ) -> Result<Closed<N>, NoMemory>
        requires { (vec_len workers ≡ N.parts) × (0 < vec_len workers) }
        ensures workers { IfOk result (λ z. vec_len z.workers ≡ N.parts) }
        ensures finished { IfOk result (λ z. z.failed ≡ false → z.done ≡ N.case.stimulus.cycles) }
        ensures counts { IfOk result (λ z. z.failed ≡ false
            → sum_by (λ w. w.accepted) z.workers.items ≡ N.case.stimulus.cycles * N.plan.parts) }
        ensures started { IfOk result (λ z. z.done * N.plan.parts ≤ sum_by (λ w. w.accepted) z.workers.items) }
        ensures no_more { IfOk result (λ z. sum_by (λ w. w.accepted) z.workers.items ≤ z.done * N.plan.parts + N.plan.parts) }
    {
        drop(sessions);
        let mut kept = self.into_kept();
        let mut workers = workers;
        leave_all(&mut kept);
        take_over(alloc, &mut kept, &mut workers[0]);
        finish(alloc, &mut kept, &mut workers[0]);
        let failed = kept.core().failed();
        let done = kept.core().done();
        let _taken = kept.core().taken();
        let mut book = kept.into_book();
        let workers = audit_all(alloc, &mut book, workers)?;
        Ok(Closed {
            done,
            failed,
            workers,
        })
    }
}
