// The work that is left at the closing.
ghost use Rattle.std.specs.Prelude.{◌≡◌, ◌*◌, ◌-◌, ◌+◌, ◌<◌, ℕ, false, true, IfOk, MatchOption, length};
ghost use Rattle.cif_pieces.specs.Filled.{AllHere};
ghost use Rattle.cif_seq.specs.Cases.{frame_of};
ghost use Rattle.cif_core.specs.Machine.{IsOver, given, mark_at, published, taken};
ghost use Rattle.cif_core.specs.declared.mark.Mark.TheVariants.{Claimed};
ghost use Rattle.cif_kept.specs.Closing.{IsAlone, IsDeserted, IsInHand, to_do};

use crate::told::Asked;
use crate::worker::Worker;
use cif_bits::NoMemory;
use cif_core::{Claim, Newest, Piece, Run};
use cif_kept::{Kept, joined, piece_after};
use cif_pieces::Slots;
use cif_seq::{Frame, first_frame, next_frame};
use std::alloc::Global;
use std::sync::Arc;

/// Lets every session leave.
pub(crate) fn leave_all<N: Run>(kept: &mut Kept<N>)
    ensures { IsDeserted kept.new.core }
{
    for session in 0..kept.core().sessions() {
        kept.leave(session);
    }
    let _done = kept.core().done();
}

/// Whether there is a cycle to finish, and no failure is kept.
fn is_open<N: Run>(kept: &Kept<N>) -> bool
    ensures fine { result ≡ true → kept.now.core.failed ≡ false }
    ensures more { result ≡ true → kept.now.core.done < N.case.stimulus.cycles }
    ensures over { result ≡ false → IsOver N.case kept.now.core }
{
    let core = kept.core();
    !core.failed() && core.done() < core.case().cycles()
}

/// The last completed frame; `None` where none is.
fn last_frame<N: Run>(kept: &Kept<N>) -> Result<Option<Arc<Frame>>, NoMemory>
    ensures { IfOk result (λ last. MatchOption last (kept.now.core.done ≡ 0)
        (λ f. (0 < kept.now.core.done) × (f.value ≡ frame_of N.case (kept.now.core.done - 1)))) }
{
    match kept.newest()? {
        Newest::Found(frame) => Ok(Some(frame)),
        Newest::NoneYet | Newest::Failed => Ok(None),
    }
}

/// The frame of the open cycle, made of the one before it.
fn open_frame<N: Run>(alloc: Global, kept: &Kept<N>) -> Result<Arc<Frame>, NoMemory>
    requires { kept.now.core.done < N.case.stimulus.cycles }
    ensures { IfOk result (λ f. f.value ≡ frame_of N.case kept.now.core.done) }
{
    let frame = match last_frame(kept)? {
        Some(last) => next_frame(alloc, &*last)?,
        None => first_frame(alloc, kept.core().case())?,
    };
    Ok(Arc::new(alloc, frame)?)
}

/// Computes a claimed part and hands it in. Where that finds no memory, the run has failed.
fn do_part<N: Run>(
    alloc: Global,
    kept: &mut Kept<N>,
    worker: &mut Worker<N>,
    part: u32,
    prior: &Option<Arc<Frame>>,
)
    requires inside { part < N.plan.parts }
    requires claimed { mark_at kept.old.core.marks part ≡ Claimed }
    requires fine { kept.old.core.failed ≡ false }
    requires more { kept.old.core.done < N.case.stimulus.cycles }
    requires prior { MatchOption prior.now (kept.old.core.done ≡ 0)
        (λ f. (0 < kept.old.core.done) × (f.value ≡ frame_of N.case (kept.old.core.done - 1))) }
    ensures given { kept.new.core.failed ≡ false → kept.new.core ≡ given kept.old.core part }
    ensures taken { kept.new.core.failed ≡ false
        → taken N.plan.parts kept.new.core ≡ taken N.plan.parts kept.old.core + 1 }
{
    let core = kept.core();
    match piece_after(alloc, core.case(), core.plan(), part, prior) {
        Ok(piece) => {
            worker.give(kept, piece);
        }
        Err(_) => kept.fail(),
    }
}

/// Makes a frame of the pieces of the cycle under assembly, and publishes it. Where that finds no memory, the run has failed.
fn do_frame<N: Run>(alloc: Global, kept: &mut Kept<N>, worker: &mut Worker<N>, slots: Slots)
    requires len { length slots ≡ N.plan.parts }
    requires here { AllHere N.case kept.old.core.done N.plan.parts slots }
    requires fine { kept.old.core.failed ≡ false }
    requires assembling { kept.old.core.assembling ≡ true }
    ensures published { kept.new.core.failed ≡ false → kept.new.core ≡ published kept.old.core }
    ensures taken { kept.new.core.failed ≡ false
        → taken N.plan.parts kept.new.core ≡ taken N.plan.parts kept.old.core }
{
    let mut slots = slots;
    let core = kept.core();
    match joined(alloc, core.case(), core.plan(), &mut slots) {
        Ok(frame) => {
            worker.give_frame(kept, frame, slots);
        }
        Err(_) => kept.fail(),
    }
}

/// Publishes the frame of the cycle that someone else had begun to assemble.
fn take_assembly<N: Run>(alloc: Global, kept: &mut Kept<N>, worker: &mut Worker<N>)
    requires deserted { IsDeserted kept.old.core }
    requires fine { kept.old.core.failed ≡ false }
    requires more { kept.old.core.done < N.case.stimulus.cycles }
    requires assembling { kept.old.core.assembling ≡ true }
    ensures { IsInHand N.case kept.new.core }
{
    let Ok(frame) = open_frame(alloc, kept) else {
        kept.fail();
        return;
    };
    let Ok(slots) = Slots::empty(alloc, kept.core().plan().parts()) else {
        kept.fail();
        return;
    };
    worker.give_frame(kept, frame, slots);
}

/// Computes and hands in the parts that someone else had claimed.
fn take_parts<N: Run>(
    alloc: Global,
    kept: &mut Kept<N>,
    worker: &mut Worker<N>,
    prior: &Option<Arc<Frame>>,
)
    requires deserted { IsDeserted kept.old.core }
    requires fine { kept.old.core.failed ≡ false }
    requires more { kept.old.core.done < N.case.stimulus.cycles }
    requires resting { kept.old.core.assembling ≡ false }
    requires prior { MatchOption prior.now (kept.old.core.done ≡ 0)
        (λ f. (0 < kept.old.core.done) × (f.value ≡ frame_of N.case (kept.old.core.done - 1))) }
    ensures { IsInHand N.case kept.new.core }
{
    for part in 0..kept.core().plan().parts() {
        if kept.core().claimed(part) {
            do_part(alloc, kept, worker, part, prior);
        }
        if kept.core().failed() {
            return;
        }
    }
    let _done = kept.core().done();
}

/// Takes over what others had begun.
pub(crate) fn take_over<N: Run>(alloc: Global, kept: &mut Kept<N>, worker: &mut Worker<N>)
    requires { IsDeserted kept.old.core }
    ensures { IsInHand N.case kept.new.core }
{
    if !is_open(kept) {
        return;
    }
    if kept.core().assembling() {
        take_assembly(alloc, kept, worker);
        return;
    }
    match last_frame(kept) {
        Ok(prior) => take_parts(alloc, kept, worker, &prior),
        Err(_) => kept.fail(),
    }
}

/// Claims once, and does what is claimed.
fn step<N: Run>(alloc: Global, kept: &mut Kept<N>, worker: &mut Worker<N>)
    requires alone { IsAlone kept.old.core }
    requires fine { kept.old.core.failed ≡ false }
    requires more { kept.old.core.done < N.case.stimulus.cycles }
    ensures hand { IsInHand N.case kept.new.core }
    ensures fewer { to_do N.case N.plan.parts kept.new.core < to_do N.case N.plan.parts kept.old.core }
{
    let _window = kept.core().window();
    let _done = kept.core().done();
    match worker.ask(kept) {
        Ok(Asked::Work(Claim::Piece(piece))) => {
            let Piece {
                cycle: _,
                part,
                prior,
            } = piece;
            do_part(alloc, kept, worker, part, &prior);
        }
        Ok(Asked::Work(Claim::Assemble(slots))) => do_frame(alloc, kept, worker, slots),
        Ok(Asked::Blocked(_)) => unreachable!(),
        Ok(Asked::Ended) => unreachable!(),
        Ok(Asked::Work(_)) => unreachable!(),
        Err(_) => {}
    }
}

/// Finishes the cycles that aren't done.
pub(crate) fn finish<N: Run>(alloc: Global, kept: &mut Kept<N>, worker: &mut Worker<N>)
    requires { IsInHand N.case kept.old.core }
    ensures { IsOver N.case kept.new.core }
{
    while is_open(kept) {
        step(alloc, kept, worker);
    }
}
