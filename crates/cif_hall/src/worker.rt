// Workers.
ghost use Rattle.std.specs.Prelude.{◌≡◌, ◌*◌, ◌<◌, ◌+◌, ◌↔◌, IfOk, IsTrue, OnErr, length, if◌then◌else◌};
ghost use Rattle.cif_pieces.specs.Filled.{AllEmpty};
ghost use Rattle.cif_core.specs.Machine.{taken};
ghost use Rattle.cif_core.specs.Replies.{Awaits, Expects, HasPart};
ghost use Rattle.cif_kept.specs.Kept.{failing, publishing, taking};
ghost use Rattle.cif_hall.specs.Workers.{Asks, credited};

use crate::told::Asked;
use cif_bits::NoMemory;
use cif_core::{Claim, Deposit, Publish, Run};
use cif_kept::Kept;
use cif_pieces::{PartDone, Slots};
use cif_seq::Frame;
use std::marker::Model;
use std::sync::Arc;
use std::sync::ledger::Share;

/// A worker, which computes parts and makes frames of them. Contracts see its number and how many of its pieces were taken.
#[derive(Drop)]
pub struct Worker<N: Run> {
    number: u32,
    accepted: u64,
    // One part of the book.
    share: Share<N>,
}

impl<N: Run> Model for Worker<N> {
    ghost use Rattle.std.specs.Prelude.{◌≡◌, ◌*◌};
    ghost use Rattle.cif_hall.specs.Workers.{WorkerOf};

    ghost Value = { WorkerOf };

    ghost view = { λ w. record { number = w.number; accepted = w.accepted } };

    ghost invariant = { λ w. (w.share.parts ≡ 1) × (w.share.amount ≡ w.accepted) };
}

impl<N: Run> Worker<N> {
    /// A worker with one part of the book, which counts the pieces that it says.
    pub(crate) fn of(number: u32, accepted: u64, share: Share<N>) -> Worker<N>
        requires { (share.parts ≡ 1) × (share.amount ≡ accepted) }
        ensures { result ≡ record { number = number; accepted = accepted } }
    {
        Worker {
            number,
            accepted,
            share,
        }
    }

    /// Its number, its count and its part of the book.
    pub(crate) fn apart(self) -> (u32, u64, Share<N>)
        ensures number { result.0 ≡ self.number }
        ensures accepted { result.1 ≡ self.accepted }
        ensures share { (result.2.parts ≡ 1) × (result.2.amount ≡ self.accepted) }
    {
        let Worker {
            number,
            accepted,
            share,
        } = self;
        (number, accepted, share)
    }

    /// Its number, counted from 0.
    pub fn number(&self) -> u32
        ensures { result ≡ self.now.number }
    {
        self.number
    }

    /// How many of its pieces were taken.
    pub fn accepted(&self) -> u64
        ensures { result ≡ self.now.accepted }
    {
        self.accepted
    }
}

/// What a worker does under the lock.
impl<N: Run> Worker<N> {
    /// Claims work. Where that finds no memory, the run has failed.
    pub fn ask(&mut self, kept: &mut Kept<N>) -> Result<Asked, NoMemory>
        ensures ok { IfOk result (λ told. Asks N.case N.plan.parts N.window kept.old told kept.new) }
        ensures err { OnErr result (kept.new ≡ failing kept.old) }
        ensures lends { OnErr result (HasPart N.case N.window kept.old.core × (0 < kept.old.core.done)) }
        ensures taken { taken N.plan.parts kept.new.core ≡ taken N.plan.parts kept.old.core }
        ensures worker { self.new ≡ self.old }
    {
        match kept.claim() {
            Ok(Claim::Wait) => Ok(Asked::Blocked(kept.mark())),
            Ok(Claim::Finished) => Ok(Asked::Ended),
            Ok(work) => Ok(Asked::Work(work)),
            Err(fault) => {
                kept.fail();
                Err(fault)
            }
        }
    }

    /// Hands in a piece, and says whether it was taken. One that wasn't is dropped.
    pub fn give(&mut self, kept: &mut Kept<N>, piece: PartDone) -> bool
        requires case { piece.case ≡ N.case }
        requires parts { piece.parts ≡ N.plan.parts }
        ensures when { IsTrue result ↔ Expects kept.old.core piece }
        ensures kept { kept.new ≡ (if result then taking kept.old piece.part else kept.old) }
        ensures taken { taken N.plan.parts kept.new.core
            ≡ (if result then taken N.plan.parts kept.old.core + 1 else taken N.plan.parts kept.old.core) }
        ensures worker { self.new ≡ (if result then credited self.old else self.old) }
    {
        match kept.deposit(&mut self.share, piece) {
            Deposit::Taken => {
                self.accepted += 1;
                true
            }
            Deposit::Stranger(_) => false,
        }
    }

    /// Hands in a frame with empty slots, and says whether it was published. What wasn't is dropped.
    pub fn give_frame(&mut self, kept: &mut Kept<N>, frame: Arc<Frame>, slots: Slots) -> bool
        requires case { frame.value.case ≡ N.case }
        requires slots { (length slots ≡ N.plan.parts) × AllEmpty slots }
        ensures when { IsTrue result ↔ Awaits kept.old.core frame.value }
        ensures kept { kept.new ≡ (if result then publishing kept.old else kept.old) }
        ensures taken { taken N.plan.parts kept.new.core ≡ taken N.plan.parts kept.old.core }
        ensures worker { self.new ≡ self.old }
    {
        match kept.publish(frame, slots) {
            Publish::Published => true,
            Publish::Stranger(_, _) => false,
        }
    }
}
