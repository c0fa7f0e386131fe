// A worker's turn.
ghost use Rattle.std.specs.Prelude.{◌≡◌, ◌*◌, ◌-◌, ◌<◌, ℕ, MatchOption, length};
ghost use Rattle.cif_pieces.specs.Filled.{AllHere};
ghost use Rattle.cif_seq.specs.Cases.{frame_of};
ghost use Rattle.cif_hall.specs.Workers.{turned};

use crate::hall::Hall;
use crate::told::{Asked, Turn};
use crate::worker::Worker;
use cif_core::{Claim, Piece, Run};
use cif_io::Gate;
use cif_kept::{joined, piece_after};
use cif_pieces::Slots;
use std::alloc::Global;
use std::sync::Wait;

impl<N: Run> Worker<N> {
    /// Claims once, does the work outside the lock, and hands it in.
    ///
    /// Its count rises, by one, exactly where the turn is `Deposited`.
    pub fn turn<R: Wait, G: Gate>(
        &mut self,
        rt: &R,
        alloc: Global,
        hall: &Hall<N>,
        gate: &G,
    ) -> Turn
        ensures { self.new ≡ turned result self.old }
    {
        let mut guard = hall.lock(rt);
        let before = guard.mark();
        let asked = self.ask(&mut *guard);
        hall.wake(before, guard.mark());
        match asked {
            Err(_) => Turn::NoMemory,
            Ok(Asked::Blocked(mark)) => Turn::Blocked(mark),
            Ok(Asked::Ended) => Turn::Ended,
            Ok(Asked::Work(Claim::Piece(piece))) => {
                drop(guard);
                self.compute(rt, alloc, hall, gate, piece)
            }
            Ok(Asked::Work(Claim::Assemble(slots))) => {
                drop(guard);
                self.join_up(rt, alloc, hall, slots)
            }
            Ok(Asked::Work(_)) => unreachable!(),
        }
    }

    /// Computes a part and hands it in.
    fn compute<R: Wait, G: Gate>(
        &mut self,
        rt: &R,
        alloc: Global,
        hall: &Hall<N>,
        gate: &G,
        piece: Piece,
    ) -> Turn
        requires part { piece.part < N.plan.parts }
        requires within { piece.cycle < N.case.stimulus.cycles }
        requires prior { MatchOption piece.prior (piece.cycle ≡ 0)
            (λ f. (0 < piece.cycle) × (f.value ≡ frame_of N.case (piece.cycle - 1))) }
        ensures { self.new ≡ turned result self.old }
    {
        let Piece { cycle, part, prior } = piece;
        let Ok(done) = piece_after(alloc, hall.case(), hall.plan(), part, &prior) else {
            hall.fail(rt);
            return Turn::NoMemory;
        };
        gate.pass(self.number(), cycle, part);
        let mut guard = hall.lock(rt);
        let before = guard.mark();
        let is_taken = self.give(&mut *guard, done);
        hall.wake(before, guard.mark());
        if is_taken {
            Turn::Deposited
        } else {
            Turn::Dropped
        }
    }

    /// Makes a frame of pieces and hands it in.
    fn join_up<R: Wait>(&mut self, rt: &R, alloc: Global, hall: &Hall<N>, slots: Slots) -> Turn
        requires len { length slots ≡ N.plan.parts }
        requires here { (k : ℕ) × AllHere N.case k N.plan.parts slots }
        ensures { self.new ≡ turned result self.old }
    {
        let mut slots = slots;
        let Ok(frame) = joined(alloc, hall.case(), hall.plan(), &mut slots) else {
            hall.fail(rt);
            return Turn::NoMemory;
        };
        let mut guard = hall.lock(rt);
        let before = guard.mark();
        let is_published = self.give_frame(&mut *guard, frame, slots);
        hall.wake(before, guard.mark());
        if is_published {
            Turn::Published
        } else {
            Turn::Dropped
        }
    }
}
