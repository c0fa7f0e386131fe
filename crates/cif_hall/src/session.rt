// Sessions, and what they ask under the lock.
ghost use Rattle.std.specs.Prelude.{◌≡◌, ◌<◌, ◌≤◌, ◌↔◌, IsTrue, MatchOption, ⊤};
ghost use Rattle.cif_kept.specs.Kept.{is_want as is_want_of, wanting};
ghost use Rattle.cif_core.specs.Machine.{floor, want_at};
ghost use Rattle.cif_hall.specs.Sessions.{AsksAt, AsksNewest, IsAhead, IsApart, new_session};

use crate::told::{AskFault, AtFault, Step};
use cif_core::{Look, Newest, Run};
use cif_kept::Kept;
use cif_seq::Frame;
use std::marker::{Model, PhantomData};
use std::sync::Arc;

/// A session, which pins frames of the run while it goes on. Contracts see its number, the pinned cycle, and whether it
/// found no memory.
#[derive(Drop)]
pub struct Session<N: Run> {
    pub(crate) number: u32,
    pub(crate) pin: Option<Arc<Frame>>,
    pub(crate) starved: bool,
    name: PhantomData<N>,
}

impl<N: Run> Model for Session<N> {
    ghost use Rattle.std.specs.Prelude.{◌<◌, ◌*◌};
    ghost use Rattle.cif_kept.specs.Pins.{pin_of};
    ghost use Rattle.cif_hall.specs.Sessions.{IsOurs, SessionOf};

    ghost Value = { SessionOf };

    ghost view = { λ s. record { number = s.number; pin = pin_of s.pin; starved = s.starved } };

    ghost invariant = { λ s. (s.number < N.sessions) × IsOurs N.case s.pin };
}

/// Whether a want is this cycle.
fn is_want(want: Option<u64>, cycle: u64) -> bool
    ensures { result ≡ is_want_of want cycle }
{
    match want {
        Some(kept) => kept == cycle,
        None => false,
    }
}

/// Whether a want is above a cycle, or not there.
fn is_apart(want: Option<u64>, cycle: u64) -> bool
    ensures { IsTrue result ↔ IsApart want cycle }
{
    match want {
        Some(kept) => cycle < kept,
        None => true,
    }
}

/// Whether a frame lies above a cycle, or there is no such cycle.
fn is_later(frame: &Frame, own: Option<u64>) -> bool
    ensures { IsTrue result ↔ MatchOption own ⊤ (λ k. k < frame.now.cycle) }
{
    match own {
        Some(own) => own < frame.cycle(),
        None => true,
    }
}

impl<N: Run> Session<N> {
    /// A session that has pinned nothing.
    pub(crate) fn new(number: u32) -> Session<N>
        requires { number < N.sessions }
        ensures { result ≡ new_session number }
    {
        Session {
            number,
            pin: None,
            starved: false,
            name: PhantomData,
        }
    }

    /// Its number, counted from 0.
    pub fn number(&self) -> u32
        ensures is { result ≡ self.now.number }
        ensures within { result < N.sessions }
    {
        self.number
    }

    /// The pinned cycle, which is one of the case; `None` exactly where none is pinned.
    pub fn cycle(&self) -> Option<u64>
        ensures is { result ≡ self.now.pin }
        ensures within { MatchOption self.now.pin ⊤ (λ own. own < N.case.stimulus.cycles) }
    {
        match &self.pin {
            Some(frame) => Some(frame.cycle()),
            None => None,
        }
    }
}

/// What a session asks under the lock.
impl<N: Run> Session<N> {
    /// Keeps that the session wants a cycle, unless that is kept already. It hasn't left, and wants no later one.
    fn keep_want(&self, kept: &mut Kept<N>, cycle: u64)
        requires near { IsApart (want_at kept.old.core.wants self.now.number) cycle → ⊥ }
        requires within { cycle < N.case.stimulus.cycles }
        ensures kept { kept.new ≡ wanting kept.old self.now.number cycle }
        ensures above { floor kept.new.core ≤ cycle }
        ensures done { kept.new.core.done ≡ kept.old.core.done }
        ensures failed { kept.new.core.failed ≡ kept.old.core.failed }
    {
        let want = kept.core().kept_want(self.number);
        if !is_want(want, cycle) {
            kept.want(self.number, cycle);
        }
    }

    /// Asks for a cycle that lies above the pinned one, and pins it where it is done.
    pub fn ask_at(&mut self, kept: &mut Kept<N>, cycle: u64) -> Result<Step, AskFault>
        requires ahead { IsAhead self.old cycle }
        requires within { cycle < N.case.stimulus.cycles }
        ensures { AsksAt self.old kept.old cycle result self.new kept.new }
    {
        let want = kept.core().kept_want(self.number);
        if is_apart(want, cycle) {
            return Err(AskFault::Apart(want));
        }
        self.keep_want(kept, cycle);
        match kept.look(self.number, cycle) {
            Ok(Look::Found(frame)) => {
                self.pin = Some(frame);
                Ok(Step::Pinned)
            }
            Ok(Look::NotYet(done)) => Ok(Step::Again(done)),
            Ok(Look::Failed) => Err(AskFault::Memory),
            Ok(Look::Gone(_)) => unreachable!(),
            Err(_) => {
                kept.fail();
                Err(AskFault::Memory)
            }
        }
    }

    /// Asks for the last cycle that is done, and pins it where it lies above the pinned one.
    pub fn ask_newest(&mut self, kept: &mut Kept<N>) -> Result<Step, AtFault>
        ensures { AsksNewest self.old kept.old result self.new kept.new }
    {
        let own = self.cycle();
        let _done = kept.core().done();
        match kept.newest() {
            Ok(Newest::Found(frame)) => {
                if is_later(&frame, own) {
                    self.pin = Some(frame);
                }
                Ok(Step::Pinned)
            }
            Ok(Newest::NoneYet) => match own {
                Some(_) => Ok(Step::Pinned),
                None => Ok(Step::Again(0)),
            },
            Ok(Newest::Failed) => match own {
                Some(_) => Ok(Step::Pinned),
                None => Err(AtFault::Memory),
            },
            Err(_) => {
                kept.fail();
                Err(AtFault::Memory)
            }
        }
    }
}
