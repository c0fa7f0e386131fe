// The pinning calls of a session.
ghost use Rattle.std.specs.Prelude.{◌≡◌, ◌+◌, ◌<◌, ◌≤◌, true, false, Some, Ok, Err, IfOk, IfErr, OnOk, OnErr, MatchOption, ⊤};
ghost use Rattle.cif_hall.specs.Sessions.{IsAhead, PinsAt, PinsNewest, PinsNext, TriesAt, TriesNewest, TriesNext, pinned};
ghost use Rattle.cif_kept.specs.Pins.{next_of};
ghost use Rattle.cif_hall.specs.Pinning.{AsksOnce, IsChecked};

use crate::hall::Hall;
use crate::session::Session;
use crate::told::{AskFault, AtFault, Step};
use cif_bits::NoMemory;
use cif_core::Run;
use cif_kept::reach;
use cif_seq::{Frame, first_frame, next_frame};
use std::alloc::Global;
use std::sync::{Arc, Wait};

/// What the pinning calls share.
impl<N: Run> Session<N> {
    /// Whether a cycle is the pinned one; refuses one that lies below it, one that isn't of the case, and any but the pinned
    /// one after want of memory.
    fn check(&self, total: u64, cycle: u64) -> Result<bool, AtFault>
        requires { total ≡ N.case.stimulus.cycles }
        ensures ok { IfOk result (λ here. IsChecked total self.now cycle here) }
        ensures err { IfErr result (λ fault. PinsAt total self.now cycle (Err fault) self.now) }
    {
        let own = self.cycle();
        if let Some(own) = own {
            if cycle < own {
                return Err(AtFault::Back(own));
            }
            if cycle == own {
                return Ok(true);
            }
        }
        if total <= cycle {
            return Err(AtFault::Past(total));
        }
        if self.starved {
            return Err(AtFault::Memory);
        }
        Ok(false)
    }

    /// Asks once for a cycle.
    fn ask_once<R: Wait>(&mut self, rt: &R, hall: &Hall<N>, cycle: u64) -> Result<Step, AskFault>
        requires ahead { IsAhead self.old cycle }
        requires within { cycle < N.case.stimulus.cycles }
        ensures { AsksOnce self.old cycle result self.new }
    {
        let mut guard = hall.lock(rt);
        let before = guard.mark();
        let told = self.ask_at(&mut *guard, cycle);
        hall.wake(before, guard.mark());
        told
    }

    /// Asks for a cycle until it is done, or the answer is a fault.
    fn wait_at<R: Wait>(&mut self, rt: &R, hall: &Hall<N>, cycle: u64) -> Result<(), AskFault>
        requires ahead { IsAhead self.old cycle }
        requires within { cycle < N.case.stimulus.cycles }
        ensures ok { OnOk result (self.new ≡ pinned self.old cycle) }
        ensures err { OnErr result (self.new ≡ self.old) }
    {
        let mut guard = hall.lock(rt);
        for _ in rt.forever() {
            let before = guard.mark();
            let told = self.ask_at(&mut *guard, cycle);
            hall.wake(before, guard.mark());
            match told {
                Ok(Step::Pinned) => return Ok(()),
                Ok(Step::Again(_)) => {}
                Err(fault) => return Err(fault),
            }
            guard = hall.wait_with(rt, guard);
        }
        unreachable!()
    }

    /// The frame after the pinned one, or the first.
    fn start(&self, alloc: Global, hall: &Hall<N>) -> Result<Frame, NoMemory>
        requires { MatchOption self.now.pin ⊤ (λ own. own + 1 < N.case.stimulus.cycles) }
        ensures case { IfOk result (λ f. f.case ≡ N.case) }
        ensures cycle { IfOk result (λ f. f.cycle ≡ next_of self.now.pin) }
    {
        match &self.pin {
            Some(frame) => next_frame(alloc, &**frame),
            None => first_frame(alloc, hall.case()),
        }
    }

    /// Computes the frames up to a cycle, and pins the last.
    fn compute(&mut self, alloc: Global, hall: &Hall<N>, cycle: u64) -> Result<(), NoMemory>
        requires ahead { IsAhead self.old cycle }
        requires within { cycle < N.case.stimulus.cycles }
        ensures ok { OnOk result (self.new ≡ pinned self.old cycle) }
        ensures err { OnErr result (self.new ≡ self.old) }
    {
        let first = self.start(alloc, hall)?;
        let frame = reach(alloc, first, cycle)?;
        self.pin = Some(Arc::new(alloc, frame)?);
        Ok(())
    }

    /// What follows a fault: a session that wants a later cycle, or has left, computes the frame itself.
    fn pin_after(
        &mut self,
        alloc: Global,
        hall: &Hall<N>,
        cycle: u64,
        fault: AskFault,
    ) -> Result<(), AtFault>
        requires ahead { IsAhead self.old cycle }
        requires within { cycle < N.case.stimulus.cycles }
        requires fed { self.old.starved ≡ false }
        ensures { PinsAt N.case.stimulus.cycles self.old cycle result self.new }
    {
        if let AskFault::Apart(_) = fault {
            if self.compute(alloc, hall, cycle).is_ok() {
                return Ok(());
            }
        }
        self.starved = true;
        Err(AtFault::Memory)
    }

    /// The cycle after the pinned one, or 0.
    fn following(&self, total: u64) -> u64
        requires { total ≡ N.case.stimulus.cycles }
        ensures is { result ≡ next_of self.now.pin }
        ensures within { result ≤ total }
    {
        match self.cycle() {
            Some(own) => own + 1,
            None => 0,
        }
    }
}

/// Pinning calls that wait. Each promises what it says if it returns.
impl<N: Run> Session<N> {
    /// Pins a cycle, and waits until it is done.
    ///
    /// `Back` and `Past` say that it lies below the pinned one, or isn't of the case. After `Memory` each such call answers
    /// that too, but for `Back`, `Past` and the pinned cycle. After a fault the pin stays.
    pub fn at<R: Wait>(
        &mut self,
        rt: &R,
        alloc: Global,
        hall: &Hall<N>,
        cycle: u64,
    ) -> Result<(), AtFault>
        ensures { PinsAt N.case.stimulus.cycles self.old cycle result self.new }
    {
        if self.check(hall.cycles(), cycle)? {
            return Ok(());
        }
        match self.wait_at(rt, hall, cycle) {
            Ok(()) => Ok(()),
            Err(fault) => self.pin_after(alloc, hall, cycle, fault),
        }
    }

    /// Pins the cycle after the pinned one, or cycle 0, and waits until it is done. The faults are those of `at`; `Back`
    /// doesn't come.
    pub fn next<R: Wait>(&mut self, rt: &R, alloc: Global, hall: &Hall<N>) -> Result<(), AtFault>
        ensures { PinsNext N.case.stimulus.cycles self.old result self.new }
    {
        let cycle = self.following(hall.cycles());
        self.at(rt, alloc, hall, cycle)
    }

    /// Pins the last cycle that is done where it lies above the pinned one. It waits only where no cycle is pinned and none
    /// is done. The only fault is want of memory, and leaves the pin.
    pub fn newest<R: Wait>(&mut self, rt: &R, hall: &Hall<N>) -> Result<(), AtFault>
        ensures { PinsNewest N.case.stimulus.cycles self.old result self.new }
    {
        match self.wait_newest(rt, hall) {
            Ok(()) => Ok(()),
            Err(fault) => {
                self.starved = true;
                Err(fault)
            }
        }
    }

    /// Asks for the newest frame until there is one, or the answer is a fault.
    fn wait_newest<R: Wait>(&mut self, rt: &R, hall: &Hall<N>) -> Result<(), AtFault>
        ensures ok { OnOk result (PinsNewest N.case.stimulus.cycles self.old (Ok tt) self.new) }
        ensures err { IfErr result (λ fault. (fault ≡ AtFault.Memory) × (self.new ≡ self.old)) }
    {
        let mut guard = hall.lock(rt);
        for _ in rt.forever() {
            let before = guard.mark();
            let told = self.ask_newest(&mut *guard);
            hall.wake(before, guard.mark());
            let _own = self.cycle();
            match told {
                Ok(Step::Pinned) => return Ok(()),
                Ok(Step::Again(_)) => {}
                Err(fault) => return Err(fault),
            }
            guard = hall.wait_with(rt, guard);
        }
        unreachable!()
    }
}

/// Pinning calls that don't wait for a cycle to be done.
impl<N: Run> Session<N> {
    /// Pins a cycle where it is done; else `Again`, with the number of cycles that are. The faults are those of `at`.
    pub fn try_at<R: Wait>(
        &mut self,
        rt: &R,
        alloc: Global,
        hall: &Hall<N>,
        cycle: u64,
    ) -> Result<Step, AtFault>
        ensures { TriesAt N.case.stimulus.cycles self.old cycle result self.new }
    {
        if self.check(hall.cycles(), cycle)? {
            return Ok(Step::Pinned);
        }
        match self.ask_once(rt, hall, cycle) {
            Ok(step) => Ok(step),
            Err(fault) => {
                self.pin_after(alloc, hall, cycle, fault)?;
                Ok(Step::Pinned)
            }
        }
    }

    /// Pins the cycle after the pinned one, or cycle 0, where it is done; else `Again`. The faults are those of `next`.
    pub fn try_next<R: Wait>(
        &mut self,
        rt: &R,
        alloc: Global,
        hall: &Hall<N>,
    ) -> Result<Step, AtFault>
        ensures { TriesNext N.case.stimulus.cycles self.old result self.new }
    {
        let cycle = self.following(hall.cycles());
        self.try_at(rt, alloc, hall, cycle)
    }

    /// Pins the last cycle that is done where it lies above the pinned one; `Again(0)` where no cycle is pinned and none is
    /// done. The fault is that of `newest`.
    pub fn try_newest<R: Wait>(&mut self, rt: &R, hall: &Hall<N>) -> Result<Step, AtFault>
        ensures { TriesNewest N.case.stimulus.cycles self.old result self.new }
    {
        let mut guard = hall.lock(rt);
        let before = guard.mark();
        let told = self.ask_newest(&mut *guard);
        hall.wake(before, guard.mark());
        let _own = self.cycle();
        if told.is_err() {
            self.starved = true;
        }
        told
    }

    /// Leaves the run: from now on the session wants no cycle. The pin stays.
    pub fn leave<R: Wait>(&mut self, rt: &R, hall: &Hall<N>)
        ensures { self.new ≡ self.old }
    {
        let number = self.number();
        let mut guard = hall.lock(rt);
        let before = guard.mark();
        guard.leave(number);
        hall.wake(before, guard.mark());
    }
}
