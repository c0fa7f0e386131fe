// The core.
ghost use Rattle.std.specs.Prelude.{◌≡◌, ◌+◌, ◌*◌, ◌-◌, ◌<◌, ◌≤◌, ◌↔◌, IfOk, OnErr, IsTrue, length, None, MatchOption};
ghost use Rattle.cif_pieces.specs.Filled.{AllEmpty};
ghost use Rattle.cif_pieces.specs.Plans.{IsCounted, IsPlanOf};
ghost use Rattle.cif_seq.specs.Cases.{frame_of};
ghost use Rattle.cif_core.specs.Machine.{broken, floor, fresh, left, mark_at, taken, wanted, want_at};
ghost use Rattle.cif_core.specs.Kept.{IsKept};
ghost use Rattle.cif_core.specs.Replies.{Claims, Counts, Deposits, HasPart, Looks, Publishes, Shows};
ghost use Rattle.cif_core.specs.declared.mark.Mark.TheVariants.{Claimed};

use crate::mark::Mark;
use crate::name::Run;
use crate::reply::{Claim, Deposit, Look, Newest, Piece, Publish};
use crate::scan::{
    count_deposited, first_free, first_wants, free_all, free_marks, kept_count, lowest,
    marks_claimed,
};
use crate::shelf::{Shelf, keep_last};
use cif_bits::NoMemory;
use cif_pieces::{PartDone, Plan, Slots};
use cif_seq::{Case, Frame};
use std::alloc::Global;
use std::marker::{Model, PhantomData};
use std::sync::Arc;

/// The core of a run. Contracts see how many cycles are done, what each session wants, whether a failure is kept, and how far
/// the parts of the open cycle are. Frames and pieces are kept beside these, as the state says.
#[derive(Drop)]
pub struct Core<N: Run> {
    case: Arc<Case>,
    plan: Arc<Plan>,
    window: u32,
    done: u64,
    wants: Vec<Option<u64>>,
    failed: bool,
    marks: Vec<Mark>,
    assembling: bool,
    // Away while the open cycle is under assembly.
    slots: Option<Slots>,
    shelf: Shelf,
    name: PhantomData<N>,
}

impl<N: Run> Model for Core<N> {
    ghost use Rattle.cif_core.specs.Machine.{State};
    ghost use Rattle.cif_core.specs.Kept.{Holds, IsGiven};

    ghost Value = { State };

    ghost view = { λ c. record { done = c.done; wants = c.wants.items; failed = c.failed; marks = c.marks.items; assembling = c.assembling } };

    ghost invariant = { λ c. IsGiven N.case N.plan N.window N.sessions c.case.value c.plan.value c.window × Holds N.case N.plan.parts N.window N.sessions (record { done = c.done; wants = c.wants.items; failed = c.failed; marks = c.marks.items; assembling = c.assembling }) c.shelf c.slots };
}

/// The number of cycles of a case, which is at most 1,000,000.
fn cycles_of(case: &Case) -> u64
    ensures is { result ≡ case.now.stimulus.cycles }
    ensures few { case.now.stimulus.cycles ≤ 1000000 }
{
    let _lines = case.stimulus().lines();
    case.cycles()
}

/// What it was given.
impl<N: Run> Core<N> {
    /// A core at the opening: no cycle is done, and each of at most 16 sessions is there and wants cycle 0. The plan is the
    /// case's, and the window has 2 to 64 cycles.
    pub fn new(
        alloc: Global,
        case: Arc<Case>,
        plan: Arc<Plan>,
        window: u32,
        sessions: u32,
    ) -> Result<Core<N>, NoMemory>
        requires case { case.value ≡ N.case }
        requires plan { plan.value ≡ N.plan }
        requires planned { IsPlanOf N.case N.plan }
        requires window { (window ≡ N.window) × (2 ≤ window) × (window ≤ 64) }
        requires sessions { (sessions ≡ N.sessions) × (sessions ≤ 16) }
        ensures { IfOk result (λ c. c ≡ fresh N.plan.parts N.sessions) }
    {
        let _cycles = cycles_of(&case);
        let parts = plan.parts();
        let slots = Slots::empty(alloc, parts)?;
        let shelf = Shelf::new(alloc, u64::from(window) + 1)?;
        let marks = free_marks(alloc, parts)?;
        let wants = first_wants(alloc, sessions)?;
        Ok(Core {
            case,
            plan,
            window,
            done: 0,
            wants,
            failed: false,
            marks,
            assembling: false,
            slots: Some(slots),
            shelf,
            name: PhantomData,
        })
    }

    /// The case.
    pub fn case(&self) -> &Arc<Case>
        ensures is { result.now.value ≡ N.case }
        ensures few { N.case.stimulus.cycles ≤ 1000000 }
    {
        &self.case
    }

    /// The plan, which is the case's.
    pub fn plan(&self) -> &Arc<Plan>
        ensures is { result.now.value ≡ N.plan }
        ensures planned { IsPlanOf N.case N.plan }
        ensures counted { IsCounted N.plan }
    {
        &self.plan
    }

    /// The window, in cycles, from 2 to 64.
    pub fn window(&self) -> u32
        ensures is { result ≡ N.window }
        ensures least { 2 ≤ result }
        ensures largest { result ≤ 64 }
    {
        self.window
    }

    /// The number of sessions, at most 16, whether they are there or have left.
    pub fn sessions(&self) -> u32
        ensures is { result ≡ N.sessions }
        ensures few { result ≤ 16 }
    {
        self.wants.len() as u32
    }
}

/// How far it is.
impl<N: Run> Core<N> {
    /// The number of cycles that are done.
    pub fn done(&self) -> u64
        ensures is { result ≡ self.now.done }
        ensures kept { IsKept N.case N.plan.parts N.window N.sessions self.now }
        ensures whole { self.now.done ≡ N.case.stimulus.cycles
            → taken N.plan.parts self.now ≡ N.case.stimulus.cycles * N.plan.parts }
    {
        self.done
    }

    /// The number of pieces that were taken: all parts of the cycles that are done, and the deposited ones of the open cycle.
    pub fn taken(&self) -> u64
        ensures is { result ≡ taken N.plan.parts self.now }
        ensures few { result ≤ 64000064 }
        ensures started { self.now.done * N.plan.parts ≤ result }
        ensures no_more { result ≤ self.now.done * N.plan.parts + N.plan.parts }
    {
        self.done * u64::from(self.plan.parts()) + count_deposited(&self.marks) as u64
    }

    /// Whether a failure is kept.
    pub fn failed(&self) -> bool
        ensures { result ≡ self.now.failed }
    {
        self.failed
    }

    /// Whether a part of the open cycle is claimed.
    pub fn claimed(&self, part: u32) -> bool
        requires { part < N.plan.parts }
        ensures { IsTrue result ↔ (mark_at self.now.marks part ≡ Claimed) }
    {
        marks_claimed(&self.marks[part as usize])
    }

    /// Whether the open cycle is under assembly.
    pub fn assembling(&self) -> bool
        ensures { result ≡ self.now.assembling }
    {
        self.assembling
    }

    /// What a session wants; `None` exactly where it has left.
    pub fn kept_want(&self, session: u32) -> Option<u64>
        requires { session < N.sessions }
        ensures value { result ≡ want_at self.now.wants session }
        ensures above { MatchOption result (Unit {0}) (λ want. floor self.now ≤ want) }
    {
        self.wants[session as usize]
    }
}

/// Events of the work.
impl<N: Run> Core<N> {
    /// Hands out the least part of the open cycle that is free, or its assembly once every part is deposited.
    ///
    /// Want of memory comes only where a part with the frame before it would be handed out, and changes nothing.
    pub fn claim(&mut self) -> Result<Claim, NoMemory>
        ensures ok { IfOk result (λ reply. Claims N.case N.plan.parts N.window self.old reply self.new) }
        ensures same { OnErr result (self.new ≡ self.old) }
        ensures lends { OnErr result (HasPart N.case N.window self.old × (0 < self.old.done)) }
        ensures taken { taken N.plan.parts self.new ≡ taken N.plan.parts self.old }
    {
        if self.failed || self.done == self.case.cycles() {
            return Ok(Claim::Finished);
        }
        let low = lowest(self.done, &self.wants);
        if self.done - low >= u64::from(self.window) {
            return Ok(Claim::Wait);
        }
        if let Some(part) = first_free(&self.marks) {
            let prior = self.prior()?;
            self.marks[part] = Mark::Claimed;
            return Ok(Claim::Piece(Piece {
                cycle: self.done,
                part: part as u32,
                prior,
            }));
        }
        if count_deposited(&self.marks) != self.marks.len() {
            return Ok(Claim::Wait);
        }
        match self.slots.take() {
            Some(slots) => {
                self.assembling = true;
                Ok(Claim::Assemble(slots))
            }
            None => Ok(Claim::Wait),
        }
    }

    /// Takes the piece of a claimed part of the open cycle. Any other, and every one after a failure, is handed back, and
    /// changes nothing.
    pub fn deposit(&mut self, piece: PartDone) -> Deposit
        requires case { piece.case ≡ N.case }
        requires parts { piece.parts ≡ N.plan.parts }
        ensures reply { Deposits self.old piece result self.new }
        ensures taken { Counts result (taken N.plan.parts self.old) (taken N.plan.parts self.new) }
    {
        let part = piece.part();
        let at = part as usize;
        if self.failed || piece.cycle() != self.done {
            return Deposit::Stranger(piece);
        }
        if at >= self.marks.len() || !marks_claimed(&self.marks[at]) {
            return Deposit::Stranger(piece);
        }
        match &mut self.slots {
            Some(slots) => slots.put(part, piece),
            None => return Deposit::Stranger(piece),
        }
        self.marks[at] = Mark::Deposited;
        Deposit::Taken
    }

    /// Takes the frame of the cycle under assembly, with empty slots for the next cycle: one more cycle is done. Any other
    /// frame, and every one after a failure, is handed back, and changes nothing.
    pub fn publish(&mut self, frame: Arc<Frame>, slots: Slots) -> Publish
        requires case { frame.value.case ≡ N.case }
        requires slots { (length slots ≡ N.plan.parts) × AllEmpty slots }
        ensures reply { Publishes self.old frame.value result self.new }
        ensures taken { taken N.plan.parts self.new ≡ taken N.plan.parts self.old }
    {
        if self.failed || frame.cycle() != self.done || !self.assembling {
            return Publish::Stranger(frame, slots);
        }
        self.shelf.push(frame);
        self.done += 1;
        free_all(&mut self.marks);
        self.assembling = false;
        self.slots = Some(slots);
        let low = lowest(self.done, &self.wants);
        keep_last(&mut self.shelf, kept_count(self.done, low));
        Publish::Published
    }

    /// Keeps a failure for good. From then on `claim` says `Finished`, and `deposit` and `publish` hand back what they are
    /// given; `look` finds what it found before.
    pub fn fail(&mut self)
        ensures { self.new ≡ broken self.old }
    {
        self.failed = true;
    }
}

/// Events of the sessions.
impl<N: Run> Core<N> {
    /// Keeps that a session wants a cycle, which isn't below the one that it wants already. The session hasn't left.
    pub fn want(&mut self, session: u32, cycle: u64)
        requires session { session < N.sessions }
        requires present { MatchOption (want_at self.old.wants session) ⊥ (λ earlier. earlier ≤ cycle) }
        requires within { cycle < N.case.stimulus.cycles }
        ensures state { self.new ≡ wanted self.old session cycle }
        ensures above { floor self.new ≤ cycle }
    {
        self.wants[session as usize] = Some(cycle);
        let low = lowest(self.done, &self.wants);
        keep_last(&mut self.shelf, kept_count(self.done, low));
    }

    /// Lets a session leave. One that has left already stays so.
    pub fn leave(&mut self, session: u32)
        requires { session < N.sessions }
        ensures { self.new ≡ left self.old session }
    {
        self.wants[session as usize] = None;
        let low = lowest(self.done, &self.wants);
        keep_last(&mut self.shelf, kept_count(self.done, low));
    }

    /// The frame of a cycle, if it is kept.
    ///
    /// Want of memory comes only where a frame would be handed out.
    pub fn look(&self, session: u32, cycle: u64) -> Result<Look, NoMemory>
        requires { session < N.sessions }
        ensures ok { IfOk result (λ reply. Looks N.case self.now cycle reply) }
        ensures err { OnErr result ((floor self.now ≤ cycle) × (cycle < self.now.done)) }
    {
        let low = lowest(self.done, &self.wants);
        if cycle < low {
            return Ok(Look::Gone(low));
        }
        if cycle >= self.done {
            return Ok(if self.failed {
                Look::Failed
            } else {
                Look::NotYet(self.done)
            });
        }
        let first = self.done - self.shelf.len();
        Ok(Look::Found(self.shelf.get(cycle - first)?))
    }

    /// The frame of the last cycle that is done.
    ///
    /// Want of memory comes only where a frame would be handed out.
    pub fn newest(&self) -> Result<Newest, NoMemory>
        ensures ok { IfOk result (λ reply. Shows N.case self.now reply) }
        ensures err { OnErr result (0 < self.now.done) }
    {
        match self.prior()? {
            Some(frame) => Ok(Newest::Found(frame)),
            None => Ok(if self.failed {
                Newest::Failed
            } else {
                Newest::NoneYet
            }),
        }
    }

    /// The frame of the last cycle that is done; `None` where none is.
    fn prior(&self) -> Result<Option<Arc<Frame>>, NoMemory>
        ensures ok { IfOk result (λ last. MatchOption last (self.now.done ≡ 0)
            (λ f. (0 < self.now.done) × (f.value ≡ frame_of N.case (self.now.done - 1)))) }
        ensures err { OnErr result (0 < self.now.done) }
    {
        if self.done == 0 {
            return Ok(None);
        }
        let count = self.shelf.len();
        Ok(Some(self.shelf.get(count - 1)?))
    }
}
