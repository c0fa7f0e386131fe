// What lies under the lock.
ghost use Rattle.std.specs.Prelude.{◌≡◌, ◌*◌, ◌<◌, ◌≤◌, ◌+◌, IfOk, OnErr, MatchOption, length};
ghost use Rattle.cif_pieces.specs.Filled.{AllEmpty};
ghost use Rattle.cif_core.specs.Machine.{floor, left, taken, wanted, want_at};
ghost use Rattle.cif_core.specs.Replies.{Claims, Counts, Deposits, HasPart, Looks, Publishes, Shows};
ghost use Rattle.cif_kept.specs.Kept.{after, failing, mark_deposited, mark_published, raised};

use cif_bits::NoMemory;
use cif_core::{Claim, Core, Deposit, Look, Newest, Publish, Run};
use cif_pieces::{PartDone, Slots};
use cif_seq::Frame;
use std::marker::Model;
use std::sync::Arc;
use std::sync::ledger::{Book, Share};

/// The core of a run, a mark that rises with the core's events, and the book of the pieces that were taken. The core is
/// changed by its events alone, and each of them says what becomes of the mark.
#[derive(Drop)]
pub struct Kept<N: Run> {
    core: Core<N>,
    mark: u64,
    book: Book<N>,
}

impl<N: Run> Model for Kept<N> {
    ghost use Rattle.std.specs.Prelude.{◌≡◌};
    ghost use Rattle.cif_core.specs.Machine.{taken};
    ghost use Rattle.cif_kept.specs.Kept.{KeptOf};

    ghost Value = { KeptOf };

    ghost view = { λ k. record { core = k.core; mark = k.mark } };

    ghost invariant = { λ k. k.book.total ≡ taken N.plan.parts k.core };
}

impl<N: Run> Kept<N> {
    /// What lies under the lock at the opening.
    pub fn new(core: Core<N>, book: Book<N>) -> Kept<N>
        requires { book.total ≡ taken N.plan.parts core }
        ensures { result ≡ record { core = core; mark = 0 } }
    {
        Kept {
            core,
            mark: 0,
            book,
        }
    }

    /// The book of the pieces that were taken.
    pub fn into_book(self) -> Book<N>
        ensures { result.total ≡ taken N.plan.parts self.core }
    {
        let Kept {
            core: _,
            mark: _,
            book,
        } = self;
        book
    }

    /// The core, to be read.
    pub fn core(&self) -> &Core<N>
        ensures { result.now ≡ self.now.core }
    {
        &self.core
    }

    /// The mark.
    pub fn mark(&self) -> u64
        ensures { result ≡ self.now.mark }
    {
        self.mark
    }

    /// Raises the mark.
    fn rise(&mut self)
        ensures core { self.new.core ≡ self.old.core }
        ensures mark { self.new.mark ≡ raised self.old.mark }
    {
        self.mark = self.mark.saturating_add(1);
    }
}

/// The events of the core.
impl<N: Run> Kept<N> {
    /// Claims work. The mark stays.
    pub fn claim(&mut self) -> Result<Claim, NoMemory>
        ensures ok { IfOk result (λ claim. Claims N.case N.plan.parts N.window self.old.core claim self.new.core) }
        ensures same { OnErr result (self.new ≡ self.old) }
        ensures lends { OnErr result (HasPart N.case N.window self.old.core × (0 < self.old.core.done)) }
        ensures mark { self.new.mark ≡ self.old.mark }
        ensures taken { taken N.plan.parts self.new.core ≡ taken N.plan.parts self.old.core }
    {
        self.core.claim()
    }

    /// Hands in a piece, which counts in a share of the book where it is taken. Then the mark rises.
    pub fn deposit(&mut self, share: &mut Share<N>, piece: PartDone) -> Deposit
        requires share { 0 < share.old.parts }
        requires case { piece.case ≡ N.case }
        requires parts { piece.parts ≡ N.plan.parts }
        ensures reply { Deposits self.old.core piece result self.new.core }
        ensures mark { self.new.mark ≡ mark_deposited result self.old.mark }
        ensures taken { Counts result (taken N.plan.parts self.old.core) (taken N.plan.parts self.new.core) }
        ensures amount { Counts result share.old.amount share.new.amount }
        ensures few { share.old.amount ≤ 64000064 }
        ensures share { share.new.parts ≡ share.old.parts }
    {
        let Kept { core, mark, book } = self;
        book.audit(share);
        let _taken = core.taken();
        let reply = core.deposit(piece);
        if let Deposit::Taken = &reply {
            book.add(share, 1);
            *mark = mark.saturating_add(1);
        }
        reply
    }

    /// Hands in a frame. The mark rises where it is published.
    pub fn publish(&mut self, frame: Arc<Frame>, slots: Slots) -> Publish
        requires case { frame.value.case ≡ N.case }
        requires slots { (length slots ≡ N.plan.parts) × AllEmpty slots }
        ensures reply { Publishes self.old.core frame.value result self.new.core }
        ensures mark { self.new.mark ≡ mark_published result self.old.mark }
        ensures taken { taken N.plan.parts self.new.core ≡ taken N.plan.parts self.old.core }
    {
        let reply = self.core.publish(frame, slots);
        if let Publish::Published = &reply {
            self.rise();
        }
        reply
    }

    /// Keeps what a session wants, which has not left, and wants no later cycle yet. The mark rises.
    pub fn want(&mut self, session: u32, cycle: u64)
        requires session { session < N.sessions }
        requires present { MatchOption (want_at self.old.core.wants session) ⊥ (λ earlier. earlier ≤ cycle) }
        requires within { cycle < N.case.stimulus.cycles }
        ensures kept { self.new ≡ after self.old (wanted self.old.core session cycle) }
        ensures above { floor self.new.core ≤ cycle }
    {
        self.core.want(session, cycle);
        self.rise();
    }

    /// Looks at a cycle.
    pub fn look(&self, session: u32, cycle: u64) -> Result<Look, NoMemory>
        requires { session < N.sessions }
        ensures ok { IfOk result (λ found. Looks N.case self.now.core cycle found) }
        ensures err { OnErr result (cycle < self.now.core.done) }
    {
        self.core.look(session, cycle)
    }

    /// Looks at the last cycle that is done.
    pub fn newest(&self) -> Result<Newest, NoMemory>
        ensures ok { IfOk result (λ found. Shows N.case self.now.core found) }
        ensures err { OnErr result (0 < self.now.core.done) }
    {
        self.core.newest()
    }

    /// Lets a session leave. The mark rises.
    pub fn leave(&mut self, session: u32)
        requires { session < N.sessions }
        ensures { self.new ≡ after self.old (left self.old.core session) }
    {
        self.core.leave(session);
        self.rise();
    }

    /// Keeps a failure for good. The mark rises.
    pub fn fail(&mut self)
        ensures { self.new ≡ failing self.old }
    {
        self.core.fail();
        self.rise();
    }
}
