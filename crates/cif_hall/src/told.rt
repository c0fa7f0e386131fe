// What workers and sessions are told.
use cif_bits::Bits;
use cif_core::Claim;

/// What a worker is told to do.
#[derive(Drop)]
pub enum Asked {
    /// A part to compute, or pieces to make a frame of.
    Work(Claim),
    /// Nothing now. The mark is the one under the lock.
    Blocked(u64),
    /// Nothing, for good.
    Ended,
}

/// What a worker did in a turn.
#[derive(Clone, Copy, Debug, Drop, PartialEq, Eq)]
pub enum Turn {
    /// Its piece was taken.
    Deposited,
    /// Its frame was published.
    Published,
    /// Its piece or its frame wasn't expected any more, and was dropped.
    Dropped,
    /// It found no memory, and the run has failed.
    NoMemory,
    /// There is nothing to do now. The mark is the one that was under the lock.
    Blocked(u64),
    /// There is nothing to do, for good.
    Ended,
}

/// What a session is told of a cycle.
#[derive(Clone, Copy, Debug, Drop, PartialEq, Eq)]
pub enum Step {
    /// Its frame is pinned.
    Pinned,
    /// It isn't done yet; so many cycles are.
    Again(u64),
}

/// Why a question under the lock pinned nothing.
#[derive(Clone, Copy, Debug, Drop, PartialEq, Eq)]
pub enum AskFault {
    /// The session wants this later cycle, or has left.
    Apart(Option<u64>),
    /// Want of memory, now or at an earlier moment of the run.
    Memory,
}

/// Why a pinning call pinned nothing.
#[derive(Clone, Copy, Debug, Drop, PartialEq, Eq)]
pub enum AtFault {
    /// The cycle lies below the pinned one, which is the number given.
    Back(u64),
    /// There are only so many cycles.
    Past(u64),
    /// Want of memory, now or at an earlier moment of the run.
    Memory,
}

/// No cycle is pinned.
#[derive(Clone, Copy, Debug, Drop, PartialEq, Eq)]
pub struct NotPinned;

/// The word of a wire and its taint, which have as many bits as the wire.
#[derive(Drop)]
pub struct Shown {
    /// The word.
    pub value: Bits,
    /// Which of its bits are tainted.
    pub taint: Bits,
}

/// Why nothing is shown.
#[derive(Clone, Copy, Debug, Drop, PartialEq, Eq)]
pub enum ShowFault {
    /// No cycle is pinned.
    NotPinned,
    /// Want of memory.
    Memory,
}
