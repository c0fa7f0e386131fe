// What the calls of the core reply.
use cif_pieces::{PartDone, Slots};
use cif_seq::Frame;
use std::sync::Arc;

/// A part to compute.
#[derive(Drop)]
pub struct Piece {
    /// The open cycle.
    pub cycle: u64,
    /// The part.
    pub part: u32,
    /// The frame of the cycle before it; `None` for cycle 0.
    pub prior: Option<Arc<Frame>>,
}

/// What `claim` hands out.
#[derive(Drop)]
pub enum Claim {
    /// A part to compute.
    Piece(Piece),
    /// The pieces of the open cycle, to make the frame of.
    Assemble(Slots),
    /// Nothing, for good: every cycle is done, or a failure is kept.
    Finished,
    /// Nothing now: the window is full, or others are at work on what is left of the open cycle.
    Wait,
}

/// What `deposit` does with a piece.
#[derive(Drop)]
pub enum Deposit {
    /// It counts.
    Taken,
    /// It isn't expected, and is handed back.
    Stranger(PartDone),
}

/// What `publish` does with a frame.
#[derive(Drop)]
pub enum Publish {
    /// Its cycle is done.
    Published,
    /// It isn't expected, and is handed back with the slots.
    Stranger(Arc<Frame>, Slots),
}

/// What `look` finds of a cycle.
#[derive(Drop)]
pub enum Look {
    /// Its frame.
    Found(Arc<Frame>),
    /// It lies below the floor, which is the number given.
    Gone(u64),
    /// It isn't done; so many cycles are.
    NotYet(u64),
    /// It isn't done, and a failure is kept.
    Failed,
}

/// What `newest` finds.
#[derive(Drop)]
pub enum Newest {
    /// The last completed frame.
    Found(Arc<Frame>),
    /// No cycle is done.
    NoneYet,
    /// No cycle is done, and a failure is kept.
    Failed,
}
