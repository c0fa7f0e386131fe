// A gate that holds pieces up, and counts what passes it.

use cif_io::Gate;
use std::alloc::{AllocError, Global};
use std::sync::atomic::{AtomicU64, Ordering};
use std::thread;

/// A piece of a run: its cycle and its part.
pub type Piece = (u64, u32);

/// What a piece is held for.
#[derive(Clone, Copy)]
pub enum Until {
    /// So many turns of the gate's loop.
    Turns(u32),
    /// That another piece is offered.
    Offered(Piece),
    /// That session 0 pins this cycle, and so many turns of the gate's loop from then on.
    Pinned(u64, u32),
}

/// After so many turns of its loop the gate lets a piece go whatever has happened, and that is a fault.
const MOST_TURNS: u32 = 10_000_000;

/// Counts that threads raise.
#[derive(Drop)]
struct Counts {
    counts: Vec<AtomicU64>,
}

impl Counts {
    /// So many counts of 0.
    fn zeros(alloc: Global, len: u64) -> Result<Counts, AllocError> {
        let mut counts = Vec::new(alloc);
        for _count in 0..len {
            counts.push(AtomicU64::new(0))?;
        }
        Ok(Counts { counts })
    }

    /// Raises a count; a place past the end has none.
    fn raise(&self, place: u64) {
        if let Some(count) = self.counts.get(place as usize) {
            count.fetch_add(1, Ordering::SeqCst);
        }
    }

    /// A count; 0 past the end.
    fn at(&self, place: u64) -> u64 {
        match self.counts.get(place as usize) {
            Some(count) => count.load(Ordering::SeqCst),
            None => 0,
        }
    }
}

/// How many cycles a run has.
const CYCLES: u64 = 5;

/// A gate for a run of some workers, each cycle of which has so many parts.
#[derive(Drop)]
pub struct Holding {
    holds: &'static [(Piece, Until)],
    parts: u32,
    // Of each piece, cycle by cycle: how often it was offered.
    offered: Counts,
    // Of each cycle: how many of its pieces were let go, and how often session 0 pinned it.
    let_go: Counts,
    pinned: Counts,
    // Of each worker: how many of its pieces were let go.
    passes: Counts,
    faults: AtomicU64,
}

impl Holding {
    /// A gate that nothing has passed.
    pub fn new(
        alloc: Global,
        holds: &'static [(Piece, Until)],
        workers: u32,
        parts: u32,
    ) -> Result<Holding, AllocError> {
        Ok(Holding {
            holds,
            parts,
            offered: Counts::zeros(alloc, CYCLES * u64::from(parts))?,
            let_go: Counts::zeros(alloc, CYCLES)?,
            pinned: Counts::zeros(alloc, CYCLES)?,
            passes: Counts::zeros(alloc, u64::from(workers))?,
            faults: AtomicU64::new(0),
        })
    }

    /// The place of a piece.
    fn place(&self, piece: Piece) -> u64 {
        let (cycle, part) = piece;
        cycle
            .saturating_mul(u64::from(self.parts))
            .saturating_add(u64::from(part))
    }

    /// For how many turns a piece is held from now on; none where that isn't known yet.
    fn turns_left(&self, until: Until) -> Option<u32> {
        match until {
            Until::Turns(turns) => Some(turns),
            Until::Offered(piece) if self.offers(piece) > 0 => Some(0),
            Until::Pinned(cycle, turns) if self.pins(cycle) > 0 => Some(turns),
            Until::Offered(_) | Until::Pinned(_, _) => None,
        }
    }

    /// Holds a piece.
    fn hold(&self, until: Until) {
        let mut turned = 0;
        for _turn in 0..MOST_TURNS {
            if let Some(turns) = self.turns_left(until) {
                if turned >= turns {
                    return;
                }
                turned += 1;
            }
            thread::yield_now();
        }
        self.faults.fetch_add(1, Ordering::SeqCst);
    }

    /// How many faults there were: pieces that were held too long, and pinned cycles some piece of which was still held.
    pub fn faults(&self) -> u64 {
        self.faults.load(Ordering::SeqCst)
    }

    /// How often a piece was offered.
    pub fn offers(&self, piece: Piece) -> u64 {
        self.offered.at(self.place(piece))
    }

    /// How often session 0 pinned a cycle.
    pub fn pins(&self, cycle: u64) -> u64 {
        self.pinned.at(cycle)
    }

    /// How many pieces each worker passed.
    pub fn passes(&self, alloc: Global) -> Result<Vec<u64>, AllocError> {
        let mut passes = Vec::new(alloc);
        for count in &self.passes.counts {
            passes.push(count.load(Ordering::SeqCst))?;
        }
        Ok(passes)
    }
}

impl Gate for Holding {
    fn pass(&self, worker: u32, cycle: u64, part: u32) {
        self.offered.raise(self.place((cycle, part)));
        for (piece, until) in self.holds {
            if *piece == (cycle, part) {
                self.hold(*until);
            }
        }
        self.let_go.raise(cycle);
        self.passes.raise(u64::from(worker));
    }

    fn pinned(&self, session: u32, cycle: u64) {
        if self.let_go.at(cycle) < u64::from(self.parts) {
            self.faults.fetch_add(1, Ordering::SeqCst);
        }
        if session == 0 {
            self.pinned.raise(cycle);
        }
    }
}
