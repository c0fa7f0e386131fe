// What the calls of this crate answer when they can't do their work.

use std::alloc::{AllocError, AllocFailed};
use thiserror::Error;

/// Want of memory: the call found none, and changed nothing.
#[derive(Debug, Drop, Error)]
#[error("out of memory")]
pub struct NoMemory;

impl From<AllocError> for NoMemory {
    fn from(_error: AllocError) -> Self {
        NoMemory
    }
}

impl<T: Drop> From<AllocFailed<T>> for NoMemory {
    fn from(_error: AllocFailed<T>) -> Self {
        NoMemory
    }
}

/// Why a text gives no word.
#[derive(Debug, Drop, Error)]
pub enum TextFault {
    /// The byte at this place, counted from 0, is neither `0` nor `1`, and none before it is so.
    #[error("the byte at place {0} is neither 0 nor 1")]
    BadDigit(u32),
    /// Want of memory.
    #[error("out of memory")]
    Memory,
}

impl From<AllocError> for TextFault {
    ghost use Rattle.std.specs.Prelude.{◌≡◌};
    ghost use Rattle.cif_bits.specs.declared.faults.TextFault.TheVariants.{Memory};

    ghost from_gives = { λ _ e. e ≡ Memory };

    fn from(_error: AllocError) -> Self {
        TextFault::Memory
    }
}
