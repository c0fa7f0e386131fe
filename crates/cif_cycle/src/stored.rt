// Stored words: what a register or a memory holds in one cycle.
ghost use Rattle.std.specs.Prelude.{◌≡◌, ◌+◌, ◌<◌, ◌≤◌, ◌^◌, true, length, slice_set, ◌↔◌, IsTrue, IfOk, OnOk, OnErr};
ghost use Rattle.cif_defs.specs.Words.{bit, word};

use crate::bits::long_bit;
use cif_bits::NoMemory;
use cif_pages::Paged;
use std::alloc::Global;
use std::marker::Model;

/// How the bits of a stored word are kept.
#[derive(Drop)]
enum Kept {
    /// By themselves, as those of a register, which takes a whole word in each cycle.
    Plain(Vec<bool>),
    /// In pages that later cycles share, as those of a memory, of which a cycle writes few.
    Shared(Paged<bool>),
}

/// Whether two words have the same bits.
fn are_same(word: &[bool], other: &[bool]) -> bool
    ensures { IsTrue result ↔ (word.now ≡ other.now) }
{
    word == other
}

/// The word that a register or a memory stores, or its stored taint. Contracts see the list of its bits, lowest first.
#[derive(Drop)]
pub struct StateWord {
    kept: Kept,
}

impl Model for StateWord {
    ghost use Rattle.std.specs.Prelude.{Bool, List};

    ghost Value = { List Bool };

    ghost use Rattle.cif_cycle.specs.StateWords.{bits_kept};

    ghost view = { λ w. bits_kept w.kept };
}

impl StateWord {
    /// The word of these bits, for a register.
    pub fn of(word: Vec<bool>) -> StateWord
        ensures { result ≡ word.items }
    {
        StateWord {
            kept: Kept::Plain(word),
        }
    }

    /// The word of these bits, fewer than 2 to the 32, for a memory: its pages are shared from cycle to cycle.
    pub fn paged(alloc: Global, word: &[bool]) -> Result<StateWord, NoMemory>
        requires { length word.now < 2 ^ 32 }
        ensures { IfOk result (λ w. w ≡ word.now) }
    {
        let pages = Paged::of(alloc, word)?;
        Ok(StateWord {
            kept: Kept::Shared(pages),
        })
    }

    /// The number of bits.
    pub fn len(&self) -> u64
        ensures { result ≡ length self.now }
    {
        match &self.kept {
            Kept::Plain(word) => word.len() as u64,
            Kept::Shared(pages) => u64::from(pages.len()),
        }
    }

    /// The bit at a place; a bit past the end is 0.
    pub fn bit(&self, index: u64) -> bool
        ensures { result ≡ bit self.now index }
    {
        match &self.kept {
            Kept::Plain(word) => long_bit(word, index),
            Kept::Shared(pages) => index < u64::from(pages.len()) && pages.get(index as u32),
        }
    }

    /// The `width` bits from place `at` upward; bits past the end are 0.
    pub fn word(&self, alloc: Global, at: u64, width: u32) -> Result<Vec<bool>, NoMemory>
        ensures { IfOk result (λ w. w.items ≡ word width (λ i. bit self.now (at + i))) }
    {
        let _length = self.len();
        let mut bits = Vec::with_capacity(alloc, width as usize)?;
        for i in 0..width {
            bits.push(self.bit(at.saturating_add(u64::from(i))))?;
        }
        Ok(bits)
    }

    /// Another word of the same bits. One of a memory shares all its pages.
    pub fn share(&self, alloc: Global) -> Result<StateWord, NoMemory>
        ensures { IfOk result (λ w. w ≡ self.now) }
    {
        let kept = match &self.kept {
            Kept::Plain(word) => Kept::Plain(Vec::from_slice(alloc, word)?),
            Kept::Shared(pages) => Kept::Shared(pages.share(alloc)?),
        };
        Ok(StateWord { kept })
    }

    /// Whether another word is known to have the same bits. Words of memories are not compared, which would take long.
    pub fn is_known_same(&self, other: &StateWord) -> bool
        ensures { result ≡ true → self.now ≡ other.now }
    {
        match (&self.kept, &other.kept) {
            (Kept::Plain(word), Kept::Plain(held)) => are_same(word, held),
            _ => false,
        }
    }

    /// Writes a bit. A word that shared the bit's page keeps its own; where the bit is the one that stands there, nothing
    /// is copied.
    pub fn set(&mut self, alloc: Global, index: u64, bit: bool) -> Result<(), NoMemory>
        requires { index < length self.old }
        ensures ok { OnOk result (self.new ≡ slice_set self.old index bit) }
        ensures err { OnErr result (self.new ≡ self.old) }
    {
        if self.bit(index) == bit {
            return Ok(());
        }
        match &mut self.kept {
            Kept::Plain(word) => {
                word[index as usize] = bit;
                Ok(())
            }
            Kept::Shared(pages) => {
                let _length = pages.len();
                pages.set(alloc, index as u32, bit)
            }
        }
    }
}

/// What one cell stores: a word, its taint, and the sticky flag of a memory, which is off for any other cell.
#[derive(Drop)]
pub struct CellState {
    /// The word.
    pub value: StateWord,
    /// Its stored taint.
    pub taint: StateWord,
    /// The flag.
    pub flag: bool,
}

/// What one cell stores, lent.
#[derive(Clone, Copy)]
pub struct StateRef<'a> {
    /// The word.
    pub value: &'a StateWord,
    /// Its stored taint.
    pub taint: &'a StateWord,
    /// The flag.
    pub flag: bool,
}

/// What all cells store, one of each for every cell; the words of a cell without state have no bits.
#[derive(Drop)]
pub struct StoredWords {
    /// The words.
    pub values: Vec<StateWord>,
    /// Their stored taints.
    pub taints: Vec<StateWord>,
    /// The flags.
    pub flags: Vec<bool>,
}
