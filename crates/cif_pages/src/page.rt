// Pages: the words that several lists share, or that one list has alone.

ghost use Rattle.std.specs.Prelude.{◌≡◌, ◌<◌, length, get_or, replicate, slice_set, IfOk, OnOk, OnErr};

use cif_bits::NoMemory;
use std::alloc::{AllocError, Global};
use std::marker::Model;
use std::sync::Arc;

/// The number of words of a full page.
pub const PAGE: usize = 1024;

/// Words that several lists may share. Contracts see the list of them.
#[derive(Drop)]
pub struct Page<T> {
    words: Arc<Vec<T>>,
}

impl<T> Model for Page<T> {
    ghost use Rattle.std.specs.Prelude.{List};

    ghost Value = { List T };

    ghost view = { λ p. p.words.value.items };
}

/// A clone is one more handle on the same words.
impl<T: Copy> Clone for Page<T> {
    ghost use Rattle.std.specs.Prelude.{◌≡◌};

    ghost is_clone = { λ p q. q ≡ p };

    fn clone(&self) -> Result<Page<T>, AllocError> {
        let words = Arc::try_clone(&self.words)?;
        Ok(Page { words })
    }
}

impl<T: Copy> Page<T> {
    /// A page of `length` words `word`.
    pub fn filled(alloc: Global, length: usize, word: T) -> Result<Page<T>, NoMemory>
        ensures { IfOk result (λ p. p ≡ replicate length word) }
    {
        let mut words = Vec::with_capacity(alloc, length)?;
        for _place in 0..length {
            words.push(word)?;
        }
        let words = Arc::new(alloc, words)?;
        Ok(Page { words })
    }

    /// A page of these words.
    pub fn of(alloc: Global, words: &[T]) -> Result<Page<T>, NoMemory>
        ensures { IfOk result (λ p. p ≡ words.now) }
    {
        let words = Vec::from_slice(alloc, words)?;
        let words = Arc::new(alloc, words)?;
        Ok(Page { words })
    }

    /// The word at a place.
    pub fn get(&self, index: usize) -> T
        requires { index < length self.now }
        ensures { (d : T) → get_or self.now index d ≡ result }
    {
        self.words[index]
    }

    /// Writes a word: in place where no one else has this page, else into a copy of it.
    pub fn set(&mut self, alloc: Global, index: usize, word: T) -> Result<(), NoMemory>
        requires { index < length self.old }
        ensures ok { OnOk result (self.new ≡ slice_set self.old index word) }
        ensures err { OnErr result (self.new ≡ self.old) }
    {
        if let Some(words) = Arc::get_mut(&mut self.words) {
            words[index] = word;
            return Ok(());
        }
        let mut copy = Vec::from_slice(alloc, &self.words)?;
        copy[index] = word;
        self.words = Arc::new(alloc, copy)?;
        Ok(())
    }
}
