// Lists: shelves in a row.

ghost use Rattle.std.specs.Prelude.{◌≡◌, ◌*◌, ◌<◌, ◌^◌, length, get_or, replicate, slice_set, IfOk, OnOk, OnErr};
ghost use Rattle.cif_pages.specs.Pages.{joined, ArePages, AreFullPages};

use crate::shelf::{SHELF, Shelf};
use cif_bits::NoMemory;
use std::alloc::Global;
use std::marker::Model;
use std::sync::Arc;

/// A list of up to 4,294,967,295 words that shares its pages of 1,024 words with the lists that it
/// was shared with. Contracts see the list of its words, so a write to one list is never seen in
/// another.
#[derive(Drop)]
pub struct Paged<T> {
    len: u32,
    shelves: Arc<Vec<Shelf<T>>>,
}

impl<T> Model for Paged<T> {
    ghost use Rattle.std.specs.Prelude.{◌≡◌, List, length};
    ghost use Rattle.cif_pages.specs.Pages.{joined, ArePages};
    ghost use Rattle.cif_pages.specs.declared.shelf.TheConstants.{SHELF};

    ghost Value = { List T };

    ghost view = { λ p. joined p.shelves.value.items };

    ghost invariant = { λ p. ArePages SHELF p.shelves.value.items × (length (joined p.shelves.value.items) ≡ p.len) };
}

/// `count` shelves of `size` words `word`, which all are one shelf.
fn equal_shelves<T: Copy>(
    alloc: Global,
    count: usize,
    size: usize,
    word: T,
) -> Result<Vec<Shelf<T>>, NoMemory>
    ensures words { IfOk result (λ v. joined v.items ≡ replicate (count * size) word) }
    ensures full { IfOk result (λ v. AreFullPages size v.items) }
{
    if count == 0 {
        return Ok(Vec::new(alloc));
    }
    let shelf = Shelf::filled(alloc, size, word)?;
    Ok(vec![in alloc; shelf; count]?)
}

/// The shelves of a list of `length` words `word`.
fn filled_shelves<T: Copy>(alloc: Global, length: usize, word: T) -> Result<Vec<Shelf<T>>, NoMemory>
    ensures words { IfOk result (λ v. joined v.items ≡ replicate length word) }
    ensures shelves { IfOk result (λ v. ArePages SHELF v.items) }
{
    let mut shelves = equal_shelves(alloc, length / SHELF, SHELF, word)?;
    let rest = length % SHELF;
    if rest > 0 {
        shelves.push(Shelf::filled(alloc, rest, word)?)?;
    }
    Ok(shelves)
}

/// The shelves of these words.
fn shelves_of<T: Copy>(alloc: Global, words: &[T]) -> Result<Vec<Shelf<T>>, NoMemory>
    ensures words { IfOk result (λ v. joined v.items ≡ words.now) }
    ensures shelves { IfOk result (λ v. ArePages SHELF v.items) }
{
    let mut shelves = Vec::new(alloc);
    for piece in words.chunks(SHELF) {
        shelves.push(Shelf::of(alloc, piece)?)?;
    }
    Ok(shelves)
}

/// The word at a place, which is in shelf `index / SHELF`.
fn get_in_shelves<T: Copy>(shelves: &[Shelf<T>], index: usize) -> T
    requires shelves { ArePages SHELF shelves.now }
    requires within { index < length (joined shelves.now) }
    ensures { (d : T) → get_or (joined shelves.now) index d ≡ result }
{
    shelves[index / SHELF].get(index % SHELF)
}

/// Writes a word into the shelf that has it.
fn set_in_shelves<T: Copy>(
    alloc: Global,
    shelves: &mut [Shelf<T>],
    index: usize,
    word: T,
) -> Result<(), NoMemory>
    requires shelves { ArePages SHELF shelves.old }
    requires within { index < length (joined shelves.old) }
    ensures ok { OnOk result (joined shelves.new ≡ slice_set (joined shelves.old) index word) }
    ensures shelves { ArePages SHELF shelves.new }
    ensures err { OnErr result (shelves.new ≡ shelves.old) }
{
    shelves[index / SHELF].set(alloc, index % SHELF, word)
}

impl<T: Copy> Paged<T> {
    /// A list of `length` words `word`. Its full pages are all one page until one of them is written.
    pub fn new(alloc: Global, length: u32, word: T) -> Result<Paged<T>, NoMemory>
        ensures { IfOk result (λ p. p ≡ replicate length word) }
    {
        let shelves = filled_shelves(alloc, length as usize, word)?;
        let shelves = Arc::new(alloc, shelves)?;
        Ok(Paged {
            len: length,
            shelves,
        })
    }

    /// A list of these words, at most 4,294,967,295.
    pub fn of(alloc: Global, words: &[T]) -> Result<Paged<T>, NoMemory>
        requires { length words.now < 2 ^ 32 }
        ensures { IfOk result (λ p. p ≡ words.now) }
    {
        let shelves = shelves_of(alloc, words)?;
        let shelves = Arc::new(alloc, shelves)?;
        Ok(Paged {
            len: words.len() as u32,
            shelves,
        })
    }

    /// The number of words.
    pub fn len(&self) -> u32
        ensures { result ≡ length self.now }
    {
        self.len
    }

    /// The word at a place, counted from 0. The time that it takes doesn't depend on the length.
    pub fn get(&self, index: u32) -> T
        requires { index < length self.now }
        ensures lookup { result ≡ get_or self.now index result }
        ensures item { (d : T) → get_or self.now index d ≡ result }
    {
        get_in_shelves(&self.shelves, index as usize)
    }

    /// Another list of the same words, which shares all pages with this one: one more handle, whatever
    /// the length. It allocates nothing, so `NoMemory` comes only where the count of handles is full.
    pub fn share(&self, _alloc: Global) -> Result<Paged<T>, NoMemory>
        ensures { IfOk result (λ p. p ≡ self.now) }
    {
        let shelves = Arc::try_clone(&self.shelves)?;
        Ok(Paged {
            len: self.len,
            shelves,
        })
    }

    /// Writes a word to a place, counted from 0: where it stands if no other list shares the page, else
    /// into a copy of the page. `NoMemory` leaves the list as it was.
    ///
    /// At most it copies one page and two tables of handles: the 128 pages of a shelf, and the shelves,
    /// of which a list has one for each 131,072 words.
    pub fn set(&mut self, alloc: Global, index: u32, word: T) -> Result<(), NoMemory>
        requires { index < length self.old }
        ensures ok { OnOk result (self.new ≡ slice_set self.old index word) }
        ensures err { OnErr result (self.new ≡ self.old) }
    {
        if let Some(shelves) = Arc::get_mut(&mut self.shelves) {
            return set_in_shelves(alloc, shelves, index as usize, word);
        }
        let mut copy = Vec::from_clones(alloc, &self.shelves)?;
        set_in_shelves(alloc, &mut copy, index as usize, word)?;
        self.shelves = Arc::new(alloc, copy)?;
        Ok(())
    }
}
