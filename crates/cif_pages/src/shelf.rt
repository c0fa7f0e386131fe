// Shelves: pages in a row.

ghost use Rattle.std.specs.Prelude.{◌≡◌, ◌*◌, ◌<◌, length, get_or, replicate, slice_set, IfOk, OnOk, OnErr};
ghost use Rattle.cif_pages.specs.Pages.{joined, ArePages, AreFullPages};

use crate::page::{PAGE, Page};
use cif_bits::NoMemory;
use std::alloc::{AllocError, Global};
use std::marker::Model;
use std::sync::Arc;

/// The number of words of a full shelf, which has 128 pages.
pub const SHELF: usize = 131_072;

/// A table of pages that several lists may share. Contracts see the list of its words.
#[derive(Drop)]
pub struct Shelf<T> {
    pages: Arc<Vec<Page<T>>>,
}

impl<T> Model for Shelf<T> {
    ghost use Rattle.std.specs.Prelude.{List};
    ghost use Rattle.cif_pages.specs.Pages.{joined, ArePages};
    ghost use Rattle.cif_pages.specs.declared.page.TheConstants.{PAGE};

    ghost Value = { List T };

    ghost view = { λ s. joined s.pages.value.items };

    ghost invariant = { λ s. ArePages PAGE s.pages.value.items };
}

/// `count` pages of `size` words `word`, which all are one page.
fn equal_pages<T: Copy>(
    alloc: Global,
    count: usize,
    size: usize,
    word: T,
) -> Result<Vec<Page<T>>, NoMemory>
    ensures words { IfOk result (λ v. joined v.items ≡ replicate (count * size) word) }
    ensures full { IfOk result (λ v. AreFullPages size v.items) }
{
    if count == 0 {
        return Ok(Vec::new(alloc));
    }
    let page = Page::filled(alloc, size, word)?;
    Ok(vec![in alloc; page; count]?)
}

/// The pages of a list of `length` words `word`.
fn filled_pages<T: Copy>(alloc: Global, length: usize, word: T) -> Result<Vec<Page<T>>, NoMemory>
    ensures words { IfOk result (λ v. joined v.items ≡ replicate length word) }
    ensures pages { IfOk result (λ v. ArePages PAGE v.items) }
{
    let mut pages = equal_pages(alloc, length / PAGE, PAGE, word)?;
    let rest = length % PAGE;
    if rest > 0 {
        pages.push(Page::filled(alloc, rest, word)?)?;
    }
    Ok(pages)
}

/// The pages of these words.
fn pages_of<T: Copy>(alloc: Global, words: &[T]) -> Result<Vec<Page<T>>, NoMemory>
    ensures words { IfOk result (λ v. joined v.items ≡ words.now) }
    ensures pages { IfOk result (λ v. ArePages PAGE v.items) }
{
    let mut pages = Vec::new(alloc);
    for piece in words.chunks(PAGE) {
        pages.push(Page::of(alloc, piece)?)?;
    }
    Ok(pages)
}

/// The word at a place, which is in page `index / PAGE`.
fn get_in_pages<T: Copy>(pages: &[Page<T>], index: usize) -> T
    requires pages { ArePages PAGE pages.now }
    requires within { index < length (joined pages.now) }
    ensures { (d : T) → get_or (joined pages.now) index d ≡ result }
{
    pages[index / PAGE].get(index % PAGE)
}

/// Writes a word into the page that has it.
fn set_in_pages<T: Copy>(
    alloc: Global,
    pages: &mut [Page<T>],
    index: usize,
    word: T,
) -> Result<(), NoMemory>
    requires pages { ArePages PAGE pages.old }
    requires within { index < length (joined pages.old) }
    ensures ok { OnOk result (joined pages.new ≡ slice_set (joined pages.old) index word) }
    ensures pages { ArePages PAGE pages.new }
    ensures err { OnErr result (pages.new ≡ pages.old) }
{
    pages[index / PAGE].set(alloc, index % PAGE, word)
}

/// A clone is one more handle on the same pages.
impl<T: Copy> Clone for Shelf<T> {
    ghost use Rattle.std.specs.Prelude.{◌≡◌};

    ghost is_clone = { λ s r. r ≡ s };

    fn clone(&self) -> Result<Shelf<T>, AllocError> {
        let pages = Arc::try_clone(&self.pages)?;
        Ok(Shelf { pages })
    }
}

impl<T: Copy> Shelf<T> {
    /// A shelf of `length` words `word`.
    pub fn filled(alloc: Global, length: usize, word: T) -> Result<Shelf<T>, NoMemory>
        ensures { IfOk result (λ s. s ≡ replicate length word) }
    {
        let pages = filled_pages(alloc, length, word)?;
        let pages = Arc::new(alloc, pages)?;
        Ok(Shelf { pages })
    }

    /// A shelf of these words.
    pub fn of(alloc: Global, words: &[T]) -> Result<Shelf<T>, NoMemory>
        ensures { IfOk result (λ s. s ≡ words.now) }
    {
        let pages = pages_of(alloc, words)?;
        let pages = Arc::new(alloc, pages)?;
        Ok(Shelf { pages })
    }

    /// The word at a place.
    pub fn get(&self, index: usize) -> T
        requires { index < length self.now }
        ensures { (d : T) → get_or self.now index d ≡ result }
    {
        get_in_pages(&self.pages, index)
    }

    /// Writes a word. Where someone else has this shelf, its table is copied first: at most 128
    /// handles. So is the page, where someone else has it.
    pub fn set(&mut self, alloc: Global, index: usize, word: T) -> Result<(), NoMemory>
        requires { index < length self.old }
        ensures ok { OnOk result (self.new ≡ slice_set self.old index word) }
        ensures err { OnErr result (self.new ≡ self.old) }
    {
        if let Some(pages) = Arc::get_mut(&mut self.pages) {
            return set_in_pages(alloc, pages, index, word);
        }
        let mut copy = Vec::from_clones(alloc, &self.pages)?;
        set_in_pages(alloc, &mut copy, index, word)?;
        self.pages = Arc::new(alloc, copy)?;
        Ok(())
    }
}
