//! Lists that contracts see as what they hold.
ghost use Rattle.std.specs.Prelude.{◌≡◌, ◌≤◌, ◌+◌, ◌-◌, ◌++◌, ◌↔◌, [], length, IsTrue, Contains, IfOk, vec_len, vec_capacity, option_map, find, bytes_eq};
ghost use Rattle.std.specs.Option.{option_copied};

use std::alloc::{AllocError, Global};
use std::marker::Model;

/// Bytes, and the room that they have for more. Contracts see both.
#[derive(Debug, Drop)]
pub struct Bytes {
    items: Vec<u8>,
}

impl Model for Bytes {
    ghost use Rattle.std.specs.Prelude.{◌-◌, vec_len, vec_capacity};
    ghost use Rattle.cif_io.specs.Lists.{Buffer};

    ghost Value = { Buffer };

    ghost view = { λ b. record { items = b.items.items; room = vec_capacity b.items - vec_len b.items } };
}

impl Bytes {
    /// These bytes, with the room that the vector has.
    pub fn of(items: Vec<u8>) -> Bytes
        ensures items { result.items ≡ items.items }
        ensures room { result.room ≡ vec_capacity items - vec_len items }
    {
        Bytes { items }
    }

    /// No bytes yet, and room for so many. `AllocError` is want of memory.
    pub fn with_room(alloc: Global, room: usize) -> Result<Bytes, AllocError>
        ensures items { IfOk result (λ b. b.items ≡ []) }
        ensures room { IfOk result (λ b. b.room ≡ room) }
    {
        Ok(Bytes::of(Vec::with_capacity(alloc, room)?))
    }

    /// The bytes.
    pub fn items(&self) -> &[u8]
        ensures { result.now ≡ self.now.items }
    {
        self.items.as_slice()
    }

    /// How many more bytes there is room for.
    pub fn room(&self) -> usize
        ensures { result ≡ self.now.room }
    {
        self.items.capacity() - self.items.len()
    }

    /// Adds bytes for which there is room. It takes no memory.
    pub fn append(&mut self, bytes: &[u8])
        requires { length bytes.now ≤ self.old.room }
        ensures items { self.new.items ≡ self.old.items ++ bytes.now }
        ensures room { self.old.room ≤ self.new.room + length bytes.now }
    {
        self.items.extend_from_slice(bytes).unwrap();
    }
}

/// The numbers of the calls that fail, counted from 1.
#[derive(Debug, Drop)]
pub struct CallNumbers {
    items: Vec<u64>,
}

impl Model for CallNumbers {
    ghost use Rattle.std.specs.Prelude.{ℕ, List};

    ghost Value = { List ℕ };

    ghost view = { λ n. n.items.items };
}

impl CallNumbers {
    /// These numbers.
    pub fn of(items: Vec<u64>) -> CallNumbers
        ensures { result ≡ items.items }
    {
        CallNumbers { items }
    }

    /// The numbers.
    pub fn items(&self) -> &[u64]
        ensures { result.now ≡ self.now }
    {
        self.items.as_slice()
    }

    /// Whether this call fails.
    pub fn contains(&self, call: u64) -> bool
        ensures { IsTrue result ↔ Contains self.now call }
    {
        self.items.contains(&call)
    }
}

/// A file of a store in memory.
#[derive(Debug, Drop)]
pub struct File {
    pub name: Bytes,
    pub bytes: Bytes,
}

/// The files of a store in memory. Of several with one name the first counts.
#[derive(Debug, Drop)]
pub struct Files {
    items: Vec<File>,
}

impl Model for Files {
    ghost use Rattle.cif_io.specs.Outside as outside;

    ghost Value = { outside.Files };

    ghost use Rattle.cif_io.specs.ToldFiles.{told_files};

    ghost view = { λ f. told_files f.items.items };
}

impl Files {
    ghost use Rattle.cif_io.specs.ToldFiles.{told_file, told_files};
    ghost use Rattle.cif_io.specs.Outside.{file_named};

    /// These files, where the first of a name comes first.
    pub fn of(items: Vec<File>) -> Files
        ensures { result ≡ told_files items.items }
    {
        Files { items }
    }

    /// The files.
    pub fn items(&self) -> &[File]
        ensures { told_files result.now ≡ self.now }
    {
        self.items.as_slice()
    }

    /// The first file of that name.
    pub fn named(&self, name: &[u8]) -> Option<&File>
        ensures { option_map (λ f. f.bytes.items) (option_copied result) ≡ file_named self.now name.now }
    {
        first_named(self.items.as_slice(), name)
    }
}

fn first_named<'a>(files: &'a [File], name: &[u8]) -> Option<&'a File>
    ensures { option_copied result ≡ find (λ f. bytes_eq f.name.items name.now) files.now }
{
    files.iter().find(|file| file.name.items() == name)
}
