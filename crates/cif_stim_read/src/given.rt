// What lines gave so far: sets of names, and of the rows of memories.
ghost use Rattle.std.specs.Prelude.{◌≡◌, ◌&&◌, ◌||◌, ◌==◌, not, ℕ, List, bytes_eq, false, IfOk, OnOk};
ghost use Rattle.cif_stim_read.specs.Given.{has, has_row};

use cif_bits::NoMemory;
use std::alloc::Global;
use std::collections::BTreeSet;

/// A set of names.
#[derive(Drop)]
pub struct NameSet<'a> {
    names: BTreeSet<&'a [u8]>,
}

impl<'a> NameSet<'a> {
    /// No names.
    pub fn new(alloc: Global) -> NameSet<'a>
        ensures { (name : List ℕ) → has result name ≡ false }
    {
        NameSet {
            names: BTreeSet::new(alloc),
        }
    }

    /// Adds a name, and says whether it is new.
    pub fn add(&mut self, name: &'a [u8]) -> Result<bool, NoMemory>
        ensures is_new { IfOk result (λ new. new ≡ not (has self.old name.now)) }
        ensures added { OnOk result ((other : List ℕ)
            → has self.new other ≡ (bytes_eq name.now other || has self.old other)) }
    {
        Ok(self.names.insert(name)?)
    }
}

/// A set of rows of memories: the name of a memory and an address.
#[derive(Drop)]
pub struct RowSet<'a> {
    rows: BTreeSet<(&'a [u8], u64)>,
}

impl<'a> RowSet<'a> {
    /// No rows.
    pub fn new(alloc: Global) -> RowSet<'a>
        ensures { (name : List ℕ) (address : ℕ) → has_row result name address ≡ false }
    {
        RowSet {
            rows: BTreeSet::new(alloc),
        }
    }

    /// Adds a row, and says whether it is new.
    pub fn add(&mut self, name: &'a [u8], address: u64) -> Result<bool, NoMemory>
        ensures is_new { IfOk result (λ new. new ≡ not (has_row self.old name.now address)) }
        ensures added { OnOk result ((other : List ℕ) (place : ℕ)
            → has_row self.new other place
            ≡ (bytes_eq name.now other && address == place || has_row self.old other place)) }
    {
        Ok(self.rows.insert((name, address))?)
    }
}
