// New net numbers and new names of cells.

ghost use Rattle.std.specs.Prelude.{◌≡◌, ◌+◌, ◌<◌, ◌≤◌, ◌^◌, ℕ, None, Some, IfOk, length, slice_index, false, true};
ghost use Rattle.std.specs.List.Sorted.{IsStrictlyIncreasing};
ghost use Rattle.cif_checks.specs.Checks.{has_number};
ghost use Rattle.cif_emit.specs.Makers.{IsFree, further_name as name_with, name_in, with_number};
ghost use Rattle.cif_emit.specs.Handed.{AreNewNets, IsKept};

use cif_bits::NoMemory;
use cif_defs::{Name, RawBit};
use cif_text::push_number;
use std::alloc::Global;
use std::marker::Model;

/// How many net numbers can be handed out.
const NUMBER_LIMIT: u64 = 1 << 62;

/// Net numbers. Contracts see the list of them.
#[derive(Drop)]
pub struct NetNumbers {
    numbers: Vec<u64>,
}

impl Model for NetNumbers {
    ghost use Rattle.std.specs.Prelude.{ℕ, List};

    ghost Value = { List ℕ };

    ghost view = { λ n. n.numbers.items };
}

impl NetNumbers {
    /// The list of these numbers. It takes no memory.
    pub fn of(numbers: Vec<u64>) -> NetNumbers
        ensures { result ≡ numbers.items }
    {
        NetNumbers { numbers }
    }

    /// Its numbers.
    pub fn items(&self) -> &[u64]
        ensures value { result.now ≡ self.now }
        ensures limit { length result.now < 2 ^ 63 }
    {
        &self.numbers
    }
}

/// How far the numbers and names have come.
#[derive(Clone, Copy, Drop)]
pub(crate) struct Counts {
    /// The least number that wasn't looked at yet.
    next: u64,
    /// How many used numbers are below it.
    passed: usize,
    /// How many numbers were handed out.
    handed: u64,
    /// How many names of the cell were made.
    made: u64,
}

/// What hands out the net numbers and the names of new cells. Contracts see it as a `Maker`.
#[derive(Drop)]
pub struct NameMaker {
    used: NetNumbers,
    cell: Option<Name>,
    counts: Counts,
}

impl Model for NameMaker {
    ghost use Rattle.cif_emit.specs.Makers.{Maker};

    ghost Value = { Maker };

    ghost use Rattle.cif_emit.specs.MakerView.{maker_of, IsMaker};

    ghost view = { maker_of };

    ghost invariant = { IsMaker };
}

/// A number that isn't used, and how many used numbers are below it.
#[derive(Clone, Copy, Drop)]
struct Unused {
    number: u64,
    passed: usize,
}

/// The name `C__t` and a number of a cell `C`.
fn further_name(alloc: Global, cell: &[u8], index: u64) -> Result<Name, NoMemory>
    ensures { IfOk result (λ name. name ≡ name_with cell.now index) }
{
    let mut name = Vec::from_slice(alloc, cell)?;
    name.extend_from_slice(b"__t")?;
    push_number(alloc, &mut name, index)?;
    Ok(Name::of(name))
}

/// The least number from `from` on that isn't used; the first `passed` used numbers are below `from`.
fn least_unused(used: &[u64], from: u64, passed: usize) -> Unused
    requires rising { IsStrictlyIncreasing used.now }
    requires limit { length used.now < 2 ^ 63 }
    requires inside { passed ≤ length used.now }
    requires below { (k : ℕ) → k < passed → slice_index used.now k < from }
    requires few { from ≤ 2 + 2 ^ 62 + passed }
    ensures later { from ≤ result.number }
    ensures unused { has_number result.number used.now ≡ false }
    ensures least { (x : ℕ) → from ≤ x → x < result.number → has_number x used.now ≡ true }
    ensures inside { result.passed ≤ length used.now }
    ensures below { (k : ℕ) → k < result.passed → slice_index used.now k ≤ result.number }
    ensures few { result.number + passed ≤ from + result.passed }
{
    let mut number = from;
    let mut place = passed;
    while place < used.len() && used[place] <= number {
        if used[place] == number {
            number += 1;
        }
        place += 1;
    }
    Unused {
        number,
        passed: place,
    }
}

impl NameMaker {
    /// A maker that hands out none of the `used` numbers, which rise. It has no cell yet, and takes no memory.
    pub fn new(used: NetNumbers) -> NameMaker
        requires { IsStrictlyIncreasing used }
        ensures { result ≡ record { used = used; next = 2; handed = 0; cell = None; made = 0 } }
    {
        NameMaker {
            used,
            cell: None,
            counts: Counts {
                next: 2,
                passed: 0,
                handed: 0,
                made: 0,
            },
        }
    }

    /// Starts the names `C__t0`, `C__t1` and on of the cell `C`.
    pub fn begin(&mut self, cell: Name)
        ensures { self.new ≡ record self.old { cell = Some cell; made = 0 } }
    {
        self.resume(cell, 0)
    }

    /// Goes on with the names of a cell, of which `made` were made before: the next one is `C__t` and this number.
    pub fn resume(&mut self, cell: Name, made: u64)
        ensures { self.new ≡ record self.old { cell = Some cell; made = made } }
    {
        self.cell = Some(cell);
        self.counts.made = made;
    }

    /// How many names of the cell were made.
    pub fn made(&self) -> u64
        ensures { result ≡ self.now.made }
    {
        self.counts.made
    }

    /// The next net number: the least from 2 on that isn't used and wasn't handed out. Fewer than 2^62 numbers have been
    /// handed out.
    pub fn net(&mut self) -> u64
        requires { self.old.handed < 2 ^ 62 }
        ensures free { IsFree self.old result }
        ensures least { (x : ℕ) → IsFree self.old x → result ≤ x }
        ensures state { self.new ≡ with_number self.old result }
    {
        let counts = self.counts;
        let unused = least_unused(self.used.items(), counts.next, counts.passed);
        self.counts = Counts {
            next: unused.number + 1,
            passed: unused.passed,
            handed: counts.handed + 1,
            made: counts.made,
        };
        unused.number
    }

    /// The next net number; want of memory where no more can be handed out.
    fn checked_net(&mut self) -> Result<u64, NoMemory>
        ensures kept { IsKept self.old self.new }
        ensures ok { IfOk result (λ x. IsFree self.old x × (self.new ≡ with_number self.old x)) }
    {
        if self.counts.handed >= NUMBER_LIMIT {
            return Err(NoMemory);
        }
        Ok(self.net())
    }

    /// New nets, `width` of them.
    pub(crate) fn nets(&mut self, alloc: Global, width: usize) -> Result<Vec<RawBit>, NoMemory>
        ensures kept { IsKept self.old self.new }
        ensures ok { IfOk result (λ y. AreNewNets self.old self.new width y.items) }
    {
        let mut bits = Vec::with_capacity(alloc, width)?;
        for _ in 0..width {
            let number = self.checked_net()?;
            bits.push(RawBit::Net(number))?;
        }
        Ok(bits)
    }

    /// The next name of the cell that was begun.
    pub(crate) fn cell_name(&mut self, alloc: Global) -> Result<Name, NoMemory>
        ensures kept { IsKept self.old self.new }
        ensures ok { IfOk result (λ name. (name ≡ name_in self.old self.old.made)
            × (self.new ≡ record self.old { made = self.old.made + 1 })) }
    {
        let made = self.counts.made;
        let Some(next) = made.checked_add(1) else {
            return Err(NoMemory);
        };
        let cell: &[u8] = match &self.cell {
            Some(cell) => cell.items(),
            None => &[],
        };
        let name = further_name(alloc, cell, made)?;
        self.counts.made = next;
        Ok(name)
    }
}

/// What a maker goes back to.
impl NameMaker {
    ghost use Rattle.cif_emit.specs.Counting.{maker_from, AreCounts};

    /// How far it has come.
    pub(crate) fn counts(&self) -> Counts
        ensures sound { AreCounts self.now.used result }
        ensures same { self.now ≡ maker_from self.now.used self.now.cell result }
    {
        self.counts
    }

    /// Goes back to where it had come.
    pub(crate) fn restore(&mut self, counts: Counts)
        requires { AreCounts self.old.used counts }
        ensures { self.new ≡ maker_from self.old.used self.old.cell counts }
    {
        self.counts = counts;
    }
}
