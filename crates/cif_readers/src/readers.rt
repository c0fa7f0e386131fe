// The table of the cells that read each net bit.
ghost use Rattle.std.specs.Prelude.{◌≡◌, ◌<◌, ◌≤◌, ◌⊎◌, ℕ, true, length, get_or, slice_set, IfOk};
ghost use Rattle.cif_defs.specs.Words.{bit};
ghost use Rattle.cif_defs.specs.Accepted.{netlist_of};
ghost use Rattle.cif_defs.specs.Netlist.{Netlist as NetlistData};
ghost use Rattle.cif_readers.specs.Reads.{Reads, Notes};
ghost use Rattle.cif_readers.specs.Places.{IsAmong, IsBetween};
ghost use Rattle.cif_readers.specs.Tables.{AreReaders, IsListed};

use crate::marks::{mark_cells, write_bit};
use crate::readings::readings_of;
use crate::tables::{cells_in_order, counts_of, sums_of};
use cif_cells::{NetBit, Netlist};
use std::alloc::{AllocError, Global};

/// The part of some cells from place `from` up to place `to`, as far as they go.
fn part(cells: &[u32], from: usize, to: usize) -> &[u32]
    ensures has { (place : ℕ) → from ≤ place → place < to → place < length cells.now → IsAmong result.now (get_or cells.now place 0) }
    ensures only { (c : ℕ) → IsAmong result.now c → IsBetween cells.now from to c }
{
    let end = to.min(cells.len());
    let start = from.min(end);
    &cells[start..end]
}

/// Which cells read each net bit.
#[derive(Debug, Drop)]
pub struct Readers {
    // For each net bit, up to the greatest that is read, the place of its first cell; and one place more, where the cells end.
    starts: Vec<usize>,
    // The cells of each net bit, after those of lower ones: one for each operand bit.
    cells: Vec<u32>,
}

impl Readers {
    /// The cells that read each net bit of a netlist. It takes as long as a walk over all operand bits; the table keeps
    /// four bytes for each of them that is a net bit, and eight for each net bit.
    pub fn of(alloc: Global, netlist: &Netlist) -> Result<Readers, AllocError>
        ensures { IfOk result (λ r. AreReaders (netlist_of netlist.now) r) }
    {
        let readings = readings_of(alloc, netlist.cells())?;
        let counts = counts_of(alloc, &readings)?;
        let starts = sums_of(alloc, &counts)?;
        let cells = cells_in_order(alloc, &readings, &starts)?;
        Ok(Readers { starts, cells })
    }

    /// The place in the table at which the cells of a net bit begin, or those of the one before it end; 0 past the end.
    fn start(&self, net: usize) -> usize
        ensures { result ≡ get_or self.now.starts.items net 0 }
    {
        self.starts.get(net).copied().unwrap_or(0)
    }

    /// The cells that read a net bit, by their places among the cells of the netlist. A cell stands there once for each
    /// operand bit at which it reads the net bit.
    fn cells_of(&self, net: NetBit) -> &[u32]
        ensures listed { (n : NetlistData) → AreReaders n self.now → (c : ℕ) → Reads n c net → IsAmong result.now c }
        ensures only { (c : ℕ) → IsAmong result.now c → IsListed self.now net c }
    {
        let net = net as usize;
        part(&self.cells, self.start(net), self.start(net + 1))
    }

    /// Marks the cells that read a net bit. Other marks stay as they are.
    pub fn mark(&self, net: NetBit, marks: &mut [bool])
        ensures length { length marks.new ≡ length marks.old }
        ensures kept { (c : ℕ) → bit marks.old c ≡ true → bit marks.new c ≡ true }
        ensures marked { (n : NetlistData) → AreReaders n self.now → (c : ℕ) → Reads n c net → c < length marks.old → bit marks.new c ≡ true }
        ensures only { (n : NetlistData) → AreReaders n self.now → (c : ℕ) → bit marks.new c ≡ true → (bit marks.old c ≡ true) ⊎ Reads n c net }
    {
        mark_cells(marks, self.cells_of(net));
    }

    /// Sets a net bit and its taint, and marks the cells that read it where either changes.
    pub fn set_bit(
        &self,
        net: NetBit,
        value: bool,
        taint: bool,
        values: &mut [bool],
        taints: &mut [bool],
        marks: &mut [bool],
    )
        requires value_stands { net < length values.old }
        requires taint_stands { net < length taints.old }
        ensures values { values.new ≡ slice_set values.old net value }
        ensures taints { taints.new ≡ slice_set taints.old net taint }
        ensures values_length { length values.new ≡ length values.old }
        ensures taints_length { length taints.new ≡ length taints.old }
        ensures marks_length { length marks.new ≡ length marks.old }
        ensures only { (n : NetlistData) → AreReaders n self.now → (c : ℕ) → bit marks.new c ≡ true → (bit marks.old c ≡ true) ⊎ Reads n c net }
        ensures notes { (n : NetlistData) → AreReaders n self.now → length n.cells ≤ length marks.old
            → Notes n values.old taints.old values.new taints.new marks.old marks.new }
    {
        if write_bit(values, taints, net as usize, value, taint) {
            self.mark(net, marks);
        }
    }
}
