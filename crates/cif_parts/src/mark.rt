// The marks of the cells that a part owns, of those that it evaluates, and of those of which it needs what they store.
ghost use Rattle.std.specs.Prelude.{◌≡◌, ℕ, ◌<◌, ◌≤◌, true, length, IfOk};
ghost use Rattle.cif_defs.specs.Accepted.{netlist_of};
ghost use Rattle.cif_defs.specs.Loop.{IsLevelled};
ghost use Rattle.cif_defs.specs.Netlist.{role_at};
ghost use Rattle.cif_defs.specs.Words.{bit};
ghost use Rattle.cif_pieces.specs.Parts.{Evaluates, Needs, OwnsCell, Uses, owner as owner_of, stores as stores_of};
ghost use Rattle.cif_parts.specs.Closing.{IsClosed};
ghost use Rattle.cif_parts.specs.Marking.{AreMarks, IsStoring};

use crate::walk::{Walk, cell_of};
use cif_cells::table::role;
use cif_cells::{Netlist, Role};
use cif_cycle::bit_of;
use std::alloc::{AllocError, Global};

/// The part, of so many, that owns a cell of so many.
pub(crate) fn owner(cells: u32, parts: u32, number: u32) -> u32
    requires inside { number < cells }
    requires some { 0 < parts }
    requires few { parts ≤ 64 }
    ensures is { result ≡ owner_of cells parts number }
    ensures part { result < parts }
{
    (u64::from(number) * u64::from(parts) / u64::from(cells)) as u32
}

/// For each of so many cells whether a part owns it.
pub(crate) fn owned_marks(
    alloc: Global,
    cells: u32,
    parts: u32,
    part: u32,
) -> Result<Vec<bool>, AllocError>
    requires few { parts ≤ 64 }
    requires some { 0 < parts }
    ensures { IfOk result (λ m. AreMarks m.items cells
        (λ c. (c < cells) × (owner_of cells parts c ≡ part))) }
{
    let mut marks = Vec::with_capacity(alloc, cells as usize)?;
    for number in 0..cells {
        marks.push(owner(cells, parts, number) == part)?;
    }
    Ok(marks)
}

/// Marks the passing cells from which a path leads to a marked cell, backwards along the levelled order.
fn mark_leading(netlist: &Netlist, order: &[u32], marks: &mut [bool])
    requires levelled { IsLevelled (netlist_of netlist.now) order.now }
    requires as_many { length marks.old ≡ length (netlist_of netlist.now).cells }
    ensures closed { (parts part : ℕ)
        → IsClosed (netlist_of netlist.now) order.now parts part (length order.now) marks.old
        → IsClosed (netlist_of netlist.now) order.now parts part 0 marks.new }
    ensures as_many { length marks.new ≡ length marks.old }
{
    let _accepted = netlist.cells();
    let count = order.len();
    for step in 0..count {
        let number = order[count - 1 - step];
        if bit_of(marks, number as usize) {
            Walk::Counting.mark_met_from(netlist, number, marks);
        }
    }
}

/// Marks besides the owned cells those that a part evaluates.
fn mark_evaluated(netlist: &Netlist, order: &[u32], owned: &[bool], marks: &mut [bool])
    requires levelled { IsLevelled (netlist_of netlist.now) order.now }
    requires as_many { length owned.now ≡ length (netlist_of netlist.now).cells }
    requires same { marks.old ≡ owned.now }
    ensures marks { (parts part : ℕ)
        → AreMarks owned.now (length (netlist_of netlist.now).cells) (OwnsCell (netlist_of netlist.now) parts part)
        → AreMarks marks.new (length (netlist_of netlist.now).cells) (Evaluates (netlist_of netlist.now) parts part) }
    ensures as_many { length marks.new ≡ length (netlist_of netlist.now).cells }
{
    let _accepted = netlist.cells();
    Walk::Operands.mark_met_from_all(netlist, owned, marks);
    mark_leading(netlist, order, marks);
}

/// For each cell whether a part evaluates it, from the marks of those that it owns.
pub(crate) fn evaluated_marks(
    alloc: Global,
    netlist: &Netlist,
    order: &[u32],
    owned: &[bool],
) -> Result<Vec<bool>, AllocError>
    requires levelled { IsLevelled (netlist_of netlist.now) order.now }
    requires as_many { length owned.now ≡ length (netlist_of netlist.now).cells }
    ensures marks { IfOk result (λ m. (parts part : ℕ)
        → AreMarks owned.now (length (netlist_of netlist.now).cells) (OwnsCell (netlist_of netlist.now) parts part)
        → AreMarks m.items (length (netlist_of netlist.now).cells) (Evaluates (netlist_of netlist.now) parts part)) }
    ensures as_many { IfOk result (λ m. length m.items ≡ length (netlist_of netlist.now).cells) }
{
    let mut marks = Vec::from_slice(alloc, owned)?;
    mark_evaluated(netlist, order, owned, &mut marks);
    Ok(marks)
}

/// Marks besides the cells that a part evaluates the registers that these read.
fn mark_used(netlist: &Netlist, evaluated: &[bool], marks: &mut [bool])
    requires as_many { length evaluated.now ≡ length (netlist_of netlist.now).cells }
    requires same { marks.old ≡ evaluated.now }
    ensures { (parts part : ℕ)
        → AreMarks evaluated.now (length (netlist_of netlist.now).cells) (Evaluates (netlist_of netlist.now) parts part)
        → AreMarks marks.new (length (netlist_of netlist.now).cells) (Uses (netlist_of netlist.now) parts part) }
{
    let _accepted = netlist.cells();
    Walk::Registers.mark_met_from_all(netlist, evaluated, marks);
}

/// Whether it is the role of a register or of a memory, which store something.
fn stores(role: Role) -> bool
    ensures { result ≡ stores_of role }
{
    role.is_register() || role.is_memory()
}

/// Whether a cell is marked, and stores something.
fn is_storing(netlist: &Netlist, marks: &[bool], number: u32) -> bool
    requires { number < length (netlist_of netlist.now).cells }
    ensures marked { result ≡ true → bit marks.now number ≡ true }
    ensures storing { result ≡ true → stores_of (role_at (netlist_of netlist.now) number) ≡ true }
    ensures each { IsStoring (netlist_of netlist.now) marks.now number → result ≡ true }
{
    let kind = cell_of(netlist, number).kind();
    bit_of(marks, number as usize) && stores(role(kind))
}

/// For each cell whether it is marked, and stores something.
fn storing_marks(alloc: Global, netlist: &Netlist, marks: &[bool]) -> Result<Vec<bool>, AllocError>
    ensures { IfOk result (λ m. AreMarks m.items (length (netlist_of netlist.now).cells)
        (λ c. (c < length (netlist_of netlist.now).cells) × IsStoring (netlist_of netlist.now) marks.now c)) }
{
    let count = netlist.cells().len() as u32;
    let mut storing = Vec::with_capacity(alloc, count as usize)?;
    for number in 0..count {
        storing.push(is_storing(netlist, marks, number))?;
    }
    Ok(storing)
}

/// For each cell whether a part needs what it stores, from the marks of those that it evaluates.
pub(crate) fn needed_marks(
    alloc: Global,
    netlist: &Netlist,
    evaluated: &[bool],
) -> Result<Vec<bool>, AllocError>
    requires { length evaluated.now ≡ length (netlist_of netlist.now).cells }
    ensures { IfOk result (λ m. (parts part : ℕ)
        → AreMarks evaluated.now (length (netlist_of netlist.now).cells) (Evaluates (netlist_of netlist.now) parts part)
        → AreMarks m.items (length (netlist_of netlist.now).cells) (Needs (netlist_of netlist.now) parts part)) }
{
    let mut marks = Vec::from_slice(alloc, evaluated)?;
    mark_used(netlist, evaluated, &mut marks);
    let storing = storing_marks(alloc, netlist, &marks)?;
    Ok(storing)
}
