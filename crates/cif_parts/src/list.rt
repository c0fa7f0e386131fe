// Marked cells, listed: those of the levelled order first, and then the others by their numbers.
ghost use Rattle.std.specs.Prelude.{◌≡◌, ℕ, List, [], ◌∷◌, ◌++◌, ◌+◌, ◌<◌, true, false, length, IfOk, OnOk};
ghost use Rattle.cif_defs.specs.Accepted.{netlist_of};
ghost use Rattle.cif_defs.specs.Loop.{IsLevelled, is_passing};
ghost use Rattle.cif_defs.specs.Netlist.{Netlist as NetlistData, role_at};
ghost use Rattle.cif_defs.specs.Words.{bit};
ghost use Rattle.cif_parts.specs.Listing.{IsListed};

use crate::walk::cell_of;
use cif_cells::Netlist;
use cif_cells::table::role;
use cif_cycle::bit_of;
use std::alloc::{AllocError, Global};

/// Appends a cell, where it is wanted.
fn push_wanted(cells: &mut Vec<u32>, number: u32, is_wanted: bool) -> Result<(), AllocError>
    ensures pushed { OnOk result (is_wanted ≡ true → cells.new.items ≡ cells.old.items ++ number ∷ []) }
    ensures kept { OnOk result (is_wanted ≡ false → cells.new.items ≡ cells.old.items) }
{
    if is_wanted {
        cells.push(number)?;
    }
    Ok(())
}

/// Appends the marked cells of an order, as they stand there.
fn push_placed(order: &[u32], marks: &[bool], cells: &mut Vec<u32>) -> Result<(), AllocError>
    ensures { OnOk result ((n : NetlistData) → IsLevelled n order.now
        → IsListed n order.now marks.now cells.old.items 0
        → IsListed n order.now marks.now cells.new.items (length order.now)) }
{
    for number in order {
        push_wanted(cells, *number, bit_of(marks, *number as usize))?;
    }
    Ok(())
}

/// Whether a cell is marked, and not passing.
fn is_other(netlist: &Netlist, marks: &[bool], number: u32) -> bool
    requires { number < length (netlist_of netlist.now).cells }
    ensures marked { result ≡ true → bit marks.now number ≡ true }
    ensures other { result ≡ true → is_passing (role_at (netlist_of netlist.now) number) ≡ false }
    ensures unmarked { result ≡ false → is_passing (role_at (netlist_of netlist.now) number) ≡ false
        → bit marks.now number ≡ false }
{
    let kind = cell_of(netlist, number).kind();
    bit_of(marks, number as usize) && !role(kind).is_passing()
}

/// Appends the marked cells that aren't passing, and so stand in no order, by their numbers.
fn push_others(netlist: &Netlist, marks: &[bool], cells: &mut Vec<u32>) -> Result<(), AllocError>
    ensures { OnOk result ((order : List ℕ) → IsLevelled (netlist_of netlist.now) order
        → IsListed (netlist_of netlist.now) order marks.now cells.old.items (length order)
        → IsListed (netlist_of netlist.now) order marks.now cells.new.items
        (length order + length (netlist_of netlist.now).cells)) }
{
    let count = netlist.cells().len() as u32;
    for number in 0..count {
        push_wanted(cells, number, is_other(netlist, marks, number))?;
    }
    Ok(())
}

/// The marked cells of a levelled order, as they stand there.
pub(crate) fn listed_in_order(
    alloc: Global,
    order: &[u32],
    marks: &[bool],
) -> Result<Vec<u32>, AllocError>
    ensures { IfOk result (λ v. (n : NetlistData) → IsLevelled n order.now
        → IsListed n order.now marks.now v.items (length order.now)) }
{
    let mut cells = Vec::new(alloc);
    push_placed(order, marks, &mut cells)?;
    Ok(cells)
}

/// The marked cells of a netlist: those of the levelled order first, as they stand there, and then the others, by their
/// numbers.
pub(crate) fn listed(
    alloc: Global,
    netlist: &Netlist,
    order: &[u32],
    marks: &[bool],
) -> Result<Vec<u32>, AllocError>
    requires { IsLevelled (netlist_of netlist.now) order.now }
    ensures { IfOk result (λ v. IsListed (netlist_of netlist.now) order.now marks.now v.items
        (length order.now + length (netlist_of netlist.now).cells)) }
{
    let mut cells = Vec::new(alloc);
    push_placed(order, marks, &mut cells)?;
    push_others(netlist, marks, &mut cells)?;
    Ok(cells)
}
