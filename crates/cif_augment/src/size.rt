// Whether an augmented module may come out too large.
ghost use Rattle.std.specs.Prelude.{◌≡◌, ◌<◌, ◌^◌, None, IfErr, OnOk};
ghost use Rattle.cif_augment.specs.Refusals.{augmented_size as augmented_size_of, instrument_fault, size_fault, IsFirst};

use crate::fault::InstrumentFault;
use crate::taken::check_names;
use crate::weights::total_weight;
use cif_cells::Netlist;
use std::alloc::Global;

/// The most cells that an augmented module may come to.
const SIZE_LIMIT: u64 = 400_000;

/// How many cells a netlist has, and its taint may cost.
fn augmented_size(netlist: &Netlist) -> u64
    ensures { result ≡ augmented_size_of netlist.now }
{
    let cells = netlist.cells();
    cells.len() as u64 + total_weight(cells)
}

/// Refuses a netlist whose cells and their weights pass 400,000 together.
///
/// # Errors
///
/// `AugTooLarge` with that sum.
pub fn check_size(netlist: &Netlist) -> Result<(), InstrumentFault>
    ensures ok { OnOk result (size_fault netlist.now ≡ None) }
    ensures err { IfErr result (λ e. IsFirst (size_fault netlist.now) e) }
{
    let size = augmented_size(netlist);
    if size > SIZE_LIMIT {
        return Err(InstrumentFault::AugTooLarge(size));
    }
    Ok(())
}

/// Refuses a netlist that can't be augmented.
///
/// # Errors
///
/// `NameTaken` where a wanted name is taken, as [`check_names`] says, or else `AugTooLarge` where the cells and their
/// weights pass 400,000 together, with their sum. `Memory` where memory was wanting.
pub fn check_instrument(alloc: Global, netlist: &Netlist) -> Result<(), InstrumentFault>
    ensures ok { OnOk result (instrument_fault netlist.now ≡ None) }
    ensures err { IfErr result (λ e. IsFirst (instrument_fault netlist.now) e) }
{
    check_names(alloc, netlist)?;
    check_size(netlist)
}
