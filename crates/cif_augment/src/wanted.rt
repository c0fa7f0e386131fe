// The names that are wanted for what an augmented module has beside the original one.
ghost use Rattle.std.specs.Prelude.{◌≡◌, ◌++◌, IfOk, OnOk, IsPermutation};
ghost use Rattle.std.specs.List.{flat_map, list_any};
ghost use Rattle.cif_defs.specs.Accepted.{netlist_of};
ghost use Rattle.cif_stimulus.specs.Fitting.{is_clock_source as is_clock_source_of};
ghost use Rattle.cif_augment.specs.Names.{is_reset_register};
ghost use Rattle.cif_augment.specs.Refusals.{name_if, wanted_names as wanted_names_of};
ghost use Rattle.cif_augment.specs.Taken.{wanted_for_cell, wanted_for_wire, wanted_for_wires, AreSorted};

use crate::names::suffixed;
use cif_bits::NoMemory;
use cif_cells::table::role;
use cif_cells::{Cell, Netlist};
use cif_defs::{Driver, Name, Param, Role, Src, Wire};
use std::alloc::Global;

/// Whether a bit that is read is the clock.
fn is_clock_source(netlist: &Netlist, source: Src) -> bool
    ensures { result ≡ is_clock_source_of (netlist_of netlist.now) source }
{
    match source {
        Src::Bit(bit) => bit >= netlist.bits() || matches!(netlist.driver(bit), Driver::Clock),
        Src::Zero | Src::One => false,
    }
}

/// Whether a port is the clock's.
fn is_clock(netlist: &Netlist, port: &Wire) -> bool
    ensures { result ≡ list_any (is_clock_source_of (netlist_of netlist.now)) port.now.bits }
{
    port.items()
        .iter()
        .any(|source| is_clock_source(netlist, *source))
}

/// Whether a role is that of a register with asynchronous reset.
pub(crate) fn is_reset_role(role: Role) -> bool
    ensures { result ≡ is_reset_register role }
{
    matches!(role, Role::ResetRegister)
}

/// Adds a name with a suffix, where it is wanted.
fn push_if(
    alloc: Global,
    names: &mut Vec<Name>,
    is_wanted: bool,
    name: &[u8],
    suffix: &[u8],
) -> Result<(), NoMemory>
    ensures { OnOk result (names.new.items ≡ names.old.items
        ++ name_if is_wanted (name.now ++ suffix.now)) }
{
    if is_wanted {
        names.push(suffixed(alloc, name, suffix)?)?;
    }
    Ok(())
}

/// Adds the name of the taint of a port, but for the clock's.
fn push_for_wire(
    alloc: Global,
    names: &mut Vec<Name>,
    netlist: &Netlist,
    port: &Wire,
) -> Result<(), NoMemory>
    ensures { OnOk result (names.new.items ≡ names.old.items
        ++ wanted_for_wire (netlist_of netlist.now) port.now) }
{
    let is_wanted = !is_clock(netlist, port);
    push_if(alloc, names, is_wanted, port.name().items(), b"__t")
}

/// Adds the names of the taints of ports.
fn push_for_wires(
    alloc: Global,
    names: &mut Vec<Name>,
    netlist: &Netlist,
    ports: &[Wire],
) -> Result<(), NoMemory>
    ensures { OnOk result (names.new.items ≡ names.old.items
        ++ wanted_for_wires (netlist_of netlist.now) ports.now) }
{
    for port in ports {
        push_for_wire(alloc, names, netlist, port)?;
    }
    Ok(())
}

/// Adds the names of what stores the taint of a cell, its stored word and its flag.
fn push_for_cell(alloc: Global, names: &mut Vec<Name>, cell: &Cell) -> Result<(), NoMemory>
    ensures { OnOk result (names.new.items ≡ names.old.items ++ wanted_for_cell cell.now) }
{
    let name = cell.name().items();
    let role = role(cell.kind());
    let is_memory = role.is_memory();
    push_if(alloc, names, role.is_register() || is_memory, name, b"__t")?;
    push_if(alloc, names, is_reset_role(role), name, b"__v")?;
    let has_flag = is_memory && 0 < cell.number(Param::WrPorts);
    push_if(alloc, names, has_flag, name, b"__flag")
}

/// Adds the names that are wanted for cells.
fn push_for_cells(alloc: Global, names: &mut Vec<Name>, cells: &[Cell]) -> Result<(), NoMemory>
    ensures { OnOk result (names.new.items ≡ names.old.items ++ flat_map wanted_for_cell cells.now) }
{
    for cell in cells {
        push_for_cell(alloc, names, cell)?;
    }
    Ok(())
}

/// Sorts names in byte order.
fn sort_names(names: &mut Vec<Name>)
    ensures same { IsPermutation names.old.items names.new.items }
    ensures sorted { AreSorted names.new.items }
{
    names.sort_unstable_by(|one, other| one.items().cmp(other.items()));
}

/// The names that are wanted for a netlist whatever stands there, in byte order; a name that is wanted twice stands twice.
pub fn wanted_names(alloc: Global, netlist: &Netlist) -> Result<Vec<Name>, NoMemory>
    ensures same { IfOk result (λ v. IsPermutation (wanted_names_of netlist.now) v.items) }
    ensures sorted { IfOk result (λ v. AreSorted v.items) }
{
    let inputs = netlist.inputs();
    let outputs = netlist.outputs();
    let cells = netlist.cells();
    let mut names = Vec::new(alloc);
    push_for_wires(alloc, &mut names, netlist, inputs)?;
    push_for_wires(alloc, &mut names, netlist, outputs)?;
    push_for_cells(alloc, &mut names, cells)?;
    sort_names(&mut names);
    Ok(names)
}
