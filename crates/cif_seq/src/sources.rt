// The net bits that no passing cell drives, but input ports and registers without asynchronous reset.
ghost use Rattle.std.specs.Prelude.{◌≡◌, ◌<◌, ◌+◌, length, IfOk, OnOk};
ghost use Rattle.cif_defs.specs.Accepted.{netlist_of};
ghost use Rattle.cif_defs.specs.Netlist.{role_at};
ghost use Rattle.cif_shown.specs.Shown.{AreSources, AreSourcesBelow, is_plain as is_plain_role, is_source as is_source_bit};

use cif_cells::{Driver, NetBit, Netlist, Role, table};
use std::alloc::{AllocError, Global};

/// The role of a cell; a number past the last cell has none in a run.
pub(crate) fn role_of_cell(netlist: &Netlist, number: u32) -> Role
    ensures { result ≡ role_at (netlist_of netlist.now) number }
{
    let cells = netlist.cells();
    if (number as usize) < cells.len() {
        let cell = &cells[number as usize];
        table::role(cell.kind())
    } else {
        Role::CarriedOver
    }
}

/// Whether this is the role of registers without asynchronous reset.
fn is_plain(role: Role) -> bool
    ensures { result ≡ is_plain_role role }
{
    match role {
        Role::PlainRegister => true,
        Role::Combinational | Role::ResetRegister | Role::MemoryBlock | Role::CarriedOver => false,
    }
}

/// Whether a net bit is one of an input port, or of a register without asynchronous reset.
fn is_source(netlist: &Netlist, net: NetBit) -> bool
    requires { net < length (netlist_of netlist.now).drivers }
    ensures { result ≡ is_source_bit (netlist_of netlist.now) net }
{
    match netlist.driver(net) {
        Driver::Input { .. } => true,
        Driver::Register { cell, .. } => is_plain(role_of_cell(netlist, cell)),
        Driver::Output { .. } | Driver::Read { .. } | Driver::Clock => false,
    }
}

/// Appends a net bit, where it is a source.
fn push_source(netlist: &Netlist, net: NetBit, sources: &mut Vec<u32>) -> Result<(), AllocError>
    requires { net < length (netlist_of netlist.now).drivers }
    ensures { OnOk result (AreSourcesBelow (netlist_of netlist.now) sources.old.items net
        → AreSourcesBelow (netlist_of netlist.now) sources.new.items (net + 1)) }
{
    if is_source(netlist, net) {
        sources.push(net)?;
    }
    Ok(())
}

/// The sources of a netlist, lowest first.
pub(crate) fn sources_of(alloc: Global, netlist: &Netlist) -> Result<Vec<u32>, AllocError>
    ensures { IfOk result (λ s. AreSources (netlist_of netlist.now) s.items) }
{
    let mut sources = Vec::new(alloc);
    for net in 0..netlist.bits() {
        push_source(netlist, net, &mut sources)?;
    }
    Ok(sources)
}
