// What the names of lines stand for in a netlist: registers, memories and input ports other than the clock. Where a name
// was found before is a hint: it is where the name is looked for first.
ghost use Rattle.std.specs.Prelude.{◌≡◌, map, bytes_eq};
ghost use Rattle.std.specs.List.{find, list_any};
ghost use Rattle.std.specs.Option.{option_copied};
ghost use Rattle.cif_defs.specs.Accepted.{netlist_of};
ghost use Rattle.cif_defs.specs.Cells.{Cell as CellData};
ghost use Rattle.cif_defs.specs.Kinds.{is_register as is_register_role, is_memory as is_memory_role};
ghost use Rattle.cif_defs.specs.Order.{AreInOrder, place_among};
ghost use Rattle.cif_defs.specs.declared.nets.Wire.{Wire as WireData};
ghost use Rattle.cif_checks.specs.Checks.{IsAccepted};
ghost use Rattle.cif_stimulus.specs.Fitting.{is_clock_source as is_clock_src, with_role, other_than_clock, settable, register_named, memory_named};
ghost use Rattle.cif_stimulus.specs.Names.{cell_name, place_named, target_of, owner_of};
ghost use Rattle.cif_stimulus.specs.StimulusView.{line_seen};

use crate::line::StimLine;
use cif_cells::table::role;
use cif_cells::{Cell, Netlist};
use cif_defs::{Driver, Named, Src, Wire, place_in_order};

/// The hint for a line, if there is one.
pub fn hint_at(places: &[Option<usize>], number: usize) -> Option<usize> {
    if number < places.len() {
        places[number]
    } else {
        None
    }
}

/// The place of the thing of a name, among things whose names stand in byte order, each once. Where it doesn't stand at
/// the hint it is sought by halves.
fn place_by_hint<T: Named>(things: &[T], name: &[u8], hint: Option<usize>) -> Option<usize>
    requires { AreInOrder (map T.name_of things.now) }
    ensures { result ≡ place_among T.name_of things.now name.now }
{
    if let Some(place) = hint
        && place < things.len()
        && things[place].name_bytes() == name
    {
        return Some(place);
    }
    place_in_order(things, name)
}

/// The number of the cell of a name, register, memory or other.
pub fn cell_place(netlist: &Netlist, name: &[u8], hint: Option<usize>) -> Option<usize>
    ensures { result ≡ place_among cell_name (netlist_of netlist.now).cells name.now }
{
    place_by_hint(netlist.cells(), name, hint)
}

/// The number of the input port of a name.
pub fn port_place(netlist: &Netlist, name: &[u8], hint: Option<usize>) -> Option<usize>
    ensures { result ≡ place_named (netlist_of netlist.now).inputs name.now }
{
    place_by_hint(netlist.inputs(), name, hint)
}

/// The number of the input port that a line sets.
pub fn target(netlist: &Netlist, line: &StimLine, hint: Option<usize>) -> Option<usize>
    ensures { result ≡ target_of (netlist_of netlist.now).inputs (line_seen line.now) }
{
    match line {
        StimLine::Set { port, .. } => port_place(netlist, port.items(), hint),
        StimLine::Reg { .. }
        | StimLine::Mem { .. }
        | StimLine::Release { .. }
        | StimLine::Cycle(_) => None,
    }
}

/// The number of the cell of which a line says what it starts with.
pub fn owner(netlist: &Netlist, line: &StimLine, hint: Option<usize>) -> Option<usize>
    ensures { result ≡ owner_of (netlist_of netlist.now).cells (line_seen line.now) }
{
    match line {
        StimLine::Reg { cell, .. } => cell_place(netlist, cell.items(), hint),
        StimLine::Mem { cell, .. } => cell_place(netlist, cell.items(), hint),
        StimLine::Release { .. } | StimLine::Cycle(_) | StimLine::Set { .. } => None,
    }
}

/// Whether a bit that is read is the clock.
fn is_clock_source(netlist: &Netlist, source: Src) -> bool
    ensures { result ≡ is_clock_src (netlist_of netlist.now) source }
{
    match source {
        Src::Bit(bit) => bit >= netlist.bits() || matches!(netlist.driver(bit), Driver::Clock),
        Src::Zero | Src::One => false,
    }
}

/// Whether a port is the clock's.
fn is_clock(netlist: &Netlist, port: &Wire) -> bool
    ensures { result ≡ list_any (is_clock_src (netlist_of netlist.now)) port.now.bits }
{
    port.items()
        .iter()
        .any(|source| is_clock_source(netlist, *source))
}

/// A cell, where it is a register.
fn where_register(cell: Option<&Cell>) -> Option<&Cell>
    ensures { option_copied result ≡ with_role is_register_role (option_copied cell.entry) }
{
    match cell {
        Some(cell) => {
            if role(cell.kind()).is_register() {
                Some(cell)
            } else {
                None
            }
        }
        None => None,
    }
}

/// A cell, where it is a memory.
fn where_memory(cell: Option<&Cell>) -> Option<&Cell>
    ensures { option_copied result ≡ with_role is_memory_role (option_copied cell.entry) }
{
    match cell {
        Some(cell) => {
            if role(cell.kind()).is_memory() {
                Some(cell)
            } else {
                None
            }
        }
        None => None,
    }
}

/// A port, where it isn't the clock's.
fn unless_clock<'a>(netlist: &Netlist, port: Option<&'a Wire>) -> Option<&'a Wire>
    ensures { option_copied result ≡ other_than_clock (netlist_of netlist.now) (option_copied port.entry) }
{
    match port {
        Some(port) => {
            if is_clock(netlist, port) {
                None
            } else {
                Some(port)
            }
        }
        None => None,
    }
}

/// The cell of a name.
fn cell_named<'a>(netlist: &'a Netlist, name: &[u8], hint: Option<usize>) -> Option<&'a Cell>
    ensures { option_copied result ≡ find (λ (c : CellData). bytes_eq c.name name.now)
        (netlist_of netlist.now).cells }
{
    let cells = netlist.cells();
    let place = place_by_hint(cells, name, hint)?;
    Some(&cells[place])
}

/// The input port of a name.
fn port_named<'a>(netlist: &'a Netlist, name: &[u8], hint: Option<usize>) -> Option<&'a Wire>
    ensures { option_copied result ≡ find (λ (w : WireData). bytes_eq w.name name.now)
        (netlist_of netlist.now).inputs }
{
    let ports = netlist.inputs();
    let place = place_by_hint(ports, name, hint)?;
    Some(&ports[place])
}

/// The register of a name; it has no more than 65,536 bits.
#[tactic(auto, unfolding(crate::specs::Fitting::register_named))]
pub fn register<'a>(netlist: &'a Netlist, name: &[u8], hint: Option<usize>) -> Option<&'a Cell>
    ensures is { option_copied result ≡ register_named (netlist_of netlist.now) name.now }
    ensures accepted { IsAccepted netlist.now }
{
    let _raw = netlist.raw();
    where_register(cell_named(netlist, name, hint))
}

/// The memory of a name; its words have no more than 4,096 bits.
#[tactic(auto, unfolding(crate::specs::Fitting::memory_named))]
pub fn memory<'a>(netlist: &'a Netlist, name: &[u8], hint: Option<usize>) -> Option<&'a Cell>
    ensures is { option_copied result ≡ memory_named (netlist_of netlist.now) name.now }
    ensures accepted { IsAccepted netlist.now }
{
    let _raw = netlist.raw();
    where_memory(cell_named(netlist, name, hint))
}

/// The input port of a name, other than the clock; it has no more than 4,096 bits.
#[tactic(auto, unfolding(crate::specs::Fitting::settable))]
pub fn settable_port<'a>(netlist: &'a Netlist, name: &[u8], hint: Option<usize>) -> Option<&'a Wire>
    ensures is { option_copied result ≡ settable (netlist_of netlist.now) name.now }
    ensures accepted { IsAccepted netlist.now }
{
    let _raw = netlist.raw();
    unless_clock(netlist, port_named(netlist, name, hint))
}
