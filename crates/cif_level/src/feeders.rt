// The passing cells that drive operand bits of a cell.
ghost use Rattle.std.specs.Prelude.{◌≡◌, ◌≢◌, ℕ, ◌<◌, ◌≤◌, length, get_or, Some, None, IfSome};
ghost use Rattle.cif_defs.specs.Accepted.{netlist_of};
ghost use Rattle.cif_defs.specs.Kinds.{role_of};
ghost use Rattle.cif_defs.specs.Loop.{counts as counts_at};
ghost use Rattle.cif_defs.specs.Netlist.{IsWired, cell_at};
ghost use Rattle.cif_defs.specs.declared.nets.Src.TheVariants.{Bit, Zero};
ghost use Rattle.cif_level.specs.declared.feeders.Mark.TheVariants.{Placed};
ghost use Rattle.cif_level.specs.Feeding.{feeder_of, feeder_at};
ghost use Rattle.cif_level.specs.Searching.{mark_of, next_port, ArePlaced, AreBefore, AreAllPlaced};

use cif_cells::table::role;
use cif_cells::{Cell, Driver, NetBit, Netlist, Src};
use cif_defs::Role;

/// How far the search is with a cell.
#[derive(Clone, Copy, Debug, Drop, PartialEq, Eq)]
pub(crate) enum Mark {
    /// It was not met.
    Unseen,
    /// It stands on the path from the cell where the search began.
    OnPath,
    /// It stands in the order.
    Placed,
}

/// A place among the operand bits of a cell.
#[derive(Clone, Copy, Debug, Drop)]
pub(crate) struct OperandPlace {
    /// The operand.
    pub(crate) port: u32,
    /// The bit of it.
    pub(crate) index: usize,
}

/// An operand bit, and the passing cell that drives it.
#[derive(Clone, Copy, Debug, Drop)]
pub(crate) struct Feed {
    /// The operand bit.
    pub(crate) place: OperandPlace,
    /// The cell.
    pub(crate) cell: u32,
}

/// Whether the outputs of a cell follow this operand within the cycle.
fn counts(cell: &Cell, port: u32) -> bool
    ensures { result ≡ counts_at (role_of cell.now.kind) cell.now port }
{
    match role(cell.kind()) {
        Role::Combinational => true,
        Role::MemoryBlock => port == 0,
        Role::ResetRegister => port == cell.kind().reset_operand(),
        Role::PlainRegister | Role::CarriedOver => false,
    }
}

/// The passing cell that drives a net bit.
#[tactic(auto, unfolding(crate::specs::Feeding::feeder_of))]
fn bit_feeder(netlist: &Netlist, bit: NetBit) -> Option<u32>
    requires wired { IsWired (netlist_of netlist.now) }
    requires bit_stands { bit < length (netlist_of netlist.now).drivers }
    ensures { result ≡ feeder_of (netlist_of netlist.now) (Bit bit) }
{
    match netlist.driver(bit) {
        Driver::Output { cell, .. } | Driver::Read { cell, .. } => Some(cell),
        Driver::Register { cell, .. } if role(netlist.cells()[cell as usize].kind()).is_passing() =>
            { Some(cell) }
        Driver::Register { .. } | Driver::Input { .. } | Driver::Clock => None,
    }
}

/// The passing cell that drives a bit that is read.
#[tactic(auto, unfolding(crate::specs::Feeding::feeder_of))]
fn feeder(netlist: &Netlist, source: Src) -> Option<u32>
    requires { IsWired (netlist_of netlist.now) }
    ensures { result ≡ feeder_of (netlist_of netlist.now) source }
{
    match source {
        Src::Bit(bit) if bit < netlist.bits() => bit_feeder(netlist, bit),
        Src::Bit(_) | Src::Zero | Src::One => None,
    }
}

/// The cell that drives a bit that is read, where it isn't placed.
#[tactic(auto, using(crate::proofs::Driving::feeder_in_range))]
fn unplaced_feeder(netlist: &Netlist, marks: &[Mark], source: Src) -> Option<u32>
    requires wired { IsWired (netlist_of netlist.now) }
    requires sized { length marks.now ≡ length (netlist_of netlist.now).cells }
    ensures none { result ≡ None → (x : ℕ) → feeder_of (netlist_of netlist.now) source ≡ Some x → mark_of marks.now x ≡ Placed }
    ensures feeds { IfSome result (λ x. feeder_of (netlist_of netlist.now) source ≡ Some x) }
    ensures unplaced { IfSome result (λ x. mark_of marks.now x ≢ Placed) }
{
    match feeder(netlist, source) {
        Some(cell) if marks[cell as usize] != Mark::Placed => Some(cell),
        _ => None,
    }
}

/// The first bit of an operand, from a place on, that a cell drives which isn't placed: its place, and the cell.
#[tactic(auto, using(crate::proofs::Searches::none_placed, crate::proofs::Searches::one_more_placed))]
fn next_in(netlist: &Netlist, marks: &[Mark], sources: &[Src], from: usize) -> Option<(usize, u32)>
    requires wired { IsWired (netlist_of netlist.now) }
    requires sized { length marks.now ≡ length (netlist_of netlist.now).cells }
    ensures none { result ≡ None → ArePlaced (netlist_of netlist.now) marks.now sources.now from (length sources.now) }
    ensures first { IfSome result (λ f. ArePlaced (netlist_of netlist.now) marks.now sources.now from f.0) }
    ensures feeds { IfSome result (λ f. feeder_of (netlist_of netlist.now) (get_or sources.now f.0 Zero) ≡ Some f.1) }
    ensures unplaced { IfSome result (λ f. mark_of marks.now f.1 ≢ Placed) }
{
    for index in from..sources.len() {
        if let Some(cell) = unplaced_feeder(netlist, marks, sources[index]) {
            return Some((index, cell));
        }
    }
    None
}

/// The cell at a place of the netlist.
fn cell_data(netlist: &Netlist, cell: u32) -> &Cell
    requires { cell < length (netlist_of netlist.now).cells }
    ensures { result.now ≡ cell_at (netlist_of netlist.now) cell }
{
    &netlist.cells()[cell as usize]
}

/// The first bit of an operand of a cell, from a place on, that counts and that a cell drives which isn't placed.
fn next_in_port(netlist: &Netlist, marks: &[Mark], cell: u32, from: OperandPlace) -> Option<Feed>
    requires wired { IsWired (netlist_of netlist.now) }
    requires sized { length marks.now ≡ length (netlist_of netlist.now).cells }
    requires cell_stands { cell < length (netlist_of netlist.now).cells }
    requires port_stands { from.port < length (cell_at (netlist_of netlist.now) cell).operands }
    requires before { AreBefore (feeder_at (netlist_of netlist.now) cell) marks.now from }
    ensures none { result ≡ None → AreBefore (feeder_at (netlist_of netlist.now) cell) marks.now (next_port from) }
    ensures first { IfSome result (λ f. AreBefore (feeder_at (netlist_of netlist.now) cell) marks.now f.place) }
    ensures feeds { IfSome result (λ f. feeder_at (netlist_of netlist.now) cell f.place.port f.place.index ≡ Some f.cell) }
    ensures unplaced { IfSome result (λ f. mark_of marks.now f.cell ≢ Placed) }
{
    let data = cell_data(netlist, cell);
    if !counts(data, from.port) {
        return None;
    }
    let (index, driver) = next_in(netlist, marks, data.operand(from.port), from.index)?;
    let place = OperandPlace {
        port: from.port,
        index,
    };
    Some(Feed {
        place,
        cell: driver,
    })
}

/// The first operand bit of a cell, from a place on, that counts and that a cell drives which isn't placed.
#[tactic(auto, using(crate::proofs::Outputs::few_operands, crate::proofs::Searches::all_passed))]
pub(crate) fn next_feed(
    netlist: &Netlist,
    marks: &[Mark],
    cell: u32,
    from: OperandPlace,
) -> Option<Feed>
    requires wired { IsWired (netlist_of netlist.now) }
    requires sized { length marks.now ≡ length (netlist_of netlist.now).cells }
    requires cell_stands { cell < length (netlist_of netlist.now).cells }
    requires before { AreBefore (feeder_at (netlist_of netlist.now) cell) marks.now from }
    ensures none { result ≡ None → AreAllPlaced (feeder_at (netlist_of netlist.now) cell) marks.now }
    ensures first { IfSome result (λ f. AreBefore (feeder_at (netlist_of netlist.now) cell) marks.now f.place) }
    ensures feeds { IfSome result (λ f. feeder_at (netlist_of netlist.now) cell f.place.port f.place.index ≡ Some f.cell) }
    ensures unplaced { IfSome result (λ f. mark_of marks.now f.cell ≢ Placed) }
{
    let count = cell_data(netlist, cell).operands().len() as u32;
    let mut place = from;
    while place.port < count {
        if let Some(feed) = next_in_port(netlist, marks, cell, place) {
            return Some(feed);
        }
        place = OperandPlace {
            port: place.port + 1,
            index: 0,
        };
    }
    None
}
