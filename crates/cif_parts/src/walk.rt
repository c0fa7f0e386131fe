// The cells that drive the operand bits of a cell.
ghost use Rattle.std.specs.Prelude.{◌≡◌, ◌<◌, length, Some, None, if◌then◌else◌};
ghost use Rattle.cif_defs.specs.Accepted.{netlist_of};
ghost use Rattle.cif_defs.specs.Kinds.{role_of};
ghost use Rattle.cif_defs.specs.Loop.{counts as counts_at};
ghost use Rattle.cif_defs.specs.Netlist.{IsWired, cell_at, role_at};
ghost use Rattle.cif_defs.specs.declared.nets.Src.TheVariants.{Bit};
ghost use Rattle.cif_parts.specs.Marking.{Adds};
ghost use Rattle.cif_parts.specs.Walks.{IsMet, IsMetAmong, IsMetFrom, meets as meets_of, met_at, takes_operand as takes_operands_of};

use cif_cells::table::role;
use cif_cells::{Cell, Driver, NetBit, Netlist, Role, Src};
use cif_cycle::bit_of;

/// What a walk over the operand bits of a cell looks for: cells that drive them.
#[derive(Clone, Copy, Debug, Drop)]
pub(crate) enum Walk {
    /// The passing cells that drive any operand bit.
    Operands,
    /// The passing cells that drive operand bits that count.
    Counting,
    /// The registers without asynchronous reset that drive any operand bit.
    Registers,
}

/// Whether the outputs of a cell follow this operand within the cycle.
fn counts(cell: &Cell, port: u32) -> bool
    ensures { result ≡ counts_at (role_of cell.now.kind) cell.now port }
{
    match role(cell.kind()) {
        Role::Combinational => true,
        Role::MemoryBlock => port == 0,
        Role::ResetRegister => port == cell.kind().reset_operand(),
        Role::PlainRegister | Role::CarriedOver => false,
    }
}

/// A cell of a netlist.
pub(crate) fn cell_of(netlist: &Netlist, number: u32) -> &Cell
    requires { number < length (netlist_of netlist.now).cells }
    ensures is { result.now ≡ cell_at (netlist_of netlist.now) number }
    ensures wired { IsWired (netlist_of netlist.now) }
{
    &netlist.cells()[number as usize]
}

impl Walk {
    /// Whether it takes an operand of a cell.
    fn takes_operand(self, cell: &Cell, port: u32) -> bool
        ensures { result ≡ takes_operands_of self (role_of cell.now.kind) cell.now port }
    {
        match self {
            Walk::Operands | Walk::Registers => true,
            Walk::Counting => counts(cell, port),
        }
    }

    /// Whether it meets cells of this role.
    fn meets(self, role: Role) -> bool
        ensures { result ≡ meets_of self role }
    {
        match self {
            Walk::Operands | Walk::Counting => role.is_passing(),
            Walk::Registers => matches!(role, Role::PlainRegister),
        }
    }

    /// This cell, where it meets cells of its role.
    fn met_cell(self, netlist: &Netlist, cell: u32) -> Option<u32>
        requires { cell < length (netlist_of netlist.now).cells }
        ensures { result ≡ (if meets_of self (role_at (netlist_of netlist.now) cell) then Some cell else None) }
    {
        let kind = cell_of(netlist, cell).kind();
        if self.meets(role(kind)) {
            Some(cell)
        } else {
            None
        }
    }

    /// The cell that it meets at a net bit.
    #[tactic(auto, unfolding(crate::specs::Walks::met_at))]
    fn met_at_net(self, netlist: &Netlist, bit: NetBit) -> Option<u32>
        requires wired { IsWired (netlist_of netlist.now) }
        requires bit_stands { bit < length (netlist_of netlist.now).drivers }
        ensures { result ≡ met_at self (netlist_of netlist.now) (Bit bit) }
    {
        match netlist.driver(bit) {
            Driver::Output { cell, .. } => self.met_cell(netlist, cell),
            Driver::Read { cell, .. } => self.met_cell(netlist, cell),
            Driver::Register { cell, .. } => self.met_cell(netlist, cell),
            Driver::Input { .. } | Driver::Clock => None,
        }
    }

    /// The cell that it meets at a bit that is read.
    #[tactic(auto, unfolding(crate::specs::Walks::met_at))]
    fn met(self, netlist: &Netlist, source: Src) -> Option<u32>
        requires { IsWired (netlist_of netlist.now) }
        ensures { result ≡ met_at self (netlist_of netlist.now) source }
    {
        match source {
            Src::Bit(bit) if bit < netlist.bits() => self.met_at_net(netlist, bit),
            Src::Bit(_) | Src::Zero | Src::One => None,
        }
    }

    /// Marks the cell that it meets at a bit that is read.
    fn mark_met(self, netlist: &Netlist, source: Src, marks: &mut [bool])
        requires wired { IsWired (netlist_of netlist.now) }
        requires as_many { length marks.old ≡ length (netlist_of netlist.now).cells }
        ensures { Adds marks.old marks.new (λ c. met_at self (netlist_of netlist.now) source ≡ Some c) }
    {
        if let Some(cell) = self.met(netlist, source) {
            marks[cell as usize] = true;
        }
    }

    /// Marks the cells that it meets at the bits of an operand.
    fn mark_met_among(self, netlist: &Netlist, sources: &[Src], marks: &mut [bool])
        requires wired { IsWired (netlist_of netlist.now) }
        requires as_many { length marks.old ≡ length (netlist_of netlist.now).cells }
        ensures { Adds marks.old marks.new
            (IsMetAmong self (netlist_of netlist.now) sources.now (length sources.now)) }
    {
        for source in sources {
            self.mark_met(netlist, *source, marks);
        }
    }

    /// Marks the cells that it meets at the operand bits of a cell.
    #[tactic(auto, using(cif_level::proofs::Outputs::few_operands))]
    pub(crate) fn mark_met_from(self, netlist: &Netlist, number: u32, marks: &mut [bool])
        requires inside { number < length (netlist_of netlist.now).cells }
        requires as_many { length marks.old ≡ length (netlist_of netlist.now).cells }
        ensures { Adds marks.old marks.new (IsMet self (netlist_of netlist.now) number) }
    {
        let cell = cell_of(netlist, number);
        let count = cell.operands().len() as u32;
        for port in 0..count {
            if self.takes_operand(cell, port) {
                self.mark_met_among(netlist, cell.operand(port), marks);
            }
        }
    }

    /// Marks the cells that it meets at the operand bits of the cells that are chosen.
    pub(crate) fn mark_met_from_all(self, netlist: &Netlist, chosen: &[bool], marks: &mut [bool])
        requires { length marks.old ≡ length (netlist_of netlist.now).cells }
        ensures { Adds marks.old marks.new
            (IsMetFrom self (netlist_of netlist.now) chosen.now (length (netlist_of netlist.now).cells)) }
    {
        let count = netlist.cells().len() as u32;
        for number in 0..count {
            if bit_of(chosen, number as usize) {
                self.mark_met_from(netlist, number, marks);
            }
        }
    }
}
