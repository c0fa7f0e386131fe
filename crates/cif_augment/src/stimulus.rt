// The augmented stimulus.
ghost use Rattle.std.specs.Prelude.{◌≡◌, ℕ, ◌++◌, ◌∷◌, [], true, map, IfOk, OnOk, if◌then◌else◌};
ghost use Rattle.std.specs.List.{flat_map};
ghost use Rattle.cif_defs.specs.Words.{bit};
ghost use Rattle.cif_defs.specs.Accepted.{netlist_of};
ghost use Rattle.cif_defs.specs.Stimulus.{is_released, reg_line, mem_line, set_line};
ghost use Rattle.cif_stimulus.specs.Fitting.{fits_of};
ghost use Rattle.cif_stimulus.specs.Places.{may_add, is_written};
ghost use Rattle.cif_stimulus.specs.StimulusView.{line_seen, tainted};
ghost use Rattle.cif_augment.specs.Names.{taint_name as taint_name_of, stored_name as stored_name_of};
ghost use Rattle.cif_augment.specs.Stimuli.{augmented, augmented_line, input_bits as input_bits_of, is_reset_named, unreleased, untainted, WithLines};

use crate::names::{copied, stored_name, taint_name};
use crate::released::{released_marks, unmarked};
use crate::wanted::is_reset_role;
use cif_bits::{Bits, NoMemory};
use cif_cells::Netlist;
use cif_cells::table::role;
use cif_defs::{Name, Src};
use cif_stimulus::{StimLine, Stimulus, cell_place, port_place};
use std::alloc::Global;

// ---- what lines name

/// The bits of the input port of a name; none where there is no such port.
fn input_bits<'a>(netlist: &'a Netlist, name: &[u8]) -> &'a [Src]
    ensures { result.now ≡ input_bits_of (netlist_of netlist.now) name.now }
{
    let ports = netlist.inputs();
    match port_place(netlist, name, None) {
        Some(place) => ports[place].items(),
        None => &[],
    }
}

/// Whether a cell of a name is a register with asynchronous reset.
fn is_reset(netlist: &Netlist, name: &[u8]) -> bool
    ensures { result ≡ is_reset_named (netlist_of netlist.now) name.now }
{
    let cells = netlist.cells();
    match cell_place(netlist, name, None) {
        Some(place) => is_reset_role(role(cells[place].kind())),
        None => false,
    }
}

// ---- lines

/// Adds what an input port is set to, without taint.
fn add_set(alloc: Global, made: &mut Stimulus, port: Name, value: &Bits) -> Result<(), NoMemory>
    requires place { may_add made.old (set_line port (untainted value.now)) ≡ true }
    requires written { is_written (set_line port (untainted value.now)) ≡ true }
    ensures { OnOk result (WithLines made.old made.new
        (set_line port (untainted value.now) ∷ [])) }
{
    let clear = Bits::zeros(alloc, value.width())?;
    made.push_set(alloc, port, value.copy(alloc)?, clear)
}

/// Adds a register's word without taint.
fn add_reg(alloc: Global, made: &mut Stimulus, cell: Name, value: &Bits) -> Result<(), NoMemory>
    requires place { may_add made.old (reg_line cell (untainted value.now)) ≡ true }
    requires written { is_written (reg_line cell (untainted value.now)) ≡ true }
    ensures { OnOk result (WithLines made.old made.new
        (reg_line cell (untainted value.now) ∷ [])) }
{
    let clear = Bits::zeros(alloc, value.width())?;
    made.push_reg(alloc, cell, value.copy(alloc)?, clear)
}

/// Adds what a register starts with, its taint, and for one with asynchronous reset what it stores.
fn add_regs(
    alloc: Global,
    made: &mut Stimulus,
    cell: &[u8],
    value: &Bits,
    taint: &Bits,
    is_reset: bool,
) -> Result<(), NoMemory>
    requires place { may_add made.old (reg_line cell.now (tainted value.now taint.now)) ≡ true }
    requires written { is_written (reg_line cell.now (tainted value.now taint.now)) ≡ true }
    ensures { OnOk result (WithLines made.old made.new
        (reg_line cell.now (untainted value.now)
        ∷ reg_line (taint_name_of cell.now) (untainted taint.now)
        ∷ (if is_reset then reg_line (stored_name_of cell.now) (untainted value.now) ∷ [] else []))) }
{
    let name = copied(alloc, cell)?;
    add_reg(alloc, made, name, value)?;
    let shadow = taint_name(alloc, cell)?;
    add_reg(alloc, made, shadow, taint)?;
    if is_reset {
        let stored = stored_name(alloc, cell)?;
        add_reg(alloc, made, stored, value)?;
    }
    Ok(())
}

/// Adds a row of a memory without taint.
fn add_mem(
    alloc: Global,
    made: &mut Stimulus,
    cell: Name,
    address: u64,
    value: &Bits,
) -> Result<(), NoMemory>
    requires place { may_add made.old (mem_line cell address (untainted value.now)) ≡ true }
    requires written { is_written (mem_line cell address (untainted value.now)) ≡ true }
    ensures { OnOk result (WithLines made.old made.new
        (mem_line cell address (untainted value.now) ∷ [])) }
{
    let clear = Bits::zeros(alloc, value.width())?;
    made.push_mem(alloc, cell, address, value.copy(alloc)?, clear)
}

/// Adds what a row of a memory starts with, and its taint.
fn add_mems(
    alloc: Global,
    made: &mut Stimulus,
    cell: &[u8],
    address: u64,
    value: &Bits,
    taint: &Bits,
) -> Result<(), NoMemory>
    requires place { may_add made.old (mem_line cell.now address (tainted value.now taint.now)) ≡ true }
    requires written { is_written (mem_line cell.now address (tainted value.now taint.now)) ≡ true }
    ensures { OnOk result (WithLines made.old made.new
        (mem_line cell.now address (untainted value.now)
        ∷ mem_line (taint_name_of cell.now) address (untainted taint.now) ∷ [])) }
{
    let name = copied(alloc, cell)?;
    add_mem(alloc, made, name, address, value)?;
    let shadow = taint_name(alloc, cell)?;
    add_mem(alloc, made, shadow, address, taint)
}

/// What lines are replaced by: the netlist that they fit, and the net bits that they release.
#[derive(Drop)]
struct Lines<'a> {
    netlist: &'a Netlist,
    stimulus: &'a Stimulus,
    released: &'a [bool],
}

impl<'a> Lines<'a> {
    /// The taint of an input port's word, without that of released bits.
    fn kept(&self, alloc: Global, port: &[u8], taint: &Bits) -> Result<Bits, NoMemory>
        requires marks { (b : ℕ) → bit self.now.released.now b
            ≡ is_released self.now.stimulus.now.lines b }
        ensures { IfOk result (λ w. w ≡ unreleased self.now.stimulus.now.lines
            (input_bits_of (netlist_of self.now.netlist.now) port.now) taint.now) }
    {
        let sources = input_bits(self.netlist, port);
        let kept = unmarked(alloc, self.released, sources, taint)?;
        Ok(kept)
    }

    /// Adds what an input port is set to, and its taint.
    fn add_sets(
        &self,
        alloc: Global,
        made: &mut Stimulus,
        port: &[u8],
        value: &Bits,
        taint: &Bits,
    ) -> Result<(), NoMemory>
        requires marks { (b : ℕ) → bit self.now.released.now b
            ≡ is_released self.now.stimulus.now.lines b }
        requires place { may_add made.old (set_line port.now (tainted value.now taint.now)) ≡ true }
        requires written { is_written (set_line port.now (tainted value.now taint.now)) ≡ true }
        ensures { OnOk result (WithLines made.old made.new
            (augmented_line (netlist_of self.now.netlist.now) self.now.stimulus.now.lines
            (set_line port.now (tainted value.now taint.now)))) }
    {
        let kept = self.kept(alloc, port, taint)?;
        let name = copied(alloc, port)?;
        add_set(alloc, made, name, value)?;
        let shadow = taint_name(alloc, port)?;
        add_set(alloc, made, shadow, &kept)
    }

    /// Adds what stands in place of a line.
    fn add(&self, alloc: Global, made: &mut Stimulus, line: &StimLine) -> Result<(), NoMemory>
        requires marks { (b : ℕ) → bit self.now.released.now b
            ≡ is_released self.now.stimulus.now.lines b }
        requires place { may_add made.old (line_seen line.now) ≡ true }
        requires written { is_written (line_seen line.now) ≡ true }
        ensures { OnOk result (WithLines made.old made.new
            (augmented_line (netlist_of self.now.netlist.now) self.now.stimulus.now.lines
            (line_seen line.now))) }
    {
        match line {
            StimLine::Reg { cell, value, taint } => {
                let is_reset = is_reset(self.netlist, cell.items());
                add_regs(alloc, made, cell.items(), value, taint, is_reset)
            }
            StimLine::Mem {
                cell,
                address,
                value,
                taint,
            } => add_mems(alloc, made, cell.items(), *address, value, taint),
            StimLine::Release { .. } => Ok(()),
            StimLine::Cycle(cycle) => made.push_cycle(alloc, *cycle),
            StimLine::Set { port, value, taint } => {
                self.add_sets(alloc, made, port.items(), value, taint)
            }
        }
    }

    /// The lines that stand in place of all of them.
    fn augmented(&self, alloc: Global) -> Result<Stimulus, NoMemory>
        requires marks { (b : ℕ) → bit self.now.released.now b
            ≡ is_released self.now.stimulus.now.lines b }
        ensures { IfOk result
            (λ s. s ≡ augmented (netlist_of self.now.netlist.now) self.now.stimulus.now) }
    {
        let lines = self.stimulus.lines();
        let mut made = Stimulus::new(alloc, self.stimulus.cycles())?;
        for line in lines {
            self.add(alloc, &mut made, line)?;
        }
        Ok(made)
    }
}

/// The stimulus for an augmented netlist, from one that fits the original: each line is replaced in place, and no bit is
/// tainted or released.
///
/// - A `Set` line of port `p` becomes one of `p` and one of `p__t`, whose value is the taint without that of released bits.
/// - A `Reg` line of register `c` becomes one of `c` and one of `c__t`, whose value is the taint; where `c` has asynchronous
///   reset, one of `c__v` with the value stands behind them.
/// - A `Mem` line of memory `c` becomes one of `c` and one of `c__t`, whose value is the taint, at the same address.
/// - A `Release` line is dropped, and a `Cycle` line stays.
///
/// The only error is want of memory.
pub fn augment_stimulus(
    alloc: Global,
    netlist: &Netlist,
    stimulus: &Stimulus,
) -> Result<Stimulus, NoMemory>
    requires { fits_of netlist.now stimulus.now ≡ true }
    ensures { IfOk result (λ s. s ≡ augmented (netlist_of netlist.now) stimulus.now) }
{
    let released = released_marks(alloc, stimulus.lines())?;
    let lines = Lines {
        netlist,
        stimulus,
        released: &released,
    };
    lines.augmented(alloc)
}
