// What a cell does in a cycle, by its role: what it starts with, what it shows, and what it stores next.
ghost use Rattle.std.specs.Prelude.{◌≡◌, ◌<◌, true, false, length, IfOk, IsOk, []};
ghost use Rattle.cif_defs.specs.Words.{bit};
ghost use Rattle.cif_defs.specs.Accepted.{netlist_of};
ghost use Rattle.cif_defs.specs.Netlist.{cell_at, role_at};
ghost use Rattle.cif_defs.specs.Loop.{is_passing};
ghost use Rattle.cif_defs.specs.Stimulus.{is_released, start_at};
ghost use Rattle.cif_defs.specs.Run.{state, stored_by};
ghost use Rattle.cif_defs.specs.TaintRun.{flag_by, taint_stored_by};
ghost use Rattle.cif_readers.specs.Reads.{Notes};
ghost use Rattle.cif_seq.specs.Cases.{net_of};
ghost use Rattle.cif_seq.specs.Stored.{IsStoredAt};
ghost use Rattle.cif_shown.specs.Evaluates.{EvaluatesValues, EvaluatesTaints};
ghost use Rattle.cif_defs.specs.Cells.{state_bits};
ghost use Rattle.cif_starts.specs.Starts.{IsTableOf};

use crate::case::Case;
use crate::combinational::evaluate_combinational;
use crate::memory::{evaluate_memory, next_memory_state, start_memory};
use crate::register::{evaluate_register, next_register_state, start_register};
use cif_bits::NoMemory;
use cif_cells::{Netlist, Role, table};
use cif_cycle::{CellState, StateRef, StateWord, StoredWords};
use cif_starts::StartLines;
use cif_stimulus::Stimulus;
use std::alloc::Global;

// ---- at the start

/// What a cell without state stores: words of no bits, and this flag.
fn no_state(alloc: Global, flag: bool) -> CellState
    ensures value { result.value ≡ [] }
    ensures taint { result.taint ≡ [] }
    ensures flag { result.flag ≡ flag }
{
    CellState {
        value: StateWord::of(Vec::new(alloc)),
        taint: StateWord::of(Vec::new(alloc)),
        flag,
    }
}

/// What a cell starts with, by the table of the stimulus's lines.
pub fn start_state(
    alloc: Global,
    netlist: &Netlist,
    stimulus: &Stimulus,
    table: &StartLines,
    number: u32,
) -> Result<CellState, NoMemory>
    requires number { number < length (netlist_of netlist.now).cells }
    requires table { IsTableOf (netlist_of netlist.now) stimulus.now table.now }
    ensures value { IfOk result
        (λ s. s.value ≡ (start_at (netlist_of netlist.now) stimulus.now number).value) }
    ensures taint { IfOk result
        (λ s. s.taint ≡ (start_at (netlist_of netlist.now) stimulus.now number).taint) }
    ensures flag { IfOk result (λ s. s.flag ≡ false) }
{
    let cell = &netlist.cells()[number as usize];
    match table::role(cell.kind()) {
        Role::PlainRegister | Role::ResetRegister => {
            start_register(alloc, netlist, stimulus, table, number)
        }
        Role::MemoryBlock => start_memory(alloc, netlist, stimulus, table, number),
        Role::Combinational | Role::CarriedOver => Ok(no_state(alloc, false)),
    }
}

// ---- in a cycle

/// Evaluates a passing cell: writes what it gives to `values` and the taint of it to `taints`. A register without
/// asynchronous reset isn't passing: what it shows stands there from the start.
pub fn evaluate_cell(
    alloc: Global,
    case: &Case,
    number: u32,
    stored: &StoredWords,
    values: &mut [bool],
    taints: &mut [bool],
    marks: &mut [bool],
) -> Result<(), NoMemory>
    requires inside { number < length (net_of case.now).cells }
    requires passing { is_passing (role_at (net_of case.now) number) ≡ true }
    requires stored { IsStoredAt (net_of case.now) stored.now.values.items stored.now.taints.items stored.now.flags.items number }
    requires as_many_values { length values.old ≡ length (net_of case.now).drivers }
    requires as_many_taints { length taints.old ≡ length (net_of case.now).drivers }
    requires as_many_marks { length marks.old ≡ length (net_of case.now).cells }
    ensures values { IsOk result
        → EvaluatesValues (net_of case.now) stored.now.values.items number values.old values.new }
    ensures taints { IsOk result
        → EvaluatesTaints (net_of case.now) stored.now.values.items values.old
        (record { stored = stored.now.taints.items; flags = stored.now.flags.items })
        (is_released case.now.stimulus.lines) number taints.old taints.new }
    ensures notes { IsOk result → Notes (net_of case.now) values.old taints.old values.new taints.new marks.old marks.new }
    ensures values_length { length values.new ≡ length values.old }
    ensures taints_length { length taints.new ≡ length taints.old }
    ensures marks_length { length marks.new ≡ length marks.old }
{
    let kind = case.cell(number).kind();
    match table::role(kind) {
        Role::Combinational => Ok(evaluate_combinational(
            alloc, case, number, values, taints, marks,
        )?),
        Role::ResetRegister => {
            evaluate_register(case, number, stored, values, taints, marks);
            Ok(())
        }
        Role::MemoryBlock => Ok(evaluate_memory(
            alloc, case, number, stored, values, taints, marks,
        )?),
        Role::PlainRegister | Role::CarriedOver => unreachable!(),
    }
}

// ---- after a cycle

/// What a cell stores next, where `values` and `taints` are those of the net bits, and `prior` is what it stores.
pub fn next_state(
    alloc: Global,
    netlist: &Netlist,
    number: u32,
    values: &[bool],
    taints: &[bool],
    prior: StateRef,
) -> Result<CellState, NoMemory>
    requires number { number < length (netlist_of netlist.now).cells }
    requires value { length prior.value.now ≡ state_bits (cell_at (netlist_of netlist.now) number) }
    requires taint { length prior.taint.now ≡ state_bits (cell_at (netlist_of netlist.now) number) }
    ensures value { IfOk result (λ s. s.value ≡ stored_by
        (role_at (netlist_of netlist.now) number) (cell_at (netlist_of netlist.now) number)
        (bit values.now) prior.entry.value.now) }
    ensures taint { IfOk result (λ s. s.taint ≡ taint_stored_by
        (role_at (netlist_of netlist.now) number) (cell_at (netlist_of netlist.now) number)
        (bit values.now) (bit taints.now) prior.entry.value.now prior.entry.taint.now) }
    ensures flag { IfOk result (λ s. s.flag ≡ flag_by
        (role_at (netlist_of netlist.now) number) (cell_at (netlist_of netlist.now) number)
        (bit values.now) (bit taints.now) prior.entry.flag) }
{
    let cell = &netlist.cells()[number as usize];
    match table::role(cell.kind()) {
        Role::PlainRegister | Role::ResetRegister => {
            next_register_state(alloc, netlist, number, values, taints, prior)
        }
        Role::MemoryBlock => next_memory_state(alloc, netlist, number, values, taints, prior),
        Role::Combinational | Role::CarriedOver => Ok(no_state(alloc, prior.flag)),
    }
}
