// Memories: what they start with, what they show at their read ports, and what they store next.
ghost use Rattle.std.specs.Prelude.{◌≡◌, ◌<◌, false, length, IfOk, IsOk};
ghost use Rattle.cif_defs.specs.Netlist.{cell_at, role_at};
ghost use Rattle.cif_defs.specs.Cells.{state_bits};
ghost use Rattle.cif_defs.specs.Run.{stored_by};
ghost use Rattle.cif_defs.specs.TaintRun.{flag_by, taint_stored_by};
ghost use Rattle.cif_defs.specs.Words.{bit};
ghost use Rattle.cif_defs.specs.Stimulus.{is_released, start_at};
ghost use Rattle.cif_defs.specs.Accepted.{netlist_of};
ghost use Rattle.cif_starts.specs.Starts.{IsTableOf};
ghost use Rattle.cif_readers.specs.Reads.{Notes};
ghost use Rattle.cif_seq.specs.Cases.{net_of};
ghost use Rattle.cif_seq.specs.Stored.{IsStoredAt};
ghost use Rattle.cif_shown.specs.Evaluates.{EvaluatesValues, EvaluatesTaints};

use crate::case::Case;
use cif_bits::NoMemory;
use cif_cells::{Netlist, Role};
use cif_cycle::{
    CellState, StateRef, StateWord, StoredWords, next_memory, read_data, taint_words, value_words,
};
use cif_starts::{StartLines, start_word};
use cif_stimulus::Stimulus;
use cif_writes::write_word;
use std::alloc::Global;

// ---- at the start

/// What a memory starts with, by the table of the stimulus's lines.
pub fn start_memory(
    alloc: Global,
    netlist: &Netlist,
    stimulus: &Stimulus,
    table: &StartLines,
    number: u32,
) -> Result<CellState, NoMemory>
    requires number { number < length (netlist_of netlist.now).cells }
    requires table { IsTableOf (netlist_of netlist.now) stimulus.now table.now }
    ensures value { IfOk result
        (λ s. s.value ≡ (start_at (netlist_of netlist.now) stimulus.now number).value) }
    ensures taint { IfOk result
        (λ s. s.taint ≡ (start_at (netlist_of netlist.now) stimulus.now number).taint) }
    ensures flag { IfOk result (λ s. s.flag ≡ false) }
{
    let _cells = netlist.cells();
    let start = start_word(alloc, netlist, stimulus, table, number)?;
    Ok(CellState {
        value: StateWord::paged(alloc, &start.value)?,
        taint: StateWord::paged(alloc, &start.taint)?,
        flag: false,
    })
}

// ---- in a cycle

/// Evaluates a memory: writes the words of its read ports to `values` and their taints to `taints`.
pub fn evaluate_memory(
    alloc: Global,
    case: &Case,
    number: u32,
    stored: &StoredWords,
    values: &mut [bool],
    taints: &mut [bool],
    marks: &mut [bool],
) -> Result<(), NoMemory>
    requires inside { number < length (net_of case.now).cells }
    requires role { role_at (net_of case.now) number ≡ Role.MemoryBlock }
    requires stored { IsStoredAt (net_of case.now) stored.now.values.items stored.now.taints.items stored.now.flags.items number }
    requires as_many_values { length values.old ≡ length (net_of case.now).drivers }
    requires as_many_taints { length taints.old ≡ length (net_of case.now).drivers }
    requires as_many_marks { length marks.old ≡ length (net_of case.now).cells }
    ensures values { IsOk result
        → EvaluatesValues (net_of case.now) stored.now.values.items number values.old values.new }
    ensures taints { IsOk result
        → EvaluatesTaints (net_of case.now) stored.now.values.items values.old
        (record { stored = stored.now.taints.items; flags = stored.now.flags.items })
        (is_released case.now.stimulus.lines) number taints.old taints.new }
    ensures notes { IsOk result → Notes (net_of case.now) values.old taints.old values.new taints.new marks.old marks.new }
    ensures values_length { length values.new ≡ length values.old }
    ensures taints_length { length taints.new ≡ length taints.old }
    ensures marks_length { length marks.new ≡ length marks.old }
{
    let cell = case.cell(number);
    let stored_value = &stored.values[number as usize];
    let stored_taint = &stored.taints[number as usize];
    let flag = stored.flags[number as usize];
    let read = read_data(
        alloc,
        cell,
        values,
        taints,
        stored_value,
        stored_taint,
        flag,
    )?;
    let readers = case.readers();
    let released = case.released();
    write_word(
        readers,
        released,
        cell.output(0),
        &read.value,
        &read.taint,
        values,
        taints,
        marks,
    );
    Ok(())
}

// ---- after a cycle

/// What a memory stores next, where `values` and `taints` are those of the net bits, and `prior` is what it stores.
pub fn next_memory_state(
    alloc: Global,
    netlist: &Netlist,
    number: u32,
    values: &[bool],
    taints: &[bool],
    prior: StateRef,
) -> Result<CellState, NoMemory>
    requires number { number < length (netlist_of netlist.now).cells }
    requires role { role_at (netlist_of netlist.now) number ≡ Role.MemoryBlock }
    requires value { length prior.value.now ≡ state_bits (cell_at (netlist_of netlist.now) number) }
    requires taint { length prior.taint.now ≡ state_bits (cell_at (netlist_of netlist.now) number) }
    ensures value { IfOk result (λ s. s.value ≡ stored_by
        (role_at (netlist_of netlist.now) number) (cell_at (netlist_of netlist.now) number)
        (bit values.now) prior.entry.value.now) }
    ensures taint { IfOk result (λ s. s.taint ≡ taint_stored_by
        (role_at (netlist_of netlist.now) number) (cell_at (netlist_of netlist.now) number)
        (bit values.now) (bit taints.now) prior.entry.value.now prior.entry.taint.now) }
    ensures flag { IfOk result (λ s. s.flag ≡ flag_by
        (role_at (netlist_of netlist.now) number) (cell_at (netlist_of netlist.now) number)
        (bit values.now) (bit taints.now) prior.entry.flag) }
{
    let cell = &netlist.cells()[number as usize];
    let operands = value_words(alloc, values, cell)?;
    let operand_taints = taint_words(alloc, taints, cell)?;
    next_memory(alloc, cell, &operands, &operand_taints, prior)
}
