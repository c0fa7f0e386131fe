// Registers: what they start with, what those with asynchronous reset show, and what they store next.
ghost use Rattle.std.specs.Prelude.{true, ◌≡◌, ◌<◌, false, length, IfOk};
ghost use Rattle.cif_defs.specs.Words.{word};
ghost use Rattle.cif_defs.specs.Netlist.{cell_at, role_at};
ghost use Rattle.cif_defs.specs.Cells.{state_bits};
ghost use Rattle.cif_defs.specs.Run.{stored_by};
ghost use Rattle.cif_defs.specs.TaintRun.{flag_by, taint_stored_by};
ghost use Rattle.cif_defs.specs.Words.{bit};
ghost use Rattle.cif_defs.specs.Kinds.{is_register};
ghost use Rattle.cif_defs.specs.Stimulus.{is_released, start_at};
ghost use Rattle.cif_defs.specs.Accepted.{netlist_of};
ghost use Rattle.cif_starts.specs.Starts.{IsTableOf};
ghost use Rattle.cif_readers.specs.Reads.{Notes};
ghost use Rattle.cif_seq.specs.Cases.{net_of};
ghost use Rattle.cif_seq.specs.Stored.{IsStoredAt};
ghost use Rattle.cif_shown.specs.Evaluates.{EvaluatesValues, EvaluatesTaints};

use crate::case::Case;
use cif_bits::NoMemory;
use cif_cells::{Netlist, Role};
use cif_cycle::{CellState, ShownBits, StateRef, StateWord, StoredWords, next_register};
use cif_starts::{StartLines, start_word};
use cif_stimulus::Stimulus;
use cif_writes::write_shown;
use std::alloc::Global;

// ---- at the start

/// What a register starts with, by the table of the stimulus's lines.
pub fn start_register(
    alloc: Global,
    netlist: &Netlist,
    stimulus: &Stimulus,
    table: &StartLines,
    number: u32,
) -> Result<CellState, NoMemory>
    requires number { number < length (netlist_of netlist.now).cells }
    requires table { IsTableOf (netlist_of netlist.now) stimulus.now table.now }
    ensures value { IfOk result
        (λ s. s.value ≡ (start_at (netlist_of netlist.now) stimulus.now number).value) }
    ensures taint { IfOk result
        (λ s. s.taint ≡ (start_at (netlist_of netlist.now) stimulus.now number).taint) }
    ensures flag { IfOk result (λ s. s.flag ≡ false) }
{
    let start = start_word(alloc, netlist, stimulus, table, number)?;
    Ok(CellState {
        value: StateWord::of(start.value),
        taint: StateWord::of(start.taint),
        flag: false,
    })
}

// ---- in a cycle

/// Evaluates a register with asynchronous reset: writes the word that it shows to `values` and its taint to `taints`.
pub fn evaluate_register(
    case: &Case,
    number: u32,
    stored: &StoredWords,
    values: &mut [bool],
    taints: &mut [bool],
    marks: &mut [bool],
)
    requires inside { number < length (net_of case.now).cells }
    requires role { role_at (net_of case.now) number ≡ Role.ResetRegister }
    requires stored { IsStoredAt (net_of case.now) stored.now.values.items stored.now.taints.items stored.now.flags.items number }
    requires as_many_values { length values.old ≡ length (net_of case.now).drivers }
    requires as_many_taints { length taints.old ≡ length (net_of case.now).drivers }
    requires as_many_marks { length marks.old ≡ length (net_of case.now).cells }
    ensures values { EvaluatesValues (net_of case.now) stored.now.values.items number values.old values.new }
    ensures taints { EvaluatesTaints (net_of case.now) stored.now.values.items values.old
        (record { stored = stored.now.taints.items; flags = stored.now.flags.items })
        (is_released case.now.stimulus.lines) number taints.old taints.new }
    ensures notes { Notes (net_of case.now) values.old taints.old values.new taints.new marks.old marks.new }
    ensures values_length { length values.new ≡ length values.old }
    ensures taints_length { length taints.new ≡ length taints.old }
    ensures marks_length { length marks.new ≡ length marks.old }
{
    let cell = case.cell(number);
    let held = StateRef {
        value: &stored.values[number as usize],
        taint: &stored.taints[number as usize],
        flag: stored.flags[number as usize],
    };
    let shown = ShownBits::of(cell, values, taints, held);
    let readers = case.readers();
    let released = case.released();
    let targets = cell.output(0);
    write_shown(readers, released, targets, &shown, values, taints, marks);
}

// ---- after a cycle

/// What a register stores next, where `values` and `taints` are those of the net bits, and `prior` is what it stores.
pub fn next_register_state(
    alloc: Global,
    netlist: &Netlist,
    number: u32,
    values: &[bool],
    taints: &[bool],
    prior: StateRef,
) -> Result<CellState, NoMemory>
    requires number { number < length (netlist_of netlist.now).cells }
    requires role { is_register (role_at (netlist_of netlist.now) number) ≡ true }
    requires value { length prior.value.now ≡ state_bits (cell_at (netlist_of netlist.now) number) }
    requires taint { length prior.taint.now ≡ state_bits (cell_at (netlist_of netlist.now) number) }
    ensures value { IfOk result (λ s. s.value ≡ stored_by
        (role_at (netlist_of netlist.now) number) (cell_at (netlist_of netlist.now) number)
        (bit values.now) prior.entry.value.now) }
    ensures taint { IfOk result (λ s. s.taint ≡ taint_stored_by
        (role_at (netlist_of netlist.now) number) (cell_at (netlist_of netlist.now) number)
        (bit values.now) (bit taints.now) prior.entry.value.now prior.entry.taint.now) }
    ensures flag { IfOk result (λ s. s.flag ≡ flag_by
        (role_at (netlist_of netlist.now) number) (cell_at (netlist_of netlist.now) number)
        (bit values.now) (bit taints.now) prior.entry.flag) }
{
    let cell = &netlist.cells()[number as usize];
    Ok(next_register(alloc, cell, values, taints, prior)?)
}
