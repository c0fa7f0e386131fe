// What all cells store: at the start, and after each cycle.
ghost use Rattle.std.specs.Prelude.{◌≡◌, ◌<◌, true, false, length, IfOk, OnOk};
ghost use Rattle.cif_defs.specs.Words.{bit};
ghost use Rattle.cif_defs.specs.Accepted.{netlist_of};
ghost use Rattle.cif_defs.specs.Run.{next_stored, state};
ghost use Rattle.cif_defs.specs.TaintRun.{next_taints, taint_state};
ghost use Rattle.cif_seq.specs.Stored.{IsStored, given_of};
ghost use Rattle.cif_shown.specs.Shown.{AreKept, AreResting, Rests};
ghost use Rattle.cif_seq.specs.States.{MovesCell};

use crate::roles::{next_state, start_state};
use cif_bits::NoMemory;
use cif_cells::{Netlist, table};
use cif_cycle::{CellState, StateRef, StateWord, StoredWords, bit_of};
use cif_starts::StartLines;
use cif_stimulus::Stimulus;
use std::alloc::Global;

/// What all cells start with. It passes each line once for a cell that it names.
pub fn start_words(
    alloc: Global,
    netlist: &Netlist,
    stimulus: &Stimulus,
) -> Result<StoredWords, NoMemory>
    ensures values { IfOk result
        (λ w. w.values.items ≡ state (netlist_of netlist.now) stimulus.now 0) }
    ensures taints { IfOk result
        (λ w. w.taints.items ≡ (taint_state (netlist_of netlist.now) stimulus.now 0).stored) }
    ensures flags { IfOk result
        (λ w. w.flags.items ≡ (taint_state (netlist_of netlist.now) stimulus.now 0).flags) }
    ensures stored { IfOk result (λ w. IsStored (netlist_of netlist.now)
        w.values.items w.taints.items w.flags.items) }
{
    let count = netlist.cells().len() as u32;
    let table = StartLines::of(alloc, netlist, stimulus)?;
    let mut values = Vec::with_capacity(alloc, count as usize)?;
    let mut taints = Vec::with_capacity(alloc, count as usize)?;
    let mut flags = Vec::with_capacity(alloc, count as usize)?;
    for number in 0..count {
        let start = start_state(alloc, netlist, stimulus, &table, number)?;
        values.push(start.value)?;
        taints.push(start.taint)?;
        flags.push(start.flag)?;
    }
    Ok(StoredWords {
        values,
        taints,
        flags,
    })
}

/// Whether a cell is known to store the same as before. Words of memories are not compared.
pub fn is_known_same(next: &CellState, prior: StateRef) -> bool
    ensures value { result ≡ true → next.now.value ≡ prior.entry.value.now }
    ensures taint { result ≡ true → next.now.taint ≡ prior.entry.taint.now }
    ensures flag { result ≡ true → next.now.flag ≡ prior.entry.flag }
{
    next.flag == prior.flag
        && next.value.is_known_same(prior.value)
        && next.taint.is_known_same(prior.taint)
}

/// Writes what a cell stores next over what it stores, where the cell is marked; one that isn't marked rests. The mark then
/// says whether it may store something else than before.
fn move_cell(
    alloc: Global,
    netlist: &Netlist,
    number: u32,
    values: &[bool],
    taints: &[bool],
    stored: &mut StoredWords,
    marks: &mut [bool],
) -> Result<(), NoMemory>
    requires number { number < length (netlist_of netlist.now).cells }
    requires stored { IsStored (netlist_of netlist.now)
        stored.old.values.items stored.old.taints.items stored.old.flags.items }
    requires as_many { length marks.old ≡ length (netlist_of netlist.now).cells }
    requires rests { bit marks.old number ≡ false
        → Rests (netlist_of netlist.now) (given_of stored.old) values.now taints.now number }
    ensures moves { OnOk result (MovesCell (netlist_of netlist.now) (given_of stored.old) (given_of stored.new)
        values.now taints.now marks.old marks.new number) }
    ensures stored { OnOk result (IsStored (netlist_of netlist.now)
        stored.new.values.items stored.new.taints.items stored.new.flags.items) }
    ensures as_many { length marks.new ≡ length marks.old }
{
    let place = number as usize;
    if !bit_of(marks, place) {
        return Ok(());
    }
    let prior = StateRef {
        value: &stored.values[place],
        taint: &stored.taints[place],
        flag: stored.flags[place],
    };
    let next = next_state(alloc, netlist, number, values, taints, prior)?;
    marks[place] = !is_known_same(&next, prior);
    stored.values[place] = next.value;
    stored.taints[place] = next.taint;
    stored.flags[place] = next.flag;
    Ok(())
}

/// Writes what all cells store next over what they store, where `values` and `taints` are those of the net bits. A cell
/// that isn't marked rests, and costs nothing but the look at its mark. The marks then say which cells may store something
/// else than before.
pub fn move_cells(
    alloc: Global,
    netlist: &Netlist,
    values: &[bool],
    taints: &[bool],
    stored: &mut StoredWords,
    marks: &mut [bool],
) -> Result<(), NoMemory>
    requires stored { IsStored (netlist_of netlist.now)
        stored.old.values.items stored.old.taints.items stored.old.flags.items }
    requires as_many { length marks.old ≡ length (netlist_of netlist.now).cells }
    requires resting { AreResting (netlist_of netlist.now) (given_of stored.old) values.now taints.now marks.old }
    ensures values { OnOk result (stored.new.values.items
        ≡ next_stored (netlist_of netlist.now) stored.old.values.items (bit values.now)) }
    ensures taints { OnOk result (stored.new.taints.items
        ≡ (next_taints (netlist_of netlist.now) stored.old.values.items (bit values.now)
        (record { stored = stored.old.taints.items; flags = stored.old.flags.items })
        (bit taints.now)).stored) }
    ensures flags { OnOk result (stored.new.flags.items
        ≡ (next_taints (netlist_of netlist.now) stored.old.values.items (bit values.now)
        (record { stored = stored.old.taints.items; flags = stored.old.flags.items })
        (bit taints.now)).flags) }
    ensures kept { OnOk result (AreKept (given_of stored.old) (given_of stored.new) marks.new) }
    ensures as_many { length marks.new ≡ length marks.old }
{
    let count = netlist.cells().len() as u32;
    for number in 0..count {
        move_cell(alloc, netlist, number, values, taints, stored, marks)?;
    }
    Ok(())
}

/// Other words of the same bits. Those of memories share all their pages.
fn shared_words(alloc: Global, words: &[StateWord]) -> Result<Vec<StateWord>, NoMemory>
    ensures { IfOk result (λ ws. ws.items ≡ words.now) }
{
    let mut shared = Vec::with_capacity(alloc, words.len())?;
    for i in 0..words.len() {
        let word = &words[i];
        shared.push(word.share(alloc)?)?;
    }
    Ok(shared)
}

/// The same stored words once more. Those of memories share all their pages.
pub fn shared(alloc: Global, stored: &StoredWords) -> Result<StoredWords, NoMemory>
    ensures values { IfOk result (λ s. s.values.items ≡ stored.now.values.items) }
    ensures taints { IfOk result (λ s. s.taints.items ≡ stored.now.taints.items) }
    ensures flags { IfOk result (λ s. s.flags.items ≡ stored.now.flags.items) }
{
    Ok(StoredWords {
        values: shared_words(alloc, &stored.values)?,
        taints: shared_words(alloc, &stored.taints)?,
        flags: Vec::from_slice(alloc, &stored.flags)?,
    })
}
