// Parts: what one part owns of the frame of a cycle, worked out from the frame of the cycle before.
ghost use Rattle.std.specs.Prelude.{◌≡◌, ◌+◌, ◌<◌, ⊤, true, false, [], get_or, length, replicate, slice_set, option_map, IfOk, MatchOption};
ghost use Rattle.cif_defs.specs.Accepted.{netlist_of};
ghost use Rattle.cif_defs.specs.Words.{bit};
ghost use Rattle.cif_seq.specs.Cases.{net_of};
ghost use Rattle.cif_seq.specs.Stored.{IsStored, given_of};
ghost use Rattle.cif_shown.specs.Shown.{AreResting, Rests};
ghost use Rattle.cif_pieces.specs.Pieces.{piece_of};
ghost use Rattle.cif_pieces.specs.Plans.{IsPlanOf};
ghost use Rattle.cif_parts.specs.Running.{AreClear, AreIn, AreMoved, AreStoring, BeginsPart, HavePlaces, IsNext, cycle_after, used_cells};

use cif_bits::NoMemory;
use cif_cells::Netlist;
use cif_cycle::{CellState, StateRef, StateWord, StoredWords, bit_of};
use cif_inputs::Inputs;
use cif_pieces::{OwnedBits, PartDone, Plan};
use cif_seq::{
    Case, Frame, Held, NetBits, first_inputs, is_known_same, next_inputs, next_state, settled,
    start_state,
};
use cif_starts::StartLines;
use std::alloc::{AllocError, Global};
use std::sync::Arc;

// ---- what cells store

/// Words of no bits, so many.
fn empty_words(alloc: Global, count: usize) -> Result<Vec<StateWord>, AllocError>
    ensures { IfOk result (λ words. words.items ≡ replicate count []) }
{
    let mut words = Vec::with_capacity(alloc, count)?;
    for _step in 0..count {
        words.push_reserved(StateWord::of(Vec::new(alloc)));
    }
    Ok(words)
}

/// A place for what each cell stores, with nothing in it.
fn empty_places(alloc: Global, netlist: &Netlist) -> Result<StoredWords, AllocError>
    ensures places { IfOk result (HavePlaces (netlist_of netlist.now)) }
    ensures clear { IfOk result (AreClear (netlist_of netlist.now)) }
{
    let count = netlist.cells().len();
    Ok(StoredWords {
        values: empty_words(alloc, count)?,
        taints: empty_words(alloc, count)?,
        flags: vec![in alloc; false; count]?,
    })
}

/// Puts what a cell stores in its place.
fn put(stored: &mut StoredWords, number: u32, state: CellState)
    requires value_place { number < length stored.old.values.items }
    requires taint_place { number < length stored.old.taints.items }
    requires flag_place { number < length stored.old.flags.items }
    ensures values { stored.new.values.items ≡ slice_set stored.old.values.items number state.value }
    ensures taints { stored.new.taints.items ≡ slice_set stored.old.taints.items number state.taint }
    ensures flags { stored.new.flags.items ≡ slice_set stored.old.flags.items number state.flag }
{
    let place = number as usize;
    stored.values[place] = state.value;
    stored.taints[place] = state.taint;
    stored.flags[place] = state.flag;
}

/// What registers and memories start with, each in its place; the places of other cells are empty.
fn first_words(alloc: Global, case: &Case, needed: &[u32]) -> Result<StoredWords, NoMemory>
    requires { AreStoring (net_of case.now) needed.now }
    ensures places { IfOk result (HavePlaces (net_of case.now)) }
    ensures clear { IfOk result (AreClear (net_of case.now)) }
    ensures words { IfOk result
        (AreIn (net_of case.now) case.now.stimulus 0 needed.now (length needed.now)) }
{
    let netlist = case.netlist();
    let stimulus = case.stimulus();
    let table = StartLines::of(alloc, netlist, stimulus)?;
    let mut stored = empty_places(alloc, netlist)?;
    for place in 0..needed.len() {
        let number = needed[place];
        let state = start_state(alloc, netlist, stimulus, &table, number)?;
        put(&mut stored, number, state);
    }
    Ok(stored)
}

/// What a cell stores next, and whether that may be something else than before.
#[derive(Drop)]
struct NextState {
    state: CellState,
    is_due: bool,
}

/// What a cell stores after a cycle. Where it isn't due in the frame of that cycle it rests, and its words are shared.
fn state_after(
    alloc: Global,
    netlist: &Netlist,
    number: u32,
    held: Held<'_>,
) -> Result<NextState, NoMemory>
    requires number { number < length (netlist_of netlist.now).cells }
    requires stored { IsStored (netlist_of netlist.now) held.stored.now.values.items
        held.stored.now.taints.items held.stored.now.flags.items }
    requires rests { bit held.due.now number ≡ false
        → Rests (netlist_of netlist.now) (given_of held.stored.now) held.values.now held.taints.now number }
    ensures { IfOk result (λ next. IsNext (netlist_of netlist.now) (given_of held.entry.stored.now)
        held.entry.values.now held.entry.taints.now number next.state.value next.state.taint next.state.flag next.is_due) }
{
    let place = number as usize;
    let prior = StateRef {
        value: &held.stored.values[place],
        taint: &held.stored.taints[place],
        flag: held.stored.flags[place],
    };
    if !bit_of(held.due, place) {
        let state = CellState {
            value: prior.value.share(alloc)?,
            taint: prior.taint.share(alloc)?,
            flag: prior.flag,
        };
        return Ok(NextState {
            state,
            is_due: false,
        });
    }
    let state = next_state(alloc, netlist, number, held.values, held.taints, prior)?;
    let is_due = !is_known_same(&state, prior);
    Ok(NextState { state, is_due })
}

/// What cells store, each in its place, and for each cell of the netlist whether it is marked.
#[derive(Drop)]
struct MarkedWords {
    stored: StoredWords,
    marks: Vec<bool>,
}

/// What registers and memories store after the cycle of a frame, each in its place; the places of other cells are empty.
/// Those are marked that may store something else than in that cycle.
fn next_words(
    alloc: Global,
    netlist: &Netlist,
    needed: &[u32],
    held: Held<'_>,
) -> Result<MarkedWords, NoMemory>
    requires cells { AreStoring (netlist_of netlist.now) needed.now }
    requires stored { IsStored (netlist_of netlist.now) held.stored.now.values.items
        held.stored.now.taints.items held.stored.now.flags.items }
    requires resting { AreResting (netlist_of netlist.now) (given_of held.stored.now)
        held.values.now held.taints.now held.due.now }
    ensures places { IfOk result (λ words. HavePlaces (netlist_of netlist.now) words.stored) }
    ensures clear { IfOk result (λ words. AreClear (netlist_of netlist.now) words.stored) }
    ensures marks { IfOk result (λ words. length words.marks.items ≡ length (netlist_of netlist.now).cells) }
    ensures moved { IfOk result (λ words. AreMoved (netlist_of netlist.now) (given_of held.entry.stored.now)
        (given_of words.stored) held.entry.values.now held.entry.taints.now words.marks.items needed.now (length needed.now)) }
{
    let mut stored = empty_places(alloc, netlist)?;
    let mut marks = vec![in alloc; false; netlist.cells().len()]?;
    for place in 0..needed.len() {
        let number = needed[place];
        let NextState { state, is_due } = state_after(alloc, netlist, number, held)?;
        marks[number as usize] = is_due;
        put(&mut stored, number, state);
    }
    Ok(MarkedWords { stored, marks })
}

// ---- what a part begins with

/// What a part begins a cycle with: what the cells store of which it needs it, the inputs, and net bits.
#[derive(Drop)]
struct Begun {
    stored: StoredWords,
    inputs: Inputs,
    bits: NetBits,
}

/// Net bits that are all 0 and untainted, where all cells are marked.
fn clear_bits(alloc: Global, netlist: &Netlist) -> Result<NetBits, AllocError>
    ensures values { IfOk result (λ bits. bits.values.items ≡ replicate (length (netlist_of netlist.now).drivers) false) }
    ensures taints { IfOk result (λ bits. bits.taints.items ≡ replicate (length (netlist_of netlist.now).drivers) false) }
    ensures marks { IfOk result (λ bits. bits.marks.items ≡ replicate (length (netlist_of netlist.now).cells) true) }
{
    let nets = netlist.bits() as usize;
    let cells = netlist.cells().len();
    Ok(NetBits {
        values: vec![in alloc; false; nets]?,
        taints: vec![in alloc; false; nets]?,
        marks: vec![in alloc; true; cells]?,
    })
}

/// What a part begins cycle 0 with: net bits that are all 0 and untainted, and all cells marked.
fn first_begun(alloc: Global, case: &Case, plan: &Plan, part: u32) -> Result<Begun, NoMemory>
    requires plan { IsPlanOf case.now plan.now }
    requires part { part < plan.now.parts }
    ensures { IfOk result (λ begun. BeginsPart case.now 0 (used_cells plan.now part)
        begun.stored begun.inputs begun.bits) }
{
    let _levels = case.levels();
    Ok(Begun {
        stored: first_words(alloc, case, plan.needed(part))?,
        inputs: first_inputs(alloc, case)?,
        bits: clear_bits(alloc, case.netlist())?,
    })
}

/// What a part begins the cycle after a frame with: that frame's net bits, and the cells marked that may store something
/// else.
fn next_begun(
    alloc: Global,
    case: &Case,
    plan: &Plan,
    part: u32,
    frame: &Frame,
) -> Result<Begun, NoMemory>
    requires plan { IsPlanOf case.now plan.now }
    requires part { part < plan.now.parts }
    requires same { frame.now.case ≡ case.now }
    requires next { frame.now.cycle + 1 < case.now.stimulus.cycles }
    ensures { IfOk result (λ begun. BeginsPart case.now (frame.now.cycle + 1) (used_cells plan.now part)
        begun.stored begun.inputs begun.bits) }
{
    let _levels = case.levels();
    let _cycles = case.cycles();
    let held = frame.held();
    let needed = plan.needed(part);
    let MarkedWords { stored, marks } = next_words(alloc, case.netlist(), needed, held)?;
    let inputs = next_inputs(alloc, case, held.inputs)?;
    let bits = NetBits {
        values: Vec::from_slice(alloc, held.values)?,
        taints: Vec::from_slice(alloc, held.taints)?,
        marks,
    };
    Ok(Begun {
        stored,
        inputs,
        bits,
    })
}

// ---- pieces

/// The piece of a part at a cycle, from what it begins the cycle with.
fn part_from(
    alloc: Global,
    case: &Arc<Case>,
    plan: &Plan,
    part: u32,
    cycle: u64,
    begun: Begun,
) -> Result<PartDone, NoMemory>
    requires plan { IsPlanOf case.now.value plan.now }
    requires part { part < plan.now.parts }
    requires cycle { cycle < case.now.value.stimulus.cycles }
    requires begins { BeginsPart case.now.value cycle (used_cells plan.now part)
        begun.stored begun.inputs begun.bits }
    ensures { IfOk result (λ piece. piece ≡ piece_of case.now.value cycle part plan.now.parts) }
{
    let case = Arc::try_clone(case)?;
    let _levels = case.levels();
    let parts = plan.parts();
    let Begun {
        stored,
        inputs,
        bits,
    } = begun;
    let NetBits {
        values,
        taints,
        marks,
    } = settled(alloc, &case, plan.passing(part), &stored, &inputs, bits)?;
    let bits = OwnedBits {
        values,
        taints,
        stored,
        due: marks,
        inputs,
    };
    Ok(PartDone::of(case, cycle, part, parts, bits))
}

/// The piece of a part at the cycle after a frame, or at cycle 0 where there is none. It works out what the registers and
/// memories store that the part needs, and evaluates of its passing cells those that read a bit that changed.
///
/// Its tables have a place for each net bit and for each cell. So beside the cells of the part it copies the frame's net
/// bits and clears marks, which are blocks of bytes, makes an empty word for each cell, and looks at each net bit of an input
/// port and of a register without asynchronous reset, to set those that may have changed.
pub fn run_part(
    alloc: Global,
    case: &Arc<Case>,
    plan: &Plan,
    part: u32,
    prior: Option<&Frame>,
) -> Result<PartDone, NoMemory>
    requires plan { IsPlanOf case.now.value plan.now }
    requires part { part < plan.now.parts }
    requires prior { MatchOption prior ⊤ (λ frame. (frame.now.case ≡ case.now.value)
        × (frame.now.cycle + 1 < case.now.value.stimulus.cycles)) }
    ensures { IfOk result (λ piece. piece ≡ piece_of case.now.value
        (cycle_after (option_map (λ frame. frame.now) prior.entry)) part plan.now.parts) }
{
    let _cycles = case.cycles();
    let _ordered = case.stimulus().lines();
    match prior {
        None => {
            let begun = first_begun(alloc, case, plan, part)?;
            part_from(alloc, case, plan, part, 0, begun)
        }
        Some(frame) => {
            let begun = next_begun(alloc, case, plan, part, frame)?;
            part_from(alloc, case, plan, part, frame.cycle() + 1, begun)
        }
    }
}
