// The pieces of a cycle, joined to its frame.
ghost use Rattle.std.specs.Prelude.{◌≡◌, ◌+◌, ◌<◌, [], get_or, length, slice_set, Some, None, IfOk, OnOk, OnErr};
ghost use Rattle.cif_defs.specs.Accepted.{netlist_of};
ghost use Rattle.cif_defs.specs.Netlist.{cell_at};
ghost use Rattle.cif_seq.specs.Cases.{frame_of};
ghost use Rattle.cif_pieces.specs.Filled.{AllEmpty, AllHere, cycle_here, place};
ghost use Rattle.cif_pieces.specs.Plans.{IsPlanOf};
ghost use Rattle.cif_pieces.specs.Pieces.{HaveEachPlace};
ghost use Rattle.cif_parts.specs.Joining.{Copies, HoldPieces, IsOutputBefore, IsTargetBefore, TakesCell};

use crate::walk::cell_of;
use cif_bits::NoMemory;
use cif_cells::{NetBit, Netlist, Targets};
use cif_cycle::StateWord;
use cif_pieces::{OwnedBits, PartDone, Plan, Slots};
use cif_seq::{Case, Frame, NetBits};
use std::alloc::Global;
use std::mem::swap;
use std::sync::Arc;

/// Copies the bit of a net bit from one table to another, where it is connected.
fn copy_bit(target: Option<NetBit>, from: &[bool], to: &mut [bool])
    requires { length from.now ≡ length to.old }
    ensures { Copies from.now to.old to.new (λ b. target ≡ Some b) }
{
    if let Some(net) = target {
        let place = net as usize;
        if place < to.len() {
            to[place] = from[place];
        }
    }
}

/// Copies the bits of the net bits that an output drives.
fn copy_output(targets: &[Option<NetBit>], from: &[bool], to: &mut [bool])
    requires { length from.now ≡ length to.old }
    ensures { Copies from.now to.old to.new (IsTargetBefore targets.now (length targets.now)) }
{
    for target in targets {
        copy_bit(*target, from, to);
    }
}

/// Copies the bits of the net bits that the outputs of a cell drive.
fn copy_outputs(outputs: &[Targets], from: &[bool], to: &mut [bool])
    requires { length from.now ≡ length to.old }
    ensures { Copies from.now to.old to.new (IsOutputBefore outputs.now (length outputs.now)) }
{
    for targets in outputs {
        copy_output(targets.items(), from, to);
    }
}

/// Exchanges the words of a cell.
fn exchange(place: usize, words: &mut [StateWord], others: &mut [StateWord])
    requires inside { place < length words.old }
    requires other_inside { place < length others.old }
    ensures words { words.new ≡ slice_set words.old place (get_or others.old place []) }
    ensures others { others.new ≡ slice_set others.old place (get_or words.old place []) }
{
    swap(&mut words[place], &mut others[place]);
}

/// Takes what a cell shows and stores from one set of tables to another. Its words are moved, and not copied.
fn take_cell(netlist: &Netlist, number: u32, from: &mut OwnedBits, joined: &mut OwnedBits)
    requires inside { number < length (netlist_of netlist.now).cells }
    requires from { HaveEachPlace (netlist_of netlist.now) from.old }
    requires joined { HaveEachPlace (netlist_of netlist.now) joined.old }
    ensures { TakesCell (cell_at (netlist_of netlist.now) number) number from.old from.new joined.old joined.new }
{
    let outputs = cell_of(netlist, number).outputs();
    let place = number as usize;
    copy_outputs(outputs, &from.values, &mut joined.values);
    copy_outputs(outputs, &from.taints, &mut joined.taints);
    exchange(place, &mut joined.stored.values, &mut from.stored.values);
    exchange(place, &mut joined.stored.taints, &mut from.stored.taints);
    joined.stored.flags[place] = from.stored.flags[place];
    joined.due[place] = from.due[place];
}

/// Takes over what a piece owns into tables that hold the pieces of the parts before.
fn take_over(case: &Case, plan: &Plan, piece: PartDone, joined: &mut OwnedBits)
    requires case { piece.case ≡ case.now }
    requires plan { IsPlanOf case.now plan.now }
    requires parts { piece.parts ≡ plan.now.parts }
    requires some { 0 < piece.part }
    requires before { HoldPieces case.now piece.cycle piece.parts piece.part joined.old }
    ensures { HoldPieces case.now piece.cycle piece.parts (piece.part + 1) joined.new }
{
    let netlist = case.netlist();
    let _accepted = netlist.cells();
    let owned = plan.owned(piece.part());
    let mut from = piece.into_bits();
    for number in owned {
        take_cell(netlist, *number, &mut from, joined);
    }
}

/// Empties the place of a part, which holds a piece, and gives the piece.
fn taken(slots: &mut Slots, part: u32) -> PartDone
    requires inside { part < length slots.old }
    requires filled { place slots.old part ≡ None → ⊥ }
    ensures piece { place slots.old part ≡ Some result }
    ensures empty { slots.new ≡ slice_set slots.old part None }
{
    match slots.take(part) {
        Some(piece) => piece,
        None => unreachable!(),
    }
}

/// The tables that hold the pieces of all parts. Those of part 0 are moved; into them what the other parts own is taken over.
fn joined_pieces(case: &Case, plan: &Plan, slots: &mut Slots) -> OwnedBits
    requires plan { IsPlanOf case.now plan.now }
    requires len { length slots.old ≡ plan.now.parts }
    requires filled { AllHere case.now (cycle_here slots.old) plan.now.parts slots.old }
    ensures holds { HoldPieces case.now (cycle_here slots.old) plan.now.parts plan.now.parts result }
    ensures some { 0 < plan.now.parts }
    ensures len { length slots.new ≡ length slots.old }
    ensures empty { AllEmpty slots.new }
{
    let parts = plan.parts();
    let mut joined = taken(slots, 0).into_bits();
    for part in 1..parts {
        let piece = taken(slots, part);
        take_over(case, plan, piece, &mut joined);
    }
    joined
}

/// The cycle of the piece of part 0; 0 where its place is empty.
fn first_cycle(slots: &Slots) -> u64
    requires { 0 < length slots.now }
    ensures { result ≡ cycle_here slots.now }
{
    match slots.piece(0) {
        Some(piece) => piece.cycle(),
        None => 0,
    }
}

/// The frame of which the places hold the pieces, which are taken out. It takes no memory.
fn joined_frame(case: Arc<Case>, plan: &Plan, slots: &mut Slots) -> Frame
    requires plan { IsPlanOf case.value plan.now }
    requires len { length slots.old ≡ plan.now.parts }
    requires filled { AllHere case.value (cycle_here slots.old) plan.now.parts slots.old }
    ensures frame { result ≡ frame_of case.value (cycle_here slots.old) }
    ensures len { length slots.new ≡ length slots.old }
    ensures empty { AllEmpty slots.new }
{
    let _parts = plan.parts();
    let cycle = first_cycle(slots);
    let _levels = case.levels();
    let joined = joined_pieces(&case, plan, slots);
    let bits = NetBits {
        values: joined.values,
        taints: joined.taints,
        marks: joined.due,
    };
    Frame::of(case, cycle, joined.stored, joined.inputs, bits)
}

/// The frame of a cycle, from the pieces of all its parts, of which each place holds the one of its part. What part 0 owns
/// stays in its tables, and what the other parts own is taken over into them: each net bit once, stored words without being
/// copied. After `Ok` every place is empty; after `NoMemory`, which comes before any piece is taken, the places are as before.
pub fn assemble(
    _alloc: Global,
    case: &Arc<Case>,
    plan: &Plan,
    slots: &mut Slots,
) -> Result<Frame, NoMemory>
    requires plan { IsPlanOf case.now.value plan.now }
    requires len { length slots.old ≡ plan.now.parts }
    requires filled { AllHere case.now.value (cycle_here slots.old) plan.now.parts slots.old }
    ensures frame { IfOk result (λ f. f ≡ frame_of case.now.value (cycle_here slots.old)) }
    ensures len { length slots.new ≡ length slots.old }
    ensures empty { OnOk result (AllEmpty slots.new) }
    ensures err { OnErr result (slots.new ≡ slots.old) }
{
    let case = Arc::try_clone(case)?;
    Ok(joined_frame(case, plan, slots))
}
