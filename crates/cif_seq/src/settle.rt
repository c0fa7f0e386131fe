// Settled net bits of a cycle: the sources are set, and then the marked ones of some cells are evaluated, as they stand in a
// levelled order.
ghost use Rattle.std.specs.Prelude.{◌≡◌, ◌+◌, ◌<◌, ℕ, Bool, List, true, false, get_or, length, IfOk, IsOk, if◌then◌else◌};
ghost use Rattle.cif_defs.specs.Words.{bit, word, operand};
ghost use Rattle.cif_defs.specs.Accepted.{netlist_of};
ghost use Rattle.cif_defs.specs.Loop.{is_passing};
ghost use Rattle.cif_defs.specs.Netlist.{driver_of, role_at};
ghost use Rattle.cif_defs.specs.Run.{driver_value_at_depth_0, register_at_depth_0, input_value};
ghost use Rattle.cif_defs.specs.TaintRun.{driver_taint_at_depth_0, input_taint};
ghost use Rattle.cif_inputs.specs.Cursor.{cycle_of};
ghost use Rattle.cif_readers.specs.Reads.{Notes};
ghost use Rattle.cif_seq.specs.Cases.{net_of};
ghost use Rattle.cif_seq.specs.Inputs.{StandsAt};
ghost use Rattle.cif_seq.specs.Stored.{ArePassing, AreStored, IsStoredAt};
ghost use Rattle.cif_shown.specs.Shown.{AreBegun, AreShown, AreSources, CoverBits, MayBegin, Shows, is_open};
ghost use Rattle.cif_seq.specs.GivenAt.{given_at, given_with};

use crate::case::Case;
use crate::inputs::input_pair;
use crate::roles::evaluate_cell;
use crate::sources::role_of_cell;
use cif_bits::NoMemory;
use cif_cells::{Driver, Netlist, Role};
use cif_cycle::{StateWord, StoredWords, bit_of};
use cif_inputs::Inputs;
use cif_stimulus::Pair;
use std::alloc::Global;

// ---- marked cells

/// Evaluates a cell, where it is marked.
fn evaluate_marked_cell(
    alloc: Global,
    case: &Case,
    number: u32,
    stored: &StoredWords,
    values: &mut [bool],
    taints: &mut [bool],
    marks: &mut [bool],
) -> Result<(), NoMemory>
    requires passing { is_passing (role_at (net_of case.now) number) ≡ true }
    requires stored { IsStoredAt (net_of case.now) stored.now.values.items stored.now.taints.items stored.now.flags.items number }
    requires as_many_values { length values.old ≡ length (net_of case.now).drivers }
    requires as_many_taints { length taints.old ≡ length (net_of case.now).drivers }
    requires as_many_marks { length marks.old ≡ length (net_of case.now).cells }
    ensures shown { IsOk result → (covered : ℕ → Bool) (cells : List ℕ) (place : ℕ) (input taint_input : ℕ → ℕ → Bool)
        → CoverBits (net_of case.now) case.now.order cells covered → place < length cells → number ≡ get_or cells place 0
        → AreShown covered (net_of case.now) (given_with case.now stored.now input taint_input) cells place marks.old values.old taints.old
        → AreShown covered (net_of case.now) (given_with case.now stored.now input taint_input) cells (place + 1) marks.new values.new taints.new }
    ensures notes { IsOk result → Notes (net_of case.now) values.old taints.old values.new taints.new marks.old marks.new }
    ensures values_length { length values.new ≡ length values.old }
    ensures taints_length { length taints.new ≡ length taints.old }
    ensures marks_length { length marks.new ≡ length marks.old }
{
    let _levels = case.levels();
    if !bit_of(marks, number as usize) {
        return Ok(());
    }
    evaluate_cell(alloc, case, number, stored, values, taints, marks)
}

/// Evaluates the marked ones of some cells, one after another; each cell that reads a bit that changes is marked too.
fn evaluate_marked(
    alloc: Global,
    case: &Case,
    cells: &[u32],
    stored: &StoredWords,
    values: &mut [bool],
    taints: &mut [bool],
    marks: &mut [bool],
) -> Result<(), NoMemory>
    requires passing { ArePassing (net_of case.now) cells.now }
    requires stored { AreStored (net_of case.now) stored.now.values.items stored.now.taints.items stored.now.flags.items cells.now }
    requires as_many_values { length values.old ≡ length (net_of case.now).drivers }
    requires as_many_taints { length taints.old ≡ length (net_of case.now).drivers }
    requires as_many_marks { length marks.old ≡ length (net_of case.now).cells }
    ensures shown { IsOk result → (covered : ℕ → Bool) (input taint_input : ℕ → ℕ → Bool)
        → CoverBits (net_of case.now) case.now.order cells.now covered
        → AreShown covered (net_of case.now) (given_with case.now stored.now input taint_input) cells.now 0 marks.old values.old taints.old
        → AreShown covered (net_of case.now) (given_with case.now stored.now input taint_input) cells.now (length cells.now) marks.new values.new taints.new }
    ensures notes { IsOk result → Notes (net_of case.now) values.old taints.old values.new taints.new marks.old marks.new }
    ensures values_length { length values.new ≡ length values.old }
    ensures taints_length { length taints.new ≡ length taints.old }
    ensures marks_length { length marks.new ≡ length marks.old }
{
    for place in 0..cells.len() {
        let number = cells[place];
        evaluate_marked_cell(alloc, case, number, stored, values, taints, marks)?;
    }
    Ok(())
}

// ---- what a cycle starts from

/// A bit of a word among those of the cells; 0 past the end of the word, and where there is no such cell.
pub fn state_bit(words: &[StateWord], cell: u32, index: u64) -> bool
    ensures { result ≡ bit (operand words.now cell) index }
{
    match words.get(cell as usize) {
        Some(word) => word.bit(index),
        None => false,
    }
}

/// A bit that a register shows before any cell is evaluated, and its taint.
fn register_pair(role: Role, stored: &StoredWords, cell: u32, index: u32) -> Pair
    ensures value { result.value
        ≡ register_at_depth_0 role (operand stored.now.values.items cell) index }
    ensures taint { result.taint
        ≡ register_at_depth_0 role (operand stored.now.taints.items cell) index }
{
    match role {
        Role::ResetRegister => Pair {
            value: false,
            taint: false,
        },
        _ => Pair {
            value: state_bit(&stored.values, cell, u64::from(index)),
            taint: state_bit(&stored.taints, cell, u64::from(index)),
        },
    }
}

/// A net bit before any cell is evaluated, and its taint: that of an input port, or of a stored word; else 0.
#[tactic(auto, unfolding(cif_defs::specs::Run::driver_value_at_depth_0, cif_defs::specs::TaintRun::driver_taint_at_depth_0))]
fn start_pair(case: &Case, stored: &StoredWords, inputs: &Inputs, net: u32) -> Pair
    requires inside { net < length (net_of case.now).drivers }
    requires at { StandsAt (net_of case.now) case.now.stimulus (cycle_of inputs.now) inputs.now }
    ensures value { result.value ≡ driver_value_at_depth_0 (net_of case.now) stored.now.values.items
        (input_value (net_of case.now) case.now.stimulus (cycle_of inputs.now))
        (driver_of (net_of case.now) net) }
    ensures taint { result.taint ≡ driver_taint_at_depth_0 (net_of case.now)
        (record { stored = stored.now.taints.items; flags = stored.now.flags.items })
        (input_taint (net_of case.now) case.now.stimulus (cycle_of inputs.now))
        (driver_of (net_of case.now) net) }
{
    let _levels = case.levels();
    let netlist = case.netlist();
    match netlist.driver(net) {
        Driver::Input { port, index } => input_pair(case, inputs, port, index),
        Driver::Register { cell, index } => {
            register_pair(role_of_cell(netlist, cell), stored, cell, index)
        }
        Driver::Output { .. } | Driver::Read { .. } | Driver::Clock => Pair {
            value: false,
            taint: false,
        },
    }
}

/// Whether a net bit may be given something else than in the cycle before: it is of an input port, or of a register that
/// is marked.
fn is_open(netlist: &Netlist, marks: &[bool], net: u32) -> bool
    requires inside { net < length (netlist_of netlist.now).drivers }
    ensures { result ≡ is_open (netlist_of netlist.now) marks.now net }
{
    match netlist.driver(net) {
        Driver::Input { .. } => true,
        Driver::Register { cell, .. } => bit_of(marks, cell as usize),
        Driver::Output { .. } | Driver::Read { .. } | Driver::Clock => false,
    }
}

/// Sets one of the sources, where it may have changed; each cell that reads a bit that changes is marked.
fn set_source(
    case: &Case,
    stored: &StoredWords,
    inputs: &Inputs,
    net: u32,
    values: &mut [bool],
    taints: &mut [bool],
    marks: &mut [bool],
)
    requires inside { net < length (net_of case.now).drivers }
    requires at { StandsAt (net_of case.now) case.now.stimulus (cycle_of inputs.now) inputs.now }
    requires as_many_values { length values.old ≡ length (net_of case.now).drivers }
    requires as_many_taints { length taints.old ≡ length (net_of case.now).drivers }
    requires as_many_marks { length marks.old ≡ length (net_of case.now).cells }
    ensures shown { (covered : ℕ → Bool) (cells sources : List ℕ) (i : ℕ)
        → CoverBits (net_of case.now) case.now.order cells covered → AreSources (net_of case.now) sources
        → i < length sources → net ≡ get_or sources i 0
        → AreBegun covered (net_of case.now) (given_at case.now stored.now inputs.now) cells sources i marks.old values.old taints.old
        → AreBegun covered (net_of case.now) (given_at case.now stored.now inputs.now) cells sources (i + 1) marks.new values.new taints.new }
    ensures notes { Notes (net_of case.now) values.old taints.old values.new taints.new marks.old marks.new }
    ensures values_length { length values.new ≡ length values.old }
    ensures taints_length { length taints.new ≡ length taints.old }
    ensures marks_length { length marks.new ≡ length marks.old }
{
    let _levels = case.levels();
    if !is_open(case.netlist(), marks, net) {
        return;
    }
    let released = case.released();
    let pair = start_pair(case, stored, inputs, net);
    let taint = !bit_of(released, net as usize) & pair.taint;
    case.readers()
        .set_bit(net, pair.value, taint, values, taints, marks);
}

/// Sets the net bits of the input ports and of registers without asynchronous reset that may have changed; each cell that
/// reads a bit that changes is marked.
fn set_sources(
    case: &Case,
    stored: &StoredWords,
    inputs: &Inputs,
    values: &mut [bool],
    taints: &mut [bool],
    marks: &mut [bool],
)
    requires at { StandsAt (net_of case.now) case.now.stimulus (cycle_of inputs.now) inputs.now }
    requires as_many_values { length values.old ≡ length (net_of case.now).drivers }
    requires as_many_taints { length taints.old ≡ length (net_of case.now).drivers }
    requires as_many_marks { length marks.old ≡ length (net_of case.now).cells }
    ensures shown { (covered : ℕ → Bool) (cells : List ℕ) → CoverBits (net_of case.now) case.now.order cells covered
        → MayBegin covered (net_of case.now) (given_at case.now stored.now inputs.now) cells marks.old values.old taints.old
        → AreShown covered (net_of case.now) (given_at case.now stored.now inputs.now) cells 0 marks.new values.new taints.new }
    ensures notes { Notes (net_of case.now) values.old taints.old values.new taints.new marks.old marks.new }
    ensures values_length { length values.new ≡ length values.old }
    ensures taints_length { length taints.new ≡ length taints.old }
    ensures marks_length { length marks.new ≡ length marks.old }
{
    let sources = case.sources();
    for place in 0..sources.len() {
        let net = sources[place];
        set_source(case, stored, inputs, net, values, taints, marks);
    }
}

/// Settles net bits of a cycle in place, by some of the cells.
fn settle(
    alloc: Global,
    case: &Case,
    cells: &[u32],
    stored: &StoredWords,
    inputs: &Inputs,
    values: &mut [bool],
    taints: &mut [bool],
    marks: &mut [bool],
) -> Result<(), NoMemory>
    requires passing { ArePassing (net_of case.now) cells.now }
    requires stored { AreStored (net_of case.now) stored.now.values.items stored.now.taints.items stored.now.flags.items cells.now }
    requires at { StandsAt (net_of case.now) case.now.stimulus (cycle_of inputs.now) inputs.now }
    requires as_many_values { length values.old ≡ length (net_of case.now).drivers }
    requires as_many_taints { length taints.old ≡ length (net_of case.now).drivers }
    requires as_many_marks { length marks.old ≡ length (net_of case.now).cells }
    ensures shown { IsOk result → (covered : ℕ → Bool) → CoverBits (net_of case.now) case.now.order cells.now covered
        → MayBegin covered (net_of case.now) (given_at case.now stored.now inputs.now) cells.now marks.old values.old taints.old
        → (b : ℕ) → covered b ≡ true → Shows (net_of case.now) (given_at case.now stored.now inputs.now) values.new taints.new b }
    ensures notes { IsOk result → Notes (net_of case.now) values.old taints.old values.new taints.new marks.old marks.new }
    ensures values_length { length values.new ≡ length values.old }
    ensures taints_length { length taints.new ≡ length taints.old }
    ensures marks_length { length marks.new ≡ length marks.old }
{
    let _levels = case.levels();
    set_sources(case, stored, inputs, values, taints, marks);
    evaluate_marked(alloc, case, cells, stored, values, taints, marks)
}

/// The value and the taint of each net bit, and marks of cells.
#[derive(Drop)]
pub struct NetBits {
    /// The values, by net bit.
    pub values: Vec<bool>,
    /// The taints, by net bit.
    pub taints: Vec<bool>,
    /// The marks, by cell.
    pub marks: Vec<bool>,
}

/// Settled net bits of a cycle, from the words that the cells store, from the inputs at that cycle, and from bits with which
/// the cycle may begin. Of the cells that are given, which stand as in the levelled order, the marked ones are evaluated: the
/// bits that they cover are then settled. The marks say which cells read a bit that changed, or were marked before.
///
/// A whole frame is settled by all passing cells, and a piece of one by those of a part.
pub fn settled(
    alloc: Global,
    case: &Case,
    cells: &[u32],
    stored: &StoredWords,
    inputs: &Inputs,
    begun: NetBits,
) -> Result<NetBits, NoMemory>
    requires passing { ArePassing (net_of case.now) cells.now }
    requires stored { AreStored (net_of case.now) stored.now.values.items stored.now.taints.items stored.now.flags.items cells.now }
    requires at { StandsAt (net_of case.now) case.now.stimulus (cycle_of inputs.now) inputs.now }
    requires as_many_values { length begun.values.items ≡ length (net_of case.now).drivers }
    requires as_many_taints { length begun.taints.items ≡ length (net_of case.now).drivers }
    requires as_many_marks { length begun.marks.items ≡ length (net_of case.now).cells }
    ensures shown { IfOk result (λ o. (covered : ℕ → Bool) → CoverBits (net_of case.now) case.now.order cells.now covered
        → MayBegin covered (net_of case.now) (given_at case.now stored.now inputs.now) cells.now begun.marks.items begun.values.items begun.taints.items
        → (b : ℕ) → covered b ≡ true → Shows (net_of case.now) (given_at case.now stored.now inputs.now) o.values.items o.taints.items b) }
    ensures notes { IfOk result (λ o. Notes (net_of case.now) begun.values.items begun.taints.items
        o.values.items o.taints.items begun.marks.items o.marks.items) }
    ensures as_many_values { IfOk result (λ o. length o.values.items ≡ length (net_of case.now).drivers) }
    ensures as_many_taints { IfOk result (λ o. length o.taints.items ≡ length (net_of case.now).drivers) }
    ensures as_many_marks { IfOk result (λ o. length o.marks.items ≡ length (net_of case.now).cells) }
{
    let NetBits {
        mut values,
        mut taints,
        mut marks,
    } = begun;
    settle(
        alloc,
        case,
        cells,
        stored,
        inputs,
        &mut values,
        &mut taints,
        &mut marks,
    )?;
    Ok(NetBits {
        values,
        taints,
        marks,
    })
}
