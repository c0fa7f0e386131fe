// Frames: what a case shows in one cycle.
ghost use Rattle.std.specs.Prelude.{◌≡◌, ◌+◌, ◌<◌, true, false, [], get_or, length, replicate, IfOk};
ghost use Rattle.cif_defs.specs.Agreement.{AgreesUpTo};
ghost use Rattle.cif_defs.specs.Stimulus.{Stimulus};
ghost use Rattle.cif_defs.specs.Words.{bit};
ghost use Rattle.cif_defs.specs.Run.{state, value};
ghost use Rattle.cif_defs.specs.TaintRun.{taint, taint_state, state_value, state_taint};
ghost use Rattle.cif_seq.specs.Cases.{frame_of, net_of};
ghost use Rattle.cif_seq.specs.FrameView.{HoldsFrame};
ghost use Rattle.cif_seq.specs.GivenAt.{given_at};
ghost use Rattle.cif_seq.specs.Inputs.{StandsAt};
ghost use Rattle.cif_seq.specs.Stored.{given_of};
ghost use Rattle.cif_shown.specs.Shown.{MayBegin, WillRest, all_bits};
ghost use Rattle.cif_defs.specs.Accepted.{netlist_of};

use crate::case::Case;
use crate::inputs::{first_inputs, next_inputs};
use crate::settle::{NetBits, settled, state_bit};
use crate::state::{move_cells, shared, start_words};
use cif_bits::NoMemory;
use cif_cells::{NetBit, Netlist};
use cif_cycle::{StoredWords, bit_of};
use cif_inputs::Inputs;
use cif_stimulus::Pair;
use std::alloc::{AllocError, Global};
use std::marker::Model;
use std::sync::Arc;

/// What a case shows in one cycle. Contracts see it as the case and the cycle: that its content is the defined one is
/// kept by the type.
#[derive(Drop)]
pub struct Frame {
    case: Arc<Case>,
    cycle: u64,
    values: Vec<bool>,
    taints: Vec<bool>,
    stored: StoredWords,
    inputs: Inputs,
    // For each cell whether it may store something else next.
    due: Vec<bool>,
}

impl Model for Frame {
    ghost use Rattle.cif_seq.specs.Cases.{FrameOf};
    ghost use Rattle.cif_seq.specs.FrameView.{HoldsFrame};

    ghost Value = { FrameOf };

    ghost view = { λ f. record { case = f.case.value; cycle = f.cycle } };

    ghost invariant = { λ f. HoldsFrame f.case.value f.cycle f.values.items f.taints.items f.stored.values.items f.stored.taints.items f.stored.flags.items f.due.items f.inputs };
}

/// The frame of a cycle, from the words that the cells store in it, the inputs at it, and bits with which it may begin.
fn frame_with(
    alloc: Global,
    case: &Arc<Case>,
    cycle: u64,
    stored: StoredWords,
    inputs: Inputs,
    begun: NetBits,
) -> Result<Frame, NoMemory>
    requires values { stored.values.items ≡ state (net_of case.now.value) case.now.value.stimulus cycle }
    requires taints { stored.taints.items ≡ (taint_state (net_of case.now.value) case.now.value.stimulus cycle).stored }
    requires flags { stored.flags.items ≡ (taint_state (net_of case.now.value) case.now.value.stimulus cycle).flags }
    requires at { StandsAt (net_of case.now.value) case.now.value.stimulus cycle inputs }
    requires as_many_values { length begun.values.items ≡ length (net_of case.now.value).drivers }
    requires as_many_taints { length begun.taints.items ≡ length (net_of case.now.value).drivers }
    requires as_many_marks { length begun.marks.items ≡ length (net_of case.now.value).cells }
    requires begins { MayBegin all_bits (net_of case.now.value) (given_at case.now.value stored inputs) case.now.value.order begun.marks.items begun.values.items begun.taints.items }
    requires resting { WillRest (net_of case.now.value) (given_of stored) begun.values.items begun.taints.items begun.marks.items }
    ensures { IfOk result (λ f. f ≡ frame_of case.now.value cycle) }
{
    let case = Arc::try_clone(case)?;
    let levels = case.levels();
    let bits = settled(alloc, &case, levels.items(), &stored, &inputs, begun)?;
    Ok(Frame::of(case, cycle, stored, inputs, bits))
}

/// Net bits that are all 0 and untainted, where all cells are marked.
fn clear_bits(alloc: Global, netlist: &Netlist) -> Result<NetBits, AllocError>
    ensures values { IfOk result (λ o. o.values.items ≡ replicate (length (netlist_of netlist.now).drivers) false) }
    ensures taints { IfOk result (λ o. o.taints.items ≡ replicate (length (netlist_of netlist.now).drivers) false) }
    ensures marks { IfOk result (λ o. o.marks.items ≡ replicate (length (netlist_of netlist.now).cells) true) }
{
    let bits = netlist.bits() as usize;
    let cells = netlist.cells().len();
    Ok(NetBits {
        values: vec![in alloc; false; bits]?,
        taints: vec![in alloc; false; bits]?,
        marks: vec![in alloc; true; cells]?,
    })
}

/// Frame 0.
pub fn first_frame(alloc: Global, case: &Arc<Case>) -> Result<Frame, NoMemory>
    ensures { IfOk result (λ f. f ≡ frame_of case.now.value 0) }
{
    let _levels = case.levels();
    let stored = start_words(alloc, case.netlist(), case.stimulus())?;
    let inputs = first_inputs(alloc, case)?;
    let begun = clear_bits(alloc, case.netlist())?;
    frame_with(alloc, case, 0, stored, inputs, begun)
}

/// The frame after the one of a cycle, made of what that one held: its stored words are moved on, and of its net bits only
/// what changes is worked out.
fn frame_after(
    alloc: Global,
    case: &Arc<Case>,
    cycle: u64,
    stored: StoredWords,
    inputs: &Inputs,
    bits: NetBits,
) -> Result<Frame, NoMemory>
    requires next { cycle + 1 < case.now.value.stimulus.cycles }
    requires holds { HoldsFrame case.now.value cycle bits.values.items bits.taints.items
        stored.values.items stored.taints.items stored.flags.items bits.marks.items inputs.now }
    ensures { IfOk result (λ f. f ≡ frame_of case.now.value (cycle + 1)) }
{
    let _cycles = case.cycles();
    let _levels = case.levels();
    let NetBits {
        values,
        taints,
        mut marks,
    } = bits;
    let mut stored = stored;
    move_cells(
        alloc,
        case.netlist(),
        &values,
        &taints,
        &mut stored,
        &mut marks,
    )?;
    let inputs = next_inputs(alloc, case, inputs)?;
    let begun = NetBits {
        values,
        taints,
        marks,
    };
    frame_with(alloc, case, cycle + 1, stored, inputs, begun)
}

/// The frame after a frame. It begins with the net bits of that frame, and works out only what changes.
pub fn next_frame(alloc: Global, frame: &Frame) -> Result<Frame, NoMemory>
    requires { frame.now.cycle + 1 < frame.now.case.stimulus.cycles }
    ensures { IfOk result (λ f. f ≡ frame_of frame.now.case (frame.now.cycle + 1)) }
{
    let stored = shared(alloc, &frame.stored)?;
    let bits = NetBits {
        values: Vec::from_slice(alloc, &frame.values)?,
        taints: Vec::from_slice(alloc, &frame.taints)?,
        marks: Vec::from_slice(alloc, &frame.due)?,
    };
    frame_after(alloc, &frame.case, frame.cycle, stored, &frame.inputs, bits)
}

/// The frame after a frame that nobody else needs: it takes that frame's own words and bits, so that what doesn't change
/// isn't even copied.
pub fn following_frame(alloc: Global, frame: Frame) -> Result<Frame, NoMemory>
    requires { frame.cycle + 1 < frame.case.stimulus.cycles }
    ensures { IfOk result (λ f. f ≡ frame_of frame.case (frame.cycle + 1)) }
{
    let Frame {
        case,
        cycle,
        values,
        taints,
        stored,
        inputs,
        due,
    } = frame;
    let bits = NetBits {
        values,
        taints,
        marks: due,
    };
    frame_after(alloc, &case, cycle, stored, &inputs, bits)
}

/// What a frame holds, lent.
#[derive(Clone, Copy, Drop)]
pub struct Held<'a> {
    /// The values, by net bit.
    pub values: &'a [bool],
    /// The taints, by net bit.
    pub taints: &'a [bool],
    /// What the cells store.
    pub stored: &'a StoredWords,
    /// The cursor over the stimulus, which stands at the frame's cycle.
    pub inputs: &'a Inputs,
    /// For each cell whether it may store something else next.
    pub due: &'a [bool],
}

impl Frame {
    /// The frame of a cycle of a case that holds these. That they are what the cycle has by definition is the condition. It
    /// takes no memory.
    pub fn of(
        case: Arc<Case>,
        cycle: u64,
        stored: StoredWords,
        inputs: Inputs,
        bits: NetBits,
    ) -> Frame
        requires { HoldsFrame case.value cycle bits.values.items bits.taints.items
            stored.values.items stored.taints.items stored.flags.items bits.marks.items inputs }
        ensures { result ≡ frame_of case.value cycle }
    {
        let NetBits {
            values,
            taints,
            marks,
        } = bits;
        Frame {
            case,
            cycle,
            values,
            taints,
            stored,
            inputs,
            due: marks,
        }
    }

    /// What it holds.
    pub fn held(&self) -> Held<'_>
        ensures { HoldsFrame self.now.case self.now.cycle result.values.now result.taints.now
            result.stored.now.values.items result.stored.now.taints.items result.stored.now.flags.items
            result.due.now result.inputs.now }
    {
        Held {
            values: &self.values,
            taints: &self.taints,
            stored: &self.stored,
            inputs: &self.inputs,
            due: &self.due,
        }
    }

    /// Its case.
    pub fn case(&self) -> &Arc<Case>
        ensures { result.now.value ≡ self.now.case }
    {
        &self.case
    }

    /// Its cycle.
    pub fn cycle(&self) -> u64
        ensures { result ≡ self.now.cycle }
    {
        self.cycle
    }

    /// The value and the taint of a net bit. The clock reads 0 and untainted.
    ///
    /// A bit that is untainted has this value under each stimulus that agrees up to the cycle.
    pub fn bit(&self, net: NetBit) -> Pair
        ensures value { result.value ≡ value (net_of self.now.case) self.now.case.stimulus self.now.cycle net }
        ensures taint { result.taint ≡ taint (net_of self.now.case) self.now.case.stimulus self.now.cycle net }
        ensures independent { (other : Stimulus)
            → AgreesUpTo (net_of self.now.case) self.now.cycle self.now.case.stimulus other
            → result.taint ≡ false → value (net_of self.now.case) other self.now.cycle net ≡ result.value }
    {
        let _levels = self.case.levels();
        Pair {
            value: bit_of(&self.values, net as usize),
            taint: bit_of(&self.taints, net as usize),
        }
    }

    /// The value and the taint of bit `index` of the word that a cell stores; of a memory, bit `word * WIDTH + bit`, which
    /// is tainted too where the memory's flag is set.
    ///
    /// A bit that is untainted has this value under each stimulus that agrees up to the cycle.
    pub fn state(&self, cell: u32, index: u64) -> Pair
        ensures value { result.value ≡ state_value (net_of self.now.case) self.now.case.stimulus self.now.cycle cell index }
        ensures taint { result.taint ≡ state_taint (net_of self.now.case) self.now.case.stimulus self.now.cycle cell index }
        ensures independent { (other : Stimulus)
            → AgreesUpTo (net_of self.now.case) self.now.cycle self.now.case.stimulus other
            → result.taint ≡ false
            → state_value (net_of self.now.case) other self.now.cycle cell index ≡ result.value }
    {
        let _levels = self.case.levels();
        Pair {
            value: state_bit(&self.stored.values, cell, index),
            taint: self.stored(cell, index) | self.flag(cell),
        }
    }

    /// The stored taint alone of bit `index` of the word that a cell stores.
    pub fn stored(&self, cell: u32, index: u64) -> bool
        ensures { result ≡ bit (get_or (taint_state (net_of self.now.case) self.now.case.stimulus self.now.cycle).stored cell []) index }
    {
        state_bit(&self.stored.taints, cell, index)
    }

    /// The sticky flag of a memory: whether a write at a tainted address may have come so far. It is off for any other
    /// cell.
    pub fn flag(&self, cell: u32) -> bool
        ensures { result ≡ get_or (taint_state (net_of self.now.case) self.now.case.stimulus self.now.cycle).flags cell false }
    {
        bit_of(&self.stored.flags, cell as usize)
    }
}
