// Frames and pieces that are made outside the lock.
ghost use Rattle.std.specs.Prelude.{◌≡◌, ◌+◌, ◌<◌, ◌≤◌, ℕ, IfOk, IsOk, MatchOption, ⊤, length};
ghost use Rattle.cif_pieces.specs.Filled.{AllEmpty, AllHere};
ghost use Rattle.cif_pieces.specs.Pieces.{piece_of};
ghost use Rattle.cif_pieces.specs.Plans.{IsPlanOf};
ghost use Rattle.cif_seq.specs.Cases.{frame_of};
ghost use Rattle.cif_kept.specs.Pins.{next_of, pin_of};

use cif_bits::NoMemory;
use cif_parts::{assemble, run_part};
use cif_pieces::{PartDone, Plan, Slots};
use cif_seq::{Case, Frame, following_frame};
use std::alloc::Global;
use std::sync::Arc;

/// The piece of a part at the cycle after a frame, or at cycle 0.
pub fn piece_after(
    alloc: Global,
    case: &Arc<Case>,
    plan: &Arc<Plan>,
    part: u32,
    prior: &Option<Arc<Frame>>,
) -> Result<PartDone, NoMemory>
    requires plan { IsPlanOf case.now.value plan.now.value }
    requires part { part < plan.now.value.parts }
    requires prior { MatchOption prior.now ⊤
        (λ f. (f.value.case ≡ case.now.value) × (f.value.cycle + 1 < case.now.value.stimulus.cycles)) }
    ensures { IfOk result
        (λ p. p ≡ piece_of case.now.value (next_of (pin_of prior.now)) part plan.now.value.parts) }
{
    match prior {
        Some(frame) => run_part(alloc, case, &**plan, part, Some(&**frame)),
        None => run_part(alloc, case, &**plan, part, None),
    }
}

/// The frame of the pieces of one cycle, which empties the slots.
pub fn joined(
    alloc: Global,
    case: &Arc<Case>,
    plan: &Arc<Plan>,
    slots: &mut Slots,
) -> Result<Arc<Frame>, NoMemory>
    requires plan { IsPlanOf case.now.value plan.now.value }
    requires len { length slots.old ≡ plan.now.value.parts }
    requires here { (k : ℕ) × AllHere case.now.value k plan.now.value.parts slots.old }
    ensures frame { IfOk result (λ f. (k : ℕ) → AllHere case.now.value k plan.now.value.parts slots.old
        → f.value ≡ frame_of case.now.value k) }
    ensures case { IfOk result (λ f. f.value.case ≡ case.now.value) }
    ensures len { IsOk result → length slots.new ≡ length slots.old }
    ensures empty { IsOk result → AllEmpty slots.new }
{
    let _parts = plan.parts();
    let frame = assemble(alloc, case, &**plan, slots)?;
    Ok(Arc::new(alloc, frame)?)
}

/// The frame of a cycle, from an earlier one on.
pub fn reach(alloc: Global, frame: Frame, cycle: u64) -> Result<Frame, NoMemory>
    requires from { frame.cycle ≤ cycle }
    requires within { cycle < frame.case.stimulus.cycles }
    ensures case { IfOk result (λ f. f.case ≡ frame.case) }
    ensures cycle { IfOk result (λ f. f.cycle ≡ cycle) }
{
    let mut frame = frame;
    while frame.cycle() < cycle {
        frame = following_frame(alloc, frame)?;
    }
    Ok(frame)
}
