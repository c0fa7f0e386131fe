// A frame by its pieces.
ghost use Rattle.std.specs.Prelude.{◌≡◌, ◌+◌, ◌<◌, ⊤, option_map, IfOk, MatchOption};
ghost use Rattle.cif_seq.specs.Cases.{frame_of};
ghost use Rattle.cif_pieces.specs.Plans.{IsPlanOf};
ghost use Rattle.cif_parts.specs.Running.{cycle_after};

use cif_bits::NoMemory;
use cif_parts::{assemble, run_part};
use cif_pieces::{Plan, Slots};
use cif_seq::{Case, Frame};
use std::alloc::Global;
use std::sync::Arc;

/// The frame after a frame, or frame 0 where there is none, joined from the pieces of all parts.
pub fn joined_frame(
    alloc: Global,
    case: &Arc<Case>,
    plan: &Plan,
    prior: Option<&Frame>,
) -> Result<Frame, NoMemory>
    requires plan { IsPlanOf case.now.value plan.now }
    requires prior { MatchOption prior ⊤ (λ frame. (frame.now.case ≡ case.now.value)
        × (frame.now.cycle + 1 < case.now.value.stimulus.cycles)) }
    ensures { IfOk result (λ frame. frame
        ≡ frame_of case.now.value (cycle_after (option_map (λ frame. frame.now) prior.entry))) }
{
    let parts = plan.parts();
    let mut slots = Slots::empty(alloc, parts)?;
    for part in 0..parts {
        let piece = run_part(alloc, case, plan, part, prior)?;
        slots.put(part, piece);
    }
    assemble(alloc, case, plan, &mut slots)
}
