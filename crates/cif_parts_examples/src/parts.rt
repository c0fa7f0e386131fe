// Twelve cycles in 1, 2, 3 and 64 parts, each frame beside the one that is worked out whole.
ghost use Rattle.std.specs.Prelude.{◌≡◌, ◌+◌, ◌≤◌, IfOk};
ghost use Rattle.cif_pieces.specs.Plans.{IsPlanOf};

use crate::joined::joined_frame;
use crate::netlist::{NETLIST, STIMULUS};
use cif_cells::Netlist;
use cif_json::read_netlist;
use cif_level::levels;
use cif_parts::plan;
use cif_pieces::Plan;
use cif_seq::{Case, Frame, first_frame, next_frame};
use cif_stim_read::read_stimulus;
use std::alloc::Global;
use std::process::Abort;
use std::sync::Arc;
use std::test::Fail;

/// The case of the netlist and the stimulus.
fn example_case(rt: &impl Abort, alloc: Global) -> Result<Arc<Case>, Fail> {
    let module = read_netlist(alloc, NETLIST.as_bytes()).expect(rt, "the text is refused");
    let netlist = Netlist::build(alloc, module).expect(rt, "the module is refused");
    let levels = levels(alloc, &netlist).expect(rt, "a loop");
    let stimulus = read_stimulus(alloc, &netlist, STIMULUS.as_bytes())?;
    let case = Case::new(alloc, netlist, levels, stimulus)?;
    Ok(Arc::new(alloc, case)?)
}

/// Most bits that a cell stores. Bits past the last one are 0.
const STORED: u64 = 8;

/// A cell stores the same in two frames.
fn assert_state(rt: &impl Abort, frame: &Frame, whole: &Frame, cell: u32) {
    let cycle = whole.cycle();
    assert_eq!(rt;
        frame.flag(cell),
        whole.flag(cell),
        "cycle {cycle}, cell {cell}"
    );
    for index in 0..STORED {
        assert_eq!(rt;
            frame.state(cell, index),
            whole.state(cell, index),
            "cycle {cycle}, cell {cell}, bit {index}"
        );
        assert_eq!(rt;
            frame.stored(cell, index),
            whole.stored(cell, index),
            "cycle {cycle}, cell {cell}, taint {index}"
        );
    }
}

/// Two frames are the same, bit by bit.
fn assert_same(rt: &impl Abort, frame: &Frame, whole: &Frame) {
    assert_eq!(rt; frame.cycle(), whole.cycle());
    for net in 0..whole.case().netlist().bits() {
        assert_eq!(rt;
            frame.bit(net),
            whole.bit(net),
            "cycle {}, net bit {net}",
            whole.cycle()
        );
    }
    for cell in 0..whole.case().netlist().cells().len() as u32 {
        assert_state(rt, frame, whole, cell);
    }
}

/// The frame after a frame that isn't the last, worked out whole.
fn whole_after(rt: &impl Abort, alloc: Global, frame: &Frame) -> Result<Frame, Fail> {
    assert!(rt; frame.cycle() < 1_000_000);
    assert!(rt; frame.cycle() + 1 < frame.case().cycles());
    Ok(next_frame(alloc, frame)?)
}

/// The frame after a frame that isn't the last, joined from pieces.
fn joined_after(rt: &impl Abort, alloc: Global, plan: &Plan, frame: &Frame) -> Result<Frame, Fail>
    requires { IsPlanOf frame.now.case plan.now }
    ensures { IfOk result (λ next. next.case ≡ frame.now.case) }
{
    assert!(rt; frame.cycle() < 1_000_000);
    assert!(rt; frame.cycle() + 1 < frame.case().cycles());
    Ok(joined_frame(alloc, frame.case(), plan, Some(frame))?)
}

/// The cycles after cycle 0, joined from pieces and worked out whole.
fn assert_cycles(
    rt: &impl Abort,
    alloc: Global,
    plan: &Plan,
    frame: Frame,
    whole: Frame,
) -> Result<(), Fail>
    requires { IsPlanOf frame.case plan.now }
{
    let mut frame = frame;
    let mut whole = whole;
    for _cycle in 1..12 {
        frame = joined_after(rt, alloc, plan, &frame)?;
        whole = whole_after(rt, alloc, &whole)?;
        assert_same(rt, &frame, &whole);
    }
    Ok(())
}

/// All cycles, in so many parts.
fn assert_parts(rt: &impl Abort, alloc: Global, case: &Arc<Case>, parts: u32) -> Result<(), Fail>
    requires some { 1 ≤ parts }
    requires few { parts ≤ 64 }
{
    let plan = plan(alloc, case, parts)?;
    let frame = joined_frame(alloc, case, &plan, None)?;
    let whole = first_frame(alloc, case)?;
    assert_same(rt, &frame, &whole);
    assert_cycles(rt, alloc, &plan, frame, whole)
}

/// Numbers of parts: one, some that split the cells, and more than there are cells.
const PARTS: [u32; 4] = [1, 2, 3, 64];

#[test]
fn parts_join_to_whole_frames(rt: HostRuntime) -> Result<(), Fail> {
    let alloc = rt.alloc();
    let case = example_case(&rt, alloc)?;
    for parts in PARTS {
        assert!(&rt; 1 <= parts && parts <= 64);
        assert_parts(&rt, alloc, &case, parts)?;
    }
    Ok(())
}
