// Two hundred cycles, each worked out from the one before, beside frames from nothing.

use crate::drawn::drawn_stimulus;
use crate::fresh::fresh_text;
use crate::netlist::NETLIST;
use cif_cells::Netlist;
use cif_json::read_netlist;
use cif_level::levels;
use cif_seq::{Case, Frame, first_frame, next_frame};
use cif_stim_read::read_stimulus;
use std::alloc::Global;
use std::process::Abort;
use std::sync::Arc;
use std::test::Fail;

/// The case of the netlist and the text of a stimulus.
fn case_of(rt: &impl Abort, alloc: Global, text: &[u8]) -> Result<Arc<Case>, Fail> {
    let module = read_netlist(alloc, NETLIST.as_bytes()).expect(rt, "the text is refused");
    let netlist = Netlist::build(alloc, module).expect(rt, "the module is refused");
    let levels = levels(alloc, &netlist).expect(rt, "a loop");
    let stimulus = read_stimulus(alloc, &netlist, text)?;
    let case = Case::new(alloc, netlist, levels, stimulus)?;
    Ok(Arc::new(alloc, case)?)
}

/// The next frame of a frame that isn't the last.
fn frame_after(rt: &impl Abort, alloc: Global, frame: &Frame) -> Result<Frame, Fail> {
    assert!(rt; frame.cycle() < 1_000_000);
    assert!(rt; frame.cycle() + 1 < frame.case().cycles());
    Ok(next_frame(alloc, frame)?)
}

/// Each net bit of a frame has the value and the taint that it has in a frame from nothing.
fn assert_bits(rt: &impl Abort, frame: &Frame, fresh: &Frame) {
    for net in 0..frame.case().netlist().bits() {
        assert_eq!(rt;
            frame.bit(net),
            fresh.bit(net),
            "cycle {}, net bit {net}",
            frame.cycle()
        );
    }
}

/// Most bits that a cell stores. Bits past the last one are 0.
const STORED: u64 = 12;

/// What a cell stores in the frame after a frame is what it stores in one after a frame from nothing, which has no flags:
/// where the flag is set all bits are tainted.
fn assert_state(rt: &impl Abort, frame: &Frame, next: &Frame, fresh: &Frame, cell: u32) {
    let flag = frame.flag(cell);
    for index in 0..STORED {
        let given = next.state(cell, index);
        let wanted = fresh.state(cell, index);
        assert_eq!(rt;
            given.value,
            wanted.value,
            "cycle {}, cell {cell}, bit {index}",
            next.cycle()
        );
        assert_eq!(rt;
            given.taint,
            wanted.taint | flag,
            "cycle {}, cell {cell}, taint {index}",
            next.cycle()
        );
    }
    assert_eq!(rt;
        next.flag(cell),
        fresh.flag(cell) | flag,
        "cycle {}, cell {cell}",
        next.cycle()
    );
}

/// A frame shows what a frame from nothing shows, and the frame after it stores what the one after that stores.
fn assert_fresh(rt: &impl Abort, alloc: Global, frame: &Frame, next: &Frame) -> Result<(), Fail> {
    let text = fresh_text(alloc, frame)?;
    let case = case_of(rt, alloc, &text)?;
    let fresh = first_frame(alloc, &case)?;
    assert_bits(rt, frame, &fresh);
    let fresh = frame_after(rt, alloc, &fresh)?;
    for cell in 0..frame.case().netlist().cells().len() as u32 {
        assert_state(rt, frame, next, &fresh, cell);
    }
    Ok(())
}

/// Each of cycles 0 to 199.
fn assert_cycles(rt: &impl Abort, alloc: Global, text: &[u8]) -> Result<(), Fail> {
    let case = case_of(rt, alloc, text)?;
    let mut frame = first_frame(alloc, &case)?;
    for _ in 0..200 {
        let next = frame_after(rt, alloc, &frame)?;
        assert_fresh(rt, alloc, &frame, &next)?;
        frame = next;
    }
    Ok(())
}

/// All ports are set in each cycle. The seed is 1.
#[test]
fn all_ports_set(rt: HostRuntime) -> Result<(), Fail> {
    let alloc = rt.alloc();
    let text = drawn_stimulus(alloc, 201, 1, 1)?;
    assert_cycles(&rt, alloc, text.as_bytes())
}

/// About one port in four is set in a cycle. The seed is 2.
#[test]
fn few_ports_set(rt: HostRuntime) -> Result<(), Fail> {
    let alloc = rt.alloc();
    let text = drawn_stimulus(alloc, 201, 2, 4)?;
    assert_cycles(&rt, alloc, text.as_bytes())
}

/// After cycle 0 nothing is set, no enable is active and each reset is.
const STILL: &str = "cellift-stimulus 2\ncycles 201\nrelease freed
@ 0\nset control 0110\nset in0 011 001\nset in1 101\nset in2 010 100\nset in3 111\nset place 100100\n";

#[test]
fn nothing_set(rt: HostRuntime) -> Result<(), Fail> {
    assert_cycles(&rt, rt.alloc(), STILL.as_bytes())
}
