// What a stimulus that is made by calls gives.

use crate::made::with_each_line;
use cif_cells::{Found, Netlist};
use cif_json::read_netlist;
use cif_stimulus::{Pair, Stimulus};
use std::alloc::Global;
use std::process::Abort;
use std::test::Fail;

/// A register `r` and a memory `m`, whose rows stand at addresses 5 to 7, each of two bits, and the input ports `clk` and `d`.
/// The net bits are those of the clock, of `d`, of the register and of the read port, in this order; `w` is a 1 and the
/// register's bits.
pub const NETLIST: &str = r#"{"modules":{"m":{"ports":{
 "clk":{"direction":"input","bits":[2]},
 "d":{"direction":"input","bits":[3,4]}},
"cells":{
 "m":{"type":"$mem_v2","parameters":{"ABITS":3,"INIT":"111111","OFFSET":5,"RD_CLK_ENABLE":"0","RD_PORTS":1,
  "RD_WIDE_CONTINUATION":"0","SIZE":3,"WIDTH":2,"WR_CLK_ENABLE":"1","WR_CLK_POLARITY":"1","WR_PORTS":1,
  "WR_WIDE_CONTINUATION":"0"},
  "connections":{"RD_ADDR":[3,4,"1"],"RD_DATA":[7,8],"WR_ADDR":[3,4,"1"],"WR_CLK":[2],"WR_DATA":[5,6],"WR_EN":[3,3]}},
 "r":{"type":"$dff","parameters":{"CLK_POLARITY":1,"WIDTH":2},"connections":{"CLK":[2],"D":[3,4],"Q":[5,6]}}},
"netnames":{"w":{"bits":["1",5,6]}}}}}"#;

/// The netlist of a text.
pub fn netlist_of(rt: &impl Abort, alloc: Global, text: &str) -> Netlist {
    let module = read_netlist(alloc, text.as_bytes()).expect(rt, "the text is refused");
    Netlist::build(alloc, module).expect(rt, "the module is refused")
}

/// The stimulus with a line of each sort.
pub fn stimulus(rt: &impl Abort, alloc: Global, netlist: &Netlist) -> Result<Stimulus, Fail> {
    match netlist.find(b"w") {
        Found::Wire(wire) => Ok(with_each_line(alloc, wire)?),
        Found::NotTwoValued | Found::Missing => panic!(rt; "no wire"),
    }
}

/// A bit and its taint, each as a digit.
fn pair(value: u8, taint: u8) -> Pair {
    Pair {
        value: value == 1,
        taint: taint == 1,
    }
}

/// What bit `index` of `d`, the input port 1, holds at a cycle: the index, the cycle, the value and the taint.
const INPUTS: [(u32, u64, u8, u8); 5] = [
    (0, 0, 0, 0),
    (0, 1, 1, 1),
    (1, 1, 1, 0),
    (1, 2, 1, 0),
    (2, 2, 0, 0),
];

#[test]
fn inputs(rt: HostRuntime) -> Result<(), Fail> {
    let alloc = rt.alloc();
    let netlist = netlist_of(&rt, alloc, NETLIST);
    let stimulus = stimulus(&rt, alloc, &netlist)?;
    assert_eq!(rt; netlist.inputs().len(), 2);
    for (index, cycle, value, taint) in INPUTS {
        let given = stimulus.input(&netlist, 1, index, cycle);
        assert_eq!(rt; given, pair(value, taint), "bit {index} at {cycle}");
    }
    Ok(())
}

/// What a bit of a cell starts with, where the cells are the memory and the register: the cell, the index, the value and the
/// taint. Rows of the memory that no line gives have the bits of `INIT`.
const STARTS: [(u32, u64, u8, u8); 7] = [
    (0, 0, 1, 0),
    (0, 1, 0, 1),
    (0, 2, 1, 0),
    (0, 6, 0, 0),
    (1, 0, 0, 1),
    (1, 1, 1, 0),
    (1, 2, 0, 0),
];

#[test]
fn starts(rt: HostRuntime) -> Result<(), Fail> {
    let alloc = rt.alloc();
    let netlist = netlist_of(&rt, alloc, NETLIST);
    let stimulus = stimulus(&rt, alloc, &netlist)?;
    assert_eq!(rt; netlist.cells().len(), 2);
    for (cell, index, value, taint) in STARTS {
        let given = stimulus.start(&netlist, cell, index);
        assert_eq!(rt; given, pair(value, taint), "bit {index} of {cell}");
    }
    Ok(())
}

/// Which net bits are released: those of the register.
const RELEASED: [(u32, bool); 4] = [(2, false), (3, true), (4, true), (5, false)];

#[test]
fn releases(rt: HostRuntime) -> Result<(), Fail> {
    let alloc = rt.alloc();
    let netlist = netlist_of(&rt, alloc, NETLIST);
    let stimulus = stimulus(&rt, alloc, &netlist)?;
    for (bit, is_released) in RELEASED {
        assert_eq!(rt; stimulus.released(bit), is_released, "net bit {bit}");
    }
    Ok(())
}

/// Edits of the netlist, each of which takes away what one of the lines names: the port, the register, the row of the memory, and
/// a bit of the released wire.
const EDITS: [(&str, &str); 4] = [
    (r#""d":{"#, r#""e":{"#),
    (r#""r":{"#, r#""s":{"#),
    (r#""OFFSET":5"#, r#""OFFSET":6"#),
    (r#"["1",5,6]"#, r#"["1",5]"#),
];

#[test]
fn fits(rt: HostRuntime) -> Result<(), Fail> {
    let alloc = rt.alloc();
    let stimulus = stimulus(&rt, alloc, &netlist_of(&rt, alloc, NETLIST))?;
    for (old, new) in EDITS {
        let text = NETLIST.replace(alloc, old, new)?;
        let other = netlist_of(&rt, alloc, &text);
        assert!(rt; !stimulus.fits(&other), "{new}");
    }
    Ok(())
}
