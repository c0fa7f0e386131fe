// Worked examples: what cells with state store in cycle 1, by what is read in cycle 0. Words have the highest bit first.

use cif_cells::Netlist;
use cif_json::read_netlist;
use cif_level::levels;
use cif_seq::{Case, Frame, first_frame, next_frame};
use cif_stim::read_stimulus;
use std::alloc::Global;
use std::process::Abort;
use std::sync::Arc;
use std::test::Fail;

/// A register of two bits with an enable.
const REGISTER: &str = r#"{"modules":{"m":{"ports":{
 "clk":{"direction":"input","bits":[2]},
 "d":{"direction":"input","bits":[3,4]},
 "en":{"direction":"input","bits":[5]}},
"cells":{"c":{"type":"$dffe","parameters":{"CLK_POLARITY":"1","EN_POLARITY":"1","WIDTH":"10"},
 "connections":{"CLK":[2],"D":[3,4],"EN":[5],"Q":[6,7]}}}}}}"#;

/// A memory of 4 words of 2 bits, all 0, which is read at the address at which it is written.
const MEMORY: &str = r#"{"modules":{"m":{"ports":{
 "clk":{"direction":"input","bits":[2]},
 "wa":{"direction":"input","bits":[3,4]},
 "wd":{"direction":"input","bits":[5,6]},
 "we":{"direction":"input","bits":[7,8]}},
"cells":{"c":{"type":"$mem_v2",
 "parameters":{"ABITS":"10","INIT":"x","OFFSET":"0","RD_CLK_ENABLE":"0","RD_PORTS":"1","RD_WIDE_CONTINUATION":"0",
  "SIZE":"100","WIDTH":"10","WR_CLK_ENABLE":"1","WR_CLK_POLARITY":"1","WR_PORTS":"1","WR_WIDE_CONTINUATION":"0"},
 "connections":{"RD_ADDR":[3,4],"RD_CLK":["x"],"RD_DATA":[9,10],
  "WR_ADDR":[3,4],"WR_CLK":[2],"WR_DATA":[5,6],"WR_EN":[7,8]}}}}}}"#;

/// A module with the one cell `c`, the lines of cycle 0, and what the cell stores in cycle 1.
#[derive(Clone, Copy)]
struct Row {
    name: &'static str,
    net: &'static str,
    lines: &'static str,
    /// How many cells the levels have.
    passing: usize,
    value: &'static str,
    /// Its taint, with that by the flag.
    taint: &'static str,
    stored_taint: &'static str,
    flag: bool,
}

const ROWS: [Row; 4] = [
    Row {
        name: "enable-tainted, where D differs",
        net: REGISTER,
        lines: "reg c 01\n@ 0\nset d 11\nset en 0 1\n",
        passing: 0,
        value: "01",
        taint: "10",
        stored_taint: "10",
        flag: false,
    },
    Row {
        name: "enable-tainted, where D is what is stored",
        net: REGISTER,
        lines: "reg c 01\n@ 0\nset d 01\nset en 0 1\n",
        passing: 0,
        value: "01",
        taint: "00",
        stored_taint: "00",
        flag: false,
    },
    Row {
        name: "tainted-address-write",
        net: MEMORY,
        lines: "@ 0\nset wa 01 01\nset wd 11\nset we 11\n",
        passing: 1,
        value: "00001100",
        taint: "11111111",
        stored_taint: "00000000",
        flag: true,
    },
    Row {
        name: "tainted-address-write, where no enable is set",
        net: MEMORY,
        lines: "@ 0\nset wa 01 01\nset wd 11\nset we 00\n",
        passing: 1,
        value: "00000000",
        taint: "00000000",
        stored_taint: "00000000",
        flag: false,
    },
];

/// The case of a row.
fn case_of(rt: &impl Abort, alloc: Global, row: &Row) -> Result<Case, Fail> {
    let module = read_netlist(alloc, row.net.as_bytes()).expect(rt, "the text is refused");
    let netlist = Netlist::build(alloc, module).expect(rt, "the module is refused");
    let levels = levels(alloc, &netlist).expect(rt, "a loop");
    assert_eq!(rt; levels.items().len(), row.passing, "{}", row.name);
    let text = format!(in alloc; "cellift-stimulus 1\ncycles 2\n{}", row.lines)?;
    let stimulus = read_stimulus(alloc, &netlist, text.as_bytes())?;
    Ok(Case::new(alloc, netlist, levels, stimulus)?)
}

/// Frame 1 of a row's case.
fn second_frame(rt: &impl Abort, alloc: Global, row: &Row) -> Result<Frame, Fail> {
    let case = Arc::new(alloc, case_of(rt, alloc, row)?)?;
    let first = first_frame(alloc, &case)?;
    assert_eq!(rt; first.cycle(), 0);
    assert!(rt; first.case().cycles() > 1);
    Ok(next_frame(alloc, &first)?)
}

/// What the cell stores in a frame, as its row says.
fn expect_state(rt: &impl Abort, frame: &Frame, row: &Row) {
    for (index, digit) in row.value.bytes().rev().enumerate() {
        let pair = frame.state(0, index as u64);
        assert_eq!(rt; pair.value, digit == b'1', "{}: bit {index}", row.name);
    }
    for (index, digit) in row.taint.bytes().rev().enumerate() {
        let pair = frame.state(0, index as u64);
        assert_eq!(rt; pair.taint, digit == b'1', "{}: taint {index}", row.name);
    }
    for (index, digit) in row.stored_taint.bytes().rev().enumerate() {
        let is_tainted = frame.stored(0, index as u64);
        assert_eq!(rt;
            is_tainted,
            digit == b'1',
            "{}: stored taint {index}",
            row.name
        );
    }
    assert_eq!(rt; frame.flag(0), row.flag, "{}", row.name);
}

#[test]
fn rows(rt: HostRuntime) -> Result<(), Fail> {
    for row in &ROWS {
        let frame = second_frame(&rt, rt.alloc(), row)?;
        expect_state(&rt, &frame, row);
        // the clock, which is net bit 0
        let clock = frame.bit(0);
        assert!(rt; !clock.value && !clock.taint, "{}", row.name);
    }
    Ok(())
}
