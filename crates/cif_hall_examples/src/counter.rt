// The case of the scenes.

use cif_cells::Netlist;
use cif_json::read_netlist;
use cif_level::levels;
use cif_seq::Case;
use cif_stim_read::read_stimulus;
use std::alloc::Global;
use std::process::Abort;
use std::test::Fail;

/// A counter of four bits.
const COUNTER: &str = r#"{"modules":{"counter":{
"ports":{"clk":{"direction":"input","bits":[2]},"en":{"direction":"input","bits":[4]},
 "q":{"direction":"output","bits":[5,6,7,8]},"rst":{"direction":"input","bits":[3]}},
"cells":{
"add":{"type":"$add","parameters":{"A_SIGNED":0,"A_WIDTH":4,"B_SIGNED":0,"B_WIDTH":1,"Y_WIDTH":4},
 "connections":{"A":[5,6,7,8],"B":["1"],"Y":[9,10,11,12]}},
"count":{"type":"$sdffe","parameters":{"CLK_POLARITY":1,"EN_POLARITY":1,"SRST_POLARITY":1,"SRST_VALUE":"0000","WIDTH":4},
 "connections":{"CLK":[2],"D":[9,10,11,12],"EN":[4],"Q":[5,6,7,8],"SRST":[3]}}}}}}"#;

/// Its enable is tainted at cycle 2.
const STIMULUS: &str =
    "cellift-stimulus 1\ncycles 5\n@ 0\nset en 1\n@ 2\nset en 1 1\n@ 3\nset en 1\n";

/// The counter over five cycles.
pub fn counter_case(rt: &impl Abort, alloc: Global) -> Result<Case, Fail> {
    let module = read_netlist(alloc, COUNTER.as_bytes())?;
    let netlist = Netlist::build(alloc, module)?;
    let order = levels(alloc, &netlist).expect(rt, "a loop");
    let stimulus = read_stimulus(alloc, &netlist, STIMULUS.as_bytes())?;
    Ok(Case::new(alloc, netlist, order, stimulus)?)
}
