// Registers and memories, from cycle to cycle.

use crate::driver::assert_tables;
use std::test::Fail;

const REGISTER: &str = r#"{"modules":{"register":{"ports":{
 "clk":{"direction":"input","bits":[2]},
 "d":{"direction":"input","bits":[3,4]},
 "q":{"direction":"output","bits":[5,6]}},
"cells":{"r":{"type":"$dff","parameters":{"CLK_POLARITY":"1","WIDTH":"10"},
 "connections":{"CLK":[2],"D":[3,4],"Q":[5,6]}}}}}}"#;

const REGISTER_ROWS: &str = r#"
register-three-cycles | - | cellift-stimulus 1\ncycles 3\n@ 0\nset d 01 10\n@ 1\nset d 11\n | cycle 0\nq 00/00\ncycle 1\nq 01/10\ncycle 2\nq 11/00\ndone 3
check-register | - | - | accepted cells 1 bits 5 state 2
"#;

const ENABLED: &str = r#"{"modules":{"m":{"ports":{
 "clk":{"direction":"input","bits":[2]},
 "d":{"direction":"input","bits":[3,4]},
 "en":{"direction":"input","bits":[5]},
 "q":{"direction":"output","bits":[6,7]}},
"cells":{"r":{"type":"$dffe","parameters":{"CLK_POLARITY":"1","EN_POLARITY":"1","WIDTH":"10"},
 "connections":{"CLK":[2],"D":[3,4],"EN":[5],"Q":[6,7]}}}}}}"#;

const ENABLED_ROWS: &str = r#"
enable-tainted, equal words | - | cellift-stimulus 1\ncycles 2\nreg r 01\n@ 0\nset d 01\nset en 0 1\n | cycle 0\nq 01/00\ncycle 1\nq 01/00\ndone 2
enable-tainted | - | cellift-stimulus 1\ncycles 2\nreg r 01\n@ 0\nset d 11\nset en 0 1\n | cycle 0\nq 01/00\ncycle 1\nq 01/10\ndone 2
"#;

pub const ASYNCHRONOUS: &str = r#"{"modules":{"m":{"ports":{
 "clk":{"direction":"input","bits":[2]},
 "d":{"direction":"input","bits":[3,4]},
 "q":{"direction":"output","bits":[6,7]},
 "rst":{"direction":"input","bits":[5]}},
"cells":{"r":{"type":"$adff","parameters":{"CLK_POLARITY":"1","ARST_POLARITY":"1","ARST_VALUE":"10","WIDTH":"10"},
 "connections":{"CLK":[2],"D":[3,4],"ARST":[5],"Q":[6,7]}}}}}}"#;

pub const ASYNCHRONOUS_ROWS: &str = r#"
async-reset | - | cellift-stimulus 1\ncycles 5\n@ 0\nset d 11\n@ 1\nset rst 1\n@ 2\nset rst 0 1\n@ 3\nset rst 0\n@ 4\nset rst 0 1\n | cycle 0\nq 00/00\ncycle 1\nq 10/00\ncycle 2\nq 10/00\ncycle 3\nq 11/01\ncycle 4\nq 11/01\ndone 5
"#;

/// A memory of four words of two bits, with a read port, an unclocked one, and a write port.
pub const MEMORY: &str = r#"{"modules":{"m":{"ports":{
 "clk":{"direction":"input","bits":[2]},
 "ra":{"direction":"input","bits":[3,4]},
 "rd":{"direction":"output","bits":[5,6]},
 "wa":{"direction":"input","bits":[7,8]},
 "wd":{"direction":"input","bits":[9,10]},
 "we":{"direction":"input","bits":[11,12]}},
"cells":{"c":{"type":"$mem_v2",
 "parameters":{"ABITS":"10","INIT":"x","OFFSET":"0","RD_CLK_ENABLE":"0","RD_PORTS":"1","RD_WIDE_CONTINUATION":"0",
  "SIZE":"100","WIDTH":"10","WR_CLK_ENABLE":"1","WR_CLK_POLARITY":"1","WR_PORTS":"1","WR_WIDE_CONTINUATION":"0"},
 "connections":{"RD_ADDR":[3,4],"RD_CLK":["x"],"RD_DATA":[5,6],
  "WR_ADDR":[7,8],"WR_CLK":[2],"WR_DATA":[9,10],"WR_EN":[11,12]}}}}}}"#;

const MEMORY_ROWS: &str = r#"
tainted-address-write | - | cellift-stimulus 1\ncycles 3\n@ 0\nset wa 01 01\nset wd 11\nset we 11\nset ra 11\n@ 1\nset we 00\n@ 2\nset ra 01\n | cycle 0\nrd 00/00\ncycle 1\nrd 00/11\ncycle 2\nrd 11/11\ndone 3
tainted-address-write, not enabled | - | cellift-stimulus 1\ncycles 3\n@ 0\nset wa 01 01\nset wd 11\nset we 00\nset ra 11\n@ 2\nset ra 01\n | cycle 0\nrd 00/00\ncycle 1\nrd 00/00\ncycle 2\nrd 00/00\ndone 3
a memory's word from a stimulus | - | cellift-stimulus 1\ncycles 2\nmem c 2 10 01\n@ 0\nset ra 10\n@ 1\nset ra 10 01\n | cycle 0\nrd 10/01\ncycle 1\nrd 10/11\ndone 2
a memory's word past its last | - | cellift-stimulus 1\ncycles 2\nmem c 4 10\n | refused 46: address at line 3
x-operand, at a clock that isn't read | - | - | accepted cells 1 bits 11 state 8
"#;

/// A register of one bit, to whose output two names give initial digits.
const INITIAL: &str = r#"{"modules":{"m":{"ports":{
 "clk":{"direction":"input","bits":[2]},
 "d":{"direction":"input","bits":[3]},
 "q":{"direction":"output","bits":[4]}},
"cells":{"r":{"type":"$dff","parameters":{"CLK_POLARITY":"1","WIDTH":"1"},"connections":{"CLK":[2],"D":[3],"Q":[4]}}},
"netnames":{"a":{"bits":[4],"attributes":{"init":"0"}},"b":{"bits":[4],"attributes":{"init":"x"}}}}}}"#;

const INITIAL_ROWS: &str = r#"
two initial digits 0 | "init":"x" => "init":"0" | cellift-stimulus 1\ncycles 1\n | cycle 0\nq 0/0\ndone 1
two initial digits 1 | "init":"0" => "init":"1" & "init":"x" => "init":"1" | cellift-stimulus 1\ncycles 1\n | cycle 0\nq 1/0\ndone 1
an initial digit 0 and an x | - | cellift-stimulus 1\ncycles 1\n | cycle 0\nq 0/0\ndone 1
init-conflict, 0 and 1 | "init":"x" => "init":"1" | - | refused 22: two initial values for bit 4
init-conflict, 1 and 0 | "init":"0" => "init":"1" & "init":"x" => "init":"0" | - | refused 22: two initial values for bit 4
"#;

const CODED: &str = r#"{"modules":{"m":{"ports":{"a b":{"direction":"output","bits":["1"]}}}}}"#;

const CODED_ROWS: &str = r#"
coded-name | - | cellift-stimulus 1\ncycles 1\n | cycle 0\na%20b 1/0\ndone 1
"#;

#[test]
fn from_cycle_to_cycle(rt: HostRuntime) -> Result<(), Fail> {
    let tables = [
        (REGISTER, REGISTER_ROWS),
        (ENABLED, ENABLED_ROWS),
        (ASYNCHRONOUS, ASYNCHRONOUS_ROWS),
        (MEMORY, MEMORY_ROWS),
        (INITIAL, INITIAL_ROWS),
        (CODED, CODED_ROWS),
    ];
    assert_tables(&rt, rt.alloc(), "", &tables)
}
