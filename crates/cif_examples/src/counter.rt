// The counter: a register of four bits with enable and reset, and the sum of it and 1, as Yosys writes it.

use crate::driver::assert_tables;
use std::test::Fail;

pub const COUNTER: &str = r#"{"creator":"Yosys","modules":{"counter":{
"attributes":{"top":"00000000000000000000000000000001","src":"c.v:1.1-9.10"},
"ports":{"clk":{"direction":"input","bits":[2]},
 "rst":{"direction":"input","bits":[3]},
 "en":{"direction":"input","bits":[4]},
 "q":{"direction":"output","bits":[5,6,7,8]}},
"cells":{
"$add$c.v:7$2":{"hide_name":1,"type":"$add",
 "parameters":{"A_SIGNED":"00000000000000000000000000000000","A_WIDTH":"00000000000000000000000000000100","B_SIGNED":"00000000000000000000000000000000",
  "B_WIDTH":"00000000000000000000000000000001","Y_WIDTH":"00000000000000000000000000000100"},
 "attributes":{"src":"c.v:7.12-7.17"},
 "port_directions":{"A":"input","B":"input","Y":"output"},
 "connections":{"A":[5,6,7,8],"B":["1"],"Y":[9,10,11,12]}},
"$procdff$4":{"hide_name":1,"type":"$sdffe",
 "parameters":{"CLK_POLARITY":"00000000000000000000000000000001","EN_POLARITY":"00000000000000000000000000000001",
  "SRST_POLARITY":"00000000000000000000000000000001","SRST_VALUE":"0000","WIDTH":"00000000000000000000000000000100"},
 "attributes":{"src":"c.v:5.3-8.6"},
 "port_directions":{"CLK":"input","D":"input","EN":"input",
  "Q":"output","SRST":"input"},
 "connections":{"CLK":[2],"D":[9,10,11,12],"EN":[4],
  "Q":[5,6,7,8],"SRST":[3]}},
"u0":{"hide_name":0,"type":"$scopeinfo","parameters":{"TYPE":"module"},
 "attributes":{},"port_directions":{},"connections":{}}},
"netnames":{"clk":{"hide_name":0,"bits":[2],"attributes":{}},
 "en":{"hide_name":0,"bits":[4],"attributes":{}},
 "q":{"hide_name":0,"bits":[5,6,7,8],"attributes":{"init":"0000"}},
 "rst":{"hide_name":0,"bits":[3],"attributes":{}}}}}}"#;

/// The run that differs differs from the counter's in cycle 3 in bit 0 and in cycle 4 in bits 0 to 2, which are the
/// tainted ones.
const EVALUATED: &str = r#"
counter | - | cellift-stimulus 1\ncycles 5\n@ 0\nset en 1\n@ 2\nset en 1 1\n@ 3\nset en 1\n | cycle 0\nq 0000/0000\ncycle 1\nq 0001/0000\ncycle 2\nq 0010/0000\ncycle 3\nq 0011/0001\ncycle 4\nq 0100/0111\ndone 5
differing-run | - | cellift-stimulus 1\ncycles 5\n@ 0\nset en 1\n@ 2\nset en 0 1\n@ 3\nset en 1\n | cycle 0\nq 0000/0000\ncycle 1\nq 0001/0000\ncycle 2\nq 0010/0000\ncycle 3\nq 0010/0001\ncycle 4\nq 0011/0111\ndone 5
released | - | cellift-stimulus 2\ncycles 5\nrelease q\n@ 0\nset en 1\n@ 2\nset en 1 1\n@ 3\nset en 1\n | cycle 0\nq 0000/0000\ncycle 1\nq 0001/0000\ncycle 2\nq 0010/0000\ncycle 3\nq 0011/0000\ncycle 4\nq 0100/0000\ndone 5
released, the enable | - | cellift-stimulus 2\ncycles 5\nrelease en\n@ 0\nset en 1\n@ 2\nset en 1 1\n@ 3\nset en 1\n | cycle 0\nq 0000/0000\ncycle 1\nq 0001/0000\ncycle 2\nq 0010/0000\ncycle 3\nq 0011/0000\ncycle 4\nq 0100/0000\ndone 5
released, both | - | cellift-stimulus 2\ncycles 5\nrelease q\nrelease en\n | cycle 0\nq 0000/0000\ncycle 1\nq 0000/0000\ncycle 2\nq 0000/0000\ncycle 3\nq 0000/0000\ncycle 4\nq 0000/0000\ndone 5
stimulus-cuts, 27 bytes | - | cellift-stimulus 1\ncycles 5 | cycle 0\nq 0000/0000\ncycle 1\nq 0000/0000\ncycle 2\nq 0000/0000\ncycle 3\nq 0000/0000\ncycle 4\nq 0000/0000\ndone 5
stimulus-cuts, 40 bytes | - | cellift-stimulus 1\ncycles 5\n@ 0\nset en 1 | cycle 0\nq 0000/0000\ncycle 1\nq 0001/0000\ncycle 2\nq 0010/0000\ncycle 3\nq 0011/0000\ncycle 4\nq 0100/0000\ndone 5
"#;

const REFUSED: &str = r#"
counter-stimuli-refused, 43 | - | cellift-stimulus 1\ncycles 0\n@ 0\nset en 1\n | refused 43: no cycles
counter-stimuli-refused, 44 | - | cellift-stimulus 1\ncycles 1000001\n@ 0\nset en 1\n | refused 44: too many cycles
counter-stimuli-refused, 42 | - | cellift-stimulus 1\ncycles 5\n@ 0\nset en 11\n | refused 42: width at line 4
counter-stimuli-refused, 41 | - | cellift-stimulus 1\ncycles 5\n@ 0\nset clk 1\n | refused 41: name at line 4
counter-stimuli-refused, 45 | - | cellift-stimulus 1\ncycles 5\n@ 0\nset en 1\nset en 1\n | refused 45: set again at line 5
release-refusals, 41 | - | cellift-stimulus 2\ncycles 5\nrelease nosuch\n | refused 41: name at line 3
release-refusals, 45 | - | cellift-stimulus 2\ncycles 5\nrelease q\nrelease q\n | refused 45: set again at line 4
a release of the clock, which isn't two-valued | - | cellift-stimulus 2\ncycles 5\nrelease clk\n | refused 41: name at line 3
a release in version 1 | - | cellift-stimulus 1\ncycles 5\nrelease q\n | refused 40: line 3
stimulus-cuts, 17 bytes | - | cellift-stimulus\s | refused 40: line 1
stimulus-cuts, 18 bytes | - | cellift-stimulus 1 | refused 43: no cycles
stimulus-cuts, 26 bytes | - | cellift-stimulus 1\ncycles\s | refused 40: line 2
stimulus-cuts, 30 bytes | - | cellift-stimulus 1\ncycles 5\n@\s | refused 40: line 3
stimulus-cuts, 39 bytes | - | cellift-stimulus 1\ncycles 5\n@ 0\nset en\s | refused 40: line 4
"#;

/// A line of no form, a wrong coding or a wrong number is refused, and lines that are passed over are counted.
const FIRST_LINES: &str = r#"
a line end | - | \n | refused 43: no cycles
lines that are passed over | - | \n  \n# none | refused 43: no cycles
no version | - | cellift-stimulus | refused 40: line 1
version 0 | - | cellift-stimulus 0\ncycles 1 | refused 40: line 1
version 3 | - | cellift-stimulus 3\ncycles 1 | refused 40: line 1
version 01 | - | cellift-stimulus 01\ncycles 1 | refused 40: line 1
two versions | - | cellift-stimulus 1 1\ncycles 1 | refused 40: line 1
another format | - | cellift-sessions 1\ncycles 1 | refused 40: line 1
a remark that begins later | - | \s# none\ncellift-stimulus 1\ncycles 1 | refused 40: line 1
spaces and remarks | - | # one\n\n   \n  cellift-stimulus   2  \n#\n cycles  1\s | cycle 0\nq 0000/0000\ndone 1
no version, on the second line | - | \ncycles 1 | refused 40: line 2
the file ends before the cycles | - | cellift-stimulus 1\n\n# | refused 43: no cycles
no number of cycles | - | cellift-stimulus 1\ncycles | refused 40: line 2
two numbers of cycles | - | cellift-stimulus 1\ncycles 1 1 | refused 40: line 2
another word than cycles | - | cellift-stimulus 1\ncycle 1 | refused 40: line 2
cycles 01 | - | cellift-stimulus 1\ncycles 01 | refused 40: line 2
cycles +1 | - | cellift-stimulus 1\ncycles +1 | refused 40: line 2
cycles 1x | - | cellift-stimulus 1\n\ncycles 1x | refused 40: line 3
cycles 1 | - | cellift-stimulus 1\ncycles 1 | cycle 0\nq 0000/0000\ndone 1
cycles 1000001 | - | cellift-stimulus 1\ncycles 1000001 | refused 44: too many cycles
the last number | - | cellift-stimulus 1\ncycles 18446744073709551615 | refused 44: too many cycles
past the last number | - | cellift-stimulus 1\ncycles 18446744073709551616 | refused 40: line 2
a carriage return | - | cellift-stimulus 2\ncycles 1\r\n | refused 40: line 2
"#;

#[test]
fn counter(rt: HostRuntime) -> Result<(), Fail> {
    let tables = [
        (COUNTER, EVALUATED),
        (COUNTER, REFUSED),
        (COUNTER, FIRST_LINES),
    ];
    assert_tables(&rt, rt.alloc(), "", &tables)
}
