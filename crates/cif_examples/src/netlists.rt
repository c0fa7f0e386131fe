// Netlists that are accepted and refused.

use crate::counter::COUNTER;
use crate::driver::assert_tables;
use std::test::Fail;

/// Whole netlists.
const TEXTS: &str = r#"
not-json | NET => {"modules":{"m": | - | refused 1: not JSON
not-json, an empty file | NET =>  | - | refused 1: not JSON
not-json, no modules | NET => {"modules":{}} | - | refused 2: no modules
shape-and-top | NET => {"modules":{"m":{"ports":{"a":{"direction":"in","bits":[2]}}}}} | - | refused 4: shape at modules/m/ports/a/direction
shape-and-top, no top | NET => {"modules":{"m":{},"n":{}}} | - | refused 3: no top module
a module that is no object | NET => {"modules":{"m":3}} | - | refused 4: shape at modules/m
such a module is never marked | NET => {"modules":{"m":3,"n":{"attributes":{"top":"01"}}}} | - | accepted cells 0 bits 0 state 0
no whole number and 0 mark nothing | NET => {"modules":{"m":{"attributes":{"top":1.0}},"n":{"attributes":{"top":0}}}} | - | refused 3: no top module
a bit 2.0 | NET => {"modules":{"m":{"netnames":{"w":{"bits":[2.0]}}}}} | - | refused 4: shape at modules/m/netnames/w/bits
a bit past the last | NET => {"modules":{"m":{"netnames":{"w":{"bits":[1,4294967296]}}}}} | - | refused 4: shape at modules/m/netnames/w/bits
a parameter 1e0 | NET => {"modules":{"m":{"cells":{"c":{"type":"$not","parameters":{"P":1e0}}}}}} | - | refused 4: shape at modules/m/cells/c/parameters/P
a port without direction | NET => {"modules":{"m":{"ports":{"a":{"bits":[]}}}}} | - | refused 4: shape at modules/m/ports/a/direction
a cell without type | NET => {"modules":{"m":{"cells":{"c":{}}}}} | - | refused 4: shape at modules/m/cells/c/type
attributes before ports | NET => {"modules":{"m":{"ports":{"b":1,"a":1},"attributes":[]}}} | - | refused 4: shape at modules/m/attributes
ports in the order of names | NET => {"modules":{"m":{"ports":{"b":1,"a":1}}}} | - | refused 4: shape at modules/m/ports/a
empty names | NET => {"modules":{"":{"cells":{"":{"type":1}}}}} | - | refused 4: shape at modules//cells//type
unsupported-kind | NET => {"modules":{"m":{"cells":{"m1":{"type":"$macc"}}}}} | - | refused 10: cell m1 kind $macc
"#;

const COUNTER_ROWS: &str = r#"
counter | - | - | accepted cells 3 bits 11 state 4
"#;

const NOT: &str = r#"{"modules":{"m":{"ports":{
 "a":{"direction":"input","bits":[2]},
 "y":{"direction":"output","bits":[7]}},"cells":{
 "n1":{"type":"$not","parameters":{"A_SIGNED":"0","A_WIDTH":"1","Y_WIDTH":"1"},"connections":{"A":[2],"Y":[7]}}}}}}"#;

const NOT_ROWS: &str = r#"
a port that is missing | "A":[2], =>  | - | refused 11: no port A at cell n1
another width | "A":[2] => "A":[2,2] | - | refused 12: width at cell n1 port A
a width that is no number | "Y_WIDTH":"1" => "Y_WIDTH":"x" | - | refused 14: parameter Y_WIDTH at cell n1
an x that is shown | "output","bits":[7] => "output","bits":[7,"x"] | - | refused 15: x at output port y bit 1
drivers, none | "A":[2] => "A":[9] | - | refused 17: bit 9 has no driver
a constant that is driven | "Y":[7] => "Y":["0"] | - | refused 18: constant at cell n1 port Y bit 0
a constant that is an input | "input","bits":[2] => "input","bits":[2,"1"] | - | refused 18: constant at input port a bit 1
a port of both directions | "input" => "inout" | - | refused 21: inout port a
a port without bits | "input","bits":[2] => "input","bits":[] | - | refused 26: no bits at port a
a width of 0 | "A_WIDTH":"1" => "A_WIDTH":"0" | - | refused 26: no bits at cell n1 port A
a bit of two inputs | "input","bits":[2] => "input","bits":[2,2] | - | refused 29: bit 2 on two inputs
a parameter before a port | "A_WIDTH":"1" => "A_WIDTH":"" & "A":[2], =>  | - | refused 14: parameter A_WIDTH at cell n1
not-rings, one | "A":[2] => "A":[7] | - | refused 30: loop n1
"#;

const OR_OF_X: &str =
    r#"{"modules":{"m":{"ports":{"a":{"direction":"input","bits":[2,3,4]}},"cells":{
 "o1":{"type":"$or",
  "parameters":{"A_SIGNED":"0","A_WIDTH":"11","B_SIGNED":"0","B_WIDTH":"11","Y_WIDTH":"11"},
  "connections":{"A":[2,3,4],"B":["0","1","x"],"Y":[5,6,7]}}}}}}"#;

const OR_OF_X_ROWS: &str = r#"
x-operand | - | - | refused 15: x at cell o1 port B bit 2
x-operand-and | $or => $and | - | refused 15: x at cell o1 port B bit 2
"#;

/// Two cells `$not`, n1 and n2, that read the input and drive 7 and 8.
const TWO_NOTS: &str = r#"{"modules":{"m":{"ports":{"a":{"direction":"input","bits":[2]}},"cells":{
 "n1":{"type":"$not","parameters":{"A_SIGNED":"0","A_WIDTH":"1","Y_WIDTH":"1"},"connections":{"A":[2],"Y":[7]}},
 "n2":{"type":"$not","parameters":{"A_SIGNED":"0","A_WIDTH":"1","Y_WIDTH":"1"},"connections":{"A":[2],"Y":[8]}}}}}}"#;

const TWO_NOTS_ROWS: &str = r#"
drivers, two | "Y":[8] => "Y":[7] | - | refused 16: bit 7 has two drivers
not-rings, two | "A":[2],"Y":[7] => "A":[8],"Y":[7] & "A":[2],"Y":[8] => "A":[7],"Y":[8] | - | refused 30: loop n1 n2
"#;

const TWO_REGISTERS: &str = r#"{"modules":{"m":{"ports":{
 "c":{"direction":"input","bits":[2]},"e":{"direction":"input","bits":[3]},"a":{"direction":"input","bits":[4]}},"cells":{
 "d1":{"type":"$dff","parameters":{"CLK_POLARITY":"1","WIDTH":"1"},"connections":{"CLK":[2],"D":[4],"Q":[5]}},
 "d2":{"type":"$dff","parameters":{"CLK_POLARITY":"1","WIDTH":"1"},"connections":{"CLK":[3],"D":[4],"Q":[6]}}}}}}"#;

const TWO_REGISTERS_ROWS: &str = r#"
clocks, two | - | - | refused 19: second clock at cell d2
"#;

const CLOCK_AS_OPERAND: &str =
    r#"{"modules":{"m":{"ports":{"c":{"direction":"input","bits":[2]}},"cells":{
 "d1":{"type":"$dff","parameters":{"CLK_POLARITY":"1","WIDTH":"1"},"connections":{"CLK":[2],"D":["1"],"Q":[5]}},
 "g1":{"type":"$and",
  "parameters":{"A_SIGNED":"0","A_WIDTH":"1","B_SIGNED":"0","B_WIDTH":"1","Y_WIDTH":"1"},
  "connections":{"A":[2],"B":[5],"Y":[6]}}}}}}"#;

const CLOCK_AS_OPERAND_ROWS: &str = r#"
clocks, as an operand | - | - | refused 20: clock as data at g1
"#;

const TWO_INITS: &str = r#"{"modules":{"m":{"ports":{"c":{"direction":"input","bits":[2]}},"cells":{
 "d1":{"type":"$dff","parameters":{"CLK_POLARITY":"1","WIDTH":"1"},"connections":{"CLK":[2],"D":["1"],"Q":[5]}}},
"netnames":{"p":{"bits":[5],"attributes":{"init":"0"}},"q":{"bits":[5],"attributes":{"init":"1"}}}}}}"#;

const TWO_INITS_ROWS: &str = r#"
init-conflict | - | - | refused 22: two initial values for bit 5
"#;

const NOT_ORDER: &str = r#"{"modules":{"m":{"ports":{"i":{"direction":"input","bits":[2]}},"cells":{
 "a":{"type":"$not","parameters":{"A_SIGNED":"0","A_WIDTH":"1","Y_WIDTH":"1"},"connections":{"A":[4],"Y":[3]}},
 "z":{"type":"$not","parameters":{"A_SIGNED":"0","A_WIDTH":"1","Y_WIDTH":"1"},"connections":{"A":[2],"Y":[4]}}}}}}"#;

const NOT_ORDER_ROWS: &str = r#"
not-order | - | - | accepted cells 2 bits 3 state 0
"#;

/// Of the four cells, b drives a and d, d drives c, and c drives b.
const RING_OF_THREE: &str = r#"{"modules":{"m":{"cells":{
 "a":{"type":"$not","parameters":{"A_SIGNED":"0","A_WIDTH":"1","Y_WIDTH":"1"},"connections":{"A":[3],"Y":[2]}},
 "b":{"type":"$not","parameters":{"A_SIGNED":"0","A_WIDTH":"1","Y_WIDTH":"1"},"connections":{"A":[4],"Y":[3]}},
 "c":{"type":"$not","parameters":{"A_SIGNED":"0","A_WIDTH":"1","Y_WIDTH":"1"},"connections":{"A":[5],"Y":[4]}},
 "d":{"type":"$not","parameters":{"A_SIGNED":"0","A_WIDTH":"1","Y_WIDTH":"1"},"connections":{"A":[3],"Y":[5]}}}}}}"#;

const RING_OF_THREE_ROWS: &str = r#"
a ring from its least name, and a cell beside it | - | - | refused 30: loop b d c
"#;

const ASYNC_RESET_LOOP: &str =
    r#"{"modules":{"m":{"ports":{"clk":{"direction":"input","bits":[2]}},"cells":{
 "f1":{"type":"$adff","parameters":{"CLK_POLARITY":"1","ARST_POLARITY":"1","ARST_VALUE":"1","WIDTH":"1"},
  "connections":{"CLK":[2],"D":["0"],"ARST":[3],"Q":[3]}}}}}}"#;

const ASYNC_RESET_LOOP_ROWS: &str = r#"
async-reset-loop | - | - | refused 30: loop f1
"#;

#[test]
fn netlists(rt: HostRuntime) -> Result<(), Fail> {
    let tables = [
        ("NET", TEXTS),
        (COUNTER, COUNTER_ROWS),
        (NOT, NOT_ROWS),
        (OR_OF_X, OR_OF_X_ROWS),
        (TWO_NOTS, TWO_NOTS_ROWS),
        (TWO_REGISTERS, TWO_REGISTERS_ROWS),
        (CLOCK_AS_OPERAND, CLOCK_AS_OPERAND_ROWS),
        (TWO_INITS, TWO_INITS_ROWS),
        (NOT_ORDER, NOT_ORDER_ROWS),
        (RING_OF_THREE, RING_OF_THREE_ROWS),
        (ASYNC_RESET_LOOP, ASYNC_RESET_LOOP_ROWS),
    ];
    assert_tables(&rt, rt.alloc(), "", &tables)
}
