// Single cells whose operands are input ports, each evaluated in one cycle.

use crate::driver::assert_tables;
use std::test::Fail;

/// Two operands of a bit each, and an output of a bit.
const AND: &str = r#"{"modules":{"m":{"ports":{
 "a":{"direction":"input","bits":[2]},
 "b":{"direction":"input","bits":[3]},
 "y":{"direction":"output","bits":[4]}},
"cells":{"g":{"type":"$and","parameters":{"A_SIGNED":"0","B_SIGNED":"0","A_WIDTH":"1","B_WIDTH":"1","Y_WIDTH":"1"},
 "connections":{"A":[2],"B":[3],"Y":[4]}}}}}}"#;

const AND_ROWS: &str = r#"
and-taint | - | set a 0 1\nset b 0\n | cycle 0\ny 0/0\ndone 1
and-taint | - | set a 0 1\nset b 1\n | cycle 0\ny 0/1\ndone 1
"#;

const XOR_OF_ONE_NET: &str = r#"{"modules":{"m":{"ports":{
 "a":{"direction":"input","bits":[2]},
 "y":{"direction":"output","bits":[3]}},
"cells":{"c":{"type":"$xor","parameters":{"A_SIGNED":"0","B_SIGNED":"0","A_WIDTH":"1","B_WIDTH":"1","Y_WIDTH":"1"},
 "connections":{"A":[2],"B":[2],"Y":[3]}}}}}}"#;

const XOR_OF_ONE_NET_ROWS: &str = r#"
same-net-twice | - | set a 0 1\n | cycle 0\ny 0/1\ndone 1
"#;

const REDUCE_AND: &str = r#"{"modules":{"m":{"ports":{
 "a":{"direction":"input","bits":[2,3]},
 "y":{"direction":"output","bits":[4]}},
"cells":{"c":{"type":"$reduce_and","parameters":{"A_SIGNED":"0","A_WIDTH":"10","Y_WIDTH":"1"},
 "connections":{"A":[2,3],"Y":[4]}}}}}}"#;

const REDUCE_AND_ROWS: &str = r#"
reduce-and | - | set a 01 01\n | cycle 0\ny 0/0\ndone 1
reduce-and | - | set a 10 01\n | cycle 0\ny 0/1\ndone 1
"#;

const LOGIC_AND: &str = r#"{"modules":{"m":{"ports":{
 "a":{"direction":"input","bits":[2,3]},
 "b":{"direction":"input","bits":[4,5]},
 "y":{"direction":"output","bits":[6]}},
"cells":{"c":{"type":"$logic_and","parameters":{"A_SIGNED":"0","B_SIGNED":"0","A_WIDTH":"10","B_WIDTH":"10","Y_WIDTH":"1"},
 "connections":{"A":[2,3],"B":[4,5],"Y":[6]}}}}}}"#;

const LOGIC_AND_ROWS: &str = r#"
logic-and | - | set a 01 01\nset b 00 00\n | cycle 0\ny 0/0\ndone 1
logic-and | - | set a 01 01\nset b 10 00\n | cycle 0\ny 1/1\ndone 1
"#;

/// A cell of two operands of four bits each, and of an output of four bits.
const BINARY: &str = r#"{"modules":{"m":{"ports":{
 "a":{"direction":"input","bits":[2,3,4,5]},
 "b":{"direction":"input","bits":[6,7,8,9]},
 "y":{"direction":"output","bits":[10,11,12,13]}},
"cells":{"c":{"type":"$add","parameters":{"A_SIGNED":"0","B_SIGNED":"0","A_WIDTH":"100","B_WIDTH":"100","Y_WIDTH":"100"},
 "connections":{"A":[2,3,4,5],"B":[6,7,8,9],"Y":[10,11,12,13]}}}}}}"#;

const BINARY_ROWS: &str = r#"
add-carry-taint | - | set a 0110 0001\nset b 0001 0000\n | cycle 0\ny 0111/1111\ndone 1
sub-borrow | $add => $sub | set a 0100 0000\nset b 0001 0001\n | cycle 0\ny 0011/0111\ndone 1
less-than-exact | $add => $lt & "Y_WIDTH":"100" => "Y_WIDTH":"1" & [10,11,12,13] => [10] | set a 0100 0011\nset b 1000 0000\n | cycle 0\ny 1/0\ndone 1
signed-less | $add => $lt & "A_SIGNED":"0","B_SIGNED":"0" => "A_SIGNED":"1","B_SIGNED":"1" & "Y_WIDTH":"100" => "Y_WIDTH":"1" & [10,11,12,13] => [10] | set a 1000 1000\nset b 0000 0000\n | cycle 0\ny 1/1\ndone 1
mul-coarse | $add => $mul | set a 0011 1111\nset b 0000 0000\n | cycle 0\ny 0000/0000\ndone 1
mul-coarse | $add => $mul | set a 0011 0010\nset b 0001 0000\n | cycle 0\ny 0011/1110\ndone 1
div-coarse | $add => $div | set a 0111 0000\nset b 0000 0000\n | cycle 0\ny 0000/0000\ndone 1
div-coarse | $add => $div | set a 1000 0011\nset b 0010 0000\n | cycle 0\ny 0100/0001\ndone 1
"#;

const SIGNED_ADD: &str = r#"{"modules":{"m":{"ports":{
 "a":{"direction":"input","bits":[2]},
 "b":{"direction":"input","bits":[3,4]},
 "y":{"direction":"output","bits":[5,6]}},
"cells":{"c":{"type":"$add","parameters":{"A_SIGNED":"1","B_SIGNED":"1","A_WIDTH":"1","B_WIDTH":"10","Y_WIDTH":"10"},
 "connections":{"A":[2],"B":[3,4],"Y":[5,6]}}}}}}"#;

const SIGNED_ADD_ROWS: &str = r#"
signed-split | - | set a 0 1\nset b 01 00\n | cycle 0\ny 01/01\ndone 1
"#;

const ALU: &str = r#"{"modules":{"m":{"ports":{
 "a":{"direction":"input","bits":[2,3,4,5]},
 "b":{"direction":"input","bits":[6,7,8,9]},
 "bi":{"direction":"input","bits":[10]},
 "ci":{"direction":"input","bits":[11]},
 "co":{"direction":"output","bits":[12,13,14,15]},
 "x":{"direction":"output","bits":[16,17,18,19]},
 "y":{"direction":"output","bits":[20,21,22,23]}},
"cells":{"c":{"type":"$alu","parameters":{"A_SIGNED":"0","B_SIGNED":"0","A_WIDTH":"100","B_WIDTH":"100","Y_WIDTH":"100"},
 "connections":{"A":[2,3,4,5],"B":[6,7,8,9],"CI":[11],"BI":[10],"X":[16,17,18,19],"Y":[20,21,22,23],"CO":[12,13,14,15]}}}}}}"#;

const ALU_ROWS: &str = r#"
alu | - | set a 0011 0000\nset b 0001 0000\nset ci 1 1\nset bi 1 0\n | cycle 0\nco 1111/0001\nx 1101/0000\ny 0010/0011\ndone 1
"#;

const MUX: &str = r#"{"modules":{"m":{"ports":{
 "a":{"direction":"input","bits":[2,3,4,5]},
 "b":{"direction":"input","bits":[6,7,8,9]},
 "s":{"direction":"input","bits":[10]},
 "y":{"direction":"output","bits":[11,12,13,14]}},
"cells":{"c":{"type":"$mux","parameters":{"WIDTH":"100"},
 "connections":{"A":[2,3,4,5],"B":[6,7,8,9],"S":[10],"Y":[11,12,13,14]}}}}}}"#;

const MUX_ROWS: &str = r#"
mux-tainted-select | - | set a 1010 0000\nset b 1010 0000\nset s 0 1\n | cycle 0\ny 1010/0000\ndone 1
mux-tainted-select | - | set a 1010 0000\nset b 1011 0000\nset s 0 1\n | cycle 0\ny 1010/0001\ndone 1
"#;

const PARALLEL_MUX: &str = r#"{"modules":{"m":{"ports":{
 "a":{"direction":"input","bits":[2,3]},
 "b":{"direction":"input","bits":[4,5,6,7]},
 "s":{"direction":"input","bits":[8,9]},
 "y":{"direction":"output","bits":[10,11]}},
"cells":{"c":{"type":"$pmux","parameters":{"WIDTH":"10","S_WIDTH":"10"},
 "connections":{"A":[2,3],"B":[4,5,6,7],"S":[8,9],"Y":[10,11]}}}}}}"#;

const PARALLEL_MUX_ROWS: &str = r#"
pmux, the lowest word of two | - | set a 00 00\nset b 1001 0000\nset s 11 00\n | cycle 0\ny 01/00\ndone 1
pmux, no word | - | set a 00 00\nset b 1001 0000\nset s 00 00\n | cycle 0\ny 00/00\ndone 1
pmux, a tainted select | - | set a 00 00\nset b 1001 0000\nset s 11 01\n | cycle 0\ny 01/11\ndone 1
"#;

const BINARY_MUX: &str = r#"{"modules":{"m":{"ports":{
 "a":{"direction":"input","bits":[2,3,4,5]},
 "s":{"direction":"input","bits":[6,7]},
 "y":{"direction":"output","bits":[8]}},
"cells":{"c":{"type":"$bmux","parameters":{"WIDTH":"1","S_WIDTH":"10"},
 "connections":{"A":[2,3,4,5],"S":[6,7],"Y":[8]}}}}}}"#;

const BINARY_MUX_ROWS: &str = r#"
bmux | - | set a 1110 0000\nset s 01 10\n | cycle 0\ny 1/0\ndone 1
bmux, another taint | - | set a 1110 0000\nset s 01 01\n | cycle 0\ny 1/1\ndone 1
"#;

const SHIFT_LEFT: &str = r#"{"modules":{"m":{"ports":{
 "a":{"direction":"input","bits":[2,3,4,5]},
 "b":{"direction":"input","bits":[6]},
 "y":{"direction":"output","bits":[7,8,9,10]}},
"cells":{"c":{"type":"$shl","parameters":{"A_SIGNED":"0","B_SIGNED":"0","A_WIDTH":"100","B_WIDTH":"1","Y_WIDTH":"100"},
 "connections":{"A":[2,3,4,5],"B":[6],"Y":[7,8,9,10]}}}}}}"#;

const SHIFT_LEFT_ROWS: &str = r#"
shift-by-tainted-amount | - | set a 0000 0000\nset b 1 1\n | cycle 0\ny 0000/0000\ndone 1
shift-by-tainted-amount | - | set a 0001 0000\nset b 0 1\n | cycle 0\ny 0001/0011\ndone 1
"#;

/// A shift of four bits by two.
const SHIFT: &str = r#"{"modules":{"m":{"ports":{
 "a":{"direction":"input","bits":[2,3,4,5]},
 "b":{"direction":"input","bits":[6,7]},
 "y":{"direction":"output","bits":[8,9,10,11]}},
"cells":{"c":{"type":"$sshr","parameters":{"A_SIGNED":"1","B_SIGNED":"0","A_WIDTH":"100","B_WIDTH":"10","Y_WIDTH":"100"},
 "connections":{"A":[2,3,4,5],"B":[6,7],"Y":[8,9,10,11]}}}}}}"#;

const SHIFT_ROWS: &str = r#"
shifts-plain, sshr | - | set a 1000\nset b 01\n | cycle 0\ny 1100/0000\ndone 1
shifts-plain, shift | $sshr => $shift & "A_SIGNED":"1","B_SIGNED":"0" => "A_SIGNED":"0","B_SIGNED":"1" | set a 0011\nset b 11\n | cycle 0\ny 0110/0000\ndone 1
"#;

const SHIFT_OUT_OF_WORD: &str = r#"{"modules":{"m":{"ports":{
 "a":{"direction":"input","bits":[2,3,4,5]},
 "b":{"direction":"input","bits":[6,7,8]},
 "y":{"direction":"output","bits":[9,10]}},
"cells":{"c":{"type":"$shiftx","parameters":{"A_SIGNED":"0","B_SIGNED":"0","A_WIDTH":"100","B_WIDTH":"11","Y_WIDTH":"10"},
 "connections":{"A":[2,3,4,5],"B":[6,7,8],"Y":[9,10]}}}}}}"#;

const SHIFT_OUT_OF_WORD_ROWS: &str = r#"
shiftx-and-div-plain, shiftx | - | set a 1010\nset b 011\n | cycle 0\ny 01/00\ndone 1
"#;

const SIGNED_QUOTIENT: &str = r#"{"modules":{"m":{"ports":{
 "a":{"direction":"input","bits":[2,3,4,5,6,7,8,9]},
 "b":{"direction":"input","bits":[10,11,12,13,14,15,16,17]},
 "y":{"direction":"output","bits":[18,19,20,21,22,23,24,25]}},
"cells":{"c":{"type":"$div","parameters":{"A_SIGNED":"1","B_SIGNED":"1","A_WIDTH":"1000","B_WIDTH":"1000","Y_WIDTH":"1000"},
 "connections":{"A":[2,3,4,5,6,7,8,9],"B":[10,11,12,13,14,15,16,17],"Y":[18,19,20,21,22,23,24,25]}}}}}}"#;

const SIGNED_QUOTIENT_ROWS: &str = r#"
shiftx-and-div-plain, div | - | set a 10000000\nset b 11111111\n | cycle 0\ny 10000000/00000000\ndone 1
"#;

/// The lines above those that set the ports.
const HEAD: &str = "cellift-stimulus 1\ncycles 1\n@ 0\n";

#[test]
fn single_cells(rt: HostRuntime) -> Result<(), Fail> {
    let tables = [
        (AND, AND_ROWS),
        (XOR_OF_ONE_NET, XOR_OF_ONE_NET_ROWS),
        (REDUCE_AND, REDUCE_AND_ROWS),
        (LOGIC_AND, LOGIC_AND_ROWS),
        (BINARY, BINARY_ROWS),
        (SIGNED_ADD, SIGNED_ADD_ROWS),
        (ALU, ALU_ROWS),
        (MUX, MUX_ROWS),
        (PARALLEL_MUX, PARALLEL_MUX_ROWS),
        (BINARY_MUX, BINARY_MUX_ROWS),
        (SHIFT_LEFT, SHIFT_LEFT_ROWS),
        (SHIFT, SHIFT_ROWS),
        (SHIFT_OUT_OF_WORD, SHIFT_OUT_OF_WORD_ROWS),
        (SIGNED_QUOTIENT, SIGNED_QUOTIENT_ROWS),
    ];
    assert_tables(&rt, rt.alloc(), HEAD, &tables)
}
