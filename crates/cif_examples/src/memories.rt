// Registers and memories: both sides of their limits, the forms that are refused, and their clocks.

use crate::driver::assert_tables;
use cif_bits::Bits;
use rule_state::read_taint;
use std::test::Fail;

/// A register of two bits with every parameter and every port that a register has. The inputs are the bits 2, 3, 4 and 5,
/// each a port of its own, and a port of two bits, 6 and 106; the output shows 3.
const REGISTER: &str = r#"{"modules":{"m":{"ports":{
 "b2":{"direction":"input","bits":[2]},"b3":{"direction":"input","bits":[3]},"b4":{"direction":"input","bits":[4]},
 "b5":{"direction":"input","bits":[5]},"b6":{"direction":"input","bits":[6,106]},"o":{"direction":"output","bits":[3]}},
"cells":{"a":{"type":"$adff",
 "parameters":{"ARST_POLARITY":"1","ARST_VALUE":"10","CLK_POLARITY":"1","EN_POLARITY":"1","SRST_POLARITY":"1",
  "SRST_VALUE":"1x0","WIDTH":"10"},
 "connections":{"ARST":[3],"CLK":[2],"D":[3,4],"EN":[4],"Q":["x",7],"SRST":[3]}}}}}}"#;

const REGISTER_ROWS: &str = r#"
$dff | $adff => $dff | - | accepted cells 1 bits 7 state 2
$dffe | $adff => $dffe | - | accepted cells 1 bits 7 state 2
$sdff | $adff => $sdff | - | accepted cells 1 bits 7 state 2
$sdffe | $adff => $sdffe | - | accepted cells 1 bits 7 state 2
$sdffce | $adff => $sdffce | - | accepted cells 1 bits 7 state 2
$adff | - | - | accepted cells 1 bits 7 state 2
$adffe | $adff => $adffe | - | accepted cells 1 bits 7 state 2
a polarity of 2 | "ARST_POLARITY":"1" => "ARST_POLARITY":"10" | - | accepted cells 1 bits 7 state 2
a polarity without digits | "ARST_POLARITY":"1" => "ARST_POLARITY":"" | - | refused 14: parameter ARST_POLARITY at cell a
a polarity x | "ARST_POLARITY":"1" => "ARST_POLARITY":"x" | - | refused 14: parameter ARST_POLARITY at cell a
"#;

/// A memory of three words of two bits from address 4 on, with two read ports and one write port, and the same ports.
const MEMORY: &str = r#"{"modules":{"m":{"ports":{
 "b2":{"direction":"input","bits":[2]},"b3":{"direction":"input","bits":[3]},"b4":{"direction":"input","bits":[4]},
 "b5":{"direction":"input","bits":[5]},"b6":{"direction":"input","bits":[6,106]},"o":{"direction":"output","bits":[3]}},
"cells":{"a":{"type":"$mem_v2",
 "parameters":{"ABITS":"11","INIT":"1x0110","OFFSET":"100","RD_CLK_ENABLE":"00","RD_PORTS":"10","RD_WIDE_CONTINUATION":"00",
  "SIZE":"11","WIDTH":"10","WR_CLK_ENABLE":"1","WR_CLK_POLARITY":"1","WR_PORTS":"1","WR_WIDE_CONTINUATION":"0"},
 "connections":{"RD_ADDR":[3,4,5,3,"0","1"],"RD_DATA":[8,"x","x",9],
  "WR_ADDR":[3,4,5],"WR_CLK":[2],"WR_DATA":[3,4],"WR_EN":["1","1"]}}}}}}"#;

/// Digits of a mask count as far as there are ports that use them.
const MEMORY_ROWS: &str = r#"
a memory | - | - | accepted cells 1 bits 8 state 6
the first read port is clocked | "RD_CLK_ENABLE":"00" => "RD_CLK_ENABLE":"01" | - | refused 23: memory form at cell a
the second read port is clocked | "RD_CLK_ENABLE":"00" => "RD_CLK_ENABLE":"10" | - | refused 23: memory form at cell a
a digit for a third read port | "RD_CLK_ENABLE":"00" => "RD_CLK_ENABLE":"100" | - | accepted cells 1 bits 8 state 6
digits z and x | "RD_CLK_ENABLE":"00" => "RD_CLK_ENABLE":"zx" | - | accepted cells 1 bits 8 state 6
no digits | "RD_CLK_ENABLE":"00" => "RD_CLK_ENABLE":"" | - | accepted cells 1 bits 8 state 6
a digit 2 | "RD_CLK_ENABLE":"00" => "RD_CLK_ENABLE":"2" | - | refused 14: parameter RD_CLK_ENABLE at cell a
a read port goes on | "RD_WIDE_CONTINUATION":"00" => "RD_WIDE_CONTINUATION":"10" | - | refused 23: memory form at cell a
a third read port goes on | "RD_WIDE_CONTINUATION":"00" => "RD_WIDE_CONTINUATION":"100" | - | accepted cells 1 bits 8 state 6
an unclocked write port | "WR_CLK_ENABLE":"1" => "WR_CLK_ENABLE":"0" | - | refused 23: memory form at cell a
a write port with x | "WR_CLK_ENABLE":"1" => "WR_CLK_ENABLE":"x" | - | refused 23: memory form at cell a
a write port without a digit | "WR_CLK_ENABLE":"1" => "WR_CLK_ENABLE":"" | - | refused 23: memory form at cell a
a digit for a second write port | "WR_CLK_ENABLE":"1" => "WR_CLK_ENABLE":"01" | - | accepted cells 1 bits 8 state 6
a write port goes on | "WR_WIDE_CONTINUATION":"0" => "WR_WIDE_CONTINUATION":"1" | - | refused 23: memory form at cell a
a second write port goes on | "WR_WIDE_CONTINUATION":"0" => "WR_WIDE_CONTINUATION":"10" | - | accepted cells 1 bits 8 state 6
clocks of reads that aren't read | "RD_ADDR": => "RD_CLK":["x","x"],"RD_ADDR": | - | accepted cells 1 bits 8 state 6
a clock of reads that isn't read | "RD_ADDR": => "RD_CLK":[2],"RD_ADDR": | - | accepted cells 1 bits 8 state 6
enables of reads that aren't read | "RD_ADDR": => "RD_EN":[],"RD_ADDR": | - | accepted cells 1 bits 8 state 6
"#;

/// A memory of one word of one bit without ports, and the same inputs.
const BARE: &str = r#"{"modules":{"m":{"ports":{
 "b2":{"direction":"input","bits":[2]},"b3":{"direction":"input","bits":[3]},"b4":{"direction":"input","bits":[4]},
 "b5":{"direction":"input","bits":[5]},"b6":{"direction":"input","bits":[6,106]},"o":{"direction":"output","bits":[3]}},
"cells":{"a":{"type":"$mem_v2",
 "parameters":{"ABITS":"1","INIT":"","OFFSET":"0","RD_CLK_ENABLE":"","RD_PORTS":"0","RD_WIDE_CONTINUATION":"",
  "SIZE":"1","WIDTH":"1","WR_CLK_ENABLE":"","WR_CLK_POLARITY":"","WR_PORTS":"0","WR_WIDE_CONTINUATION":""},
 "connections":{"RD_ADDR":[],"RD_DATA":[],"WR_ADDR":[],"WR_CLK":[],"WR_DATA":[],"WR_EN":[]}}}}}}"#;

/// The masks of a memory without ports have no digits that are used, and its joined ports have no bits. Words of 16 bits,
/// of which 1,048,576 are 16,777,216 bits, are the most, and the bits of all memories count together.
const BARE_ROWS: &str = r#"
a bare memory | - | - | accepted cells 1 bits 6 state 1
clocked reads that aren't there | "RD_CLK_ENABLE":"" => "RD_CLK_ENABLE":"1" | - | accepted cells 1 bits 6 state 1
wide reads that aren't there | "RD_WIDE_CONTINUATION":"" => "RD_WIDE_CONTINUATION":"1" | - | accepted cells 1 bits 6 state 1
unclocked writes that aren't there | "WR_CLK_ENABLE":"" => "WR_CLK_ENABLE":"0" | - | accepted cells 1 bits 6 state 1
wide writes that aren't there | "WR_WIDE_CONTINUATION":"" => "WR_WIDE_CONTINUATION":"1" | - | accepted cells 1 bits 6 state 1
no RD_ADDR | "RD_ADDR":[], =>  | - | refused 11: no port RD_ADDR at cell a
no RD_DATA | "RD_DATA":[], =>  | - | refused 11: no port RD_DATA at cell a
no WR_ADDR | "WR_ADDR":[], =>  | - | refused 11: no port WR_ADDR at cell a
no WR_CLK | "WR_CLK":[], =>  | - | refused 11: no port WR_CLK at cell a
no WR_DATA | "WR_DATA":[], =>  | - | refused 11: no port WR_DATA at cell a
no WR_EN | ,"WR_EN":[] =>  | - | refused 11: no port WR_EN at cell a
no address bits | "ABITS":"1" => "ABITS":"0" | - | refused 23: memory form at cell a
32 address bits | "ABITS":"1" => "ABITS":"100000" | - | accepted cells 1 bits 6 state 1
33 address bits | "ABITS":"1" => "ABITS":"100001" | - | refused 23: memory form at cell a
no words | "SIZE":"1" => "SIZE":"0" | - | refused 23: memory form at cell a
words without bits | "WIDTH":"1" => "WIDTH":"0" | - | refused 23: memory form at cell a
words of 4,096 bits | "WIDTH":"1" => "WIDTH":"1000000000000" | - | accepted cells 1 bits 6 state 4096
words of 4,097 bits | "WIDTH":"1" => "WIDTH":"1000000000001" | - | refused 13: too wide at cell a port WR_EN
65,537 read ports | "RD_PORTS":"0" => "RD_PORTS":"10000000000000001" | - | refused 13: too wide at cell a port RD_ADDR
16,777,232 bits | "SIZE":"1" => "SIZE":"100000000000000000001" & "WIDTH":"1" => "WIDTH":"10000" | - | refused 25: 16777232 bits
16,777,217 bits of two memories | "cells":{ => "cells":{"b":{"type":"$mem_v2", "parameters":{"ABITS":"1","INIT":"","OFFSET":"0","RD_CLK_ENABLE":"","RD_PORTS":"0","RD_WIDE_CONTINUATION":"",  "SIZE":"1000000000000000000000000","WIDTH":"1","WR_CLK_ENABLE":"","WR_CLK_POLARITY":"","WR_PORTS":"0","WR_WIDE_CONTINUATION":""}, "connections":{"RD_ADDR":[],"RD_DATA":[],"WR_ADDR":[],"WR_CLK":[],"WR_DATA":[],"WR_EN":[]}}, | - | refused 25: 16777217 bits
"#;

/// A register a and a memory b on one clock.
const CLOCKED: &str = r#"{"modules":{"m":{"ports":{
 "b2":{"direction":"input","bits":[2]},"b3":{"direction":"input","bits":[3]},"b4":{"direction":"input","bits":[4]},
 "b5":{"direction":"input","bits":[5]},"b6":{"direction":"input","bits":[6,106]},"o":{"direction":"output","bits":[3]}},
"cells":{"a":{"type":"$dffe","parameters":{"CLK_POLARITY":"1","EN_POLARITY":"1","WIDTH":"10"},
 "connections":{"CLK":[2],"D":[3,4],"EN":[4],"Q":["x",7]}},
"b":{"type":"$mem_v2",
 "parameters":{"ABITS":"11","INIT":"1x0110","OFFSET":"100","RD_CLK_ENABLE":"00","RD_PORTS":"10","RD_WIDE_CONTINUATION":"00",
  "SIZE":"11","WIDTH":"10","WR_CLK_ENABLE":"1","WR_CLK_POLARITY":"1","WR_PORTS":"1","WR_WIDE_CONTINUATION":"0"},
 "connections":{"RD_ADDR":[3,4,5,3,"0","1"],"RD_DATA":[8,"x","x",9],
  "WR_ADDR":[3,4,5],"WR_CLK":[2],"WR_DATA":[3,4],"WR_EN":["1","1"]}}}}}}"#;

/// A clock has to be the only bit of an input port. All clocks are one bit with one polarity; a register's may be any
/// number, a write port's is a digit. The clock is read by no operand, and shown by no output port; an operand comes first.
const CLOCKED_ROWS: &str = r#"
one clock | - | - | accepted cells 2 bits 9 state 8
a register's clock 0 | "CLK":[2] => "CLK":["0"] | - | refused 27: no clock input at cell a
a register's clock x | "CLK":[2] => "CLK":["x"] | - | refused 27: no clock input at cell a
a register's clock of a wide port | "CLK":[2] => "CLK":[6] | - | refused 27: no clock input at cell a
a register's clock of a register | "CLK":[2] => "CLK":[7] | - | refused 27: no clock input at cell a
a register's clock of a memory | "CLK":[2] => "CLK":[8] | - | refused 27: no clock input at cell a
a write port's clock 0 | "WR_CLK":[2] => "WR_CLK":["0"] | - | refused 27: no clock input at cell b
a write port's clock x | "WR_CLK":[2] => "WR_CLK":["x"] | - | refused 27: no clock input at cell b
a write port's clock of a wide port | "WR_CLK":[2] => "WR_CLK":[6] | - | refused 27: no clock input at cell b
a write port's clock of a register | "WR_CLK":[2] => "WR_CLK":[7] | - | refused 27: no clock input at cell b
a write port's clock of a memory | "WR_CLK":[2] => "WR_CLK":[8] | - | refused 27: no clock input at cell b
another bit | "WR_CLK":[2] => "WR_CLK":[5] | - | refused 19: second clock at cell b
another polarity of the write port | "WR_CLK_POLARITY":"1" => "WR_CLK_POLARITY":"0" | - | refused 19: second clock at cell b
a polarity x of the write port | "WR_CLK_POLARITY":"1" => "WR_CLK_POLARITY":"x" | - | refused 19: second clock at cell b
another polarity of the register | "CLK_POLARITY":"1" => "CLK_POLARITY":"0" | - | refused 19: second clock at cell b
a polarity 2 of the register | "CLK_POLARITY":"1" => "CLK_POLARITY":"10" | - | refused 19: second clock at cell b
both fall | "CLK_POLARITY":"1" => "CLK_POLARITY":"0" & "WR_CLK_POLARITY":"1" => "WR_CLK_POLARITY":"" | - | accepted cells 2 bits 9 state 8
at a register | "EN":[4] => "EN":[2] & "output","bits":[3] => "output","bits":[2] | - | refused 20: clock as data at a
at an enable of a memory | "WR_EN":["1","1"] => "WR_EN":["1",2] & "output","bits":[3] => "output","bits":[2] | - | refused 20: clock as data at b
at an address of a memory | "RD_ADDR":[3,4,5,3,"0","1"] => "RD_ADDR":[3,4,5,3,4,2] | - | refused 20: clock as data at b
at a clock that isn't read | "RD_ADDR": => "RD_CLK":[2,2],"RD_ADDR": | - | accepted cells 2 bits 9 state 8
at an output | "output","bits":[3] => "output","bits":[2] | - | refused 20: clock as data at o
"#;

/// The memory with a second write port.
const TWO_WRITES: &str = r#"{"modules":{"m":{"ports":{
 "b2":{"direction":"input","bits":[2]},"b3":{"direction":"input","bits":[3]},"b4":{"direction":"input","bits":[4]},
 "b5":{"direction":"input","bits":[5]},"b6":{"direction":"input","bits":[6,106]},"o":{"direction":"output","bits":[3]}},
"cells":{"a":{"type":"$mem_v2",
 "parameters":{"ABITS":"11","INIT":"1x0110","OFFSET":"100","RD_CLK_ENABLE":"00","RD_PORTS":"10","RD_WIDE_CONTINUATION":"00",
  "SIZE":"11","WIDTH":"10","WR_CLK_ENABLE":"11","WR_CLK_POLARITY":"11","WR_PORTS":"10","WR_WIDE_CONTINUATION":"0"},
 "connections":{"RD_ADDR":[3,4,5,3,"0","1"],"RD_DATA":[8,"x","x",9],
  "WR_ADDR":[3,4,5,3,4,5],"WR_CLK":[2,2],"WR_DATA":[3,4,3,4],"WR_EN":["1","0","1","0"]}}}}}}"#;

const TWO_WRITES_ROWS: &str = r#"
two write ports | - | - | accepted cells 1 bits 8 state 6
two write ports that fall | "WR_CLK_POLARITY":"11" => "WR_CLK_POLARITY":"00" | - | accepted cells 1 bits 8 state 6
the second write port falls | "WR_CLK_POLARITY":"11" => "WR_CLK_POLARITY":"01" | - | refused 19: second clock at cell a
the second write port has another bit | "WR_CLK":[2,2] => "WR_CLK":[2,5] | - | refused 19: second clock at cell a
the second write port has no input | "WR_CLK":[2,2] => "WR_CLK":[2,6] | - | refused 27: no clock input at cell a
"#;

#[test]
fn memories(rt: HostRuntime) -> Result<(), Fail> {
    let tables = [
        (REGISTER, REGISTER_ROWS),
        (MEMORY, MEMORY_ROWS),
        (BARE, BARE_ROWS),
        (CLOCKED, CLOCKED_ROWS),
        (TWO_WRITES, TWO_WRITES_ROWS),
    ];
    assert_tables(&rt, rt.alloc(), "", &tables)
}

/// The taint of an address, the flag of a memory, and the taint of a read of an untainted word of two bits.
const READS: [(&str, bool, &str); 4] = [
    ("00", false, "00"),
    ("10", false, "11"),
    ("00", true, "11"),
    ("01", true, "11"),
];

/// A tainted address bit taints a whole read, and so does the flag of a memory.
#[test]
fn taints_of_reads(rt: HostRuntime) -> Result<(), Fail> {
    let alloc = rt.alloc();
    for (address, flag, wanted) in READS {
        let address_taint = Bits::from_text(alloc, address.as_bytes())?;
        let stored = Bits::zeros(alloc, 2)?;
        let taint = read_taint(alloc, &address_taint, flag, &stored)?;
        let text = taint.to_text(alloc)?;
        assert_eq!(rt; text.as_slice(), wanted.as_bytes(), "{address} {flag}");
    }
    Ok(())
}
