// Stimuli of a register, a memory and names: where lines may stand, and the order of refusals within a line.

use crate::driver::assert_tables;
use std::test::Fail;

/// The lines above, of which the second gives three cycles.
const HEAD: &str = "cellift-stimulus 1\ncycles 3\n";

/// The same in the version with releases.
const RELEASING: &str = "cellift-stimulus 2\ncycles 3\n";

/// The clock c, the inputs d of two bits and e of one, and the output q: the register's lower bit, and above it the
/// lower bit that is read from the memory, always outside of it. The register r has two bits, the memory m three words of
/// two bits from 5 on, and n says nothing. The name w is of the register's lower bit and a constant, and x isn't
/// two-valued.
const MIXED: &str = r#"{"modules":{"m":{"ports":{
 "c":{"direction":"input","bits":[2]},
 "d":{"direction":"input","bits":[3,4]},
 "e":{"direction":"input","bits":[7]},
 "q":{"direction":"output","bits":[5,8]}},
"cells":{
 "m":{"type":"$mem_v2",
  "parameters":{"ABITS":3,"INIT":0,"OFFSET":5,"RD_CLK_ENABLE":0,"RD_PORTS":1,"RD_WIDE_CONTINUATION":0,
   "SIZE":3,"WIDTH":2,"WR_CLK_ENABLE":0,"WR_CLK_POLARITY":0,"WR_PORTS":0,"WR_WIDE_CONTINUATION":0},
  "connections":{"RD_ADDR":[3,"0","0"],"RD_DATA":[8,9],"WR_ADDR":[],"WR_CLK":[],"WR_DATA":[],"WR_EN":[]}},
 "n":{"type":"$scopeinfo"},
 "r":{"type":"$dff","parameters":{"CLK_POLARITY":1,"WIDTH":2},"connections":{"CLK":[2],"D":[3,4],"Q":[5,6]}}},
"netnames":{"a b%":{"bits":[5]},"w":{"bits":[5,"0"]},"x":{"bits":["x"]},"\u00ff":{"bits":[7]}}}}}"#;

const PLACES: &str = r#"
a register again | - | reg r 00\nmem m 5 00\nreg r 00 | refused 45: set again at line 5
a register in a group | - | @ 0\nreg r 00 | refused 40: line 4
a memory in a group | - | @ 0\nmem m 5 00 | refused 40: line 4
a set before a group | - | set d 00 | refused 40: line 3
lines that are passed over | - | \n# one\n  \nset d 00 | refused 40: line 6
cycles again | - | cycles 3 | refused 40: line 3
a line of a tab | - | #\n@ 0\n\nset d 00\n\t | refused 40: line 7
a release in version 1 | - | release w | refused 40: line 3
three groups | - | @ 0\n@ 1\n@ 2 | cycle 0\nq 00/00\ncycle 1\nq 00/00\ncycle 2\nq 00/00\ndone 3
one group | - | @ 2 | cycle 0\nq 00/00\ncycle 1\nq 00/00\ncycle 2\nq 00/00\ndone 3
a group past the last cycle | - | @ 3 | refused 40: line 3
a group again | - | @ 0\n@ 0 | refused 40: line 4
a group before the last one | - | @ 1\nset d 00\n@ 0 | refused 40: line 5
a group of no cycle | - | @ | refused 40: line 3
a group 00 | - | @ 00 | refused 40: line 3
a group of two cycles | - | @ 0 0 | refused 40: line 3
no space | - | @0 | refused 40: line 3
past the last number | - | @ 18446744073709551616 | refused 40: line 3
"#;

const SETS: &str = r#"
two sets | - | @ 0\nset d 01 10\nset e 1 | cycle 0\nq 00/00\ncycle 1\nq 01/00\ncycle 2\nq 01/00\ndone 3
spaces | - | @ 0\nset  d   01  10 \s | cycle 0\nq 00/00\ncycle 1\nq 01/00\ncycle 2\nq 01/00\ndone 3
no word | - | @ 0\nset d | refused 40: line 4
three words | - | @ 0\nset d 01 10 0 | refused 40: line 4
a digit before the name | - | @ 0\nset nosuch 02 | refused 40: line 4
a taint's digit before the name | - | @ 0\nset nosuch 01 x | refused 40: line 4
the name before the width | - | @ 0\nset nosuch 011 | refused 41: name at line 4
the clock | - | @ 0\nset c 1 | refused 41: name at line 4
an output | - | @ 0\nset q 01 | refused 41: name at line 4
a bit too few | - | @ 0\nset d 1 | refused 42: width at line 4
a bit too many | - | @ 0\nset d 011 | refused 42: width at line 4
a taint's bit too few | - | @ 0\nset d 01 1 | refused 42: width at line 4
the width before the second set | - | @ 0\nset d 01\nset d 011 | refused 42: width at line 5
a second set | - | @ 0\nset d 01\nset e 1\nset d 01 | refused 45: set again at line 6
a set in the next group | - | @ 0\nset d 01\n@ 1\nset d 01 | cycle 0\nq 00/00\ncycle 1\nq 01/00\ncycle 2\nq 01/00\ndone 3
"#;

const STARTS: &str = r#"
a register | - | reg r 01 01 | cycle 0\nq 01/01\ncycle 1\nq 00/00\ncycle 2\nq 00/00\ndone 3
a register without a taint | - | reg r 10 | cycle 0\nq 00/00\ncycle 1\nq 00/00\ncycle 2\nq 00/00\ndone 3
a register without a word | - | reg r | refused 40: line 3
a register with z | - | reg r 1z | refused 40: line 3
a cell without state | - | reg n 10 | refused 41: name at line 3
a memory as a register | - | reg m 10 | refused 41: name at line 3
no such register | - | reg nosuch 1 | refused 41: name at line 3
a register's bit too few | - | reg r 1 | refused 42: width at line 3
a register's taint too long | - | reg r 10 101 | refused 42: width at line 3
the width before the second word | - | reg r 10\nreg r 1 | refused 42: width at line 4
a second word | - | reg r 10\nreg r 01 | refused 45: set again at line 4
the first and the last address | - | mem m 5 10\nmem m 7 10 11 | cycle 0\nq 00/00\ncycle 1\nq 00/00\ncycle 2\nq 00/00\ndone 3
a memory without a word | - | mem m 5 | refused 40: line 3
an address 05 | - | mem m 05 10 | refused 40: line 3
an address past the last number | - | mem m 18446744073709551616 10 | refused 40: line 3
no such memory, before the address | - | mem nosuch 4 1 | refused 41: name at line 3
a register as a memory | - | mem r 5 10 | refused 41: name at line 3
an address below the first | - | mem m 4 10 | refused 46: address at line 3
an address past the last, before the width | - | mem m 8 1 | refused 46: address at line 3
the last number | - | mem m 18446744073709551615 10 | refused 46: address at line 3
a memory's bit too few | - | mem m 5 1 | refused 42: width at line 3
a memory's taint too short | - | mem m 5 10 1 | refused 42: width at line 3
the width before the second row | - | mem m 5 10\nmem m 5 1 | refused 42: width at line 4
a second row | - | mem m 5 10\nmem m 6 10\nmem m 5 01 | refused 45: set again at line 5
"#;

/// There are names of two bytes that are no letters, and of a space and `%`.
const RELEASES: &str = r#"
releases among registers | - | release q\nreg r 00\nrelease w\n@ 0\nset d 00 | cycle 0\nq 00/00\ncycle 1\nq 00/00\ncycle 2\nq 00/00\ndone 3
a release of a tainted bit | - | release w\nreg r 01 11 | cycle 0\nq 01/00\ncycle 1\nq 00/00\ncycle 2\nq 00/00\ndone 3
a release in a group | - | @ 0\nrelease q | refused 40: line 4
upper case | - | release %C3%BF | cycle 0\nq 00/00\ncycle 1\nq 00/00\ncycle 2\nq 00/00\ndone 3
lower case, a space and a % | - | release %c3%bf\nrelease a%20b%25 | cycle 0\nq 00/00\ncycle 1\nq 00/00\ncycle 2\nq 00/00\ndone 3
the same name in either case | - | release %C3%BF\nrelease %c3%Bf | refused 45: set again at line 4
no digits | - | release a%20b% | refused 40: line 3
one digit | - | release a%20b%2 | refused 40: line 3
a digit g | - | release a%20b%2g | refused 40: line 3
a letter that isn't coded so | - | release %77 | refused 40: line 3
another letter | - | release %41 | refused 40: line 3
the last byte that isn't coded so | - | release %7e | refused 40: line 3
the first byte past it | - | release %7f | refused 41: name at line 3
a space | - | release a b%25 | refused 40: line 3
a name that isn't two-valued | - | release x | refused 41: name at line 3
a line end as a name | - | release %0a | refused 41: name at line 3
a tab after the name | - | release w\t | refused 40: line 3
"#;

#[test]
fn places_and_words(rt: HostRuntime) -> Result<(), Fail> {
    let tables = [(MIXED, PLACES), (MIXED, SETS), (MIXED, STARTS)];
    assert_tables(&rt, rt.alloc(), HEAD, &tables)
}

#[test]
fn releases(rt: HostRuntime) -> Result<(), Fail> {
    let tables = [(MIXED, RELEASES)];
    assert_tables(&rt, rt.alloc(), RELEASING, &tables)
}
