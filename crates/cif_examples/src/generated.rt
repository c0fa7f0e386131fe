// Netlists with lists that a loop writes, and deep brackets.

use crate::driver::{assert_says, assert_tables};
use std::alloc::{AllocError, Global};
use std::test::Fail;

/// A place of a netlist, and the numbers that are listed there, from one up to another.
type List = (&'static str, u64, u64);

/// A netlist, the lists in it, and its rows.
type Generated = (&'static str, &'static [List], &'static str);

/// A cell of two operands and an output, at whose places lists stand.
const WIDE: &str = r#"{"modules":{"m":{"ports":{
 "a":{"direction":"input","bits":[LIST_A]},
 "b":{"direction":"input","bits":[LIST_B]},
 "y":{"direction":"output","bits":[LIST_Y]}},
"cells":{"a1":{"type":"$add","parameters":{"A_SIGNED":"0","B_SIGNED":"0","A_WIDTH":"10000000","B_WIDTH":"10000000","Y_WIDTH":"10000000"},
 "connections":{"A":[LIST_A],"B":[LIST_B],"Y":[LIST_Y]}}}}}}"#;

/// Words of 128 bits.
const OF_128_BITS: &[List] = &[
    ("LIST_A", 2, 130),
    ("LIST_B", 130, 258),
    ("LIST_Y", 258, 386),
];

const WIDE_ROWS: &str = r#"
wide-add | - | cellift-stimulus 1\ncycles 1\n@ 0\nset a 11111111111111111111111111111111111111111111111111111111111111111111111111111111111111111111111111111111111111111111111111111111\nset b 00000000000000000000000000000000000000000000000000000000000000000000000000000000000000000000000000000000000000000000000000000001 | cycle 0\ny 00000000000000000000000000000000000000000000000000000000000000000000000000000000000000000000000000000000000000000000000000000000/00000000000000000000000000000000000000000000000000000000000000000000000000000000000000000000000000000000000000000000000000000000\ndone 1
wide-add-half-tainted | - | cellift-stimulus 1\ncycles 1\n@ 0\nset a 00000000000000000000000000000000000000000000000000000000000000000000000000000000000000000000000000000000000000000000000000000000 00000000000000000000000000000000000000000000000000000000000000001111111111111111111111111111111111111111111111111111111111111111\nset b 00000000000000000000000000000000000000000000000000000000000000000000000000000000000000000000000000000000000000000000000000000001 | cycle 0\ny 00000000000000000000000000000000000000000000000000000000000000000000000000000000000000000000000000000000000000000000000000000001/00000000000000000000000000000000000000000000000000000000000000011111111111111111111111111111111111111111111111111111111111111111\ndone 1
"#;

/// The sum has a bit more.
const WIDE_SUM: &str = r#"{"modules":{"m":{"ports":{
 "a":{"direction":"input","bits":[2,3,4,5]},
 "b":{"direction":"input","bits":[6,7,8,9]},
 "y":{"direction":"output","bits":[10,11,12,13]}},
"cells":{"a1":{"type":"$add","parameters":{"A_SIGNED":"0","B_SIGNED":"0","A_WIDTH":"100","B_WIDTH":"100","Y_WIDTH":"10000001"},
 "connections":{"A":[2,3,4,5],"B":[6,7,8,9],"Y":[LIST_Y]}}}}}}"#;

const WIDE_SHIFT: &str = r#"{"modules":{"m":{"ports":{
 "a":{"direction":"input","bits":[LIST_A]},
 "b":{"direction":"input","bits":[66,67,68,69,70,71]},
 "y":{"direction":"output","bits":[LIST_Y]}},
"cells":{"c":{"type":"$shr","parameters":{"A_SIGNED":"0","B_SIGNED":"0","A_WIDTH":"1000000","B_WIDTH":"110","Y_WIDTH":"1000000"},
 "connections":{"A":[LIST_A],"B":[66,67,68,69,70,71],"Y":[LIST_Y]}}}}}}"#;

const WIDE_SHIFT_ROWS: &str = r#"
wide-shift | - | cellift-stimulus 1\ncycles 1\n@ 0\nset a 0111111111111111111111111111111111111111111111111111111111111111 0111111111111111111111111111111111111111111111111111111111111111\nset b 000000 111111 | cycle 0\ny 0111111111111111111111111111111111111111111111111111111111111111/0111111111111111111111111111111111111111111111111111111111111111\ndone 1
"#;

/// A complement of 4,097 bits, whose operand is joined from two ports.
const WIDE_NOT: &str = r#"{"modules":{"m":{"ports":{
 "a":{"direction":"input","bits":[LIST_A]},
 "b":{"direction":"input","bits":[2]}},
"cells":{"n1":{"type":"$not","parameters":{"A_SIGNED":"0","A_WIDTH":"1000000000001","Y_WIDTH":"1000000000001"},
 "connections":{"A":[LIST_A,2],"Y":[LIST_Y]}}}}}}"#;

const WIDE_WORDS: [Generated; 5] = [
    (WIDE, OF_128_BITS, WIDE_ROWS),
    (
        WIDE_SUM,
        &[("LIST_Y", 10, 139)],
        "wide-add, a bit too wide | - | - | refused 13: too wide at cell a1 port Y",
    ),
    (
        WIDE_SHIFT,
        &[("LIST_A", 2, 66), ("LIST_Y", 72, 136)],
        WIDE_SHIFT_ROWS,
    ),
    (
        WIDE_NOT,
        &[("LIST_A", 10000, 14096), ("LIST_Y", 20000, 24097)],
        "too-wide | - | - | refused 13: too wide at cell n1 port A",
    ),
    (
        WIDE_NOT,
        &[("LIST_A", 10000, 14097), ("LIST_Y", 20000, 24097)],
        "a port past the limit | - | - | refused 13: too wide at port a",
    ),
];

/// Numbers from one up to another, with a comma between two of them.
fn listed(alloc: Global, from: u64, to: u64) -> Result<String, AllocError> {
    let mut text = format!(in alloc; "{from}")?;
    for number in from..to {
        if number != from {
            text.push_str(&format!(in alloc; ",{number}")?)?;
        }
    }
    Ok(text)
}

#[test]
fn wide_words(rt: HostRuntime) -> Result<(), Fail> {
    let alloc = rt.alloc();
    for (net, lists, rows) in &WIDE_WORDS {
        let mut text = String::from_str(alloc, net)?;
        for (place, from, to) in *lists {
            text = text
                .as_str()
                .replace(alloc, *place, &listed(alloc, *from, *to)?)?;
        }
        assert_tables(&rt, alloc, "", &[(text.as_str(), rows)])?;
    }
    Ok(())
}

/// 200 opening brackets, and 200 closing ones.
#[test]
fn deep_brackets(rt: HostRuntime) -> Result<(), Fail> {
    let mut text = String::new(rt.alloc());
    for place in 0..400 {
        text.push(if place < 200 { '[' } else { ']' })?;
    }
    assert_says(
        &rt,
        rt.alloc(),
        "deep-brackets",
        (&text, ""),
        "refused 1: not JSON\n",
    )
}
