// What is kept of a netlist file, what is dropped, and what is written. Refusals are tried by the commands.
use crate::{read_netlist, write_netlist};
use cif_defs::{ParamValue, RawBit};
use std::test::Fail;

#[test]
fn kept_and_dropped(rt: HostRuntime) -> Result<(), Fail> {
    let text = r#"{"modules":{"m":{"attributes":{"a":"x","b":[],"c":-3,"d":1.5},"netnames":{
        "p":{"hide_name":0.5,"bits":["0","1","x","z",7]},
        "q":{"hide_name":"1","bits":[]}}}}}"#;
    let raw = read_netlist(rt.alloc(), text.as_bytes())?;
    let [a, c] = raw.attributes.items() else {
        return Err(Fail::from("two attributes"));
    };
    assert_eq!(rt; a.name.items(), b"a".as_slice());
    assert_eq!(rt; c.name.items(), b"c".as_slice());
    assert!(rt; matches!(c.value, ParamValue::Number(-3)));
    let [p, q] = raw.names.items() else {
        return Err(Fail::from("two names"));
    };
    assert!(rt; p.hide && !q.hide);
    let bits = [
        RawBit::Zero,
        RawBit::One,
        RawBit::X,
        RawBit::Z,
        RawBit::Net(7),
    ];
    assert_eq!(rt; p.bits.items(), bits.as_slice());
    Ok(())
}

/// A netlist file, and the text that is written for what it holds. The texts were made by Python's `json`.
struct Row {
    read: &'static str,
    written: &'static str,
}

/// Names with quotes, backslashes and control characters, the least and the greatest numbers, a memory with ports that
/// are passed over, a type that the table lacks, and a port that it doesn't name. The counter follows.
const ROWS: [Row; 2] = [
    Row {
        read: r#"{"modules":{"m\"\\/":{"ports":{"é":{"bits":["x",0],"direction":"inout"},"a\n\u0001\u001f":{"bits":[4294967295],"direction":"input"}},
        "attributes":{"most":18446744073709551615,"least":-9223372036854775808},
        "cells":{"m":{"type":"$mem_v2","parameters":{"b":"z\t","a":0},"hide_name":2,
        "connections":{"RD_DATA":["z"],"RD_CLK":["0"],"WR_CLK":["1"],"RD_EN":[],"RD_ARST":[],"RD_SRST":[],"RD_ADDR":[],"RD":[]}},
        "k":{"type":"$and\b\f\r","connections":{"A":[]}},
        "c":{"type":"$alu","connections":{"Y":[],"X":[],"CO":[],"CI":[],"Z":[]}}}}}}"#,
        written: r#"{"creator":"cellift","modules":{"m\"\\/":{"attributes":{"least":-9223372036854775808,"most":18446744073709551615},"cells":{"c":{"attributes":{},"connections":{"CI":[],"CO":[],"X":[],"Y":[],"Z":[]},"hide_name":0,"parameters":{},"port_directions":{"CI":"input","CO":"output","X":"output","Y":"output"},"type":"$alu"},"k":{"attributes":{},"connections":{"A":[]},"hide_name":0,"parameters":{},"port_directions":{},"type":"$and\b\f\r"},"m":{"attributes":{},"connections":{"RD":[],"RD_ADDR":[],"RD_ARST":[],"RD_CLK":["0"],"RD_DATA":["z"],"RD_EN":[],"RD_SRST":[],"WR_CLK":["1"]},"hide_name":1,"parameters":{"a":0,"b":"z\t"},"port_directions":{"RD_ADDR":"input","RD_ARST":"input","RD_CLK":"input","RD_DATA":"output","RD_EN":"input","RD_SRST":"input","WR_CLK":"input"},"type":"$mem_v2"}},"netnames":{},"ports":{"a\n\u0001\u001f":{"bits":[4294967295],"direction":"input"},"é":{"bits":["x",0],"direction":"inout"}}}}}"#,
    },
    Row {
        read: r#"{"creator":"Yosys","modules":{"counter":{
"attributes":{"top":"00000000000000000000000000000001","src":"c.v:1.1-9.10"},
"ports":{"clk":{"direction":"input","bits":[2]},
 "rst":{"direction":"input","bits":[3]},
 "en":{"direction":"input","bits":[4]},
 "q":{"direction":"output","bits":[5,6,7,8]}},
"cells":{
"$add$c.v:7$2":{"hide_name":1,"type":"$add",
 "parameters":{"A_SIGNED":"00000000000000000000000000000000","A_WIDTH":"00000000000000000000000000000100","B_SIGNED":"00000000000000000000000000000000",
  "B_WIDTH":"00000000000000000000000000000001","Y_WIDTH":"00000000000000000000000000000100"},
 "attributes":{"src":"c.v:7.12-7.17"},
 "port_directions":{"A":"input","B":"input","Y":"output"},
 "connections":{"A":[5,6,7,8],"B":["1"],"Y":[9,10,11,12]}},
"$procdff$4":{"hide_name":1,"type":"$sdffe",
 "parameters":{"CLK_POLARITY":"00000000000000000000000000000001","EN_POLARITY":"00000000000000000000000000000001",
  "SRST_POLARITY":"00000000000000000000000000000001","SRST_VALUE":"0000","WIDTH":"00000000000000000000000000000100"},
 "attributes":{"src":"c.v:5.3-8.6"},
 "port_directions":{"CLK":"input","D":"input","EN":"input",
  "Q":"output","SRST":"input"},
 "connections":{"CLK":[2],"D":[9,10,11,12],"EN":[4],
  "Q":[5,6,7,8],"SRST":[3]}},
"u0":{"hide_name":0,"type":"$scopeinfo","parameters":{"TYPE":"module"},
 "attributes":{},"port_directions":{},"connections":{}}},
"netnames":{"clk":{"hide_name":0,"bits":[2],"attributes":{}},
 "en":{"hide_name":0,"bits":[4],"attributes":{}},
 "q":{"hide_name":0,"bits":[5,6,7,8],"attributes":{"init":"0000"}},
 "rst":{"hide_name":0,"bits":[3],"attributes":{}}}}}}"#,
        written: r#"{"creator":"cellift","modules":{"counter":{"attributes":{"src":"c.v:1.1-9.10","top":"00000000000000000000000000000001"},"cells":{"$add$c.v:7$2":{"attributes":{"src":"c.v:7.12-7.17"},"connections":{"A":[5,6,7,8],"B":["1"],"Y":[9,10,11,12]},"hide_name":1,"parameters":{"A_SIGNED":"00000000000000000000000000000000","A_WIDTH":"00000000000000000000000000000100","B_SIGNED":"00000000000000000000000000000000","B_WIDTH":"00000000000000000000000000000001","Y_WIDTH":"00000000000000000000000000000100"},"port_directions":{"A":"input","B":"input","Y":"output"},"type":"$add"},"$procdff$4":{"attributes":{"src":"c.v:5.3-8.6"},"connections":{"CLK":[2],"D":[9,10,11,12],"EN":[4],"Q":[5,6,7,8],"SRST":[3]},"hide_name":1,"parameters":{"CLK_POLARITY":"00000000000000000000000000000001","EN_POLARITY":"00000000000000000000000000000001","SRST_POLARITY":"00000000000000000000000000000001","SRST_VALUE":"0000","WIDTH":"00000000000000000000000000000100"},"port_directions":{"CLK":"input","D":"input","EN":"input","Q":"output","SRST":"input"},"type":"$sdffe"},"u0":{"attributes":{},"connections":{},"hide_name":0,"parameters":{"TYPE":"module"},"port_directions":{},"type":"$scopeinfo"}},"netnames":{"clk":{"attributes":{},"bits":[2],"hide_name":0},"en":{"attributes":{},"bits":[4],"hide_name":0},"q":{"attributes":{"init":"0000"},"bits":[5,6,7,8],"hide_name":0},"rst":{"attributes":{},"bits":[3],"hide_name":0}},"ports":{"clk":{"bits":[2],"direction":"input"},"en":{"bits":[4],"direction":"input"},"q":{"bits":[5,6,7,8],"direction":"output"},"rst":{"bits":[3],"direction":"input"}}}}}"#,
    },
];

#[test]
fn written(rt: HostRuntime) -> Result<(), Fail> {
    for row in &ROWS {
        let raw = read_netlist(rt.alloc(), row.read.as_bytes())?;
        let text = write_netlist(rt.alloc(), &raw)?;
        let Some((last, line)) = text.split_last() else {
            return Err(Fail::from("no text"));
        };
        assert_eq!(rt; *last, b'\n');
        assert_eq!(rt; line, row.written.as_bytes());
        let again = read_netlist(rt.alloc(), &text)?;
        assert_eq!(rt; write_netlist(rt.alloc(), &again)?, text);
    }
    Ok(())
}
