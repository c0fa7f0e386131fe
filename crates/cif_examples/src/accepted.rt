// What an accepted netlist answers that no command shows: its wires by name, its clock, its drivers, the numbers of its
// cells, and the words with which they start.

use cif_cells::{
    BuildFault, Direction, Driver, Found, Listed, Name, Netlist, Param, Raw, RawBit, RawPort, Src,
};
use cif_json::read_netlist;
use std::alloc::{AllocError, Global};
use std::process::Abort;
use std::test::Fail;

/// A register `r` of one bit. The net numbers 2, 3 and 4 are the net bits `a`, `b` and `c`; 9 is no net bit.
const REGISTER: &str = r#"{"modules":{"m":{"ports":{
 "clk":{"direction":"input","bits":[2]},
 "d":{"direction":"input","bits":[3]},
 "q":{"direction":"output","bits":[4]},
 "y":{"direction":"output","bits":[4]}},
"cells":{"r":{"type":"$dff","parameters":{"CLK_POLARITY":"1","WIDTH":"1"},"connections":{"CLK":[2],"D":[3],"Q":[4]}}},
"netnames":{
 "constants":{"bits":["0","1",3]},
 "d":{"bits":[4]},
 "empty":{"bits":[]},
 "only":{"bits":[9]},
 "q":{"bits":["z"]},
 "tick":{"bits":[3,2]},
 "x":{"bits":[4,"x"]}}}}}"#;

/// Names, and what is found under each: the wire's bits, lowest first, or why there is none. A netname comes before a port.
const NAMES: [(&str, &str); 14] = [
    ("constants", "01b"),
    ("d", "c"),
    ("y", "c"),
    ("clk", "not two-valued"),
    ("empty", "not two-valued"),
    ("only", "not two-valued"),
    ("q", "not two-valued"),
    ("tick", "not two-valued"),
    ("x", "not two-valued"),
    ("", "missing"),
    ("D", "missing"),
    ("da", "missing"),
    ("none", "missing"),
    ("z", "missing"),
];

/// A memory of three words of two bits from address 4 on, with two read ports and one write port. The net numbers are 2 to 5,
/// 8 and 9. Of the read ports bit 1 of the first and bit 0 of the second are unconnected.
const MEMORY: &str = r#"{"modules":{"m":{"ports":{
 "b2":{"direction":"input","bits":[2]},
 "b3":{"direction":"input","bits":[3]},
 "b4":{"direction":"input","bits":[4]},
 "b5":{"direction":"input","bits":[5]}},
"cells":{"a":{"type":"$mem_v2","parameters":{"ABITS":"11","INIT":"1x0110","OFFSET":"100","RD_CLK_ENABLE":"00","RD_PORTS":"10",
  "RD_WIDE_CONTINUATION":"00","SIZE":"11","WIDTH":"10","WR_CLK_ENABLE":"1","WR_CLK_POLARITY":"1","WR_PORTS":"1",
  "WR_WIDE_CONTINUATION":"0"},
 "connections":{"RD_ADDR":[3,4,5,3,"0","1"],"RD_DATA":[8,"x","x",9],"WR_ADDR":[3,4,5],"WR_CLK":[2],"WR_DATA":[3,4],
  "WR_EN":["1","1"]}}}}}}"#;

const NUMBERS: [(Param, u64); 6] = [
    (Param::Width, 2),
    (Param::Size, 3),
    (Param::Offset, 4),
    (Param::Abits, 3),
    (Param::RdPorts, 2),
    (Param::WrPorts, 1),
];

/// The netlist of a text.
fn netlist_of(rt: &impl Abort, alloc: Global, text: &str) -> Netlist {
    let module = read_netlist(alloc, text.as_bytes()).expect(rt, "the text is refused");
    Netlist::build(alloc, module).expect(rt, "the module is refused")
}

/// One bit of a wire: a constant, or a letter from `a` on for a net bit from 0 on.
fn letter(source: Src) -> u8 {
    match source {
        Src::Zero => b'0',
        Src::One => b'1',
        Src::Bit(bit) => b"abcdefghijklmnopqrstuvwxyz"[(bit % 26) as usize],
    }
}

/// What is found under a name, as text.
fn found(alloc: Global, netlist: &Netlist, name: &str) -> Result<Vec<u8>, AllocError> {
    match netlist.find(name.as_bytes()) {
        Found::Wire(wire) => {
            let mut text = Vec::new(alloc);
            for source in wire.items() {
                text.push(letter(*source))?;
            }
            Ok(text)
        }
        Found::NotTwoValued => Vec::from_slice(alloc, b"not two-valued"),
        Found::Missing => Vec::from_slice(alloc, b"missing"),
    }
}

#[test]
fn names(rt: HostRuntime) -> Result<(), Fail> {
    let alloc = rt.alloc();
    let netlist = netlist_of(&rt, alloc, REGISTER);
    for (name, wanted) in NAMES {
        let text = found(alloc, &netlist, name)?;
        assert_eq!(rt; text.as_slice(), wanted.as_bytes(), "{name}");
    }
    Ok(())
}

/// A name has at most 65,536 bits.
#[test]
fn names_at_limit(rt: HostRuntime) -> Result<(), Fail> {
    let alloc = rt.alloc();
    for (more, is_short) in [("", true), (",\"1\"", false)] {
        let ones = String::from_str(alloc, ",\"1\"")?
            .as_str()
            .repeat(alloc, 65_535)?;
        let text = format!(in alloc;
            "{{\"modules\":{{\"m\":{{\"netnames\":{{\"long\":{{\"bits\":[\"1\"{}{more}]}}}}}}}}}}",
            ones.as_str()
        )?;
        let netlist = netlist_of(&rt, alloc, text.as_str());
        let is_wire = matches!(netlist.find(b"long"), Found::Wire(_));
        assert_eq!(rt; is_wire, is_short);
    }
    Ok(())
}

#[test]
fn clocks(rt: HostRuntime) {
    for (text, wanted) in [
        (REGISTER, Some(0)),
        (MEMORY, Some(0)),
        (r#"{"modules":{"m":{}}}"#, None),
    ] {
        let netlist = netlist_of(&rt, rt.alloc(), text);
        assert_eq!(rt; netlist.clock(), wanted);
    }
}

/// The digits with which the memory starts, of which `x` and those that `INIT` lacks are 0, and a digit past its end.
#[test]
#[tactic(auto, using(cif_cells::proofs::InitialLaws::initial_words))]
fn memory(rt: HostRuntime) {
    let netlist = netlist_of(&rt, rt.alloc(), MEMORY);
    assert!(rt; netlist.bits() == 6 && netlist.state_bits() == 6 && netlist.cells().len() == 1);
    for (bit, port, index) in [(4, 0, 0), (5, 1, 1)] {
        let read = Driver::Read {
            cell: 0,
            port,
            index,
        };
        assert_eq!(rt; netlist.driver(bit), read);
    }
    for (param, number) in NUMBERS {
        assert_eq!(rt; netlist.cells()[0].number(param), number);
    }
    for (index, bit) in [false, true, true, false, false, true, false]
        .iter()
        .enumerate()
    {
        assert_eq!(rt; netlist.initial(0, index as u64), *bit, "{index}");
    }
}

/// An input port of 4,096 net numbers, the first of which is 4,096 times the number of the port; it is named by that number.
fn wide_port(alloc: Global, port: u64) -> Result<RawPort, AllocError> {
    let mut bits = Vec::with_capacity(alloc, 4_096)?;
    for index in 0..4_096 {
        bits.push(RawBit::Net(4_096 * (port % 2_048) + index))?;
    }
    Ok(RawPort {
        name: Name::of(format!(in alloc; "{port:04}")?.into_bytes()),
        direction: Direction::Input,
        bits: Listed::of(bits),
    })
}

/// A module of 1,024 such ports, which are 4,194,304 bits, and of one more net number at an output.
fn wide_module(alloc: Global, more: u64) -> Result<Raw, AllocError> {
    let mut ports = Vec::new(alloc);
    for port in 0..1_024 {
        ports.push(wide_port(alloc, port)?)?;
    }
    ports.push(RawPort {
        name: Name::of(Vec::from_slice(alloc, b"y")?),
        direction: Direction::Output,
        bits: Listed::of(Vec::from_slice(alloc, &[RawBit::Net(more)])?),
    })?;
    Ok(Raw {
        module: Name::of(Vec::from_slice(alloc, b"m")?),
        attributes: Listed::of(Vec::new(alloc)),
        ports: Listed::of(ports),
        cells: Listed::of(Vec::new(alloc)),
        names: Listed::of(Vec::new(alloc)),
    })
}

/// A module has at most 4,194,304 net bits.
#[test]
fn bits_at_limit(rt: HostRuntime) -> Result<(), Fail> {
    let alloc = rt.alloc();
    for (more, wanted) in [(0, 4_194_304), (4_194_304, 4_194_305)] {
        let module = wide_module(alloc, more)?;
        assert!(rt; module.is_in_order());
        let bits = match Netlist::build(alloc, module) {
            Ok(netlist) => u64::from(netlist.bits()),
            Err(BuildFault::TooManyBits(bits)) => bits,
            Err(_other) => 0,
        };
        assert_eq!(rt; bits, wanted);
    }
    Ok(())
}
