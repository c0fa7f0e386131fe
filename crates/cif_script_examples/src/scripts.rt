// Session scripts and answers by example: the worked examples by their names, and the other refusals. What is expected was
// worked by hand.

use cif_bits::Bits;
use cif_cells::Netlist;
use cif_defs::{Listed, Name, Raw, RawBit, RawName};
use cif_json::read_netlist;
use cif_script::{Answer, Line, line_text, read_sessions};
use std::alloc::{AllocError, Global};
use std::process::Abort;
use std::test::Fail;

/// A counter of four bits.
const COUNTER: &str = r#"{"modules":{"counter":{
"ports":{"clk":{"direction":"input","bits":[2]},"en":{"direction":"input","bits":[4]},
 "q":{"direction":"output","bits":[5,6,7,8]},"rst":{"direction":"input","bits":[3]}},
"cells":{
"add":{"type":"$add","parameters":{"A_SIGNED":0,"A_WIDTH":4,"B_SIGNED":0,"B_WIDTH":1,"Y_WIDTH":4},
 "connections":{"A":[5,6,7,8],"B":["1"],"Y":[9,10,11,12]}},
"count":{"type":"$sdffe","parameters":{"CLK_POLARITY":1,"EN_POLARITY":1,"SRST_POLARITY":1,"SRST_VALUE":"0000","WIDTH":4},
 "connections":{"CLK":[2],"D":[9,10,11,12],"EN":[4],"Q":[5,6,7,8],"SRST":[3]}}},
"netnames":{"a b":{"bits":[5,"1"]},"clk":{"bits":[2]},"q":{"bits":[5,6,7,8]}}}}}"#;

/// Texts, and the refusals that they are given.
const REFUSED: [(&str, &str); 14] = [
    ("", "line 1"),
    ("# nothing\n\n", "line 1"),
    ("\n cellift-sessions 2\n", "line 2"),
    ("cellift-sessions 1\nshow nosuch\n", "line 2"),
    (
        "cellift-sessions 1\nsession s\nshow nosuch\n",
        "name at line 3",
    ),
    (
        "cellift-sessions 1\nsession s\nshow clk\n",
        "no two-valued name at line 3",
    ),
    (
        "cellift-sessions 1\nsession s\nsession s\n",
        "session again at line 3",
    ),
    (
        "cellift-sessions 1\nsession %20\n#\n\nsession a\nsession %20",
        "session again at line 6",
    ),
    (
        "cellift-sessions 1\nsession 01234567890123456789012345678901234567890123456789012345678901%20\n",
        "line 2",
    ),
    ("cellift-sessions 1\nsession s\nat 01\n", "line 3"),
    ("cellift-sessions 1\nsession s\nnext 1\n", "line 3"),
    ("cellift-sessions 1\nsession s\n\tnewest\n", "line 3"),
    (
        "cellift-sessions 1\nsession a\nsession b\nsession c\nsession d\nsession e\nsession f\nsession g\nsession h\nsession i\nsession j\nsession k\nsession l\nsession m\nsession n\nsession o\nsession p\nsession a\n",
        "session again at line 18",
    ),
    (
        "cellift-sessions 1\nsession a\nsession b\nsession c\nsession d\nsession e\nsession f\nsession g\nsession h\nsession i\nsession j\nsession k\nsession l\nsession m\nsession n\nsession o\nsession p\nsession q\n",
        "too many sessions",
    ),
];

/// The netlist of the counter.
fn counter(rt: &impl Abort, alloc: Global) -> Netlist {
    let module = read_netlist(alloc, COUNTER.as_bytes()).expect(rt, "the text is refused");
    Netlist::build(alloc, module).expect(rt, "the module is refused")
}

/// The refusal of a text, as it is printed, or nothing where it is read.
fn refusal_of(alloc: Global, netlist: &Netlist, text: &[u8]) -> Result<String, AllocError> {
    match read_sessions(alloc, netlist, text) {
        Ok(_script) => Ok(String::new(alloc)),
        Err(fault) => format!(in alloc; "{fault}"),
    }
}

/// The example `session-refusals`, and what else is refused.
#[test]
fn session_refusals(rt: HostRuntime) -> Result<(), Fail> {
    let netlist = counter(&rt, rt.alloc());
    for (text, wanted) in REFUSED {
        let refusal = refusal_of(rt.alloc(), &netlist, text.as_bytes())?;
        assert_eq!(rt; refusal.as_str(), wanted, "at {text}");
    }
    Ok(())
}

/// Lines of all kinds; a wire has one number, wherever it is shown.
#[test]
fn sessions(rt: HostRuntime) -> Result<(), Fail> {
    let netlist = counter(&rt, rt.alloc());
    let text =
        b"#\ncellift-sessions 1\nsession s\n at  2\nshow q\nshow a%20b\nnext\n\nsession %25\nnewest\nshow q";
    let script = read_sessions(rt.alloc(), &netlist, text).expect(&rt, "the script is refused");
    let sessions = script.sessions();
    assert_eq!(rt; sessions.len(), 2);
    assert!(rt;
        sessions[0].lines.items()
            == [Line::At(2), Line::Show(0), Line::Show(1), Line::Next].as_slice()
    );
    assert!(rt; sessions[1].lines.items() == [Line::Newest, Line::Show(0)].as_slice());
    assert!(rt;
        sessions[0].name.items() == b"s".as_slice() && sessions[1].name.items() == b"%".as_slice()
    );
    assert_eq!(rt; script.wires().len(), 2);
    assert!(rt; script.wire(0).name().items() == b"q".as_slice());
    assert!(rt; script.wire(1).name().items() == b"a b".as_slice());
    Ok(())
}

/// A netlist of one name, `w`, for 65,536 constants.
fn wide(rt: &impl Abort, alloc: Global) -> Result<Netlist, Fail> {
    let name = RawName {
        name: Name::of(Vec::from_slice(alloc, b"w")?),
        hide: false,
        bits: Listed::of(vec![in alloc; RawBit::One; 65_536]?),
        attributes: Listed::of(Vec::new(alloc)),
    };
    let mut names = Vec::new(alloc);
    names.push(name)?;
    let module = Raw {
        module: Name::of(Vec::from_slice(alloc, b"m")?),
        attributes: Listed::of(Vec::new(alloc)),
        ports: Listed::of(Vec::new(alloc)),
        cells: Listed::of(Vec::new(alloc)),
        names: Listed::of(names),
    };
    assert!(rt; module.is_in_order());
    Ok(Netlist::build(alloc, module).expect(rt, "the module is refused"))
}

/// The example `script-size`: 2,047 lines may show the wide name, and 2,048 may not.
#[test]
fn script_size(rt: HostRuntime) -> Result<(), Fail> {
    let netlist = wide(&rt, rt.alloc())?;
    let mut text = Vec::from_slice(rt.alloc(), b"cellift-sessions 1\nsession s\n")?;
    for _line in 0..2047 {
        text.extend_from_slice(b"show w\n")?;
    }
    assert!(rt; refusal_of(rt.alloc(), &netlist, &text)?.is_empty());
    text.extend_from_slice(b"show w\n")?;
    assert_eq!(rt;
        refusal_of(rt.alloc(), &netlist, &text)?.as_str(),
        "script too large"
    );
    Ok(())
}

/// The lines of answers, among them those of the example `counter-session`.
#[test]
fn answers(rt: HostRuntime) -> Result<(), Fail> {
    let alloc = rt.alloc();
    let shown = Answer::Shown {
        name: Name::of(Vec::from_slice(alloc, b"q")?),
        value: Bits::from_u128(alloc, 4, 2)?,
        taint: Bits::zeros(alloc, 4)?,
    };
    assert_eq!(rt;
        &line_text(alloc, &Answer::Cycle(2))?[..],
        b"cycle 2\n".as_slice()
    );
    assert_eq!(rt;
        &line_text(alloc, &shown)?[..],
        b"show q 0010/0000\n".as_slice()
    );
    assert_eq!(rt;
        &line_text(alloc, &Answer::Back(2))?[..],
        b"back 2\n".as_slice()
    );
    assert_eq!(rt;
        &line_text(alloc, &Answer::Past(5))?[..],
        b"past 5\n".as_slice()
    );
    assert_eq!(rt;
        &line_text(alloc, &Answer::Unpinned)?[..],
        b"unpinned\n".as_slice()
    );
    Ok(())
}
