// Examples that were worked by hand.

ghost use Rattle.std.specs.Prelude.{◌≡◌, length, map};
ghost use Rattle.cif_defs.specs.Fitted.{IsFitted, operand_widths};
ghost use Rattle.cif_defs.specs.Kinds.{role_of};

use crate::agree::agrees;
use crate::modules::{Shape, are_operands, module_of};
use crate::words::{Marked, Words, read_words};
use cif_bits::Bits;
use cif_cells::{Cell, Kind, Netlist, Role, meaning};
use cif_rules::{covers, is_exact, taint_of};
use std::alloc::Global;
use std::process::Abort;
use std::test::Fail;

/// What a cell of a shape gives for its outputs, for these operands.
#[derive(Clone, Copy)]
struct Example {
    name: &'static str,
    kind: Kind,
    numbers: &'static [u8],
    operands: &'static [Marked],
    outputs: &'static [Marked],
}

const LOGIC: &[Example] = &[
    Example {
        name: "and-taint",
        kind: Kind::And,
        numbers: &[0, 0, 1, 1, 1],
        operands: &[("0", "1"), ("0", "0")],
        outputs: &[("0", "0")],
    },
    Example {
        name: "and-taint",
        kind: Kind::And,
        numbers: &[0, 0, 1, 1, 1],
        operands: &[("0", "1"), ("1", "0")],
        outputs: &[("0", "1")],
    },
    // each reader of a net has a copy of its own, which is completed alone
    Example {
        name: "same-net-twice",
        kind: Kind::Xor,
        numbers: &[0, 0, 1, 1, 1],
        operands: &[("0", "1"), ("0", "1")],
        outputs: &[("0", "1")],
    },
    // the other bit is 0 and untainted, and then 1
    Example {
        name: "reduce-and",
        kind: Kind::ReduceAnd,
        numbers: &[0, 2, 1],
        operands: &[("01", "01")],
        outputs: &[("0", "0")],
    },
    Example {
        name: "reduce-and",
        kind: Kind::ReduceAnd,
        numbers: &[0, 2, 1],
        operands: &[("10", "01")],
        outputs: &[("0", "1")],
    },
    Example {
        name: "logic-and",
        kind: Kind::LogicAnd,
        numbers: &[0, 0, 2, 2, 1],
        operands: &[("01", "01"), ("00", "00")],
        outputs: &[("0", "0")],
    },
    Example {
        name: "logic-and",
        kind: Kind::LogicAnd,
        numbers: &[0, 0, 2, 2, 1],
        operands: &[("01", "01"), ("10", "00")],
        outputs: &[("1", "1")],
    },
    Example {
        name: "mux-tainted-select",
        kind: Kind::Mux,
        numbers: &[4],
        operands: &[("1010", "0000"), ("1010", "0000"), ("0", "1")],
        outputs: &[("1010", "0000")],
    },
    Example {
        name: "mux-tainted-select",
        kind: Kind::Mux,
        numbers: &[4],
        operands: &[("1010", "0000"), ("1011", "0000"), ("0", "1")],
        outputs: &[("1010", "0001")],
    },
    // the words of B are 01 and, above it, 10; the lowest select bit that is 1 chooses
    Example {
        name: "pmux",
        kind: Kind::Pmux,
        numbers: &[2, 2],
        operands: &[("00", "00"), ("1001", "0000"), ("11", "00")],
        outputs: &[("01", "00")],
    },
    Example {
        name: "pmux",
        kind: Kind::Pmux,
        numbers: &[2, 2],
        operands: &[("00", "00"), ("1001", "0000"), ("00", "00")],
        outputs: &[("00", "00")],
    },
    Example {
        name: "pmux",
        kind: Kind::Pmux,
        numbers: &[2, 2],
        operands: &[("00", "00"), ("1001", "0000"), ("11", "01")],
        outputs: &[("01", "11")],
    },
    // places 1 and 3 hold the same, places 0 and 1 do not
    Example {
        name: "bmux",
        kind: Kind::Bmux,
        numbers: &[1, 2],
        operands: &[("1110", "0000"), ("01", "10")],
        outputs: &[("1", "0")],
    },
    Example {
        name: "bmux",
        kind: Kind::Bmux,
        numbers: &[1, 2],
        operands: &[("1110", "0000"), ("01", "01")],
        outputs: &[("1", "1")],
    },
];

/// Shifts by known and tainted amounts.
const SHIFTS: &[Example] = &[
    // no bit differs from its neighbour, and then two do
    Example {
        name: "shift-by-tainted-amount",
        kind: Kind::Shl,
        numbers: &[0, 0, 4, 1, 4],
        operands: &[("0000", "0000"), ("1", "1")],
        outputs: &[("0000", "0000")],
    },
    Example {
        name: "shift-by-tainted-amount",
        kind: Kind::Shl,
        numbers: &[0, 0, 4, 1, 4],
        operands: &[("0001", "0000"), ("0", "1")],
        outputs: &[("0001", "0011")],
    },
    // the sign bit moves in from the left, and an offset of -1 moves to the left
    Example {
        name: "shifts-plain",
        kind: Kind::Sshr,
        numbers: &[1, 0, 4, 2, 4],
        operands: &[("1000", "0000"), ("01", "00")],
        outputs: &[("1100", "0000")],
    },
    Example {
        name: "shifts-plain",
        kind: Kind::Shift,
        numbers: &[0, 1, 4, 2, 4],
        operands: &[("0011", "0000"), ("11", "00")],
        outputs: &[("0110", "0000")],
    },
    // one bit of A is left at offset 3, and -128 by -1 is 128, which wraps
    Example {
        name: "shiftx-and-div-plain",
        kind: Kind::Shiftx,
        numbers: &[0, 0, 4, 3, 2],
        operands: &[("1010", "0000"), ("011", "000")],
        outputs: &[("01", "00")],
    },
    Example {
        name: "shiftx-and-div-plain",
        kind: Kind::Div,
        numbers: &[1, 1, 8, 8, 8],
        operands: &[("10000000", "00000000"), ("11111111", "00000000")],
        outputs: &[("10000000", "00000000")],
    },
];

/// Sums and differences.
const SUMS: &[Example] = &[
    // 6 or 7, and adding 1 to 7 carries to the highest bit
    Example {
        name: "add-carry-taint",
        kind: Kind::Add,
        numbers: &[0, 0, 4, 4, 4],
        operands: &[("0110", "0001"), ("0001", "0000")],
        outputs: &[("0111", "1111")],
    },
    Example {
        name: "add of a tainted highest bit",
        kind: Kind::Add,
        numbers: &[0, 0, 4, 4, 4],
        operands: &[("0110", "1000"), ("0001", "0000")],
        outputs: &[("0111", "1000")],
    },
    // A is 00 or 11, so the sum is 01 or 00
    Example {
        name: "signed-split",
        kind: Kind::Add,
        numbers: &[1, 1, 1, 2, 2],
        operands: &[("0", "1"), ("01", "00")],
        outputs: &[("01", "01")],
    },
    // 4 - 1 is 0011, and 4 - 0 is 0100
    Example {
        name: "sub-borrow",
        kind: Kind::Sub,
        numbers: &[0, 0, 4, 4, 4],
        operands: &[("0100", "0000"), ("0001", "0001")],
        outputs: &[("0011", "0111")],
    },
    // 0 is 0, and -1 is 1111
    Example {
        name: "neg",
        kind: Kind::Neg,
        numbers: &[0, 2, 4],
        operands: &[("00", "01")],
        outputs: &[("0000", "1111")],
    },
    // A is 0000 or 1111, so -A is 0000 or 0001
    Example {
        name: "neg of a sign bit",
        kind: Kind::Neg,
        numbers: &[1, 1, 4],
        operands: &[("0", "1")],
        outputs: &[("0000", "0001")],
    },
];

/// Comparisons, and the cell of sums with a carry.
const COMPARISONS: &[Example] = &[
    // 4 to 7 are all less than 8, and not all less than 6
    Example {
        name: "less-than-exact",
        kind: Kind::Lt,
        numbers: &[0, 0, 4, 4, 1],
        operands: &[("0100", "0011"), ("1000", "0000")],
        outputs: &[("1", "0")],
    },
    Example {
        name: "less than some",
        kind: Kind::Lt,
        numbers: &[0, 0, 4, 4, 1],
        operands: &[("0100", "0011"), ("0110", "0000")],
        outputs: &[("1", "1")],
    },
    // -8 or 0 against 0, and -8 to -5
    Example {
        name: "signed-less",
        kind: Kind::Lt,
        numbers: &[1, 1, 4, 4, 1],
        operands: &[("1000", "1000"), ("0000", "0000")],
        outputs: &[("1", "1")],
    },
    Example {
        name: "signed less than all",
        kind: Kind::Lt,
        numbers: &[1, 1, 4, 4, 1],
        operands: &[("1000", "0011"), ("0000", "0000")],
        outputs: &[("1", "0")],
    },
    // 4 to 7 against 5, and 8 to 11 against 5 or 7, with two bits of Y
    Example {
        name: "greater than some",
        kind: Kind::Gt,
        numbers: &[0, 0, 4, 3, 2],
        operands: &[("0100", "0011"), ("101", "000")],
        outputs: &[("00", "01")],
    },
    Example {
        name: "greater than all",
        kind: Kind::Gt,
        numbers: &[0, 0, 4, 3, 2],
        operands: &[("1000", "0011"), ("101", "010")],
        outputs: &[("01", "00")],
    },
    Example {
        name: "equal or not",
        kind: Kind::Eq,
        numbers: &[0, 0, 2, 2, 1],
        operands: &[("10", "01"), ("10", "00")],
        outputs: &[("1", "1")],
    },
    Example {
        name: "never equal",
        kind: Kind::Eq,
        numbers: &[0, 0, 2, 2, 1],
        operands: &[("10", "01"), ("00", "00")],
        outputs: &[("0", "0")],
    },
    Example {
        name: "always equal",
        kind: Kind::Eq,
        numbers: &[0, 0, 2, 2, 1],
        operands: &[("10", "00"), ("10", "00")],
        outputs: &[("1", "0")],
    },
    // 1 can be 01, and -1 is 11
    Example {
        name: "equal, extended",
        kind: Kind::Eq,
        numbers: &[0, 0, 1, 2, 1],
        operands: &[("0", "1"), ("01", "00")],
        outputs: &[("0", "1")],
    },
    Example {
        name: "never equal, extended with its sign",
        kind: Kind::Eq,
        numbers: &[1, 1, 1, 2, 1],
        operands: &[("0", "1"), ("01", "00")],
        outputs: &[("0", "0")],
    },
    // 3 - 1, or 3 - 1 - 1 where CI is 0
    Example {
        name: "alu",
        kind: Kind::Alu,
        numbers: &[0, 0, 4, 4, 4],
        operands: &[("0011", "0000"), ("0001", "0000"), ("1", "1"), ("1", "0")],
        outputs: &[("1101", "0000"), ("0010", "0011"), ("1111", "0001")],
    },
];

/// Products.
const PRODUCTS: &[Example] = &[
    // a factor is a known zero, and then every bit from the lowest tainted place on
    Example {
        name: "mul-coarse",
        kind: Kind::Mul,
        numbers: &[0, 0, 4, 4, 4],
        operands: &[("0011", "1111"), ("0000", "0000")],
        outputs: &[("0000", "0000")],
    },
    Example {
        name: "mul-coarse",
        kind: Kind::Mul,
        numbers: &[0, 0, 4, 4, 4],
        operands: &[("0011", "0010"), ("0001", "0000")],
        outputs: &[("0011", "1110")],
    },
    Example {
        name: "product with zero first",
        kind: Kind::Mul,
        numbers: &[0, 0, 4, 4, 4],
        operands: &[("0000", "0000"), ("0011", "0001")],
        outputs: &[("0000", "0000")],
    },
    Example {
        name: "product of tainted zeros",
        kind: Kind::Mul,
        numbers: &[0, 0, 4, 4, 4],
        operands: &[("0000", "0100"), ("0000", "1000")],
        outputs: &[("0000", "1100")],
    },
    Example {
        name: "product from place 0 on",
        kind: Kind::Mul,
        numbers: &[0, 0, 4, 4, 4],
        operands: &[("0001", "1000"), ("0001", "0001")],
        outputs: &[("0001", "1111")],
    },
    Example {
        name: "product without taint",
        kind: Kind::Mul,
        numbers: &[0, 0, 4, 4, 4],
        operands: &[("0111", "0000"), ("0010", "0000")],
        outputs: &[("1110", "0000")],
    },
    Example {
        name: "product, extended",
        kind: Kind::Mul,
        numbers: &[1, 1, 2, 3, 5],
        operands: &[("01", "10"), ("001", "000")],
        outputs: &[("00001", "11110")],
    },
    Example {
        name: "product with the tainted place cut off",
        kind: Kind::Mul,
        numbers: &[0, 0, 4, 4, 2],
        operands: &[("0001", "1000"), ("0001", "0000")],
        outputs: &[("01", "00")],
    },
    Example {
        name: "product with the only 1 cut off",
        kind: Kind::Mul,
        numbers: &[0, 0, 4, 4, 2],
        operands: &[("1000", "0000"), ("0001", "1111")],
        outputs: &[("00", "00")],
    },
];

/// Quotients and remainders.
const DIVISIONS: &[Example] = &[
    // a known zero divisor, and then 8 to 11 by 2, which is 4 or 5
    Example {
        name: "div-coarse",
        kind: Kind::Div,
        numbers: &[0, 0, 4, 4, 4],
        operands: &[("0111", "0000"), ("0000", "0000")],
        outputs: &[("0000", "0000")],
    },
    Example {
        name: "div-coarse",
        kind: Kind::Div,
        numbers: &[0, 0, 4, 4, 4],
        operands: &[("1000", "0011"), ("0010", "0000")],
        outputs: &[("0100", "0001")],
    },
    Example {
        name: "tainted dividend by a known zero",
        kind: Kind::Div,
        numbers: &[0, 0, 4, 4, 4],
        operands: &[("0111", "1111"), ("0000", "0000")],
        outputs: &[("0000", "0000")],
    },
    Example {
        name: "quotient of 2 and 8",
        kind: Kind::Div,
        numbers: &[0, 0, 4, 4, 4],
        operands: &[("1000", "0000"), ("0001", "0010")],
        outputs: &[("1000", "1111")],
    },
    // 0 and 2
    Example {
        name: "quotient by what can be zero",
        kind: Kind::Div,
        numbers: &[0, 0, 4, 4, 4],
        operands: &[("0010", "0000"), ("0000", "0001")],
        outputs: &[("0000", "0011")],
    },
    Example {
        name: "quotient without taint",
        kind: Kind::Div,
        numbers: &[0, 0, 4, 4, 4],
        operands: &[("0111", "0000"), ("0010", "0000")],
        outputs: &[("0011", "0000")],
    },
    // 4 and 6, which differ at place 1
    Example {
        name: "quotient, cut",
        kind: Kind::Div,
        numbers: &[0, 0, 4, 2, 1],
        operands: &[("1000", "0100"), ("10", "00")],
        outputs: &[("0", "1")],
    },
    Example {
        name: "quotient, extended",
        kind: Kind::Div,
        numbers: &[0, 0, 4, 2, 6],
        operands: &[("1000", "0100"), ("10", "00")],
        outputs: &[("000100", "000011")],
    },
    // 3 / 17 and 3 / 1
    Example {
        name: "quotient by a wider divisor",
        kind: Kind::Div,
        numbers: &[0, 0, 2, 5, 2],
        operands: &[("11", "00"), ("00001", "10000")],
        outputs: &[("11", "11")],
    },
    Example {
        name: "quotient of bits",
        kind: Kind::Div,
        numbers: &[0, 0, 1, 1, 1],
        operands: &[("1", "0"), ("0", "1")],
        outputs: &[("0", "1")],
    },
    Example {
        name: "widest quotient",
        kind: Kind::Div,
        numbers: &[0, 0, 128, 128, 128],
        operands: &[
            (
                "00000000000000000000000000000000000000000000000000000000000000000000000000000000000000000000000000000000000000000000000000000000",
                "10000000000000000000000000000000000000000000000000000000000000000000000000000000000000000000000000000000000000000000000000000000",
            ),
            (
                "00000000000000000000000000000000000000000000000000000000000000000000000000000000000000000000000000000000000000000000000000000001",
                "00000000000000000000000000000000000000000000000000000000000000000000000000000000000000000000000000000000000000000000000000000000",
            ),
        ],
        outputs: &[(
            "00000000000000000000000000000000000000000000000000000000000000000000000000000000000000000000000000000000000000000000000000000000",
            "11111111111111111111111111111111111111111111111111111111111111111111111111111111111111111111111111111111111111111111111111111111",
        )],
    },
    Example {
        name: "remainder by a tainted divisor",
        kind: Kind::Mod,
        numbers: &[0, 0, 4, 4, 5],
        operands: &[("0001", "0000"), ("0010", "0001")],
        outputs: &[("00001", "11111")],
    },
    Example {
        name: "remainder of a tainted dividend",
        kind: Kind::Mod,
        numbers: &[0, 0, 4, 4, 5],
        operands: &[("0001", "1000"), ("0010", "0000")],
        outputs: &[("00001", "11111")],
    },
    Example {
        name: "remainder by what can be other than zero",
        kind: Kind::Mod,
        numbers: &[0, 0, 4, 4, 5],
        operands: &[("0001", "0000"), ("0000", "1000")],
        outputs: &[("00000", "11111")],
    },
    Example {
        name: "remainder by a known zero",
        kind: Kind::Mod,
        numbers: &[0, 0, 4, 4, 5],
        operands: &[("0001", "1111"), ("0000", "0000")],
        outputs: &[("00000", "00000")],
    },
    Example {
        name: "remainder without taint",
        kind: Kind::Mod,
        numbers: &[0, 0, 4, 4, 5],
        operands: &[("0111", "0000"), ("0010", "0000")],
        outputs: &[("00001", "00000")],
    },
];

/// Words are those of an example, each by its place.
fn assert_words(rt: &impl Abort, name: &str, words: &[Bits], wanted: &[Bits]) {
    assert_eq!(rt; words.len(), wanted.len(), "{name}");
    for (port, word) in words.iter().enumerate() {
        assert!(rt; word.equals(&wanted[port]), "{name}");
    }
}

/// A cell gives the values and the taints of an example, and the enumeration agrees where its taint is exact.
fn check_cell(
    rt: &impl Abort,
    alloc: Global,
    cell: &Cell,
    operands: &Words,
    example: &Example,
) -> Result<(), Fail>
    requires role { role_of cell.now.kind ≡ Role.Combinational }
    requires fitted { IsFitted cell.now }
    requires values { map length operands.now.values.items ≡ operand_widths cell.now }
    requires taints { map length operands.now.taints.items ≡ operand_widths cell.now }
{
    let wanted = read_words(rt, alloc, example.outputs)?;
    let values = meaning(alloc, cell, &operands.values)?;
    assert_words(rt, example.name, &values, &wanted.values);
    let taints = taint_of(alloc, cell, &operands.values, &operands.taints)?;
    assert_words(rt, example.name, &taints, &wanted.taints);
    if is_exact(cell.kind()) {
        assert!(rt; agrees(alloc, cell, &operands.values, &operands.taints)?);
    }
    Ok(())
}

/// The cell of an example gives what the example says.
fn check(rt: &impl Abort, alloc: Global, example: &Example) -> Result<(), Fail> {
    let operands = read_words(rt, alloc, example.operands)?;
    let shape = Shape {
        kind: example.kind,
        numbers: example.numbers,
    };
    let module = module_of(alloc, &shape)?;
    assert!(rt; module.is_in_order());
    let netlist = Netlist::build(alloc, module)?;
    let cells = netlist.cells();
    assert_eq!(rt; cells.len(), 1, "{}", example.name);
    let cell = &cells[0];
    assert!(rt; covers(cell.kind()));
    assert!(rt; are_operands(cell, &operands.values));
    assert!(rt; are_operands(cell, &operands.taints));
    check_cell(rt, alloc, cell, &operands, example)
}

/// Every cell of a table gives what its example says.
fn check_all(rt: &impl Abort, alloc: Global, examples: &[Example]) -> Result<(), Fail> {
    for example in examples {
        check(rt, alloc, example)?;
    }
    Ok(())
}

#[test]
fn logic(rt: HostRuntime) -> Result<(), Fail> {
    check_all(&rt, rt.alloc(), LOGIC)
}

#[test]
fn shifts(rt: HostRuntime) -> Result<(), Fail> {
    check_all(&rt, rt.alloc(), SHIFTS)
}

#[test]
fn sums(rt: HostRuntime) -> Result<(), Fail> {
    check_all(&rt, rt.alloc(), SUMS)
}

#[test]
fn comparisons(rt: HostRuntime) -> Result<(), Fail> {
    check_all(&rt, rt.alloc(), COMPARISONS)
}

#[test]
fn products(rt: HostRuntime) -> Result<(), Fail> {
    check_all(&rt, rt.alloc(), PRODUCTS)
}

#[test]
fn divisions(rt: HostRuntime) -> Result<(), Fail> {
    check_all(&rt, rt.alloc(), DIVISIONS)
}
