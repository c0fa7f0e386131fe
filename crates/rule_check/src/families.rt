// The comparison over all values and all taints of cells of small widths, in tables of families.
//
// A cell with operands of n bits together has 2^n values and 2^n taints, so 4^n cases.

ghost use Rattle.std.specs.Prelude.{◌≡◌, length, map};
ghost use Rattle.cif_defs.specs.Fitted.{IsFitted, operand_widths};

use crate::agree::agrees;
use crate::modules::{Shape, are_operands, module_of};
use crate::plain::is_coarse_taint;
use cif_bits::{Bits, NoMemory};
use cif_cells::{Cell, Kind, Netlist};
use cif_rules::{covers, is_exact, taint_of};
use std::alloc::Global;
use std::process::Abort;
use std::test::Fail;

/// The cells that a test compares: each kind with each of the signs and each of the widths, which are the numbers of its
/// parameters, in the order in which the table of kinds has them; and how many cases they are.
#[derive(Clone, Copy)]
struct Family {
    kinds: &'static [Kind],
    signs: &'static [&'static [u8]],
    widths: &'static [&'static [u8]],
    cases: u64,
}

/// No sign, one of A, and those of A and B.
const UNSIGNED: &[&[u8]] = &[&[]];

const SIGNS: &[&[u8]] = &[&[0], &[1]];

const PAIRS: &[&[u8]] = &[&[0, 0], &[0, 1], &[1, 0], &[1, 1]];

const SAME: &[&[u8]] = &[&[0, 0], &[1, 1]];

/// Widths of A, B and Y: 2 rows of 16, 4 of 64 and 2 of 256 cases, 800 together.
const SMALL: &[&[u8]] = &[
    &[1, 1, 1],
    &[1, 1, 3],
    &[1, 2, 1],
    &[1, 2, 3],
    &[2, 1, 1],
    &[2, 1, 3],
    &[2, 2, 1],
    &[2, 2, 3],
];

/// The same with Y of two bits in place of three.
const SMALL_TO_TWO: &[&[u8]] = &[
    &[1, 1, 1],
    &[1, 1, 2],
    &[1, 2, 1],
    &[1, 2, 2],
    &[2, 1, 1],
    &[2, 1, 2],
    &[2, 2, 1],
    &[2, 2, 2],
];

/// Bitwise and reducing kinds.
const LOGIC: &[Family] = &[
    // A_WIDTH, Y_WIDTH: 3 rows of 4 cases and 3 of 64
    Family {
        kinds: &[
            Kind::Not,
            Kind::Pos,
            Kind::ReduceAnd,
            Kind::ReduceOr,
            Kind::ReduceXor,
            Kind::ReduceXnor,
            Kind::ReduceBool,
            Kind::LogicNot,
        ],
        signs: SIGNS,
        widths: &[&[1, 1], &[1, 2], &[1, 4], &[3, 1], &[3, 2], &[3, 4]],
        cases: 8 * 2 * 204,
    },
    Family {
        kinds: &[
            Kind::And,
            Kind::Or,
            Kind::Xor,
            Kind::Xnor,
            Kind::LogicAnd,
            Kind::LogicOr,
        ],
        signs: PAIRS,
        widths: SMALL,
        cases: 6 * 4 * 800,
    },
];

/// Wiring kinds, and $fa.
const WIRING: &[Family] = &[
    // A_WIDTH, B_WIDTH
    Family {
        kinds: &[Kind::Concat],
        signs: UNSIGNED,
        widths: &[&[1, 1], &[1, 2], &[2, 1], &[2, 2]],
        cases: 16 + 64 + 64 + 256,
    },
    // OFFSET, A_WIDTH, Y_WIDTH
    Family {
        kinds: &[Kind::Slice],
        signs: UNSIGNED,
        widths: &[
            &[0, 3, 1],
            &[0, 3, 2],
            &[0, 3, 3],
            &[1, 3, 1],
            &[1, 3, 2],
            &[2, 3, 1],
        ],
        cases: 6 * 64,
    },
    // WIDTH: A, B and C have 3 bits together, or 6
    Family {
        kinds: &[Kind::Fa],
        signs: UNSIGNED,
        widths: &[&[1], &[2]],
        cases: 64 + 4_096,
    },
];

/// Sums.
const SUMS: &[Family] = &[
    // A_WIDTH, Y_WIDTH: 3 rows of 4 cases and 3 of 16
    Family {
        kinds: &[Kind::Neg],
        signs: SIGNS,
        widths: &[&[1, 1], &[1, 2], &[1, 4], &[2, 1], &[2, 2], &[2, 4]],
        cases: 2 * 60,
    },
    Family {
        kinds: &[Kind::Add, Kind::Sub],
        signs: PAIRS,
        widths: SMALL,
        cases: 2 * 4 * 800,
    },
];

const EQUALITIES: &[Family] = &[Family {
    kinds: &[Kind::Eq, Kind::Ne, Kind::Eqx, Kind::Nex],
    signs: PAIRS,
    widths: SMALL_TO_TWO,
    cases: 4 * 4 * 800,
}];

const ORDERS: &[Family] = &[Family {
    kinds: &[Kind::Lt, Kind::Le, Kind::Ge, Kind::Gt],
    signs: PAIRS,
    widths: SMALL_TO_TWO,
    cases: 4 * 4 * 800,
}];

/// Sums with carry in and inversion, which add 2 operand bits: 2 rows of 256 cases and 4 of 1,024.
const ALU: &[Family] = &[Family {
    kinds: &[Kind::Alu],
    signs: SAME,
    widths: &[
        &[1, 1, 1],
        &[1, 1, 2],
        &[1, 2, 1],
        &[1, 2, 2],
        &[2, 1, 1],
        &[2, 1, 2],
    ],
    cases: 2 * 4_608,
}];

/// The same with 6 operand bits, unsigned and signed.
const UNSIGNED_ALU: &[Family] = &[Family {
    kinds: &[Kind::Alu],
    signs: &[&[0, 0]],
    widths: &[&[2, 2, 1], &[2, 2, 2]],
    cases: 2 * 4_096,
}];

const SIGNED_ALU: &[Family] = &[Family {
    kinds: &[Kind::Alu],
    signs: &[&[1, 1]],
    widths: &[&[2, 2, 1], &[2, 2, 2]],
    cases: 2 * 4_096,
}];

/// Choices.
const CHOICES: &[Family] = &[
    // WIDTH: A, B and S have 3 bits together, or 5
    Family {
        kinds: &[Kind::Mux],
        signs: UNSIGNED,
        widths: &[&[1], &[2]],
        cases: 64 + 1_024,
    },
    // WIDTH, S_WIDTH: A, B and S have 3 bits together, or 5
    Family {
        kinds: &[Kind::Pmux],
        signs: UNSIGNED,
        widths: &[&[1, 1], &[1, 2]],
        cases: 64 + 1_024,
    },
    // A and S have 3 bits together, or 6
    Family {
        kinds: &[Kind::Bmux],
        signs: UNSIGNED,
        widths: &[&[1, 1], &[1, 2]],
        cases: 64 + 4_096,
    },
    // A and S have 2 bits together, or 3
    Family {
        kinds: &[Kind::Demux],
        signs: UNSIGNED,
        widths: &[&[1, 1], &[1, 2]],
        cases: 16 + 64,
    },
    // WIDTH, LUT: all 4 tables of one address bit, and of two none, nor, xor, and, implication, all
    Family {
        kinds: &[Kind::Lut],
        signs: UNSIGNED,
        widths: &[
            &[1, 0],
            &[1, 1],
            &[1, 2],
            &[1, 3],
            &[2, 0],
            &[2, 1],
            &[2, 6],
            &[2, 8],
            &[2, 13],
            &[2, 15],
        ],
        cases: 4 * 4 + 6 * 16,
    },
];

const SHIFTS: &[Family] = &[
    // A_WIDTH, B_WIDTH, Y_WIDTH: 2 rows of 64 cases and 2 of 256
    Family {
        kinds: &[Kind::Shl, Kind::Sshl, Kind::Shr, Kind::Sshr],
        signs: &[&[0, 0], &[1, 0]],
        widths: &[&[2, 1, 1], &[2, 1, 3], &[2, 2, 1], &[2, 2, 3]],
        cases: 4 * 2 * 640,
    },
    // rows of 64, 256, 256 and 1,024 cases
    Family {
        kinds: &[Kind::Shift, Kind::Shiftx],
        signs: PAIRS,
        widths: &[&[2, 1, 2], &[2, 2, 2], &[3, 1, 2], &[3, 2, 2]],
        cases: 2 * 4 * 1_600,
    },
];

/// Products and quotients.
const PRODUCTS: &[Family] = &[
    Family {
        kinds: &[Kind::Mul, Kind::Div],
        signs: PAIRS,
        widths: SMALL,
        cases: 2 * 4 * 800,
    },
    Family {
        kinds: &[Kind::Mul, Kind::Div],
        signs: PAIRS,
        widths: &[&[2, 3, 4], &[3, 2, 2]],
        cases: 2 * 4 * 2 * 1_024,
    },
];

/// The same with 6 operand bits.
const WIDE_PRODUCTS: &[Family] = &[
    Family {
        kinds: &[Kind::Mul],
        signs: SAME,
        widths: &[&[3, 3, 4]],
        cases: 2 * 4_096,
    },
    Family {
        kinds: &[Kind::Div],
        signs: SAME,
        widths: &[&[3, 3, 3]],
        cases: 2 * 4_096,
    },
];

const DIVISIONS: &[Family] = &[Family {
    kinds: &[Kind::Mod, Kind::DivFloor, Kind::ModFloor],
    signs: PAIRS,
    widths: SMALL,
    cases: 3 * 4 * 800,
}];

/// How many bits the operands have together.
fn operand_bits(cell: &Cell) -> u32 {
    let mut bits: u32 = 0;
    for sources in cell.operands() {
        bits = bits.saturating_add(sources.items().len().min(65536) as u32);
    }
    bits
}

/// The words of a cell's operands whose bits, those of the first operand lowest, are those of a number.
fn words_of(alloc: Global, cell: &Cell, number: u64) -> Result<Vec<Bits>, NoMemory> {
    let mut rest = number;
    let mut words = Vec::new(alloc);
    for sources in cell.operands() {
        let width = sources.items().len().max(1).min(63) as u32;
        words.push(Bits::from_u128(alloc, width, u128::from(rest))?)?;
        rest >>= width;
    }
    Ok(words)
}

/// Whether the terms of a cell give the right taint: that of the enumeration, or for a product or a division the one that
/// is worked out on plain numbers.
fn is_right(
    rt: &impl Abort,
    alloc: Global,
    cell: &Cell,
    values: &[Bits],
    taints: &[Bits],
) -> Result<bool, NoMemory>
    requires fitted { IsFitted cell.now }
    requires values { map length values.now ≡ operand_widths cell.now }
    requires taints { map length taints.now ≡ operand_widths cell.now }
{
    if is_exact(cell.kind()) {
        agrees(alloc, cell, values, taints)
    } else {
        assert!(rt; covers(cell.kind()));
        let words = taint_of(alloc, cell, values, taints)?;
        Ok(is_coarse_taint(rt, cell, values, taints, &words))
    }
}

/// Compares at all taints, which `count` numbers stand for.
fn compare_taints(
    rt: &impl Abort,
    alloc: Global,
    cell: &Cell,
    values: &[Bits],
    count: u64,
) -> Result<(), NoMemory>
    requires fitted { IsFitted cell.now }
    requires values { map length values.now ≡ operand_widths cell.now }
{
    for number in 0..count {
        let taints = words_of(alloc, cell, number)?;
        assert!(rt; are_operands(cell, &taints));
        assert!(rt; is_right(rt, alloc, cell, values, &taints)?);
    }
    Ok(())
}

/// Compares at all values, which `count` numbers stand for, and at all taints.
fn compare_values(rt: &impl Abort, alloc: Global, cell: &Cell, count: u64) -> Result<(), NoMemory>
    requires fitted { IsFitted cell.now }
{
    for number in 0..count {
        let values = words_of(alloc, cell, number)?;
        assert!(rt; are_operands(cell, &values));
        compare_taints(rt, alloc, cell, &values, count)?;
    }
    Ok(())
}

/// Compares the cell of a shape, which has at most 8 operand bits. Answers how many cases it has.
fn compare_cell(rt: &impl Abort, alloc: Global, shape: &Shape<'_>) -> Result<u64, Fail> {
    let module = module_of(alloc, shape)?;
    assert!(rt; module.is_in_order());
    let netlist = Netlist::build(alloc, module)?;
    let cells = netlist.cells();
    assert_eq!(rt; cells.len(), 1);
    let cell = &cells[0];
    let bits = operand_bits(cell);
    assert!(rt; bits <= 8);
    compare_values(rt, alloc, cell, 1 << bits)?;
    Ok(1 << (2 * bits))
}

/// Compares the cells of a kind with these signs and each of the widths. Answers how many cases they have.
fn compare_widths(
    rt: &impl Abort,
    alloc: Global,
    kind: Kind,
    signs: &[u8],
    widths: &[&[u8]],
) -> Result<u64, Fail> {
    let mut cases: u64 = 0;
    for some in widths {
        let mut numbers = Vec::from_slice(alloc, signs)?;
        numbers.extend_from_slice(some)?;
        let shape = Shape {
            kind,
            numbers: &numbers,
        };
        cases = cases.saturating_add(compare_cell(rt, alloc, &shape)?);
    }
    Ok(cases)
}

/// Compares the cells of a kind. Answers how many cases they have.
fn compare_kind(rt: &impl Abort, alloc: Global, kind: Kind, family: &Family) -> Result<u64, Fail> {
    let mut cases: u64 = 0;
    for signs in family.signs {
        let found = compare_widths(rt, alloc, kind, signs, family.widths)?;
        cases = cases.saturating_add(found);
    }
    Ok(cases)
}

/// Compares all cells of a family, which has as many cases as it says.
fn compare_family(rt: &impl Abort, alloc: Global, family: &Family) -> Result<(), Fail> {
    let mut cases: u64 = 0;
    for kind in family.kinds {
        cases = cases.saturating_add(compare_kind(rt, alloc, *kind, family)?);
    }
    assert_eq!(rt; cases, family.cases);
    Ok(())
}

/// Compares all families of a table.
fn compare_all(rt: &impl Abort, alloc: Global, families: &[Family]) -> Result<(), Fail> {
    for family in families {
        compare_family(rt, alloc, family)?;
    }
    Ok(())
}

#[test]
fn logic(rt: HostRuntime) -> Result<(), Fail> {
    compare_all(&rt, rt.alloc(), LOGIC)
}

#[test]
fn wiring(rt: HostRuntime) -> Result<(), Fail> {
    compare_all(&rt, rt.alloc(), WIRING)
}

#[test]
fn sums(rt: HostRuntime) -> Result<(), Fail> {
    compare_all(&rt, rt.alloc(), SUMS)
}

#[test]
fn equalities(rt: HostRuntime) -> Result<(), Fail> {
    compare_all(&rt, rt.alloc(), EQUALITIES)
}

#[test]
fn orders(rt: HostRuntime) -> Result<(), Fail> {
    compare_all(&rt, rt.alloc(), ORDERS)
}

#[test]
fn alu(rt: HostRuntime) -> Result<(), Fail> {
    compare_all(&rt, rt.alloc(), ALU)
}

#[test]
fn unsigned_alu(rt: HostRuntime) -> Result<(), Fail> {
    compare_all(&rt, rt.alloc(), UNSIGNED_ALU)
}

#[test]
fn signed_alu(rt: HostRuntime) -> Result<(), Fail> {
    compare_all(&rt, rt.alloc(), SIGNED_ALU)
}

#[test]
fn choices(rt: HostRuntime) -> Result<(), Fail> {
    compare_all(&rt, rt.alloc(), CHOICES)
}

#[test]
fn shifts(rt: HostRuntime) -> Result<(), Fail> {
    compare_all(&rt, rt.alloc(), SHIFTS)
}

#[test]
fn products(rt: HostRuntime) -> Result<(), Fail> {
    compare_all(&rt, rt.alloc(), PRODUCTS)
}

#[test]
fn wide_products(rt: HostRuntime) -> Result<(), Fail> {
    compare_all(&rt, rt.alloc(), WIDE_PRODUCTS)
}

#[test]
fn divisions(rt: HostRuntime) -> Result<(), Fail> {
    compare_all(&rt, rt.alloc(), DIVISIONS)
}
