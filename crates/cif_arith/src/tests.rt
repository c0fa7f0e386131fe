// Each call at chosen operands. Expected numbers were worked by hand.
ghost use Rattle.std.specs.Prelude.{◌<◌, ◌≤◌, ◌^◌};

use super::{AluOut, add, alu, div, div_floor, less, mod_floor, modulo, mul, neg, sub};

// the least signed number of 128 bits
const LEAST: u128 = 1 << 127;

// (2^64 + 1)^2 is 2^128 + 2^65 + 1
const FACTOR: u128 = 0x1_0000_0000_0000_0001;

// What is computed.
#[derive(Clone, Copy, Drop)]
enum Call {
    Add,
    Sub,
    Neg,
    Mul,
    Less(bool),
    Div(bool),
    Modulo(bool),
    DivFloor(bool),
    ModFloor(bool),
}

// A name, the call and whether its operands are signed, the width, both operands, and the answer.
const ROWS: [(&str, Call, u32, u128, u128, u128); 43] = [
    ("wide-add", Call::Add, 128, u128::MAX, 1, 0),
    ("carry dropped", Call::Add, 8, 200, 100, 44),
    ("one bit", Call::Add, 1, 1, 1, 0),
    ("borrow", Call::Sub, 8, 3, 5, 254),
    ("wide borrow", Call::Sub, 128, 0, 1, u128::MAX),
    ("negative", Call::Neg, 8, 1, 0, 255),
    ("negative of the least", Call::Neg, 128, LEAST, 0, LEAST),
    ("product", Call::Mul, 8, 16, 17, 16),
    (
        "product past 128 bits",
        Call::Mul,
        100,
        FACTOR,
        FACTOR,
        0x2_0000_0000_0000_0001,
    ),
    ("widest product", Call::Mul, 128, u128::MAX, u128::MAX, 1),
    (
        "shiftx-and-div-plain",
        Call::Div(true),
        8,
        0b1000_0000,
        0b1111_1111,
        0b1000_0000,
    ),
    ("-7 / 2", Call::Div(true), 8, 249, 2, 253),
    ("7 / -2", Call::Div(true), 8, 7, 254, 253),
    ("-7 / -2", Call::Div(true), 8, 249, 254, 3),
    ("-6 / 2", Call::Div(true), 8, 250, 2, 253),
    ("-7 / 0", Call::Div(true), 8, 249, 0, 0),
    ("249 / 2", Call::Div(false), 8, 249, 2, 124),
    ("most / 0", Call::Div(false), 128, u128::MAX, 0, 0),
    ("least / -1", Call::Div(true), 128, LEAST, u128::MAX, LEAST),
    ("-1 / -1", Call::Div(true), 1, 1, 1, 1),
    ("-7 % 2", Call::Modulo(true), 8, 249, 2, 255),
    ("7 % -2", Call::Modulo(true), 8, 7, 254, 1),
    ("-7 % -2", Call::Modulo(true), 8, 249, 254, 255),
    ("-6 % 2", Call::Modulo(true), 8, 250, 2, 0),
    ("-7 % 0", Call::Modulo(true), 8, 249, 0, 0),
    ("least % -1", Call::Modulo(true), 128, LEAST, u128::MAX, 0),
    ("-7 / 2, floor", Call::DivFloor(true), 8, 249, 2, 252),
    ("7 / -2, floor", Call::DivFloor(true), 8, 7, 254, 252),
    ("-7 / -2, floor", Call::DivFloor(true), 8, 249, 254, 3),
    ("-6 / 2, floor", Call::DivFloor(true), 8, 250, 2, 253),
    ("-7 / 0, floor", Call::DivFloor(true), 8, 249, 0, 0),
    // -2^127 is 3 * -0x2aaa_aaaa_aaaa_aaaa_aaaa_aaaa_aaaa_aaab + 1
    (
        "least / 3, floor",
        Call::DivFloor(true),
        128,
        LEAST,
        3,
        0xd555_5555_5555_5555_5555_5555_5555_5555,
    ),
    ("-7 % 2, floor", Call::ModFloor(true), 8, 249, 2, 1),
    ("7 % -2, floor", Call::ModFloor(true), 8, 7, 254, 255),
    ("-7 % -2, floor", Call::ModFloor(true), 8, 249, 254, 255),
    ("-6 % 2, floor", Call::ModFloor(true), 8, 250, 2, 0),
    ("-7 % 0, floor", Call::ModFloor(true), 8, 249, 0, 0),
    ("249 % 2, floor", Call::ModFloor(false), 8, 249, 2, 1),
    ("-1 < 0", Call::Less(true), 8, 255, 0, 1),
    ("255 < 0", Call::Less(false), 8, 255, 0, 0),
    ("-7 < -6", Call::Less(true), 8, 249, 250, 1),
    ("3 < 3", Call::Less(true), 8, 3, 3, 0),
    ("least < 0", Call::Less(true), 128, LEAST, 0, 1),
];

// The answer of a call.
fn answer(call: Call, width: u32, a: u128, b: u128) -> u128
    requires some { 1 ≤ width }
    requires limit { width ≤ 128 }
    requires a_fits { a < 2 ^ width }
    requires b_fits { b < 2 ^ width }
{
    match call {
        Call::Add => add(width, a, b),
        Call::Sub => sub(width, a, b),
        Call::Neg => neg(width, a),
        Call::Mul => mul(width, a, b),
        Call::Less(signed) => less(width, signed, a, b) as u128,
        Call::Div(signed) => div(width, signed, a, b),
        Call::Modulo(signed) => modulo(width, signed, a, b),
        Call::DivFloor(signed) => div_floor(width, signed, a, b),
        Call::ModFloor(signed) => mod_floor(width, signed, a, b),
    }
}

#[test]
fn numbers(rt: HostRuntime) {
    for (name, call, width, a, b, want) in ROWS {
        assert!(rt; 1 <= width && width <= 128);
        let most = crate::sums::mask(width);
        assert!(rt; a <= most && b <= most);
        assert_eq!(rt; answer(call, width, a, b), want, "{name}");
    }
}

// Both operands, the carry in and whether it inverts, at a width, and the words of the answer.
const SUMS: [(u32, u128, u128, bool, bool, [u128; 3]); 3] = [
    (4, 0b0011, 0b0001, true, true, [0b1101, 0b0010, 0b1111]),
    (4, 0b0101, 0b0011, false, true, [0b1001, 0b0001, 0b1100]),
    (128, u128::MAX, 0, true, false, [u128::MAX, 0, u128::MAX]),
];

#[test]
fn alu_words(rt: HostRuntime) {
    for (width, a, b, carry, invert, [x, y, co]) in SUMS {
        assert!(rt; 1 <= width && width <= 128);
        let most = crate::sums::mask(width);
        assert!(rt; a <= most && b <= most);
        assert_eq!(rt; alu(width, a, b, carry, invert), AluOut { x, y, co });
    }
}
