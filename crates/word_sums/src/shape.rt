// The widths of a cell's ports, and its operands extended.
ghost use Rattle.std.specs.Prelude.{◌≡◌, ◌^◌, ◌<◌, ◌≤◌};
ghost use Rattle.cif_defs.specs.Words.{extend, word_of};
ghost use Rattle.rule_arith.specs.Bounds.{order_start, sign_start};

use crate::sums::Summand;
use word_numbers::extend;

/// How many bits A, B and the outputs of a cell have, 1 to 128 each, and whether its operands are signed. A cell with
/// one operand has 1 bit for B.
#[derive(Clone, Copy, Debug, PartialEq, Eq, Drop)]
pub struct Shape {
    pub a: u32,
    pub b: u32,
    pub y: u32,
    pub signed: bool,
    pub ghost some_a: { 1 ≤ a },
    pub ghost some_b: { 1 ≤ b },
    pub ghost some_y: { 1 ≤ y },
    pub ghost limit_a: { a ≤ 128 },
    pub ghost limit_b: { b ≤ 128 },
    pub ghost limit_y: { y ≤ 128 },
}

/// The numbers of two operands.
#[derive(Clone, Copy, Debug, PartialEq, Eq, Drop)]
pub struct Pair {
    pub a: u128,
    pub b: u128,
}

/// The place from which a word of `bits` bits, extended to `width` bits, shows its sign bit, or the width where it shows
/// it once at most.
pub fn sign_start(width: u32, signed: bool, bits: u32) -> u32
    requires { 1 ≤ bits }
    ensures value { result ≡ sign_start width signed bits }
    ensures inside { result ≤ width }
{
    if signed && bits < width {
        bits - 1
    } else {
        width
    }
}

/// The place from which a bit of a word of `bits` bits, extended to `width` bits, makes its number smaller, or the width
/// where none does.
pub fn order_start(width: u32, signed: bool, bits: u32) -> u32
    requires some { 1 ≤ bits }
    requires room { bits ≤ width }
    ensures value { result ≡ order_start width signed bits }
    ensures inside { result ≤ width }
{
    if signed { bits - 1 } else { width }
}

/// An operand of `bits` bits as a summand of `width` bits.
pub fn summand(width: u32, signed: bool, bits: u32, value: u128, taint: u128) -> Summand
    requires some { 1 ≤ width }
    requires limit { width ≤ 128 }
    requires some_bits { 1 ≤ bits }
    requires limit_bits { bits ≤ 128 }
    requires value_fits { value < 2 ^ bits }
    requires taint_fits { taint < 2 ^ bits }
    ensures value { word_of width result.value ≡ extend width signed (word_of bits value) }
    ensures value_fits { result.value < 2 ^ width }
    ensures taint { word_of width result.taint ≡ extend width signed (word_of bits taint) }
    ensures taint_fits { result.taint < 2 ^ width }
    ensures start { result.start ≡ sign_start width signed bits }
    ensures start_fits { result.start ≤ width }
{
    Summand {
        value: extend(bits, width, signed, value),
        taint: extend(bits, width, signed, taint),
        start: sign_start(width, signed, bits),
    }
}
