// Divisions of numbers that may be signed.

ghost use Rattle.std.specs.Prelude.{◌≡◌, ◌^◌, ◌<◌, ◌≤◌, int_div, int_rem};
ghost use Rattle.cif_defs.specs.Meanings.{floor_div, floor_rem};
ghost use Rattle.cif_arith.specs.NumbersOfBits.{division};

use crate::integer::Integer;

/// What `$div` gives: the quotient rounded toward zero, as IEEE 1364 has `/`, modulo `2^width`.
///
/// The width is 1 to 128 bits, and both operands are numbers of that width. A zero divisor gives 0. The least signed
/// number divided by -1 gives itself, since its negative is the same modulo `2^width`.
pub fn div(width: u32, signed: bool, a: u128, b: u128) -> u128
    requires some { 1 ≤ width }
    requires limit { width ≤ 128 }
    requires a_fits { a < 2 ^ width }
    requires b_fits { b < 2 ^ width }
    ensures { result ≡ division int_div width signed a b }
{
    let divisor = Integer::new(width, signed, b);
    if divisor.is_zero() {
        return 0;
    }
    Integer::new(width, signed, a)
        .quotient(&divisor)
        .residue(width)
}

/// What `$mod` gives: the remainder of `div`, which has the dividend's sign, as IEEE 1364 has `%`, modulo `2^width`.
///
/// The width is 1 to 128 bits, and both operands are numbers of that width. A zero divisor gives 0.
pub fn modulo(width: u32, signed: bool, a: u128, b: u128) -> u128
    requires some { 1 ≤ width }
    requires limit { width ≤ 128 }
    requires a_fits { a < 2 ^ width }
    requires b_fits { b < 2 ^ width }
    ensures { result ≡ division int_rem width signed a b }
{
    let divisor = Integer::new(width, signed, b);
    if divisor.is_zero() {
        return 0;
    }
    Integer::new(width, signed, a)
        .remainder(&divisor)
        .residue(width)
}

/// What `$divfloor` gives: the quotient rounded toward minus infinity, modulo `2^width`.
///
/// The width is 1 to 128 bits, and both operands are numbers of that width. A zero divisor gives 0.
pub fn div_floor(width: u32, signed: bool, a: u128, b: u128) -> u128
    requires some { 1 ≤ width }
    requires limit { width ≤ 128 }
    requires a_fits { a < 2 ^ width }
    requires b_fits { b < 2 ^ width }
    ensures { result ≡ division floor_div width signed a b }
{
    let divisor = Integer::new(width, signed, b);
    if divisor.is_zero() {
        return 0;
    }
    Integer::new(width, signed, a)
        .floor_quotient(&divisor)
        .residue(width)
}

/// What `$modfloor` gives: `a - b * quotient` with the quotient of `div_floor`, modulo `2^width`.
///
/// The width is 1 to 128 bits, and both operands are numbers of that width. A zero divisor gives 0, and otherwise the
/// remainder has the divisor's sign.
pub fn mod_floor(width: u32, signed: bool, a: u128, b: u128) -> u128
    requires some { 1 ≤ width }
    requires limit { width ≤ 128 }
    requires a_fits { a < 2 ^ width }
    requires b_fits { b < 2 ^ width }
    ensures { result ≡ division floor_rem width signed a b }
{
    let divisor = Integer::new(width, signed, b);
    if divisor.is_zero() {
        return 0;
    }
    Integer::new(width, signed, a)
        .floor_remainder(&divisor)
        .residue(width)
}
