// Sums, differences and products modulo a power of two, and sums with carries.
//
// The wrapping operations of `u128` compute modulo 2^128. What they leave out is a multiple of 2^128, hence of
// 2^width, so the lowest bits of their results are exact at every width, also those of a product of 256 bits.

ghost use Rattle.std.specs.Prelude.{◌≡◌, ◌+◌, ◌-◌, ◌*◌, ◌%◌, ◌^◌, ◌<◌, ◌≤◌, pos, ◌-ℤ◌, neg_ℤ, bit_xor};
ghost use Rattle.cif_defs.specs.Words.{bit_value};
ghost use Rattle.cif_arith.specs.NumbersOfBits.{residue, inverted_where, carries};

/// The highest number of `width` bits.
pub(crate) fn mask(width: u32) -> u128
    requires some { 1 ≤ width }
    requires limit { width ≤ 128 }
    ensures { result ≡ 2 ^ width - 1 }
{
    u128::MAX >> (128 - width)
}

/// The lowest `width` bits of a number.
pub(crate) fn lowest(width: u32, number: u128) -> u128
    requires some { 1 ≤ width }
    requires limit { width ≤ 128 }
    ensures { result ≡ number % 2 ^ width }
{
    number & mask(width)
}

/// What `$add` gives: the sum modulo `2^width`.
///
/// The width is 1 to 128 bits. Of each operand only its lowest `width` bits count, so any number may be given.
pub fn add(width: u32, a: u128, b: u128) -> u128
    requires some { 1 ≤ width }
    requires limit { width ≤ 128 }
    ensures { result ≡ (a + b) % 2 ^ width }
{
    lowest(width, a.wrapping_add(b))
}

/// What `$sub` gives: the difference modulo `2^width`.
///
/// The width is 1 to 128 bits. Of each operand only its lowest `width` bits count, so any number may be given.
pub fn sub(width: u32, a: u128, b: u128) -> u128
    requires some { 1 ≤ width }
    requires limit { width ≤ 128 }
    ensures { result ≡ residue width (pos a -ℤ pos b) }
{
    lowest(width, a.wrapping_sub(b))
}

/// What `$neg` gives: the negative modulo `2^width`.
///
/// The width is 1 to 128 bits. Of the operand only its lowest `width` bits count, so any number may be given.
pub fn neg(width: u32, a: u128) -> u128
    requires some { 1 ≤ width }
    requires limit { width ≤ 128 }
    ensures { result ≡ residue width (neg_ℤ (pos a)) }
{
    sub(width, 0, a)
}

/// What `$mul` gives: the product modulo `2^width`.
///
/// The width is 1 to 128 bits. Of each operand only its lowest `width` bits count, so any number may be given. The
/// whole product may have 256 bits; it is computed modulo `2^128`, which `2^width` divides, so the answer is exact.
pub fn mul(width: u32, a: u128, b: u128) -> u128
    requires some { 1 ≤ width }
    requires limit { width ≤ 128 }
    ensures { result ≡ (a * b) % 2 ^ width }
{
    lowest(width, a.wrapping_mul(b))
}

/// The number, or where `invert` is set its complement in `width` bits.
fn inverted(width: u32, invert: bool, number: u128) -> u128
    requires some { 1 ≤ width }
    requires limit { width ≤ 128 }
    requires fits { number < 2 ^ width }
    ensures value { result ≡ inverted_where invert width number }
    ensures fits { result < 2 ^ width }
{
    if invert { mask(width) - number } else { number }
}

/// What `$alu` gives: three numbers of as many bits as its operands have.
#[derive(Clone, Copy, Debug, PartialEq, Eq, Drop)]
pub struct AluOut {
    /// The exclusive or of both summands, bit by bit.
    pub x: u128,
    /// The sum of both summands and the carry in.
    pub y: u128,
    /// Bit i is the carry out of place i.
    pub co: u128,
}

/// What `$alu` gives: `a` and `b`, or where `invert` is set the complement of `b`, added with a carry in.
///
/// The width is 1 to 128 bits, and both operands are numbers of that width. `carry` is the cell's CI and `invert` its
/// BI: with both set, `y` is the difference.
pub fn alu(width: u32, a: u128, b: u128, carry: bool, invert: bool) -> AluOut
    requires some { 1 ≤ width }
    requires limit { width ≤ 128 }
    requires a_fits { a < 2 ^ width }
    requires b_fits { b < 2 ^ width }
    ensures x { result.x ≡ bit_xor a (inverted_where invert width b) }
    ensures y { result.y ≡ (a + inverted_where invert width b + bit_value carry) % 2 ^ width }
    ensures co { result.co ≡ carries width a (inverted_where invert width b) carry }
{
    let operand = inverted(width, invert, b);
    let y = lowest(width, a.wrapping_add(operand).wrapping_add(carry as u128));
    AluOut {
        x: a ^ operand,
        y,
        // a carry leaves a place where both bits are 1, or where one is and the sum's bit is 0
        co: (a & operand) | ((a | operand) & !y),
    }
}
