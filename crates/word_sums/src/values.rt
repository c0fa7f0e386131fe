// The values of sums, products, divisions and comparisons.
ghost use Rattle.std.specs.Prelude.{◌≡◌, ◌^◌, ◌<◌, ◌≤◌, max, not, int_lt, int_le};
ghost use Rattle.std.specs.Ordering.{int_eq};
ghost use Rattle.cif_defs.specs.Words.{extend, number, word_of};
ghost use Rattle.cif_defs.specs.Meanings.{add_word, div_word, divfloor_word, mod_word, modfloor_word, mul_word, neg_word, sub_word};
ghost use Rattle.word_sums.specs.Operands.{IsPairOf, compared_of, row_of};

use crate::shape::{Pair, Shape};
use cif_arith::{add, div, div_floor, less, mod_floor, modulo, mul, neg, sub};
use word_numbers::{extend, lowest};

/// The number of a word of `bits` bits that is cut or extended to `width` bits.
fn extended(width: u32, signed: bool, bits: u32, value: u128) -> u128
    requires some { 1 ≤ width }
    requires limit { width ≤ 128 }
    requires some_bits { 1 ≤ bits }
    requires limit_bits { bits ≤ 128 }
    requires fits { value < 2 ^ bits }
    ensures value { result ≡ number (extend width signed (word_of bits value)) }
    ensures fits { result < 2 ^ width }
{
    extend(bits, width, signed, value)
}

/// The numbers of both operands, cut or extended to `width` bits.
pub fn extended_pair(width: u32, shape: Shape, values: Pair) -> Pair
    requires some { 1 ≤ width }
    requires limit { width ≤ 128 }
    requires values { IsPairOf shape values }
    ensures a { result.a ≡ number (extend width shape.signed (word_of shape.a values.a)) }
    ensures b { result.b ≡ number (extend width shape.signed (word_of shape.b values.b)) }
    ensures a_fits { result.a < 2 ^ width }
    ensures b_fits { result.b < 2 ^ width }
{
    Pair {
        a: extended(width, shape.signed, shape.a, values.a),
        b: extended(width, shape.signed, shape.b, values.b),
    }
}

// ---- sums and products

/// What `$add` gives.
pub fn add_value(shape: Shape, values: Pair) -> u128
    requires values { IsPairOf shape values }
    ensures word { word_of shape.y result ≡ row_of add_word shape values }
    ensures fits { result < 2 ^ shape.y }
{
    let numbers = extended_pair(shape.y, shape, values);
    add(shape.y, numbers.a, numbers.b)
}

/// What `$sub` gives.
pub fn sub_value(shape: Shape, values: Pair) -> u128
    requires values { IsPairOf shape values }
    ensures word { word_of shape.y result ≡ row_of sub_word shape values }
    ensures fits { result < 2 ^ shape.y }
{
    let numbers = extended_pair(shape.y, shape, values);
    sub(shape.y, numbers.a, numbers.b)
}

/// What `$mul` gives.
pub fn mul_value(shape: Shape, values: Pair) -> u128
    requires values { IsPairOf shape values }
    ensures word { word_of shape.y result ≡ row_of mul_word shape values }
    ensures fits { result < 2 ^ shape.y }
{
    let numbers = extended_pair(shape.y, shape, values);
    mul(shape.y, numbers.a, numbers.b)
}

/// What `$neg` gives.
pub fn neg_value(shape: Shape, value: u128) -> u128
    requires value { value < 2 ^ shape.a }
    ensures word { word_of shape.y result ≡ neg_word shape.y shape.signed (word_of shape.a value) }
    ensures fits { result < 2 ^ shape.y }
{
    neg(shape.y, extended(shape.y, shape.signed, shape.a, value))
}

// ---- divisions, at a width that holds both operands and the output

/// The width at which a division computes.
fn division_width(shape: Shape) -> u32
    ensures a { shape.a ≤ result }
    ensures b { shape.b ≤ result }
    ensures y { shape.y ≤ result }
    ensures limit { result ≤ 128 }
{
    shape.a.max(shape.b).max(shape.y)
}

/// What `$div` gives.
pub fn div_value(shape: Shape, values: Pair) -> u128
    requires values { IsPairOf shape values }
    ensures word { word_of shape.y result ≡ row_of div_word shape values }
    ensures fits { result < 2 ^ shape.y }
{
    let width = division_width(shape);
    let numbers = extended_pair(width, shape, values);
    lowest(shape.y, div(width, shape.signed, numbers.a, numbers.b))
}

/// What `$mod` gives.
pub fn mod_value(shape: Shape, values: Pair) -> u128
    requires values { IsPairOf shape values }
    ensures word { word_of shape.y result ≡ row_of mod_word shape values }
    ensures fits { result < 2 ^ shape.y }
{
    let width = division_width(shape);
    let numbers = extended_pair(width, shape, values);
    lowest(shape.y, modulo(width, shape.signed, numbers.a, numbers.b))
}

/// What `$divfloor` gives.
pub fn divfloor_value(shape: Shape, values: Pair) -> u128
    requires values { IsPairOf shape values }
    ensures word { word_of shape.y result ≡ row_of divfloor_word shape values }
    ensures fits { result < 2 ^ shape.y }
{
    let width = division_width(shape);
    let numbers = extended_pair(width, shape, values);
    lowest(
        shape.y,
        div_floor(width, shape.signed, numbers.a, numbers.b),
    )
}

/// What `$modfloor` gives.
pub fn modfloor_value(shape: Shape, values: Pair) -> u128
    requires values { IsPairOf shape values }
    ensures word { word_of shape.y result ≡ row_of modfloor_word shape values }
    ensures fits { result < 2 ^ shape.y }
{
    let width = division_width(shape);
    let numbers = extended_pair(width, shape, values);
    lowest(
        shape.y,
        mod_floor(width, shape.signed, numbers.a, numbers.b),
    )
}

// ---- comparisons, at the larger of both operands' widths

/// The larger width of A and B.
pub fn larger_width(shape: Shape) -> u32
    ensures value { result ≡ max shape.a shape.b }
    ensures limit { result ≤ 128 }
{
    shape.a.max(shape.b)
}

/// Whether the number of A is less than that of B.
pub fn is_less(shape: Shape, values: Pair) -> bool
    requires values { IsPairOf shape values }
    ensures { result ≡ compared_of int_lt shape values }
{
    let width = larger_width(shape);
    let numbers = extended_pair(width, shape, values);
    less(width, shape.signed, numbers.a, numbers.b)
}

/// Whether the number of A is greater than that of B.
pub fn is_greater(shape: Shape, values: Pair) -> bool
    requires values { IsPairOf shape values }
    ensures { not result ≡ compared_of int_le shape values }
{
    let width = larger_width(shape);
    let numbers = extended_pair(width, shape, values);
    less(width, shape.signed, numbers.b, numbers.a)
}

/// Whether the numbers of A and B are the same.
pub fn is_equal(shape: Shape, values: Pair) -> bool
    requires values { IsPairOf shape values }
    ensures { result ≡ compared_of int_eq shape values }
{
    let numbers = extended_pair(larger_width(shape), shape, values);
    numbers.a == numbers.b
}
