// The coarse taint of products and divisions.
ghost use Rattle.std.specs.Prelude.{◌≡◌, ◌^◌, ◌<◌, ◌≤◌, ◌+◌, ◌/◌, false, take, if◌then◌else◌};
ghost use Rattle.cif_defs.specs.Words.{has_one, word, word_of};
ghost use Rattle.word_sums.specs.CoarseWords.{divides_of, division_taint_of, product_taint_of, quotient_taint_of};
ghost use Rattle.word_sums.specs.Operands.{IsPairOf};

use crate::bounds::Bounds;
use crate::shape::{Pair, Shape, summand};
use cif_arith::add;
use word_numbers::{complement, filled, has_one, mask, repeated};

// ---- divisions: every bit or none

/// Whether an operand is tainted and B can be other than 0.
fn divides(shape: Shape, values: Pair, taints: Pair) -> bool
    requires values { IsPairOf shape values }
    requires taints { IsPairOf shape taints }
    ensures { result ≡ divides_of shape values taints }
{
    let tainted = has_one(taints.a) | has_one(taints.b);
    tainted & has_one(values.b | taints.b)
}

/// The taint of signed `$div`, `$mod`, `$divfloor` and `$modfloor`: every bit, but none where nothing is tainted or B is
/// a known zero.
pub fn division_taint(shape: Shape, values: Pair, taints: Pair) -> u128
    requires values { IsPairOf shape values }
    requires taints { IsPairOf shape taints }
    ensures word { word_of shape.y result ≡ division_taint_of shape values taints }
    ensures fits { result < 2 ^ shape.y }
{
    repeated(shape.y, divides(shape, values, taints))
}

// ---- products: every bit from the lowest tainted place on

/// The places of a number that are 1 or have a 1 below them: less 1, the bits above its lowest 1 stay, and that bit and
/// all below it turn.
fn from_lowest(width: u32, number: u128) -> u128
    requires some { 1 ≤ width }
    requires limit { width ≤ 128 }
    requires fits { number < 2 ^ width }
    ensures word { word_of width result ≡ word width (λ i. has_one (take (i + 1) (word_of width number))) }
    ensures fits { result < 2 ^ width }
{
    number | complement(width, add(width, number, mask(width)))
}

/// The taint of `$mul`: every bit at or above the lowest tainted place, but none where a factor is a known zero.
pub fn product_taint(shape: Shape, values: Pair, taints: Pair) -> u128
    requires values { IsPairOf shape values }
    requires taints { IsPairOf shape taints }
    ensures word { word_of shape.y result ≡ product_taint_of shape values taints }
    ensures fits { result < 2 ^ shape.y }
{
    let first = summand(shape.y, shape.signed, shape.a, values.a, taints.a);
    let second = summand(shape.y, shape.signed, shape.b, values.b, taints.b);
    let factors = has_one(first.value | first.taint) & has_one(second.value | second.taint);
    let places = from_lowest(shape.y, first.taint | second.taint);
    places & repeated(shape.y, factors)
}

// ---- unsigned quotients: every bit up to the highest place where the least and the largest quotient differ

/// A quotient of bounds of A and B: where B can be 0, what stands for it.
fn quotient_bound(unsure: bool, whole: u128, dividend: u128, divisor: u128) -> u128
    requires { unsure ≡ false → 0 < divisor }
    ensures { result ≡ (if unsure then whole else dividend / divisor) }
{
    if unsure { whole } else { dividend / divisor }
}

/// The taint of unsigned `$div`: every bit at or below the highest place where the least and the largest quotient
/// differ, but none where nothing is tainted or B is a known zero.
pub fn quotient_taint(shape: Shape, values: Pair, taints: Pair) -> u128
    requires values { IsPairOf shape values }
    requires taints { IsPairOf shape taints }
    ensures word { word_of shape.y result ≡ quotient_taint_of shape values taints }
    ensures fits { result < 2 ^ shape.y }
{
    let a = Bounds::of(shape.a, values.a, taints.a);
    let b = Bounds::of(shape.b, values.b, taints.b);
    let unsure = b.least == 0;
    let low = quotient_bound(unsure, 0, a.least, b.greatest);
    let high = quotient_bound(unsure, a.greatest, a.greatest, b.least);
    let tainted = divides(shape, values, taints);
    filled(low ^ high) & repeated(shape.y, tainted)
}
