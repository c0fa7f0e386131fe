// The taint of comparisons and of equality.
ghost use Rattle.std.specs.Prelude.{◌≡◌, ◌^◌, ◌<◌, ◌≤◌};
ghost use Rattle.cif_defs.specs.Words.{extend, word_of, xor};
ghost use Rattle.rule_arith.specs.Bounds.{order_start};
ghost use Rattle.rule_arith.specs.EqualFormulas.{equal_taint};
ghost use Rattle.rule_arith.specs.OrderFormulas.{greater_taint, less_taint};
ghost use Rattle.word_sums.specs.Operands.{IsPairOf, taint_of};
ghost use Rattle.word_sums.specs.OrderNumbers.{bound_number, can_meet, meets_anywhere, order_differs, second_meets};

use crate::bounds::Bounds;
use crate::shape::{Pair, Shape, order_start, summand};
use crate::sums::Summand;
use crate::values::larger_width;
use cif_arith::less;
use word_numbers::{complement, extend, flag, has_one};

/// An operand of `bits` bits, extended to `width` bits, that starts where its bits make its number smaller.
fn ordered(width: u32, signed: bool, bits: u32, value: u128, taint: u128) -> Summand
    requires some { 1 ≤ width }
    requires limit { width ≤ 128 }
    requires some_bits { 1 ≤ bits }
    requires room { bits ≤ width }
    requires value_fits { value < 2 ^ bits }
    requires taint_fits { taint < 2 ^ bits }
    ensures value { word_of width result.value ≡ extend width signed (word_of bits value) }
    ensures value_fits { result.value < 2 ^ width }
    ensures taint { word_of width result.taint ≡ extend width signed (word_of bits taint) }
    ensures taint_fits { result.taint < 2 ^ width }
    ensures start { result.start ≡ order_start width signed bits }
    ensures start_fits { result.start ≤ width }
{
    Summand {
        value: extend(bits, width, signed, value),
        taint: extend(bits, width, signed, taint),
        start: order_start(width, signed, bits),
    }
}

/// `width` bits between the bounds of an operand.
fn bound(width: u32, operand: Summand, low: bool, high: bool) -> u128
    requires some { 1 ≤ width }
    requires limit { width ≤ 128 }
    requires value { operand.value < 2 ^ width }
    requires taint { operand.taint < 2 ^ width }
    requires start { operand.start ≤ width }
    ensures value { result ≡ bound_number width operand low high }
    ensures fits { result < 2 ^ width }
{
    let bounds = Bounds::of(width, operand.value, operand.taint);
    bounds.side(width, operand.start, low, high)
}

/// Whether exactly one of two bits is set.
fn is_one_of(a: bool, b: bool) -> bool
    ensures { result ≡ xor a b }
{
    if a { !b } else { b }
}

/// Whether it depends on tainted bits that the first operand is less than the second.
fn order_differs(width: u32, signed: bool, first: Summand, second: Summand) -> bool
    requires some { 1 ≤ width }
    requires limit { width ≤ 128 }
    requires first_value { first.value < 2 ^ width }
    requires first_taint { first.taint < 2 ^ width }
    requires first_start { first.start ≤ width }
    requires second_value { second.value < 2 ^ width }
    requires second_taint { second.taint < 2 ^ width }
    requires second_start { second.start ≤ width }
    ensures { result ≡ order_differs width signed first second }
{
    let least = bound(width, first, false, true);
    let greatest = bound(width, first, true, false);
    let other_least = bound(width, second, false, true);
    let other_greatest = bound(width, second, true, false);
    is_one_of(
        less(width, signed, least, other_greatest),
        less(width, signed, greatest, other_least),
    )
}

/// The taint of `$lt` and `$ge`.
pub fn less_taint(shape: Shape, values: Pair, taints: Pair) -> u128
    requires values { IsPairOf shape values }
    requires taints { IsPairOf shape taints }
    ensures word { word_of shape.y result ≡ taint_of less_taint shape values taints }
    ensures fits { result < 2 ^ shape.y }
{
    let width = larger_width(shape);
    let first = ordered(width, shape.signed, shape.a, values.a, taints.a);
    let second = ordered(width, shape.signed, shape.b, values.b, taints.b);
    flag(order_differs(width, shape.signed, first, second))
}

/// The taint of `$gt` and `$le`.
pub fn greater_taint(shape: Shape, values: Pair, taints: Pair) -> u128
    requires values { IsPairOf shape values }
    requires taints { IsPairOf shape taints }
    ensures word { word_of shape.y result ≡ taint_of greater_taint shape values taints }
    ensures fits { result < 2 ^ shape.y }
{
    let width = larger_width(shape);
    let first = ordered(width, shape.signed, shape.a, values.a, taints.a);
    let second = ordered(width, shape.signed, shape.b, values.b, taints.b);
    flag(order_differs(width, shape.signed, second, first))
}

/// Whether both operands can be the same in the case of these signs: a bit that one of them must have, both can have.
fn can_meet(
    width: u32,
    first: Summand,
    second: Summand,
    first_sign: bool,
    second_sign: bool,
) -> bool
    requires some { 1 ≤ width }
    requires limit { width ≤ 128 }
    requires first_value { first.value < 2 ^ width }
    requires first_taint { first.taint < 2 ^ width }
    requires first_start { first.start ≤ width }
    requires second_value { second.value < 2 ^ width }
    requires second_taint { second.taint < 2 ^ width }
    requires second_start { second.start ≤ width }
    ensures { result ≡ can_meet width first second first_sign second_sign }
{
    let one = bound(width, first, false, first_sign) | bound(width, second, false, second_sign);
    let both = bound(width, first, true, first_sign) & bound(width, second, true, second_sign);
    !has_one(one & complement(width, both))
}

/// The same in the case of the first sign, by the cases of the second.
fn second_meets(width: u32, first: Summand, second: Summand, first_sign: bool) -> bool
    requires some { 1 ≤ width }
    requires limit { width ≤ 128 }
    requires first_value { first.value < 2 ^ width }
    requires first_taint { first.taint < 2 ^ width }
    requires first_start { first.start ≤ width }
    requires second_value { second.value < 2 ^ width }
    requires second_taint { second.taint < 2 ^ width }
    requires second_start { second.start ≤ width }
    ensures { result ≡ second_meets width first second first_sign }
{
    let meets = can_meet(width, first, second, first_sign, false);
    if second.start < width {
        meets | can_meet(width, first, second, first_sign, true)
    } else {
        meets
    }
}

/// Whether both operands can be the same.
fn meets(width: u32, first: Summand, second: Summand) -> bool
    requires some { 1 ≤ width }
    requires limit { width ≤ 128 }
    requires first_value { first.value < 2 ^ width }
    requires first_taint { first.taint < 2 ^ width }
    requires first_start { first.start ≤ width }
    requires second_value { second.value < 2 ^ width }
    requires second_taint { second.taint < 2 ^ width }
    requires second_start { second.start ≤ width }
    ensures { result ≡ meets_anywhere width first second }
{
    let meets = second_meets(width, first, second, false);
    if first.start < width {
        meets | second_meets(width, first, second, true)
    } else {
        meets
    }
}

/// The taint of `$eq`, `$ne`, `$eqx` and `$nex`.
pub fn equal_taint(shape: Shape, values: Pair, taints: Pair) -> u128
    requires values { IsPairOf shape values }
    requires taints { IsPairOf shape taints }
    ensures word { word_of shape.y result ≡ taint_of equal_taint shape values taints }
    ensures fits { result < 2 ^ shape.y }
{
    let width = larger_width(shape);
    let first = summand(width, shape.signed, shape.a, values.a, taints.a);
    let second = summand(width, shape.signed, shape.b, values.b, taints.b);
    let tainted = has_one(taints.a) | has_one(taints.b);
    flag(meets(width, first, second) & tainted)
}
