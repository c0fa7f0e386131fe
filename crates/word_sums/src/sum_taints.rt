// The taint of $add, $sub and $neg.
ghost use Rattle.std.specs.Prelude.{◌≡◌, ◌^◌, ◌<◌, ◌≤◌, false};
ghost use Rattle.cif_defs.specs.Words.{word_of};
ghost use Rattle.cif_defs.specs.Meanings.{not_word};
ghost use Rattle.rule_arith.specs.SumFormulas.{add_taint, neg_taint, sub_taint};
ghost use Rattle.word_sums.specs.Operands.{IsPairOf, taint_of, taint_of_one};

use crate::shape::{Pair, Shape, summand};
use crate::sums::{Summand, sum_taint};
use word_numbers::complement;

/// The taint of `$add`.
pub fn add_taint(shape: Shape, values: Pair, taints: Pair) -> u128
    requires values { IsPairOf shape values }
    requires taints { IsPairOf shape taints }
    ensures word { word_of shape.y result ≡ taint_of add_taint shape values taints }
    ensures fits { result < 2 ^ shape.y }
{
    let first = summand(shape.y, shape.signed, shape.a, values.a, taints.a);
    let second = summand(shape.y, shape.signed, shape.b, values.b, taints.b);
    sum_taint(shape.y, first, second)
}

/// The complement of a summand of `width` bits.
fn complemented(width: u32, summand: Summand) -> Summand
    requires some { 1 ≤ width }
    requires limit { width ≤ 128 }
    ensures value { word_of width result.value ≡ not_word width false (word_of width summand.value) }
    ensures value_fits { result.value < 2 ^ width }
    ensures taint { result.taint ≡ summand.taint }
    ensures start { result.start ≡ summand.start }
{
    Summand {
        value: complement(width, summand.value),
        taint: summand.taint,
        start: summand.start,
    }
}

/// The taint of `$sub`: A - B is the complement of the sum of the complement of A and B.
pub fn sub_taint(shape: Shape, values: Pair, taints: Pair) -> u128
    requires values { IsPairOf shape values }
    requires taints { IsPairOf shape taints }
    ensures word { word_of shape.y result ≡ taint_of sub_taint shape values taints }
    ensures fits { result < 2 ^ shape.y }
{
    let first = summand(shape.y, shape.signed, shape.a, values.a, taints.a);
    let second = summand(shape.y, shape.signed, shape.b, values.b, taints.b);
    sum_taint(shape.y, complemented(shape.y, first), second)
}

/// The taint of `$neg`: -A is the complement of A, and 1.
pub fn neg_taint(shape: Shape, value: u128, taint: u128) -> u128
    requires value { value < 2 ^ shape.a }
    requires taint { taint < 2 ^ shape.a }
    ensures word { word_of shape.y result ≡ taint_of_one neg_taint shape value taint }
    ensures fits { result < 2 ^ shape.y }
{
    let first = summand(shape.y, shape.signed, shape.a, value, taint);
    let unit = Summand {
        value: 1,
        taint: 0,
        start: shape.y,
    };
    sum_taint(shape.y, complemented(shape.y, first), unit)
}
