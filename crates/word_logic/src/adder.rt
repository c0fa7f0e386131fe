// $fa: at each place a majority and a parity of three bits.
ghost use Rattle.std.specs.Prelude.{ℕ, ◌≡◌, ◌^◌, ◌<◌, ◌≤◌, [], ◌∷◌};
ghost use Rattle.cif_defs.specs.Words.{word_of};
ghost use Rattle.cif_defs.specs.Meanings.{fa_majority_word, fa_sum_word};
ghost use Rattle.word_numbers.specs.HeldWords.{AreNarrow};
ghost use Rattle.word_logic.specs.LogicWords.{carry_taint, highest_carry, lowest_carry, parity_taint};

use crate::bounds::{greatest, least};
use word_numbers::{Words, complement};

/// The majority of three bits at each place, at any width.
fn majority(a: u128, b: u128, c: u128) -> u128
    ensures word { (n : ℕ) → word_of n result ≡ fa_majority_word n (word_of n a) (word_of n b) (word_of n c) }
    ensures fits { (n : ℕ) → a < 2 ^ n → b < 2 ^ n → c < 2 ^ n → result < 2 ^ n }
{
    (a & b) | (c & (a | b))
}

/// X of `$fa`: the carries.
pub fn carry_value(values: &Words) -> u128
    ensures word { (n : ℕ) → word_of n result
        ≡ fa_majority_word n (word_of n values.now.a) (word_of n values.now.b) (word_of n values.now.c) }
    ensures fits { (n : ℕ) → values.now.a < 2 ^ n → values.now.b < 2 ^ n → values.now.c < 2 ^ n → result < 2 ^ n }
{
    majority(values.a, values.b, values.c)
}

/// Y of `$fa`: the sums.
pub fn sum_value(values: &Words) -> u128
    ensures word { (n : ℕ) → word_of n result
        ≡ fa_sum_word n (word_of n values.now.a) (word_of n values.now.b) (word_of n values.now.c) }
    ensures fits { (n : ℕ) → values.now.a < 2 ^ n → values.now.b < 2 ^ n → values.now.c < 2 ^ n → result < 2 ^ n }
{
    (values.a ^ values.b) ^ values.c
}

/// The majority with all tainted bits set.
fn highest(width: u32, values: &Words, taints: &Words) -> u128
    requires some { 1 ≤ width }
    requires limit { width ≤ 128 }
    requires values { AreNarrow (width ∷ width ∷ width ∷ []) values.now }
    requires taints { AreNarrow (width ∷ width ∷ width ∷ []) taints.now }
    ensures word { word_of width result ≡ highest_carry width (word_of width values.now.a) (word_of width taints.now.a)
        (word_of width values.now.b) (word_of width taints.now.b) (word_of width values.now.c) (word_of width taints.now.c) }
    ensures fits { result < 2 ^ width }
{
    let a = greatest(width, values.a, taints.a);
    let b = greatest(width, values.b, taints.b);
    let c = greatest(width, values.c, taints.c);
    majority(a, b, c)
}

/// The majority with all tainted bits cleared.
fn lowest(width: u32, values: &Words, taints: &Words) -> u128
    requires some { 1 ≤ width }
    requires limit { width ≤ 128 }
    requires values { AreNarrow (width ∷ width ∷ width ∷ []) values.now }
    requires taints { AreNarrow (width ∷ width ∷ width ∷ []) taints.now }
    ensures word { word_of width result ≡ lowest_carry width (word_of width values.now.a) (word_of width taints.now.a)
        (word_of width values.now.b) (word_of width taints.now.b) (word_of width values.now.c) (word_of width taints.now.c) }
    ensures fits { result < 2 ^ width }
{
    let a = least(width, values.a, taints.a);
    let b = least(width, values.b, taints.b);
    let c = least(width, values.c, taints.c);
    majority(a, b, c)
}

/// The taint of X: a majority grows with each of its bits.
pub fn carry_taint(width: u32, values: &Words, taints: &Words) -> u128
    requires some { 1 ≤ width }
    requires limit { width ≤ 128 }
    requires values { AreNarrow (width ∷ width ∷ width ∷ []) values.now }
    requires taints { AreNarrow (width ∷ width ∷ width ∷ []) taints.now }
    ensures word { word_of width result ≡ carry_taint width (word_of width values.now.a) (word_of width taints.now.a)
        (word_of width values.now.b) (word_of width taints.now.b) (word_of width values.now.c) (word_of width taints.now.c) }
    ensures fits { result < 2 ^ width }
{
    highest(width, values, taints) & complement(width, lowest(width, values, taints))
}

/// The taint of Y: any tainted bit turns a parity.
pub fn sum_taint(taints: &Words) -> u128
    ensures word { (n : ℕ) → word_of n result
        ≡ parity_taint n (word_of n taints.now.a) (word_of n taints.now.b) (word_of n taints.now.c) }
    ensures fits { (n : ℕ) → taints.now.a < 2 ^ n → taints.now.b < 2 ^ n → taints.now.c < 2 ^ n → result < 2 ^ n }
{
    taints.a | (taints.b | taints.c)
}
