// Words made wider and narrower, cut out and joined.
ghost use Rattle.std.specs.Prelude.{ℕ, ◌≡◌, ◌+◌, ◌-◌, ◌^◌, ◌<◌, ◌≤◌};
ghost use Rattle.cif_defs.specs.Words.{extend, word_of};
ghost use Rattle.cif_defs.specs.Meanings.{concat_word, slice_word};

use crate::flags::top;
use crate::masks::{lowest, mask};

/// A word of `from` bits cut to `to` bits, or extended to them: with its highest bit where it is signed, else with
/// zeros.
pub fn extend(from: u32, to: u32, signed: bool, number: u128) -> u128
    requires some { 1 ≤ from }
    requires limit { from ≤ 128 }
    requires some_shown { 1 ≤ to }
    requires shown_limit { to ≤ 128 }
    requires fits { number < 2 ^ from }
    ensures word { word_of to result ≡ extend to signed (word_of from number) }
    ensures fits { result < 2 ^ to }
{
    if signed && top(from, number) {
        lowest(to, number | !mask(from))
    } else {
        lowest(to, number)
    }
}

/// The `width` bits from place `at` upward, of a word of any width; past its end they are 0.
pub fn slice(width: u32, at: u32, number: u128) -> u128
    requires some { 1 ≤ width }
    requires limit { width ≤ 128 }
    requires place { at < 128 }
    ensures word { (n : ℕ) → number < 2 ^ n → word_of width result ≡ slice_word width at (word_of n number) }
    ensures fits { result < 2 ^ width }
{
    lowest(width, number >> at)
}

/// The bits of `low`, and those of `high` above them, at any width of `high`.
pub fn join(low_width: u32, low: u128, high: u128) -> u128
    requires room { low_width < 128 }
    requires low_fits { low < 2 ^ low_width }
    requires high_fits { high < 2 ^ (128 - low_width) }
    ensures word { (n : ℕ) → high < 2 ^ n
        → word_of (low_width + n) result ≡ concat_word low_width n (word_of low_width low) (word_of n high) }
    ensures fits { (n : ℕ) → high < 2 ^ n → result < 2 ^ (low_width + n) }
{
    low | (high << low_width)
}
