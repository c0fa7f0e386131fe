// Single bits, and what all bits of a word say.
ghost use Rattle.std.specs.Prelude.{ℕ, ◌≡◌, ◌^◌, ◌<◌, ◌≤◌};
ghost use Rattle.cif_defs.specs.Words.{digit, flag_word, has_one, is_all_ones, parity, top, word_of};

use crate::masks::mask;

/// The bit at a place.
pub fn bit(number: u128, place: u32) -> bool
    requires { place < 128 }
    ensures { result ≡ digit number place }
{
    (number >> place) % 2 == 1
}

/// The highest of `width` bits.
pub fn top(width: u32, number: u128) -> bool
    requires some { 1 ≤ width }
    requires limit { width ≤ 128 }
    ensures { result ≡ top (word_of width number) }
{
    bit(number, width - 1)
}

/// The word whose lowest bit is `bit`, and the others 0, at any width of at least one bit.
pub fn flag(bit: bool) -> u128
    ensures word { (n : ℕ) → 1 ≤ n → word_of n result ≡ flag_word n bit }
    ensures fits { (n : ℕ) → 1 ≤ n → result < 2 ^ n }
{
    bit as u128
}

/// Whether a bit is 1, at any width that the number has room in.
pub fn has_one(number: u128) -> bool
    ensures { (n : ℕ) → number < 2 ^ n → result ≡ has_one (word_of n number) }
{
    number != 0
}

/// Whether all of `width` bits are 1.
pub fn is_all_ones(width: u32, number: u128) -> bool
    requires some { 1 ≤ width }
    requires limit { width ≤ 128 }
    requires fits { number < 2 ^ width }
    ensures { result ≡ is_all_ones (word_of width number) }
{
    number == mask(width)
}

/// Whether an odd number of bits is 1, at any width that the number has room in.
pub fn is_odd(number: u128) -> bool
    ensures { (n : ℕ) → number < 2 ^ n → result ≡ parity (word_of n number) }
{
    number.count_ones() % 2 == 1
}
