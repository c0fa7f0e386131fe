// An operand with its tainted bits set, and with them cleared.
ghost use Rattle.std.specs.Prelude.{◌≡◌, ◌^◌, ◌<◌, ◌≤◌, ◌&&◌, not};
ghost use Rattle.cif_defs.specs.Coarse.{max_word, min_word};
ghost use Rattle.cif_defs.specs.Words.{has_one, word_of};

use word_numbers::{complement, has_one};

/// A word of `width` bits with its tainted bits set.
pub fn greatest(width: u32, value: u128, taint: u128) -> u128
    requires some { 1 ≤ width }
    requires limit { width ≤ 128 }
    requires value_fits { value < 2 ^ width }
    requires taint_fits { taint < 2 ^ width }
    ensures word { word_of width result ≡ max_word (word_of width value) (word_of width taint) }
    ensures fits { result < 2 ^ width }
{
    value | taint
}

/// A word of `width` bits with its tainted bits cleared.
pub fn least(width: u32, value: u128, taint: u128) -> u128
    requires some { 1 ≤ width }
    requires limit { width ≤ 128 }
    requires value_fits { value < 2 ^ width }
    requires taint_fits { taint < 2 ^ width }
    ensures word { word_of width result ≡ min_word (word_of width value) (word_of width taint) }
    ensures fits { result < 2 ^ width }
{
    value & complement(width, taint)
}

/// What can be said of a word as a truth value, which is true where a bit is 1.
#[derive(Clone, Copy, Drop)]
pub struct Chance {
    /// Whether it can be true.
    pub possible: bool,
    /// Whether it has to be.
    pub certain: bool,
}

impl Chance {
    /// The chance of a word of `width` bits with its taint.
    pub fn of(width: u32, value: u128, taint: u128) -> Chance
        requires some { 1 ≤ width }
        requires limit { width ≤ 128 }
        requires value_fits { value < 2 ^ width }
        requires taint_fits { taint < 2 ^ width }
        ensures possible { result.possible ≡ has_one (max_word (word_of width value) (word_of width taint)) }
        ensures certain { result.certain ≡ has_one (min_word (word_of width value) (word_of width taint)) }
    {
        Chance {
            possible: has_one(greatest(width, value, taint)),
            certain: has_one(least(width, value, taint)),
        }
    }

    /// Whether it isn't known which it is.
    pub fn is_open(&self) -> bool
        ensures { result ≡ (self.now.possible && not self.now.certain) }
    {
        self.possible & !self.certain
    }
}
