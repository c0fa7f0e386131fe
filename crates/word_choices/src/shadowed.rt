// Words beside their taints: moved, and chosen by a bit.
ghost use Rattle.std.specs.Prelude.{ℕ, ◌≡◌, ◌^◌, ◌<◌, ◌≤◌, ◌||◌, false, if◌then◌else◌};
ghost use Rattle.cif_defs.specs.Words.{digit, extend, top, word, word_of, xor};
ghost use Rattle.cif_defs.specs.Meanings.{slice_word};
ghost use Rattle.word_numbers.specs.HeldWords.{lowered_word, raised_word};
ghost use Rattle.word_choices.specs.Shadows.{IsChosen, IsWithin};

use word_numbers::{bit, extend, lowered, raised, slice, top};

/// A word of at most 128 bits beside its taint, each held by a number.
#[derive(Clone, Copy, Drop)]
pub struct Shadowed {
    /// The word.
    pub value: u128,
    /// Which of its bits are tainted.
    pub taint: u128,
}

/// One of two numbers.
pub fn picked(one: bool, at_zero: u128, at_one: u128) -> u128
    ensures { result ≡ if one then at_one else at_zero }
{
    if one { at_one } else { at_zero }
}

/// Where either word is tainted, or both differ.
fn open(zero: Shadowed, one: Shadowed) -> u128
    ensures word { (n : ℕ) → word_of n result
        ≡ word n (λ i. (digit zero.taint i || digit one.taint i) || xor (digit zero.value i) (digit one.value i)) }
    ensures fits { (n : ℕ) → IsWithin n zero → IsWithin n one → result < 2 ^ n }
{
    (zero.taint | one.taint) | (zero.value ^ one.value)
}

/// The choice by a select bit with its taint: `zero` where it is 0, `one` where it is 1.
pub fn chosen(zero: Shadowed, one: Shadowed, select: bool, tainted: bool) -> Shadowed
    ensures { IsChosen zero one select tainted result }
{
    let plain = picked(select, zero.taint, one.taint);
    let either = open(zero, one);
    Shadowed {
        value: picked(select, zero.value, one.value),
        taint: picked(tainted, plain, either),
    }
}

/// The choice by the bit of `selects` at a place.
pub fn chosen_at(zero: Shadowed, one: Shadowed, selects: Shadowed, place: u32) -> Shadowed
    requires { place < 128 }
    ensures { IsChosen zero one (digit selects.value place) (digit selects.taint place) result }
{
    chosen(
        zero,
        one,
        bit(selects.value, place),
        bit(selects.taint, place),
    )
}

/// The word and its taint cut or extended: with their highest bits where the word is signed, else with zeros.
pub fn extended(from: u32, to: u32, signed: bool, word: Shadowed) -> Shadowed
    requires some { 1 ≤ from }
    requires limit { from ≤ 128 }
    requires some_shown { 1 ≤ to }
    requires shown_limit { to ≤ 128 }
    requires within { IsWithin from word }
    ensures value { word_of to result.value ≡ extend to signed (word_of from word.value) }
    ensures taint { word_of to result.taint ≡ extend to signed (word_of from word.taint) }
    ensures within { IsWithin to result }
{
    Shadowed {
        value: extend(from, to, signed, word.value),
        taint: extend(from, to, signed, word.taint),
    }
}

/// The word and its taint moved up within their width, with zeros below.
pub fn moved_up(width: u32, by: u128, word: Shadowed) -> Shadowed
    requires some { 1 ≤ width }
    requires limit { width ≤ 128 }
    ensures value { word_of width result.value ≡ raised_word by (word_of width word.value) }
    ensures taint { word_of width result.taint ≡ raised_word by (word_of width word.taint) }
    ensures within { IsWithin width result }
{
    Shadowed {
        value: raised(width, by, word.value),
        taint: raised(width, by, word.taint),
    }
}

/// The word and its taint moved down within their width: with their highest bits above where the word is signed, else
/// with zeros.
pub fn moved_down(width: u32, by: u128, signed: bool, word: Shadowed) -> Shadowed
    requires some { 1 ≤ width }
    requires limit { width ≤ 128 }
    requires within { IsWithin width word }
    ensures value { word_of width result.value
        ≡ lowered_word by (if signed then top (word_of width word.value) else false) (word_of width word.value) }
    ensures taint { word_of width result.taint
        ≡ lowered_word by (if signed then top (word_of width word.taint) else false) (word_of width word.taint) }
    ensures within { IsWithin width result }
{
    let value_fill = is_top(width, signed, word.value);
    let taint_fill = is_top(width, signed, word.taint);
    Shadowed {
        value: lowered(width, by, value_fill, word.value),
        taint: lowered(width, by, taint_fill, word.taint),
    }
}

/// The highest bit of a signed word, else 0.
fn is_top(width: u32, signed: bool, number: u128) -> bool
    requires some { 1 ≤ width }
    requires limit { width ≤ 128 }
    ensures { result ≡ if signed then top (word_of width number) else false }
{
    if signed { top(width, number) } else { false }
}

/// `width` bits of the word and its taint, from a place on.
pub fn cut(width: u32, at: u32, word: Shadowed) -> Shadowed
    requires some { 1 ≤ width }
    requires limit { width ≤ 128 }
    requires place { at < 128 }
    ensures value { (n : ℕ) → word.value < 2 ^ n → word_of width result.value ≡ slice_word width at (word_of n word.value) }
    ensures taint { (n : ℕ) → word.taint < 2 ^ n → word_of width result.taint ≡ slice_word width at (word_of n word.taint) }
    ensures within { IsWithin width result }
{
    Shadowed {
        value: slice(width, at, word.value),
        taint: slice(width, at, word.taint),
    }
}

/// How far the select bit at a place moves a word.
pub fn step(place: u32) -> u128
    requires { place < 128 }
    ensures { result ≡ 2 ^ place }
{
    1u128 << place
}
