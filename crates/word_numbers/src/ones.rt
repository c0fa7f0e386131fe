// The lowest and the highest 1 of a word.
ghost use Rattle.std.specs.Prelude.{ℕ, ◌≡◌, ◌^◌, ◌<◌};
ghost use Rattle.cif_defs.specs.Words.{word_of};
ghost use Rattle.word_numbers.specs.HeldWords.{filled_word, highest_one_word, lowest_one_word};

/// The lowest 1 alone, at any width that the number has room in; 0 where no bit is 1.
pub fn lowest_one(number: u128) -> u128
    ensures word { (n : ℕ) → number < 2 ^ n → word_of n result ≡ lowest_one_word (word_of n number) }
    ensures fits { (n : ℕ) → number < 2 ^ n → result < 2 ^ n }
{
    if number == 0 {
        0
    } else {
        1 << number.trailing_zeros()
    }
}

/// The highest 1 alone, at any width that the number has room in; 0 where no bit is 1.
pub fn highest_one(number: u128) -> u128
    ensures word { (n : ℕ) → number < 2 ^ n → word_of n result ≡ highest_one_word (word_of n number) }
    ensures fits { (n : ℕ) → number < 2 ^ n → result < 2 ^ n }
{
    if number == 0 {
        0
    } else {
        1 << (127 - number.leading_zeros())
    }
}

/// Ones from the highest 1 downward, at any width that the number has room in; 0 where no bit is 1.
pub fn filled(number: u128) -> u128
    ensures word { (n : ℕ) → number < 2 ^ n → word_of n result ≡ filled_word (word_of n number) }
    ensures fits { (n : ℕ) → number < 2 ^ n → result < 2 ^ n }
{
    if number == 0 {
        0
    } else {
        u128::MAX >> number.leading_zeros()
    }
}
