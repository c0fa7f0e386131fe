// Masks, and numbers cut to a width.
ghost use Rattle.std.specs.Prelude.{◌≡◌, ◌-◌, ◌%◌, ◌^◌, ◌<◌, ◌≤◌, false, true};
ghost use Rattle.cif_defs.specs.Words.{word, word_of};
ghost use Rattle.cif_defs.specs.Meanings.{not_word};

/// The number of `width` bits that are all 1.
pub fn mask(width: u32) -> u128
    requires some { 1 ≤ width }
    requires limit { width ≤ 128 }
    ensures value { result ≡ 2 ^ width - 1 }
    ensures word { word_of width result ≡ word width (λ i. true) }
    ensures fits { result < 2 ^ width }
{
    u128::MAX >> (128 - width)
}

/// The lowest `width` bits of a number.
pub fn lowest(width: u32, number: u128) -> u128
    requires some { 1 ≤ width }
    requires limit { width ≤ 128 }
    ensures value { result ≡ number % 2 ^ width }
    ensures word { word_of width result ≡ word_of width number }
    ensures fits { result < 2 ^ width }
{
    number & mask(width)
}

/// The complement of the lowest `width` bits of a number.
pub fn complement(width: u32, number: u128) -> u128
    requires some { 1 ≤ width }
    requires limit { width ≤ 128 }
    ensures word { word_of width result ≡ not_word width false (word_of width number) }
    ensures fits { result < 2 ^ width }
{
    lowest(width, !number)
}

/// The number of `width` bits that are all `bit`.
pub fn repeated(width: u32, bit: bool) -> u128
    requires some { 1 ≤ width }
    requires limit { width ≤ 128 }
    ensures word { word_of width result ≡ word width (λ i. bit) }
    ensures fits { result < 2 ^ width }
{
    if bit { mask(width) } else { 0 }
}
