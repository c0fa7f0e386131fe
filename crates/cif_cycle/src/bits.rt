// Bits of words that may be read past their ends.
ghost use Rattle.std.specs.Prelude.{◌≡◌};
ghost use Rattle.cif_defs.specs.Words.{bit};

/// Bit `index` of a word, which is 0 past its end.
pub fn bit_of(word: &[bool], index: usize) -> bool
    ensures { result ≡ bit word.now index }
{
    word.get(index).copied().unwrap_or(false)
}

/// Bit `index` of a word that may be long, which is 0 past its end.
pub fn long_bit(word: &[bool], index: u64) -> bool
    ensures { result ≡ bit word.now index }
{
    index < word.len() as u64 && word[index as usize]
}
