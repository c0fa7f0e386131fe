// What has a value and a taint.
use cif_bits::Bits;

/// A word, or what is made of words, and its taint.
#[derive(Drop)]
pub struct Tainted<T> {
    /// The value.
    pub value: T,
    /// Its taint.
    pub taint: T,
}

/// A word and its taint, of as many bits.
pub type TaintedWord = Tainted<Bits>;
