// Words moved up and down within their width.
ghost use Rattle.std.specs.Prelude.{◌≡◌, ◌^◌, ◌<◌, ◌≤◌};
ghost use Rattle.cif_defs.specs.Words.{word_of};
ghost use Rattle.word_numbers.specs.HeldWords.{lowered_word, raised_word};

use crate::masks::{complement, lowest, mask, repeated};

/// The bits moved up by `by` places within their width, with zeros below them.
pub fn raised(width: u32, by: u128, number: u128) -> u128
    requires some { 1 ≤ width }
    requires limit { width ≤ 128 }
    ensures word { word_of width result ≡ raised_word by (word_of width number) }
    ensures fits { result < 2 ^ width }
{
    if by < width as u128 {
        lowest(width, number << (by as u32))
    } else {
        0
    }
}

/// The bits moved down by `by` places within their width, with `fill` above them.
pub fn lowered(width: u32, by: u128, fill: bool, number: u128) -> u128
    requires some { 1 ≤ width }
    requires limit { width ≤ 128 }
    requires fits { number < 2 ^ width }
    ensures word { word_of width result ≡ lowered_word by fill (word_of width number) }
    ensures fits { result < 2 ^ width }
{
    if by == 0 {
        number
    } else if by < width as u128 {
        let kept = width - by as u32;
        (number >> (by as u32)) | (repeated(width, fill) & complement(width, mask(kept)))
    } else {
        repeated(width, fill)
    }
}
