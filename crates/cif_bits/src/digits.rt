// Bits from and to numbers and texts.

ghost use Rattle.std.specs.Prelude.{◌≡◌, ◌<◌, ◌≤◌, ◌^◌, length, position, IfOk};
ghost use Rattle.cif_defs.specs.Words.{number, word_of};
ghost use Rattle.cif_defs.specs.WordText.{text_of, word_of_text, is_no_digit};

use std::alloc::{AllocError, Global};

/// The lowest `width` binary digits of a number.
pub fn number_bits(alloc: Global, width: u32, number: u128) -> Result<Vec<bool>, AllocError>
    requires { width ≤ 128 }
    ensures { IfOk result (λ v. v.items ≡ word_of width number) }
{
    let mut bits = Vec::with_capacity(alloc, width as usize)?;
    for i in 0..width {
        bits.push((number >> i) & 1 == 1)?;
    }
    Ok(bits)
}

/// The number whose binary digits the bits are.
pub fn bits_number(bits: &[bool]) -> u128
    requires { length bits.now ≤ 128 }
    ensures value { result ≡ number bits.now }
    ensures below { result < 2 ^ length bits.now }
{
    let mut total = 0u128;
    for i in 0..bits.len() {
        if bits[i] {
            total += 1 << i;
        }
    }
    total
}

/// The place of the first byte that is neither `0` nor `1`.
pub fn first_bad(text: &[u8]) -> Option<usize>
    ensures { result ≡ position is_no_digit text.now }
{
    text.iter()
        .position(|byte| !(*byte == b'0' || *byte == b'1'))
}

/// The bits of a text, whose first byte is the highest.
pub fn text_bits(alloc: Global, text: &[u8]) -> Result<Vec<bool>, AllocError>
    ensures { IfOk result (λ v. v.items ≡ word_of_text text.now) }
{
    text.iter().rev().map(|byte| *byte == b'1').collect(alloc)
}

/// The text of bits, highest first.
pub fn bits_text(alloc: Global, bits: &[bool]) -> Result<Vec<u8>, AllocError>
    ensures { IfOk result (λ v. v.items ≡ text_of bits.now) }
{
    bits.iter()
        .rev()
        .map(|bit| if *bit { b'1' } else { b'0' })
        .collect(alloc)
}
