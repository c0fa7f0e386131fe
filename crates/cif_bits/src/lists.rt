// The work of `Bits` on plain lists of bits, lowest first.

ghost use Rattle.std.specs.Prelude.{◌≡◌, ◌+◌, ◌-◌, ◌<◌, ◌≤◌, ◌&&◌, ◌||◌, ◌↔◌, not, length, get_or, nat_le, IfOk, IsTrue};
ghost use Rattle.cif_defs.specs.Words.{bit, word, xor, extend, parity};
ghost use Rattle.cif_defs.specs.Meanings.{concat_word, slice_word};

use std::alloc::{AllocError, Global};

/// Writes to each place of `out` the conjunction of the bits there.
pub fn write_and(out: &mut [bool], a: &[bool], b: &[bool])
    requires a_width { length a.now ≡ length out.old }
    requires b_width { length b.now ≡ length out.old }
    ensures { out.new ≡ word (length out.old) (λ i. bit a.now i && bit b.now i) }
{
    for i in 0..out.len() {
        out[i] = a[i] & b[i];
    }
}

/// Writes to each place of `out` the disjunction of the bits there.
pub fn write_or(out: &mut [bool], a: &[bool], b: &[bool])
    requires a_width { length a.now ≡ length out.old }
    requires b_width { length b.now ≡ length out.old }
    ensures { out.new ≡ word (length out.old) (λ i. bit a.now i || bit b.now i) }
{
    for i in 0..out.len() {
        out[i] = a[i] | b[i];
    }
}

/// Writes to each place of `out` whether exactly one of the bits there is 1.
pub fn write_xor(out: &mut [bool], a: &[bool], b: &[bool])
    requires a_width { length a.now ≡ length out.old }
    requires b_width { length b.now ≡ length out.old }
    ensures { out.new ≡ word (length out.old) (λ i. xor (bit a.now i) (bit b.now i)) }
{
    for i in 0..out.len() {
        out[i] = a[i] ^ b[i];
    }
}

/// Writes to each place of `out` the complement of the bit there.
pub fn write_not(out: &mut [bool], a: &[bool])
    requires { length a.now ≡ length out.old }
    ensures { out.new ≡ word (length out.old) (λ i. not (bit a.now i)) }
{
    for i in 0..out.len() {
        out[i] = !a[i];
    }
}

/// Whether an odd number of bits is 1.
pub fn is_odd(bits: &[bool]) -> bool
    ensures { result ≡ parity bits.now }
{
    let mut odd = false;
    for bit in bits {
        odd ^= *bit;
    }
    odd
}

/// Whether both have the same bits.
pub fn are_same(a: &[bool], b: &[bool]) -> bool
    ensures { IsTrue result ↔ (a.now ≡ b.now) }
{
    a == b
}

/// The bits of `low`, and those of `high` above them.
pub fn joined(alloc: Global, low: &[bool], high: &[bool]) -> Result<Vec<bool>, AllocError>
    requires { length low.now + length high.now ≤ 65536 }
    ensures { IfOk result
        (λ v. v.items ≡ concat_word (length low.now) (length high.now) low.now high.now) }
{
    let mut bits = Vec::with_capacity(alloc, low.len() + high.len())?;
    bits.extend_from_slice(low)?;
    bits.extend_from_slice(high)?;
    Ok(bits)
}

/// The `width` bits from place `at` upward.
pub fn part(alloc: Global, bits: &[bool], at: usize, width: usize) -> Result<Vec<bool>, AllocError>
    requires { at + width ≤ length bits.now }
    ensures { IfOk result (λ v. v.items ≡ slice_word width at bits.now) }
{
    Vec::from_slice(alloc, &bits[at..at + width])
}

/// The bits with `fill` above them, `width` in all.
fn filled(alloc: Global, bits: &[bool], width: usize, fill: bool) -> Result<Vec<bool>, AllocError>
    requires { length bits.now ≤ width }
    ensures { IfOk result (λ v. v.items ≡ word width (λ i. get_or bits.now i fill)) }
{
    let mut all = Vec::with_capacity(alloc, width)?;
    all.extend_from_slice(bits)?;
    all.resize(width, fill)?;
    Ok(all)
}

/// The lowest `width` bits, or all with the highest bit above them where the word is signed, else
/// with zeros.
pub fn extended(
    alloc: Global,
    bits: &[bool],
    width: usize,
    signed: bool,
) -> Result<Vec<bool>, AllocError>
    requires { 0 < length bits.now }
    ensures { IfOk result (λ v. v.items ≡ extend width signed bits.now) }
{
    let kept = bits.len().min(width);
    let fill = signed & bits[bits.len() - 1];
    filled(alloc, &bits[..kept], width, fill)
}

/// The bits moved down by `by` places within their width, with `fill` above them.
pub fn lowered(alloc: Global, bits: &[bool], by: usize, fill: bool) -> Result<Vec<bool>, AllocError>
    ensures { IfOk result
        (λ v. v.items ≡ word (length bits.now) (λ i. get_or bits.now (i + by) fill)) }
{
    let lost = bits.len().min(by);
    filled(alloc, &bits[lost..], bits.len(), fill)
}

/// The bits moved up by `by` places within their width, with zeros below them.
pub fn raised(alloc: Global, bits: &[bool], by: usize) -> Result<Vec<bool>, AllocError>
    ensures { IfOk result (λ v.
        v.items ≡ word (length bits.now) (λ i. nat_le by i && bit bits.now (i - by))) }
{
    let zeros = bits.len().min(by);
    let mut all = Vec::with_capacity(alloc, bits.len())?;
    all.resize(zeros, false)?;
    all.extend_from_slice(&bits[..bits.len() - zeros])?;
    Ok(all)
}
