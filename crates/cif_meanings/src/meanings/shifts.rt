// What shifts give.
//
// The meanings are those of the Yosys cell library for operands without x. A has a sign of its own, B is the number of
// places, of 1 to 128 bits, and past the ends of A stand zeros or its sign, however large that number is. A and the
// output have at most 65,536 bits, lowest first. Each function may answer want of memory, and changes nothing then.
ghost use Rattle.std.specs.Prelude.{◌≡◌, ◌+◌, ◌-◌, ◌<◌, ◌≤◌, ◌^◌, ◌&&◌, min, max, true, length, get_or, nat_le, IfOk};
ghost use Rattle.cif_defs.specs.Words.{bit, word, number, top};
ghost use Rattle.cif_defs.specs.Meanings.{extended_to, shl_word, shr_word, sshr_word, shift_word, shiftx_word};

use cif_bits::{Bits, NoMemory};
use std::alloc::Global;

// ---- shared steps

/// A number of places, or `limit` where it is larger.
fn capped(places: u128, limit: u32) -> u32
    ensures { result ≡ min places limit }
{
    places.min(u128::from(limit)) as u32
}

/// The lowest `width` bits of a word that is moved up by `places`, with zeros below it.
fn moved_up(alloc: Global, width: u32, source: &Bits, places: u128) -> Result<Bits, NoMemory>
    requires { width ≤ length source.now }
    ensures { IfOk result
        (λ w. w ≡ word width (λ i. nat_le places i && bit source.now (i - places))) }
{
    let by = capped(places, source.width());
    let moved = source.shl(alloc, by)?;
    moved.slice(alloc, 0, width)
}

/// The lowest `width` bits of a word that is moved down by `places`, with `fill` above it.
fn moved_down(
    alloc: Global,
    width: u32,
    source: &Bits,
    places: u128,
    fill: bool,
) -> Result<Bits, NoMemory>
    requires { width ≤ length source.now }
    ensures { IfOk result (λ w. w ≡ word width (λ i. get_or source.now (i + places) fill)) }
{
    let by = capped(places, source.width());
    let moved = source.shr(alloc, by, fill)?;
    moved.slice(alloc, 0, width)
}

/// A word extended to `width` bits where it has fewer, with its sign where it is signed.
fn widened(alloc: Global, width: u32, signed: bool, a: &Bits) -> Result<Bits, NoMemory>
    requires limit { width ≤ 65536 }
    requires some { 0 < length a.now }
    ensures { IfOk result (λ w. w ≡ extended_to width signed a.now) }
{
    a.extend(alloc, a.width().max(width), signed)
}

/// Whether the word is signed and its highest bit is 1.
fn is_negative(signed: bool, a: &Bits) -> bool
    requires { 0 < length a.now }
    ensures { result ≡ (signed && top a.now) }
{
    signed & a.get(a.width() - 1)
}

/// How far below zero a signed word stands whose highest bit is 1: its number and this make 2 to its width.
fn below_zero(a: &Bits) -> u128
    requires some { 0 < length a.now }
    requires limit { length a.now ≤ 128 }
    requires negative { top a.now ≡ true }
    ensures { result + number a.now ≡ 2 ^ length a.now }
{
    let half = 1u128 << (a.width() - 1);
    half - (a.to_u128() - half)
}

// ---- the kinds

/// What `$shl` and `$sshl` give: A moved up by B places, with zeros below it.
///
/// A is cut or extended to `width` bits first, with its sign where it is signed.
#[tactic(auto, using(cif_defs::proofs::WordLaws::words))]
pub fn shl_word(
    alloc: Global,
    width: u32,
    signed: bool,
    a: &Bits,
    b: &Bits,
) -> Result<Bits, NoMemory>
    requires limit { width ≤ 65536 }
    requires a_some { 0 < length a.now }
    requires b_limit { length b.now ≤ 128 }
    ensures { IfOk result (λ w. w ≡ shl_word width signed a.now b.now) }
{
    let extended = a.extend(alloc, width, signed)?;
    moved_up(alloc, width, &extended, b.to_u128())
}

/// What `$shr` gives: A moved down by B places, with zeros above it, and then cut to `width` bits.
///
/// A is extended to `width` bits first where it has fewer, with its sign where it is signed.
#[tactic(auto, using(cif_defs::proofs::WordLaws::words))]
pub fn shr_word(
    alloc: Global,
    width: u32,
    signed: bool,
    a: &Bits,
    b: &Bits,
) -> Result<Bits, NoMemory>
    requires limit { width ≤ 65536 }
    requires a_some { 0 < length a.now }
    requires b_limit { length b.now ≤ 128 }
    ensures { IfOk result (λ w. w ≡ shr_word width signed a.now b.now) }
{
    let wide = widened(alloc, width, signed, a)?;
    moved_down(alloc, width, &wide, b.to_u128(), false)
}

/// What `$sshr` gives: A moved down by B places, with its sign above it where it is signed, and then cut to `width`
/// bits.
#[tactic(auto, using(cif_defs::proofs::WordLaws::words))]
pub fn sshr_word(
    alloc: Global,
    width: u32,
    signed: bool,
    a: &Bits,
    b: &Bits,
) -> Result<Bits, NoMemory>
    requires limit { width ≤ 65536 }
    requires a_some { 0 < length a.now }
    requires b_limit { length b.now ≤ 128 }
    ensures { IfOk result (λ w. w ≡ sshr_word width signed a.now b.now) }
{
    let wide = widened(alloc, width, signed, a)?;
    let fill = is_negative(signed, a);
    moved_down(alloc, width, &wide, b.to_u128(), fill)
}

/// What `$shift` gives: A moved down by B places, or up where B is signed and negative, with zeros above and below it,
/// and then cut to `width` bits.
///
/// A is extended to `width` bits first where it has fewer, with its sign where it is signed.
#[tactic(auto, using(cif_defs::proofs::WordLaws::words))]
pub fn shift_word(
    alloc: Global,
    width: u32,
    a_signed: bool,
    b_signed: bool,
    a: &Bits,
    b: &Bits,
) -> Result<Bits, NoMemory>
    requires limit { width ≤ 65536 }
    requires a_some { 0 < length a.now }
    requires b_some { 0 < length b.now }
    requires b_limit { length b.now ≤ 128 }
    ensures { IfOk result (λ w. w ≡ shift_word width a_signed b_signed a.now b.now) }
{
    let wide = widened(alloc, width, a_signed, a)?;
    if is_negative(b_signed, b) {
        moved_up(alloc, width, &wide, below_zero(b))
    } else {
        moved_down(alloc, width, &wide, b.to_u128(), false)
    }
}

/// What `$shiftx` gives: the `width` bits of A from place B upward, with zeros outside A. A signed B may be negative.
pub fn shiftx_word(
    alloc: Global,
    width: u32,
    b_signed: bool,
    a: &Bits,
    b: &Bits,
) -> Result<Bits, NoMemory>
    requires limit { width ≤ 65536 }
    requires a_some { 0 < length a.now }
    requires b_some { 0 < length b.now }
    requires b_limit { length b.now ≤ 128 }
    ensures { IfOk result (λ w. w ≡ shiftx_word width b_signed a.now b.now) }
{
    shift_word(alloc, width, false, b_signed, a, b)
}
