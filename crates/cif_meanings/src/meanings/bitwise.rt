// What the kinds of cells that work bit by bit give.
//
// The meanings are those of the Yosys cell library for operands without x. Words have their lowest bit first. The
// output has at most 65,536 bits, and the operands have at least one. Each function may answer want of memory, and
// changes nothing then.
ghost use Rattle.std.specs.Prelude.{◌≡◌, ◌<◌, ◌≤◌, length, IfOk};
ghost use Rattle.cif_defs.specs.Meanings.{not_word, pos_word, and_word, or_word, xor_word, xnor_word, fa_majority_word, fa_sum_word};

use cif_bits::{Bits, NoMemory};
use std::alloc::Global;

// ---- one operand

/// What `$not` gives: the complement of each bit.
///
/// The operand is cut or extended to `width` bits first, with its sign where it is signed.
#[tactic(auto, using(cif_defs::proofs::WordLaws::words))]
pub fn not_word(alloc: Global, width: u32, signed: bool, a: &Bits) -> Result<Bits, NoMemory>
    requires limit { width ≤ 65536 }
    requires some { 0 < length a.now }
    ensures { IfOk result (λ w. w ≡ not_word width signed a.now) }
{
    let a = a.extend(alloc, width, signed)?;
    a.not(alloc)
}

/// What `$pos` gives: the operand, cut or extended to `width` bits, with its sign where it is signed.
pub fn pos_word(alloc: Global, width: u32, signed: bool, a: &Bits) -> Result<Bits, NoMemory>
    requires limit { width ≤ 65536 }
    requires some { 0 < length a.now }
    ensures { IfOk result (λ w. w ≡ pos_word width signed a.now) }
{
    a.extend(alloc, width, signed)
}

// ---- two operands

/// What `$and` gives: the conjunction of the bits at each place.
///
/// Both operands are cut or extended to `width` bits first, with their signs where both are signed.
#[tactic(auto, using(cif_defs::proofs::WordLaws::words))]
pub fn and_word(
    alloc: Global,
    width: u32,
    signed: bool,
    a: &Bits,
    b: &Bits,
) -> Result<Bits, NoMemory>
    requires limit { width ≤ 65536 }
    requires a_some { 0 < length a.now }
    requires b_some { 0 < length b.now }
    ensures { IfOk result (λ w. w ≡ and_word width signed a.now b.now) }
{
    let a = a.extend(alloc, width, signed)?;
    let b = b.extend(alloc, width, signed)?;
    a.and(alloc, &b)
}

/// What `$or` gives: the disjunction of the bits at each place.
///
/// Both operands are cut or extended to `width` bits first, with their signs where both are signed.
#[tactic(auto, using(cif_defs::proofs::WordLaws::words))]
pub fn or_word(
    alloc: Global,
    width: u32,
    signed: bool,
    a: &Bits,
    b: &Bits,
) -> Result<Bits, NoMemory>
    requires limit { width ≤ 65536 }
    requires a_some { 0 < length a.now }
    requires b_some { 0 < length b.now }
    ensures { IfOk result (λ w. w ≡ or_word width signed a.now b.now) }
{
    let a = a.extend(alloc, width, signed)?;
    let b = b.extend(alloc, width, signed)?;
    a.or(alloc, &b)
}

/// What `$xor` gives: at each place whether exactly one bit is 1.
///
/// Both operands are cut or extended to `width` bits first, with their signs where both are signed.
#[tactic(auto, using(cif_defs::proofs::WordLaws::words))]
pub fn xor_word(
    alloc: Global,
    width: u32,
    signed: bool,
    a: &Bits,
    b: &Bits,
) -> Result<Bits, NoMemory>
    requires limit { width ≤ 65536 }
    requires a_some { 0 < length a.now }
    requires b_some { 0 < length b.now }
    ensures { IfOk result (λ w. w ≡ xor_word width signed a.now b.now) }
{
    let a = a.extend(alloc, width, signed)?;
    let b = b.extend(alloc, width, signed)?;
    a.xor(alloc, &b)
}

/// What `$xnor` gives: at each place whether both bits are the same.
///
/// Both operands are cut or extended to `width` bits first, with their signs where both are signed.
pub fn xnor_word(
    alloc: Global,
    width: u32,
    signed: bool,
    a: &Bits,
    b: &Bits,
) -> Result<Bits, NoMemory>
    requires limit { width ≤ 65536 }
    requires a_some { 0 < length a.now }
    requires b_some { 0 < length b.now }
    ensures { IfOk result (λ w. w ≡ xnor_word width signed a.now b.now) }
{
    let different = xor_word(alloc, width, signed, a, b)?;
    different.not(alloc)
}

// ---- three operands

/// What `$fa` gives as X: at each place whether at least two of the three bits are 1.
///
/// The operands have `width` bits each.
#[tactic(auto, using(cif_defs::proofs::WordLaws::words))]
pub fn fa_majority_word(
    alloc: Global,
    width: u32,
    a: &Bits,
    b: &Bits,
    c: &Bits,
) -> Result<Bits, NoMemory>
    requires a_width { length a.now ≡ width }
    requires b_width { length b.now ≡ width }
    requires c_width { length c.now ≡ width }
    ensures { IfOk result (λ w. w ≡ fa_majority_word width a.now b.now c.now) }
{
    let a_and_b = a.and(alloc, b)?;
    let a_and_c = a.and(alloc, c)?;
    let b_and_c = b.and(alloc, c)?;
    let with_a = a_and_b.or(alloc, &a_and_c)?;
    with_a.or(alloc, &b_and_c)
}

/// What `$fa` gives as Y: at each place whether an odd number of the three bits is 1.
///
/// The operands have `width` bits each.
#[tactic(auto, using(cif_defs::proofs::WordLaws::words))]
pub fn fa_sum_word(
    alloc: Global,
    width: u32,
    a: &Bits,
    b: &Bits,
    c: &Bits,
) -> Result<Bits, NoMemory>
    requires a_width { length a.now ≡ width }
    requires b_width { length b.now ≡ width }
    requires c_width { length c.now ≡ width }
    ensures { IfOk result (λ w. w ≡ fa_sum_word width a.now b.now c.now) }
{
    let of_both = a.xor(alloc, b)?;
    of_both.xor(alloc, c)
}
