// How the stages of trees move words.
ghost use Rattle.std.specs.Prelude.{if◌then◌else◌, ◌≡◌, ◌≤◌, ◌+◌, ◌<◌, min, ◌^◌, ◌*◌, IfOk};
ghost use Rattle.cif_term.specs.TermView.{formula_of};
ghost use Rattle.rule_select.specs.Windows.{low_padded, high_padded, places_from, window};
ghost use Rattle.rule_select.specs.Moves.{step_of, moved_left, moved_right, moved_signed, signed_places, lower_half, upper_half, as_lower, as_upper, block_of, parts_by, order_by, FitsBy};

use cif_bits::{Bits, NoMemory};
use cif_term::Term;
use std::alloc::Global;

/// How the stages of a tree move a word of so many bits.
#[derive(Clone, Copy, Debug, Drop)]
pub enum Moves {
    /// To the left, by 2 to the select bit's place, where the select bit is 1.
    Left(u32),
    /// To the left where the select bit is 0.
    Rising(u32),
    /// To the right where the select bit is 1.
    Right(u32),
    /// To the right with the highest bit where the select bit is 1.
    Signed(u32),
    /// To the lower half where the select bit is 0, and to the upper half where it is 1, down to this many bits.
    Halves(u32),
    /// To the lower half of a word twice as wide where the select bit is 0, and to the upper half where it is 1, from
    /// this many bits.
    Blocks(u32),
    /// To a block of this many bits of operand 1 where the select bit is 1.
    Chain(u32),
}

/// `part` above so many zeros.
fn above(alloc: Global, zeros: u32, part: Term) -> Result<Term, NoMemory>
    requires { zeros ≤ 65536 }
    ensures { IfOk result (λ t. formula_of t ≡ low_padded zeros (formula_of part)) }
{
    if zeros == 0 {
        return Ok(part);
    }
    let low = Bits::zeros(alloc, zeros)?;
    Term::join(alloc, Term::Const(low), part)
}

/// `part` below so many zeros.
fn below(alloc: Global, zeros: u32, part: Term) -> Result<Term, NoMemory>
    requires { zeros ≤ 65536 }
    ensures { IfOk result (λ t. formula_of t ≡ high_padded zeros (formula_of part)) }
{
    if zeros == 0 {
        return Ok(part);
    }
    let high = Bits::zeros(alloc, zeros)?;
    Term::join(alloc, part, Term::Const(high))
}

/// The places from `start` on, `len` of them.
pub fn places(alloc: Global, start: u32, len: u32) -> Result<Vec<u32>, NoMemory>
    requires { start + len ≤ 131072 }
    ensures { IfOk result (λ v. v.items ≡ places_from start len) }
{
    Ok((0..len).map(|place| start + place).collect(alloc)?)
}

/// `low` zeros, above them `len` bits of `part` from bit `start` on, and above those `high` zeros.
fn window_term(
    alloc: Global,
    low: u32,
    start: u32,
    len: u32,
    high: u32,
    part: Term,
) -> Result<Term, NoMemory>
    requires zeros { low + high ≤ 65536 }
    requires bits { start + len ≤ 131072 }
    ensures { IfOk result (λ t. formula_of t ≡ window low start len high (formula_of part)) }
{
    if len == 0 {
        let zeros = Bits::zeros(alloc, low + high)?;
        return Ok(Term::Const(zeros));
    }
    let bits = Term::pick(alloc, part, places(alloc, start, len)?)?;
    above(alloc, low, below(alloc, high, bits)?)
}

/// How far select bit `select` moves a word of `width` bits.
#[tactic(auto, using(crate::proofs::StageSteps::past_step))]
fn step(width: u32, select: u32) -> u32
    requires { width ≤ 65536 }
    ensures { result ≡ step_of width select }
{
    if select >= 17 {
        width
    } else {
        (1u32 << select).min(width)
    }
}

/// The word `part` of `width` bits, moved left with zeros.
pub fn left(alloc: Global, width: u32, select: u32, part: Term) -> Result<Term, NoMemory>
    requires { width ≤ 65536 }
    ensures { IfOk result (λ t. formula_of t ≡ moved_left width select (formula_of part)) }
{
    let by = step(width, select);
    window_term(alloc, by, 0, width - by, 0, part)
}

/// The word `part` of `width` bits, moved left with zeros if `moved` says so.
fn left_where(
    alloc: Global,
    width: u32,
    select: u32,
    moved: bool,
    part: Term,
) -> Result<Term, NoMemory>
    requires { width ≤ 65536 }
    ensures { IfOk result (λ t.
        formula_of t ≡ if moved then moved_left width select (formula_of part) else formula_of part) }
{
    if moved {
        left(alloc, width, select, part)
    } else {
        Ok(part)
    }
}

/// The word `part` of `width` bits, moved right with zeros.
fn right(alloc: Global, width: u32, select: u32, part: Term) -> Result<Term, NoMemory>
    requires { width ≤ 65536 }
    ensures { IfOk result (λ t. formula_of t ≡ moved_right width select (formula_of part)) }
{
    let by = step(width, select);
    window_term(alloc, 0, by, width - by, by, part)
}

/// The places that `width` bits show which are moved right by `by` with the highest bit.
fn shown(alloc: Global, width: u32, by: u32) -> Result<Vec<u32>, NoMemory>
    requires { by + width ≤ 131072 }
    ensures { IfOk result (λ v. v.items ≡ signed_places width by) }
{
    let last = width.saturating_sub(1);
    Ok(
        (0..width)
            .map(|place| (place + by).min(last))
            .collect(alloc)?,
    )
}

/// The word `part` of `width` bits, moved right with its highest bit.
fn signed(alloc: Global, width: u32, select: u32, part: Term) -> Result<Term, NoMemory>
    requires { width ≤ 65536 }
    ensures { IfOk result (λ t. formula_of t ≡ moved_signed width select (formula_of part)) }
{
    Term::pick(alloc, part, shown(alloc, width, step(width, select))?)
}

/// `width` times 2 to the `select`.
fn scaled(width: u32, select: u32) -> u32
    requires some { 1 ≤ width }
    requires few { width * 2 ^ select ≤ 65536 }
    ensures { result ≡ width * 2 ^ select }
{
    width * (1u32 << select)
}

/// One half of `part`, which has twice `width` bits.
fn half(alloc: Global, width: u32, upper: bool, part: Term) -> Result<Term, NoMemory>
    requires { width ≤ 65536 }
    ensures { IfOk result
        (λ t. formula_of t ≡ if upper then upper_half width (formula_of part) else lower_half width (formula_of part)) }
{
    let start = if upper { width } else { 0 };
    Term::pick(alloc, part, places(alloc, start, width)?)
}

/// A word of twice `width` bits, of which `part` is one half, and the other zeros.
fn doubled(alloc: Global, width: u32, upper: bool, part: Term) -> Result<Term, NoMemory>
    requires { width ≤ 65536 }
    ensures { IfOk result
        (λ t. formula_of t ≡ if upper then as_upper width (formula_of part) else as_lower width (formula_of part)) }
{
    if upper {
        window_term(alloc, width, 0, width, 0, part)
    } else {
        window_term(alloc, 0, 0, width, width, part)
    }
}

/// Block `select` of operand 1, of `width` bits, or its taint.
fn block(alloc: Global, width: u32, select: u32, tainted: bool) -> Result<Term, NoMemory>
    requires { (select + 1) * width ≤ 65536 }
    ensures { IfOk result (λ t. formula_of t ≡ block_of width select tainted) }
{
    let bits = places(alloc, select * width, width)?;
    if tainted {
        Term::pick(alloc, Term::Taint(1), bits)
    } else {
        Term::pick(alloc, Term::Value(1), bits)
    }
}

/// The part of a word, or of its taint, for a select bit at 0 or at 1.
#[tactic(auto, unfolding(crate::specs::Moves::parts_by, crate::specs::Moves::FitsBy))]
pub fn part(
    alloc: Global,
    moves: Moves,
    select: u32,
    one: bool,
    tainted: bool,
    word: Term,
) -> Result<Term, NoMemory>
    requires { FitsBy moves (select + 1) }
    ensures { IfOk result (λ t.
        formula_of t ≡ parts_by moves select one tainted (formula_of word)) }
{
    match moves {
        Moves::Left(width) => Ok(left_where(alloc, width, select, one, word)?),
        Moves::Rising(width) => Ok(left_where(alloc, width, select, !one, word)?),
        Moves::Right(width) => if one {
            Ok(right(alloc, width, select, word)?)
        } else {
            Ok(word)
        },
        Moves::Signed(width) => if one {
            Ok(signed(alloc, width, select, word)?)
        } else {
            Ok(word)
        },
        Moves::Halves(width) => Ok(half(alloc, scaled(width, select), one, word)?),
        Moves::Blocks(width) => Ok(doubled(alloc, scaled(width, select), one, word)?),
        Moves::Chain(width) => if one {
            Ok(block(alloc, width, select, tainted)?)
        } else {
            Ok(word)
        },
    }
}

/// The select bit of a stage, which there is.
#[tactic(auto, unfolding(crate::specs::Moves::order_by))]
pub fn order(moves: Moves, count: u32, stage: u32) -> u32
    requires { stage < count }
    ensures value { result ≡ order_by moves count stage }
    ensures within { result < count }
{
    match moves {
        Moves::Halves(_) => count - 1 - stage,
        Moves::Chain(_) => count - 1 - stage,
        _ => stage,
    }
}
