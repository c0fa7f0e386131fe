// The bounds of a word with taint.
ghost use Rattle.std.specs.Prelude.{◌≡◌, ◌≤◌, ◌<◌, ◌+◌, if◌then◌else◌, IfOk};
ghost use Rattle.cif_term.specs.Formulas.{Let};
ghost use Rattle.cif_term.specs.TermView.{formula_of};
ghost use Rattle.rule_arith.specs.Addends.{addend_taint, addend_word};
ghost use Rattle.rule_arith.specs.Bounds.{bounds, half_of, half_places, is_upper, taint_below};

use crate::operands::Addend;
use cif_bits::{Bits, NoMemory};
use cif_term::{Op1, Op2, Term};
use std::alloc::Global;

/// The place in a pair of words from which a place takes its bit: below place `start` in the higher word where `low` is
/// set, from there on where `high` is.
fn place_in_pair(width: u32, start: u32, low: bool, high: bool, place: u32) -> u32
    requires limit { width ≤ 65536 }
    requires inside { place < width }
    ensures { result ≡ (if is_upper start low high place then width + place else place) }
{
    let upper = if place < start { low } else { high };
    if upper { width + place } else { place }
}

/// That place for each of `width` places.
fn places_in_pair(
    alloc: Global,
    width: u32,
    start: u32,
    low: bool,
    high: bool,
) -> Result<Vec<u32>, NoMemory>
    requires { width ≤ 65536 }
    ensures { IfOk result (λ v. v.items ≡ half_places width start low high) }
{
    let mut places = Vec::with_capacity(alloc, width as usize)?;
    for place in 0..width {
        places.push(place_in_pair(width, start, low, high, place))?;
    }
    Ok(places)
}

/// A word of the bits at these places of a pair of words.
pub fn take_half(
    alloc: Global,
    width: u32,
    start: u32,
    low: bool,
    high: bool,
    pair: Term,
) -> Result<Term, NoMemory>
    requires { width ≤ 65536 }
    ensures { IfOk result (λ t. formula_of t ≡ half_of width start low high (formula_of pair)) }
{
    Term::pick(alloc, pair, places_in_pair(alloc, width, start, low, high)?)
}

/// The taint below place `start`, and zeros from there on.
pub fn take_below(alloc: Global, width: u32, start: u32, taint: Term) -> Result<Term, NoMemory>
    requires { width ≤ 65536 }
    ensures { IfOk result (λ t. formula_of t ≡ taint_below width start (formula_of taint)) }
{
    let zeros = Bits::zeros(alloc, width)?;
    let pair = Term::join(alloc, taint, Term::Const(zeros))?;
    take_half(alloc, width, start, false, true, pair)
}

/// Both bounds of an addend: the least word, and above it the greatest.
pub fn bounds_of(alloc: Global, width: u32, addend: &Addend) -> Result<Term, NoMemory>
    requires { width ≤ 65536 }
    ensures { IfOk result
        (λ t. formula_of t ≡ bounds (addend_word width addend.now) (addend_taint width addend.now)) }
{
    let clear = Term::one(alloc, Op1::Not, addend.taint(alloc, width)?)?;
    let least = Term::two(alloc, Op2::And, addend.word(alloc, width)?, clear)?;
    let greatest = Term::two(
        alloc,
        Op2::Or,
        addend.word(alloc, width)?,
        addend.taint(alloc, width)?,
    )?;
    Term::join(alloc, least, greatest)
}

/// `body`, inside which `Bound(1)` is the bounds of the first addend, and `Bound(0)` those of the second.
pub fn name_bounds(
    alloc: Global,
    width: u32,
    first: &Addend,
    second: &Addend,
    body: Term,
) -> Result<Term, NoMemory>
    requires { width ≤ 65536 }
    ensures { IfOk result (λ t. formula_of t
        ≡ Let (bounds (addend_word width first.now) (addend_taint width first.now))
        (Let (bounds (addend_word width second.now) (addend_taint width second.now)) (formula_of body))) }
{
    let inner = Term::name(alloc, bounds_of(alloc, width, second)?, body)?;
    Term::name(alloc, bounds_of(alloc, width, first)?, inner)
}
