// Terms of unsigned quotients: every bit up to the highest place where the least and the largest quotient differ.
ghost use Rattle.std.specs.Prelude.{◌≡◌, ◌≤◌, IfOk};
ghost use Rattle.cif_term.specs.TermView.{formula_of};
ghost use Rattle.rule_coarse.specs.CoarseFormulas.{differing, largest, largest_quotient, least, least_quotient, places_down, quotient_formula, sure_divisor, to_highest, turned};

use crate::division::{division_term, max_term, min_term};
use crate::product::from_lowest_term;
use crate::shape::Shape;
use cif_bits::{Bits, NoMemory};
use cif_term::{Op1, Op2, Term};
use std::alloc::Global;

/// An operand of `of` bits with its tainted bits cleared, as a number of `width` bits.
fn least_term(alloc: Global, port: u32, of: u32, width: u32) -> Result<Term, NoMemory>
    requires { width ≤ 65536 }
    ensures { IfOk result (λ t. formula_of t ≡ least width of port) }
{
    Term::extended(alloc, min_term(alloc, port)?, of, width, false)
}

/// An operand of `of` bits with its tainted bits set, as a number of `width` bits.
fn largest_term(alloc: Global, port: u32, of: u32, width: u32) -> Result<Term, NoMemory>
    requires { width ≤ 65536 }
    ensures { IfOk result (λ t. formula_of t ≡ largest width of port) }
{
    Term::extended(alloc, max_term(alloc, port)?, of, width, false)
}

/// Whether B can't be 0, in one bit.
fn sure_divisor_term(alloc: Global) -> Result<Term, NoMemory>
    ensures { IfOk result (λ t. formula_of t ≡ sure_divisor) }
{
    Term::one(alloc, Op1::ReduceOr, min_term(alloc, 1)?)
}

/// The least quotient, of `width` bits: 0 where B can be 0.
fn least_quotient_term(alloc: Global, width: u32, a: u32, b: u32) -> Result<Term, NoMemory>
    requires { width ≤ 65536 }
    ensures { IfOk result (λ t. formula_of t ≡ least_quotient width a b) }
{
    let dividend = least_term(alloc, 0, a, width)?;
    let divisor = largest_term(alloc, 1, b, width)?;
    let quotient = Term::two(alloc, Op2::Div, dividend, divisor)?;
    let zero = Term::Const(Bits::zeros(alloc, width)?);
    Term::choose(alloc, sure_divisor_term(alloc)?, zero, quotient)
}

/// The largest quotient, of `width` bits: A itself where B can be 0.
fn largest_quotient_term(alloc: Global, width: u32, a: u32, b: u32) -> Result<Term, NoMemory>
    requires { width ≤ 65536 }
    ensures { IfOk result (λ t. formula_of t ≡ largest_quotient width a b) }
{
    let dividend = largest_term(alloc, 0, a, width)?;
    let divisor = least_term(alloc, 1, b, width)?;
    let quotient = Term::two(alloc, Op2::Div, dividend, divisor)?;
    let whole = largest_term(alloc, 0, a, width)?;
    Term::choose(alloc, sure_divisor_term(alloc)?, whole, quotient)
}

/// The places of a word of `width` bits from the highest down.
fn places(alloc: Global, width: u32) -> Result<Vec<u32>, NoMemory>
    ensures { IfOk result (λ v. v.items ≡ places_down width) }
{
    Ok(
        (0..width)
            .map(|place| (width - 1).saturating_sub(place))
            .collect(alloc)?,
    )
}

/// A part of `width` bits, the highest first.
fn turned_term(alloc: Global, width: u32, part: Term) -> Result<Term, NoMemory>
    ensures { IfOk result (λ t. formula_of t ≡ turned width (formula_of part)) }
{
    Term::pick(alloc, part, places(alloc, width)?)
}

/// The places of a part of `width` bits that are 1 or have a 1 above them.
fn to_highest_term(alloc: Global, width: u32, part: Term) -> Result<Term, NoMemory>
    requires { width ≤ 65536 }
    ensures { IfOk result (λ t. formula_of t ≡ to_highest width (formula_of part)) }
{
    let turned = turned_term(alloc, width, part)?;
    let above = from_lowest_term(alloc, width, Term::Bound(0), Term::Bound(0))?;
    Term::name(alloc, turned, turned_term(alloc, width, above)?)
}

/// The places of `width` bits at or below the highest where the least and the largest quotient differ.
fn differing_term(alloc: Global, width: u32, a: u32, b: u32) -> Result<Term, NoMemory>
    requires { width ≤ 65536 }
    ensures { IfOk result (λ t. formula_of t ≡ differing width a b) }
{
    let least = least_quotient_term(alloc, width, a, b)?;
    let largest = largest_quotient_term(alloc, width, a, b)?;
    let apart = Term::two(alloc, Op2::Xor, least, largest)?;
    to_highest_term(alloc, width, apart)
}

/// The taint of unsigned `$div`: every bit at or below the highest place where the least and the largest quotient differ,
/// but none where nothing is tainted or B is a known zero.
pub fn quotient_term(alloc: Global, shape: Shape) -> Result<Term, NoMemory>
    requires a { shape.a ≤ 128 }
    requires b { shape.b ≤ 128 }
    requires y { shape.y ≤ 128 }
    ensures { IfOk result (λ t. formula_of t ≡ quotient_formula shape.y shape.a shape.b) }
{
    let width = shape.a.max(shape.b);
    let apart = differing_term(alloc, width, shape.a, shape.b)?;
    let places = Term::extended(alloc, apart, width, shape.y, false)?;
    Term::two(alloc, Op2::And, division_term(alloc, shape.y)?, places)
}
