// Terms of products: every bit from the lowest tainted place on.
ghost use Rattle.std.specs.Prelude.{◌≡◌, ◌≤◌, Bool, ℕ, IfOk};
ghost use Rattle.cif_term.specs.Formulas.{Two};
ghost use Rattle.cif_term.specs.TermView.{formula_of};
ghost use Rattle.rule_logic.specs.LogicFormulas.{taint_at, value_at};
ghost use Rattle.rule_coarse.specs.CoarseFormulas.{from_lowest, ones, product_formula, some_factor};

use crate::division::everywhere_term;
use crate::shape::Shape;
use cif_bits::{Bits, NoMemory};
use cif_term::{Op1, Op2, Term};
use std::alloc::Global;

/// `width` ones.
fn all_ones(alloc: Global, width: u32) -> Result<Bits, NoMemory>
    requires { width ≤ 65536 }
    ensures { IfOk result (λ w. w ≡ ones width) }
{
    let bits = vec![in alloc; true; width as usize]?;
    Ok(Bits::of(bits))
}

/// The places of a part of `width` bits that are 1 or have a 1 below them. The part is taken twice.
pub fn from_lowest_term(
    alloc: Global,
    width: u32,
    part: Term,
    again: Term,
) -> Result<Term, NoMemory>
    requires width { width ≤ 65536 }
    requires twice { formula_of again ≡ formula_of part }
    ensures { IfOk result (λ t. formula_of t ≡ from_lowest width (formula_of part)) }
{
    let ones = Term::Const(all_ones(alloc, width)?);
    let less_one = Term::two(alloc, Op2::Add, again, ones)?;
    let turned = Term::one(alloc, Op1::Not, less_one)?;
    Term::two(alloc, Op2::Or, part, turned)
}

/// Whether an operand of `of` bits, extended to `width` bits, can be other than 0, in one bit.
fn factor_term(
    alloc: Global,
    port: u32,
    of: u32,
    width: u32,
    signed: bool,
) -> Result<Term, NoMemory>
    requires { width ≤ 65536 }
    ensures { IfOk result (λ t. formula_of t ≡ some_factor width signed of port) }
{
    let value = Term::extended(alloc, Term::Value(port), of, width, signed)?;
    let taint = Term::extended(alloc, Term::Taint(port), of, width, signed)?;
    let largest = Term::two(alloc, Op2::Or, value, taint)?;
    Term::one(alloc, Op1::ReduceOr, largest)
}

/// Whether a place of A or B, extended to the width of Y, is tainted.
fn either_term(alloc: Global, shape: Shape) -> Result<Term, NoMemory>
    requires { shape.y ≤ 65536 }
    ensures { IfOk result (λ t. formula_of t
        ≡ Two Op2.Or (taint_at shape.y shape.signed shape.a 0) (taint_at shape.y shape.signed shape.b 1)) }
{
    let a = Term::extended(alloc, Term::Taint(0), shape.a, shape.y, shape.signed)?;
    let b = Term::extended(alloc, Term::Taint(1), shape.b, shape.y, shape.signed)?;
    Term::two(alloc, Op2::Or, a, b)
}

/// The taint of `$mul`: every bit at or above the lowest tainted place, but none where a factor is a known zero.
pub fn product_term(alloc: Global, shape: Shape) -> Result<Term, NoMemory>
    requires { shape.y ≤ 65536 }
    ensures { IfOk result
        (λ t. formula_of t ≡ product_formula shape.y shape.signed shape.a shape.b) }
{
    let a = factor_term(alloc, 0, shape.a, shape.y, shape.signed)?;
    let b = factor_term(alloc, 1, shape.b, shape.y, shape.signed)?;
    let factors = everywhere_term(alloc, shape.y, Term::two(alloc, Op2::And, a, b)?)?;
    let tainted = either_term(alloc, shape)?;
    let above = from_lowest_term(alloc, shape.y, tainted, either_term(alloc, shape)?)?;
    Term::two(alloc, Op2::And, factors, above)
}
