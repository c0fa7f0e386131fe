// Terms of comparisons by order.
ghost use Rattle.std.specs.Prelude.{◌≡◌, ◌≤◌, IfOk};
ghost use Rattle.cif_term.specs.Formulas.{Bound};
ghost use Rattle.cif_term.specs.TermView.{formula_of};
ghost use Rattle.rule_arith.specs.Bounds.{greatest_of, least_of, order_start};
ghost use Rattle.rule_arith.specs.OrderFormulas.{greater_taint, less_bit, less_op, less_taint};

use crate::bounds::{name_bounds, take_half};
use crate::operands::{Addend, Operand, OperandPair};
use cif_bits::NoMemory;
use cif_term::{Op2, Term};
use std::alloc::Global;

/// The comparison of signed or of unsigned numbers.
fn less_than(signed: bool) -> Op2
    ensures { result ≡ less_op signed }
{
    if signed {
        Op2::LessSigned
    } else {
        Op2::LessUnsigned
    }
}

/// The word of least number of an operand whose bounds are named.
fn least(alloc: Global, width: u32, operand: &Operand, bound: u32) -> Result<Term, NoMemory>
    requires { width ≤ 65536 }
    ensures { IfOk result (λ t. formula_of t
        ≡ least_of width (order_start width operand.now.signed operand.now.bits) (Bound bound)) }
{
    let start = operand.order_start(width);
    take_half(alloc, width, start, false, true, Term::Bound(bound))
}

/// The word of greatest number of an operand whose bounds are named.
fn greatest(alloc: Global, width: u32, operand: &Operand, bound: u32) -> Result<Term, NoMemory>
    requires { width ≤ 65536 }
    ensures { IfOk result (λ t. formula_of t
        ≡ greatest_of width (order_start width operand.now.signed operand.now.bits) (Bound bound)) }
{
    let start = operand.order_start(width);
    take_half(alloc, width, start, true, false, Term::Bound(bound))
}

/// Whether it depends on tainted bits that the first operand is less than the second: it can be less, and it can be not
/// less.
fn less(alloc: Global, width: u32, first: &Operand, second: &Operand) -> Result<Term, NoMemory>
    requires limit { width ≤ 65536 }
    requires alike { second.now.signed ≡ first.now.signed }
    ensures { IfOk result (λ t. formula_of t
        ≡ less_bit width first.now.signed first.now.bits first.now.port second.now.bits second.now.port) }
{
    let can_be = Term::two(
        alloc,
        less_than(first.signed),
        least(alloc, width, first, 1)?,
        greatest(alloc, width, second, 0)?,
    )?;
    let has_to_be = Term::two(
        alloc,
        less_than(first.signed),
        greatest(alloc, width, first, 1)?,
        least(alloc, width, second, 0)?,
    )?;
    let differ = Term::two(alloc, Op2::Xor, can_be, has_to_be)?;
    name_bounds(
        alloc,
        width,
        &Addend::Plain(*first),
        &Addend::Plain(*second),
        differ,
    )
}

/// The taint of `$lt` and `$ge`.
pub fn less_term(alloc: Global, width: u32, pair: &OperandPair) -> Result<Term, NoMemory>
    requires limit { width ≤ 65536 }
    requires first { pair.now.first_bits ≤ 65536 }
    requires second { pair.now.second_bits ≤ 65536 }
    ensures { IfOk result
        (λ t. formula_of t ≡ less_taint width pair.now.signed pair.now.first_bits pair.now.second_bits) }
{
    let bit = less(alloc, pair.widest(), &pair.first(), &pair.second())?;
    Term::extended(alloc, bit, 1, width, false)
}

/// The taint of `$gt` and `$le`.
pub fn greater_term(alloc: Global, width: u32, pair: &OperandPair) -> Result<Term, NoMemory>
    requires limit { width ≤ 65536 }
    requires first { pair.now.first_bits ≤ 65536 }
    requires second { pair.now.second_bits ≤ 65536 }
    ensures { IfOk result
        (λ t. formula_of t ≡ greater_taint width pair.now.signed pair.now.first_bits pair.now.second_bits) }
{
    let bit = less(alloc, pair.widest(), &pair.second(), &pair.first())?;
    Term::extended(alloc, bit, 1, width, false)
}
