// Terms of $alu.
ghost use Rattle.std.specs.Prelude.{◌≡◌, ◌≤◌, IfOk};
ghost use Rattle.cif_term.specs.TermView.{formula_of};
ghost use Rattle.rule_arith.specs.AluFormulas.{alu_carry_taint, alu_named, alu_sum_taint, alu_sums, alu_xor_taint, carries_at, carry_bounds};
ghost use Rattle.rule_arith.specs.Addends.{addend_word, addend_taint};
ghost use Rattle.rule_arith.specs.Bounds.{half_of, sign_start};
ghost use Rattle.cif_term.specs.Formulas.{Bound, Two};

use crate::bounds::{bounds_of, take_below, take_half};
use crate::operands::{Addend, OperandPair, bound_of_bit, repeat};
use crate::sums::{Sums, join};
use cif_bits::NoMemory;
use cif_term::{Op1, Op2, Term};
use std::alloc::Global;

/// The taint of X, the exclusive or of A and B, which BI complements.
pub fn xor_term(alloc: Global, width: u32, pair: &OperandPair) -> Result<Term, NoMemory>
    requires { width ≤ 65536 }
    ensures { IfOk result
        (λ t. formula_of t ≡ alu_xor_taint width pair.now.signed pair.now.first_bits pair.now.second_bits) }
{
    let first = pair.first().taint(alloc, width)?;
    let second = pair.second().taint(alloc, width)?;
    let either = Term::two(alloc, Op2::Or, first, second)?;
    let inverts = repeat(alloc, width, Term::Taint(3))?;
    Term::two(alloc, Op2::Or, either, inverts)
}

/// Both bounds of the carry in, as words.
fn carry_in(alloc: Global, width: u32) -> Result<Term, NoMemory>
    requires { width ≤ 65536 }
    ensures { IfOk result (λ t. formula_of t ≡ carry_bounds width) }
{
    let least = Term::extended(alloc, bound_of_bit(alloc, 2, false)?, 1, width, false)?;
    let greatest = Term::extended(alloc, bound_of_bit(alloc, 2, true)?, 1, width, false)?;
    Term::join(alloc, least, greatest)
}

/// `body`, inside which the bounds of A, of the carry in, and of B where BI is least and where it is greatest have names.
fn name_all(alloc: Global, width: u32, pair: &OperandPair, body: Term) -> Result<Term, NoMemory>
    requires { width ≤ 65536 }
    ensures { IfOk result (λ t. formula_of t
        ≡ alu_named width pair.now.signed pair.now.first_bits pair.now.second_bits (formula_of body)) }
{
    let greatest = Addend::Inverted(pair.second(), 3, true);
    let least = Addend::Inverted(pair.second(), 3, false);
    let first = Addend::Plain(pair.first());
    let inner = Term::name(alloc, bounds_of(alloc, width, &greatest)?, body)?;
    let middle = Term::name(alloc, bounds_of(alloc, width, &least)?, inner)?;
    let outer = Term::name(alloc, carry_in(alloc, width)?, middle)?;
    Term::name(alloc, bounds_of(alloc, width, &first)?, outer)
}

/// The sums where BI is at a bound.
fn sums_where(width: u32, first_start: u32, second_start: u32, inverted: bool) -> Sums
    ensures { result ≡ alu_sums width first_start second_start inverted }
{
    Sums {
        width,
        first: 3,
        first_start,
        second: if inverted { 0 } else { 1 },
        second_start,
        carry: Some(2),
    }
}

/// The taint of Y, the sum.
pub fn sum_output(alloc: Global, width: u32, pair: &OperandPair) -> Result<Term, NoMemory>
    requires { width ≤ 65536 }
    ensures { IfOk result
        (λ t. formula_of t ≡ alu_sum_taint width pair.now.signed pair.now.first_bits pair.now.second_bits) }
{
    let first = pair.first();
    let second = pair.second();
    let first_start = first.sign_start(width);
    let second_start = second.sign_start(width);
    let plain = sums_where(width, first_start, second_start, false);
    let inverted = sums_where(width, first_start, second_start, true);
    let first_taint = take_below(alloc, width, first_start, first.taint(alloc, width)?)?;
    let second_taint = take_below(alloc, width, second_start, second.taint(alloc, width)?)?;
    let own = Term::two(alloc, Op2::Or, first_taint, second_taint)?;
    let cases = join(
        alloc,
        plain.cases(alloc)?,
        inverted.cases(alloc)?,
        plain.sum(alloc, false, false, false)?,
        inverted.sum(alloc, false, false, false)?,
    )?;
    let taint = Term::two(alloc, Op2::Or, own, cases)?;
    name_all(alloc, width, pair, taint)
}

/// The carries out of each place at a bound: where both bits are 1, or where one is and the sum is 0.
fn carries(alloc: Global, sums: &Sums, upper: bool) -> Result<Term, NoMemory>
    requires { sums.now.width ≤ 65536 }
    ensures { IfOk result (λ t. formula_of t ≡ carries_at sums.now upper) }
{
    let width = sums.width;
    let both = Term::two(
        alloc,
        Op2::And,
        take_half(alloc, width, width, upper, upper, Term::Bound(sums.first))?,
        take_half(alloc, width, width, upper, upper, Term::Bound(sums.second))?,
    )?;
    let either = Term::two(
        alloc,
        Op2::Or,
        take_half(alloc, width, width, upper, upper, Term::Bound(sums.first))?,
        take_half(alloc, width, width, upper, upper, Term::Bound(sums.second))?,
    )?;
    let none = Term::one(alloc, Op1::Not, sums.sum(alloc, upper, upper, upper)?)?;
    let carried = Term::two(alloc, Op2::And, either, none)?;
    Term::two(alloc, Op2::Or, both, carried)
}

/// The taint of CO, the carries out.
pub fn carry_output(alloc: Global, width: u32, pair: &OperandPair) -> Result<Term, NoMemory>
    requires { width ≤ 65536 }
    ensures { IfOk result
        (λ t. formula_of t ≡ alu_carry_taint width pair.now.signed pair.now.first_bits pair.now.second_bits) }
{
    let plain = sums_where(width, width, width, false);
    let inverted = sums_where(width, width, width, true);
    let plain_taint = Term::two(
        alloc,
        Op2::Xor,
        carries(alloc, &plain, false)?,
        carries(alloc, &plain, true)?,
    )?;
    let inverted_taint = Term::two(
        alloc,
        Op2::Xor,
        carries(alloc, &inverted, false)?,
        carries(alloc, &inverted, true)?,
    )?;
    let taint = join(
        alloc,
        plain_taint,
        inverted_taint,
        carries(alloc, &plain, false)?,
        carries(alloc, &inverted, false)?,
    )?;
    name_all(alloc, width, pair, taint)
}
