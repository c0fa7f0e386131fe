// Terms of reductions: what is 1 with all tainted bits set and 0 with all of them cleared can differ.
ghost use Rattle.std.specs.Prelude.{◌≡◌, ◌≤◌, IfOk};
ghost use Rattle.cif_term.specs.Formulas.{One};
ghost use Rattle.cif_term.specs.TermView.{formula_of};
ghost use Rattle.rule_logic.specs.LogicFormulas.{max_formula, min_formula, spread, flag_formula, reduce_and_formula, reduce_or_formula, reduce_xor_formula, logic_and_formula, logic_or_formula};

use cif_bits::NoMemory;
use cif_term::{Op1, Op2, Term};
use std::alloc::Global;

/// An operand with its tainted bits set.
pub fn max_term(alloc: Global, port: u32) -> Result<Term, NoMemory>
    ensures { IfOk result (λ t. formula_of t ≡ max_formula port) }
{
    Term::two(alloc, Op2::Or, Term::Value(port), Term::Taint(port))
}

/// An operand with its tainted bits cleared.
pub fn min_term(alloc: Global, port: u32) -> Result<Term, NoMemory>
    ensures { IfOk result (λ t. formula_of t ≡ min_formula port) }
{
    let untainted = Term::one(alloc, Op1::Not, Term::Taint(port))?;
    Term::two(alloc, Op2::And, Term::Value(port), untainted)
}

/// Where `high` is 1 and `low` is 0.
pub fn spread_term(alloc: Global, high: Term, low: Term) -> Result<Term, NoMemory>
    ensures { IfOk result (λ t. formula_of t ≡ spread (formula_of high) (formula_of low)) }
{
    let clear = Term::one(alloc, Op1::Not, low)?;
    Term::two(alloc, Op2::And, high, clear)
}

/// One bit with zeros above it, `width` bits in all.
pub fn flag_term(alloc: Global, width: u32, bit: Term) -> Result<Term, NoMemory>
    requires { width ≤ 65536 }
    ensures { IfOk result (λ t. formula_of t ≡ flag_formula width (formula_of bit)) }
{
    Term::extended(alloc, bit, 1, width, false)
}

/// The taint of a conjunction of all bits.
pub fn reduce_and_term(alloc: Global) -> Result<Term, NoMemory>
    ensures { IfOk result (λ t. formula_of t ≡ reduce_and_formula) }
{
    let high = Term::one(alloc, Op1::ReduceAnd, max_term(alloc, 0)?)?;
    let low = Term::one(alloc, Op1::ReduceAnd, min_term(alloc, 0)?)?;
    spread_term(alloc, high, low)
}

/// Whether an operand with its tainted bits set has a 1.
fn some_high(alloc: Global, port: u32) -> Result<Term, NoMemory>
    ensures { IfOk result (λ t. formula_of t ≡ One Op1.ReduceOr (max_formula port)) }
{
    Term::one(alloc, Op1::ReduceOr, max_term(alloc, port)?)
}

/// Whether an operand with its tainted bits cleared has a 1.
fn some_low(alloc: Global, port: u32) -> Result<Term, NoMemory>
    ensures { IfOk result (λ t. formula_of t ≡ One Op1.ReduceOr (min_formula port)) }
{
    Term::one(alloc, Op1::ReduceOr, min_term(alloc, port)?)
}

/// The taint of a disjunction of all bits, and of its complement.
pub fn reduce_or_term(alloc: Global) -> Result<Term, NoMemory>
    ensures { IfOk result (λ t. formula_of t ≡ reduce_or_formula) }
{
    spread_term(alloc, some_high(alloc, 0)?, some_low(alloc, 0)?)
}

/// The taint of a parity: any tainted bit turns it.
pub fn reduce_xor_term(alloc: Global) -> Result<Term, NoMemory>
    ensures { IfOk result (λ t. formula_of t ≡ reduce_xor_formula) }
{
    Term::one(alloc, Op1::ReduceOr, Term::Taint(0))
}

/// The taint of `$logic_and`.
pub fn logic_and_term(alloc: Global) -> Result<Term, NoMemory>
    ensures { IfOk result (λ t. formula_of t ≡ logic_and_formula) }
{
    let high = Term::two(alloc, Op2::And, some_high(alloc, 0)?, some_high(alloc, 1)?)?;
    let low = Term::two(alloc, Op2::And, some_low(alloc, 0)?, some_low(alloc, 1)?)?;
    spread_term(alloc, high, low)
}

/// The taint of `$logic_or`.
pub fn logic_or_term(alloc: Global) -> Result<Term, NoMemory>
    ensures { IfOk result (λ t. formula_of t ≡ logic_or_formula) }
{
    let high = Term::two(alloc, Op2::Or, some_high(alloc, 0)?, some_high(alloc, 1)?)?;
    let low = Term::two(alloc, Op2::Or, some_low(alloc, 0)?, some_low(alloc, 1)?)?;
    spread_term(alloc, high, low)
}
