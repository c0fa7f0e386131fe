// Terms of $fa: a majority grows with each of its bits, and a sum bit is a parity.
ghost use Rattle.std.specs.Prelude.{◌≡◌, IfOk};
ghost use Rattle.cif_term.specs.TermView.{formula_of};
ghost use Rattle.rule_logic.specs.LogicFormulas.{max_formula, min_formula, majority_formula, fa_carry_formula, fa_sum_formula};

use crate::reduction::{max_term, min_term, spread_term};
use cif_bits::NoMemory;
use cif_term::{Op2, Term};
use std::alloc::Global;

/// The majority of the operands with their tainted bits set.
fn highest_majority(alloc: Global) -> Result<Term, NoMemory>
    ensures { IfOk result (λ t. formula_of t ≡ majority_formula (max_formula 0) (max_formula 1) (max_formula 2)) }
{
    let both = Term::two(alloc, Op2::And, max_term(alloc, 0)?, max_term(alloc, 1)?)?;
    let either = Term::two(alloc, Op2::Or, max_term(alloc, 0)?, max_term(alloc, 1)?)?;
    let carried = Term::two(alloc, Op2::And, max_term(alloc, 2)?, either)?;
    Term::two(alloc, Op2::Or, both, carried)
}

/// The majority of the operands with their tainted bits cleared.
fn lowest_majority(alloc: Global) -> Result<Term, NoMemory>
    ensures { IfOk result (λ t. formula_of t ≡ majority_formula (min_formula 0) (min_formula 1) (min_formula 2)) }
{
    let both = Term::two(alloc, Op2::And, min_term(alloc, 0)?, min_term(alloc, 1)?)?;
    let either = Term::two(alloc, Op2::Or, min_term(alloc, 0)?, min_term(alloc, 1)?)?;
    let carried = Term::two(alloc, Op2::And, min_term(alloc, 2)?, either)?;
    Term::two(alloc, Op2::Or, both, carried)
}

/// The taint of X, the majority of three bits at each place.
pub fn carry_term(alloc: Global) -> Result<Term, NoMemory>
    ensures { IfOk result (λ t. formula_of t ≡ fa_carry_formula) }
{
    spread_term(alloc, highest_majority(alloc)?, lowest_majority(alloc)?)
}

/// The taint of Y, the parity of three bits at each place.
pub fn sum_term(alloc: Global) -> Result<Term, NoMemory>
    ensures { IfOk result (λ t. formula_of t ≡ fa_sum_formula) }
{
    let upper = Term::two(alloc, Op2::Or, Term::Taint(1), Term::Taint(2))?;
    Term::two(alloc, Op2::Or, Term::Taint(0), upper)
}
