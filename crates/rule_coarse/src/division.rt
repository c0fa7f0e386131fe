// Terms of divisions that taint every bit or none.
ghost use Rattle.std.specs.Prelude.{◌≡◌, ◌≤◌, IfOk};
ghost use Rattle.cif_term.specs.TermView.{formula_of};
ghost use Rattle.rule_logic.specs.LogicFormulas.{max_formula, min_formula};
ghost use Rattle.rule_coarse.specs.CoarseFormulas.{any_taint, division_formula, everywhere, some_divisor};

use cif_bits::NoMemory;
use cif_term::{Op1, Op2, Term};
use std::alloc::Global;

/// An operand with its tainted bits set, of the operand's width.
pub fn max_term(alloc: Global, port: u32) -> Result<Term, NoMemory>
    ensures { IfOk result (λ t. formula_of t ≡ max_formula port) }
{
    Term::two(alloc, Op2::Or, Term::Value(port), Term::Taint(port))
}

/// An operand with its tainted bits cleared, of the operand's width.
pub fn min_term(alloc: Global, port: u32) -> Result<Term, NoMemory>
    ensures { IfOk result (λ t. formula_of t ≡ min_formula port) }
{
    let untainted = Term::one(alloc, Op1::Not, Term::Taint(port))?;
    Term::two(alloc, Op2::And, Term::Value(port), untainted)
}

/// One bit at each of `width` places.
pub fn everywhere_term(alloc: Global, width: u32, bit: Term) -> Result<Term, NoMemory>
    requires { width ≤ 65536 }
    ensures { IfOk result (λ t. formula_of t ≡ everywhere width (formula_of bit)) }
{
    Term::extended(alloc, bit, 1, width, true)
}

/// Whether a bit of A or B is tainted, in one bit.
fn any_taint_term(alloc: Global) -> Result<Term, NoMemory>
    ensures { IfOk result (λ t. formula_of t ≡ any_taint) }
{
    let a = Term::one(alloc, Op1::ReduceOr, Term::Taint(0))?;
    let b = Term::one(alloc, Op1::ReduceOr, Term::Taint(1))?;
    Term::two(alloc, Op2::Or, a, b)
}

/// Whether B can be other than 0, in one bit.
fn some_divisor_term(alloc: Global) -> Result<Term, NoMemory>
    ensures { IfOk result (λ t. formula_of t ≡ some_divisor) }
{
    Term::one(alloc, Op1::ReduceOr, max_term(alloc, 1)?)
}

/// Every one of `width` bits, but none where nothing is tainted or B is a known zero.
pub fn division_term(alloc: Global, width: u32) -> Result<Term, NoMemory>
    requires { width ≤ 65536 }
    ensures { IfOk result (λ t. formula_of t ≡ division_formula width) }
{
    let tainted = any_taint_term(alloc)?;
    let bit = Term::two(alloc, Op2::And, tainted, some_divisor_term(alloc)?)?;
    everywhere_term(alloc, width, bit)
}
