// Terms of equality.
ghost use Rattle.std.specs.Prelude.{◌≡◌, ◌≤◌, nat_lt, IfOk};
ghost use Rattle.cif_term.specs.Formulas.{Bound};
ghost use Rattle.cif_term.specs.TermView.{formula_of};
ghost use Rattle.rule_arith.specs.Bounds.{half_of};
ghost use Rattle.rule_arith.specs.EqualFormulas.{either_case, equal_bit, equal_taint, meets, meets_at};

use crate::bounds::{name_bounds, take_half};
use crate::operands::{Addend, OperandPair};
use cif_bits::NoMemory;
use cif_term::{Op1, Op2, Term};
use std::alloc::Global;

/// Two words of `width` bits whose bounds are named, and where their signs start.
#[derive(Clone, Copy)]
struct Both {
    width: u32,
    first_start: u32,
    second_start: u32,
}

impl Both {
    /// The least or the greatest word of the first, in the case of this sign.
    fn first(&self, alloc: Global, upper: bool, sign: bool) -> Result<Term, NoMemory>
        requires { self.now.width ≤ 65536 }
        ensures { IfOk result (λ t. formula_of t
            ≡ half_of self.now.width self.now.first_start upper sign (Bound 1)) }
    {
        take_half(
            alloc,
            self.width,
            self.first_start,
            upper,
            sign,
            Term::Bound(1),
        )
    }

    /// The same of the second.
    fn second(&self, alloc: Global, upper: bool, sign: bool) -> Result<Term, NoMemory>
        requires { self.now.width ≤ 65536 }
        ensures { IfOk result (λ t. formula_of t
            ≡ half_of self.now.width self.now.second_start upper sign (Bound 0)) }
    {
        take_half(
            alloc,
            self.width,
            self.second_start,
            upper,
            sign,
            Term::Bound(0),
        )
    }

    /// Whether both can be the same in the case of these signs: what one must have, both can have.
    fn meet(&self, alloc: Global, first_sign: bool, second_sign: bool) -> Result<Term, NoMemory>
        requires { self.now.width ≤ 65536 }
        ensures { IfOk result (λ t. formula_of t
            ≡ meets_at self.now.width self.now.first_start self.now.second_start first_sign second_sign) }
    {
        let needed = Term::two(
            alloc,
            Op2::Or,
            self.first(alloc, false, first_sign)?,
            self.second(alloc, false, second_sign)?,
        )?;
        let possible = Term::two(
            alloc,
            Op2::And,
            self.first(alloc, true, first_sign)?,
            self.second(alloc, true, second_sign)?,
        )?;
        let excluded = Term::one(alloc, Op1::Not, possible)?;
        let clash = Term::two(alloc, Op2::And, needed, excluded)?;
        Term::one(alloc, Op1::Not, Term::one(alloc, Op1::ReduceOr, clash)?)
    }

    /// Whether both can be the same in the case of this sign of the first.
    fn second_cases(&self, alloc: Global, first_sign: bool) -> Result<Term, NoMemory>
        requires { self.now.width ≤ 65536 }
        ensures { IfOk result (λ t. formula_of t
            ≡ either_case (nat_lt self.now.second_start self.now.width)
            (meets_at self.now.width self.now.first_start self.now.second_start first_sign)) }
    {
        let zero = self.meet(alloc, first_sign, false)?;
        if self.second_start < self.width {
            let one = self.meet(alloc, first_sign, true)?;
            Term::two(alloc, Op2::Or, zero, one)
        } else {
            Ok(zero)
        }
    }

    /// Whether both can be the same.
    fn cases(&self, alloc: Global) -> Result<Term, NoMemory>
        requires { self.now.width ≤ 65536 }
        ensures { IfOk result (λ t. formula_of t
            ≡ meets self.now.width self.now.first_start self.now.second_start) }
    {
        let zero = self.second_cases(alloc, false)?;
        if self.first_start < self.width {
            let one = self.second_cases(alloc, true)?;
            Term::two(alloc, Op2::Or, zero, one)
        } else {
            Ok(zero)
        }
    }
}

/// Whether it depends on tainted bits that both operands are the same.
fn equal(alloc: Global, width: u32, pair: &OperandPair) -> Result<Term, NoMemory>
    requires { width ≤ 65536 }
    ensures { IfOk result
        (λ t. formula_of t ≡ equal_bit width pair.now.signed pair.now.first_bits pair.now.second_bits) }
{
    let first = pair.first();
    let second = pair.second();
    let both = Both {
        width,
        first_start: first.sign_start(width),
        second_start: second.sign_start(width),
    };
    let first_taint = Term::one(alloc, Op1::ReduceOr, Term::Taint(0))?;
    let second_taint = Term::one(alloc, Op1::ReduceOr, Term::Taint(1))?;
    let tainted = Term::two(alloc, Op2::Or, first_taint, second_taint)?;
    let depends = Term::two(alloc, Op2::And, both.cases(alloc)?, tainted)?;
    name_bounds(
        alloc,
        width,
        &Addend::Plain(first),
        &Addend::Plain(second),
        depends,
    )
}

/// The taint of `$eq`, `$ne`, `$eqx` and `$nex`.
pub fn equal_term(alloc: Global, width: u32, pair: &OperandPair) -> Result<Term, NoMemory>
    requires limit { width ≤ 65536 }
    requires first { pair.now.first_bits ≤ 65536 }
    requires second { pair.now.second_bits ≤ 65536 }
    ensures { IfOk result
        (λ t. formula_of t ≡ equal_taint width pair.now.signed pair.now.first_bits pair.now.second_bits) }
{
    let bit = equal(alloc, pair.widest(), pair)?;
    Term::extended(alloc, bit, 1, width, false)
}
