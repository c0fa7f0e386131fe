// Terms of sums.
ghost use Rattle.std.specs.Prelude.{◌≡◌, ◌≤◌, nat_lt, IfOk};
ghost use Rattle.cif_term.specs.TermView.{formula_of};
ghost use Rattle.rule_arith.specs.Cases.{case_taint, joined, second_taint};
ghost use Rattle.rule_arith.specs.SumFormulas.{add_taint, neg_taint, sub_taint, sum_at, sum_taint, sums_taint};

use crate::bounds::{name_bounds, take_below, take_half};
use crate::operands::{Addend, Operand, OperandPair};
use cif_bits::NoMemory;
use cif_term::{Op2, Term};
use std::alloc::Global;

/// Sums of the bounds of two addends and a carry in, each of which an enclosing `Let` names.
#[derive(Clone, Copy)]
pub struct Sums {
    pub width: u32,
    /// The `Bound` that names the bounds of the first addend, and where its sign starts.
    pub first: u32,
    pub first_start: u32,
    /// The same for the second addend.
    pub second: u32,
    pub second_start: u32,
    /// The `Bound` that names the bounds of a carry in.
    pub carry: Option<u32>,
}

/// The taint from that of two cases, and a value of each.
pub fn join(
    alloc: Global,
    zero_taint: Term,
    one_taint: Term,
    zero_value: Term,
    one_value: Term,
) -> Result<Term, NoMemory>
    ensures { IfOk result (λ t. formula_of t
        ≡ joined (formula_of zero_taint) (formula_of one_taint) (formula_of zero_value) (formula_of one_value)) }
{
    let either = Term::two(alloc, Op2::Or, zero_taint, one_taint)?;
    let differ = Term::two(alloc, Op2::Xor, zero_value, one_value)?;
    Term::two(alloc, Op2::Or, either, differ)
}

impl Sums {
    /// The sum of the least or the greatest words, in the case of these signs.
    pub fn sum(
        &self,
        alloc: Global,
        upper: bool,
        first_sign: bool,
        second_sign: bool,
    ) -> Result<Term, NoMemory>
        requires { self.now.width ≤ 65536 }
        ensures { IfOk result (λ t. formula_of t ≡ sum_at self.now upper first_sign second_sign) }
    {
        let first = take_half(
            alloc,
            self.width,
            self.first_start,
            upper,
            first_sign,
            Term::Bound(self.first),
        )?;
        let second = take_half(
            alloc,
            self.width,
            self.second_start,
            upper,
            second_sign,
            Term::Bound(self.second),
        )?;
        let sum = Term::two(alloc, Op2::Add, first, second)?;
        match self.carry {
            None => Ok(sum),
            Some(bound) => {
                let carry = take_half(
                    alloc,
                    self.width,
                    self.width,
                    upper,
                    upper,
                    Term::Bound(bound),
                )?;
                Term::two(alloc, Op2::Add, sum, carry)
            }
        }
    }

    /// The taint in the case of these signs: where the least and the greatest sum differ.
    fn case(&self, alloc: Global, first_sign: bool, second_sign: bool) -> Result<Term, NoMemory>
        requires { self.now.width ≤ 65536 }
        ensures { IfOk result (λ t. formula_of t ≡ case_taint (sum_at self.now) first_sign second_sign) }
    {
        let least = self.sum(alloc, false, first_sign, second_sign)?;
        let greatest = self.sum(alloc, true, first_sign, second_sign)?;
        Term::two(alloc, Op2::Xor, least, greatest)
    }

    /// The taint in the case of this sign of the first addend, by cases of the second.
    fn second_cases(&self, alloc: Global, first_sign: bool) -> Result<Term, NoMemory>
        requires { self.now.width ≤ 65536 }
        ensures { IfOk result (λ t. formula_of t
            ≡ second_taint (nat_lt self.now.second_start self.now.width) (sum_at self.now) first_sign) }
    {
        let zero = self.case(alloc, first_sign, false)?;
        if self.second_start < self.width {
            let one = self.case(alloc, first_sign, true)?;
            let zero_value = self.sum(alloc, false, first_sign, false)?;
            let one_value = self.sum(alloc, false, first_sign, true)?;
            join(alloc, zero, one, zero_value, one_value)
        } else {
            Ok(zero)
        }
    }

    /// The taint by cases of both signs.
    pub fn cases(&self, alloc: Global) -> Result<Term, NoMemory>
        requires { self.now.width ≤ 65536 }
        ensures { IfOk result (λ t. formula_of t ≡ sums_taint self.now) }
    {
        let zero = self.second_cases(alloc, false)?;
        if self.first_start < self.width {
            let one = self.second_cases(alloc, true)?;
            let zero_value = self.sum(alloc, false, false, false)?;
            let one_value = self.sum(alloc, false, true, false)?;
            join(alloc, zero, one, zero_value, one_value)
        } else {
            Ok(zero)
        }
    }
}

/// The taint of a sum.
pub fn sum_term(
    alloc: Global,
    width: u32,
    first: &Addend,
    second: &Addend,
) -> Result<Term, NoMemory>
    requires { width ≤ 65536 }
    ensures { IfOk result (λ t. formula_of t ≡ sum_taint width first.now second.now) }
{
    let sums = Sums {
        width,
        first: 1,
        first_start: first.start(width),
        second: 0,
        second_start: second.start(width),
        carry: None,
    };
    let first_taint = take_below(alloc, width, sums.first_start, first.taint(alloc, width)?)?;
    let second_taint = take_below(alloc, width, sums.second_start, second.taint(alloc, width)?)?;
    let own = Term::two(alloc, Op2::Or, first_taint, second_taint)?;
    let taint = Term::two(alloc, Op2::Or, own, sums.cases(alloc)?)?;
    name_bounds(alloc, width, first, second, taint)
}

/// The taint of `$add`.
pub fn add_term(alloc: Global, width: u32, pair: &OperandPair) -> Result<Term, NoMemory>
    requires { width ≤ 65536 }
    ensures { IfOk result
        (λ t. formula_of t ≡ add_taint width pair.now.signed pair.now.first_bits pair.now.second_bits) }
{
    let first = Addend::Plain(pair.first());
    let second = Addend::Plain(pair.second());
    Ok(sum_term(alloc, width, &first, &second)?)
}

/// The taint of `$sub`.
pub fn sub_term(alloc: Global, width: u32, pair: &OperandPair) -> Result<Term, NoMemory>
    requires { width ≤ 65536 }
    ensures { IfOk result
        (λ t. formula_of t ≡ sub_taint width pair.now.signed pair.now.first_bits pair.now.second_bits) }
{
    let first = Addend::Complement(pair.first());
    let second = Addend::Plain(pair.second());
    Ok(sum_term(alloc, width, &first, &second)?)
}

/// The taint of `$neg` of an operand of `bits` bits.
pub fn neg_term(alloc: Global, width: u32, signed: bool, bits: u32) -> Result<Term, NoMemory>
    requires { width ≤ 65536 }
    ensures { IfOk result (λ t. formula_of t ≡ neg_taint width signed bits) }
{
    let operand = Operand {
        port: 0,
        bits,
        signed,
    };
    let complement = Addend::Complement(operand);
    let one = Addend::Unit;
    Ok(sum_term(alloc, width, &complement, &one)?)
}
