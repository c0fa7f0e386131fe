// Operands, and what sums add up.
ghost use Rattle.std.specs.Prelude.{◌≡◌, ◌≤◌, max, IfOk};
ghost use Rattle.cif_term.specs.TermView.{formula_of};
ghost use Rattle.rule_arith.specs.Addends.{addend_start, addend_taint, addend_word, bit_bound, operand_taint, operand_word, repeated};
ghost use Rattle.rule_arith.specs.Bounds.{order_start, sign_start};
ghost use Rattle.rule_arith.specs.SumFormulas.{first_operand, second_operand};

use cif_bits::{Bits, NoMemory};
use cif_term::{Op1, Op2, Term};
use std::alloc::Global;

/// An operand: its place in the cell, how many bits it has, and whether its highest bit is a sign.
#[derive(Clone, Copy)]
pub struct Operand {
    pub port: u32,
    pub bits: u32,
    pub signed: bool,
}

impl Operand {
    /// Its word, extended.
    pub fn word(&self, alloc: Global, width: u32) -> Result<Term, NoMemory>
        requires { width ≤ 65536 }
        ensures { IfOk result
            (λ t. formula_of t ≡ operand_word width self.now.signed self.now.bits self.now.port) }
    {
        Term::extended(alloc, Term::Value(self.port), self.bits, width, self.signed)
    }

    /// Its taint, extended.
    pub fn taint(&self, alloc: Global, width: u32) -> Result<Term, NoMemory>
        requires { width ≤ 65536 }
        ensures { IfOk result
            (λ t. formula_of t ≡ operand_taint width self.now.signed self.now.bits self.now.port) }
    {
        Term::extended(alloc, Term::Taint(self.port), self.bits, width, self.signed)
    }

    /// The place from which its extension shows its sign bit, or the width where it shows it once at most.
    pub fn sign_start(&self, width: u32) -> u32
        ensures { result ≡ sign_start width self.now.signed self.now.bits }
    {
        if self.signed && self.bits < width {
            self.bits.saturating_sub(1)
        } else {
            width
        }
    }

    /// The place from which a bit of its extension makes its number smaller, or the width where none does.
    pub fn order_start(&self, width: u32) -> u32
        ensures { result ≡ order_start width self.now.signed self.now.bits }
    {
        if self.signed {
            self.bits.saturating_sub(1)
        } else {
            width
        }
    }
}

/// The operands A and B of a cell: how many bits each has, and whether both are signed.
#[derive(Clone, Copy)]
pub struct OperandPair {
    pub signed: bool,
    pub first_bits: u32,
    pub second_bits: u32,
}

impl OperandPair {
    /// A.
    pub fn first(&self) -> Operand
        ensures { result ≡ first_operand self.now.signed self.now.first_bits }
    {
        Operand {
            port: 0,
            bits: self.first_bits,
            signed: self.signed,
        }
    }

    /// B.
    pub fn second(&self) -> Operand
        ensures { result ≡ second_operand self.now.signed self.now.second_bits }
    {
        Operand {
            port: 1,
            bits: self.second_bits,
            signed: self.signed,
        }
    }

    /// How many bits the wider one has.
    pub fn widest(&self) -> u32
        ensures { result ≡ max self.now.first_bits self.now.second_bits }
    {
        self.first_bits.max(self.second_bits)
    }
}

/// What a sum adds up.
#[derive(Clone, Copy)]
pub enum Addend {
    /// An operand.
    Plain(Operand),
    /// The complement of an operand.
    Complement(Operand),
    /// The number 1.
    Unit,
    /// An operand, complemented where the operand of one bit at this port is 1, at its least or at its greatest.
    Inverted(Operand, u32, bool),
}

/// An operand of one bit where its taint is 0, or where it is 1.
pub fn bound_of_bit(alloc: Global, port: u32, upper: bool) -> Result<Term, NoMemory>
    ensures { IfOk result (λ t. formula_of t ≡ bit_bound port upper) }
{
    if upper {
        Term::two(alloc, Op2::Or, Term::Value(port), Term::Taint(port))
    } else {
        let clear = Term::one(alloc, Op1::Not, Term::Taint(port))?;
        Term::two(alloc, Op2::And, Term::Value(port), clear)
    }
}

/// `width` times the same bit.
pub fn repeat(alloc: Global, width: u32, bit: Term) -> Result<Term, NoMemory>
    requires { width ≤ 65536 }
    ensures { IfOk result (λ t. formula_of t ≡ repeated width (formula_of bit)) }
{
    Term::extended(alloc, bit, 1, width, true)
}

/// The word 1.
fn unit(alloc: Global, width: u32) -> Result<Term, NoMemory>
    requires { width ≤ 65536 }
    ensures { IfOk result (λ t. formula_of t ≡ addend_word width Addend.Unit) }
{
    let bits = vec![in alloc; true; 1]?;
    let one = Term::Const(Bits::of(bits));
    Term::extended(alloc, one, 1, width, false)
}

/// A word of zeros.
fn no_taint(alloc: Global, width: u32) -> Result<Term, NoMemory>
    requires { width ≤ 65536 }
    ensures { IfOk result (λ t. formula_of t ≡ addend_taint width Addend.Unit) }
{
    Ok(Term::Const(Bits::zeros(alloc, width)?))
}

impl Addend {
    /// The word that is added.
    pub fn word(&self, alloc: Global, width: u32) -> Result<Term, NoMemory>
        requires { width ≤ 65536 }
        ensures { IfOk result (λ t. formula_of t ≡ addend_word width self.now) }
    {
        match self {
            Addend::Plain(operand) => Ok(operand.word(alloc, width)?),
            Addend::Complement(operand) => {
                let word = operand.word(alloc, width)?;
                Ok(Term::one(alloc, Op1::Not, word)?)
            }
            Addend::Unit => Ok(unit(alloc, width)?),
            Addend::Inverted(operand, port, upper) => {
                let word = operand.word(alloc, width)?;
                let bit = bound_of_bit(alloc, *port, *upper)?;
                let inverts = repeat(alloc, width, bit)?;
                Ok(Term::two(alloc, Op2::Xor, word, inverts)?)
            }
        }
    }

    /// Its taint.
    pub fn taint(&self, alloc: Global, width: u32) -> Result<Term, NoMemory>
        requires { width ≤ 65536 }
        ensures { IfOk result (λ t. formula_of t ≡ addend_taint width self.now) }
    {
        match self {
            Addend::Plain(operand) => Ok(operand.taint(alloc, width)?),
            Addend::Complement(operand) => Ok(operand.taint(alloc, width)?),
            Addend::Unit => Ok(no_taint(alloc, width)?),
            Addend::Inverted(operand, _, _) => Ok(operand.taint(alloc, width)?),
        }
    }

    /// Where its sign starts.
    pub fn start(&self, width: u32) -> u32
        ensures { result ≡ addend_start width self.now }
    {
        match self {
            Addend::Plain(operand) => operand.sign_start(width),
            Addend::Complement(operand) => operand.sign_start(width),
            Addend::Unit => width,
            Addend::Inverted(operand, _, _) => operand.sign_start(width),
        }
    }
}
