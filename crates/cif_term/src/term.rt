// Terms, and the making of them.

ghost use Rattle.std.specs.Prelude.{◌≡◌, IfOk};
ghost use Rattle.cif_term.specs.TermView.{formula_of};
ghost use Rattle.cif_term.specs.Formulas.{Value, Taint, Const, Bound, Pick, Join, One, Two, Choose, Let};

use crate::ops::{Op1, Op2};
use cif_bits::{Bits, NoMemory};
use cif_defs::Listed;
use std::alloc::Global;

/// Places in a word. Bit 0 is the lowest.
pub type Places = Listed<u32>;

/// What computes one output's taint word from the values and the taints of a cell's operands.
#[derive(Drop)]
pub enum Term {
    /// The word of an operand.
    Value(u32),
    /// The taint of an operand.
    Taint(u32),
    /// A word that is always the same.
    Const(Bits),
    /// What an enclosing `Let` names; 0 is the nearest.
    Bound(u32),
    /// The bits at these places, which may repeat, lowest first.
    Pick(Box<Term>, Places),
    /// The first part low, and the second above it.
    Join(Box<Term>, Box<Term>),
    /// An operation on one part.
    One(Op1, Box<Term>),
    /// An operation on two parts of one width.
    Two(Op2, Box<Term>, Box<Term>),
    /// A select of one bit, then the part for 0 and the part for 1.
    Choose(Box<Term>, Box<Term>, Box<Term>),
    /// Names its first part inside the second.
    Let(Box<Term>, Box<Term>),
}

/// A term in a place of its own.
fn boxed(alloc: Global, term: Term) -> Result<Box<Term>, NoMemory>
    ensures { IfOk result (λ b. b.value ≡ term) }
{
    match Box::new(alloc, term) {
        Ok(boxed) => Ok(boxed),
        Err(_) => Err(NoMemory),
    }
}

/// The making of terms.
impl Term {
    /// The bits of `part` at these places.
    pub fn pick(alloc: Global, part: Term, places: Vec<u32>) -> Result<Term, NoMemory>
        ensures { IfOk result (λ t. formula_of t ≡ Pick (formula_of part) places.items) }
    {
        Ok(Term::Pick(boxed(alloc, part)?, Listed::of(places)))
    }

    /// `low`, and `high` above it.
    pub fn join(alloc: Global, low: Term, high: Term) -> Result<Term, NoMemory>
        ensures { IfOk result (λ t. formula_of t ≡ Join (formula_of low) (formula_of high)) }
    {
        Ok(Term::Join(boxed(alloc, low)?, boxed(alloc, high)?))
    }

    /// An operation on one part.
    pub fn one(alloc: Global, op: Op1, part: Term) -> Result<Term, NoMemory>
        ensures { IfOk result (λ t. formula_of t ≡ One op (formula_of part)) }
    {
        Ok(Term::One(op, boxed(alloc, part)?))
    }

    /// An operation on two parts.
    pub fn two(alloc: Global, op: Op2, first: Term, second: Term) -> Result<Term, NoMemory>
        ensures { IfOk result (λ t. formula_of t ≡ Two op (formula_of first) (formula_of second)) }
    {
        Ok(Term::Two(op, boxed(alloc, first)?, boxed(alloc, second)?))
    }

    /// `one` where the select is 1, else `zero`.
    pub fn choose(alloc: Global, select: Term, zero: Term, one: Term) -> Result<Term, NoMemory>
        ensures { IfOk result
            (λ t. formula_of t ≡ Choose (formula_of select) (formula_of zero) (formula_of one)) }
    {
        Ok(Term::Choose(
            boxed(alloc, select)?,
            boxed(alloc, zero)?,
            boxed(alloc, one)?,
        ))
    }

    /// `body`, inside which `Bound(0)` is `named`.
    pub fn name(alloc: Global, named: Term, body: Term) -> Result<Term, NoMemory>
        ensures { IfOk result (λ t. formula_of t ≡ Let (formula_of named) (formula_of body)) }
    {
        Ok(Term::Let(boxed(alloc, named)?, boxed(alloc, body)?))
    }
}
