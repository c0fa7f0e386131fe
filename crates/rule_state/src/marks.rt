// Words with their taints as terms, and choices between them by a control.
ghost use Rattle.std.specs.Prelude.{◌≡◌, IfOk};
ghost use Rattle.cif_term.specs.Formulas.{Choose};
ghost use Rattle.cif_term.specs.TermView.{formula_of};
ghost use Rattle.rule_state.specs.Marks.{chosen_mark, control_mark, operand_mark};
ghost use Rattle.rule_state.specs.MarkView.{mark_of};

use cif_bits::{Bits, NoMemory};
use cif_term::{Op1, Op2, Term};
use std::alloc::Global;

/// A word and its taint. Neither term names what may stand around it.
#[derive(Drop)]
pub struct MarkedTerm {
    /// The word.
    pub value: Term,
    /// Its taint.
    pub taint: Term,
}

impl MarkedTerm {
    /// The word of an operand.
    pub fn operand(port: u32) -> MarkedTerm
        ensures { mark_of result ≡ operand_mark port }
    {
        MarkedTerm {
            value: Term::Value(port),
            taint: Term::Taint(port),
        }
    }
}

/// A control: an operand of one bit, and the bit at which it is active. By a polarity that is neither 0 nor 1 it never
/// is.
#[derive(Clone, Copy)]
pub struct Control {
    /// The operand.
    pub port: u32,
    /// The bit at which it is active.
    pub polarity: u64,
}

impl Control {
    /// Whether the control is active, in one bit.
    fn value(&self, alloc: Global) -> Result<Term, NoMemory>
        ensures { IfOk result (λ t. formula_of t ≡ (control_mark self.now.polarity self.now.port).value) }
    {
        if self.polarity == 1 {
            Ok(Term::Value(self.port))
        } else if self.polarity == 0 {
            Term::one(alloc, Op1::Not, Term::Value(self.port))
        } else {
            Ok(Term::Const(Bits::zeros(alloc, 1)?))
        }
    }

    /// The taint of that bit.
    fn taint(&self, alloc: Global) -> Result<Term, NoMemory>
        ensures { IfOk result (λ t. formula_of t ≡ (control_mark self.now.polarity self.now.port).taint) }
    {
        if self.polarity <= 1 {
            Ok(Term::Taint(self.port))
        } else {
            Ok(Term::Const(Bits::zeros(alloc, 1)?))
        }
    }
}

/// `one` where the control is active, else `zero`.
pub fn chosen_value(
    alloc: Global,
    control: Control,
    zero: Term,
    one: Term,
) -> Result<Term, NoMemory>
    ensures { IfOk result (λ t. formula_of t
        ≡ Choose (control_mark control.polarity control.port).value (formula_of zero) (formula_of one)) }
{
    let active = control.value(alloc)?;
    Term::choose(alloc, active, zero, one)
}

/// The taint of `one` where the control is active, else of `zero`: where the control is tainted, that of both and of
/// their difference.
pub fn chosen_taint(
    alloc: Global,
    control: Control,
    zero: MarkedTerm,
    one: MarkedTerm,
) -> Result<Term, NoMemory>
    ensures { IfOk result (λ t. formula_of t
        ≡ (chosen_mark (control_mark control.polarity control.port) (mark_of zero) (mark_of one)).taint) }
{
    let either = Term::two(alloc, Op2::Or, Term::Bound(1), Term::Bound(0))?;
    let differ = Term::two(alloc, Op2::Xor, zero.value, one.value)?;
    let joined = Term::two(alloc, Op2::Or, either, differ)?;
    let chosen = Term::choose(alloc, control.value(alloc)?, Term::Bound(1), Term::Bound(0))?;
    let taint = Term::choose(alloc, control.taint(alloc)?, chosen, joined)?;
    let inner = Term::name(alloc, one.taint, taint)?;
    Term::name(alloc, zero.taint, inner)
}
