// The term of $mux.
ghost use Rattle.std.specs.Prelude.{◌≡◌, IfOk};
ghost use Rattle.cif_term.specs.TermView.{formula_of};
ghost use Rattle.rule_select.specs.Mux.{mux_formula};

use cif_bits::NoMemory;
use cif_term::{Op2, Term};
use std::alloc::Global;

/// The taint of `$mux`, whose operands are A, B and S: that of the chosen word, or where S is tainted that of both words
/// and of their difference.
pub fn mux_term(alloc: Global) -> Result<Term, NoMemory>
    ensures { IfOk result (λ t. formula_of t ≡ mux_formula) }
{
    let chosen = Term::choose(alloc, Term::Value(2), Term::Taint(0), Term::Taint(1))?;
    let either = Term::two(alloc, Op2::Or, Term::Taint(0), Term::Taint(1))?;
    let differ = Term::two(alloc, Op2::Xor, Term::Value(0), Term::Value(1))?;
    let joined = Term::two(alloc, Op2::Or, either, differ)?;
    Term::choose(alloc, Term::Taint(2), chosen, joined)
}
