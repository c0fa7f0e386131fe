//! Terms of the exact taint of sums, comparisons and equality.
//!
//! A sum can differ where it differs between the words whose tainted bits are all 0 and those whose tainted bits are all
//! 1. A tainted sign bit that an extension repeats is taken apart from the others: the taint is that of either case, and
//! of their difference. A comparison can differ where it differs between the least and the greatest number of each
//! operand. Equality can differ where the words can be the same and a bit is tainted.
#![tactic(auto)]

mod alu;
mod bounds;
mod equals;
mod operands;
mod orders;
mod shadow;
mod sums;

ghost use Rattle.std.specs.Prelude.{◌≡◌, true, map, IfOk};
ghost use Rattle.cif_defs.specs.Fitted.{IsFitted};
ghost use Rattle.cif_term.specs.CellTaints.{AreTaintsOf};
ghost use Rattle.cif_term.specs.TermView.{formula_of};
ghost use Rattle.rule_arith.specs.ArithFormulas.{covers_arith};

use cif_bits::NoMemory;
use cif_defs::Kind;
use cif_kinds::Cell;
use cif_term::{Term, all_terms};
pub use shadow::ArithShadow;
use std::alloc::Global;

/// Whether cells of this kind have their terms here.
pub fn covers(kind: Kind) -> bool
    ensures { result ≡ covers_arith kind }
{
    matches!(
        kind,
        Kind::Neg
            | Kind::Add
            | Kind::Sub
            | Kind::Eq
            | Kind::Ne
            | Kind::Eqx
            | Kind::Nex
            | Kind::Lt
            | Kind::Le
            | Kind::Ge
            | Kind::Gt
            | Kind::Alu
    )
}

/// A term for each output of a cell: its value is the exact taint of the output, for all values and taints of the
/// operands, and together they cost no more than the cell weighs.
pub fn taint_terms(alloc: Global, cell: &Cell) -> Result<Vec<Term>, NoMemory>
    requires covered { covers_arith cell.now.kind ≡ true }
    requires fitted { IsFitted cell.now }
    ensures { IfOk result (λ ts. AreTaintsOf cell.now (map formula_of ts.items)) }
{
    Ok(all_terms(alloc, &ArithShadow::of(cell))?)
}
