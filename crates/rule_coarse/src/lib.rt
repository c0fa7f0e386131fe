//! Terms of the coarse taint of products and divisions.
//!
//! A product taints each bit from the lowest tainted place of its operands on. Unsigned `$div` taints each bit up to the
//! highest place at which its least and its largest quotient differ. The other divisions taint every bit or none. No bit
//! is tainted where a factor or the divisor is a known zero.
#![tactic(auto)]

mod division;
mod product;
mod quotient;
mod shadow;
mod shape;

ghost use Rattle.std.specs.Prelude.{◌≡◌, true, map, IfOk};
ghost use Rattle.cif_defs.specs.Fitted.{IsFitted};
ghost use Rattle.cif_term.specs.CellTaints.{AreTaintsOf};
ghost use Rattle.cif_term.specs.TermView.{formula_of};
ghost use Rattle.rule_coarse.specs.CoarseFormulas.{covers_coarse};

use cif_bits::NoMemory;
use cif_defs::Kind;
use cif_kinds::Cell;
use cif_term::{Term, all_terms};
pub use shadow::CoarseShadow;
use std::alloc::Global;

/// Whether cells of this kind have their terms here.
pub fn covers(kind: Kind) -> bool
    ensures { result ≡ covers_coarse kind }
{
    matches!(
        kind,
        Kind::Mul | Kind::Div | Kind::Mod | Kind::DivFloor | Kind::ModFloor
    )
}

/// A term for the output of a cell: its value is the coarse taint of the output, for all values and taints of the
/// operands, and it costs no more than the cell weighs.
pub fn taint_terms(alloc: Global, cell: &Cell) -> Result<Vec<Term>, NoMemory>
    requires covered { covers_coarse cell.now.kind ≡ true }
    requires fitted { IsFitted cell.now }
    ensures { IfOk result (λ ts. AreTaintsOf cell.now (map formula_of ts.items)) }
{
    Ok(all_terms(alloc, &CoarseShadow::of(cell))?)
}
