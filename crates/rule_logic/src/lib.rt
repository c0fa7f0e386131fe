//! Terms of the exact taint of bitwise, reducing and wiring kinds.
//!
//! A bit of a bitwise kind reads one bit of each operand, so its taint follows by a truth table. A reduction grows with
//! each of its bits, or is a parity: it can differ exactly where it differs between the operand with all tainted bits set
//! and the operand with all of them cleared, or where any bit is tainted.
#![tactic(auto)]

mod adder;
mod bitwise;
mod reduction;
mod shadow;

ghost use Rattle.std.specs.Prelude.{◌≡◌, true, map, IfOk};
ghost use Rattle.cif_defs.specs.Fitted.{IsFitted};
ghost use Rattle.cif_term.specs.CellTaints.{AreTaintsOf};
ghost use Rattle.cif_term.specs.TermView.{formula_of};
ghost use Rattle.rule_logic.specs.LogicFormulas.{covers_logic};

use cif_bits::NoMemory;
use cif_defs::Kind;
use cif_kinds::Cell;
use cif_term::{Term, all_terms};
pub use shadow::LogicShadow;
use std::alloc::Global;

/// Whether cells of this kind have their terms here.
pub fn covers(kind: Kind) -> bool
    ensures { result ≡ covers_logic kind }
{
    matches!(
        kind,
        Kind::Not
            | Kind::Pos
            | Kind::And
            | Kind::Or
            | Kind::Xor
            | Kind::Xnor
            | Kind::ReduceAnd
            | Kind::ReduceOr
            | Kind::ReduceXor
            | Kind::ReduceXnor
            | Kind::ReduceBool
            | Kind::LogicNot
            | Kind::LogicAnd
            | Kind::LogicOr
            | Kind::Concat
            | Kind::Slice
            | Kind::Fa
    )
}

/// A term for each output of a cell: its value is the exact taint of the output, for all values and taints of the
/// operands, and together they cost no more than the cell weighs.
pub fn taint_terms(alloc: Global, cell: &Cell) -> Result<Vec<Term>, NoMemory>
    requires covered { covers_logic cell.now.kind ≡ true }
    requires fitted { IsFitted cell.now }
    ensures { IfOk result (λ ts. AreTaintsOf cell.now (map formula_of ts.items)) }
{
    Ok(all_terms(alloc, &LogicShadow::of(cell))?)
}
