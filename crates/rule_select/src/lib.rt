//! Terms of the exact taint of cells that select: choices and shifts.
//!
//! Each bit of such a cell is a tree of choices, in which a select bit stands once on each way. So its exact taint
//! follows choice by choice: where the select bit is untainted it is that of the chosen part, else that of both parts
//! and of their difference.
#![tactic(auto)]

mod chains;
mod moves;
mod mux;
mod offsets;
mod selections;
mod shadow;
mod shifts;
mod tree;

ghost use Rattle.std.specs.Prelude.{◌≡◌, true, map, IfOk};
ghost use Rattle.cif_defs.specs.Fitted.{IsFitted};
ghost use Rattle.cif_term.specs.CellTaints.{AreTaintsOf};
ghost use Rattle.cif_term.specs.TermView.{formula_of};
ghost use Rattle.rule_select.specs.Selects.{is_select};

use cif_bits::NoMemory;
use cif_defs::Kind;
use cif_kinds::Cell;
use cif_term::{Term, all_terms};
pub use shadow::SelectShadow;
use std::alloc::Global;

/// Whether cells of this kind have their terms here.
pub fn covers(kind: Kind) -> bool
    ensures { result ≡ is_select kind }
{
    matches!(
        kind,
        Kind::Mux
            | Kind::Shl
            | Kind::Sshl
            | Kind::Shr
            | Kind::Sshr
            | Kind::Shift
            | Kind::Shiftx
            | Kind::Bmux
            | Kind::Demux
            | Kind::Lut
            | Kind::Pmux
    )
}

/// A term for each output of a cell: its value is the exact taint of the output, for all values and taints of the
/// operands, and together they cost no more than the cell weighs.
pub fn taint_terms(alloc: Global, cell: &Cell) -> Result<Vec<Term>, NoMemory>
    requires covered { is_select cell.now.kind ≡ true }
    requires fitted { IsFitted cell.now }
    ensures { IfOk result (λ ts. AreTaintsOf cell.now (map formula_of ts.items)) }
{
    Ok(all_terms(alloc, &SelectShadow::of(cell))?)
}
