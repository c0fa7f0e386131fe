//! The terms of the taint of combinational cells, whatever their kind: the one way from a cell to its terms.
//!
//! Each combinational kind has its terms in one of four crates: bitwise, reducing and wiring kinds in `rule_logic`, sums
//! and comparisons in `rule_arith`, choices and shifts in `rule_select`, products and divisions in `rule_coarse`.
#![tactic(auto)]

mod words;

ghost use Rattle.std.specs.Prelude.{◌≡◌, ◌↔◌, false, map, IfOk, IsTrue};
ghost use Rattle.cif_defs.specs.Kinds.{is_coarse, role_of};
ghost use Rattle.cif_defs.specs.Fitted.{IsFitted};
ghost use Rattle.cif_defs.specs.declared.kinds.Kind.{Kind as KindValue};
ghost use Rattle.cif_term.specs.CellTaints.{AreTaintsOf};
ghost use Rattle.cif_term.specs.TermView.{formula_of};
ghost use Rattle.cif_rules.specs.Covering.{crates_of};

use cif_bits::NoMemory;
use cif_defs::{Kind, Role};
use cif_kinds::{Cell, table};
use cif_term::Term;
use std::alloc::Global;
pub use words::{taint_of, term_words};

/// Whether cells of this kind have terms here, as all combinational ones have.
pub fn covers(kind: Kind) -> bool
    ensures { IsTrue result ↔ (role_of kind ≡ Role.Combinational) }
{
    matches!(table::role(kind), Role::Combinational)
}

/// Whether cells of this kind have terms here whose taint is exact, as those of all combinational kinds have but products
/// and divisions.
#[tactic(auto, using(crate::proofs::KindCovers::coarse_is_covered))]
pub fn is_exact(kind: Kind) -> bool
    ensures { IsTrue result ↔ ((role_of kind ≡ Role.Combinational) × (is_coarse kind ≡ false)) }
{
    covers(kind) && !rule_coarse::covers(kind)
}

/// A term for each output of a combinational cell: its value is the taint of the output, exact or coarse as the kind has
/// it, for all values and taints of the operands, and together they cost no more than the cell weighs.
pub fn taint_terms(alloc: Global, cell: &Cell) -> Result<Vec<Term>, NoMemory>
    requires role { role_of cell.now.kind ≡ Role.Combinational }
    requires fitted { IsFitted cell.now }
    ensures { IfOk result (λ ts. AreTaintsOf cell.now (map formula_of ts.items)) }
{
    let kind = cell.kind();
    if rule_logic::covers(kind) {
        rule_logic::taint_terms(alloc, cell)
    } else if rule_arith::covers(kind) {
        rule_arith::taint_terms(alloc, cell)
    } else if rule_coarse::covers(kind) {
        rule_coarse::taint_terms(alloc, cell)
    } else {
        rule_select::taint_terms(alloc, cell)
    }
}

/// A law without a body: each combinational kind has its terms in exactly one of the rule crates.
pub fn covered_once()
    ensures { (k : KindValue) → role_of k ≡ Role.Combinational → crates_of k ≡ 1 }
{}
