// Rules and enumeration, side by side.
ghost use Rattle.std.specs.Prelude.{◌≡◌, ◌↔◌, true, false, List, length, map, IfOk, IsTrue};
ghost use Rattle.cif_defs.specs.Words.{Word};
ghost use Rattle.cif_defs.specs.Cells.{Cell as CellValue};
ghost use Rattle.cif_defs.specs.Kinds.{is_coarse, role_of};
ghost use Rattle.cif_defs.specs.Fitted.{IsFitted, operand_widths};
ghost use Rattle.cif_term.specs.Formulas.{Formula, values_of};
ghost use Rattle.cif_term.specs.CellTaints.{AreOperands, AreTaintsOf};
ghost use Rattle.cif_enumerate.specs.ExactWords.{exact_words};

use cif_bits::{Bits, NoMemory};
use cif_enumerate::exact_taint;
use cif_kinds::{Cell, Role};
use cif_rules::taint_of;
use std::alloc::Global;

/// Whether two lists hold the same words.
fn are_same(first: &[Bits], second: &[Bits]) -> bool
    ensures { IsTrue result ↔ (first.now ≡ second.now) }
{
    if first.len() != second.len() {
        return false;
    }
    for (index, word) in first.iter().enumerate() {
        if !word.equals(&second[index]) {
            return false;
        }
    }
    true
}

/// Whether the taint that a cell's terms give, for operand words `values` with the taints `taints`, is the one that
/// trying every completion gives. It always is.
pub fn agrees(
    alloc: Global,
    cell: &Cell,
    values: &[Bits],
    taints: &[Bits],
) -> Result<bool, NoMemory>
    requires role { role_of cell.now.kind ≡ Role.Combinational }
    requires exact { is_coarse cell.now.kind ≡ false }
    requires fitted { IsFitted cell.now }
    requires values { map length values.now ≡ operand_widths cell.now }
    requires taints { map length taints.now ≡ operand_widths cell.now }
    ensures { IfOk result (λ agree. agree ≡ true) }
{
    let by_rule = taint_of(alloc, cell, values, taints)?;
    let exact = exact_taint(alloc, cell, values, taints)?;
    Ok(are_same(&by_rule, &exact))
}

/// Two laws without a body. Formulas that compute the taint of a fitted cell whose taint is exact, as those do for which
/// the terms of `cif_rules::taint_terms` stand, give for all operand words and all their taints what trying every
/// completion gives. And each fitted combinational cell has such formulas.
pub fn rules_are_exact()
    ensures exact { (cell : CellValue) (formulas : List Formula) (values taints : List Word)
        → role_of cell.kind ≡ Role.Combinational → is_coarse cell.kind ≡ false → IsFitted cell
        → AreTaintsOf cell formulas → AreOperands cell values → AreOperands cell taints
        → values_of formulas values taints ≡ exact_words cell values taints }
    ensures given { (cell : CellValue) → role_of cell.kind ≡ Role.Combinational → IsFitted cell
        → ((formulas : List Formula) × AreTaintsOf cell formulas) }
{}
