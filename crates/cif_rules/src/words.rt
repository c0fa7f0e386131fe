// The taint words of cells, from the values of their terms.
ghost use Rattle.std.specs.Prelude.{◌≡◌, length, map, IfOk};
ghost use Rattle.cif_defs.specs.Kinds.{role_of};
ghost use Rattle.cif_defs.specs.Fitted.{IsFitted, operand_widths};
ghost use Rattle.cif_term.specs.CellTaints.{AreTaintsOf, taint_words};
ghost use Rattle.cif_term.specs.TermView.{formula_of};

use crate::taint_terms;
use cif_bits::{Bits, NoMemory};
use cif_defs::Role;
use cif_kinds::Cell;
use cif_term::Term;
use std::alloc::Global;

/// The taint words that the terms of a cell give, where `values` and `taints` are those of its operands. The only error
/// is want of memory.
pub fn term_words(
    alloc: Global,
    cell: &Cell,
    terms: &[Term],
    values: &[Bits],
    taints: &[Bits],
) -> Result<Vec<Bits>, NoMemory>
    requires terms { AreTaintsOf cell.now (map formula_of terms.now) }
    requires values { map length values.now ≡ operand_widths cell.now }
    requires taints { map length taints.now ≡ operand_widths cell.now }
    ensures { IfOk result (λ ws. ws.items ≡ taint_words cell.now values.now taints.now) }
{
    let _cell = cell;
    let mut words = Vec::with_capacity(alloc, terms.len())?;
    for i in 0..terms.len() {
        let term = &terms[i];
        words.push(term.eval(alloc, values, taints)?)?;
    }
    Ok(words)
}

/// The taint words of a combinational cell's outputs, for operand words `values` with the taints `taints`: the exact
/// taint of each bit, or the coarse one where the kind has that.
///
/// There is one word of the right width for each operand. The only error is want of memory.
pub fn taint_of(
    alloc: Global,
    cell: &Cell,
    values: &[Bits],
    taints: &[Bits],
) -> Result<Vec<Bits>, NoMemory>
    requires role { role_of cell.now.kind ≡ Role.Combinational }
    requires fitted { IsFitted cell.now }
    requires values { map length values.now ≡ operand_widths cell.now }
    requires taints { map length taints.now ≡ operand_widths cell.now }
    ensures { IfOk result (λ ws. ws.items ≡ taint_words cell.now values.now taints.now) }
{
    let terms = taint_terms(alloc, cell)?;
    Ok(term_words(alloc, cell, &terms, values, taints)?)
}
