// The terms of one shape.
ghost use Rattle.std.specs.Prelude.{◌≡◌, ◌↔◌, length, map, IfOk, IsTrue, MatchOption};
ghost use Rattle.cif_defs.specs.Kinds.{role_of};
ghost use Rattle.cif_defs.specs.Fitted.{IsFitted, operand_widths};
ghost use Rattle.cif_term.specs.CellTaints.{taint_words};
ghost use Rattle.cif_term.specs.TermView.{formula_of};
ghost use Rattle.cif_shapes.specs.Shapes.{shape_of};
ghost use Rattle.cif_shapes.specs.Untainted.{untainted_words as untainted_words_of};

use crate::shape::Shape;
use crate::untainted::{is_tainted, untainted_words};
use cif_bits::{Bits, NoMemory};
use cif_defs::Role;
use cif_kinds::Cell;
use cif_rules::{taint_terms, term_words};
use cif_term::Term;
use std::alloc::Global;
use std::marker::Model;

/// The terms of the taint of combinational cells of one shape. Contracts see it as the shape.
#[derive(Drop)]
pub struct TaintRule {
    shape: Shape,
    terms: Vec<Term>,
}

impl Model for TaintRule {
    ghost use Rattle.std.specs.Prelude.{map};
    ghost use Rattle.cif_term.specs.TermView.{formula_of};
    ghost use Rattle.cif_shapes.specs.declared.shape.Shape.{Shape};
    ghost use Rattle.cif_shapes.specs.Shapes.{AreTaintsOfShape};

    ghost Value = { Shape };

    ghost view = { λ r. r.shape };

    ghost invariant = { λ r. AreTaintsOfShape r.shape (map formula_of r.terms.items) };
}

impl TaintRule {
    /// The rule of a combinational cell, which serves for all cells of its shape. The only error is want of memory.
    pub fn of(alloc: Global, cell: &Cell) -> Result<TaintRule, NoMemory>
        requires role { role_of cell.now.kind ≡ Role.Combinational }
        requires fitted { IsFitted cell.now }
        ensures { IfOk result (λ r. r ≡ shape_of cell.now) }
    {
        let shape = Shape::of(alloc, cell)?;
        let terms = taint_terms(alloc, cell)?;
        Ok(TaintRule { shape, terms })
    }

    /// Whether this is the rule of a cell's shape. It takes no memory.
    pub fn is_of(&self, cell: &Cell) -> bool
        requires { IsFitted cell.now }
        ensures { IsTrue result ↔ (self.now ≡ shape_of cell.now) }
    {
        self.shape.is_of(cell)
    }

    /// The taint words of a combinational cell's outputs, for operand words `values` with the taints `taints`: the exact
    /// taint of each bit, or the coarse one where the kind has that. None where no operand bit is tainted: each word is
    /// one of zeros there, and nothing is allocated.
    ///
    /// The cell has the shape of the rule, and there is one word of the right width for each operand. The only error is
    /// want of memory.
    pub fn taint_if_any(
        &self,
        alloc: Global,
        cell: &Cell,
        values: &[Bits],
        taints: &[Bits],
    ) -> Result<Option<Vec<Bits>>, NoMemory>
        requires role { role_of cell.now.kind ≡ Role.Combinational }
        requires fitted { IsFitted cell.now }
        requires shape { self.now ≡ shape_of cell.now }
        requires values { map length values.now ≡ operand_widths cell.now }
        requires taints { map length taints.now ≡ operand_widths cell.now }
        ensures { IfOk result (λ words. MatchOption words
            (taint_words cell.now values.now taints.now ≡ untainted_words_of cell.now)
            (λ ws. ws.items ≡ taint_words cell.now values.now taints.now)) }
    {
        if !is_tainted(taints) {
            return Ok(None);
        }
        let words = term_words(alloc, cell, &self.terms, values, taints)?;
        Ok(Some(words))
    }

    /// The same, with a word of zeros for each output where no operand bit is tainted.
    pub fn taint_of(
        &self,
        alloc: Global,
        cell: &Cell,
        values: &[Bits],
        taints: &[Bits],
    ) -> Result<Vec<Bits>, NoMemory>
        requires role { role_of cell.now.kind ≡ Role.Combinational }
        requires fitted { IsFitted cell.now }
        requires shape { self.now ≡ shape_of cell.now }
        requires values { map length values.now ≡ operand_widths cell.now }
        requires taints { map length taints.now ≡ operand_widths cell.now }
        ensures { IfOk result (λ ws. ws.items ≡ taint_words cell.now values.now taints.now) }
    {
        match self.taint_if_any(alloc, cell, values, taints)? {
            Some(words) => Ok(words),
            None => untainted_words(alloc, cell),
        }
    }
}
