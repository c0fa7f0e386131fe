// The terms of $bmux, $demux and $lut.
ghost use Rattle.std.specs.Prelude.{ℕ, ◌≡◌, ◌≤◌, ◌*◌, ◌^◌, IfOk};
ghost use Rattle.cif_defs.specs.Words.{bit, word};
ghost use Rattle.cif_defs.specs.declared.kinds.Param.TheVariants.{Lut as LutTable};
ghost use Rattle.cif_defs.specs.Cells.{width, digits_of};
ghost use Rattle.cif_term.specs.TermView.{formula_of};
ghost use Rattle.rule_select.specs.Selections.{bmux_formula, demux_formula, lut_formula, cell_bmux, cell_demux, cell_lut, AreBlocks};

use crate::moves::Moves;
use crate::shifts::width_by;
use crate::tree::tree_term;
use cif_bits::{Bits, NoMemory};
use cif_defs::Param;
use cif_kinds::Cell;
use cif_term::Term;
use std::alloc::Global;

/// The taint of `$bmux`.
#[tactic(auto, unfolding(crate::specs::Moves::FitsBy))]
pub fn bmux_term(alloc: Global, cell: &Cell) -> Result<Term, NoMemory>
    requires { AreBlocks cell.now }
    ensures { IfOk result (λ t. formula_of t ≡ cell_bmux cell.now) }
{
    let width = width_by(cell, Param::Width);
    let selects = width_by(cell, Param::SWidth);
    let moves = Moves::Halves(width);
    let (value, taint) = (Term::Value(0), Term::Taint(0));
    tree_term(alloc, moves, 1, selects, value, taint, Term::Bound(0))
}

/// The taint of `$demux`.
#[tactic(auto, unfolding(crate::specs::Moves::FitsBy))]
pub fn demux_term(alloc: Global, cell: &Cell) -> Result<Term, NoMemory>
    requires { AreBlocks cell.now }
    ensures { IfOk result (λ t. formula_of t ≡ cell_demux cell.now) }
{
    let width = width_by(cell, Param::Width);
    let selects = width_by(cell, Param::SWidth);
    let moves = Moves::Blocks(width);
    let (value, taint) = (Term::Value(0), Term::Taint(0));
    tree_term(alloc, moves, 1, selects, value, taint, Term::Bound(0))
}

/// The first `size` digits of the table of a `$lut`.
fn table(alloc: Global, cell: &Cell, size: u32) -> Result<Bits, NoMemory>
    requires { size ≤ 65536 }
    ensures { IfOk result (λ w. w ≡ word size (bit (digits_of cell.now LutTable))) }
{
    let mut bits = Vec::with_capacity(alloc, size as usize)?;
    for place in 0..size {
        bits.push(cell.digit(Param::Lut, place))?;
    }
    Ok(Bits::of(bits))
}

/// The taint of `$lut`.
#[tactic(auto, unfolding(crate::specs::Moves::FitsBy))]
pub fn lut_term(alloc: Global, cell: &Cell) -> Result<Term, NoMemory>
    requires { width cell.now ≤ 12 }
    ensures { IfOk result (λ t. formula_of t ≡ cell_lut cell.now) }
{
    let selects = width_by(cell, Param::Width);
    let size = 1u32 << selects;
    let value = Term::Const(table(alloc, cell, size)?);
    let taint = Term::Const(Bits::zeros(alloc, size)?);
    tree_term(
        alloc,
        Moves::Halves(1),
        0,
        selects,
        value,
        taint,
        Term::Bound(0),
    )
}
