// The shadow of a cell of a coarse kind.
ghost use Rattle.std.specs.Prelude.{◌≡◌, true, ◌<◌, length, map, List, Some, IfOk};
ghost use Rattle.cif_defs.specs.Words.{Word};
ghost use Rattle.cif_defs.specs.Fitted.{IsFitted, operand_widths};
ghost use Rattle.cif_defs.specs.Table.{outputs_of};
ghost use Rattle.cif_term.specs.Formulas.{value_of, width_of};
ghost use Rattle.cif_term.specs.CellTaints.{taint_word};
ghost use Rattle.cif_term.specs.TermView.{formula_of};
ghost use Rattle.rule_coarse.specs.CoarseFormulas.{covers_coarse, coarse_formula, div_formula};

use crate::division::division_term;
use crate::product::product_term;
use crate::quotient::quotient_term;
use crate::shape::Shape;
use cif_bits::NoMemory;
use cif_kinds::{Cell, Kind, table};
use cif_term::{Shadow, Term};
use std::alloc::Global;
use std::marker::Model;

/// The taint of `$div`: that of a quotient where it is unsigned, else every bit or none.
fn div_term(alloc: Global, cell: &Cell) -> Result<Term, NoMemory>
    requires covered { covers_coarse cell.now.kind ≡ true }
    requires fitted { IsFitted cell.now }
    ensures { IfOk result (λ t. formula_of t ≡ div_formula cell.now) }
{
    let shape = Shape::of(cell);
    if shape.signed {
        division_term(alloc, shape.y)
    } else {
        quotient_term(alloc, shape)
    }
}

/// The term of the output's taint.
#[tactic(auto, unfolding(crate::specs::CoarseFormulas::coarse_formula_by))]
fn coarse_term(alloc: Global, cell: &Cell) -> Result<Term, NoMemory>
    requires covered { covers_coarse cell.now.kind ≡ true }
    requires fitted { IsFitted cell.now }
    ensures { IfOk result (λ t. formula_of t ≡ coarse_formula cell.now) }
{
    let shape = Shape::of(cell);
    match cell.kind() {
        Kind::Mul => Ok(product_term(alloc, shape)?),
        Kind::Div => Ok(div_term(alloc, cell)?),
        Kind::Mod | Kind::DivFloor | Kind::ModFloor => Ok(division_term(alloc, shape.y)?),
        _ => unreachable!(),
    }
}

/// The shadow logic of a cell of a coarse kind: a term for its one output.
#[derive(Drop)]
pub struct CoarseShadow<'a> {
    cell: &'a Cell,
}

impl<'a> Model for CoarseShadow<'a> {
    ghost use Rattle.std.specs.Prelude.{◌≡◌, true};
    ghost use Rattle.cif_defs.specs.Cells.{Cell as CellData};
    ghost use Rattle.cif_defs.specs.Fitted.{IsFitted};
    ghost use Rattle.rule_coarse.specs.CoarseFormulas.{covers_coarse};

    ghost Value = { CellData };

    ghost view = { λ s. s.cell.now };

    ghost invariant = { λ s. (covers_coarse s.cell.now.kind ≡ true) × IsFitted s.cell.now };
}

impl<'a> CoarseShadow<'a> {
    /// The shadow of a cell.
    pub fn of(cell: &'a Cell) -> CoarseShadow<'a>
        requires covered { covers_coarse cell.now.kind ≡ true }
        requires fitted { IsFitted cell.now }
        ensures { result ≡ cell.now }
    {
        CoarseShadow { cell }
    }
}

impl<'a> Shadow for CoarseShadow<'a> {
    ghost widths = { operand_widths };

    ghost count = { λ c. length (outputs_of c.kind) };

    ghost formula = { λ c _. coarse_formula c };

    ghost meant = { taint_word };

    fn outputs(&self) -> u32 {
        table::outputs(self.cell.kind()).len() as u32
    }

    fn term(&self, alloc: Global, output: u32) -> Result<Term, NoMemory> {
        let cell = self.cell;
        Ok(coarse_term(alloc, cell)?)
    }
}
