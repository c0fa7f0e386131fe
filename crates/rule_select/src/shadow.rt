// The shadow of a cell that selects.
ghost use Rattle.std.specs.Prelude.{◌≡◌, true, ◌<◌, length, map, List, [], ◌∷◌, Some, IfOk};
ghost use Rattle.cif_defs.specs.Words.{Word};
ghost use Rattle.cif_defs.specs.Fitted.{IsFitted, operand_widths};
ghost use Rattle.cif_defs.specs.Table.{outputs_of};
ghost use Rattle.cif_term.specs.Formulas.{value_of, width_of};
ghost use Rattle.cif_term.specs.CellTaints.{taint_word};
ghost use Rattle.cif_term.specs.TermView.{formula_of};
ghost use Rattle.rule_select.specs.Selects.{is_select, select_formula};

use crate::chains::pmux_term;
use crate::mux::mux_term;
use crate::offsets::{either_shift_term, indexed_term};
use crate::selections::{bmux_term, demux_term, lut_term};
use crate::shifts::{left_term, right_term, signed_term};
use cif_bits::NoMemory;
use cif_defs::Kind;
use cif_kinds::Cell;
use cif_term::{Shadow, Term};
use std::alloc::Global;
use std::marker::Model;

/// The term of the one output of a cell.
fn select_term(alloc: Global, cell: &Cell) -> Result<Term, NoMemory>
    requires covered { is_select cell.now.kind ≡ true }
    requires fitted { IsFitted cell.now }
    ensures { IfOk result (λ t. formula_of t ≡ select_formula cell.now) }
{
    match cell.kind() {
        Kind::Shl => Ok(left_term(alloc, cell)?),
        Kind::Sshl => Ok(left_term(alloc, cell)?),
        Kind::Shr => Ok(right_term(alloc, cell)?),
        Kind::Sshr => Ok(signed_term(alloc, cell)?),
        Kind::Shift => Ok(either_shift_term(alloc, cell)?),
        Kind::Shiftx => Ok(indexed_term(alloc, cell)?),
        Kind::Bmux => Ok(bmux_term(alloc, cell)?),
        Kind::Demux => Ok(demux_term(alloc, cell)?),
        Kind::Lut => Ok(lut_term(alloc, cell)?),
        Kind::Pmux => Ok(pmux_term(alloc, cell)?),
        Kind::Mux => Ok(mux_term(alloc)?),
        _ => unreachable!(),
    }
}

/// The shadow logic of a cell that selects: a term for its output.
#[derive(Drop)]
pub struct SelectShadow<'a> {
    cell: &'a Cell,
}

impl<'a> Model for SelectShadow<'a> {
    ghost use Rattle.std.specs.Prelude.{◌≡◌, true};
    ghost use Rattle.cif_defs.specs.Cells.{Cell as CellData};
    ghost use Rattle.cif_defs.specs.Fitted.{IsFitted};
    ghost use Rattle.rule_select.specs.Selects.{is_select};

    ghost Value = { CellData };

    ghost view = { λ s. s.cell.now };

    ghost invariant = { λ s. (is_select s.cell.now.kind ≡ true) × IsFitted s.cell.now };
}

impl<'a> SelectShadow<'a> {
    /// The shadow of a cell.
    pub fn of(cell: &'a Cell) -> SelectShadow<'a>
        requires covered { is_select cell.now.kind ≡ true }
        requires fitted { IsFitted cell.now }
        ensures { result ≡ cell.now }
    {
        SelectShadow { cell }
    }
}

impl<'a> Shadow for SelectShadow<'a> {
    ghost widths = { operand_widths };

    ghost count = { λ c. length (outputs_of c.kind) };

    ghost formula = { λ c _. select_formula c };

    ghost meant = { taint_word };

    fn outputs(&self) -> u32 {
        let _cell = &self.cell;
        1
    }

    fn term(&self, alloc: Global, output: u32) -> Result<Term, NoMemory> {
        let cell = self.cell;
        Ok(select_term(alloc, cell)?)
    }
}
