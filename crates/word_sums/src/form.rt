// A cell made ready: its kind and widths, read once.
ghost use Rattle.std.specs.Prelude.{◌≡◌, ◌≤◌, true, false};
ghost use Rattle.cif_defs.specs.Cells.{number_of};
ghost use Rattle.word_sums.specs.Covered.{covers_numbers, is_neg};

use crate::kinds::{binary_taint, binary_value};
use crate::shape::{Pair, Shape};
use crate::sum_taints::neg_taint;
use crate::values::neg_value;
use cif_kinds::{Cell, Kind, Param};
use word_numbers::{Words, narrow_number};

/// A cell of a kind that is covered here, made ready for values and taints.
#[derive(Clone, Copy, Debug, PartialEq, Eq, Drop)]
pub struct SumForm {
    pub kind: Kind,
    pub shape: Shape,
    pub ghost covered: { covers_numbers kind ≡ true },
}

/// Whether cells of this kind have their form here.
pub fn covers(kind: Kind) -> bool
    ensures { result ≡ covers_numbers kind }
{
    matches!(
        kind,
        Kind::Neg
            | Kind::Add
            | Kind::Sub
            | Kind::Mul
            | Kind::Div
            | Kind::Mod
            | Kind::DivFloor
            | Kind::ModFloor
            | Kind::Eq
            | Kind::Ne
            | Kind::Eqx
            | Kind::Nex
            | Kind::Lt
            | Kind::Le
            | Kind::Ge
            | Kind::Gt
    )
}

/// Whether a kind is `$neg`, which has one operand.
fn is_neg(kind: Kind) -> bool
    ensures { result ≡ is_neg kind }
{
    matches!(kind, Kind::Neg)
}

impl SumForm {
    ghost use Rattle.cif_defs.specs.Cells.{Cell as CellData, meaning};
    ghost use Rattle.cif_defs.specs.Fitted.{IsFitted, operand_widths};
    ghost use Rattle.cif_term.specs.CellTaints.{taint_words};
    ghost use Rattle.word_numbers.specs.HeldWords.{AreNarrow, words_held};
    ghost use Rattle.word_sums.specs.CellForms.{IsFormOf, signed_cell};
    ghost use Rattle.word_numbers.specs.NarrowCells.{IsNarrow, output_widths};
    ghost use Rattle.word_sums.specs.HeldForms.{IsHeldBy};

    /// The width of B, or 1 where a cell has no B.
    fn second_width(cell: &Cell) -> u32
        requires covered { covers_numbers cell.now.kind ≡ true }
        requires fitted { IsFitted cell.now }
        requires narrow { IsNarrow cell.now }
        ensures value { is_neg cell.now.kind ≡ false → result ≡ number_of cell.now Param.BWidth }
        ensures some { 1 ≤ result }
        ensures limit { result ≤ 128 }
    {
        if is_neg(cell.kind()) {
            1
        } else {
            narrow_number(cell, Param::BWidth)
        }
    }

    /// Whether a cell's operands are signed.
    fn are_signed(cell: &Cell) -> bool
        ensures { result ≡ signed_cell cell.now }
    {
        let first = cell.number(Param::ASigned) == 1;
        if is_neg(cell.kind()) {
            first
        } else {
            first & (cell.number(Param::BSigned) == 1)
        }
    }

    /// The form of a cell.
    pub fn of(cell: &Cell) -> SumForm
        requires covered { covers_numbers cell.now.kind ≡ true }
        requires fitted { IsFitted cell.now }
        requires narrow { IsNarrow cell.now }
        ensures { IsFormOf result cell.now }
    {
        let a = narrow_number(cell, Param::AWidth);
        let b = SumForm::second_width(cell);
        let y = narrow_number(cell, Param::YWidth);
        let signed = SumForm::are_signed(cell);
        SumForm {
            kind: cell.kind(),
            shape: Shape { a, b, y, signed },
        }
    }

    /// The word of the output, from the words of the operands.
    pub fn value(&self, values: &Words) -> Words
        requires { IsHeldBy self.now values.now }
        ensures words { (c : CellData) → IsFormOf self.now c
            → words_held (output_widths c) result ≡ meaning c (words_held (operand_widths c) values.now) }
        ensures narrow { (c : CellData) → IsFormOf self.now c → AreNarrow (output_widths c) result }
    {
        if is_neg(self.kind) {
            return Words::one(neg_value(self.shape, values.a));
        }
        let pair = Pair {
            a: values.a,
            b: values.b,
        };
        Words::one(binary_value(self.kind, self.shape, pair))
    }

    /// The taint of the output, from the words and taints of the operands.
    pub fn taint(&self, values: &Words, taints: &Words) -> Words
        requires values { IsHeldBy self.now values.now }
        requires taints { IsHeldBy self.now taints.now }
        ensures words { (c : CellData) → IsFormOf self.now c → words_held (output_widths c) result
            ≡ taint_words c (words_held (operand_widths c) values.now) (words_held (operand_widths c) taints.now) }
        ensures narrow { (c : CellData) → IsFormOf self.now c → AreNarrow (output_widths c) result }
    {
        if is_neg(self.kind) {
            return Words::one(neg_taint(self.shape, values.a, taints.a));
        }
        let value_pair = Pair {
            a: values.a,
            b: values.b,
        };
        let taint_pair = Pair {
            a: taints.a,
            b: taints.b,
        };
        Words::one(binary_taint(self.kind, self.shape, value_pair, taint_pair))
    }
}
