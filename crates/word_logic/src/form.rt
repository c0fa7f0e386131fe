// Forms of cells.
ghost use Rattle.std.specs.Prelude.{◌≡◌, true};
ghost use Rattle.cif_defs.specs.Cells.{Cell as CellData, meaning};
ghost use Rattle.cif_defs.specs.Fitted.{IsFitted, operand_widths};
ghost use Rattle.cif_term.specs.CellTaints.{taint_words};
ghost use Rattle.rule_logic.specs.LogicFormulas.{covers_logic};
ghost use Rattle.word_numbers.specs.HeldWords.{AreNarrow, words_held};
ghost use Rattle.word_numbers.specs.NarrowCells.{IsNarrow, output_widths};
ghost use Rattle.word_logic.specs.LogicForms.{IsSound, StandsFor, form_operands, form_outputs, form_taints, form_words};

use crate::adder::{carry_taint, carry_value, sum_taint, sum_value};
use crate::binary::{binary_taint, binary_value};
use crate::extension::Extension;
use crate::read::form_of;
use crate::unary::{unary_taint, unary_value};
use cif_kinds::{Cell, Kind};
use word_numbers::{Words, join, slice};

/// What a bitwise, reducing or wiring cell says beside the words of its operands: its kind, widths in bits, and signs.
#[derive(Clone, Copy, Debug, PartialEq, Eq, Drop)]
pub enum LogicForm {
    /// A kind with operand A, and how A is shown.
    Unary(Kind, Extension),
    /// A kind with operands A and B, how A is shown, and the width of B, which is shown alike.
    Binary(Kind, Extension, u32),
    /// `$concat`: the widths of A and B.
    Joined(u32, u32),
    /// `$slice`: the width of A, the lowest place that is shown, and the width of Y.
    Sliced(u32, u32, u32),
    /// `$fa`: the width of each port.
    Adder(u32),
}

impl LogicForm {
    /// The form of a cell of a kind that `rule_logic` covers, whose ports have at most 128 bits. All parameters are
    /// sought here, and none in a cycle.
    pub fn of(cell: &Cell) -> LogicForm
        requires covered { covers_logic cell.now.kind ≡ true }
        requires fitted { IsFitted cell.now }
        requires narrow { IsNarrow cell.now }
        ensures { StandsFor result cell.now }
    {
        form_of(cell)
    }

    /// The words that the form gives.
    fn words(&self, values: &Words) -> Words
        requires sound { IsSound self.now }
        requires values { AreNarrow (form_operands self.now) values.now }
        ensures words { words_held (form_outputs self.now) result
            ≡ form_words self.now (words_held (form_operands self.now) values.now) }
        ensures narrow { AreNarrow (form_outputs self.now) result }
    {
        match *self {
            LogicForm::Unary(kind, shown) => Words::one(unary_value(kind, &shown, values.a)),
            LogicForm::Binary(kind, shown, b_width) => {
                Words::one(binary_value(kind, &shown, b_width, values))
            }
            LogicForm::Joined(a_width, _) => Words::one(join(a_width, values.a, values.b)),
            LogicForm::Sliced(_, offset, width) => Words::one(slice(width, offset, values.a)),
            LogicForm::Adder(_) => Words::two(carry_value(values), sum_value(values)),
        }
    }

    /// The taints of the words that the form gives.
    fn taints(&self, values: &Words, taints: &Words) -> Words
        requires sound { IsSound self.now }
        requires values { AreNarrow (form_operands self.now) values.now }
        requires taints { AreNarrow (form_operands self.now) taints.now }
        ensures words { words_held (form_outputs self.now) result
            ≡ form_taints self.now (words_held (form_operands self.now) values.now)
            (words_held (form_operands self.now) taints.now) }
        ensures narrow { AreNarrow (form_outputs self.now) result }
    {
        match *self {
            LogicForm::Unary(kind, shown) => {
                Words::one(unary_taint(kind, &shown, values.a, taints.a))
            }
            LogicForm::Binary(kind, shown, b_width) => {
                Words::one(binary_taint(kind, &shown, b_width, values, taints))
            }
            LogicForm::Joined(a_width, _) => Words::one(join(a_width, taints.a, taints.b)),
            LogicForm::Sliced(_, offset, width) => Words::one(slice(width, offset, taints.a)),
            LogicForm::Adder(width) => {
                Words::two(carry_taint(width, values, taints), sum_taint(taints))
            }
        }
    }

    /// The words of the outputs of a cell of this form, from the words of its operands, as the Yosys cell library has
    /// its kind without x.
    ///
    /// Each number is below 2 to the width of its port, and 0 where there is no port; so is each in the answer.
    pub fn value(&self, values: &Words) -> Words
        requires sound { IsSound self.now }
        requires values { AreNarrow (form_operands self.now) values.now }
        ensures words { (c : CellData) → StandsFor self.now c
            → words_held (output_widths c) result ≡ meaning c (words_held (operand_widths c) values.now) }
        ensures narrow { AreNarrow (form_outputs self.now) result }
    {
        self.words(values)
    }

    /// The exact taints of the words of the outputs of a cell of this form, from the words of its operands and their
    /// taints: a bit is tainted where two fillings of the tainted operand bits show it differently, as GLIFT has it.
    ///
    /// Each number is below 2 to the width of its port, and 0 where there is no port; so is each in the answer.
    pub fn taint(&self, values: &Words, taints: &Words) -> Words
        requires sound { IsSound self.now }
        requires values { AreNarrow (form_operands self.now) values.now }
        requires taints { AreNarrow (form_operands self.now) taints.now }
        ensures words { (c : CellData) → StandsFor self.now c
            → words_held (output_widths c) result
            ≡ taint_words c (words_held (operand_widths c) values.now) (words_held (operand_widths c) taints.now) }
        ensures narrow { AreNarrow (form_outputs self.now) result }
    {
        self.taints(values, taints)
    }
}
