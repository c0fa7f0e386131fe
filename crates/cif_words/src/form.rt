// Forms of cells, over all families of kinds.
ghost use Rattle.std.specs.Prelude.{◌≡◌, true, MatchOption};
ghost use Rattle.cif_defs.specs.Cells.{meaning};
ghost use Rattle.cif_defs.specs.Fitted.{IsFitted, operand_widths};
ghost use Rattle.cif_defs.specs.Kinds.{role_of};
ghost use Rattle.cif_term.specs.CellTaints.{taint_words};
ghost use Rattle.rule_select.specs.Selects.{is_select};
ghost use Rattle.word_numbers.specs.HeldWords.{AreNarrow, words_held};
ghost use Rattle.word_numbers.specs.NarrowCells.{IsNarrow, output_widths};
ghost use Rattle.cif_words.specs.Forms.{HasForm, StandsFor};

use crate::narrow_ports::narrow;
use cif_kinds::{Cell, Kind, Role};
use word_choices::{SelectForm, taint as choice_taint, value as choice_value};
use word_logic::LogicForm;
use word_numbers::Words;
use word_sums::{AluForm, SumForm};

/// What a narrow combinational cell says beside the words of its operands.
#[derive(Clone, Copy, Drop)]
pub enum WordForm {
    /// A bitwise, reducing or wiring cell.
    Logic(LogicForm),
    /// A sum, a product, a division, a comparison or an equality.
    Number(SumForm),
    /// `$alu`.
    Adder(AluForm),
    /// A choice, a table or a shift.
    Choice(SelectForm),
}

/// The form of a narrow cell that chooses or shifts; None where its table has more than 128 digits.
fn choice_form(cell: &Cell) -> Option<WordForm>
    requires fitted { IsFitted cell.now }
    requires narrow { (role_of cell.now.kind ≡ Role.Combinational) × IsNarrow cell.now }
    requires kind { is_select cell.now.kind ≡ true }
    ensures { MatchOption result (HasForm cell.now → ⊥) (λ f. HasForm cell.now × StandsFor f cell.now) }
{
    match SelectForm::of(cell) {
        Some(form) => Some(WordForm::Choice(form)),
        None => None,
    }
}

impl WordForm {
    /// The form of a combinational cell whose ports have at most 128 bits, and whose table at most 128 digits; None for
    /// every other cell.
    pub fn of(cell: &Cell) -> Option<WordForm>
        requires { IsFitted cell.now }
        ensures { MatchOption result (HasForm cell.now → ⊥) (λ f. HasForm cell.now × StandsFor f cell.now) }
    {
        if !narrow(cell) {
            return None;
        }
        let kind = cell.kind();
        if rule_logic::covers(kind) {
            return Some(WordForm::Logic(LogicForm::of(cell)));
        }
        if word_sums::covers(kind) {
            return Some(WordForm::Number(SumForm::of(cell)));
        }
        match kind {
            Kind::Alu => Some(WordForm::Adder(AluForm::of(cell))),
            _ => choice_form(cell),
        }
    }

    /// The words that a cell of this form gives, from the words of its operands.
    pub fn value_words(&self, cell: &Cell, values: &Words) -> Words
        requires stands { StandsFor self.now cell.now }
        requires values { AreNarrow (operand_widths cell.now) values.now }
        ensures words { words_held (output_widths cell.now) result
            ≡ meaning cell.now (words_held (operand_widths cell.now) values.now) }
        ensures narrow { AreNarrow (output_widths cell.now) result }
    {
        let _cell = cell;
        match self {
            WordForm::Logic(form) => form.value(values),
            WordForm::Number(form) => form.value(values),
            WordForm::Adder(form) => form.value(values),
            WordForm::Choice(form) => choice_value(*form, *values),
        }
    }

    /// The taints of the words that a cell of this form gives, from the words of its operands and their taints: the exact
    /// taint of each bit, or the coarse one where the kind has that.
    pub fn taint_words(&self, cell: &Cell, values: &Words, taints: &Words) -> Words
        requires stands { StandsFor self.now cell.now }
        requires values { AreNarrow (operand_widths cell.now) values.now }
        requires taints { AreNarrow (operand_widths cell.now) taints.now }
        ensures words { words_held (output_widths cell.now) result ≡ taint_words cell.now
            (words_held (operand_widths cell.now) values.now) (words_held (operand_widths cell.now) taints.now) }
        ensures narrow { AreNarrow (output_widths cell.now) result }
    {
        let _cell = cell;
        match self {
            WordForm::Logic(form) => form.taint(values, taints),
            WordForm::Number(form) => form.taint(values, taints),
            WordForm::Adder(form) => form.taint(values, taints),
            WordForm::Choice(form) => choice_taint(*form, *values, *taints),
        }
    }
}
