// Forms of cells that select and shift.
ghost use Rattle.std.specs.Prelude.{◌≡◌, ◌^◌, ◌<◌, ◌↔◌, [], ◌∷◌, IsTrue};
ghost use Rattle.cif_defs.specs.Cells.{Cell, meaning};
ghost use Rattle.cif_defs.specs.Fitted.{operand_widths};
ghost use Rattle.cif_term.specs.CellTaints.{taint_words};
ghost use Rattle.word_numbers.specs.NarrowCells.{output_widths};
ghost use Rattle.cif_defs.specs.Words.{word_of};
ghost use Rattle.word_numbers.specs.HeldWords.{AreNarrow, words_held};
ghost use Rattle.word_choices.specs.Shadows.{AreUntainted, exact_word};
ghost use Rattle.word_choices.specs.SelectForms.{IsSound, StandsFor, form_operands, form_output, form_word};

use crate::choice_taints::{bmux_taint, demux_taint, mux_taint, pmux_taint};
use crate::choices::{bmux_value, demux_value, mux_value, pmux_value};
use crate::shadowed::Shadowed;
use crate::shapes::{Blocks, Chain, Shift, Table};
use crate::shift_taints::{indexed_taint, left_taint, offset_taint, right_taint, signed_taint};
use crate::shifts::{indexed_value, left_value, offset_value, right_value, signed_value};
use crate::tables::{lut_taint, lut_value};
use word_numbers::Words;

/// What a cell that selects or shifts says beside the words of its operands.
#[derive(Clone, Copy, Drop)]
pub enum SelectForm {
    /// `$mux`: the width of A, B and Y.
    Mux(u32),
    /// `$pmux`.
    Pmux(Chain),
    /// `$bmux`.
    Bmux(Blocks),
    /// `$demux`.
    Demux(Blocks),
    /// `$lut`.
    Lut(Table),
    /// `$shl` and `$sshl`.
    Left(Shift),
    /// `$shr`.
    Right(Shift),
    /// `$sshr`.
    Signed(Shift),
    /// `$shift`.
    Offset(Shift),
    /// `$shiftx`, whose A has no sign.
    Indexed(Shift),
}

/// The word that a form gives.
fn output_value(form: SelectForm, values: Words) -> u128
    requires sound { IsSound form }
    requires values { AreNarrow (form_operands form) values }
    ensures word { word_of (form_output form) result ≡ form_word form (words_held (form_operands form) values) }
    ensures fits { result < 2 ^ form_output form }
{
    match form {
        SelectForm::Mux(width) => mux_value(width, values),
        SelectForm::Pmux(chain) => pmux_value(chain, values),
        SelectForm::Bmux(blocks) => bmux_value(blocks, values),
        SelectForm::Demux(blocks) => demux_value(blocks, values),
        SelectForm::Lut(table) => lut_value(table, values),
        SelectForm::Left(shift) => left_value(shift, values),
        SelectForm::Right(shift) => right_value(shift, values),
        SelectForm::Signed(shift) => signed_value(shift, values),
        SelectForm::Offset(shift) => offset_value(shift, values),
        SelectForm::Indexed(shift) => indexed_value(shift, values),
    }
}

/// The exact taint of the word that a form gives, found from the select bits one by one.
fn staged_taint(form: SelectForm, values: Words, taints: Words) -> u128
    requires sound { IsSound form }
    requires values { AreNarrow (form_operands form) values }
    requires taints { AreNarrow (form_operands form) taints }
    ensures word { word_of (form_output form) result
        ≡ exact_word (form_output form) (form_word form) (words_held (form_operands form) values)
        (words_held (form_operands form) taints) }
    ensures fits { result < 2 ^ form_output form }
{
    let a = Shadowed {
        value: values.a,
        taint: taints.a,
    };
    let b = Shadowed {
        value: values.b,
        taint: taints.b,
    };
    let c = Shadowed {
        value: values.c,
        taint: taints.c,
    };
    match form {
        SelectForm::Mux(width) => mux_taint(width, a, b, c),
        SelectForm::Pmux(chain) => pmux_taint(chain, a, b, c),
        SelectForm::Bmux(blocks) => bmux_taint(blocks, a, b),
        SelectForm::Demux(blocks) => demux_taint(blocks, a, b),
        SelectForm::Lut(table) => lut_taint(table, a),
        SelectForm::Left(shift) => left_taint(shift, a, b),
        SelectForm::Right(shift) => right_taint(shift, a, b),
        SelectForm::Signed(shift) => signed_taint(shift, a, b),
        SelectForm::Offset(shift) => offset_taint(shift, a, b),
        SelectForm::Indexed(shift) => indexed_taint(shift, a, b),
    }
}

/// Whether no bit of the operands is tainted.
fn are_untainted(taints: Words) -> bool
    ensures { IsTrue result ↔ AreUntainted taints }
{
    taints.a == 0 && taints.b == 0 && taints.c == 0 && taints.d == 0
}

/// The exact taint of the word that a form gives: 0 at once where no operand is tainted, as most are.
fn output_taint(form: SelectForm, values: Words, taints: Words) -> u128
    requires sound { IsSound form }
    requires values { AreNarrow (form_operands form) values }
    requires taints { AreNarrow (form_operands form) taints }
    ensures word { word_of (form_output form) result
        ≡ exact_word (form_output form) (form_word form) (words_held (form_operands form) values)
        (words_held (form_operands form) taints) }
    ensures fits { result < 2 ^ form_output form }
{
    if are_untainted(taints) {
        0
    } else {
        staged_taint(form, values, taints)
    }
}

/// The word of the output of a cell of this form, from the words of its operands, as the Yosys cell library has its kind
/// without x.
///
/// Each number is below 2 to the width of its port, and 0 where there is no port; so is each in the answer.
pub fn value(form: SelectForm, values: Words) -> Words
    requires sound { IsSound form }
    requires values { AreNarrow (form_operands form) values }
    ensures words { (c : Cell) → StandsFor form c
        → words_held (output_widths c) result ≡ meaning c (words_held (operand_widths c) values) }
    ensures narrow { AreNarrow (form_output form ∷ []) result }
{
    Words::one(output_value(form, values))
}

/// The exact taint of the word of the output of a cell of this form, from the words of its operands and their taints: a
/// bit is tainted where two fillings of the tainted operand bits show it differently, as GLIFT has it.
///
/// Each number is below 2 to the width of its port, and 0 where there is no port; so is each in the answer.
pub fn taint(form: SelectForm, values: Words, taints: Words) -> Words
    requires sound { IsSound form }
    requires values { AreNarrow (form_operands form) values }
    requires taints { AreNarrow (form_operands form) taints }
    ensures words { (c : Cell) → StandsFor form c
        → words_held (output_widths c) result
        ≡ taint_words c (words_held (operand_widths c) values) (words_held (operand_widths c) taints) }
    ensures narrow { AreNarrow (form_output form ∷ []) result }
{
    Words::one(output_taint(form, values, taints))
}
