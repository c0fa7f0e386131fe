// Cells read into forms.
ghost use Rattle.std.specs.Prelude.{◌≡◌, ◌≤◌, true};
ghost use Rattle.cif_defs.specs.Cells.{a_signed, both_signed, number_of, width, y_width};
ghost use Rattle.cif_defs.specs.Fitted.{IsFitted};
ghost use Rattle.rule_logic.specs.LogicFormulas.{covers_logic, is_binary, is_unary};
ghost use Rattle.word_numbers.specs.NarrowCells.{IsNarrow};
ghost use Rattle.word_logic.specs.FormOf.{binary_form, concat_form, fa_form, logic_form, slice_form, unary_form};

use crate::extension::Extension;
use crate::form::LogicForm;
use cif_kinds::{Cell, Kind, Param};

/// A width of a cell, which has at most 65,536 bits.
fn width_of(cell: &Cell, param: Param) -> u32
    requires { number_of cell.now param ≤ 65536 }
    ensures { result ≡ number_of cell.now param }
{
    cell.number(param) as u32
}

/// The form of a cell with operand A.
fn read_unary(cell: &Cell) -> LogicForm
    requires unary { is_unary cell.now.kind ≡ true }
    requires fitted { IsFitted cell.now }
    ensures { result ≡ unary_form cell.now }
{
    let from = width_of(cell, Param::AWidth);
    let to = width_of(cell, Param::YWidth);
    let signed = cell.number(Param::ASigned) == 1;
    LogicForm::Unary(cell.kind(), Extension { from, to, signed })
}

/// The form of a cell with operands A and B.
fn read_binary(cell: &Cell) -> LogicForm
    requires binary { is_binary cell.now.kind ≡ true }
    requires fitted { IsFitted cell.now }
    ensures { result ≡ binary_form cell.now }
{
    let from = width_of(cell, Param::AWidth);
    let b_width = width_of(cell, Param::BWidth);
    let to = width_of(cell, Param::YWidth);
    let signed = (cell.number(Param::ASigned) == 1) & (cell.number(Param::BSigned) == 1);
    LogicForm::Binary(cell.kind(), Extension { from, to, signed }, b_width)
}

/// The form of `$concat`.
fn read_concat(cell: &Cell) -> LogicForm
    requires kind { cell.now.kind ≡ Kind.Concat }
    requires fitted { IsFitted cell.now }
    ensures { result ≡ concat_form cell.now }
{
    let a_width = width_of(cell, Param::AWidth);
    LogicForm::Joined(a_width, width_of(cell, Param::BWidth))
}

/// The form of `$slice`.
fn read_slice(cell: &Cell) -> LogicForm
    requires kind { cell.now.kind ≡ Kind.Slice }
    requires fitted { IsFitted cell.now }
    ensures { result ≡ slice_form cell.now }
{
    let a_width = width_of(cell, Param::AWidth);
    let offset = width_of(cell, Param::Offset);
    LogicForm::Sliced(a_width, offset, width_of(cell, Param::YWidth))
}

/// The form of `$fa`.
fn read_adder(cell: &Cell) -> LogicForm
    requires kind { cell.now.kind ≡ Kind.Fa }
    requires fitted { IsFitted cell.now }
    ensures { result ≡ fa_form cell.now }
{
    LogicForm::Adder(width_of(cell, Param::Width))
}

/// The form of a cell of a bitwise, reducing or wiring kind.
#[tactic(auto, unfolding(crate::specs::FormOf::logic_form))]
pub fn form_of(cell: &Cell) -> LogicForm
    requires covered { covers_logic cell.now.kind ≡ true }
    requires fitted { IsFitted cell.now }
    ensures { result ≡ logic_form cell.now.kind cell.now }
{
    match cell.kind() {
        Kind::Concat => read_concat(cell),
        Kind::Slice => read_slice(cell),
        Kind::Fa => read_adder(cell),
        Kind::And | Kind::Or | Kind::Xor | Kind::Xnor | Kind::LogicAnd | Kind::LogicOr => {
            read_binary(cell)
        }
        _ => read_unary(cell),
    }
}
