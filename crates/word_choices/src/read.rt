// Forms read from cells.
ghost use Rattle.std.specs.Prelude.{◌≡◌, ◌≤◌, ◌^◌, ◌<◌, true, MatchOption};
ghost use Rattle.cif_defs.specs.Cells.{a_signed, digits_of, number_of, width};
ghost use Rattle.cif_defs.specs.Fitted.{IsFitted};
ghost use Rattle.cif_defs.specs.Words.{bit, word, word_of};
ghost use Rattle.word_numbers.specs.NarrowCells.{IsNarrow};
ghost use Rattle.word_choices.specs.ReadForms.{AreBlocksOf, HasForm, IsShiftOf, IsTableOf, has_blocks, is_shift};
ghost use Rattle.word_choices.specs.SelectForms.{StandsFor};

use crate::choice_taints::power;
use crate::form::SelectForm;
use crate::shapes::{Blocks, Chain, Shift, Table};
use cif_kinds::{Cell, Kind, Param};
use word_numbers::narrow_number;

/// The width of a cell `$mux`.
fn mux_width(cell: &Cell) -> u32
    requires kind { cell.now.kind ≡ Kind.Mux }
    requires fitted { IsFitted cell.now }
    requires narrow { IsNarrow cell.now }
    ensures { result ≡ width cell.now }
{
    narrow_number(cell, Param::Width)
}

/// The blocks of a cell `$pmux`.
fn chain_of(cell: &Cell) -> Chain
    requires kind { cell.now.kind ≡ Kind.Pmux }
    requires fitted { IsFitted cell.now }
    requires narrow { IsNarrow cell.now }
    ensures width { result.width ≡ width cell.now }
    ensures selects { result.selects ≡ number_of cell.now Param.SWidth }
{
    let width = narrow_number(cell, Param::Width);
    let selects = narrow_number(cell, Param::SWidth);
    Chain { width, selects }
}

/// The blocks of a cell `$bmux` or `$demux`.
fn blocks_of(cell: &Cell) -> Blocks
    requires kind { has_blocks cell.now.kind ≡ true }
    requires fitted { IsFitted cell.now }
    requires narrow { IsNarrow cell.now }
    ensures { AreBlocksOf result cell.now }
{
    let width = narrow_number(cell, Param::Width);
    let selects = narrow_number(cell, Param::SWidth);
    Blocks { width, selects }
}

/// Whether A of a cell is signed.
fn is_signed(cell: &Cell) -> bool
    ensures { result ≡ a_signed cell.now }
{
    cell.number(Param::ASigned) == 1
}

/// The widths of a shift and the sign of its B; its A is signed or not.
fn shift_of(cell: &Cell, a_signed: bool) -> Shift
    requires kind { is_shift cell.now.kind ≡ true }
    requires fitted { IsFitted cell.now }
    requires narrow { IsNarrow cell.now }
    ensures { IsShiftOf result a_signed cell.now }
{
    let a = narrow_number(cell, Param::AWidth);
    let b = narrow_number(cell, Param::BWidth);
    let y = narrow_number(cell, Param::YWidth);
    let b_signed = cell.number(Param::BSigned) == 1;
    Shift {
        a,
        b,
        y,
        a_signed,
        b_signed,
    }
}

/// The first digits of a cell's table.
fn digits_below(cell: &Cell, count: u32) -> u128
    requires { count ≤ 128 }
    ensures word { word_of count result ≡ word count (bit (digits_of cell.now Param.Lut)) }
    ensures fits { result < 2 ^ count }
{
    let mut digits = 0u128;
    for place in 0..count {
        if cell.digit(Param::Lut, place) {
            digits += 1 << place;
        }
    }
    digits
}

/// The table of a cell with so many address bits.
fn table_of(cell: &Cell, address: u32) -> Table
    requires address { address ≡ width cell.now }
    requires few { address ≤ 7 }
    ensures { IsTableOf result cell.now }
{
    let digits = digits_below(cell, power(address));
    Table { address, digits }
}

/// The form of a cell `$lut`; None where its table has more than 128 digits.
fn lut_form(cell: &Cell) -> Option<SelectForm>
    requires kind { cell.now.kind ≡ Kind.Lut }
    requires fitted { IsFitted cell.now }
    requires narrow { IsNarrow cell.now }
    ensures { MatchOption result (HasForm cell.now → ⊥) (λ f. StandsFor f cell.now) }
{
    let address = cell.number(Param::Width);
    if address <= 7 {
        Some(SelectForm::Lut(table_of(cell, address as u32)))
    } else {
        None
    }
}

impl SelectForm {
    /// The form of a cell that selects or shifts, whose ports have at most 128 bits; None for a cell of another kind, and
    /// for a table of more than 128 digits. All parameters are sought here, and none in a cycle.
    pub fn of(cell: &Cell) -> Option<SelectForm>
        requires fitted { IsFitted cell.now }
        requires narrow { IsNarrow cell.now }
        ensures { MatchOption result (HasForm cell.now → ⊥) (λ f. StandsFor f cell.now) }
    {
        match cell.kind() {
            Kind::Mux => Some(SelectForm::Mux(mux_width(cell))),
            Kind::Pmux => Some(SelectForm::Pmux(chain_of(cell))),
            Kind::Bmux => Some(SelectForm::Bmux(blocks_of(cell))),
            Kind::Demux => Some(SelectForm::Demux(blocks_of(cell))),
            Kind::Lut => lut_form(cell),
            Kind::Shl | Kind::Sshl => Some(SelectForm::Left(shift_of(cell, is_signed(cell)))),
            Kind::Shr => Some(SelectForm::Right(shift_of(cell, is_signed(cell)))),
            Kind::Sshr => Some(SelectForm::Signed(shift_of(cell, is_signed(cell)))),
            Kind::Shift => Some(SelectForm::Offset(shift_of(cell, is_signed(cell)))),
            Kind::Shiftx => Some(SelectForm::Indexed(shift_of(cell, false))),
            _ => None,
        }
    }
}
