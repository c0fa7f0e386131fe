// What a combinational cell gives that works on no numbers, by its kind: the parameters and operands that it takes.
//
// The operands have the widths that the cell says. Each function may answer want of memory, and changes nothing then.
ghost use Rattle.std.specs.Prelude.{◌≡◌, ◌==◌, ◌≤◌, [], ◌∷◌, true, IfOk};
ghost use Rattle.cif_defs.specs.Cells.{number_of, both_signed, meaning};
ghost use Rattle.cif_meanings.specs.CellPorts.{is_unary, is_binary, is_shift, HasUnaryPorts, HasBinaryPorts, HasShiftPorts, HasConcatPorts, HasSlicePorts, HasFaPorts, HasMuxPorts, HasPmuxPorts, HasBmuxPorts, HasDemuxPorts, HasLutPorts};

use crate::meanings::numbers::operand;
use crate::meanings::{bitwise, choices, flags, joins, shifts};
use cif_bits::{Bits, NoMemory};
use cif_defs::{Kind, Param};
use cif_kinds::Cell;
use std::alloc::Global;

// ---- reading a cell

/// The number of a parameter that is at most 65,536.
fn small_number(cell: &Cell, param: Param) -> u32
    requires { number_of cell.now param ≤ 65536 }
    ensures { result ≡ number_of cell.now param }
{
    cell.number(param) as u32
}

/// Whether a parameter says that an operand is signed.
fn is_signed(cell: &Cell, param: Param) -> bool
    ensures { result ≡ (number_of cell.now param == 1) }
{
    cell.number(param) == 1
}

/// Whether both operands are signed.
fn are_signed(cell: &Cell) -> bool
    ensures { result ≡ both_signed cell.now }
{
    is_signed(cell, Param::ASigned) & is_signed(cell, Param::BSigned)
}

// ---- kinds of Y_WIDTH

/// The word of a cell of one operand.
pub fn unary_word(alloc: Global, cell: &Cell, operands: &[Bits]) -> Result<Bits, NoMemory>
    requires kind { is_unary cell.now.kind ≡ true }
    requires ports { HasUnaryPorts cell.now operands.now }
    ensures { IfOk result (λ w. w ∷ [] ≡ meaning cell.now operands.now) }
{
    let width = small_number(cell, Param::YWidth);
    let signed = is_signed(cell, Param::ASigned);
    let a = operand(operands, 0);
    match cell.kind() {
        Kind::Not => bitwise::not_word(alloc, width, signed, a),
        Kind::Pos => bitwise::pos_word(alloc, width, signed, a),
        Kind::ReduceAnd => flags::reduce_and_word(alloc, width, a),
        Kind::ReduceXor => flags::reduce_xor_word(alloc, width, a),
        Kind::ReduceXnor => flags::reduce_xnor_word(alloc, width, a),
        Kind::LogicNot => flags::logic_not_word(alloc, width, a),
        _ => flags::reduce_or_word(alloc, width, a),
    }
}

/// The word of a cell of two operands that work bit by bit or as truth values.
pub fn binary_word(alloc: Global, cell: &Cell, operands: &[Bits]) -> Result<Bits, NoMemory>
    requires kind { is_binary cell.now.kind ≡ true }
    requires ports { HasBinaryPorts cell.now operands.now }
    ensures { IfOk result (λ w. w ∷ [] ≡ meaning cell.now operands.now) }
{
    let width = small_number(cell, Param::YWidth);
    let signed = are_signed(cell);
    let a = operand(operands, 0);
    let b = operand(operands, 1);
    match cell.kind() {
        Kind::And => bitwise::and_word(alloc, width, signed, a, b),
        Kind::Or => bitwise::or_word(alloc, width, signed, a, b),
        Kind::Xor => bitwise::xor_word(alloc, width, signed, a, b),
        Kind::Xnor => bitwise::xnor_word(alloc, width, signed, a, b),
        Kind::LogicAnd => flags::logic_and_word(alloc, width, a, b),
        _ => flags::logic_or_word(alloc, width, a, b),
    }
}

/// The word of a shift.
pub fn shift_word(alloc: Global, cell: &Cell, operands: &[Bits]) -> Result<Bits, NoMemory>
    requires kind { is_shift cell.now.kind ≡ true }
    requires ports { HasShiftPorts cell.now operands.now }
    ensures { IfOk result (λ w. w ∷ [] ≡ meaning cell.now operands.now) }
{
    let width = small_number(cell, Param::YWidth);
    let a_signed = is_signed(cell, Param::ASigned);
    let b_signed = is_signed(cell, Param::BSigned);
    let a = operand(operands, 0);
    let b = operand(operands, 1);
    match cell.kind() {
        Kind::Shl | Kind::Sshl => shifts::shl_word(alloc, width, a_signed, a, b),
        Kind::Shr => shifts::shr_word(alloc, width, a_signed, a, b),
        Kind::Sshr => shifts::sshr_word(alloc, width, a_signed, a, b),
        Kind::Shift => shifts::shift_word(alloc, width, a_signed, b_signed, a, b),
        _ => shifts::shiftx_word(alloc, width, b_signed, a, b),
    }
}

/// The word of `$slice`.
pub fn slice_word(alloc: Global, cell: &Cell, operands: &[Bits]) -> Result<Bits, NoMemory>
    requires kind { cell.now.kind ≡ Kind.Slice }
    requires ports { HasSlicePorts cell.now operands.now }
    ensures { IfOk result (λ w. w ∷ [] ≡ meaning cell.now operands.now) }
{
    let width = small_number(cell, Param::YWidth);
    let offset = small_number(cell, Param::Offset);
    joins::slice_word(alloc, width, offset, operand(operands, 0))
}

// ---- kinds of other parameters

/// The word of `$concat`.
pub fn concat_word(alloc: Global, cell: &Cell, operands: &[Bits]) -> Result<Bits, NoMemory>
    requires kind { cell.now.kind ≡ Kind.Concat }
    requires ports { HasConcatPorts cell.now operands.now }
    ensures { IfOk result (λ w. w ∷ [] ≡ meaning cell.now operands.now) }
{
    let a_width = small_number(cell, Param::AWidth);
    let b_width = small_number(cell, Param::BWidth);
    let a = operand(operands, 0);
    let b = operand(operands, 1);
    joins::concat_word(alloc, a_width, b_width, a, b)
}

/// The word of `$mux`.
pub fn mux_word(alloc: Global, cell: &Cell, operands: &[Bits]) -> Result<Bits, NoMemory>
    requires kind { cell.now.kind ≡ Kind.Mux }
    requires ports { HasMuxPorts cell.now operands.now }
    ensures { IfOk result (λ w. w ∷ [] ≡ meaning cell.now operands.now) }
{
    let width = small_number(cell, Param::Width);
    let a = operand(operands, 0);
    let b = operand(operands, 1);
    let s = operand(operands, 2);
    joins::mux_word(alloc, width, a, b, s)
}

/// The word of `$pmux`.
pub fn pmux_word(alloc: Global, cell: &Cell, operands: &[Bits]) -> Result<Bits, NoMemory>
    requires kind { cell.now.kind ≡ Kind.Pmux }
    requires ports { HasPmuxPorts cell.now operands.now }
    ensures { IfOk result (λ w. w ∷ [] ≡ meaning cell.now operands.now) }
{
    let width = small_number(cell, Param::Width);
    let a = operand(operands, 0);
    let b = operand(operands, 1);
    let s = operand(operands, 2);
    choices::pmux_word(alloc, width, a, b, s)
}

/// The word of `$bmux`.
pub fn bmux_word(alloc: Global, cell: &Cell, operands: &[Bits]) -> Result<Bits, NoMemory>
    requires kind { cell.now.kind ≡ Kind.Bmux }
    requires ports { HasBmuxPorts cell.now operands.now }
    ensures { IfOk result (λ w. w ∷ [] ≡ meaning cell.now operands.now) }
{
    let width = small_number(cell, Param::Width);
    let a = operand(operands, 0);
    let s = operand(operands, 1);
    choices::bmux_word(alloc, width, a, s)
}

/// The word of `$demux`.
pub fn demux_word(alloc: Global, cell: &Cell, operands: &[Bits]) -> Result<Bits, NoMemory>
    requires kind { cell.now.kind ≡ Kind.Demux }
    requires ports { HasDemuxPorts cell.now operands.now }
    ensures { IfOk result (λ w. w ∷ [] ≡ meaning cell.now operands.now) }
{
    let width = small_number(cell, Param::Width);
    let s_width = small_number(cell, Param::SWidth);
    let a = operand(operands, 0);
    let s = operand(operands, 1);
    choices::demux_word(alloc, width, s_width, a, s)
}

/// The word of `$lut`: the digit of LUT whose place is the number of A.
pub fn lut_word(alloc: Global, cell: &Cell, operands: &[Bits]) -> Result<Bits, NoMemory>
    requires kind { cell.now.kind ≡ Kind.Lut }
    requires ports { HasLutPorts cell.now operands.now }
    ensures { IfOk result (λ w. w ∷ [] ≡ meaning cell.now operands.now) }
{
    let a = operand(operands, 0);
    let place = a.to_u128() as u32;
    flags::answer_word(alloc, 1, cell.digit(Param::Lut, place))
}

/// Both words of `$fa`.
pub fn fa_words(alloc: Global, cell: &Cell, operands: &[Bits]) -> Result<Vec<Bits>, NoMemory>
    requires kind { cell.now.kind ≡ Kind.Fa }
    requires ports { HasFaPorts cell.now operands.now }
    ensures { IfOk result (λ ws. ws.items ≡ meaning cell.now operands.now) }
{
    let width = small_number(cell, Param::Width);
    let a = operand(operands, 0);
    let b = operand(operands, 1);
    let c = operand(operands, 2);
    let majority = bitwise::fa_majority_word(alloc, width, a, b, c)?;
    let sum = bitwise::fa_sum_word(alloc, width, a, b, c)?;
    two(alloc, majority, sum)
}

// ---- lists of words

/// A list of one word.
pub fn one(alloc: Global, word: Bits) -> Result<Vec<Bits>, NoMemory>
    ensures { IfOk result (λ ws. ws.items ≡ word ∷ []) }
{
    let mut words = Vec::with_capacity(alloc, 1)?;
    words.push(word)?;
    Ok(words)
}

/// A list of two words.
fn two(alloc: Global, first: Bits, second: Bits) -> Result<Vec<Bits>, NoMemory>
    ensures { IfOk result (λ ws. ws.items ≡ first ∷ second ∷ []) }
{
    let mut words = Vec::with_capacity(alloc, 2)?;
    words.push(first)?;
    words.push(second)?;
    Ok(words)
}
