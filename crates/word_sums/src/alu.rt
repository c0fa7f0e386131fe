// Sums with carries: $alu.
ghost use Rattle.std.specs.Prelude.{◌≡◌, ◌^◌, ◌<◌, ◌≤◌, not, ◌&&◌, ◌||◌, if◌then◌else◌};
ghost use Rattle.cif_defs.specs.Words.{digit, word, word_of, xor};
ghost use Rattle.word_sums.specs.AluNumbers.{AreAluOperands, IsShort, alu_carry_number, alu_sum_number, carries_number};
ghost use Rattle.word_sums.specs.AluWords.{AreAluWords};

use crate::bounds::Bounds;
use crate::shape::{Pair, Shape, summand};
use crate::sums::{Carry, Summand, Sums, join, single_taint};
use crate::values::extended_pair;
use cif_arith::alu;
use cif_kinds::{Cell, Param};
use word_numbers::{Words, bit, narrow_number, repeated};

/// The least and the greatest of a bit with its taint.
fn bit_bounds(value: u128, taint: u128) -> Carry
    ensures least { result.least ≡ (digit value 0 && not (digit taint 0)) }
    ensures greatest { result.greatest ≡ (digit value 0 || digit taint 0) }
{
    let value = bit(value, 0);
    let taint = bit(taint, 0);
    Carry {
        least: value & !taint,
        greatest: value | taint,
    }
}

/// A summand of `width` bits, complemented where `invert` is set.
fn inverted(width: u32, invert: bool, summand: Summand) -> Summand
    requires some { 1 ≤ width }
    requires limit { width ≤ 128 }
    requires fits { summand.value < 2 ^ width }
    ensures value { word_of width result.value ≡ word width (λ i. xor (digit summand.value i) invert) }
    ensures value_fits { result.value < 2 ^ width }
    ensures taint { result.taint ≡ summand.taint }
    ensures start { result.start ≡ summand.start }
{
    Summand {
        value: summand.value ^ repeated(width, invert),
        taint: summand.taint,
        start: summand.start,
    }
}

/// The carries of the sum of the least or the greatest words of two summands.
fn carries(width: u32, first: Summand, second: Summand, carry: Carry, upper: bool) -> u128
    requires some { 1 ≤ width }
    requires limit { width ≤ 128 }
    requires first { IsShort width first }
    requires second { IsShort width second }
    ensures value { result ≡ carries_number width first second carry upper }
    ensures fits { result < 2 ^ width }
{
    let a = Bounds::of(width, first.value, first.taint);
    let b = Bounds::of(width, second.value, second.taint);
    let carry = if upper { carry.greatest } else { carry.least };
    alu(width, a.bound(upper), b.bound(upper), carry, false).co
}

/// What `$alu` adds: A, B where BI is least and where it is greatest, and the bounds of CI.
#[derive(Clone, Copy, Drop)]
pub struct AluOperands {
    pub first: Summand,
    pub least: Summand,
    pub greatest: Summand,
    pub carry: Carry,
}

impl AluOperands {
    /// The operands of a cell.
    pub fn of(shape: Shape, values: &Words, taints: &Words) -> AluOperands
        requires values { AreAluWords shape values.now }
        requires taints { AreAluWords shape taints.now }
        ensures { AreAluOperands shape values.now taints.now result }
    {
        let first = summand(shape.y, shape.signed, shape.a, values.a, taints.a);
        let second = summand(shape.y, shape.signed, shape.b, values.b, taints.b);
        let invert = bit_bounds(values.d, taints.d);
        AluOperands {
            first,
            least: inverted(shape.y, invert.least, second),
            greatest: inverted(shape.y, invert.greatest, second),
            carry: bit_bounds(values.c, taints.c),
        }
    }

    /// The taint of X: `tainted` where BI is tainted.
    fn xor_taint(&self, width: u32, tainted: bool) -> u128
        requires some { 1 ≤ width }
        requires limit { width ≤ 128 }
        requires first { self.now.first.taint < 2 ^ width }
        requires least { self.now.least.taint < 2 ^ width }
        ensures value { word_of width result
            ≡ word width (λ i. (digit self.now.first.taint i || digit self.now.least.taint i) || tainted) }
        ensures fits { result < 2 ^ width }
    {
        self.first.taint | self.least.taint | repeated(width, tainted)
    }

    /// The taint of Y.
    fn sum_taint(&self, width: u32) -> u128
        requires some { 1 ≤ width }
        requires limit { width ≤ 128 }
        requires first { IsShort width self.now.first }
        requires least { IsShort width self.now.least }
        requires greatest { IsShort width self.now.greatest }
        ensures value { result ≡ alu_sum_number width self.now }
        ensures fits { result < 2 ^ width }
    {
        let least = Sums::between(width, self.first, self.least, self.carry);
        let greatest = Sums::between(width, self.first, self.greatest, self.carry);
        let single = single_taint(width, self.first, self.least);
        single
            | join(
                least.taint(),
                greatest.taint(),
                least.sum(false, false, false),
                greatest.sum(false, false, false),
            )
    }

    /// The taint of CO.
    fn carry_taint(&self, width: u32) -> u128
        requires some { 1 ≤ width }
        requires limit { width ≤ 128 }
        requires first { IsShort width self.now.first }
        requires least { IsShort width self.now.least }
        requires greatest { IsShort width self.now.greatest }
        ensures value { result ≡ alu_carry_number width self.now }
        ensures fits { result < 2 ^ width }
    {
        let least = carries(width, self.first, self.least, self.carry, false);
        let greatest = carries(width, self.first, self.greatest, self.carry, false);
        join(
            least ^ carries(width, self.first, self.least, self.carry, true),
            greatest ^ carries(width, self.first, self.greatest, self.carry, true),
            least,
            greatest,
        )
    }
}

/// A cell `$alu` made ready for values and taints.
#[derive(Clone, Copy, Debug, PartialEq, Eq, Drop)]
pub struct AluForm {
    pub shape: Shape,
}

impl AluForm {
    ghost use Rattle.cif_defs.specs.Cells.{Cell as CellData, meaning};
    ghost use Rattle.cif_defs.specs.Fitted.{IsFitted, operand_widths};
    ghost use Rattle.cif_defs.specs.declared.kinds.Kind.TheVariants.{Alu};
    ghost use Rattle.cif_term.specs.CellTaints.{taint_words};
    ghost use Rattle.word_numbers.specs.HeldWords.{AreNarrow, words_held};
    ghost use Rattle.word_sums.specs.AluForms.{IsAluFormOf};
    ghost use Rattle.word_numbers.specs.NarrowCells.{output_widths};

    /// The form of a cell.
    pub fn of(cell: &Cell) -> AluForm
        requires kind { cell.now.kind ≡ Alu }
        requires fitted { IsFitted cell.now }
        ensures { IsAluFormOf result.shape cell.now }
    {
        let a = narrow_number(cell, Param::AWidth);
        let b = narrow_number(cell, Param::BWidth);
        let y = narrow_number(cell, Param::YWidth);
        let signed = (cell.number(Param::ASigned) == 1) & (cell.number(Param::BSigned) == 1);
        AluForm {
            shape: Shape { a, b, y, signed },
        }
    }

    /// The words of X, Y and CO, from the words of A, B, CI and BI.
    pub fn value(&self, values: &Words) -> Words
        requires { AreAluWords self.now.shape values.now }
        ensures words { (c : CellData) → IsAluFormOf self.now.shape c
            → words_held (output_widths c) result ≡ meaning c (words_held (operand_widths c) values.now) }
        ensures narrow { (c : CellData) → IsAluFormOf self.now.shape c → AreNarrow (output_widths c) result }
    {
        let shape = self.shape;
        let pair = Pair {
            a: values.a,
            b: values.b,
        };
        let numbers = extended_pair(shape.y, shape, pair);
        let carry = bit(values.c, 0);
        let invert = bit(values.d, 0);
        let out = alu(shape.y, numbers.a, numbers.b, carry, invert);
        Words::three(out.x, out.y, out.co)
    }

    /// The taints of X, Y and CO, from the words and taints of A, B, CI and BI.
    pub fn taint(&self, values: &Words, taints: &Words) -> Words
        requires values { AreAluWords self.now.shape values.now }
        requires taints { AreAluWords self.now.shape taints.now }
        ensures words { (c : CellData) → IsAluFormOf self.now.shape c → words_held (output_widths c) result
            ≡ taint_words c (words_held (operand_widths c) values.now) (words_held (operand_widths c) taints.now) }
        ensures narrow { (c : CellData) → IsAluFormOf self.now.shape c → AreNarrow (output_widths c) result }
    {
        let width = self.shape.y;
        let operands = AluOperands::of(self.shape, values, taints);
        let x = operands.xor_taint(width, bit(taints.d, 0));
        let y = operands.sum_taint(width);
        let co = operands.carry_taint(width);
        Words::three(x, y, co)
    }
}
