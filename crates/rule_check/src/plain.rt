// The taint of products and divisions on plain numbers, from the words of their rules.

use cif_bits::Bits;
use cif_kinds::{Cell, Kind, Param};
use std::process::Abort;

/// An operand of at most 63 bits: its number, and the number that its tainted bits make.
#[derive(Clone, Copy)]
struct Operand {
    value: u64,
    taint: u64,
}

/// The number whose lowest `width` bits are 1.
fn ones(width: u32) -> u64 {
    1u64.wrapping_shl(width).wrapping_sub(1)
}

/// The number of a word.
fn number_of(word: &Bits) -> u64 {
    let mut number: u64 = 0;
    for bit in word.bits().iter().rev() {
        let low = if *bit { 1 } else { 0 };
        number = number.wrapping_mul(2).wrapping_add(low);
    }
    number
}

/// A number of `from` bits, extended or cut to `width` bits.
fn extended(number: u64, from: u32, width: u32, signed: bool) -> u64 {
    let is_negative = signed && number.wrapping_shr(from.wrapping_sub(1)) % 2 == 1;
    let longer = if is_negative {
        number | !ones(from)
    } else {
        number
    };
    longer & ones(width)
}

impl Operand {
    /// The operand of a word with a taint.
    fn of(value: &Bits, taint: &Bits) -> Operand {
        Operand {
            value: number_of(value),
            taint: number_of(taint),
        }
    }

    /// Its number with the tainted bits cleared.
    fn min(self) -> u64 {
        self.value & !self.taint
    }

    /// Its number with the tainted bits set.
    fn max(self) -> u64 {
        self.value | self.taint
    }

    /// The same, extended or cut.
    fn extended(self, from: u32, width: u32, signed: bool) -> Operand {
        Operand {
            value: extended(self.value, from, width, signed),
            taint: extended(self.taint, from, width, signed),
        }
    }
}

/// The taint of a product of operands of the width of Y: every bit from the lowest tainted place on, but none where a
/// factor is a known zero.
fn product_taint(first: Operand, second: Operand, width: u32) -> u64 {
    let tainted = first.taint | second.taint;
    if tainted == 0 || first.max() == 0 || second.max() == 0 {
        return 0;
    }
    let lowest = tainted & tainted.wrapping_neg();
    ones(width) & !lowest.wrapping_sub(1)
}

/// The least and the greatest quotient: 0 and the greatest dividend where the divisor can be 0.
fn quotients(first: Operand, second: Operand) -> (u64, u64) {
    let least_divisor = second.min();
    let greatest_divisor = second.max();
    if least_divisor == 0 || greatest_divisor == 0 {
        return (0, first.max());
    }
    (first.min() / greatest_divisor, first.max() / least_divisor)
}

/// The taint of an unsigned quotient: every bit up to the highest place where the least and the greatest quotient differ,
/// but none where nothing is tainted or the divisor is a known zero.
fn quotient_taint(first: Operand, second: Operand, width: u32) -> u64 {
    if first.taint | second.taint == 0 || second.max() == 0 {
        return 0;
    }
    let (low, high) = quotients(first, second);
    let differing = low ^ high;
    let mut taint: u64 = 0;
    for place in 0..width {
        if differing.wrapping_shr(place) != 0 {
            taint |= 1u64.wrapping_shl(place);
        }
    }
    taint
}

/// The taint of the other divisions: every bit, but none where nothing is tainted or the divisor is a known zero.
fn division_taint(first: Operand, second: Operand, width: u32) -> u64 {
    if first.taint | second.taint == 0 || second.max() == 0 {
        0
    } else {
        ones(width)
    }
}

/// The taint of the output of a product or a division, whose operands and output have at most 63 bits.
fn coarse_number(cell: &Cell, first: Operand, second: Operand) -> u64 {
    let width = cell.number(Param::YWidth).min(63) as u32;
    let signed = cell.number(Param::ASigned) == 1 && cell.number(Param::BSigned) == 1;
    match cell.kind() {
        Kind::Mul => {
            let first_bits = cell.number(Param::AWidth).min(63) as u32;
            let second_bits = cell.number(Param::BWidth).min(63) as u32;
            product_taint(
                first.extended(first_bits, width, signed),
                second.extended(second_bits, width, signed),
                width,
            )
        }
        Kind::Div if !signed => quotient_taint(first, second, width),
        _ => division_taint(first, second, width),
    }
}

/// Whether words are the one taint word that a product or a division has for these operands.
pub fn is_coarse_taint(
    rt: &impl Abort,
    cell: &Cell,
    values: &[Bits],
    taints: &[Bits],
    words: &[Bits],
) -> bool {
    assert_eq!(rt; values.len(), 2);
    assert_eq!(rt; taints.len(), 2);
    let first = Operand::of(&values[0], &taints[0]);
    let second = Operand::of(&values[1], &taints[1]);
    words.len() == 1
        && u64::from(words[0].width()) == cell.number(Param::YWidth)
        && number_of(&words[0]) == coarse_number(cell, first, second)
}
