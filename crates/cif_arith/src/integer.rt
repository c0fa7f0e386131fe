// Integers as a sign and a magnitude, and their divisions.

ghost use Rattle.std.specs.Prelude.{◌≡◌, ◌≢◌, ◌-◌, ◌^◌, ◌<◌, ◌≤◌, ◌&&◌, pos, int_div, int_rem};
ghost use Rattle.std.specs.Ordering.{int_eq};
ghost use Rattle.cif_defs.specs.Words.{digit};
ghost use Rattle.cif_defs.specs.Meanings.{floor_div, floor_rem};
ghost use Rattle.cif_arith.specs.NumbersOfBits.{integer_of, residue};

use crate::sums::{lowest, neg};
use std::marker::Model;

/// Whether a number of `width` bits stands for a negative integer.
pub(crate) fn is_negative(width: u32, signed: bool, number: u128) -> bool
    requires some { 1 ≤ width }
    requires limit { width ≤ 128 }
    ensures { result ≡ (signed && digit number (width - 1)) }
{
    signed && (number >> (width - 1)) % 2 == 1
}

/// An integer whose magnitude is below 2^128.
#[derive(Drop)]
pub(crate) struct Integer {
    negative: bool,
    magnitude: u128,
}

impl Model for Integer {
    ghost use Rattle.std.specs.Prelude.{ℤ, pos, neg_ℤ, if◌then◌else◌};

    ghost Value = { ℤ };

    ghost view = { λ i. if i.negative then neg_ℤ (pos i.magnitude) else pos i.magnitude };
}

impl Integer {
    /// The integer that a number of `width` bits stands for.
    pub(crate) fn new(width: u32, signed: bool, number: u128) -> Integer
        requires some { 1 ≤ width }
        requires limit { width ≤ 128 }
        requires fits { number < 2 ^ width }
        ensures { result ≡ integer_of width signed number }
    {
        if is_negative(width, signed, number) {
            Integer {
                negative: true,
                magnitude: neg(width, number),
            }
        } else {
            Integer {
                negative: false,
                magnitude: number,
            }
        }
    }

    /// The integer modulo 2^width.
    pub(crate) fn residue(&self, width: u32) -> u128
        requires some { 1 ≤ width }
        requires limit { width ≤ 128 }
        ensures { result ≡ residue width self.now }
    {
        if self.negative {
            neg(width, self.magnitude)
        } else {
            lowest(width, self.magnitude)
        }
    }

    /// Whether the integer is 0.
    pub(crate) fn is_zero(&self) -> bool
        ensures { result ≡ int_eq self.now (pos 0) }
    {
        self.magnitude == 0
    }

    /// The quotient rounded toward zero.
    pub(crate) fn quotient(&self, divisor: &Integer) -> Integer
        requires { divisor.now ≢ pos 0 }
        ensures { result ≡ int_div self.now divisor.now }
    {
        Integer {
            negative: self.negative != divisor.negative,
            magnitude: self.magnitude / divisor.magnitude,
        }
    }

    /// The remainder of `quotient`, which has the dividend's sign.
    pub(crate) fn remainder(&self, divisor: &Integer) -> Integer
        requires { divisor.now ≢ pos 0 }
        ensures { result ≡ int_rem self.now divisor.now }
    {
        Integer {
            negative: self.negative,
            magnitude: self.magnitude % divisor.magnitude,
        }
    }

    /// The quotient rounded toward minus infinity.
    pub(crate) fn floor_quotient(&self, divisor: &Integer) -> Integer
        requires { divisor.now ≢ pos 0 }
        ensures { result ≡ floor_div self.now divisor.now }
    {
        let negative = self.negative != divisor.negative;
        let magnitude = if negative {
            self.magnitude.div_ceil(divisor.magnitude)
        } else {
            self.magnitude / divisor.magnitude
        };
        Integer {
            negative,
            magnitude,
        }
    }

    /// The remainder of `floor_quotient`, which has the divisor's sign.
    pub(crate) fn floor_remainder(&self, divisor: &Integer) -> Integer
        requires { divisor.now ≢ pos 0 }
        ensures { result ≡ floor_rem self.now divisor.now }
    {
        let remainder = self.magnitude % divisor.magnitude;
        if remainder != 0 && self.negative != divisor.negative {
            Integer {
                negative: divisor.negative,
                magnitude: divisor.magnitude - remainder,
            }
        } else {
            Integer {
                negative: self.negative,
                magnitude: remainder,
            }
        }
    }
}
