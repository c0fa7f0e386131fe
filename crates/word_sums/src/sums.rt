// The taint of sums.
ghost use Rattle.std.specs.Prelude.{ℕ, ◌≡◌, ◌^◌, ◌<◌, ◌≤◌, if◌then◌else◌};
ghost use Rattle.word_sums.specs.SumNumbers.{case_number, joined_number, second_case, single_taint, sum_number, sum_taint_number, sums_between, sums_number};

use crate::bounds::{Bounds, below};
use cif_arith::alu;

/// One of two words that are added: its number, its taint, and the place from which its bits are one sign.
#[derive(Clone, Copy, Drop)]
pub struct Summand {
    pub value: u128,
    pub taint: u128,
    /// The width where no sign is shown twice.
    pub start: u32,
}

/// The least and the greatest carry in.
#[derive(Clone, Copy, Drop)]
pub struct Carry {
    pub least: bool,
    pub greatest: bool,
}

impl Carry {
    /// The least carry, or the greatest one.
    fn bound(&self, upper: bool) -> bool
        ensures { result ≡ (if upper then self.now.greatest else self.now.least) }
    {
        if upper { self.greatest } else { self.least }
    }
}

/// Sums of the bounds of two words and of a carry in.
#[derive(Clone, Copy, Drop)]
pub struct Sums {
    pub width: u32,
    /// The bounds of the first word, and where its sign starts.
    pub first: Bounds,
    pub first_start: u32,
    /// The same for the second.
    pub second: Bounds,
    pub second_start: u32,
    pub carry: Carry,
}

/// The taint from that of two cases, and a value of each.
pub fn join(zero_taint: u128, one_taint: u128, zero_value: u128, one_value: u128) -> u128
    ensures value { result ≡ joined_number zero_taint one_taint zero_value one_value }
    ensures fits { (n : ℕ) → zero_taint < 2 ^ n → one_taint < 2 ^ n → zero_value < 2 ^ n → one_value < 2 ^ n → result < 2 ^ n }
{
    zero_taint | one_taint | (zero_value ^ one_value)
}

impl Sums {
    /// The sums of the bounds of two words of `width` bits.
    pub fn between(width: u32, first: Summand, second: Summand, carry: Carry) -> Sums
        requires some { 1 ≤ width }
        requires limit { width ≤ 128 }
        requires first_value { first.value < 2 ^ width }
        requires first_taint { first.taint < 2 ^ width }
        requires second_value { second.value < 2 ^ width }
        requires second_taint { second.taint < 2 ^ width }
        ensures { result ≡ sums_between width first second carry }
    {
        Sums {
            width,
            first: Bounds::of(width, first.value, first.taint),
            first_start: first.start,
            second: Bounds::of(width, second.value, second.taint),
            second_start: second.start,
            carry,
        }
    }

    /// The sum of the least or the greatest words, in the case of these signs.
    pub fn sum(&self, upper: bool, first_sign: bool, second_sign: bool) -> u128
        requires some { 1 ≤ self.now.width }
        requires limit { self.now.width ≤ 128 }
        requires first { self.now.first_start ≤ self.now.width }
        requires second { self.now.second_start ≤ self.now.width }
        ensures value { result ≡ sum_number self.now upper first_sign second_sign }
        ensures fits { result < 2 ^ self.now.width }
    {
        let first = self
            .first
            .side(self.width, self.first_start, upper, first_sign);
        let second = self
            .second
            .side(self.width, self.second_start, upper, second_sign);
        alu(self.width, first, second, self.carry.bound(upper), false).y
    }

    /// Where the least and the greatest sum differ, in the case of these signs.
    fn case(&self, first_sign: bool, second_sign: bool) -> u128
        requires some { 1 ≤ self.now.width }
        requires limit { self.now.width ≤ 128 }
        requires first { self.now.first_start ≤ self.now.width }
        requires second { self.now.second_start ≤ self.now.width }
        ensures value { result ≡ case_number (sum_number self.now) first_sign second_sign }
        ensures fits { result < 2 ^ self.now.width }
    {
        self.sum(false, first_sign, second_sign) ^ self.sum(true, first_sign, second_sign)
    }

    /// The taint in the case of the first sign, by the cases of the second.
    fn of_sign(&self, first_sign: bool) -> u128
        requires some { 1 ≤ self.now.width }
        requires limit { self.now.width ≤ 128 }
        requires first { self.now.first_start ≤ self.now.width }
        requires second { self.now.second_start ≤ self.now.width }
        ensures value { result ≡ second_case self.now first_sign }
        ensures fits { result < 2 ^ self.now.width }
    {
        if self.second_start < self.width {
            join(
                self.case(first_sign, false),
                self.case(first_sign, true),
                self.sum(false, first_sign, false),
                self.sum(false, first_sign, true),
            )
        } else {
            self.case(first_sign, false)
        }
    }

    /// The taint by the cases of both signs.
    pub fn taint(&self) -> u128
        requires some { 1 ≤ self.now.width }
        requires limit { self.now.width ≤ 128 }
        requires first { self.now.first_start ≤ self.now.width }
        requires second { self.now.second_start ≤ self.now.width }
        ensures value { result ≡ sums_number self.now }
        ensures fits { result < 2 ^ self.now.width }
    {
        if self.first_start < self.width {
            join(
                self.of_sign(false),
                self.of_sign(true),
                self.sum(false, false, false),
                self.sum(false, true, false),
            )
        } else {
            self.of_sign(false)
        }
    }
}

/// The taint of two summands that is no sign's.
pub fn single_taint(width: u32, first: Summand, second: Summand) -> u128
    requires some { 1 ≤ width }
    requires limit { width ≤ 128 }
    requires first_start { first.start ≤ width }
    requires second_start { second.start ≤ width }
    ensures value { result ≡ single_taint width first second }
    ensures fits { result < 2 ^ width }
{
    below(width, first.start, first.taint) | below(width, second.start, second.taint)
}

/// The taint of the sum of two words of `width` bits.
pub fn sum_taint(width: u32, first: Summand, second: Summand) -> u128
    requires some { 1 ≤ width }
    requires limit { width ≤ 128 }
    requires first_value { first.value < 2 ^ width }
    requires first_taint { first.taint < 2 ^ width }
    requires first_start { first.start ≤ width }
    requires second_value { second.value < 2 ^ width }
    requires second_taint { second.taint < 2 ^ width }
    requires second_start { second.start ≤ width }
    ensures value { result ≡ sum_taint_number width first second }
    ensures fits { result < 2 ^ width }
{
    let carry = Carry {
        least: false,
        greatest: false,
    };
    let sums = Sums::between(width, first, second, carry);
    single_taint(width, first, second) | sums.taint()
}
