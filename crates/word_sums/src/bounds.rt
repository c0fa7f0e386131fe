// The bounds of a number with taint.
ghost use Rattle.std.specs.Prelude.{◌≡◌, ◌-◌, ◌^◌, ◌<◌, ◌≤◌, if◌then◌else◌};
ghost use Rattle.word_sums.specs.BoundNumbers.{bits_below, bounds_of, side_of};

use word_numbers::{complement, mask};

/// The words between which a word with taint lies: its bits where each tainted one is 0, and where each is 1.
#[derive(Clone, Copy, Debug, PartialEq, Eq, Drop)]
pub struct Bounds {
    pub least: u128,
    pub greatest: u128,
}

/// The number whose bits below place `start` are 1, of as many bits as `width`.
fn places_below(width: u32, start: u32) -> u128
    requires some { 1 ≤ width }
    requires limit { width ≤ 128 }
    requires start { start ≤ width }
    ensures value { result ≡ 2 ^ start - 1 }
    ensures fits { result < 2 ^ width }
{
    if start == 0 { 0 } else { mask(start) }
}

/// The bits of a number of `width` bits below place `start`, and zeros from there on.
pub fn below(width: u32, start: u32, number: u128) -> u128
    requires some { 1 ≤ width }
    requires limit { width ≤ 128 }
    requires start { start ≤ width }
    ensures value { result ≡ bits_below width start number }
    ensures fits { result < 2 ^ width }
{
    number & places_below(width, start)
}

impl Bounds {
    /// The bounds of a word of `width` bits with its taint.
    pub fn of(width: u32, value: u128, taint: u128) -> Bounds
        requires some { 1 ≤ width }
        requires limit { width ≤ 128 }
        requires value_fits { value < 2 ^ width }
        requires taint_fits { taint < 2 ^ width }
        ensures { result ≡ bounds_of width value taint }
    {
        Bounds {
            least: value & complement(width, taint),
            greatest: value | taint,
        }
    }

    /// The least word, or the greatest one.
    pub fn bound(&self, upper: bool) -> u128
        ensures { result ≡ (if upper then self.now.greatest else self.now.least) }
    {
        if upper { self.greatest } else { self.least }
    }

    /// `width` bits of both: below place `start` the greatest ones where `low` is set, from there on where `high` is.
    pub fn side(&self, width: u32, start: u32, low: bool, high: bool) -> u128
        requires some { 1 ≤ width }
        requires limit { width ≤ 128 }
        requires start { start ≤ width }
        ensures value { result ≡ side_of width start low high self.now }
        ensures fits { result < 2 ^ width }
    {
        let places = places_below(width, start);
        let under = self.bound(low) & places;
        let over = self.bound(high) & complement(width, places);
        under | over
    }
}
