// The order of numbers that may be signed.

ghost use Rattle.std.specs.Prelude.{◌≡◌, ◌^◌, ◌<◌, ◌≤◌, int_lt};
ghost use Rattle.cif_arith.specs.NumbersOfBits.{integer_of};

use crate::integer::is_negative;

/// What `$lt` tells: whether the first number stands for a lesser integer than the second.
///
/// The width is 1 to 128 bits, and both operands are numbers of that width. The other comparisons follow: `$gt` from
/// exchanged operands, `$ge` and `$le` as the complements of `$lt` and `$gt`.
pub fn less(width: u32, signed: bool, a: u128, b: u128) -> bool
    requires some { 1 ≤ width }
    requires limit { width ≤ 128 }
    requires a_fits { a < 2 ^ width }
    requires b_fits { b < 2 ^ width }
    ensures { result ≡ int_lt (integer_of width signed a) (integer_of width signed b) }
{
    let a_negative = is_negative(width, signed, a);
    let b_negative = is_negative(width, signed, b);
    if a_negative != b_negative {
        a_negative
    } else {
        a < b
    }
}
