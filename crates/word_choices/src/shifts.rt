// The values of shifts.
ghost use Rattle.std.specs.Prelude.{◌≡◌, ◌^◌, ◌<◌, ◌≤◌, ◌&&◌, ◌+◌, false, true, max};
ghost use Rattle.cif_defs.specs.Words.{top, word_of};
ghost use Rattle.cif_defs.specs.Meanings.{shift_word, shiftx_word, shl_word, shr_word, sshr_word};

use crate::shapes::Shift;
use word_numbers::{Words, extend, lowered, lowest, mask, raised, top};

/// What `$shl` and `$sshl` give: A moved to the left by B.
pub fn left_value(shift: Shift, values: Words) -> u128
    requires a_fits { values.a < 2 ^ shift.a }
    requires b_fits { values.b < 2 ^ shift.b }
    ensures word { word_of shift.y result
        ≡ shl_word shift.y shift.a_signed (word_of shift.a values.a) (word_of shift.b values.b) }
    ensures fits { result < 2 ^ shift.y }
{
    raised(
        shift.y,
        values.b,
        extend(shift.a, shift.y, shift.a_signed, values.a),
    )
}

/// The width that a move to the right works on.
pub fn shown_width(shift: Shift) -> u32
    ensures value { result ≡ max shift.a shift.y }
    ensures some { 1 ≤ result }
    ensures limit { result ≤ 128 }
{
    shift.a.max(shift.y)
}

/// What `$shr` gives: A moved to the right by B, with zeros.
pub fn right_value(shift: Shift, values: Words) -> u128
    requires a_fits { values.a < 2 ^ shift.a }
    requires b_fits { values.b < 2 ^ shift.b }
    ensures word { word_of shift.y result
        ≡ shr_word shift.y shift.a_signed (word_of shift.a values.a) (word_of shift.b values.b) }
    ensures fits { result < 2 ^ shift.y }
{
    let width = shown_width(shift);
    let shown = extend(shift.a, width, shift.a_signed, values.a);
    lowest(shift.y, lowered(width, values.b, false, shown))
}

/// The bit with which A goes on past its end.
fn sign(shift: Shift, a: u128) -> bool
    ensures { result ≡ (shift.a_signed && top (word_of shift.a a)) }
{
    shift.a_signed && top(shift.a, a)
}

/// What `$sshr` gives: A moved to the right by B, with its highest bit where it is signed.
pub fn signed_value(shift: Shift, values: Words) -> u128
    requires a_fits { values.a < 2 ^ shift.a }
    requires b_fits { values.b < 2 ^ shift.b }
    ensures word { word_of shift.y result
        ≡ sshr_word shift.y shift.a_signed (word_of shift.a values.a) (word_of shift.b values.b) }
    ensures fits { result < 2 ^ shift.y }
{
    let width = shown_width(shift);
    let shown = extend(shift.a, width, shift.a_signed, values.a);
    let fill = sign(shift, values.a);
    lowest(shift.y, lowered(width, values.b, fill, shown))
}

/// Whether B is negative.
fn is_negative(shift: Shift, b: u128) -> bool
    ensures { result ≡ (shift.b_signed && top (word_of shift.b b)) }
{
    shift.b_signed && top(shift.b, b)
}

/// How far a negative B moves to the left.
fn magnitude(width: u32, b: u128) -> u128
    requires some { 1 ≤ width }
    requires limit { width ≤ 128 }
    requires fits { b < 2 ^ width }
    requires negative { top (word_of width b) ≡ true }
    ensures { result + b ≡ 2 ^ width }
{
    mask(width) - b + 1
}

/// A moved to the left by a negative B.
fn left_by(shift: Shift, values: Words) -> u128
    requires a_fits { values.a < 2 ^ shift.a }
    requires b_fits { values.b < 2 ^ shift.b }
    requires signed { shift.b_signed ≡ true }
    requires negative { top (word_of shift.b values.b) ≡ true }
    ensures word { word_of shift.y result
        ≡ shift_word shift.y shift.a_signed shift.b_signed (word_of shift.a values.a) (word_of shift.b values.b) }
    ensures fits { result < 2 ^ shift.y }
{
    let by = magnitude(shift.b, values.b);
    raised(
        shift.y,
        by,
        extend(shift.a, shift.y, shift.a_signed, values.a),
    )
}

/// What `$shift` gives: A moved to the right by B with zeros, or to the left
/// where B is negative.
pub fn offset_value(shift: Shift, values: Words) -> u128
    requires a_fits { values.a < 2 ^ shift.a }
    requires b_fits { values.b < 2 ^ shift.b }
    ensures word { word_of shift.y result
        ≡ shift_word shift.y shift.a_signed shift.b_signed (word_of shift.a values.a) (word_of shift.b values.b) }
    ensures fits { result < 2 ^ shift.y }
{
    if is_negative(shift, values.b) {
        left_by(shift, values)
    } else {
        right_value(shift, values)
    }
}

/// What `$shiftx` gives, whose A has no sign: the bits of A from place B upward, and zeros outside A.
pub fn indexed_value(shift: Shift, values: Words) -> u128
    requires a_fits { values.a < 2 ^ shift.a }
    requires b_fits { values.b < 2 ^ shift.b }
    requires unsigned { shift.a_signed ≡ false }
    ensures word { word_of shift.y result
        ≡ shiftx_word shift.y shift.b_signed (word_of shift.a values.a) (word_of shift.b values.b) }
    ensures fits { result < 2 ^ shift.y }
{
    offset_value(shift, values)
}
