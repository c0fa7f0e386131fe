// The taints of shifts: stage by stage, from the lowest bit of B upward.
ghost use Rattle.std.specs.Prelude.{◌≡◌, ◌^◌, ◌<◌, ◌≤◌, false, true};
ghost use Rattle.cif_defs.specs.Words.{operand, word_of};
ghost use Rattle.cif_defs.specs.Meanings.{shift_word, shiftx_word, shl_word, shr_word, sshr_word};
ghost use Rattle.word_choices.specs.Shadows.{IsWithin, exact_word, two_taints, two_values};

use crate::shadowed::{Shadowed, chosen_at, cut, extended, moved_down, moved_up, step};
use crate::shapes::Shift;
use crate::shifts::shown_width;
use word_numbers::lowest;

/// The taint of what `$shl` and `$sshl` give.
pub fn left_taint(shift: Shift, a: Shadowed, b: Shadowed) -> u128
    requires a_within { IsWithin shift.a a }
    ensures word { word_of shift.y result
        ≡ exact_word shift.y (λ us. shl_word shift.y shift.a_signed (operand us 0) (operand us 1))
        (two_values shift.a shift.b a b) (two_taints shift.a shift.b a b) }
    ensures fits { result < 2 ^ shift.y }
{
    let mut word = extended(shift.a, shift.y, shift.a_signed, a);
    for place in 0..shift.b {
        let moved = moved_up(shift.y, step(place), word);
        word = chosen_at(word, moved, b, place);
    }
    word.taint
}

/// The taint of what `$shr` gives.
pub fn right_taint(shift: Shift, a: Shadowed, b: Shadowed) -> u128
    requires a_within { IsWithin shift.a a }
    ensures word { word_of shift.y result
        ≡ exact_word shift.y (λ us. shr_word shift.y shift.a_signed (operand us 0) (operand us 1))
        (two_values shift.a shift.b a b) (two_taints shift.a shift.b a b) }
    ensures fits { result < 2 ^ shift.y }
{
    let width = shown_width(shift);
    let mut word = extended(shift.a, width, shift.a_signed, a);
    for place in 0..shift.b {
        let moved = moved_down(width, step(place), false, word);
        word = chosen_at(word, moved, b, place);
    }
    lowest(shift.y, word.taint)
}

/// The taint of what `$sshr` gives of a signed A.
fn sign_taint(shift: Shift, a: Shadowed, b: Shadowed) -> u128
    requires a_within { IsWithin shift.a a }
    requires signed { shift.a_signed ≡ true }
    ensures word { word_of shift.y result
        ≡ exact_word shift.y (λ us. sshr_word shift.y true (operand us 0) (operand us 1))
        (two_values shift.a shift.b a b) (two_taints shift.a shift.b a b) }
    ensures fits { result < 2 ^ shift.y }
{
    let width = shown_width(shift);
    let mut word = extended(shift.a, width, true, a);
    for place in 0..shift.b {
        let moved = moved_down(width, step(place), true, word);
        word = chosen_at(word, moved, b, place);
    }
    lowest(shift.y, word.taint)
}

/// The taint of what `$sshr` gives.
pub fn signed_taint(shift: Shift, a: Shadowed, b: Shadowed) -> u128
    requires a_within { IsWithin shift.a a }
    ensures word { word_of shift.y result
        ≡ exact_word shift.y (λ us. sshr_word shift.y shift.a_signed (operand us 0) (operand us 1))
        (two_values shift.a shift.b a b) (two_taints shift.a shift.b a b) }
    ensures fits { result < 2 ^ shift.y }
{
    if shift.a_signed {
        sign_taint(shift, a, b)
    } else {
        right_taint(shift, a, b)
    }
}

/// A to the right and A to the left, chosen by the sign of B.
fn two_way_taint(shift: Shift, a: Shadowed, b: Shadowed) -> u128
    requires a_within { IsWithin shift.a a }
    requires signed { shift.b_signed ≡ true }
    ensures word { word_of shift.y result
        ≡ exact_word shift.y (λ us. shift_word shift.y shift.a_signed shift.b_signed (operand us 0) (operand us 1))
        (two_values shift.a shift.b a b) (two_taints shift.a shift.b a b) }
    ensures fits { result < 2 ^ shift.y }
{
    let width = shown_width(shift);
    let start = extended(shift.a, shift.y, shift.a_signed, a);
    let mut near = extended(shift.a, width, shift.a_signed, a);
    let mut far = moved_up(shift.y, 1, start);
    let last = shift.b - 1;
    for place in 0..last {
        let by = step(place);
        let down = moved_down(width, by, false, near);
        let up = moved_up(shift.y, by, far);
        near = chosen_at(near, down, b, place);
        far = chosen_at(up, far, b, place);
    }
    let low = cut(shift.y, 0, near);
    chosen_at(low, far, b, last).taint
}

/// The taint of what `$shift` gives.
pub fn offset_taint(shift: Shift, a: Shadowed, b: Shadowed) -> u128
    requires a_within { IsWithin shift.a a }
    ensures word { word_of shift.y result
        ≡ exact_word shift.y (λ us. shift_word shift.y shift.a_signed shift.b_signed (operand us 0) (operand us 1))
        (two_values shift.a shift.b a b) (two_taints shift.a shift.b a b) }
    ensures fits { result < 2 ^ shift.y }
{
    if shift.b_signed {
        two_way_taint(shift, a, b)
    } else {
        right_taint(shift, a, b)
    }
}

/// The taint of what `$shiftx` gives, whose A has no sign.
pub fn indexed_taint(shift: Shift, a: Shadowed, b: Shadowed) -> u128
    requires a_within { IsWithin shift.a a }
    requires unsigned { shift.a_signed ≡ false }
    ensures word { word_of shift.y result
        ≡ exact_word shift.y (λ us. shiftx_word shift.y shift.b_signed (operand us 0) (operand us 1))
        (two_values shift.a shift.b a b) (two_taints shift.a shift.b a b) }
    ensures fits { result < 2 ^ shift.y }
{
    offset_taint(shift, a, b)
}
