// What operations give.

ghost use Rattle.std.specs.Prelude.{◌≡◌, ◌<◌, ◌≤◌, ◌+◌, ◌++◌, length, false, int_lt, IfOk, IsTrue};
ghost use Rattle.std.specs.Ordering.{int_eq};
ghost use Rattle.cif_defs.specs.Words.{bit, flag_word};
ghost use Rattle.cif_defs.specs.Meanings.{add_word, mul_word, div_word, compared};
ghost use Rattle.cif_term.specs.Formulas.{is_on_numbers, one_word, picked, two_word};

use crate::ops::{Op1, Op2};
use cif_arith::{add, div, less, mul};
use cif_bits::{Bits, NoMemory};
use std::alloc::{AllocError, Global};

/// The word of one bit.
fn flag(alloc: Global, bit: bool) -> Result<Bits, NoMemory>
    ensures { IfOk result (λ w. w ≡ flag_word 1 bit) }
{
    let bits = vec![in alloc; bit; 1]?;
    Ok(Bits::of(bits))
}

/// The sum modulo 2 to the width.
fn sum(alloc: Global, a: &Bits, b: &Bits) -> Result<Bits, NoMemory>
    requires some { 0 < length a.now }
    requires limit { length a.now ≤ 128 }
    requires same { length b.now ≡ length a.now }
    ensures { IfOk result (λ w. w ≡ add_word (length a.now) false a.now b.now) }
{
    let width = a.width();
    Bits::from_u128(alloc, width, add(width, a.to_u128(), b.to_u128()))
}

/// The product modulo 2 to the width.
fn product(alloc: Global, a: &Bits, b: &Bits) -> Result<Bits, NoMemory>
    requires some { 0 < length a.now }
    requires limit { length a.now ≤ 128 }
    requires same { length b.now ≡ length a.now }
    ensures { IfOk result (λ w. w ≡ mul_word (length a.now) false a.now b.now) }
{
    let width = a.width();
    Bits::from_u128(alloc, width, mul(width, a.to_u128(), b.to_u128()))
}

/// The unsigned quotient.
fn quotient(alloc: Global, a: &Bits, b: &Bits) -> Result<Bits, NoMemory>
    requires some { 0 < length a.now }
    requires limit { length a.now ≤ 128 }
    requires same { length b.now ≡ length a.now }
    ensures { IfOk result (λ w. w ≡ div_word (length a.now) false a.now b.now) }
{
    let width = a.width();
    Bits::from_u128(alloc, width, div(width, false, a.to_u128(), b.to_u128()))
}

/// Whether the first number is less.
fn is_less(a: &Bits, b: &Bits, signed: bool) -> bool
    requires some { 0 < length a.now }
    requires limit { length a.now ≤ 128 }
    requires same { length b.now ≡ length a.now }
    ensures { result ≡ compared int_lt signed a.now b.now }
{
    less(a.width(), signed, a.to_u128(), b.to_u128())
}

/// Whether the numbers of two words of one width are the same.
fn is_equal(a: &Bits, b: &Bits) -> bool
    requires { length b.now ≡ length a.now }
    ensures { result ≡ compared int_eq false a.now b.now }
{
    a.equals(b)
}

/// What an operation on one word gives.
pub(crate) fn apply_one(alloc: Global, op: Op1, word: &Bits) -> Result<Bits, NoMemory>
    ensures { IfOk result (λ w. w ≡ one_word op word.now) }
{
    match op {
        Op1::Not => word.not(alloc),
        Op1::ReduceAnd => flag(alloc, word.reduce_and()),
        Op1::ReduceOr => flag(alloc, word.reduce_or()),
        Op1::ReduceXor => flag(alloc, word.reduce_xor()),
    }
}

/// What an operation on two words of one width gives.
pub(crate) fn apply_two(
    alloc: Global,
    op: Op2,
    first: &Bits,
    second: &Bits,
) -> Result<Bits, NoMemory>
    requires some { 0 < length first.now }
    requires same { length second.now ≡ length first.now }
    requires numbers { IsTrue (is_on_numbers op) → length first.now ≤ 128 }
    ensures { IfOk result (λ w. w ≡ two_word op first.now second.now) }
{
    match op {
        Op2::And => first.and(alloc, second),
        Op2::Or => first.or(alloc, second),
        Op2::Xor => first.xor(alloc, second),
        Op2::Add => sum(alloc, first, second),
        Op2::Mul => product(alloc, first, second),
        Op2::Div => quotient(alloc, first, second),
        Op2::LessUnsigned => flag(alloc, is_less(first, second, false)),
        Op2::LessSigned => flag(alloc, is_less(first, second, true)),
        Op2::Equal => flag(alloc, is_equal(first, second)),
    }
}

/// The bit at a place, which is 0 past the end.
fn bit_at(word: &Bits, place: u32) -> bool
    ensures { result ≡ bit word.now place }
{
    match word.bits().get(place as usize) {
        Some(bit) => *bit,
        None => false,
    }
}

/// The bits at these places, as a list.
fn bits_at(alloc: Global, places: &[u32], word: &Bits) -> Result<Vec<bool>, AllocError>
    ensures { IfOk result (λ v. v.items ≡ picked places.now word.now) }
{
    places
        .iter()
        .map(|place| bit_at(word, *place))
        .collect(alloc)
}

/// The bits at these places.
pub(crate) fn pick(alloc: Global, places: &[u32], word: &Bits) -> Result<Bits, NoMemory>
    requires { length places.now ≤ 65536 }
    ensures { IfOk result (λ w. w ≡ picked places.now word.now) }
{
    let bits = bits_at(alloc, places, word)?;
    Ok(Bits::of(bits))
}

/// The first word low, and the second above it.
pub(crate) fn join(alloc: Global, low: &Bits, high: &Bits) -> Result<Bits, NoMemory>
    requires { length low.now + length high.now ≤ 65536 }
    ensures { IfOk result (λ w. w ≡ low.now ++ high.now) }
{
    low.concat(alloc, high)
}
