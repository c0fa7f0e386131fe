// What JSON values stand for in a module: bits, directions, the values of parameters, flags.
ghost use Rattle.std.specs.Prelude.{◌≡◌, ◌+◌, ◌<◌, ◌^◌, option_map, option_and_then, IfOk};
ghost use Rattle.serde_json.specs.View.{view, items_view, number_view};
ghost use Rattle.serde_json.specs.Find.{as_number};
ghost use Rattle.cif_json.specs.Shape.{net_of, constant_of, bit_of, bits_of_items as bits_of_all, bits_of, value_of, is_other_than_zero as is_nonzero, is_set as is_set_number, direction_of_text, direction_of};

use cif_defs::{Direction, Listed, ParamValue, RawBit};
use serde_json::{Number, Value};
use std::alloc::{AllocError, Global};

/// Zero as a float.
pub const FLOAT_ZERO: f64 = 0.0;

fn net(number: u64) -> Option<RawBit>
    ensures { result ≡ net_of number }
{
    if number < 1 << 32 {
        Some(RawBit::Net(number))
    } else {
        None
    }
}

fn constant(text: &str) -> Option<RawBit>
    ensures { result ≡ constant_of text.now }
{
    if text == "0" {
        Some(RawBit::Zero)
    } else if text == "1" {
        Some(RawBit::One)
    } else if text == "x" {
        Some(RawBit::X)
    } else if text == "z" {
        Some(RawBit::Z)
    } else {
        None
    }
}

/// The bit that a value stands for.
fn bit(value: &Value) -> Option<RawBit>
    ensures { result ≡ bit_of (view value.now) }
{
    match value {
        Value::Number(number) => match number.as_u64() {
            Some(number) => net(number),
            None => None,
        },
        Value::String(text) => constant(text.as_str()),
        _ => None,
    }
}

/// The bits that some values stand for, if each stands for one.
fn bits_of_items(alloc: Global, items: &[Value]) -> Result<Option<Vec<RawBit>>, AllocError>
    ensures { IfOk result
        (λ found. option_map (λ bits. bits.items) found ≡ bits_of_all (items_view items.now)) }
{
    let mut bits = Vec::with_capacity(alloc, items.len())?;
    for item in items {
        let Some(bit) = bit(item) else {
            return Ok(None);
        };
        bits.push(bit)?;
    }
    Ok(Some(bits))
}

/// The bits that a value stands for, if it is an array of bits.
pub fn bits(alloc: Global, value: &Value) -> Result<Option<Vec<RawBit>>, AllocError>
    ensures { IfOk result
        (λ found. option_map (λ bits. bits.items) found ≡ bits_of (view value.now)) }
{
    match value.as_array() {
        Some(items) => bits_of_items(alloc, items),
        None => Ok(None),
    }
}

/// The value of a parameter, if it is a text or a whole number.
pub fn param_value(value: Value) -> Option<ParamValue>
    ensures { result ≡ value_of (view value) }
{
    match value {
        Value::Number(number) => match number.as_i128() {
            Some(number) => Some(ParamValue::Number(number)),
            None => None,
        },
        Value::String(text) => Some(ParamValue::Text(Listed::of(text.into_bytes()))),
        _ => None,
    }
}

fn direction_named(text: &str) -> Option<Direction>
    ensures { result ≡ direction_of_text text.now }
{
    if text == "input" {
        Some(Direction::Input)
    } else if text == "output" {
        Some(Direction::Output)
    } else if text == "inout" {
        Some(Direction::Inout)
    } else {
        None
    }
}

/// The direction that a value stands for.
pub fn direction(value: &Value) -> Option<Direction>
    ensures { result ≡ direction_of (view value.now) }
{
    match value.as_str() {
        Some(text) => direction_named(text),
        None => None,
    }
}

fn is_other_than_zero(number: &Number) -> bool
    ensures { result ≡ is_nonzero (number_view number.now) }
{
    match number.as_i128() {
        Some(whole) => whole != 0,
        None => match number.as_f64() {
            Some(float) => float != FLOAT_ZERO,
            None => false,
        },
    }
}

/// Whether a value is a number other than zero.
pub fn is_set(value: Option<&Value>) -> bool
    ensures { result ≡ is_set_number
        (option_and_then as_number (option_map (λ v. view v.now) value.entry)) }
{
    match value {
        Some(Value::Number(number)) => is_other_than_zero(number),
        _ => false,
    }
}
