// Coded names: a byte outside 0x21 to 0x7E, and `%`, is written as `%` and two hexadecimal digits.
ghost use Rattle.std.specs.Prelude.{◌≡◌, ◌<◌, ◌++◌, ◌==◌, ◌&&◌, not, nat_le, true, length, get_or, Some, None, IsNone, IfOk, IfSome, OnOk};
ghost use Rattle.cif_defs.specs.Text.{percent, is_visible as is_visible_byte, hex_value as hex_number, plain_byte as plain_byte_of, byte_of_digits, with_byte, decoded, coded, coded_byte as coding_of, upper_hex_digit};
ghost use Rattle.cif_text.specs.Bytes.{are_bytes};

use crate::words::is_visible;
use cif_defs::Name;
use std::alloc::{AllocError, Global};

const PERCENT: u8 = 37;

// ---- reading

/// A byte of a name, and what stands after its coding.
#[derive(Clone, Copy)]
struct FirstByte<'a> {
    byte: u8,
    rest: &'a [u8],
}

/// The value of a hexadecimal digit.
fn hexadecimal_value(digit: u8) -> Option<u8>
    ensures value { result ≡ hex_number digit }
    ensures limit { IfSome result (λ d. d < 16) }
{
    match digit {
        b'0'..=b'9' => Some(digit - b'0'),
        b'A'..=b'F' => Some(digit - b'A' + 10),
        b'a'..=b'f' => Some(digit - b'a' + 10),
        _ => None,
    }
}

/// Whether a byte of a name stands for itself.
fn is_plain(byte: u8) -> bool
    ensures { result ≡ (is_visible_byte byte && not (byte == percent)) }
{
    is_visible(byte) && byte != PERCENT
}

/// A byte that stands for itself.
fn plain_byte(byte: u8) -> Option<u8>
    ensures { result ≡ plain_byte_of byte }
{
    if is_plain(byte) { Some(byte) } else { None }
}

/// The byte that two hexadecimal digits code, which must be one that doesn't stand for itself.
fn coded_byte(high: u8, low: u8) -> Option<u8>
    ensures { result ≡ byte_of_digits high low }
{
    let high = hexadecimal_value(high)?;
    let low = hexadecimal_value(low)?;
    let byte = high * 16 + low;
    if plain_byte(byte).is_none() {
        Some(byte)
    } else {
        None
    }
}

/// Whether a name begins with `%` and two more bytes.
fn is_coded(text: &[u8]) -> bool
    requires { 0 < length text.now }
    ensures { result ≡ (get_or text.now 0 0 == percent && nat_le 3 (length text.now)) }
{
    text[0] == PERCENT && text.len() >= 3
}

/// The first byte of a coded name.
fn first_byte(text: &[u8]) -> Option<FirstByte<'_>>
    requires { 0 < length text.now }
    ensures some { IfSome result (λ f. decoded text.now
        ≡ with_byte (Some f.byte) (decoded f.rest.now)) }
    ensures shorter { IfSome result (λ f. length f.rest.now < length text.now) }
    ensures none { IsNone result → decoded text.now ≡ None }
{
    if is_coded(text) {
        let byte = coded_byte(text[1], text[2])?;
        return Some(FirstByte {
            byte,
            rest: &text[3..],
        });
    }
    let byte = plain_byte(text[0])?;
    Some(FirstByte {
        byte,
        rest: &text[1..],
    })
}

/// The name that a word codes; None where the coding is wrong.
pub fn read_name(alloc: Global, word: &[u8]) -> Result<Option<Name>, AllocError>
    ensures { IfOk result (λ name. name ≡ decoded word.now) }
{
    let mut name = Vec::with_capacity(alloc, word.len())?;
    let mut rest = word;
    while !rest.is_empty() {
        let Some(first) = first_byte(rest) else {
            return Ok(None);
        };
        name.push(first.byte)?;
        rest = first.rest;
    }
    Ok(Some(Name::of(name)))
}

// ---- writing

/// A hexadecimal digit, in upper case.
fn hexadecimal_digit(digit: u8) -> u8
    requires { digit < 16 }
    ensures { result ≡ upper_hex_digit digit }
{
    if digit < 10 {
        b'0' + digit
    } else {
        b'A' + (digit - 10)
    }
}

/// Adds a byte of a name, coded where it isn't from 0x21 to 0x7E or is `%`.
fn push_byte(text: &mut Vec<u8>, byte: u8) -> Result<(), AllocError>
    ensures { OnOk result (text.new.items ≡ text.old.items ++ coding_of byte) }
{
    if is_plain(byte) {
        text.push(byte)?;
    } else {
        text.push(b'%')?;
        text.push(hexadecimal_digit(byte / 16))?;
        text.push(hexadecimal_digit(byte % 16))?;
    }
    Ok(())
}

/// Adds a name, coded.
#[tactic(auto, unfolding(cif_defs::specs::Text::coded))]
pub fn push_name(text: &mut Vec<u8>, name: &[u8]) -> Result<(), AllocError>
    ensures text { OnOk result (text.new.items ≡ text.old.items ++ coded name.now) }
    ensures bytes { OnOk result (are_bytes name.now ≡ true) }
{
    for byte in name {
        push_byte(text, *byte)?;
    }
    Ok(())
}
