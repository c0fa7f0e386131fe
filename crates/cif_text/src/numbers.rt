// Numbers in decimal digits.
ghost use Rattle.std.specs.Prelude.{◌≡◌, ◌<◌, ◌≤◌, ◌++◌, ◌==◌, ◌||◌, not, length, get_or, IsTrue, OnOk};
ghost use Rattle.std.specs.List.{list_all};
ghost use Rattle.std.specs.Fmt.{decimal};
ghost use Rattle.cif_defs.specs.Text.{number_read, is_decimal as is_decimal_text, is_decimal_digit, decimal_value as decimal_number};
ghost use Rattle.cif_text.specs.Numbers.{below_limit, number_with};

use std::alloc::{AllocError, Global};

// ---- reading

/// Whether a byte is a decimal digit.
fn is_digit(byte: u8) -> bool
    ensures { result ≡ is_decimal_digit byte }
{
    byte >= b'0' && byte <= b'9'
}

/// Whether each byte is a decimal digit.
fn are_digits(bytes: &[u8]) -> bool
    ensures { result ≡ list_all is_decimal_digit bytes.now }
{
    bytes.iter().all(|byte| is_digit(*byte))
}

/// Whether a number may begin so: with 0 only where that is its only digit.
fn begins_well(digits: &[u8]) -> bool
    requires { 0 < length digits.now }
    ensures { result ≡ (length digits.now == 1 || not (get_or digits.now 0 0 == 48)) }
{
    digits.len() == 1 || digits[0] != b'0'
}

/// Whether a text is decimal digits, of which the first is 0 only where it is the only one.
fn is_decimal(text: &[u8]) -> bool
    ensures { result ≡ is_decimal_text text.now }
{
    !text.is_empty() && are_digits(text) && begins_well(text)
}

/// The number that a text is in decimal digits, without a leading zero, below 2 to the 64.
pub fn read_number(text: &[u8]) -> Option<u64>
    ensures { result ≡ number_read text.now }
{
    if !is_decimal(text) {
        return None;
    }
    decimal_value(text)
}

/// A number with one more decimal digit, where that is below 2 to the 64.
fn with_digit(number: u64, digit: u8) -> Option<u64>
    requires { 48 ≤ digit }
    ensures { result ≡ below_limit (number_with number digit) }
{
    number.checked_mul(10)?.checked_add(u64::from(digit - b'0'))
}

/// The number of decimal digits, where it is below 2 to the 64.
fn decimal_value(digits: &[u8]) -> Option<u64>
    requires { IsTrue (list_all is_decimal_digit digits.now) }
    ensures { result ≡ below_limit (decimal_number digits.now) }
{
    let mut value = 0;
    for digit in digits {
        value = with_digit(value, *digit)?;
    }
    Some(value)
}

// ---- writing

/// Adds a number in decimal digits.
pub fn push_number(alloc: Global, text: &mut Vec<u8>, number: u64) -> Result<(), AllocError>
    ensures { OnOk result (text.new.items ≡ text.old.items ++ decimal number) }
{
    let digits = number.to_string(alloc)?;
    text.extend_from_slice(digits.as_bytes())?;
    Ok(())
}
