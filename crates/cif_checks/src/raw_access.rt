// What a raw module says of a cell: parameters in their two spellings, and connections.
ghost use Rattle.std.specs.Prelude.{◌≡◌, [], min, not, length, option_map, unwrap_or, IfOk};
ghost use Rattle.std.specs.List.{list_all};
ghost use Rattle.cif_defs.specs.Words.{bit, number as number_of_word};
ghost use Rattle.cif_defs.specs.WordText.{word_of_text, is_no_digit};
ghost use Rattle.cif_defs.specs.Table.{param_text};
ghost use Rattle.cif_defs.specs.RawModule.{value_named as value_by_name, bits_named as bits_by_name, is_binary as is_binary_text, below_limit_int as limited, int_digits, needed_number as needed_number_of, digits_read, connected as connected_bits};

use cif_defs::{Connection, Name, Param, ParamValue, PortRow, RawBit, RawCell, RawParam};
use cif_kinds::table;
use std::alloc::{AllocError, Global};

/// Needed numbers are below this.
const NUMBER_LIMIT: u64 = 4_294_967_296;

/// The value of the first parameter of a name.
fn value_named<'a>(parameters: &'a [RawParam], name: &[u8]) -> Option<&'a ParamValue>
    ensures { option_map (λ v. v.now) result ≡ value_by_name name.now parameters.now }
{
    for parameter in parameters {
        if parameter.name.items() == name {
            return Some(&parameter.value);
        }
    }
    None
}

/// The bits of the first connection of a name.
fn bits_named<'a>(connections: &'a [Connection], name: &[u8]) -> Option<&'a [RawBit]>
    ensures { option_map (λ bits. bits.now) result ≡ bits_by_name name.now connections.now }
{
    for connection in connections {
        if connection.name().items() == name {
            return Some(connection.items());
        }
    }
    None
}

/// Whether each byte of a text is a binary digit.
fn has_only_digits(text: &[u8]) -> bool
    ensures { result ≡ list_all (λ b. not (is_no_digit b)) text.now }
{
    for byte in text {
        if !matches!(*byte, b'0' | b'1') {
            return false;
        }
    }
    true
}

/// Whether a text is one or more binary digits.
fn is_binary(text: &[u8]) -> bool
    ensures { result ≡ is_binary_text text.now }
{
    if text.is_empty() {
        return false;
    }
    has_only_digits(text)
}

/// The number of binary digits, highest first, or the limit where it isn't below it.
fn limited_number(text: &[u8]) -> u64
    ensures { result ≡ min 4294967296 (number_of_word (word_of_text text.now)) }
{
    let mut number = 0;
    for byte in text {
        number = NUMBER_LIMIT.min(2 * number + u64::from(*byte == b'1'));
    }
    number
}

/// A whole number, where it is one from 0 on below the limit.
pub fn number_below_limit(number: i128) -> Option<u64>
    ensures { result ≡ limited number }
{
    if 0 <= number && number < 4_294_967_296 {
        Some(number as u64)
    } else {
        None
    }
}

/// The number of a value: one or more binary digits, highest first, or a whole number, below 2 to the 32.
#[tactic(auto, unfolding(cif_defs::specs::RawModule::needed_number))]
pub fn needed_number(value: &ParamValue) -> Option<u64>
    ensures { result ≡ needed_number_of value.now }
{
    match value {
        ParamValue::Text(text) => {
            let number = limited_number(text.items());
            if is_binary(text.items()) && number < NUMBER_LIMIT {
                Some(number)
            } else {
                None
            }
        }
        ParamValue::Number(number) => number_below_limit(*number),
    }
}

/// The value that a cell gives for a parameter.
pub fn value_given<'a>(cell: &'a RawCell, param: Param) -> Option<&'a ParamValue>
    ensures { option_map (λ v. v.now) result ≡ value_by_name (param_text param) cell.now.parameters }
{
    value_named(cell.parameters.items(), table::param_name(param).as_bytes())
}

/// Binary digit `index` of a text that stands highest first; each byte but `1`, and each digit that is missing, is 0.
fn text_digit(text: &[u8], index: u64) -> bool
    ensures { result ≡ bit (word_of_text text.now) index }
{
    let count = text.len() as u64;
    if index < count {
        text[(count - 1 - index) as usize] == b'1'
    } else {
        false
    }
}

/// Binary digit `index` of the 32 that a whole number stands for, lowest first.
fn whole_digit(number: i128, index: u64) -> bool
    ensures { result ≡ bit (int_digits number) index }
{
    if number < 0 || index >= 32 {
        return false;
    }
    (number.unsigned_abs() >> index) % 2 == 1
}

/// How many digits a value has.
#[tactic(auto, using(crate::proofs::RawLaws::counts_of_digits), unfolding(cif_defs::specs::RawModule::digits_read))]
pub fn digit_count(value: &ParamValue) -> u64
    ensures { result ≡ length (digits_read value.now) }
{
    match value {
        ParamValue::Text(text) => text.items().len() as u64,
        ParamValue::Number(number) => { if *number < 0 { 0 } else { 32 } }
    }
}

/// Digit `index` of a value, lowest first, where x, z and missing digits are 0.
#[tactic(auto, unfolding(cif_defs::specs::RawModule::digits_read))]
pub fn value_digit(value: &ParamValue, index: u64) -> bool
    ensures { result ≡ bit (digits_read value.now) index }
{
    match value {
        ParamValue::Text(text) => text_digit(text.items(), index),
        ParamValue::Number(number) => whole_digit(*number, index),
    }
}

/// A copy of a name.
pub fn name_copy(alloc: Global, bytes: &[u8]) -> Result<Name, AllocError>
    ensures { IfOk result (λ name. name ≡ bytes.now) }
{
    Ok(Name::of(bytes.to_vec(alloc)?))
}

/// The bits that a cell connects to a port, lowest first; None where it connects none.
pub fn connected<'a>(cell: &'a RawCell, row: &PortRow) -> Option<&'a [RawBit]>
    ensures { option_map (λ bits. bits.now) result ≡ connected_bits cell.now row.now }
{
    let name = table::port_name(row.port).as_bytes();
    bits_named(cell.connections.items(), name)
}

/// The bits of a port, lowest first; none where it isn't connected.
pub fn bits_or_none<'a>(found: Option<&'a [RawBit]>) -> &'a [RawBit]
    ensures { result.now ≡ unwrap_or (option_map (λ bits. bits.now) found.entry) [] }
{
    match found {
        Some(bits) => bits,
        None => &[],
    }
}
