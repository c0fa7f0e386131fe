// Which module of a file is read.
ghost use Rattle.std.specs.Prelude.{◌≡◌, codes, option_map, option_and_then, string_bytes, length, List, ℕ};
ghost use Rattle.serde_json.specs.View.{view, members_view};
ghost use Rattle.cif_defs.specs.declared.raw_module.ParamValue.TheVariants.{Text};
ghost use Rattle.cif_defs.specs.RawModule.{below_limit_int, needed_number as number_needed};
ghost use Rattle.cif_json.specs.Shape.{value_of};
ghost use Rattle.cif_json.specs.Top.{binary_digit as binary_digit_of, is_top as is_top_module, modules_of, tops_of, only_one, chosen as chosen_of};

use crate::member::{Members, object, take};
use serde_json::Value;

fn binary_digit(byte: u8) -> Option<u64>
    ensures { result ≡ binary_digit_of byte }
{
    match byte {
        b'0' => Some(0),
        b'1' => Some(1),
        _ => None,
    }
}

/// The number of one or more binary digits, highest first, if it is below 2 to the 32.
fn binary_number(text: &[u8]) -> Option<u64>
    ensures { result ≡ number_needed (Text text.now) }
{
    if text.is_empty() {
        return None;
    }
    let mut number = 0u64;
    for byte in text {
        number = 2 * number + binary_digit(*byte)?;
        if number >= 1 << 32 {
            return None;
        }
    }
    Some(number)
}

fn below_limit(number: i128) -> Option<u64>
    ensures { result ≡ below_limit_int number }
{
    if 0 <= number && number < 1 << 32 {
        Some(number as u64)
    } else {
        None
    }
}

/// The number of a value, in one of the two spellings of needed numbers.
#[tactic(auto, unfolding(cif_defs::specs::RawModule::needed_number))]
fn needed_number(value: &Value) -> Option<u64>
    ensures { result ≡ option_and_then number_needed (value_of (view value.now)) }
{
    match value {
        Value::Number(number) => match number.as_i128() {
            Some(number) => below_limit(number),
            None => None,
        },
        Value::String(text) => binary_number(text.as_bytes()),
        _ => None,
    }
}

/// Whether a module is marked as top.
#[tactic(auto, unfolding(crate::specs::Top::is_top))]
fn is_top(value: &Value) -> bool
    ensures { result ≡ is_top_module (view value.now) }
{
    let Some(attributes) = value.get("attributes") else {
        return false;
    };
    match attributes.get("top") {
        Some(top) => match needed_number(top) {
            Some(number) => number != 0,
            None => false,
        },
        None => false,
    }
}

/// The modules of a file, at least one.
pub fn modules(file: Value) -> Option<Members>
    ensures { option_map (λ m. members_view m.entries) result ≡ modules_of (view file) }
{
    let mut members = object(file)?;
    let modules = object(take(&mut members, "modules")?)?;
    if modules.is_empty() {
        None
    } else {
        Some(modules)
    }
}

/// The only module that is marked as top.
fn only_top(modules: Members) -> Option<(String, Value)>
    ensures { option_map (λ m. (string_bytes m.0, view m.1)) result
        ≡ only_one (tops_of (members_view modules.entries)) }
{
    let mut top = None;
    for (name, module) in modules {
        if is_top(&module) {
            if top.is_some() {
                return None;
            }
            top = Some((name, module));
        }
    }
    top
}

/// The module that is read: the only one, or the only one that is marked as top.
pub fn chosen(mut modules: Members) -> Option<(String, Value)>
    ensures { option_map (λ m. (string_bytes m.0, view m.1)) result
        ≡ chosen_of (members_view modules.entries) }
{
    if modules.len() == 1 {
        modules.pop_first()
    } else {
        only_top(modules)
    }
}
