// What a cell gives for the parameters of its kind, found once.
ghost use Rattle.std.specs.Prelude.{◌≡◌, [], map, unwrap_or, option_map, option_and_then, IfOk};
ghost use Rattle.cif_defs.specs.Words.{bit};
ghost use Rattle.cif_defs.specs.RawModule.{needed_number as needed_number_of, digits_read};
ghost use Rattle.cif_checks.specs.Known.{value_at};

use crate::raw_access::{needed_number, value_digit, value_given};
use cif_defs::{Param, ParamValue, RawCell};
use std::alloc::{AllocError, Global};
use std::marker::Model;

/// What a cell gives for one of the parameters of its kind. Contracts see it as the value, None where it gives none.
#[derive(Debug, Drop)]
pub struct GivenValue<'a> {
    value: Option<&'a ParamValue>,
}

impl<'a> Model for GivenValue<'a> {
    ghost use Rattle.std.specs.Prelude.{Option, option_map};
    ghost use Rattle.cif_defs.specs.declared.raw_module.ParamValue.{ParamValue};

    ghost Value = { Option ParamValue };

    ghost view = { λ g. option_map (λ v. v.now) g.value };
}

impl<'a> GivenValue<'a> {
    /// The value.
    fn value(&self) -> Option<&'a ParamValue>
        ensures { option_map (λ v. v.now) result ≡ self.now }
    {
        self.value
    }
}

/// What a cell gives for each of some parameters.
pub fn values_given<'a>(
    alloc: Global,
    cell: &'a RawCell,
    params: &[Param],
) -> Result<Vec<GivenValue<'a>>, AllocError>
    ensures { IfOk result (λ values. values.items ≡ map (value_at cell.now) params.now) }
{
    let mut values = Vec::with_capacity(alloc, params.len())?;
    for param in params {
        values.push(GivenValue {
            value: value_given(cell, *param),
        })?;
    }
    Ok(values)
}

/// What a cell gives for a parameter, where `values` are what it gives for `params`. Only a parameter that isn't one of
/// these is sought by its name.
pub fn value_among<'a>(
    cell: &'a RawCell,
    params: &[Param],
    values: &[GivenValue<'a>],
    param: Param,
) -> Option<&'a ParamValue>
    requires { values.now ≡ map (value_at cell.now) params.now }
    ensures { option_map (λ v. v.now) result ≡ value_at cell.now param }
{
    for (index, other) in params.iter().enumerate() {
        if *other == param {
            return values[index].value();
        }
    }
    value_given(cell, param)
}

/// The number of what a cell gives for a parameter; None where it gives none below 2 to the 32.
pub fn number_of_value(value: Option<&ParamValue>) -> Option<u64>
    ensures { result ≡ option_and_then needed_number_of (option_map (λ v. v.now) value.entry) }
{
    match value {
        Some(value) => needed_number(value),
        None => None,
    }
}

/// Digit `index` of what a cell gives for a parameter, lowest first, where x, z and missing digits are 0.
pub fn digit_of_value(value: Option<&ParamValue>, index: u64) -> bool
    ensures { result ≡ bit (unwrap_or (option_map digits_read (option_map (λ v. v.now) value.entry)) []) index }
{
    match value {
        Some(value) => value_digit(value, index),
        None => false,
    }
}
