// Checks of a cell's parameters.
ghost use Rattle.std.specs.Prelude.{◌≡◌, not, None, IsOk, IfOk, IfErr};
ghost use Rattle.std.specs.List.{list_all};
ghost use Rattle.cif_defs.specs.Kinds.{role_of};
ghost use Rattle.cif_defs.specs.Words.{word, bit};
ghost use Rattle.cif_defs.specs.Table.{parameters_of};
ghost use Rattle.cif_defs.specs.RawModule.{digits_read};
ghost use Rattle.cif_checks.specs.Checks.{IsFirst, first_fault, fault_if, is_table_digit, is_table_value as is_value_of_table, has_table as gives_table, has_value as gives_value, bad_parameter as bad_parameter_of, slice_fault, parameters_fault, mask_digits, has_digit, has_bad_form as is_bad_form, memory_form};

use crate::fault::BuildFault;
use crate::known::KnownCell;
use crate::raw_access::{digit_count, name_copy, number_below_limit, value_digit};
use cif_defs::{Kind, Param, ParamValue, Role};
use cif_kinds::table;
use std::alloc::{AllocError, Global};

/// The most address bits of a memory.
const ADDRESS_LIMIT: u64 = 32;

/// Whether each byte of a text is a digit `0`, `1`, `x` or `z`.
fn has_only_table_digits(text: &[u8]) -> bool
    ensures { result ≡ list_all is_table_digit text.now }
{
    for byte in text {
        if !matches!(*byte, b'0' | b'1' | b'x' | b'z') {
            return false;
        }
    }
    true
}

/// Whether a value is good where x and z may stand in it: a text of digits, also of none, or a whole number below
/// 2 to the 32.
fn is_table_value(value: &ParamValue) -> bool
    ensures { result ≡ is_value_of_table value.now }
{
    match value {
        ParamValue::Text(text) => has_only_table_digits(text.items()),
        ParamValue::Number(number) => number_below_limit(*number).is_some(),
    }
}

/// Whether a cell gives a parameter a value in which x and z may stand.
fn has_table(cell: &KnownCell, param: Param) -> bool
    ensures { result ≡ gives_table cell.now param }
{
    match cell.value(param) {
        Some(value) => is_table_value(value),
        None => false,
    }
}

/// Whether a cell gives a parameter a good value.
fn has_value(cell: &KnownCell, param: Param) -> bool
    ensures { result ≡ gives_value cell.now param }
{
    if table::is_table(param) || table::is_mask(param) {
        has_table(cell, param)
    } else {
        cell.number_given(param).is_some()
    }
}

/// The refusal of a cell's parameter.
fn bad_parameter(alloc: Global, cell: &KnownCell, param: Param) -> Result<BuildFault, AllocError>
    ensures { IfOk result (λ fault. fault ≡ bad_parameter_of cell.now param) }
{
    let name = name_copy(alloc, cell.name())?;
    let parameter = name_copy(alloc, table::param_name(param).as_bytes())?;
    Ok(BuildFault::BadParameter(name, parameter))
}

/// Checks that a cell gives each parameter of its kind.
fn check_given(alloc: Global, cell: &KnownCell, kind: Kind) -> Result<(), BuildFault>
    ensures ok { IsOk result
        → first_fault (λ p. fault_if (not (gives_value cell.now p)) (bad_parameter_of cell.now p)) (parameters_of kind) ≡ None }
    ensures err { IfErr result
        (λ e. IsFirst (first_fault (λ p. fault_if (not (gives_value cell.now p)) (bad_parameter_of cell.now p)) (parameters_of kind)) e) }
{
    for param in table::parameters(kind) {
        if !has_value(cell, *param) {
            return Err(bad_parameter(alloc, cell, *param)?);
        }
    }
    Ok(())
}

/// Checks that a slice lies inside its operand.
fn check_slice(alloc: Global, cell: &KnownCell, kind: Kind) -> Result<(), BuildFault>
    ensures ok { IsOk result → slice_fault cell.now kind ≡ None }
    ensures err { IfErr result (λ e. IsFirst (slice_fault cell.now kind) e) }
{
    match kind {
        Kind::Slice => {
            let end = cell.number(Param::Offset) + cell.number(Param::YWidth);
            if cell.number(Param::AWidth) < end {
                return Err(bad_parameter(alloc, cell, Param::Offset)?);
            }
            Ok(())
        }
        _ => Ok(()),
    }
}

/// Checks the parameters of a cell.
pub fn check_parameters(alloc: Global, cell: &KnownCell, kind: Kind) -> Result<(), BuildFault>
    ensures ok { IsOk result → parameters_fault cell.now kind ≡ None }
    ensures err { IfErr result (λ e. IsFirst (parameters_fault cell.now kind) e) }
{
    check_given(alloc, cell, kind)?;
    check_slice(alloc, cell, kind)
}

/// Whether a digit among the lowest ones of a value is the wanted one, where a missing digit is 0.
fn has_value_digit(value: &ParamValue, count: u64, wanted: bool) -> bool
    ensures { result ≡ has_digit wanted (word count (λ i. bit (digits_read value.now) i)) }
{
    let given = digit_count(value);
    for index in 0..count.min(given) {
        if value_digit(value, index) == wanted {
            return true;
        }
    }
    !wanted && given < count
}

/// Whether a digit among those of a mask that a number of ports use is the wanted one.
fn has_mask_digit(cell: &KnownCell, mask: Param, ports: u64, wanted: bool) -> bool
    ensures { result ≡ has_digit wanted (mask_digits cell.now mask ports) }
{
    match cell.value(mask) {
        Some(value) => has_value_digit(value, ports, wanted),
        None => !wanted && 0 < ports,
    }
}

/// Whether a memory has a form that isn't read: no bits in a word, no words, no address bits or too many, a clocked
/// read port, a write port without a clock, or a port that continues another.
fn has_bad_form(cell: &KnownCell) -> bool
    ensures { result ≡ is_bad_form cell.now }
{
    let address_bits = cell.number(Param::Abits);
    let reads = cell.number(Param::RdPorts);
    let writes = cell.number(Param::WrPorts);
    (cell.number(Param::Width) == 0)
        | (cell.number(Param::Size) == 0)
        | (address_bits == 0)
        | (ADDRESS_LIMIT < address_bits)
        | has_mask_digit(cell, Param::RdClkEnable, reads, true)
        | has_mask_digit(cell, Param::RdWideContinuation, reads, true)
        | has_mask_digit(cell, Param::WrClkEnable, writes, false)
        | has_mask_digit(cell, Param::WrWideContinuation, writes, true)
}

/// Checks the form of a memory.
pub fn check_form(alloc: Global, cell: &KnownCell, kind: Kind) -> Result<(), BuildFault>
    ensures ok { IsOk result → memory_form cell.now (role_of kind) ≡ None }
    ensures err { IfErr result (λ e. IsFirst (memory_form cell.now (role_of kind)) e) }
{
    match table::role(kind) {
        Role::MemoryBlock => {
            if has_bad_form(cell) {
                let name = name_copy(alloc, cell.name())?;
                return Err(BuildFault::MemoryForm(name));
            }
            Ok(())
        }
        _ => Ok(()),
    }
}
