// Cells and wires of a netlist, from what a raw module says of them.
ghost use Rattle.std.specs.Prelude.{◌≡◌, ◌<◌, ◌^◌, ◌&&◌, not, length, map, filter, Some, None, IfOk, if◌then◌else◌};
ghost use Rattle.std.specs.List.Sorted.{IsStrictlyIncreasing};
ghost use Rattle.cif_defs.specs.Table.{kind_of as kind_of_text, is_table, is_mask};
ghost use Rattle.cif_defs.specs.RawModule.{number_given as number_of_cell, digits_given, digits_read};
ghost use Rattle.cif_defs.specs.Accepted.{place_of as place_of_number, source as source_of, target as target_of, is_input as is_input_port, is_output as is_output_port, wire_of as wire_of_port, numbers_of, tables_of, cell_by, cell_of as cell_of_raw};
ghost use Rattle.cif_defs.specs.Netlist.{no_cell};
ghost use Rattle.cif_kinds.specs.CellView.{numbers_seen, digits_seen};

use cif_checks::raw_access::{digit_count, name_copy, value_digit};
use cif_checks::{KnownCell, PortBits};
use cif_defs::{Kind, Listed, Name, NetBit, Param, ParamValue, RawBit, RawPort, Src, Wire};
use cif_kinds::{Cell, Digits, Given, Sources, Targets, table};
use cif_nets::clock::is_output;
use cif_nets::drives::is_input;
use cif_nets::numbers::place_of;
use std::alloc::{AllocError, Global};

/// The net bit of a net number: its place among the net numbers of the module, or 0 where it isn't one of them.
pub fn net_bit(numbers: &[u64], number: u64) -> NetBit
    requires rising { IsStrictlyIncreasing numbers.now }
    requires few { length numbers.now < 2 ^ 32 }
    ensures { result ≡ place_of_number numbers.now number }
{
    match place_of(numbers, number) {
        Some(place) => place as NetBit,
        None => 0,
    }
}

/// What a bit reads. x and z, which no accepted module reads, stand for 0.
fn source(numbers: &[u64], bit: RawBit) -> Src
    requires rising { IsStrictlyIncreasing numbers.now }
    requires few { length numbers.now < 2 ^ 32 }
    ensures { result ≡ source_of numbers.now bit }
{
    match bit {
        RawBit::Net(number) => Src::Bit(net_bit(numbers, number)),
        RawBit::One => Src::One,
        RawBit::Zero | RawBit::X | RawBit::Z => Src::Zero,
    }
}

/// The net bit that an output bit drives; None where it isn't connected.
fn target(numbers: &[u64], bit: RawBit) -> Option<NetBit>
    requires rising { IsStrictlyIncreasing numbers.now }
    requires few { length numbers.now < 2 ^ 32 }
    ensures { result ≡ target_of numbers.now bit }
{
    match bit {
        RawBit::Net(number) => Some(net_bit(numbers, number)),
        RawBit::Zero | RawBit::One | RawBit::X | RawBit::Z => None,
    }
}

/// What some bits read.
pub fn sources(alloc: Global, numbers: &[u64], bits: &[RawBit]) -> Result<Vec<Src>, AllocError>
    requires rising { IsStrictlyIncreasing numbers.now }
    requires few { length numbers.now < 2 ^ 32 }
    ensures { IfOk result (λ v. v.items ≡ map (source_of numbers.now) bits.now) }
{
    bits.iter().map(|bit| source(numbers, *bit)).collect(alloc)
}

/// What some output bits drive.
fn targets(
    alloc: Global,
    numbers: &[u64],
    bits: &[RawBit],
) -> Result<Vec<Option<NetBit>>, AllocError>
    requires rising { IsStrictlyIncreasing numbers.now }
    requires few { length numbers.now < 2 ^ 32 }
    ensures { IfOk result (λ v. v.items ≡ map (target_of numbers.now) bits.now) }
{
    bits.iter().map(|bit| target(numbers, *bit)).collect(alloc)
}

/// What the operands of a cell read, where `ports` is what it connects to them.
fn operands(alloc: Global, numbers: &[u64], ports: &[PortBits]) -> Result<Vec<Sources>, AllocError>
    requires rising { IsStrictlyIncreasing numbers.now }
    requires few { length numbers.now < 2 ^ 32 }
    ensures { IfOk result (λ v. v.items ≡ map (λ bits. map (source_of numbers.now) bits) ports.now) }
{
    let mut operands = Vec::new(alloc);
    for bits in ports {
        let read = sources(alloc, numbers, bits.items())?;
        operands.push(Listed::of(read))?;
    }
    Ok(operands)
}

/// What the outputs of a cell drive, where `ports` is what it connects to them.
fn outputs(alloc: Global, numbers: &[u64], ports: &[PortBits]) -> Result<Vec<Targets>, AllocError>
    requires rising { IsStrictlyIncreasing numbers.now }
    requires few { length numbers.now < 2 ^ 32 }
    ensures { IfOk result (λ v. v.items ≡ map (λ bits. map (target_of numbers.now) bits) ports.now) }
{
    let mut outputs = Vec::new(alloc);
    for bits in ports {
        let driven = targets(alloc, numbers, bits.items())?;
        outputs.push(Listed::of(driven))?;
    }
    Ok(outputs)
}

/// The number that a cell gives for a parameter that is neither a table nor a mask.
fn plain_number(cell: &KnownCell, param: Param) -> Option<u64>
    ensures { result ≡ (if not (is_table param) && not (is_mask param) then number_of_cell cell.now param else None) }
{
    if table::is_table(param) || table::is_mask(param) {
        None
    } else {
        cell.number_given(param)
    }
}

/// The numbers that a cell gives for those parameters that are neither tables nor masks.
fn numbers_given(
    alloc: Global,
    cell: &KnownCell,
    params: &[Param],
) -> Result<Vec<Given>, AllocError>
    ensures { IfOk result (λ v. numbers_seen v.items ≡ numbers_of cell.now params.now) }
{
    let mut numbers = Vec::new(alloc);
    for param in params {
        if let Some(number) = plain_number(cell, *param) {
            numbers.push(Given {
                param: *param,
                number,
            })?;
        }
    }
    Ok(numbers)
}

/// The digits of a value, lowest first, where x and z are 0.
fn value_digits(alloc: Global, value: &ParamValue) -> Result<Vec<bool>, AllocError>
    ensures { IfOk result (λ v. v.items ≡ digits_read value.now) }
{
    let mut digits = Vec::new(alloc);
    for index in 0..digit_count(value) {
        digits.push(value_digit(value, index))?;
    }
    Ok(digits)
}

/// The digits that a cell gives for a parameter, lowest first, where x and z are 0; none where it gives no value.
fn param_digits(alloc: Global, cell: &KnownCell, param: Param) -> Result<Vec<bool>, AllocError>
    ensures { IfOk result (λ v. v.items ≡ digits_given cell.now param) }
{
    match cell.value(param) {
        Some(value) => value_digits(alloc, value),
        None => Ok(Vec::new(alloc)),
    }
}

/// The digits that a cell gives for those parameters that are tables.
fn tables_given(
    alloc: Global,
    cell: &KnownCell,
    params: &[Param],
) -> Result<Vec<Digits>, AllocError>
    ensures { IfOk result (λ v. digits_seen v.items ≡ tables_of cell.now params.now) }
{
    let mut tables = Vec::new(alloc);
    for param in params {
        if table::is_table(*param) {
            let bits = Listed::of(param_digits(alloc, cell, *param)?);
            tables.push(Digits {
                param: *param,
                bits,
            })?;
        }
    }
    Ok(tables)
}

/// A cell of a kind.
fn known_cell(
    alloc: Global,
    numbers: &[u64],
    cell: &KnownCell,
    kind: Kind,
) -> Result<Cell, AllocError>
    requires known { kind_of_text cell.now.kind ≡ Some kind }
    requires rising { IsStrictlyIncreasing numbers.now }
    requires few { length numbers.now < 2 ^ 32 }
    ensures { IfOk result (λ c. c ≡ cell_by numbers.now cell.now (Some kind)) }
{
    let name = name_copy(alloc, cell.name())?;
    let given = numbers_given(alloc, cell, table::parameters(kind))?;
    let digits = tables_given(alloc, cell, table::parameters(kind))?;
    let read = operands(alloc, numbers, cell.operands())?;
    let driven = outputs(alloc, numbers, cell.outputs())?;
    Ok(Cell::of(name, kind, given, digits, read, driven))
}

/// A cell without name, parameters and ports.
fn empty_cell(alloc: Global) -> Cell
    ensures { result ≡ no_cell }
{
    Cell::of(
        Name::of(Vec::new(alloc)),
        Kind::ScopeInfo,
        Vec::new(alloc),
        Vec::new(alloc),
        Vec::new(alloc),
        Vec::new(alloc),
    )
}

/// The cell that a raw cell stands for, where `numbers` are the net numbers of its module. A cell of a type that the
/// table of kinds lacks, which no accepted module has, stands for one without parameters and ports.
#[tactic(auto, unfolding(cif_defs::specs::Accepted::cell_of))]
pub fn cell_of(alloc: Global, numbers: &[u64], cell: &KnownCell) -> Result<Cell, AllocError>
    requires rising { IsStrictlyIncreasing numbers.now }
    requires few { length numbers.now < 2 ^ 32 }
    ensures { IfOk result (λ c. c ≡ cell_of_raw numbers.now cell.now) }
{
    match cell.kind() {
        Some(kind) => known_cell(alloc, numbers, cell, kind),
        None => Ok(empty_cell(alloc)),
    }
}

/// The cells that raw cells stand for, where `numbers` are the net numbers of their module.
pub fn cells_of(
    alloc: Global,
    numbers: &[u64],
    cells: &[KnownCell],
) -> Result<Vec<Cell>, AllocError>
    requires rising { IsStrictlyIncreasing numbers.now }
    requires few { length numbers.now < 2 ^ 32 }
    ensures { IfOk result (λ v. v.items ≡ map (cell_of_raw numbers.now) cells.now) }
{
    let mut assembled = Vec::new(alloc);
    for cell in cells {
        assembled.push(cell_of(alloc, numbers, cell)?)?;
    }
    Ok(assembled)
}

/// The wire that a port of the module stands for, where `numbers` are the net numbers of the module.
pub fn wire_of(alloc: Global, numbers: &[u64], port: &RawPort) -> Result<Wire, AllocError>
    requires rising { IsStrictlyIncreasing numbers.now }
    requires few { length numbers.now < 2 ^ 32 }
    ensures { IfOk result (λ w. w ≡ wire_of_port numbers.now port.now) }
{
    let name = name_copy(alloc, port.name.items())?;
    let bits = sources(alloc, numbers, port.bits.items())?;
    Ok(Wire::of(name, bits))
}

/// The wires that the input ports of a module stand for, where `numbers` are its net numbers.
pub fn inputs_of(alloc: Global, numbers: &[u64], ports: &[RawPort]) -> Result<Vec<Wire>, AllocError>
    requires rising { IsStrictlyIncreasing numbers.now }
    requires few { length numbers.now < 2 ^ 32 }
    ensures { IfOk result (λ v. v.items ≡ map (wire_of_port numbers.now) (filter is_input_port ports.now)) }
{
    let mut wires = Vec::new(alloc);
    for port in ports {
        if is_input(port) {
            wires.push(wire_of(alloc, numbers, port)?)?;
        }
    }
    Ok(wires)
}

/// The wires that the output ports of a module stand for, where `numbers` are its net numbers.
pub fn outputs_of(
    alloc: Global,
    numbers: &[u64],
    ports: &[RawPort],
) -> Result<Vec<Wire>, AllocError>
    requires rising { IsStrictlyIncreasing numbers.now }
    requires few { length numbers.now < 2 ^ 32 }
    ensures { IfOk result (λ v. v.items ≡ map (wire_of_port numbers.now) (filter is_output_port ports.now)) }
{
    let mut wires = Vec::new(alloc);
    for port in ports {
        if is_output(port) {
            wires.push(wire_of(alloc, numbers, port)?)?;
        }
    }
    Ok(wires)
}
