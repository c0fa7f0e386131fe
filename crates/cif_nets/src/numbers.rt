// The net numbers of a module.
ghost use Rattle.std.specs.Prelude.{◌≡◌, ◌++◌, ◌==◌, ◌<◌, ◌^◌, length, position, option_map, IfOk, OnOk};
ghost use Rattle.std.specs.List.{flat_map};
ghost use Rattle.std.specs.List.Sorted.{IsStrictlyIncreasing};
ghost use Rattle.cif_defs.specs.RawModule.{nets_in, numbers_held as numbers_held_by, net_numbers as net_numbers_of, operand_bits, output_bits, clock_bits};
ghost use Rattle.cif_checks.specs.Known.{joined};

use cif_checks::{KnownCell, KnownModule, PortBits};
use cif_defs::{RawBit, RawPort};
use std::alloc::{AllocError, Global};

/// Appends the net numbers among some bits.
fn push_nets(numbers: &mut Vec<u64>, bits: &[RawBit]) -> Result<(), AllocError>
    ensures { OnOk result (numbers.new.items ≡ numbers.old.items ++ nets_in bits.now) }
{
    for bit in bits {
        if let RawBit::Net(number) = *bit {
            numbers.push(number)?;
        }
    }
    Ok(())
}

/// Appends the net numbers that some ports of a cell hold.
fn push_held(numbers: &mut Vec<u64>, ports: &[PortBits]) -> Result<(), AllocError>
    ensures { OnOk result (numbers.new.items ≡ numbers.old.items ++ nets_in (joined ports.now)) }
{
    for bits in ports {
        push_nets(numbers, bits.items())?;
    }
    Ok(())
}

/// Appends the net numbers that the operands, the outputs and the clocks of a cell hold.
fn push_cell(numbers: &mut Vec<u64>, cell: &KnownCell) -> Result<(), AllocError>
    ensures { OnOk result (numbers.new.items ≡ numbers.old.items ++ (nets_in (operand_bits cell.now) ++ nets_in (output_bits cell.now) ++ nets_in (clock_bits cell.now))) }
{
    push_held(numbers, cell.operands())?;
    push_held(numbers, cell.outputs())?;
    push_held(numbers, cell.clocks())?;
    Ok(())
}

/// Appends the net numbers that the ports of a module hold.
fn push_ports(numbers: &mut Vec<u64>, ports: &[RawPort]) -> Result<(), AllocError>
    ensures { OnOk result (numbers.new.items ≡ numbers.old.items ++ flat_map (λ p. nets_in p.bits) ports.now) }
{
    for port in ports {
        push_nets(numbers, port.bits.items())?;
    }
    Ok(())
}

/// Appends the net numbers that the cells of a module hold.
fn push_cells(numbers: &mut Vec<u64>, cells: &[KnownCell]) -> Result<(), AllocError>
    ensures { OnOk result (numbers.new.items ≡ numbers.old.items ++ flat_map (λ c. nets_in (operand_bits c) ++ nets_in (output_bits c) ++ nets_in (clock_bits c)) cells.now) }
{
    for cell in cells {
        push_cell(numbers, cell)?;
    }
    Ok(())
}

/// The net numbers that the ports and the cells of a module hold, as often as they stand there.
fn numbers_held(alloc: Global, known: &KnownModule) -> Result<Vec<u64>, AllocError>
    ensures { IfOk result (λ v. v.items ≡ numbers_held_by known.now) }
{
    let mut numbers = Vec::new(alloc);
    push_ports(&mut numbers, known.ports())?;
    push_cells(&mut numbers, known.cells())?;
    Ok(numbers)
}

/// The net numbers of a module, rising, each once.
pub fn net_numbers(alloc: Global, known: &KnownModule) -> Result<Vec<u64>, AllocError>
    ensures { IfOk result (λ v. v.items ≡ net_numbers_of known.now) }
{
    let mut numbers = numbers_held(alloc, known)?;
    numbers.sort_unstable();
    numbers.dedup();
    Ok(numbers)
}

/// The place of a number among numbers that rise.
pub fn place_of(numbers: &[u64], number: u64) -> Option<usize>
    requires { IsStrictlyIncreasing numbers.now }
    ensures { result ≡ position (λ n. n == number) numbers.now }
{
    numbers.binary_search(&number).ok()
}
