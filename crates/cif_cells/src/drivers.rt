// The driver of each net bit.
ghost use Rattle.std.specs.Prelude.{◌≡◌, map, Some, None, IfOk};
ghost use Rattle.cif_defs.specs.RawModule.{net_numbers};
ghost use Rattle.cif_defs.specs.Accepted.{netlist_of};
ghost use Rattle.cif_checks.specs.Checks.{drivers_fault, IsAccepted};
ghost use Rattle.cif_cells.specs.ClockBit.{clock_of};
ghost use Rattle.cif_cells.specs.Building.{clock_number as clock_number_of, driver_read, driver_with, net_number as net_number_of};

use crate::assemble::net_bit;
use cif_defs::{Driver, NetBit, RawBit};
use cif_nets::Nets;
use cif_nets::drives::DrivenBy;
use std::alloc::{AllocError, Global};

/// The number of a net; none of a constant.
fn net_number(bit: RawBit) -> Option<u64>
    ensures { result ≡ net_number_of bit }
{
    match bit {
        RawBit::Net(number) => Some(number),
        RawBit::Zero | RawBit::One | RawBit::X | RawBit::Z => None,
    }
}

/// The net number of the clock; none where no cell has a clock.
pub fn clock_number(nets: &Nets) -> Option<u64>
    ensures { result ≡ clock_number_of nets.now }
{
    match nets.clock() {
        Some(edge) => net_number(edge.bit),
        None => None,
    }
}

/// The driver of a net number.
fn driver_of(clock: Option<u64>, drive: DrivenBy, number: u64) -> Driver
    ensures { result ≡ driver_with clock drive number }
{
    if let Some(clock) = clock {
        if clock == number {
            return Driver::Clock;
        }
    }
    match drive {
        DrivenBy::One(driver) => driver,
        DrivenBy::Nothing | DrivenBy::Several => Driver::Clock,
    }
}

/// The driver of each net bit of a module.
fn drivers_read(alloc: Global, nets: &Nets) -> Result<Vec<Driver>, AllocError>
    ensures { IfOk result (λ v. v.items ≡ map (driver_read nets.now) (net_numbers nets.now)) }
{
    let clock = clock_number(nets);
    let numbers = nets.numbers();
    let mut drivers = Vec::with_capacity(alloc, numbers.len())?;
    for number in numbers {
        drivers.push(driver_of(clock, nets.driven_by(*number), *number))?;
    }
    Ok(drivers)
}

/// The driver of each net bit of a module in which no bit has two.
pub fn drivers_of(alloc: Global, nets: &Nets) -> Result<Vec<Driver>, AllocError>
    requires { drivers_fault nets.now ≡ None }
    ensures { IfOk result (λ v. v.items ≡ (netlist_of nets.now).drivers) }
{
    drivers_read(alloc, nets)
}

/// The net bit of the clock of an accepted module; none where no cell has a clock.
pub fn clock_bit(nets: &Nets) -> Option<NetBit>
    requires { IsAccepted nets.now }
    ensures { result ≡ clock_of nets.now }
{
    match clock_number(nets) {
        Some(number) => Some(net_bit(nets.numbers(), number)),
        None => None,
    }
}
