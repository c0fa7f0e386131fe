// Wires by name: netnames come first, then ports.
ghost use Rattle.std.specs.Prelude.{◌≡◌, map, Some, IfOk};
ghost use Rattle.std.specs.List.{list_all};
ghost use Rattle.cif_defs.specs.Order.{IsInOrder};
ghost use Rattle.cif_cells.specs.Building.{clock_number as clock_number_of, is_number};
ghost use Rattle.cif_cells.specs.Finding.{is_two_valued as is_two_valued_bit, are_two_valued as are_two_valued_bits, wire_if as wire_if_of, found_as, found_of};
ghost use Rattle.cif_nets.specs.Nets.{is_driven as is_driven_by};
ghost use Rattle.cif_cells.specs.Wires.{HoldsWires, wire_of_name, wire_of_port, found_seen};

use crate::assemble::sources;
use crate::drivers::clock_number;
use cif_checks::raw_access::name_copy;
use cif_defs::{Raw, RawBit, RawName, RawPort, Wire, place_in_order};
use cif_nets::Nets;
use cif_nets::drives::DrivenBy;
use std::alloc::{AllocError, Global};

/// The most bits that a wire may have.
const WIRE_LIMIT: usize = 65_536;

/// What stands under a name.
#[derive(Debug, Drop)]
pub enum Found<'a> {
    /// A wire, each bit of which is a constant or a net bit with a driver that isn't the clock.
    Wire(&'a Wire),
    /// The name has no bits, more than 65,536 bits, an x or z, the clock, or a bit without a driver.
    NotTwoValued,
    /// Neither a netname nor a port has the name.
    Missing,
}

/// The wires of a module's netnames and those of its ports, in the order in which they stand there; None stands for a wire
/// that isn't two-valued.
#[derive(Debug, Drop)]
pub struct Wires {
    names: Vec<Option<Wire>>,
    ports: Vec<Option<Wire>>,
}

/// Whether a number is the clock.
fn is_clock(clock: Option<u64>, number: u64) -> bool
    ensures { result ≡ is_number clock number }
{
    match clock {
        Some(clock) => clock == number,
        None => false,
    }
}

/// Whether anything drives a number.
fn is_driven(drive: DrivenBy) -> bool
    ensures { result ≡ is_driven_by drive }
{
    match drive {
        DrivenBy::One(_) | DrivenBy::Several => true,
        DrivenBy::Nothing => false,
    }
}

/// Whether a bit is a constant, or a number with a driver that isn't the clock.
fn is_two_valued(nets: &Nets, clock: Option<u64>, bit: RawBit) -> bool
    requires { clock ≡ clock_number_of nets.now }
    ensures { result ≡ is_two_valued_bit nets.now bit }
{
    match bit {
        RawBit::Net(number) => !is_clock(clock, number) && is_driven(nets.driven_by(number)),
        RawBit::Zero | RawBit::One => true,
        RawBit::X | RawBit::Z => false,
    }
}

/// Whether each of some bits is two-valued.
fn each_two_valued(nets: &Nets, clock: Option<u64>, bits: &[RawBit]) -> bool
    requires { clock ≡ clock_number_of nets.now }
    ensures { result ≡ list_all (is_two_valued_bit nets.now) bits.now }
{
    for bit in bits {
        if !is_two_valued(nets, clock, *bit) {
            return false;
        }
    }
    true
}

/// Whether some bits are a wire: neither none nor too many, and each two-valued.
fn are_two_valued(nets: &Nets, clock: Option<u64>, bits: &[RawBit]) -> bool
    requires { clock ≡ clock_number_of nets.now }
    ensures { result ≡ are_two_valued_bits nets.now bits.now }
{
    !bits.is_empty() && bits.len() <= WIRE_LIMIT && each_two_valued(nets, clock, bits)
}

/// The wire of a name and its bits; None where it isn't two-valued.
fn wire_if(
    alloc: Global,
    nets: &Nets,
    clock: Option<u64>,
    name: &[u8],
    bits: &[RawBit],
) -> Result<Option<Wire>, AllocError>
    requires { clock ≡ clock_number_of nets.now }
    ensures { IfOk result (λ w. w ≡ wire_if_of nets.now name.now bits.now) }
{
    if !are_two_valued(nets, clock, bits) {
        return Ok(None);
    }
    let read = sources(alloc, nets.numbers(), bits)?;
    Ok(Some(Wire::of(name_copy(alloc, name)?, read)))
}

/// The wires of netnames.
fn wires_of_names(
    alloc: Global,
    nets: &Nets,
    clock: Option<u64>,
    names: &[RawName],
) -> Result<Vec<Option<Wire>>, AllocError>
    requires { clock ≡ clock_number_of nets.now }
    ensures { IfOk result (λ v. v.items ≡ map (wire_of_name nets.now) names.now) }
{
    let mut wires = Vec::with_capacity(alloc, names.len())?;
    for name in names {
        wires.push(wire_if(alloc, nets, clock, name.name.items(), name.bits.items())?)?;
    }
    Ok(wires)
}

/// The wires of ports.
fn wires_of_ports(
    alloc: Global,
    nets: &Nets,
    clock: Option<u64>,
    ports: &[RawPort],
) -> Result<Vec<Option<Wire>>, AllocError>
    requires { clock ≡ clock_number_of nets.now }
    ensures { IfOk result (λ v. v.items ≡ map (wire_of_port nets.now) ports.now) }
{
    let mut wires = Vec::with_capacity(alloc, ports.len())?;
    for port in ports {
        wires.push(wire_if(alloc, nets, clock, port.name.items(), port.bits.items())?)?;
    }
    Ok(wires)
}

/// The wires of all names of a module.
pub fn wires_of(alloc: Global, nets: &Nets) -> Result<Wires, AllocError>
    ensures { IfOk result (λ wires. HoldsWires nets.now wires) }
{
    let known = nets.known();
    let clock = clock_number(nets);
    let names = wires_of_names(alloc, nets, clock, known.names())?;
    let ports = wires_of_ports(alloc, nets, clock, known.ports())?;
    Ok(Wires { names, ports })
}

/// A wire that is kept.
fn kept(wire: &Option<Wire>) -> Found<'_>
    ensures { found_seen result ≡ found_as (Some wire.now) }
{
    match wire {
        Some(wire) => Found::Wire(wire),
        None => Found::NotTwoValued,
    }
}

/// What stands under a name of a module with these wires: a netname, or else a port.
pub fn found_in<'a>(raw: &Raw, wires: &'a Wires, name: &[u8]) -> Found<'a>
    requires in_order { IsInOrder raw.now }
    requires wires { HoldsWires raw.now wires.now }
    ensures { found_seen result ≡ found_of raw.now name.now }
{
    let names = wires.names.as_slice();
    let ports = wires.ports.as_slice();
    if let Some(place) = place_in_order(raw.names.items(), name) {
        return kept(&names[place]);
    }
    match place_in_order(raw.ports.items(), name) {
        Some(place) => kept(&ports[place]),
        None => Found::Missing,
    }
}
