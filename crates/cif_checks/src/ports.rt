// Counts, and the ports of a module.
ghost use Rattle.std.specs.Prelude.{◌≡◌, ◌≤◌, ◌++◌, [], length, None, IsOk, IfErr};
ghost use Rattle.cif_defs.specs.RawModule.{nets_in, net_numbers};
ghost use Rattle.cif_checks.specs.Checks.{IsFirst, counts_fault, constant_input, input_clash, input_fault, port_fault, seen_after, ports_fault};
ghost use Rattle.cif_checks.specs.InputNumbers.{HoldSame};

use crate::fault::{BuildFault, Spot};
use crate::raw_access::name_copy;
use cif_defs::{Direction, Raw, RawBit, RawPort};
use std::alloc::Global;
use std::collections::BTreeSet;

/// The most cells of a module.
const CELL_LIMIT: usize = 400_000;

/// The most net bits of a module.
const NET_LIMIT: u64 = 4_194_304;

/// The most bits of a port of the module.
const PORT_LIMIT: usize = 4_096;

/// Checks how many cells and net bits a module has, where `bits` is the number of its net bits.
#[tactic(auto, unfolding(crate::specs::Checks::counts_fault))]
pub fn check_counts(raw: &Raw, bits: u64) -> Result<(), BuildFault>
    requires { bits ≡ length (net_numbers raw.now) }
    ensures ok { IsOk result → counts_fault raw.now ≡ None }
    ensures err { IfErr result (λ e. IsFirst (counts_fault raw.now) e) }
    ensures few_cells { IsOk result → length raw.now.cells ≤ 400000 }
    ensures few_bits { IsOk result → bits ≤ 4194304 }
{
    let cells = raw.cells.items().len();
    if cells > CELL_LIMIT {
        return Err(BuildFault::TooManyCells(cells as u64));
    }
    if bits > NET_LIMIT {
        return Err(BuildFault::TooManyBits(bits));
    }
    Ok(())
}

/// Checks that each bit of an input port is a net number.
fn check_constants(alloc: Global, port: &RawPort) -> Result<(), BuildFault>
    requires { length port.now.bits ≤ 4096 }
    ensures ok { IsOk result → constant_input port.now ≡ None }
    ensures err { IfErr result (λ e. IsFirst (constant_input port.now) e) }
{
    for (index, bit) in port.bits.items().iter().enumerate() {
        if !matches!(*bit, RawBit::Net(_)) {
            let name = name_copy(alloc, port.name.items())?;
            return Err(BuildFault::ConstantOutput(Spot::Port(name), index as u32));
        }
    }
    Ok(())
}

/// Checks that no net number of an input port stands at an earlier input place; `seen` has the numbers at those, and
/// receives the port's.
fn check_clashes(bits: &[RawBit], seen: &mut BTreeSet<u64>) -> Result<(), BuildFault>
    ensures ok { IsOk result → input_clash seen.old.keys (nets_in bits.now) ≡ None }
    ensures err { IfErr result (λ e. IsFirst (input_clash seen.old.keys (nets_in bits.now)) e) }
    ensures after { IsOk result → HoldSame seen.new.keys (nets_in bits.now ++ seen.old.keys) }
{
    for bit in bits {
        if let RawBit::Net(number) = *bit {
            match seen.insert(number) {
                Ok(true) => {}
                Ok(false) => return Err(BuildFault::PortClash(number)),
                Err(_) => return Err(BuildFault::Memory),
            }
        }
    }
    Ok(())
}

/// Checks the bits of a port, where it is an input.
fn check_input(alloc: Global, port: &RawPort, seen: &mut BTreeSet<u64>) -> Result<(), BuildFault>
    requires { length port.now.bits ≤ 4096 }
    ensures ok { IsOk result → input_fault seen.old.keys port.now ≡ None }
    ensures err { IfErr result (λ e. IsFirst (input_fault seen.old.keys port.now) e) }
    ensures after { IsOk result → HoldSame seen.new.keys (seen_after seen.old.keys port.now) }
{
    match port.direction {
        Direction::Input => {
            check_constants(alloc, port)?;
            check_clashes(port.bits.items(), seen)
        }
        Direction::Output | Direction::Inout => Ok(()),
    }
}

/// Checks a port of the module; `seen` has the net numbers at earlier input places, and receives the port's.
fn check_port(alloc: Global, port: &RawPort, seen: &mut BTreeSet<u64>) -> Result<(), BuildFault>
    ensures ok { IsOk result → port_fault seen.old.keys port.now ≡ None }
    ensures err { IfErr result (λ e. IsFirst (port_fault seen.old.keys port.now) e) }
    ensures after { IsOk result → HoldSame seen.new.keys (seen_after seen.old.keys port.now) }
{
    if matches!(port.direction, Direction::Inout) {
        return Err(BuildFault::InoutPort(name_copy(alloc, port.name.items())?));
    }
    let count = port.bits.items().len();
    if count == 0 {
        let name = name_copy(alloc, port.name.items())?;
        return Err(BuildFault::ZeroWidth(Spot::Port(name)));
    }
    if count > PORT_LIMIT {
        let name = name_copy(alloc, port.name.items())?;
        return Err(BuildFault::WidthLimit(Spot::Port(name)));
    }
    check_input(alloc, port, seen)
}

/// Checks the ports of a module, in byte order of name.
#[tactic(auto, unfolding(crate::specs::Checks::ports_fault))]
pub fn check_ports(alloc: Global, raw: &Raw) -> Result<(), BuildFault>
    ensures ok { IsOk result → ports_fault raw.now ≡ None }
    ensures err { IfErr result (λ e. IsFirst (ports_fault raw.now) e) }
{
    let mut seen = BTreeSet::new(alloc);
    for port in raw.ports.items() {
        check_port(alloc, port, &mut seen)?;
    }
    Ok(())
}
