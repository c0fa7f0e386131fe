// The check of the clock.
ghost use Rattle.std.specs.Prelude.{◌≡◌, ◌&&◌, ◌==◌, List, [], ◌∷◌, map, filter, None, Some, IsOk, IfErr};
ghost use Rattle.std.specs.List.{flat_map};
ghost use Rattle.cif_defs.specs.Kinds.{role_of};
ghost use Rattle.cif_defs.specs.RawModule.{clock_bits as clock_bits_of, operand_bits};
ghost use Rattle.cif_checks.specs.Known.{joined};
ghost use Rattle.cif_defs.specs.Accepted.{is_output as is_output_port};
ghost use Rattle.cif_checks.specs.Checks.{IsFirst, first_fault, reads_number, polarity_by, uses_from, clock_uses, is_only_bit, is_clock_input as is_clock_input_of, is_same_bit as is_same, data_fault, clocks_fault};
ghost use Rattle.cif_nets.specs.Clocks.{first_edge, uses_of, edge_fault, edge_faults, operand_fault, port_fault};

use crate::drives::is_input;
use crate::nets::Nets;
use cif_checks::raw_access::name_copy;
use cif_checks::{BuildFault, KnownCell, KnownModule, PortBits};
use cif_defs::{Direction, Param, RawBit, RawPort, Role};
use cif_kinds::table;
use std::alloc::Global;

/// The clock where it is used: what stands at the port, and the polarity.
#[derive(Clone, Copy, Debug, Drop)]
pub struct ClockEdge {
    pub bit: RawBit,
    pub polarity: u64,
}

/// Whether two bits are one net number.
fn is_same_bit(first: RawBit, second: RawBit) -> bool
    ensures { result ≡ is_same first second }
{
    match (first, second) {
        (RawBit::Net(x), RawBit::Net(y)) => x == y,
        _ => false,
    }
}

/// Whether some bits are a net number alone.
fn is_only(bits: &[RawBit], number: u64) -> bool
    ensures { result ≡ is_only_bit number bits.now }
{
    match bits {
        [RawBit::Net(only)] => *only == number,
        _ => false,
    }
}

/// Whether a bit is that of an input port of one bit.
fn is_clock_input(ports: &[RawPort], bit: RawBit) -> bool
    ensures { result ≡ is_clock_input_of ports.now bit }
{
    let RawBit::Net(number) = bit else {
        return false;
    };
    for port in ports {
        if is_input(port) && is_only(port.bits.items(), number) {
            return true;
        }
    }
    false
}

/// What stands at the clock port of a cell, or at the write ports of a memory; no bits in a cell without a clock.
fn clock_bits<'a>(cell: &'a KnownCell) -> &'a [RawBit]
    ensures { result.now ≡ clock_bits_of cell.now }
{
    match cell.clocks() {
        [bits, ..] => bits.items(),
        [] => &[],
    }
}

/// The polarity of a register's clock, or of write port `index` of a memory.
fn polarity(cell: &KnownCell, role: Role, index: u64) -> u64
    ensures { result ≡ polarity_by cell.now role index }
{
    match role {
        Role::MemoryBlock => u64::from(cell.digit(Param::WrClkPolarity, index)),
        _ => cell.number(Param::ClkPolarity),
    }
}

/// The first use of a clock in a cell.
fn cell_edge(cell: &KnownCell) -> Option<ClockEdge>
    ensures { result ≡ first_edge (uses_of cell.now) }
{
    let kind = cell.kind()?;
    match clock_bits(cell) {
        [bit, ..] => Some(ClockEdge {
            bit: *bit,
            polarity: polarity(cell, table::role(kind), 0),
        }),
        [] => None,
    }
}

/// The first use of a clock in a module.
pub fn first_clock(cells: &[KnownCell]) -> Option<ClockEdge>
    ensures { result ≡ first_edge (flat_map uses_of cells.now) }
{
    for cell in cells {
        if let Some(edge) = cell_edge(cell) {
            return Some(edge);
        }
    }
    None
}

/// The clock that all cells must have, and whether it is the bit of an input port of one bit.
#[derive(Clone, Copy, Debug, Drop)]
struct Wanted {
    edge: ClockEdge,
    is_input: bool,
}

/// Checks a use of the clock.
fn check_use(
    alloc: Global,
    ports: &[RawPort],
    wanted: Wanted,
    cell: &KnownCell,
    used: ClockEdge,
) -> Result<(), BuildFault>
    requires { wanted.is_input ≡ is_clock_input_of ports.now wanted.edge.bit }
    ensures ok { IsOk result → edge_fault ports.now wanted.edge (record { user = cell.now; bit = used.bit; polarity = used.polarity }) ≡ None }
    ensures err { IfErr result (λ e. IsFirst (edge_fault ports.now wanted.edge (record { user = cell.now; bit = used.bit; polarity = used.polarity })) e) }
{
    let is_same = is_same_bit(wanted.edge.bit, used.bit);
    let is_input = if is_same {
        wanted.is_input
    } else {
        is_clock_input(ports, used.bit)
    };
    if !is_input {
        return Err(BuildFault::NoClockInput(name_copy(alloc, cell.name())?));
    }
    if !(is_same && wanted.edge.polarity == used.polarity) {
        return Err(BuildFault::TwoClocks(name_copy(alloc, cell.name())?));
    }
    Ok(())
}

/// Checks the uses of the clock at some clock ports of a cell.
fn check_bits(
    alloc: Global,
    ports: &[RawPort],
    wanted: Wanted,
    cell: &KnownCell,
    role: Role,
    bits: &[RawBit],
) -> Result<(), BuildFault>
    requires { wanted.is_input ≡ is_clock_input_of ports.now wanted.edge.bit }
    ensures ok { IsOk result → first_fault (edge_fault ports.now wanted.edge) (uses_from cell.now role 0 bits.now) ≡ None }
    ensures err { IfErr result (λ e. IsFirst (first_fault (edge_fault ports.now wanted.edge) (uses_from cell.now role 0 bits.now)) e) }
{
    for (index, bit) in bits.iter().enumerate() {
        let used = ClockEdge {
            bit: *bit,
            polarity: polarity(cell, role, index as u64),
        };
        check_use(alloc, ports, wanted, cell, used)?;
    }
    Ok(())
}

/// Checks the uses of the clock in a cell.
fn check_cell(
    alloc: Global,
    ports: &[RawPort],
    wanted: Wanted,
    cell: &KnownCell,
) -> Result<(), BuildFault>
    requires { wanted.is_input ≡ is_clock_input_of ports.now wanted.edge.bit }
    ensures ok { IsOk result → first_fault (edge_fault ports.now wanted.edge) (uses_of cell.now) ≡ None }
    ensures err { IfErr result (λ e. IsFirst (first_fault (edge_fault ports.now wanted.edge) (uses_of cell.now)) e) }
{
    match cell.kind() {
        Some(kind) => {
            let bits = clock_bits(cell);
            check_bits(alloc, ports, wanted, cell, table::role(kind), bits)
        }
        None => Ok(()),
    }
}

/// Checks the uses of the clock in all cells.
fn check_cells(
    alloc: Global,
    ports: &[RawPort],
    wanted: Wanted,
    cells: &[KnownCell],
) -> Result<(), BuildFault>
    requires { wanted.is_input ≡ is_clock_input_of ports.now wanted.edge.bit }
    ensures ok { IsOk result → first_fault (edge_fault ports.now wanted.edge) (flat_map uses_of cells.now) ≡ None }
    ensures err { IfErr result (λ e. IsFirst (first_fault (edge_fault ports.now wanted.edge) (flat_map uses_of cells.now)) e) }
{
    for cell in cells {
        check_cell(alloc, ports, wanted, cell)?;
    }
    Ok(())
}

/// Whether a net number stands among some bits.
fn holds(bits: &[RawBit], number: u64) -> bool
    ensures { result ≡ reads_number number bits.now }
{
    for bit in bits {
        if is_same_bit(*bit, RawBit::Net(number)) {
            return true;
        }
    }
    false
}

/// Whether a net number stands at some ports of a cell.
fn ports_hold(ports: &[PortBits], number: u64) -> bool
    ensures { result ≡ reads_number number (joined ports.now) }
{
    for bits in ports {
        if holds(bits.items(), number) {
            return true;
        }
    }
    false
}

/// Whether a cell reads a net number as an operand.
fn reads(cell: &KnownCell, number: u64) -> bool
    ensures { result ≡ reads_number number (operand_bits cell.now) }
{
    ports_hold(cell.operands(), number)
}

/// Checks that no cell reads the clock as an operand.
fn check_operands(alloc: Global, cells: &[KnownCell], number: u64) -> Result<(), BuildFault>
    ensures ok { IsOk result → first_fault (operand_fault number) cells.now ≡ None }
    ensures err { IfErr result (λ e. IsFirst (first_fault (operand_fault number) cells.now) e) }
{
    for cell in cells {
        if reads(cell, number) {
            return Err(BuildFault::ClockAsData(name_copy(alloc, cell.name())?));
        }
    }
    Ok(())
}

/// Whether a port is an output.
pub fn is_output(port: &RawPort) -> bool
    ensures { result ≡ is_output_port port.now }
{
    matches!(port.direction, Direction::Output)
}

/// Checks that no output port shows the clock.
fn check_outputs(alloc: Global, ports: &[RawPort], number: u64) -> Result<(), BuildFault>
    ensures ok { IsOk result → first_fault (port_fault number) (filter is_output_port ports.now) ≡ None }
    ensures err { IfErr result (λ e. IsFirst (first_fault (port_fault number) (filter is_output_port ports.now)) e) }
{
    for port in ports {
        if is_output(port) && holds(port.bits.items(), number) {
            return Err(BuildFault::ClockAsData(name_copy(alloc, port.name.items())?));
        }
    }
    Ok(())
}

/// Checks that a net number is no data.
fn check_number(alloc: Global, known: &KnownModule, number: u64) -> Result<(), BuildFault>
    ensures ok { IsOk result → data_fault known.now (RawBit.Net number) ≡ None }
    ensures err { IfErr result (λ e. IsFirst (data_fault known.now (RawBit.Net number)) e) }
{
    check_operands(alloc, known.cells(), number)?;
    check_outputs(alloc, known.ports(), number)
}

/// Checks that the clock is no data.
fn check_data(alloc: Global, known: &KnownModule, bit: RawBit) -> Result<(), BuildFault>
    ensures ok { IsOk result → data_fault known.now bit ≡ None }
    ensures err { IfErr result (λ e. IsFirst (data_fault known.now bit) e) }
{
    match bit {
        RawBit::Net(number) => check_number(alloc, known, number),
        _ => Ok(()),
    }
}

/// Checks that all cells have this clock, that it is the bit of an input port of one bit, and that it is no data.
fn check_edge(alloc: Global, known: &KnownModule, edge: ClockEdge) -> Result<(), BuildFault>
    ensures ok { IsOk result → edge_faults known.now edge ≡ None }
    ensures err { IfErr result (λ e. IsFirst (edge_faults known.now edge) e) }
{
    let is_input = is_clock_input(known.ports(), edge.bit);
    let wanted = Wanted { edge, is_input };
    check_cells(alloc, known.ports(), wanted, known.cells())?;
    check_data(alloc, known, edge.bit)
}

/// Checks that all cells have one clock, that it is the bit of an input port of one bit, and that it is no data.
pub fn check_clocks(alloc: Global, nets: &Nets) -> Result<(), BuildFault>
    ensures ok { IsOk result → clocks_fault nets.now ≡ None }
    ensures err { IfErr result (λ e. IsFirst (clocks_fault nets.now) e) }
{
    match nets.clock() {
        Some(edge) => check_edge(alloc, nets.known(), edge),
        None => Ok(()),
    }
}
