// The check of bits that are read.
ghost use Rattle.std.specs.Prelude.{◌≡◌, ◌<◌, ◌≤◌, ◌^◌, length, map, filter, None, IsOk, IfErr};
ghost use Rattle.std.specs.List.{All};
ghost use Rattle.cif_defs.specs.Table.{kind_of as kind_of_text, operands_of};
ghost use Rattle.cif_defs.specs.RawModule.{port_bits as bits_of_port};
ghost use Rattle.cif_defs.specs.Accepted.{is_output as is_output_port};
ghost use Rattle.cif_checks.specs.Checks.{IsFirst, first_fault, cell_fault, operand_fault, operands_fault_by, shown_fault, reads_fault};
ghost use Rattle.cif_checks.specs.Known.{bits_at};
ghost use Rattle.cif_nets.specs.CellReads.{cell_reads};
ghost use Rattle.cif_nets.specs.Reads.{bad_bit as bad_bit_of, first_bad as first_bad_of, bad_fault};

use crate::clock::is_output;
use crate::drives::DrivenBy;
use crate::nets::Nets;
use cif_checks::raw_access::name_copy;
use cif_checks::{BuildFault, KnownCell, Spot, port_names};
use cif_defs::{PortRow, RawBit, RawPort};
use cif_kinds::table;
use std::alloc::Global;

/// A bit that is read although it has no value.
#[derive(Clone, Copy, Debug, Drop)]
pub enum BadBit {
    /// x or z, at a place.
    Undefined(u32),
    /// A number that nothing drives.
    NoDriver(u64),
}

impl BadBit {
    /// The fault where it stands at this port.
    fn fault(self, spot: Spot) -> BuildFault
        ensures { result ≡ bad_fault spot self }
    {
        match self {
            BadBit::Undefined(index) => BuildFault::XOperand(spot, index),
            BadBit::NoDriver(number) => BuildFault::Undriven(number),
        }
    }
}

/// Whether a bit at a place is bad.
fn bad_bit(nets: &Nets, index: u32, bit: RawBit) -> Option<BadBit>
    ensures { result ≡ bad_bit_of nets.now index bit }
{
    match bit {
        RawBit::Net(number) => match nets.driven_by(number) {
            DrivenBy::Nothing => Some(BadBit::NoDriver(number)),
            DrivenBy::One(_) | DrivenBy::Several => None,
        },
        RawBit::Zero | RawBit::One => None,
        RawBit::X | RawBit::Z => Some(BadBit::Undefined(index)),
    }
}

/// The first bad one of some bits.
fn first_bad(nets: &Nets, bits: &[RawBit]) -> Option<BadBit>
    requires { length bits.now < 2 ^ 32 }
    ensures { result ≡ first_bad_of nets.now 0 bits.now }
{
    for (index, bit) in bits.iter().enumerate() {
        if let Some(bad) = bad_bit(nets, index as u32, *bit) {
            return Some(bad);
        }
    }
    None
}

/// Checks the bits of an operand of a cell.
#[tactic(auto, using(crate::proofs::ReadLaws::reads_are))]
fn check_operand(
    alloc: Global,
    nets: &Nets,
    cell: &KnownCell,
    row: &PortRow,
    bits: &[RawBit],
) -> Result<(), BuildFault>
    requires same { bits.now ≡ bits_of_port cell.now row.now }
    requires few { length (bits_of_port cell.now row.now) ≤ 65536 }
    ensures ok { IsOk result → operand_fault nets.now cell.now row.now ≡ None }
    ensures err { IfErr result (λ e. IsFirst (operand_fault nets.now cell.now row.now) e) }
{
    match first_bad(nets, bits) {
        Some(bad) => Err(bad.fault(port_names(alloc, cell.raw(), row)?)),
        None => Ok(()),
    }
}

/// Checks the bits of the operands of a cell, where `rows` are those of its kind.
fn check_operands(
    alloc: Global,
    nets: &Nets,
    cell: &KnownCell,
    rows: &[PortRow],
) -> Result<(), BuildFault>
    requires known { bits_at operands_of cell.now ≡ map (bits_of_port cell.now) rows.now }
    requires few { All (λ r. length (bits_of_port cell.now r) ≤ 65536) rows.now }
    ensures ok { IsOk result → first_fault (operand_fault nets.now cell.now) rows.now ≡ None }
    ensures err { IfErr result (λ e. IsFirst (first_fault (operand_fault nets.now cell.now) rows.now) e) }
{
    let ports = cell.operands();
    for (port, row) in rows.iter().enumerate() {
        let bits = &ports[port];
        check_operand(alloc, nets, cell, row, bits.items())?;
    }
    Ok(())
}

/// Checks the bits that a cell reads; the cell has passed its checks.
fn check_cell(alloc: Global, nets: &Nets, cell: &KnownCell) -> Result<(), BuildFault>
    requires { cell_fault cell.now ≡ None }
    ensures ok { IsOk result → cell_reads nets.now cell.now ≡ None }
    ensures err { IfErr result (λ e. IsFirst (cell_reads nets.now cell.now) e) }
{
    match cell.kind() {
        Some(kind) => check_operands(alloc, nets, cell, table::operands(kind)),
        None => Ok(()),
    }
}

/// Checks the bits that all cells read; the cells have passed their checks.
fn check_cells(alloc: Global, nets: &Nets, cells: &[KnownCell]) -> Result<(), BuildFault>
    requires { All (λ c. cell_fault c ≡ None) cells.now }
    ensures ok { IsOk result → first_fault (cell_reads nets.now) cells.now ≡ None }
    ensures err { IfErr result (λ e. IsFirst (first_fault (cell_reads nets.now) cells.now) e) }
{
    for cell in cells {
        check_cell(alloc, nets, cell)?;
    }
    Ok(())
}

/// Checks the bits that a port shows.
#[tactic(auto, using(crate::proofs::ReadLaws::reads_are))]
fn check_port(alloc: Global, nets: &Nets, port: &RawPort) -> Result<(), BuildFault>
    requires { length port.now.bits ≤ 4096 }
    ensures ok { IsOk result → shown_fault nets.now port.now ≡ None }
    ensures err { IfErr result (λ e. IsFirst (shown_fault nets.now port.now) e) }
{
    match first_bad(nets, port.bits.items()) {
        Some(bad) => {
            let name = name_copy(alloc, port.name.items())?;
            Err(bad.fault(Spot::Port(name)))
        }
        None => Ok(()),
    }
}

/// Checks the bits that the output ports show.
fn check_ports(alloc: Global, nets: &Nets, ports: &[RawPort]) -> Result<(), BuildFault>
    requires { All (λ p. length p.bits ≤ 4096) ports.now }
    ensures ok { IsOk result → first_fault (shown_fault nets.now) (filter is_output_port ports.now) ≡ None }
    ensures err { IfErr result (λ e. IsFirst (first_fault (shown_fault nets.now) (filter is_output_port ports.now)) e) }
{
    for port in ports {
        if is_output(port) {
            check_port(alloc, nets, port)?;
        }
    }
    Ok(())
}

/// Checks that each bit that is read has a value.
pub fn check_reads(alloc: Global, nets: &Nets) -> Result<(), BuildFault>
    ensures ok { IsOk result → reads_fault nets.now ≡ None }
    ensures err { IfErr result (λ e. IsFirst (reads_fault nets.now) e) }
{
    let known = nets.known();
    check_cells(alloc, nets, known.cells())?;
    check_ports(alloc, nets, known.ports())
}
