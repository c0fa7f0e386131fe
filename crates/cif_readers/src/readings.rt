// All operand bits of a netlist that are net bits.
ghost use Rattle.std.specs.Prelude.{◌≤◌, [], length, IfOk, OnOk};
ghost use Rattle.cif_readers.specs.Readings.{Gathers, IsSource, IsAmongBits, IsAmongOperands, IsAmongCells};

use cif_cells::{Cell, NetBit, Sources, Src};
use std::alloc::{AllocError, Global};

/// An operand bit that is a net bit, and the cell that reads it, by its place among the cells of the netlist.
#[derive(Clone, Copy, Debug, Drop)]
pub(crate) struct Reading {
    pub(crate) cell: u32,
    pub(crate) net: NetBit,
}

/// Adds the reading of one operand bit of a cell; a constant is none.
fn add_source(readings: &mut Vec<Reading>, cell: u32, source: Src) -> Result<(), AllocError>
    ensures { OnOk result (Gathers readings.old.items readings.new.items (IsSource cell source)) }
{
    match source {
        Src::Bit(net) => Ok(readings.push(Reading { cell, net })?),
        Src::Zero | Src::One => Ok(()),
    }
}

/// Adds the readings of the bits of an operand of a cell.
fn add_bits(readings: &mut Vec<Reading>, cell: u32, sources: &[Src]) -> Result<(), AllocError>
    ensures { OnOk result (Gathers readings.old.items readings.new.items
        (IsAmongBits cell sources.now (length sources.now))) }
{
    for source in sources {
        add_source(readings, cell, *source)?;
    }
    Ok(())
}

/// Adds the readings of the operands of a cell.
fn add_operands(
    readings: &mut Vec<Reading>,
    cell: u32,
    operands: &[Sources],
) -> Result<(), AllocError>
    ensures { OnOk result (Gathers readings.old.items readings.new.items
        (IsAmongOperands cell operands.now (length operands.now))) }
{
    for sources in operands {
        add_bits(readings, cell, sources.items())?;
    }
    Ok(())
}

/// The readings of all operand bits of some cells, of which there are at most 400,000.
pub(crate) fn readings_of(alloc: Global, cells: &[Cell]) -> Result<Vec<Reading>, AllocError>
    requires { length cells.now ≤ 400000 }
    ensures { IfOk result (λ v. Gathers [] v.items (IsAmongCells cells.now (length cells.now))) }
{
    let mut readings = Vec::new(alloc);
    for (place, cell) in cells.iter().enumerate() {
        add_operands(&mut readings, place as u32, cell.operands())?;
    }
    Ok(readings)
}
