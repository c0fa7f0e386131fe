// How many bits the ports of a cell have by its parameters.
ghost use Rattle.std.specs.Prelude.{◌<◌, ◌*◌, ◌^◌, SomeIff};
ghost use Rattle.cif_checks.specs.Checks.{row_width as row_width_of};

use crate::known::KnownCell;
use cif_defs::{PortRow, PortWidth};

/// A count, times 2 to the power of another; None where that is 2 to the 64 or more.
fn blocks(count: u64, power: u64) -> Option<u64>
    ensures { SomeIff result (count * 2 ^ power < 2 ^ 64) (count * 2 ^ power) }
{
    if count == 0 {
        return Some(0);
    }
    if power >= 64 {
        return None;
    }
    count.checked_mul(1 << power)
}

/// How many bits a port has by the parameters of its cell, of which those that aren't given count as 0; None where
/// they are 2 to the 64 or more.
pub fn row_width(cell: &KnownCell, row: &PortRow) -> Option<u64>
    ensures { SomeIff result (row_width_of cell.now row.now < 2 ^ 64) (row_width_of cell.now row.now) }
{
    match row.width {
        PortWidth::One => Some(1),
        PortWidth::Of(param) => Some(cell.number(param)),
        PortWidth::Sum(first, second) => cell.number(first).checked_add(cell.number(second)),
        PortWidth::Product(first, second) => cell.number(first).checked_mul(cell.number(second)),
        PortWidth::Blocks(count, power) => blocks(cell.number(count), cell.number(power)),
    }
}
