// How many bits cells store.
ghost use Rattle.std.specs.Prelude.{◌≡◌, ◌<◌, ◌^◌};
ghost use Rattle.std.specs.List.{sum_by};
ghost use Rattle.cif_defs.specs.Cells.{state_bits as state_bits_of};

use cif_defs::{Param, Role};
use cif_kinds::{Cell, table};

/// How many bits a cell stores.
fn state_bits(cell: &Cell) -> u64
    requires { state_bits_of cell.now < 2 ^ 64 }
    ensures { result ≡ state_bits_of cell.now }
{
    match table::role(cell.kind()) {
        Role::PlainRegister | Role::ResetRegister => cell.number(Param::Width),
        Role::MemoryBlock => cell.number(Param::Size) * cell.number(Param::Width),
        Role::Combinational | Role::CarriedOver => 0,
    }
}

/// How many bits some cells store together.
pub fn total_bits(cells: &[Cell]) -> u64
    requires { sum_by state_bits_of cells.now < 2 ^ 64 }
    ensures { result ≡ sum_by state_bits_of cells.now }
{
    let mut total = 0;
    for cell in cells {
        total += state_bits(cell);
    }
    total
}
