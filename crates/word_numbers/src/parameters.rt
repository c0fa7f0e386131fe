// Parameters of narrow cells.
ghost use Rattle.std.specs.Prelude.{◌≡◌, ◌≤◌};
ghost use Rattle.cif_defs.specs.Cells.{number_of};

use cif_kinds::{Cell, Param};

/// A parameter of a cell that is at most 128, as the width of a narrow port is.
pub fn narrow_number(cell: &Cell, param: Param) -> u32
    requires { number_of cell.now param ≤ 128 }
    ensures { result ≡ number_of cell.now param }
{
    cell.number(param) as u32
}
