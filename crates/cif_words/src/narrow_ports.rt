// Which cells are narrow.
ghost use Rattle.std.specs.Prelude.{◌≡◌, ◌↔◌, nat_le, length, IsTrue};
ghost use Rattle.std.specs.List.{list_all};
ghost use Rattle.cif_defs.specs.Fitted.{IsFitted};
ghost use Rattle.cif_defs.specs.Kinds.{role_of};
ghost use Rattle.word_numbers.specs.NarrowCells.{IsNarrow};

use cif_kinds::{Cell, Role, Sources, Targets, table};

/// Whether each operand has at most 128 bits.
fn have_narrow_operands(operands: &[Sources]) -> bool
    ensures { result ≡ list_all (λ bits. nat_le (length bits) 128) operands.now }
{
    operands.iter().all(|sources| sources.items().len() <= 128)
}

/// Whether each output has at most 128 bits.
fn have_narrow_outputs(outputs: &[Targets]) -> bool
    ensures { result ≡ list_all (λ bits. nat_le (length bits) 128) outputs.now }
{
    outputs.iter().all(|targets| targets.items().len() <= 128)
}

/// Whether each port of a cell has at most 128 bits.
pub(crate) fn has_narrow_ports(cell: &Cell) -> bool
    requires { IsFitted cell.now }
    ensures { IsTrue result ↔ IsNarrow cell.now }
{
    have_narrow_operands(cell.operands()) && have_narrow_outputs(cell.outputs())
}

/// Whether a cell is combinational and each of its ports has at most 128 bits.
pub fn narrow(cell: &Cell) -> bool
    requires { IsFitted cell.now }
    ensures { IsTrue result ↔ ((role_of cell.now.kind ≡ Role.Combinational) × IsNarrow cell.now) }
{
    matches!(table::role(cell.kind()), Role::Combinational) && has_narrow_ports(cell)
}
