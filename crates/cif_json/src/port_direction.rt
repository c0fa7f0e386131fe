// The directions of a cell's ports.
ghost use Rattle.std.specs.Prelude.{◌≡◌, option_and_then};
ghost use Rattle.cif_json.specs.WrittenNetlist.{is_ignored, has_port as has_port_in, port_direction as direction_of_port};

use cif_defs::{Direction, Kind, PortRow};
use cif_kinds::table::{clocks, operands, outputs, port_name};

/// Whether one of these is the port of this name.
fn has_port(name: &[u8], rows: &[PortRow]) -> bool
    ensures { result ≡ has_port_in name.now rows.now }
{
    rows.iter()
        .any(|row| port_name(row.port).as_bytes() == name)
}

/// Whether a port is one of those of a memory that are passed over: clocks, enables and resets of clocked reads.
fn is_passed_over(kind: Kind, name: &[u8]) -> bool
    ensures { result ≡ is_ignored name.now kind }
{
    match kind {
        Kind::Mem => name == "RD_CLK".as_bytes()
            || name == "RD_EN".as_bytes()
            || name == "RD_ARST".as_bytes()
            || name == "RD_SRST".as_bytes(),
        _ => false,
    }
}

/// The direction of a kind's port; clocks and ports that are passed over are inputs.
fn direction_at(kind: Kind, name: &[u8]) -> Option<Direction>
    ensures { result ≡ direction_of_port name.now kind }
{
    if has_port(name, outputs(kind)) {
        Some(Direction::Output)
    } else if has_port(name, operands(kind))
        || has_port(name, clocks(kind))
        || is_passed_over(kind, name)
    {
        Some(Direction::Input)
    } else {
        None
    }
}

/// The direction of a cell's port, if the table has the cell's kind and names the port for it.
pub fn port_direction(kind: Option<Kind>, name: &[u8]) -> Option<Direction>
    ensures { result ≡ option_and_then (direction_of_port name.now) kind }
{
    match kind {
        Some(kind) => direction_at(kind, name),
        None => None,
    }
}
