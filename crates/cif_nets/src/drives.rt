// What drives each net number.
ghost use Rattle.std.specs.Prelude.{◌≡◌, ◌∷◌, [], ◌<◌, ◌≤◌, ◌^◌, ℕ, length, map, filter, IfOk, None, Some, true};
ghost use Rattle.std.specs.List.{All, flat_map};
ghost use Rattle.std.specs.List.Sorted.{IsStrictlyIncreasing};
ghost use Rattle.cif_defs.specs.Table.{kind_of as kind_of_text};
ghost use Rattle.cif_defs.specs.declared.kinds.Kind.{Kind as CellKind};
ghost use Rattle.cif_defs.specs.Kinds.{role_of};
ghost use Rattle.cif_defs.specs.RawModule.{output_bits, net_numbers};
ghost use Rattle.cif_defs.specs.Accepted.{is_input as is_input_port, driven, driven_from, driven_by_inputs, driven_by_outputs, driven_by_role, driven_by_kind, driven_by_cells};
ghost use Rattle.cif_checks.specs.Checks.{cell_fault, ports_fault, cells_fault};
ghost use Rattle.cif_nets.specs.Told.{told, told_all};
ghost use Rattle.cif_nets.specs.Drives.{driven_more, driven_by, driver_at, HasWidth};
ghost use Rattle.cif_nets.specs.Kept.{is_kept};

use crate::numbers::place_of;
use cif_checks::{KnownCell, KnownModule, PortBits};
use cif_defs::{Direction, Driver, Kind, Param, RawBit, RawPort, Role};
use cif_kinds::table;
use std::alloc::{AllocError, Global};

/// What drives a net number.
#[derive(Clone, Copy, Debug, Drop)]
pub enum DrivenBy {
    Nothing,
    One(Driver),
    Several,
}

/// Bits that drive, in a row.
#[derive(Clone, Copy, Debug, Drop)]
pub enum Origin {
    /// The bits of an input port.
    InputPort { port: u32 },
    /// The bits of an output of a combinational cell.
    OutputPort { cell: u32, port: u32 },
    /// The word of a register.
    RegisterWord { cell: u32 },
    /// The words of a memory's read ports, joined; each has `width` bits.
    ReadPorts { cell: u32, width: u32 },
}

impl Origin {
    /// The driver that its bit `index` is.
    fn driver(self, index: u32) -> Driver
        requires { HasWidth self }
        ensures { result ≡ driver_at self index }
    {
        match self {
            Origin::InputPort { port } => Driver::Input { port, index },
            Origin::OutputPort { cell, port } => Driver::Output { cell, port, index },
            Origin::RegisterWord { cell } => Driver::Register { cell, index },
            Origin::ReadPorts { cell, width } => Driver::Read {
                cell,
                port: index / width,
                index: index % width,
            },
        }
    }
}

impl DrivenBy {
    /// With one more driver.
    fn more(self, driver: Driver) -> DrivenBy
        ensures { result ≡ driven_more self driver }
    {
        match self {
            DrivenBy::Nothing => DrivenBy::One(driver),
            DrivenBy::One(_) | DrivenBy::Several => DrivenBy::Several,
        }
    }
}

/// Records that a net number is driven.
fn record(numbers: &[u64], drives: &mut [DrivenBy], number: u64, driver: Driver)
    requires rising { IsStrictlyIncreasing numbers.now }
    requires same { length drives.old ≡ length numbers.now }
    ensures { drives.new ≡ told_all driven_more numbers.now drives.old ((number, driver) ∷ []) }
{
    if let Some(place) = place_of(numbers, number) {
        drives[place] = drives[place].more(driver);
    }
}

/// Records what bits in a row drive.
fn record_bits(numbers: &[u64], drives: &mut [DrivenBy], origin: Origin, bits: &[RawBit])
    requires rising { IsStrictlyIncreasing numbers.now }
    requires same { length drives.old ≡ length numbers.now }
    requires width { HasWidth origin }
    requires few { length bits.now < 2 ^ 32 }
    ensures { drives.new ≡ told_all driven_more numbers.now drives.old (driven_from (driver_at origin) 0 bits.now) }
{
    for (index, bit) in bits.iter().enumerate() {
        if let RawBit::Net(number) = *bit {
            record(numbers, drives, number, origin.driver(index as u32));
        }
    }
}

/// Records what the outputs of a combinational cell drive.
fn record_ports(numbers: &[u64], drives: &mut [DrivenBy], index: u32, ports: &[PortBits])
    requires rising { IsStrictlyIncreasing numbers.now }
    requires same { length drives.old ≡ length numbers.now }
    requires few { All (λ bits. length bits ≤ 65536) ports.now }
    requires few_ports { length ports.now ≤ 3 }
    ensures { drives.new ≡ told_all driven_more numbers.now drives.old (driven_by_outputs index 0 ports.now) }
{
    for (port, bits) in ports.iter().enumerate() {
        let origin = Origin::OutputPort {
            cell: index,
            port: port as u32,
        };
        record_bits(numbers, drives, origin, bits.items());
    }
}

/// The bits of the one output of a register or a memory.
pub fn kept_bits<'a>(cell: &'a KnownCell) -> &'a [RawBit]
    ensures { (k : CellKind) → kind_of_text cell.now.kind ≡ Some k → is_kept (role_of k) ≡ true → result.now ≡ output_bits cell.now }
{
    match cell.outputs() {
        [bits, ..] => bits.items(),
        [] => &[],
    }
}

/// Records what the outputs of a cell of this kind drive; the cell has passed its checks.
fn record_kind(numbers: &[u64], drives: &mut [DrivenBy], index: u32, cell: &KnownCell, kind: Kind)
    requires rising { IsStrictlyIncreasing numbers.now }
    requires same { length drives.old ≡ length numbers.now }
    requires known { kind_of_text cell.now.kind ≡ Some kind }
    requires passed { cell_fault cell.now ≡ None }
    ensures { drives.new ≡ told_all driven_more numbers.now drives.old (driven_by_role index (role_of kind) cell.now kind) }
{
    match table::role(kind) {
        Role::Combinational => record_ports(numbers, drives, index, cell.outputs()),
        Role::PlainRegister | Role::ResetRegister => {
            let origin = Origin::RegisterWord { cell: index };
            record_bits(numbers, drives, origin, kept_bits(cell));
        }
        Role::MemoryBlock => {
            let width = cell.number(Param::Width) as u32;
            let origin = Origin::ReadPorts { cell: index, width };
            record_bits(numbers, drives, origin, kept_bits(cell));
        }
        Role::CarriedOver => {}
    }
}

/// Records what the outputs of a cell drive; the cell has passed its checks.
fn record_cell(numbers: &[u64], drives: &mut [DrivenBy], index: u32, cell: &KnownCell)
    requires rising { IsStrictlyIncreasing numbers.now }
    requires same { length drives.old ≡ length numbers.now }
    requires passed { cell_fault cell.now ≡ None }
    ensures { drives.new ≡ told_all driven_more numbers.now drives.old (driven_by_kind index cell.now (kind_of_text cell.now.kind)) }
{
    if let Some(kind) = cell.kind() {
        record_kind(numbers, drives, index, cell, kind);
    }
}

/// Records what the outputs of all cells drive; the cells have passed their checks.
fn record_cells(numbers: &[u64], drives: &mut [DrivenBy], cells: &[KnownCell])
    requires rising { IsStrictlyIncreasing numbers.now }
    requires same { length drives.old ≡ length numbers.now }
    requires passed { All (λ c. cell_fault c ≡ None) cells.now }
    requires few { length cells.now ≤ 400000 }
    ensures { drives.new ≡ told_all driven_more numbers.now drives.old (driven_by_cells 0 cells.now) }
{
    for (index, cell) in cells.iter().enumerate() {
        record_cell(numbers, drives, index as u32, cell);
    }
}

/// Whether a port is an input.
pub fn is_input(port: &RawPort) -> bool
    ensures { result ≡ is_input_port port.now }
{
    matches!(port.direction, Direction::Input)
}

/// Records what the input ports drive.
fn record_inputs(numbers: &[u64], drives: &mut [DrivenBy], ports: &[RawPort])
    requires rising { IsStrictlyIncreasing numbers.now }
    requires same { length drives.old ≡ length numbers.now }
    requires few_bits { All (λ p. length p.bits ≤ 4096) ports.now }
    requires few { length (filter is_input_port ports.now) < 2 ^ 32 }
    ensures { drives.new ≡ told_all driven_more numbers.now drives.old (driven_by_inputs 0 (filter is_input_port ports.now)) }
{
    let mut inputs = 0;
    for port in ports {
        if is_input(port) {
            let origin = Origin::InputPort { port: inputs };
            record_bits(numbers, drives, origin, port.bits.items());
            inputs += 1;
        }
    }
}

/// What drives each of the net numbers of a module whose ports and cells have passed their checks.
pub fn all_drives(
    alloc: Global,
    numbers: &[u64],
    known: &KnownModule,
) -> Result<Vec<DrivenBy>, AllocError>
    requires numbers { numbers.now ≡ net_numbers known.now }
    requires ports { ports_fault known.now ≡ None }
    requires cells { cells_fault known.now ≡ None }
    requires few_cells { length known.now.cells ≤ 400000 }
    requires few_bits { length numbers.now ≤ 4194304 }
    ensures { IfOk result (λ v. v.items ≡ map (driven_by known.now) numbers.now) }
{
    let mut drives = vec![in alloc; DrivenBy::Nothing; numbers.len()]?;
    record_inputs(numbers, &mut drives, known.ports());
    record_cells(numbers, &mut drives, known.cells());
    Ok(drives)
}
