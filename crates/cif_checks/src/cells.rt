// Checks of the cells of a module.
ghost use Rattle.std.specs.Prelude.{◌≡◌, ◌<◌, ◌≤◌, ◌++◌, ℕ, length, get_or, map, sum, option_map, Some, None, IsOk, IfOk, IfErr};
ghost use Rattle.cif_defs.specs.Kinds.{role_of};
ghost use Rattle.cif_defs.specs.Table.{kind_of, operands_of, outputs_of, clocks_of, ports_of};
ghost use Rattle.cif_defs.specs.RawModule.{connected, port_bits as bits_of_port};
ghost use Rattle.cif_defs.specs.declared.kinds.PortRow.{PortRow};
ghost use Rattle.cif_checks.specs.Checks.{IsFirst, first_fault, cell_spot as spot_of, is_wide_memory as is_memory_too_wide, zero_width, too_wide, missing_port, wrong_width, constant_output, known_cell_fault, cell_fault, cells_fault, memory_size as size_of_memory};
ghost use Rattle.cif_checks.specs.Known.{ArePorts, found_at};
ghost use Rattle.cif_checks.specs.PortChecks.{row_fault};

use crate::fault::{BuildFault, Spot};
use crate::known::{KnownCell, KnownModule, PortBits};
use crate::parameters::{check_form, check_parameters};
use crate::raw_access::{bits_or_none, name_copy};
use crate::widths::row_width;
use cif_defs::{CellPort, Kind, Param, PortRow, RawBit, RawCell, Role};
use cif_kinds::table;
use std::alloc::{AllocError, Global};

/// The most bits of a word of a memory.
const WORD_LIMIT: u64 = 4_096;

/// The most bits of all memories.
const MEMORY_LIMIT: u64 = 16_777_216;

/// A check that goes over all ports of a cell.
#[derive(Clone, Copy, Debug, Drop)]
pub enum PortCheck {
    /// By its parameters the port has no bits.
    Empty,
    /// By its parameters the port has too many bits.
    TooWide,
    /// The port isn't connected.
    Missing,
    /// What is connected has another width than the parameters say.
    WrongWidth,
}

/// The names of a cell and of one of its ports.
pub fn port_names(alloc: Global, cell: &RawCell, row: &PortRow) -> Result<Spot, AllocError>
    ensures { IfOk result (λ spot. spot ≡ spot_of cell.now row.now) }
{
    let cell = name_copy(alloc, cell.name.items())?;
    let port = name_copy(alloc, table::port_name(row.port).as_bytes())?;
    Ok(Spot::CellPort { cell, port })
}

/// Checks that a port has bits by its parameters; the joined ports of a memory may have none.
fn check_empty(alloc: Global, cell: &KnownCell, kind: Kind, row: &PortRow) -> Result<(), BuildFault>
    ensures ok { IsOk result → zero_width cell.now kind row.now ≡ None }
    ensures err { IfErr result (λ e. IsFirst (zero_width cell.now kind row.now) e) }
{
    if matches!(table::role(kind), Role::MemoryBlock) {
        return Ok(());
    }
    if matches!(row_width(cell, row), Some(0)) {
        return Err(BuildFault::ZeroWidth(port_names(alloc, cell.raw(), row)?));
    }
    Ok(())
}

/// Whether a row is the port at which a memory is refused whose words are too wide.
fn is_wide_memory(cell: &KnownCell, kind: Kind, row: &PortRow) -> bool
    ensures { result ≡ is_memory_too_wide cell.now kind row.now }
{
    match kind {
        Kind::Mem => {
            matches!(row.port, CellPort::WrEn) && WORD_LIMIT < cell.number(Param::Width)
        }
        _ => false,
    }
}

/// Checks that a port isn't too wide by its parameters.
fn check_width_limit(
    alloc: Global,
    cell: &KnownCell,
    kind: Kind,
    row: &PortRow,
) -> Result<(), BuildFault>
    ensures ok { IsOk result → too_wide cell.now kind row.now ≡ None }
    ensures err { IfErr result (λ e. IsFirst (too_wide cell.now kind row.now) e) }
{
    let limit = table::width_limit(kind, row.port);
    let is_past = match row_width(cell, row) {
        Some(width) => limit < width,
        None => true,
    };
    if is_past || is_wide_memory(cell, kind, row) {
        return Err(BuildFault::WidthLimit(port_names(alloc, cell.raw(), row)?));
    }
    Ok(())
}

/// Checks that a port is connected, where `found` are its bits if it is.
fn check_connected(
    alloc: Global,
    cell: &KnownCell,
    row: &PortRow,
    found: Option<&[RawBit]>,
) -> Result<(), BuildFault>
    requires { option_map (λ bits. bits.now) found ≡ connected cell.now row.now }
    ensures ok { IsOk result → missing_port cell.now row.now ≡ None }
    ensures err { IfErr result (λ e. IsFirst (missing_port cell.now row.now) e) }
{
    if found.is_none() {
        let name = name_copy(alloc, cell.name())?;
        let port = name_copy(alloc, table::port_name(row.port).as_bytes())?;
        return Err(BuildFault::MissingPort(name, port));
    }
    Ok(())
}

/// Checks that a port has as many bits as its parameters say, where `found` are its bits if it is connected.
fn check_width(
    alloc: Global,
    cell: &KnownCell,
    row: &PortRow,
    found: Option<&[RawBit]>,
) -> Result<(), BuildFault>
    requires { option_map (λ bits. bits.now) found ≡ connected cell.now row.now }
    ensures ok { IsOk result → wrong_width cell.now row.now ≡ None }
    ensures err { IfErr result (λ e. IsFirst (wrong_width cell.now row.now) e) }
{
    let count = bits_or_none(found).len() as u64;
    let is_right = match row_width(cell, row) {
        Some(width) => count == width,
        None => false,
    };
    if !is_right {
        let name = name_copy(alloc, cell.name())?;
        let port = name_copy(alloc, table::port_name(row.port).as_bytes())?;
        return Err(BuildFault::WidthMismatch(name, port));
    }
    Ok(())
}

/// Applies a check to a port, where `found` are its bits if it is connected.
fn check_row(
    alloc: Global,
    check: PortCheck,
    cell: &KnownCell,
    kind: Kind,
    row: &PortRow,
    found: Option<&[RawBit]>,
) -> Result<(), BuildFault>
    requires { option_map (λ bits. bits.now) found ≡ connected cell.now row.now }
    ensures ok { IsOk result → row_fault check cell.now kind row.now ≡ None }
    ensures err { IfErr result (λ e. IsFirst (row_fault check cell.now kind row.now) e) }
{
    match check {
        PortCheck::Empty => check_empty(alloc, cell, kind, row),
        PortCheck::TooWide => check_width_limit(alloc, cell, kind, row),
        PortCheck::Missing => check_connected(alloc, cell, row, found),
        PortCheck::WrongWidth => check_width(alloc, cell, row, found),
    }
}

/// Some ports of a cell: their rows in the table of kinds, and what is found of each of them.
#[derive(Clone, Copy, Debug, Drop)]
struct PortGroup<'b, 'a> {
    rows: &'static [PortRow],
    bits: &'b [PortBits<'a>],
    are_connected: &'b [bool],
}

/// The bits of port number `index` of some; None where it isn't connected.
fn bits_found<'b>(
    bits: &'b [PortBits],
    are_connected: &[bool],
    index: usize,
) -> Option<&'b [RawBit]>
    requires inside { index < length bits.now }
    requires inside_too { index < length are_connected.now }
    ensures { option_map (λ bits. bits.now) result ≡ found_at bits.now are_connected.now index }
{
    if are_connected[index] {
        Some(bits[index].items())
    } else {
        None
    }
}

/// Applies a check to some ports, one by one.
fn check_rows(
    alloc: Global,
    check: PortCheck,
    cell: &KnownCell,
    kind: Kind,
    group: PortGroup,
) -> Result<(), BuildFault>
    requires { ArePorts cell.now group.rows.now group.bits.now group.are_connected.now }
    ensures ok { IsOk result → first_fault (row_fault check cell.now kind) group.entry.rows.now ≡ None }
    ensures err { IfErr result (λ e. IsFirst (first_fault (row_fault check cell.now kind) group.entry.rows.now) e) }
{
    for (index, row) in group.rows.iter().enumerate() {
        let found = bits_found(group.bits, group.are_connected, index);
        check_row(alloc, check, cell, kind, row, found)?;
    }
    Ok(())
}

/// The operands of a cell of a kind.
fn operand_ports<'b, 'a>(cell: &'b KnownCell<'a>, kind: Kind) -> PortGroup<'b, 'a>
    requires { kind_of cell.now.kind ≡ Some kind }
    ensures rows { result.rows.now ≡ operands_of kind }
    ensures found { ArePorts cell.now result.rows.now result.bits.now result.are_connected.now }
{
    PortGroup {
        rows: table::operands(kind),
        bits: cell.operands(),
        are_connected: cell.operands_connected(),
    }
}

/// The outputs of a cell of a kind.
fn output_ports<'b, 'a>(cell: &'b KnownCell<'a>, kind: Kind) -> PortGroup<'b, 'a>
    requires { kind_of cell.now.kind ≡ Some kind }
    ensures rows { result.rows.now ≡ outputs_of kind }
    ensures found { ArePorts cell.now result.rows.now result.bits.now result.are_connected.now }
{
    PortGroup {
        rows: table::outputs(kind),
        bits: cell.outputs(),
        are_connected: cell.outputs_connected(),
    }
}

/// The clocks of a cell of a kind.
fn clock_ports<'b, 'a>(cell: &'b KnownCell<'a>, kind: Kind) -> PortGroup<'b, 'a>
    requires { kind_of cell.now.kind ≡ Some kind }
    ensures rows { result.rows.now ≡ clocks_of kind }
    ensures found { ArePorts cell.now result.rows.now result.bits.now result.are_connected.now }
{
    PortGroup {
        rows: table::clocks(kind),
        bits: cell.clocks(),
        are_connected: cell.clocks_connected(),
    }
}

/// The ports of a cell in three groups, in the order in which they are checked: a register's clock comes first, a
/// memory's last.
#[tactic(auto, unfolding(cif_defs::specs::Table::ports_of))]
fn port_groups<'b, 'a>(
    cell: &'b KnownCell<'a>,
    kind: Kind,
) -> (PortGroup<'b, 'a>, PortGroup<'b, 'a>, PortGroup<'b, 'a>)
    requires { kind_of cell.now.kind ≡ Some kind }
    ensures all { result.0.rows.now ++ result.1.rows.now ++ result.2.rows.now ≡ ports_of kind }
    ensures first { ArePorts cell.now result.0.rows.now result.0.bits.now result.0.are_connected.now }
    ensures second { ArePorts cell.now result.1.rows.now result.1.bits.now result.1.are_connected.now }
    ensures third { ArePorts cell.now result.2.rows.now result.2.bits.now result.2.are_connected.now }
{
    let operands = operand_ports(cell, kind);
    let outputs = output_ports(cell, kind);
    let clocks = clock_ports(cell, kind);
    match kind {
        Kind::Mem => (operands, outputs, clocks),
        _ => (clocks, operands, outputs),
    }
}

/// Applies a check to all ports of a cell.
fn check_all_rows(
    alloc: Global,
    check: PortCheck,
    cell: &KnownCell,
    kind: Kind,
) -> Result<(), BuildFault>
    requires { kind_of cell.now.kind ≡ Some kind }
    ensures ok { IsOk result → first_fault (row_fault check cell.now kind) (ports_of kind) ≡ None }
    ensures err { IfErr result
        (λ e. IsFirst (first_fault (row_fault check cell.now kind) (ports_of kind)) e) }
{
    let (first, second, third) = port_groups(cell, kind);
    check_rows(alloc, check, cell, kind, first)?;
    check_rows(alloc, check, cell, kind, second)?;
    check_rows(alloc, check, cell, kind, third)
}

/// Checks that no bit of an output is a constant.
fn check_output(
    alloc: Global,
    cell: &KnownCell,
    row: &PortRow,
    bits: &[RawBit],
) -> Result<(), BuildFault>
    requires same { bits.now ≡ bits_of_port cell.now row.now }
    requires few { length (bits_of_port cell.now row.now) ≤ 65536 }
    ensures ok { IsOk result → constant_output cell.now row.now ≡ None }
    ensures err { IfErr result (λ e. IsFirst (constant_output cell.now row.now) e) }
{
    for (index, bit) in bits.iter().enumerate() {
        if matches!(*bit, RawBit::Zero | RawBit::One) {
            let spot = port_names(alloc, cell.raw(), row)?;
            return Err(BuildFault::ConstantOutput(spot, index as u32));
        }
    }
    Ok(())
}

/// Checks that no bit of a cell's outputs is a constant.
fn check_outputs(alloc: Global, cell: &KnownCell, kind: Kind) -> Result<(), BuildFault>
    requires known { kind_of cell.now.kind ≡ Some kind }
    requires few { (i : ℕ) → (row : PortRow) → i < length (outputs_of kind)
        → length (bits_of_port cell.now (get_or (outputs_of kind) i row)) ≤ 65536 }
    ensures ok { IsOk result → first_fault (constant_output cell.now) (outputs_of kind) ≡ None }
    ensures err { IfErr result (λ e. IsFirst (first_fault (constant_output cell.now) (outputs_of kind)) e) }
{
    let ports = cell.outputs();
    for (index, row) in table::outputs(kind).iter().enumerate() {
        check_output(alloc, cell, row, ports[index].items())?;
    }
    Ok(())
}

/// Checks a cell of a kind.
fn check_known_cell(alloc: Global, cell: &KnownCell, kind: Kind) -> Result<(), BuildFault>
    requires { kind_of cell.now.kind ≡ Some kind }
    ensures ok { IsOk result → known_cell_fault cell.now kind ≡ None }
    ensures err { IfErr result (λ e. IsFirst (known_cell_fault cell.now kind) e) }
{
    check_parameters(alloc, cell, kind)?;
    check_form(alloc, cell, kind)?;
    check_all_rows(alloc, PortCheck::Empty, cell, kind)?;
    check_all_rows(alloc, PortCheck::TooWide, cell, kind)?;
    check_all_rows(alloc, PortCheck::Missing, cell, kind)?;
    check_all_rows(alloc, PortCheck::WrongWidth, cell, kind)?;
    check_outputs(alloc, cell, kind)
}

/// Checks a cell.
#[tactic(auto, unfolding(crate::specs::Checks::cell_fault))]
fn check_cell(alloc: Global, cell: &KnownCell) -> Result<(), BuildFault>
    ensures ok { IsOk result → cell_fault cell.now ≡ None }
    ensures err { IfErr result (λ e. IsFirst (cell_fault cell.now) e) }
{
    if let Some(kind) = cell.kind() {
        return check_known_cell(alloc, cell, kind);
    }
    let name = name_copy(alloc, cell.name())?;
    let kind = name_copy(alloc, cell.raw().kind.items())?;
    Err(BuildFault::UnsupportedCell(name, kind))
}

/// How many bits a cell stores as a memory.
fn memory_size(cell: &KnownCell) -> u64
    ensures { result ≡ size_of_memory cell.now }
{
    match cell.kind() {
        Some(kind) => match table::role(kind) {
            Role::MemoryBlock => cell.number(Param::Size) * cell.number(Param::Width),
            _ => 0,
        },
        None => 0,
    }
}

/// How many bits checked cells store as memories.
fn memory_bits(cells: &[KnownCell]) -> u64
    requires few { length cells.now ≤ 400000 }
    requires checked { first_fault cell_fault cells.now ≡ None }
    ensures { result ≡ sum (map size_of_memory cells.now) }
{
    let mut total = 0;
    for cell in cells {
        total += memory_size(cell);
    }
    total
}

/// Checks cells one by one.
fn check_each(alloc: Global, cells: &[KnownCell]) -> Result<(), BuildFault>
    ensures ok { IsOk result → first_fault cell_fault cells.now ≡ None }
    ensures err { IfErr result (λ e. IsFirst (first_fault cell_fault cells.now) e) }
{
    for cell in cells {
        check_cell(alloc, cell)?;
    }
    Ok(())
}

/// Checks the cells of a module, in byte order of name, and then how many bits their memories have.
#[tactic(auto, unfolding(crate::specs::Checks::cells_fault))]
pub fn check_cells(alloc: Global, known: &KnownModule) -> Result<(), BuildFault>
    requires { length known.now.cells ≤ 400000 }
    ensures ok { IsOk result → cells_fault known.now ≡ None }
    ensures err { IfErr result (λ e. IsFirst (cells_fault known.now) e) }
{
    check_each(alloc, known.cells())?;
    let total = memory_bits(known.cells());
    if total > MEMORY_LIMIT {
        return Err(BuildFault::TooManyBits(total));
    }
    Ok(())
}
