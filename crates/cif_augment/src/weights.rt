// What cells weigh: how many cells their taint may cost.
ghost use Rattle.std.specs.Prelude.{◌≡◌, ◌+◌, ◌*◌, ◌≤◌, length, true};
ghost use Rattle.std.specs.List.{sum_by};
ghost use Rattle.cif_defs.specs.Cells.{number_of, width};
ghost use Rattle.cif_defs.specs.Fitted.{IsFitted};
ghost use Rattle.cif_defs.specs.Kinds.{role_of};
ghost use Rattle.cif_defs.specs.Weights.{blocks_width, wide_steps, weight as weight_of};
ghost use Rattle.cif_defs.specs.declared.kinds.Kind.TheVariants.{Shiftx, Pmux, Bmux, Demux};
ghost use Rattle.cif_defs.specs.declared.kinds.Kind.TheVariants.{Lut as LutKind};
ghost use Rattle.cif_defs.specs.declared.kinds.Role.TheVariants.{MemoryBlock};
ghost use Rattle.cif_defs.specs.declared.kinds.Param.TheVariants.{AWidth, BWidth, SWidth, RdPorts, WrPorts};
ghost use Rattle.cif_kinds.specs.StateCells.{HasMemoryNumbers};
ghost use Rattle.cif_cells.specs.NetlistView.{AreFitted, HaveMemoryNumbers};
ghost use Rattle.cif_augment.specs.Shifts.{is_shift};

use cif_cells::Cell;
use cif_defs::{Kind, Param};

/// Words weigh more by each so many bits.
const WIDE_STEP: u64 = 4096;

/// One more than the bits of the number that a shift takes; at most 129.
fn shift_steps(cell: &Cell) -> u64
    requires shift { is_shift cell.now.kind ≡ true }
    requires fitted { IsFitted cell.now }
    ensures is { result ≡ number_of cell.now BWidth + 1 }
    ensures few { result ≤ 129 }
{
    cell.number(Param::BWidth) + 1
}

/// One more than the wide steps in the word of which `$shiftx` takes a part; at most 17.
fn shiftx_steps(cell: &Cell) -> u64
    requires kind { cell.now.kind ≡ Shiftx }
    requires fitted { IsFitted cell.now }
    ensures is { result ≡ 1 + wide_steps (number_of cell.now AWidth) }
    ensures few { result ≤ 17 }
{
    1 + cell.number(Param::AWidth) / WIDE_STEP
}

/// How many select bits `$pmux` has; at most 4,096.
fn pmux_steps(cell: &Cell) -> u64
    requires kind { cell.now.kind ≡ Pmux }
    requires fitted { IsFitted cell.now }
    ensures is { result ≡ number_of cell.now SWidth }
    ensures few { result ≤ 4096 }
{
    cell.number(Param::SWidth)
}

/// The select bits of `$bmux` and the wide steps in its choices; at most 4,112.
fn bmux_steps(cell: &Cell) -> u64
    requires kind { cell.now.kind ≡ Bmux }
    requires fitted { IsFitted cell.now }
    ensures is { result ≡ number_of cell.now SWidth + wide_steps (blocks_width cell.now) }
    ensures few { result ≤ 4112 }
{
    cell.number(Param::SWidth) + cell.operand(0).len() as u64 / WIDE_STEP
}

/// The select bits of `$demux` and the wide steps in its places; at most 4,112.
fn demux_steps(cell: &Cell) -> u64
    requires kind { cell.now.kind ≡ Demux }
    requires fitted { IsFitted cell.now }
    ensures is { result ≡ number_of cell.now SWidth + wide_steps (blocks_width cell.now) }
    ensures few { result ≤ 4112 }
{
    cell.number(Param::SWidth) + cell.output(0).len() as u64 / WIDE_STEP
}

/// How many bits a `$lut` reads; at most 12.
fn lut_steps(cell: &Cell) -> u64
    requires kind { cell.now.kind ≡ LutKind }
    requires fitted { IsFitted cell.now }
    ensures is { result ≡ width cell.now }
    ensures few { result ≤ 12 }
{
    cell.number(Param::Width)
}

/// How many ports a memory has; at most 131,072.
fn memory_ports(cell: &Cell) -> u64
    requires { HasMemoryNumbers cell.now }
    ensures is { result ≡ number_of cell.now RdPorts + number_of cell.now WrPorts }
    ensures few { result ≤ 131072 }
{
    cell.number(Param::RdPorts) + cell.number(Param::WrPorts)
}

/// How many cells the taint of a cell may cost; at most 4,194,304.
#[tactic(auto, unfolding(cif_defs::specs::Weights::weight_by))]
pub fn weight(cell: &Cell) -> u64
    requires fitted { IsFitted cell.now }
    requires memory { role_of cell.now.kind ≡ MemoryBlock → HasMemoryNumbers cell.now }
    ensures is { result ≡ weight_of cell.now }
    ensures few { result ≤ 4194304 }
{
    match cell.kind() {
        Kind::LogicAnd | Kind::LogicOr => 24,
        Kind::Add | Kind::Sub => 72,
        Kind::Neg | Kind::Lt | Kind::Le | Kind::Ge | Kind::Gt | Kind::Fa => 40,
        Kind::Eq | Kind::Ne | Kind::Eqx | Kind::Nex => 64,
        Kind::Alu => 224,
        Kind::Mul => 32,
        Kind::Div | Kind::Mod | Kind::DivFloor | Kind::ModFloor => 80,
        Kind::Dff | Kind::Dffe | Kind::Sdff | Kind::Sdffe | Kind::Sdffce => 32,
        Kind::Adff | Kind::Adffe => 48,
        Kind::ScopeInfo => 0,
        Kind::Shl | Kind::Sshl | Kind::Shr | Kind::Sshr => 12 * shift_steps(cell),
        Kind::Shift => 24 * shift_steps(cell),
        Kind::Shiftx => 24 * shift_steps(cell) * shiftx_steps(cell),
        Kind::Pmux => 12 * pmux_steps(cell),
        Kind::Bmux => 16 * bmux_steps(cell),
        Kind::Demux => 24 * demux_steps(cell),
        Kind::Lut => 16 * lut_steps(cell),
        Kind::Mem => 16 * memory_ports(cell) + 8,
        _ => 12,
    }
}

/// The sum of the weights of some cells.
pub fn total_weight(cells: &[Cell]) -> u64
    requires few { length cells.now ≤ 400000 }
    requires fitted { AreFitted cells.now }
    requires memories { HaveMemoryNumbers cells.now }
    ensures is { result ≡ sum_by weight_of cells.now }
    ensures small { result ≤ 400000 * 4194304 }
{
    let mut total = 0;
    for cell in cells {
        total += weight(cell);
    }
    total
}
