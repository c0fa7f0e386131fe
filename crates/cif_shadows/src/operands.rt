// The operands of a cell, with the bits that hold their taints.

ghost use Rattle.std.specs.Prelude.{◌≡◌, ◌<◌, ℕ, List, [], IfOk, length, map, get_or, Contains, Some};
ghost use Rattle.cif_defs.specs.Accepted.{cell_of, source as source_of};
ghost use Rattle.cif_defs.specs.RawModule.{port_bits};
ghost use Rattle.cif_defs.specs.Table.{kind_of, operands_of};
ghost use Rattle.cif_defs.specs.declared.kinds.Kind.{Kind as KindOf};
ghost use Rattle.cif_defs.specs.declared.nets.Src.TheVariants.{Bit};
ghost use Rattle.cif_defs.specs.declared.raw_module.RawBit.{RawBit as BitOf};
ghost use Rattle.cif_emit.specs.Emitted.{taint_bits as taints_among, value_bits as values_among};
ghost use Rattle.cif_built.specs.Makings.{taint_bits};
ghost use Rattle.cif_shadows.specs.Tables.{shadow_in, taint_of_source};

use crate::table::Shadows;
use cif_bits::NoMemory;
use cif_cells::Cell;
use cif_checks::KnownCell;
use cif_defs::{Listed, RawBit, Src};
use cif_emit::OperandPair;
use std::alloc::Global;

/// The bit that holds the taint of a bit that is read: a constant is untainted.
fn taint_of(source: Src, shadows: &Shadows) -> RawBit
    requires { (b : ℕ) → source ≡ Bit b → b < length shadows.now.bits }
    ensures { result ≡ taint_of_source shadows.now source }
{
    match source {
        Src::Bit(bit) => shadows.get(bit),
        Src::Zero | Src::One => RawBit::Zero,
    }
}

/// The bits that hold the taints of bits that are read: a constant is untainted.
pub fn taints_of(alloc: Global, sources: &[Src], shadows: &Shadows) -> Result<Vec<RawBit>, NoMemory>
    requires inside { (b : ℕ) → Contains sources.now (Bit b) → b < length shadows.now.bits }
    ensures is { IfOk result (λ y. y.items ≡ map (taint_of_source shadows.now) sources.now) }
    ensures by_numbers { IfOk result (λ y. (ns : List ℕ) (bits : List BitOf) → sources.now ≡ map (source_of ns) bits
        → y.items ≡ taint_bits (shadow_in ns shadows.now) bits) }
{
    let mut taints = Vec::with_capacity(alloc, sources.len())?;
    for source in sources {
        taints.push(taint_of(*source, shadows))?;
    }
    Ok(taints)
}

/// The operands of a cell in the order of the table of kinds: the bits that are connected there, and those that hold their
/// taints. `cell` is the cell that `known` stands for.
pub fn operand_pairs(
    alloc: Global,
    known: &KnownCell<'_>,
    cell: &Cell,
    shadows: &Shadows,
) -> Result<Vec<OperandPair>, NoMemory>
    requires same { (ns : List ℕ) × (cell.now ≡ cell_of ns known.now) }
    requires inside { (p b : ℕ) → Contains (get_or cell.now.operands p []) (Bit b) → b < length shadows.now.bits }
    ensures values { IfOk result (λ y. (k : KindOf) → kind_of known.now.kind ≡ Some k
        → values_among y.items ≡ map (port_bits known.now) (operands_of k)) }
    ensures taints { IfOk result (λ y. (k : KindOf) (ns : List ℕ) → kind_of known.now.kind ≡ Some k → cell.now ≡ cell_of ns known.now
        → taints_among y.items ≡ map (taint_bits (shadow_in ns shadows.now)) (map (port_bits known.now) (operands_of k))) }
{
    let ports = known.operands();
    let operands = cell.operands();
    let mut pairs = Vec::with_capacity(alloc, ports.len())?;
    for (place, bits) in ports.iter().enumerate() {
        let sources = &operands[place];
        let values = Vec::from_slice(alloc, bits.items())?;
        let taints = taints_of(alloc, sources.items(), shadows)?;
        pairs.push(OperandPair {
            values: Listed::of(values),
            taints: Listed::of(taints),
        })?;
    }
    Ok(pairs)
}
