// The bits that a cell reads, straight from the net bits.
ghost use Rattle.std.specs.Prelude.{◌≡◌, [], get_or};
ghost use Rattle.cif_defs.specs.Words.{bit, operand};
ghost use Rattle.cif_defs.specs.Run.{operand_words, src_bit, src_word};
ghost use Rattle.cif_defs.specs.TaintRun.{operand_taints, src_taint, taint_word};
ghost use Rattle.cif_register_bits.specs.Choices.{bit_with};

use crate::tainted_bit::TaintedBit;
use cif_kinds::{Cell, Src};

/// A net bit of a table of bits; 0 past its end.
fn net_bit(bits: &[bool], net: u32) -> bool
    ensures { result ≡ bit bits.now net }
{
    bits.get(net as usize).copied().unwrap_or(false)
}

/// One bit that is read, where `values` and `taints` are those of the net bits. A constant is untainted.
fn source_bit(values: &[bool], taints: &[bool], source: Src) -> TaintedBit
    ensures value { result.value ≡ src_bit (bit values.now) source }
    ensures taint { result.taint ≡ src_taint (bit taints.now) source }
{
    match source {
        Src::Bit(net) => TaintedBit {
            value: net_bit(values, net),
            taint: net_bit(taints, net),
        },
        Src::Zero => TaintedBit::untainted(false),
        Src::One => TaintedBit::untainted(true),
    }
}

/// Bit `index` of the word of some bits that are read, which is 0 and untainted past its end, where `values` and `taints`
/// are those of the net bits.
fn read_bit(values: &[bool], taints: &[bool], sources: &[Src], index: usize) -> TaintedBit
    ensures value { result.value ≡ bit (src_word (bit values.now) sources.now) index }
    ensures taint { result.taint ≡ bit (taint_word (bit taints.now) sources.now) index }
{
    if index < sources.len() {
        source_bit(values, taints, sources[index])
    } else {
        TaintedBit::untainted(false)
    }
}

/// The bits that an operand of a cell reads, lowest first; none where there is no such operand.
fn operand_sources(cell: &Cell, port: usize) -> &[Src]
    ensures { result.now ≡ get_or cell.now.operands port [] }
{
    match cell.operands().get(port) {
        Some(sources) => sources.items(),
        None => &[],
    }
}

/// Bit `index` of the word at an operand of a cell, which is 0 and untainted past its end and where there is no such
/// operand, where `values` and `taints` are those of the net bits.
pub fn operand_bit(
    cell: &Cell,
    port: usize,
    index: usize,
    values: &[bool],
    taints: &[bool],
) -> TaintedBit
    ensures { result ≡ bit_with
        (operand (operand_words (bit values.now) cell.now) port)
        (operand (operand_taints (bit taints.now) cell.now) port) index }
{
    let sources = operand_sources(cell, port);
    read_bit(values, taints, sources, index)
}
