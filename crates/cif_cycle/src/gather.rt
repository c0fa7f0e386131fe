// The words that a cell reads.
ghost use Rattle.std.specs.Prelude.{◌≡◌, ◌≤◌, ◌+◌, length, take, drop, IfOk};
ghost use Rattle.cif_defs.specs.Words.{bit};
ghost use Rattle.cif_defs.specs.Run.{src_bit, src_word, words_under, operand_words};
ghost use Rattle.cif_defs.specs.TaintRun.{src_taint, taint_word, taints_under, operand_taints};
ghost use Rattle.cif_cycle.specs.CellWords.{AreNarrow};

use cif_bits::{Bits, NoMemory};
use cif_kinds::{Cell, Sources, Src};
use std::alloc::{AllocError, Global};

/// The value of one bit that is read, where `values` are those of the net bits.
fn source_value(values: &[bool], source: Src) -> bool
    ensures { result ≡ src_bit (bit values.now) source }
{
    match source {
        Src::Bit(net) => values.get(net as usize).copied().unwrap_or(false),
        Src::Zero => false,
        Src::One => true,
    }
}

/// The taint of one bit that is read, where `taints` are those of the net bits. A constant is untainted.
fn source_taint(taints: &[bool], source: Src) -> bool
    ensures { result ≡ src_taint (bit taints.now) source }
{
    match source {
        Src::Bit(net) => taints.get(net as usize).copied().unwrap_or(false),
        Src::Zero | Src::One => false,
    }
}

fn value_bits(alloc: Global, values: &[bool], sources: &[Src]) -> Result<Vec<bool>, AllocError>
    ensures { IfOk result (λ w. w.items ≡ src_word (bit values.now) sources.now) }
{
    let mut word = Vec::with_capacity(alloc, sources.len())?;
    for source in sources {
        word.push(source_value(values, *source))?;
    }
    Ok(word)
}

fn taint_bits(alloc: Global, taints: &[bool], sources: &[Src]) -> Result<Vec<bool>, AllocError>
    ensures { IfOk result (λ w. w.items ≡ taint_word (bit taints.now) sources.now) }
{
    let mut word = Vec::with_capacity(alloc, sources.len())?;
    for source in sources {
        word.push(source_taint(taints, *source))?;
    }
    Ok(word)
}

/// Some of the bits that are read: `size` of them from place `start` upward.
pub fn part(sources: &[Src], start: usize, size: usize) -> &[Src]
    requires { start + size ≤ length sources.now }
    ensures { result.now ≡ take size (drop start sources.now) }
{
    &sources[start..start + size]
}

/// The word of some bits that are read, where `values` are those of the net bits; at most 65,536 of them.
pub fn value_word(alloc: Global, values: &[bool], sources: &[Src]) -> Result<Bits, NoMemory>
    requires { length sources.now ≤ 65536 }
    ensures { IfOk result (λ w. w ≡ src_word (bit values.now) sources.now) }
{
    let bits = value_bits(alloc, values, sources)?;
    Ok(Bits::of(bits))
}

/// The taint of the word of some bits that are read, where `taints` are those of the net bits; at most 65,536 of them.
pub fn taint_word(alloc: Global, taints: &[bool], sources: &[Src]) -> Result<Bits, NoMemory>
    requires { length sources.now ≤ 65536 }
    ensures { IfOk result (λ w. w ≡ taint_word (bit taints.now) sources.now) }
{
    let bits = taint_bits(alloc, taints, sources)?;
    Ok(Bits::of(bits))
}

/// The words of operands.
fn value_words_of(
    alloc: Global,
    values: &[bool],
    operands: &[Sources],
) -> Result<Vec<Bits>, NoMemory>
    requires { AreNarrow operands.now }
    ensures { IfOk result (λ ws. ws.items ≡ words_under (bit values.now) operands.now) }
{
    let mut words = Vec::with_capacity(alloc, operands.len())?;
    for sources in operands {
        let bits = value_bits(alloc, values, sources.items())?;
        words.push(Bits::of(bits))?;
    }
    Ok(words)
}

/// The taints of operands.
fn taint_words_of(
    alloc: Global,
    taints: &[bool],
    operands: &[Sources],
) -> Result<Vec<Bits>, NoMemory>
    requires { AreNarrow operands.now }
    ensures { IfOk result (λ ws. ws.items ≡ taints_under (bit taints.now) operands.now) }
{
    let mut words = Vec::with_capacity(alloc, operands.len())?;
    for sources in operands {
        let bits = taint_bits(alloc, taints, sources.items())?;
        words.push(Bits::of(bits))?;
    }
    Ok(words)
}

/// The operand words of a cell.
pub fn value_words(alloc: Global, values: &[bool], cell: &Cell) -> Result<Vec<Bits>, NoMemory>
    requires { AreNarrow cell.now.operands }
    ensures { IfOk result (λ ws. ws.items ≡ operand_words (bit values.now) cell.now) }
{
    Ok(value_words_of(alloc, values, cell.operands())?)
}

/// The taints of a cell's operand words.
pub fn taint_words(alloc: Global, taints: &[bool], cell: &Cell) -> Result<Vec<Bits>, NoMemory>
    requires { AreNarrow cell.now.operands }
    ensures { IfOk result (λ ws. ws.items ≡ operand_taints (bit taints.now) cell.now) }
{
    Ok(taint_words_of(alloc, taints, cell.operands())?)
}
