// Operands as terms take them.
ghost use Rattle.std.specs.Prelude.{◌≡◌, ◌+◌, ◌*◌, ◌≤◌, ◌++◌, ◌∷◌, [], IfOk, length};
ghost use Rattle.cif_next_taints.specs.Ports.{pair_part, part_of};

use cif_bits::NoMemory;
use cif_defs::{Listed, RawBit};
use cif_emit::{OperandBits, OperandPair};
use std::alloc::Global;

/// An operand once more.
fn copy(alloc: Global, operand: &OperandPair) -> Result<OperandPair, NoMemory>
    ensures { IfOk result (λ o. o ≡ operand.now) }
{
    let values = Vec::from_slice(alloc, operand.values.items())?;
    let taints = Vec::from_slice(alloc, operand.taints.items())?;
    Ok(OperandPair {
        values: Listed::of(values),
        taints: Listed::of(taints),
    })
}

/// These operands, and one more after them.
pub(crate) fn followed_by(
    alloc: Global,
    operands: &[OperandPair],
    last: OperandPair,
) -> Result<OperandBits, NoMemory>
    ensures { IfOk result (λ all. all ≡ operands.now ++ last ∷ []) }
{
    let mut all = Vec::new(alloc);
    for operand in operands {
        all.push(copy(alloc, operand)?)?;
    }
    all.push(last)?;
    Ok(Listed::of(all))
}

/// What a port has of bits that are joined over ports of `width` bits.
fn part(bits: &[RawBit], width: usize, port: usize) -> &[RawBit]
    requires { port * width + width ≤ length bits.now }
    ensures { result.now ≡ part_of width port bits.now }
{
    let start = port * width;
    &bits[start..start + width]
}

/// What a port has of an operand that is joined over ports of `width` bits.
pub(crate) fn operand_part(
    alloc: Global,
    operand: &OperandPair,
    width: usize,
    port: usize,
) -> Result<OperandPair, NoMemory>
    requires values { port * width + width ≤ length operand.now.values }
    requires taints { port * width + width ≤ length operand.now.taints }
    ensures { IfOk result (λ o. o ≡ pair_part width port operand.now) }
{
    let values = Vec::from_slice(alloc, part(operand.values.items(), width, port))?;
    let taints = Vec::from_slice(alloc, part(operand.taints.items(), width, port))?;
    Ok(OperandPair {
        values: Listed::of(values),
        taints: Listed::of(taints),
    })
}
