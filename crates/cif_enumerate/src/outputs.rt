// The exact taint of the outputs of cells.

ghost use Rattle.std.specs.Prelude.{◌≡◌, ◌≤◌, length, map, IfOk};
ghost use Rattle.cif_defs.specs.Fitted.{IsFitted, operand_widths};
ghost use Rattle.cif_defs.specs.Kinds.{role_of};
ghost use Rattle.cif_defs.specs.Taint.{output_bit};
ghost use Rattle.cif_defs.specs.Words.{bit, operand};
ghost use Rattle.cif_enumerate.specs.ExactWords.{Takes, exact_bits, exact_words};

use crate::differ::can_differ;
use crate::function::Function;
use cif_bits::{Bits, NoMemory};
use cif_kinds::{Cell, Role};
use cif_meanings::meaning;
use std::alloc::Global;

/// A bit of an output of a combinational cell.
#[derive(Drop)]
pub struct OutputBit<'a> {
    /// The cell.
    pub cell: &'a Cell,
    /// The output.
    pub port: usize,
    /// The place in its word.
    pub index: u32,
}

/// A bit of one of some words, which is 0 outside them.
fn bit_at(words: &[Bits], port: usize, index: u32) -> bool
    ensures { result ≡ bit (operand words.now port) index }
{
    match words.get(port) {
        Some(word) => index < word.width() && word.get(index),
        None => false,
    }
}

impl Function for OutputBit<'_> {
    ghost takes = { λ f. Takes f.cell.now };

    ghost gives = { λ f. output_bit f.cell.now f.port f.index };

    fn bit(&self, alloc: Global, operands: &[Bits]) -> Result<bool, NoMemory> {
        let words = meaning(alloc, self.cell, operands)?;
        Ok(bit_at(&words, self.port, self.index))
    }
}

/// The exact taint of an output of `width` bits, by trying each completion of the operands' values.
fn exact_word(
    alloc: Global,
    cell: &Cell,
    port: usize,
    width: u32,
    values: &[Bits],
    taints: &[Bits],
) -> Result<Bits, NoMemory>
    requires limit { width ≤ 65536 }
    requires role { role_of cell.now.kind ≡ Role.Combinational }
    requires fitted { IsFitted cell.now }
    requires values { map length values.now ≡ operand_widths cell.now }
    requires taints { map length taints.now ≡ operand_widths cell.now }
    ensures { IfOk result (λ w. w ≡ exact_bits cell.now port width values.now taints.now) }
{
    let mut bits = Vec::new(alloc);
    for index in 0..width {
        let output = OutputBit { cell, port, index };
        bits.push(can_differ(alloc, &output, values, taints)?)?;
    }
    Ok(Bits::of(bits))
}

/// The exact taint of each output of a combinational cell, by trying each completion of the operands' values. The time doubles with
/// each tainted bit.
pub fn exact_taint(
    alloc: Global,
    cell: &Cell,
    values: &[Bits],
    taints: &[Bits],
) -> Result<Vec<Bits>, NoMemory>
    requires role { role_of cell.now.kind ≡ Role.Combinational }
    requires fitted { IsFitted cell.now }
    requires values { map length values.now ≡ operand_widths cell.now }
    requires taints { map length taints.now ≡ operand_widths cell.now }
    ensures { IfOk result (λ ws. ws.items ≡ exact_words cell.now values.now taints.now) }
{
    let outputs = meaning(alloc, cell, values)?;
    let mut words = Vec::new(alloc);
    for (port, output) in outputs.iter().enumerate() {
        words.push(exact_word(alloc, cell, port, output.width(), values, taints)?)?;
    }
    Ok(words)
}
