// What cells give: the words of their outputs, from the words of their operands.
//
// The meanings are those of the Yosys cell library for operands without x. A word has its lowest bit first, and words
// stand in the order of the ports in the table of kinds.
ghost use Rattle.std.specs.Prelude.{◌≡◌, length, map, IfOk};
ghost use Rattle.cif_defs.specs.Kinds.{role_of};
ghost use Rattle.cif_defs.specs.Cells.{meaning};
ghost use Rattle.cif_defs.specs.Fitted.{IsFitted, operand_widths};

mod bitwise;
mod choices;
mod flags;
mod joins;
pub mod numbers;
mod rows;
mod shifts;

use cif_bits::{Bits, NoMemory};
use cif_defs::{Kind, Role};
use cif_kinds::Cell;
use std::alloc::Global;

/// The words that a combinational cell gives, from the words of its operands: one for each output.
///
/// The operands have the widths that the cell says.
pub fn meaning(alloc: Global, cell: &Cell, operands: &[Bits]) -> Result<Vec<Bits>, NoMemory>
    requires role { role_of cell.now.kind ≡ Role.Combinational }
    requires fitted { IsFitted cell.now }
    requires shape { map length operands.now ≡ operand_widths cell.now }
    ensures { IfOk result (λ ws. ws.items ≡ meaning cell.now operands.now) }
{
    match cell.kind() {
        Kind::Not
        | Kind::Pos
        | Kind::ReduceAnd
        | Kind::ReduceOr
        | Kind::ReduceXor
        | Kind::ReduceXnor
        | Kind::ReduceBool
        | Kind::LogicNot => rows::one(alloc, rows::unary_word(alloc, cell, operands)?),
        Kind::And | Kind::Or | Kind::Xor | Kind::Xnor | Kind::LogicAnd | Kind::LogicOr => {
            rows::one(alloc, rows::binary_word(alloc, cell, operands)?)
        }
        Kind::Shl | Kind::Sshl | Kind::Shr | Kind::Sshr | Kind::Shift | Kind::Shiftx => {
            rows::one(alloc, rows::shift_word(alloc, cell, operands)?)
        }
        Kind::Slice => rows::one(alloc, rows::slice_word(alloc, cell, operands)?),
        Kind::Concat => rows::one(alloc, rows::concat_word(alloc, cell, operands)?),
        Kind::Mux => rows::one(alloc, rows::mux_word(alloc, cell, operands)?),
        Kind::Pmux => rows::one(alloc, rows::pmux_word(alloc, cell, operands)?),
        Kind::Bmux => rows::one(alloc, rows::bmux_word(alloc, cell, operands)?),
        Kind::Demux => rows::one(alloc, rows::demux_word(alloc, cell, operands)?),
        Kind::Lut => rows::one(alloc, rows::lut_word(alloc, cell, operands)?),
        Kind::Fa => rows::fa_words(alloc, cell, operands),
        _ => numbers::number_words(alloc, cell, operands),
    }
}
