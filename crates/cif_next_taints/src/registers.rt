// The taint that the new cell of a register stores next.
ghost use Rattle.std.specs.Prelude.{◌≡◌, ◌++◌, ◌∷◌, [], true, IfOk, IsSome};
ghost use Rattle.cif_defs.specs.Kinds.{is_register, role_of};
ghost use Rattle.cif_defs.specs.Cells.{width as width_of};
ghost use Rattle.cif_defs.specs.Fitted.{IsFitted};
ghost use Rattle.cif_emit.specs.Emitted.{IsEmitted};
ghost use Rattle.cif_emit.specs.Handed.{IsKept};
ghost use Rattle.cif_next_taints.specs.Next.{AreRegisterOperands, IsNextRegister, bits_of};

use crate::operands::followed_by;
use cif_bits::NoMemory;
use cif_defs::{RawBit, RawCell};
use cif_emit::{NameMaker, OperandPair, emit};
use cif_kinds::Cell;
use rule_state::next_taint_term;
use std::alloc::Global;

/// Appends the cells that compute the taint of what a register stores next, and gives the bits that hold it.
///
/// The operands are D and the controls in the order of the table of kinds, each with its taint, and `stored` has the bits
/// that hold the word that the register stores now, and those that hold its taint, of WIDTH bits. `begin` has been called
/// on `names`. At most 31 cells are appended, and WIDTH bits given. Under every assignment of the net numbers that meets
/// these cells, the bits read the exact taint of the next word. The meanings of registers are those of the Yosys cell
/// library for values without x, and a taint bit means what it does in GLIFT and CellIFT. The only error is want of memory.
pub fn next_register(
    alloc: Global,
    cell: &Cell,
    operands: &[OperandPair],
    stored: OperandPair,
    names: &mut NameMaker,
    cells: &mut Vec<RawCell>,
) -> Result<Vec<RawBit>, NoMemory>
    requires role { is_register (role_of cell.now.kind) ≡ true }
    requires fitted { IsFitted cell.now }
    requires operands { AreRegisterOperands cell.now operands.now stored }
    requires begun { IsSome names.old.cell }
    ensures kept { IsKept names.old names.new }
    ensures ok { IfOk result (λ bits. IsEmitted names.old names.new cells.old.items cells.new.items
        (bits_of (operands.now ++ stored ∷ [])) (IsNextRegister cell.now operands.now stored) 31 (width_of cell.now) bits.items) }
{
    let term = next_taint_term(alloc, cell)?;
    let operands = followed_by(alloc, operands, stored)?;
    let bits = emit(alloc, &term, &operands, names, cells)?;
    Ok(Vec::from_slice(alloc, bits.items())?)
}
