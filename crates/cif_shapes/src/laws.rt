// What shapes and the absence of taint decide, for a reader who thinks of the definitions.
ghost use Rattle.std.specs.Prelude.{◌≡◌, ℕ, List, false, length, map};
ghost use Rattle.cif_defs.specs.Words.{Word, bit, operand};
ghost use Rattle.cif_defs.specs.Kinds.{role_of};
ghost use Rattle.cif_defs.specs.Cells.{Cell as CellData};
ghost use Rattle.cif_defs.specs.Fitted.{IsFitted, operand_widths, row_width};
ghost use Rattle.cif_defs.specs.Table.{outputs_of};
ghost use Rattle.cif_term.specs.CellTaints.{AreOperands, taint_words};
ghost use Rattle.cif_shapes.specs.Shapes.{shape_of};
ghost use Rattle.cif_shapes.specs.Untainted.{IsUntainted};

use cif_defs::Role;

/// A law without a body. Combinational cells of one shape have operands of the same widths, and for the same operand
/// words the same taint words.
pub fn shape_decides()
    ensures widths { (c d : CellData) → role_of c.kind ≡ Role.Combinational → IsFitted c → IsFitted d
        → shape_of c ≡ shape_of d → operand_widths c ≡ operand_widths d }
    ensures taints { (c d : CellData) (values taints : List Word) → role_of c.kind ≡ Role.Combinational
        → IsFitted c → shape_of c ≡ shape_of d → AreOperands c values
        → taint_words c values taints ≡ taint_words d values taints }
{}

/// A law without a body. Where no bit of the operands is tainted, no bit of the outputs is, and the taint words have the
/// widths of the outputs: for every kind, whether its taint is exact or coarse, and whatever the operand words are.
pub fn untainted_stay_untainted()
    ensures bits { (c : CellData) (values taints : List Word) → IsUntainted taints
        → (p i : ℕ) → bit (operand (taint_words c values taints) p) i ≡ false }
    ensures widths { (c : CellData) (values taints : List Word) → IsUntainted taints
        → map length (taint_words c values taints) ≡ map (row_width c) (outputs_of c.kind) }
{}
