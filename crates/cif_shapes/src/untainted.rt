// Operands of which no bit is tainted.
ghost use Rattle.std.specs.Prelude.{◌≡◌, List, IfOk};
ghost use Rattle.std.specs.List.{list_any};
ghost use Rattle.cif_defs.specs.Words.{Word, has_one};
ghost use Rattle.cif_defs.specs.Kinds.{role_of};
ghost use Rattle.cif_defs.specs.Fitted.{IsFitted};
ghost use Rattle.cif_term.specs.CellTaints.{taint_words};
ghost use Rattle.cif_shapes.specs.Untainted.{IsUntainted, untainted_words};

use cif_bits::{Bits, NoMemory};
use cif_defs::Role;
use cif_kinds::Cell;
use std::alloc::Global;

/// Whether a bit of some taint word is set.
pub fn is_tainted(taints: &[Bits]) -> bool
    ensures { result ≡ list_any has_one taints.now }
{
    taints.iter().any(|taint| taint.reduce_or())
}

/// The taint words of the outputs of a combinational cell where no bit of its operands is tainted: words of zeros, one
/// for each output, of the outputs' widths. The only error is want of memory.
pub fn untainted_words(alloc: Global, cell: &Cell) -> Result<Vec<Bits>, NoMemory>
    requires role { role_of cell.now.kind ≡ Role.Combinational }
    requires fitted { IsFitted cell.now }
    ensures zeros { IfOk result (λ ws. ws.items ≡ untainted_words cell.now) }
    ensures taints { IfOk result (λ ws. (values taints : List Word) → IsUntainted taints
        → ws.items ≡ taint_words cell.now values taints) }
{
    let outputs = cell.outputs();
    let mut words = Vec::with_capacity(alloc, outputs.len())?;
    for i in 0..outputs.len() {
        let targets = &outputs[i];
        let width = targets.items().len() as u32;
        words.push(Bits::zeros(alloc, width)?)?;
    }
    Ok(words)
}
