// Functions from operand words to a bit.

ghost use Rattle.std.specs.Prelude.{◌≡◌, ℕ, Bool, List, length, map, IfOk};
ghost use Rattle.cif_defs.specs.Words.{Word};

use cif_bits::{Bits, NoMemory};
use std::alloc::Global;

/// A bit that depends on operand words.
pub trait Function {
    /// Whether it takes operands of these widths.
    ghost takes: { Self → List ℕ → Type 0 };

    /// The bit that it gives.
    ghost gives: { Self → List Word → Bool };

    /// The bit for these operands.
    fn bit(&self, alloc: Global, operands: &[Bits]) -> Result<bool, NoMemory>
        requires { takes self.now (map length operands.now) }
        ensures { IfOk result (λ b. b ≡ gives self.now operands.now) };
}
