// What the definitions of taint come to, for a reader who thinks of fillings of the tainted bits.
ghost use Rattle.std.specs.Prelude.{◌≡◌, ◌↔◌, ℕ, Bool, true, false, List};
ghost use Rattle.cif_defs.specs.Words.{Word};
ghost use Rattle.cif_defs.specs.Kinds.{is_coarse};
ghost use Rattle.cif_defs.specs.Cells.{Cell as CellData};
ghost use Rattle.cif_defs.specs.Completions.{CanDiffer, can_differ};
ghost use Rattle.cif_defs.specs.Taint.{output_bit, output_taint};

/// A law without a body. The test for exact taint that contracts cite is true exactly where two fillings of the tainted
/// operand bits give different bits: for any function of operand words, and so for each output of a cell whose taint is
/// exact.
pub fn exact_taint_is_by_fillings()
    ensures test { (f : List Word → Bool) (values taints : List Word)
        → (can_differ f values taints ≡ true) ↔ CanDiffer f values taints }
    ensures outputs { (c : CellData) (p i : ℕ) (values taints : List Word) → is_coarse c.kind ≡ false
        → (output_taint c p i values taints ≡ true) ↔ CanDiffer (output_bit c p i) values taints }
{}
