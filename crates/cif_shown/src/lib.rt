//! Which net bits show what their drivers give while a cycle is evaluated, and why any order of work that ends with all of
//! them is right. It has no code but its laws: `cif_seq` evaluates by them.
#![tactic(auto)]

ghost use Rattle.std.specs.Prelude.{◌≡◌, ℕ, Bool, true, List, length};
ghost use Rattle.cif_defs.specs.Evaluation.{is_of_cell};
ghost use Rattle.cif_defs.specs.Loop.{IsLevelled};
ghost use Rattle.cif_defs.specs.Netlist.{IsWired, Netlist, driver_of};
ghost use Rattle.cif_defs.specs.Run.{value_in};
ghost use Rattle.cif_defs.specs.TaintRun.{settled_taint};
ghost use Rattle.cif_defs.specs.Words.{bit};
ghost use Rattle.cif_shown.specs.Shown.{Given, SameAtOperands, Shows, taint_given, value_given};

/// A law without a body: the settled values and taints are the one assignment in which each net bit shows what its driver
/// gives under all bits.
pub fn settled_is_unique()
    ensures values { (n : Netlist) (order : List ℕ) (g : Given) (values taints : List Bool) → IsWired n → IsLevelled n order
        → ((b : ℕ) → Shows n g values taints b) → (b : ℕ) → bit values b ≡ value_in n g.stored g.input b }
    ensures taints { (n : Netlist) (order : List ℕ) (g : Given) (values taints : List Bool) → IsWired n → IsLevelled n order
        → ((b : ℕ) → Shows n g values taints b) → (b : ℕ) → bit taints b
        ≡ settled_taint n g.stored (value_in n g.stored g.input) g.state g.taint_input g.released (length n.cells) b }
{}

/// A law without a body: what a driver gives, and its taint, are the same where the operand bits that count of its cell
/// have the same values and taints.
#[tactic(auto, using(crate::proofs::ByReads::value_by_operands, crate::proofs::ByReads::taint_by_operands))]
pub fn given_by_operands()
    ensures values { (n : Netlist) (g : Given) (u v : ℕ → Bool) (b : ℕ) → IsWired n
        → ((c : ℕ) → is_of_cell c (driver_of n b) ≡ true → SameAtOperands n c u v) → value_given n g u b ≡ value_given n g v b }
    ensures taints { (n : Netlist) (g : Given) (u v s t : ℕ → Bool) (b : ℕ) → IsWired n
        → ((c : ℕ) → is_of_cell c (driver_of n b) ≡ true → SameAtOperands n c u v)
        → ((c : ℕ) → is_of_cell c (driver_of n b) ≡ true → SameAtOperands n c s t) → taint_given n g u s b ≡ taint_given n g v t b }
{}
