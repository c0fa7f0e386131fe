//! The names of a module that is built to augment another: all are distinct, so they stand in order, and what is added is what
//! augmentation says.
#![tactic(auto)]

ghost use Rattle.std.specs.Prelude.{◌≡◌, ◌≤◌, ℕ, List, None, length};
ghost use Rattle.cif_defs.specs.Order.{IsInOrder};
ghost use Rattle.cif_defs.specs.declared.raw_module.Raw.{Raw as RawModule};
ghost use Rattle.cif_checks.specs.Checks.{IsAccepted, cell_limit};
ghost use Rattle.cif_augment.specs.Augmented.{Adds, ClearsReleased};
ghost use Rattle.cif_augment.specs.Refusals.{names_fault, size_fault};
ghost use Rattle.cif_built.specs.Built.{IsBuilt};

/// A law without a body: a module that is built has what the other has, and beside it what augmentation adds, by name; where
/// the other isn't too large, it has few cells.
pub fn built_modules_add()
    ensures adds { (n a : RawModule) (released : List ℕ) → IsInOrder n → IsAccepted n → names_fault n ≡ None → IsBuilt n released a → Adds n a }
    ensures few { (n a : RawModule) (released : List ℕ) → IsInOrder n → IsAccepted n → size_fault n ≡ None → IsBuilt n released a
        → length a.cells ≤ cell_limit }
    ensures cleared { (n a : RawModule) (released : List ℕ) → IsInOrder n → IsAccepted n → names_fault n ≡ None → IsBuilt n released a
        → ClearsReleased n released a }
{}
