//! The order of the cells of a module that is built to augment another: where the other has no loop, its cells have ranks that
//! rise from each cell to those that it drives.
#![tactic(auto)]

ghost use Rattle.std.specs.Prelude.{◌≡◌, ℕ, List};
ghost use Rattle.cif_defs.specs.Accepted.{netlist_of};
ghost use Rattle.cif_defs.specs.Loop.{IsLevelled};
ghost use Rattle.cif_defs.specs.Order.{IsInOrder};
ghost use Rattle.cif_defs.specs.declared.raw_module.Raw.{Raw as RawModule};
ghost use Rattle.cif_checks.specs.Checks.{IsAccepted, IsWellFormed};
ghost use Rattle.cif_raw_runs.specs.Ranks.{AreRanks};
ghost use Rattle.cif_augment.specs.Augmented.{Adds};
ghost use Rattle.cif_built.specs.Built.{IsBuilt};

/// A law without a body: where the cells of an accepted module stand in an order, those of a module that is built for it have
/// ranks.
pub fn built_modules_have_ranks()
    ensures { (n a : RawModule) (released order : List ℕ) → IsInOrder n → IsAccepted n → IsLevelled (netlist_of n) order → Adds n a → IsBuilt n released a
        → IsWellFormed a → (r : ℕ → ℕ) × AreRanks (netlist_of a) r }
{}
