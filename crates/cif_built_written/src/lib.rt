//! A module that is built to augment another can be written where the other can: new names are names of the other with
//! letters and digits behind them, and texts in new cells are texts of the table of kinds.
#![tactic(auto)]

ghost use Rattle.std.specs.Prelude.{◌≡◌, ℕ, List, None};
ghost use Rattle.std.specs.List.{AllByRecursion};
ghost use Rattle.cif_defs.specs.Order.{IsInOrder};
ghost use Rattle.cif_defs.specs.declared.raw_module.Raw.{Raw as RawModule};
ghost use Rattle.cif_checks.specs.Checks.{IsAccepted};
ghost use Rattle.cif_json.specs.Writable.{IsCellWritable, IsWritable};
ghost use Rattle.cif_augment.specs.Refusals.{names_fault};
ghost use Rattle.cif_built.specs.Built.{IsBuilt};
ghost use Rattle.cif_built.specs.Makings.{Making, state_cells};

use cif_built_names::built_modules_add;

/// A law: a module that is built for an accepted one can be written where the other can and the new cells that store can. Its
/// body brings in the law of names, by which they stand in order.
pub fn built_modules_are_writable()
    ensures { (n a : RawModule) (released : List ℕ) → IsInOrder n → IsAccepted n → names_fault n ≡ None → (built : IsBuilt n released a)
        → AllByRecursion (λ (m : Making). AllByRecursion IsCellWritable (state_cells m)) built.makings → IsWritable n → IsWritable a }
{
    built_modules_add();
}
