//! A module that is built to augment another augments it: what is proved of its names, its form, the order of its cells and
//! its runs, brought together.
#![tactic(auto)]

ghost use Rattle.std.specs.Prelude.{◌≡◌, ℕ, List, None};
ghost use Rattle.cif_defs.specs.Accepted.{netlist_of};
ghost use Rattle.cif_defs.specs.Loop.{IsLevelled};
ghost use Rattle.cif_defs.specs.Order.{IsInOrder};
ghost use Rattle.cif_defs.specs.declared.raw_module.Raw.{Raw as RawModule};
ghost use Rattle.cif_checks.specs.Checks.{IsAccepted};
ghost use Rattle.cif_augment.specs.Augmented.{Augments, ClearsReleased};
ghost use Rattle.cif_augment.specs.Refusals.{instrument_fault};
ghost use Rattle.cif_built.specs.Built.{IsBuilt};

use cif_built_form::built_modules_are_well_formed;
use cif_built_names::built_modules_add;
use cif_built_order::built_modules_have_ranks;
use cif_built_runs::built_modules_show_taint;
use cif_raw_runs::ranks_and_orders;

/// A law: where an accepted module whose cells stand in an order isn't refused, a module that is built for it augments it, and
/// clears the taint of released bits. Its body brings in the laws of names, form, order and runs.
pub fn built_modules_augment()
    ensures augments { (n a : RawModule) (released order : List ℕ) → IsInOrder n → IsAccepted n → instrument_fault n ≡ None → IsLevelled (netlist_of n) order
        → IsBuilt n released a → Augments n released a }
    ensures cleared { (n a : RawModule) (released order : List ℕ) → IsInOrder n → IsAccepted n → instrument_fault n ≡ None → IsLevelled (netlist_of n) order
        → IsBuilt n released a → ClearsReleased n released a }
{
    built_modules_add();
    built_modules_are_well_formed();
    built_modules_have_ranks();
    built_modules_show_taint();
    ranks_and_orders();
}
