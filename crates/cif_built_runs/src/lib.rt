//! Runs of a module that is built to augment another: in each cycle it shows the values and the taints of the other.
#![tactic(auto)]

ghost use Rattle.std.specs.Prelude.{◌≡◌, ℕ, List, None, true};
ghost use Rattle.cif_defs.specs.Accepted.{netlist_of};
ghost use Rattle.cif_defs.specs.Order.{IsInOrder};
ghost use Rattle.cif_defs.specs.Stimulus.{Stimulus};
ghost use Rattle.cif_defs.specs.declared.raw_module.Raw.{Raw as RawModule};
ghost use Rattle.cif_checks.specs.Checks.{IsAccepted};
ghost use Rattle.cif_stimulus.specs.Fitting.{fits_of};
ghost use Rattle.cif_raw_runs.specs.Ranks.{IsRunnable};
ghost use Rattle.cif_augment.specs.Augmented.{Adds, ShowsTaint};
ghost use Rattle.cif_augment.specs.Refusals.{names_fault};
ghost use Rattle.cif_augment.specs.Stimuli.{ReleasesExactly, augmented};
ghost use Rattle.cif_built.specs.Built.{IsBuilt};

use cif_built_inputs::augmented_stimuli_give_taints_as_values;

/// A law: under the augmented stimulus a module that is built shows in each cycle the values and the taints that the other
/// has under the stimulus. Its body brings in the law of what such a stimulus gives.
pub fn built_modules_show_taint()
    ensures { (n a : RawModule) (released : List ℕ) (r q : ℕ → ℕ) (s : Stimulus) (k : ℕ) → IsAccepted n → IsRunnable n r → IsRunnable a q
        → names_fault n ≡ None → Adds n a → IsBuilt n released a → fits_of n s ≡ true → ReleasesExactly released s
        → ShowsTaint n a s (augmented (netlist_of n) s) k }
{
    augmented_stimuli_give_taints_as_values();
}
