//! What an augmented stimulus says to an augmented module: what its ports hold in each cycle, and what its cells start with,
//! are the values and the taints that the other module is given.
#![tactic(auto)]

ghost use Rattle.std.specs.Prelude.{◌≡◌, ℕ, List, Contains, None, true};
ghost use Rattle.cif_defs.specs.Accepted.{netlist_of};
ghost use Rattle.cif_defs.specs.Order.{IsInOrder};
ghost use Rattle.cif_defs.specs.Stimulus.{Stimulus};
ghost use Rattle.cif_defs.specs.declared.raw_module.Raw.{Raw as RawModule};
ghost use Rattle.cif_checks.specs.Checks.{IsAccepted};
ghost use Rattle.cif_stimulus.specs.Fitting.{fits_of};
ghost use Rattle.cif_augment.specs.Augmented.{Adds};
ghost use Rattle.cif_augment.specs.Refusals.{names_fault};
ghost use Rattle.cif_augment.specs.Stimuli.{augmented};
ghost use Rattle.cif_built.specs.Built.{IsBuilt};
ghost use Rattle.cif_built_inputs.specs.Given.{GivesInputs, GivesStarts};

/// A law without a body: the augmented stimulus gives input ports and cells of an augmented module what the stimulus gives
/// them, as values, and their taints.
pub fn augmented_stimuli_give_taints_as_values()
    ensures inputs { (n a : RawModule) (s : Stimulus) (k : ℕ) → IsInOrder n → IsAccepted n → names_fault n ≡ None → Adds n a → fits_of n s ≡ true
        → GivesInputs n a s (augmented (netlist_of n) s) k }
    ensures starts { (n a : RawModule) (released : List ℕ) (s : Stimulus) → IsInOrder n → IsAccepted n → names_fault n ≡ None → Adds n a
        → IsBuilt n released a → fits_of n s ≡ true
        → GivesStarts n a s (augmented (netlist_of n) s) }
{}
