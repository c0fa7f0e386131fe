//! The form of a module that is built to augment another: it passes the checks of ports, cells, drivers, clock, bits that are
//! read, and initial values.
//!
//! What new cells read is known to be driven, and not to be the clock, from below: a bit that holds the taint of what a cell
//! shows is made of bits that hold the taints of what passes through that cell in the same cycle. So the cells of the first
//! module stand in an order, without a loop.
#![tactic(auto)]

ghost use Rattle.std.specs.Prelude.{◌≡◌, ℕ, List};
ghost use Rattle.cif_defs.specs.Accepted.{netlist_of};
ghost use Rattle.cif_defs.specs.Loop.{IsLevelled};
ghost use Rattle.cif_defs.specs.declared.raw_module.Raw.{Raw as RawModule};
ghost use Rattle.cif_checks.specs.Checks.{IsAccepted, IsWellFormed};
ghost use Rattle.cif_built.specs.Built.{IsBuilt};

/// A law without a body: a module that is built for an accepted one, whose cells stand in an order, is well formed.
pub fn built_modules_are_well_formed()
    ensures { (n a : RawModule) (released order : List ℕ) → IsAccepted n → IsLevelled (netlist_of n) order → IsBuilt n released a → IsWellFormed a }
{}
