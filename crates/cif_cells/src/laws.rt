// What it is to be accepted.
ghost use Rattle.std.specs.Prelude.{◌↔◌};
ghost use Rattle.cif_defs.specs.declared.raw_module.Raw.{Raw as RawModule};
ghost use Rattle.cif_checks.specs.Checks.{IsAccepted, IsWellFormed, IsWithinCounts};

/// A law without a body. A module is accepted exactly where it is within the counts of cells, net bits and memory bits and
/// passes all other checks.
pub fn accepted_is_counted_and_well_formed()
    ensures { (raw : RawModule) → IsAccepted raw ↔ (IsWithinCounts raw × IsWellFormed raw) }
{}
