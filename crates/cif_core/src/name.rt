// The name of a run.
ghost use Rattle.std.specs.Prelude.{ℕ};
ghost use Rattle.cif_seq.specs.Cases.{CaseOf};
ghost use Rattle.cif_pieces.specs.Plans.{PlanOf};
ghost use Rattle.cif_core.specs.Name.{no_case, no_plan};

use std::marker::Brand;
use std::sync::ledger::Ledger;

/// The name of a run, which says its case, its plan, its window and its number of sessions. A program that starts a run
/// picks these for it; whatever carries the name then has them.
pub trait Run: Ledger {
    ghost case: { CaseOf };

    ghost plan: { PlanOf };

    ghost window: { ℕ };

    ghost sessions: { ℕ };
}

impl Run for Brand {
    ghost case = { no_case };

    ghost plan = { no_plan };

    ghost window = { 2 };

    ghost sessions = { 0 };
}
