//! Runs of a raw module by its net numbers and by names of its cells and ports, where a netlist has places of them.
//!
//! In each cycle the values of the net numbers are the one assignment that has what is given: what input ports hold, what
//! cells give for the words read at their operands and for what they store, and 0 for the clock. So are the taints, beside
//! the values. It has no code but its laws: a module that is made of another is compared with it by them.
#![tactic(auto)]

ghost use Rattle.std.specs.Prelude.{◌≡◌, ℕ, Bool, List, Contains, Some, option_map};
ghost use Rattle.cif_defs.specs.Accepted.{netlist_of};
ghost use Rattle.cif_defs.specs.Kinds.{role_of};
ghost use Rattle.cif_defs.specs.Loop.{IsLevelled, IsLoop};
ghost use Rattle.cif_defs.specs.Netlist.{IsWired, Netlist};
ghost use Rattle.cif_defs.specs.Order.{IsInOrder};
ghost use Rattle.cif_defs.specs.RawModule.{net_numbers};
ghost use Rattle.cif_defs.specs.Stimulus.{Stimulus};
ghost use Rattle.cif_defs.specs.Table.{kind_of};
ghost use Rattle.cif_defs.specs.declared.kinds.Kind.{Kind};
ghost use Rattle.cif_defs.specs.declared.kinds.Role.TheVariants.{Combinational};
ghost use Rattle.cif_defs.specs.declared.raw_module.Raw.{Raw as RawModule};
ghost use Rattle.cif_defs.specs.declared.raw_module.RawCell.{RawCell};
ghost use Rattle.cif_checks.specs.Checks.{IsWellFormed};
ghost use Rattle.cif_raw_runs.specs.Assigned.{AreMet};
ghost use Rattle.cif_raw_runs.specs.Given.{Advances, AreAsLong, AreTaints, AreValues, Starts};
ghost use Rattle.cif_raw_runs.specs.Places.{net_taint, net_value};
ghost use Rattle.cif_raw_runs.specs.Ranks.{AreRanks, IsRunnable};

/// A law without a body: the values of a run at cycle `k` have what is given then, and no other values have it at the net
/// numbers of the module.
pub fn values_are_what_is_given()
    ensures given { (raw : RawModule) (r : ℕ → ℕ) (ns : List ℕ) (s : Stimulus) (k : ℕ) → IsRunnable raw r → AreValues ns raw s k (net_value raw s k) }
    ensures unique { (raw : RawModule) (r : ℕ → ℕ) (ns : List ℕ) (s : Stimulus) (k : ℕ) (v : ℕ → Bool) → IsRunnable raw r → AreValues ns raw s k v
        → (x : ℕ) → Contains (net_numbers raw) x → v x ≡ net_value raw s k x }
{}

/// A law without a body: the same of taints, beside values that are those of the run.
pub fn taints_are_what_is_given()
    ensures given { (raw : RawModule) (r : ℕ → ℕ) (ns : List ℕ) (s : Stimulus) (k : ℕ) (v : ℕ → Bool) → IsRunnable raw r
        → ((x : ℕ) → Contains (net_numbers raw) x → v x ≡ net_value raw s k x) → AreTaints ns raw s k v (net_taint raw s k) }
    ensures unique { (raw : RawModule) (r : ℕ → ℕ) (ns : List ℕ) (s : Stimulus) (k : ℕ) (v t : ℕ → Bool) → IsRunnable raw r
        → ((x : ℕ) → Contains (net_numbers raw) x → v x ≡ net_value raw s k x) → AreTaints ns raw s k v t
        → (x : ℕ) → Contains (net_numbers raw) x → t x ≡ net_taint raw s k x }
{}

/// A law without a body: what a cell stores at cycle 0 and after each cycle, with its taint and flag, and how long the words
/// are.
pub fn cells_store_by_name()
    ensures starts { (raw : RawModule) (ns : List ℕ) (s : Stimulus) (c : RawCell) → IsInOrder raw → Contains raw.cells c → Starts ns raw s c }
    ensures advances { (raw : RawModule) (ns : List ℕ) (s : Stimulus) (k : ℕ) (v t : ℕ → Bool) (c : RawCell) (kind : Kind) → IsInOrder raw → Contains raw.cells c
        → kind_of c.kind ≡ Some kind → ((x : ℕ) → Contains (net_numbers raw) x → v x ≡ net_value raw s k x)
        → ((x : ℕ) → Contains (net_numbers raw) x → t x ≡ net_taint raw s k x) → Advances ns raw s k v t c kind }
    ensures as_long { (raw : RawModule) (ns : List ℕ) (s : Stimulus) (k : ℕ) (v t : ℕ → Bool) (c : RawCell) (kind : Kind) → IsInOrder raw → Contains raw.cells c
        → kind_of c.kind ≡ Some kind → AreAsLong ns raw s k v t c kind }
{}

/// A law without a body: values that have what is given meet each combinational cell of the module.
pub fn combinational_cells_are_met()
    ensures { (ns : List ℕ) (raw : RawModule) (s : Stimulus) (k : ℕ) (v : ℕ → Bool) (cells : List RawCell) → AreValues ns raw s k v
        → ((c : RawCell) → Contains cells c → Contains raw.cells c × (option_map role_of (kind_of c.kind) ≡ Some Combinational)) → AreMet v cells }
{}

/// A law without a body: a module whose cells stand in an order has runs, and ranks of the cells leave no loop.
pub fn ranks_and_orders()
    ensures runnable { (raw : RawModule) (order : List ℕ) → IsWellFormed raw → IsInOrder raw → IsWired (netlist_of raw) → IsLevelled (netlist_of raw) order
        → (r : ℕ → ℕ) × IsRunnable raw r }
    ensures no_loop { (n : Netlist) (r : ℕ → ℕ) (cells : List ℕ) → AreRanks n r → ¬ IsLoop n cells }
{}
