// What holds over every list of events.
ghost use Rattle.std.specs.Prelude.{◌≡◌, ◌+◌, ◌*◌, ◌<◌, ◌≤◌, ℕ, List, length, Some};
ghost use Rattle.cif_seq.specs.Cases.{CaseOf};
ghost use Rattle.cif_core.specs.Events.{AreNotBy, Event, Happen};
ghost use Rattle.cif_core.specs.Frames.{kept_frames};
ghost use Rattle.cif_core.specs.Kept.{IsKept};
ghost use Rattle.cif_core.specs.Machine.{State, floor, fresh, taken, wanted, want_at};

/// A law without a body. Whatever events happened since the opening, each meeting its call's conditions: what a core keeps
/// holds, no more frames are kept than one more than the window, and no more pieces are taken than the parts of the cycles
/// done and of one more.
pub fn events_keep()
    ensures kept { (c : CaseOf) (n w q : ℕ) (events : List Event) (s : State) → 0 < n
        → Happen c n w q (fresh n q) events s → IsKept c n w q s }
    ensures frames { (c : CaseOf) (n w q : ℕ) (events : List Event) (s : State) → 0 < n
        → Happen c n w q (fresh n q) events s → length (kept_frames c s) ≤ w + 1 }
    ensures taken { (c : CaseOf) (n w q : ℕ) (events : List Event) (s : State) → 0 < n
        → Happen c n w q (fresh n q) events s → taken n s ≤ s.done * n + n }
{}

/// A law without a body. After a session wanted a cycle, whatever events happen, as long as that session wants nothing else
/// and doesn't leave: the floor doesn't pass the cycle. So `look` at it doesn't answer `Gone`.
pub fn wants_are_kept()
    ensures { (c : CaseOf) (n w q session cycle : ℕ) (events : List Event) (s t : State)
        → session < length s.wants → AreNotBy session events
        → Happen c n w q (wanted s session cycle) events t → floor t ≤ cycle }
{}
