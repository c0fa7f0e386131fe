// Scripts.
ghost use Rattle.std.specs.Prelude.{◌≡◌, ◌<◌, ◌≤◌, length, true};
ghost use Rattle.std.specs.List.{list_all};
ghost use Rattle.cif_script.specs.Scripts.{IsKept, is_inside, session_limit, wire_at};

use crate::session::SessionScript;
use cif_defs::Wire;
use std::marker::Model;

/// What up to 16 sessions ask for, and the wires that their lines show: each once, in the order in which they are first
/// shown.
#[derive(Drop)]
pub struct Script {
    sessions: Vec<SessionScript>,
    wires: Vec<Wire>,
}

impl Model for Script {
    ghost use Rattle.cif_script.specs.Scripts.{ScriptData, IsKept};

    ghost Value = { ScriptData };

    ghost view = { λ s. record { sessions = s.sessions.items; wires = s.wires.items } };

    ghost invariant = { λ s. IsKept (record { sessions = s.sessions.items; wires = s.wires.items }) };
}

impl Script {
    /// The script of these sessions and wires.
    pub(crate) fn of(sessions: Vec<SessionScript>, wires: Vec<Wire>) -> Script
        requires { IsKept (record { sessions = sessions.items; wires = wires.items }) }
        ensures { result ≡ record { sessions = sessions.items; wires = wires.items } }
    {
        Script { sessions, wires }
    }

    /// The sessions, in their order. There are at most 16, and each number that a line shows is that of a wire.
    pub fn sessions(&self) -> &[SessionScript]
        ensures value { result.now ≡ self.now.sessions }
        ensures few { length result.now ≤ session_limit }
        ensures inside { list_all (is_inside (length self.now.wires)) result.now ≡ true }
    {
        &self.sessions
    }

    /// The wires that lines show, each once, in the order in which they are first shown.
    pub fn wires(&self) -> &[Wire]
        ensures { result.now ≡ self.now.wires }
    {
        &self.wires
    }

    /// The wire of a number.
    pub fn wire(&self, number: u32) -> &Wire
        requires { number < length self.now.wires }
        ensures { result.now ≡ wire_at self.now.wires number }
    {
        &self.wires[number as usize]
    }
}
