// Sessions and their lines.
ghost use Rattle.std.specs.Prelude.{◌≡◌, ◌<◌, ◌++◌, ◌∷◌, [], length, OnOk, OnErr};
ghost use Rattle.cif_script.specs.ScriptText.{with_line};

use cif_bits::NoMemory;
use cif_defs::Name;
use std::marker::Model;

/// A line of a session. The own cycle of a session is the one that it went to last.
#[derive(Clone, Copy, Debug, Drop, PartialEq, Eq)]
pub enum Line {
    /// Goes to a cycle, counted from 0.
    At(u64),
    /// Goes to the cycle after the own one, or to cycle 0 where there is none.
    Next,
    /// Goes to the newest cycle that is complete.
    Newest,
    /// Shows a wire in the own cycle; the number is that of the wire in the script.
    Show(u32),
}

/// Lines of a session, in their order.
#[derive(Debug, Drop)]
pub struct Lines {
    items: Vec<Line>,
}

impl Model for Lines {
    ghost use Rattle.std.specs.Prelude.{List};
    ghost use Rattle.cif_script.specs.declared.session.Line.{Line};

    ghost Value = { List Line };

    ghost view = { λ l. l.items.items };
}

impl Lines {
    /// These lines. It takes no memory.
    pub fn of(items: Vec<Line>) -> Lines
        ensures { result ≡ items.items }
    {
        Lines { items }
    }

    /// The lines.
    pub fn items(&self) -> &[Line]
        ensures { result.now ≡ self.now }
    {
        &self.items
    }

    /// Adds a line.
    fn push(&mut self, line: Line) -> Result<(), NoMemory>
        ensures ok { OnOk result (self.new ≡ self.old ++ line ∷ []) }
        ensures err { OnErr result (self.new ≡ self.old) }
    {
        self.items.push(line)?;
        Ok(())
    }
}

/// A session of a script.
#[derive(Debug, Drop)]
pub struct SessionScript {
    /// Its name.
    pub name: Name,
    /// Its lines.
    pub lines: Lines,
}

/// Adds a line to the last session. Where there is no memory, that session may be lost.
pub(crate) fn push_line(sessions: &mut Vec<SessionScript>, line: Line) -> Result<(), NoMemory>
    requires { 0 < length sessions.old.items }
    ensures { OnOk result (sessions.new.items ≡ with_line line sessions.old.items) }
{
    let Some(mut session) = sessions.pop() else {
        return Ok(());
    };
    session.lines.push(line)?;
    sessions.push(session)?;
    Ok(())
}
