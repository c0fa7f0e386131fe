// Reading the lines of a script that follow the title.
ghost use Rattle.std.specs.Prelude.{◌≡◌, ◌<◌, Ok, true, length, IfErr, OnOk};
ghost use Rattle.cif_defs.specs.Text.{words_of};
ghost use Rattle.cif_cells.specs.Finding.{found_of};
ghost use Rattle.cif_script.specs.Scripts.{IsKept};
ghost use Rattle.cif_script.specs.ScriptText.{is_begun as is_begun_among, begun, asked, show_read, may_stand as may_stand_in, said_read, line_read, no_sessions};
ghost use Rattle.cif_script.specs.Seen.{IsFirst, IsTable, so_far};

use crate::fault::ScriptFault;
use crate::form::{Said, form_of};
use crate::script::Script;
use crate::session::{Line, Lines, SessionScript, push_line};
use crate::wires::WireTable;
use cif_bits::NoMemory;
use cif_cells::{Found, Netlist};
use cif_defs::Name;
use cif_stim_read::Line as TextLine;
use std::alloc::Global;

/// The most sessions.
const SESSION_LIMIT: usize = 16;

/// Whether one of some sessions has a name.
fn is_begun(sessions: &[SessionScript], name: &[u8]) -> bool
    ensures { result ≡ is_begun_among name.now sessions.now }
{
    sessions.iter().any(|session| session.name.items() == name)
}

/// What is read so far.
#[derive(Drop)]
pub struct Reader<'a> {
    sessions: Vec<SessionScript>,
    table: WireTable<'a>,
}

impl<'a> Reader<'a> {
    /// Nothing is read but the title.
    pub fn new(alloc: Global) -> Reader<'a>
        ensures table { IsTable result.table }
        ensures value { so_far result ≡ no_sessions }
    {
        Reader {
            sessions: Vec::new(alloc),
            table: WireTable::new(alloc),
        }
    }

    /// The script that is read.
    pub fn finish(self) -> Script
        requires { IsKept (so_far self) }
        ensures { result ≡ so_far self.entry }
    {
        Script::of(self.sessions, self.table.wires)
    }

    /// Whether a line may stand after those that are read.
    fn may_stand(&self, said: &Said) -> bool
        ensures { result ≡ may_stand_in (so_far self.now) said.now }
    {
        matches!(said, Said::Session(_)) || !self.sessions.is_empty()
    }

    /// Begins a session.
    fn begin(&mut self, alloc: Global, number: u64, name: Name) -> Result<(), ScriptFault>
        requires { IsTable self.old.table }
        ensures table { OnOk result (IsTable self.new.table) }
        ensures ok { OnOk result (begun (so_far self.old) number name ≡ Ok (so_far self.new)) }
        ensures err { IfErr result (IsFirst (begun (so_far self.old) number name)) }
    {
        if is_begun(&self.sessions, name.items()) {
            return Err(ScriptFault::SameName(number));
        }
        if self.sessions.len() >= SESSION_LIMIT {
            return Err(ScriptFault::TooManySessions);
        }
        let lines = Lines::of(Vec::new(alloc));
        self.sessions.push(SessionScript { name, lines })?;
        Ok(())
    }

    /// Adds a line to the session that was begun last.
    fn ask(&mut self, line: Line) -> Result<(), NoMemory>
        requires table { IsTable self.old.table }
        requires begun { 0 < length self.old.sessions.items }
        ensures table { OnOk result (IsTable self.new.table) }
        ensures ok { OnOk result (so_far self.new ≡ asked line (so_far self.old)) }
    {
        push_line(&mut self.sessions, line)
    }

    /// Adds a line that shows what has a name.
    fn show(
        &mut self,
        alloc: Global,
        netlist: &'a Netlist,
        number: u64,
        name: &[u8],
    ) -> Result<(), ScriptFault>
        requires table { IsTable self.old.table }
        requires begun { 0 < length self.old.sessions.items }
        ensures table { OnOk result (IsTable self.new.table) }
        ensures ok { OnOk result (show_read (so_far self.old) number (found_of netlist.now name.now)
            ≡ Ok (so_far self.new)) }
        ensures err { IfErr result
            (IsFirst (show_read (so_far self.old) number (found_of netlist.now name.now))) }
    {
        match netlist.find(name) {
            Found::Wire(wire) => {
                let place = self.table.add(alloc, wire)?;
                push_line(&mut self.sessions, Line::Show(place))?;
                Ok(())
            }
            Found::NotTwoValued => Err(ScriptFault::NotTwoValued(number)),
            Found::Missing => Err(ScriptFault::NoSuchName(number)),
        }
    }

    /// Reads what a line says that may stand at its place.
    fn take_said(
        &mut self,
        alloc: Global,
        netlist: &'a Netlist,
        number: u64,
        said: Said,
    ) -> Result<(), ScriptFault>
        requires table { IsTable self.old.table }
        requires place { may_stand_in (so_far self.old) said ≡ true }
        ensures table { OnOk result (IsTable self.new.table) }
        ensures ok { OnOk result (said_read netlist.now (so_far self.old) number said
            ≡ Ok (so_far self.new)) }
        ensures err { IfErr result
            (IsFirst (said_read netlist.now (so_far self.old) number said)) }
    {
        match said {
            Said::Session(name) => self.begin(alloc, number, name),
            Said::At(cycle) => Ok(self.ask(Line::At(cycle))?),
            Said::Next => Ok(self.ask(Line::Next)?),
            Said::Newest => Ok(self.ask(Line::Newest)?),
            Said::Show(name) => self.show(alloc, netlist, number, name.items()),
        }
    }

    /// Reads a line.
    pub fn take_line(
        &mut self,
        alloc: Global,
        netlist: &'a Netlist,
        line: &TextLine<'_>,
    ) -> Result<(), ScriptFault>
        requires { IsTable self.old.table }
        ensures table { OnOk result (IsTable self.new.table) }
        ensures ok { OnOk result (line_read netlist.now (so_far self.old)
            (record { number = line.now.number; words = words_of line.now.text.now })
            ≡ Ok (so_far self.new)) }
        ensures err { IfErr result (IsFirst (line_read netlist.now (so_far self.old)
            (record { number = line.now.number; words = words_of line.now.text.now }))) }
    {
        let Some(said) = form_of(alloc, line.text)? else {
            return Err(ScriptFault::BadLine(line.number));
        };
        if !self.may_stand(&said) {
            return Err(ScriptFault::BadLine(line.number));
        }
        self.take_said(alloc, netlist, line.number, said)
    }
}
