// A session at its lines, as a role.
ghost use Rattle.std.specs.Prelude.{◌≡◌, ◌<◌, None, true, length, IfOk, IfSome, OnErr};
ghost use Rattle.std.specs.List.{All, list_all};
ghost use Rattle.cif_seq.specs.Cases.{net_of};
ghost use Rattle.cif_script.specs.Legal.{IsTranscript};
ghost use Rattle.cif_script.specs.Scripts.{is_line_inside};
ghost use Rattle.cif_script.specs.ShownWires.{IsWireOf};
ghost use Rattle.cif_run.specs.Readers.{Replies};
ghost use Rattle.cif_run.specs.Runs.{lines_at};

use crate::name::Scripted;
use crate::reply::{Manner, go, reply_to, show};
use cif_bits::NoMemory;
use cif_defs::Listed;
use cif_hall::{Hall, Session};
use cif_io::Gate;
use cif_script::{Answer, Line, Script};
use std::alloc::Global;
use std::marker::Model;
use std::sync::Wait;

/// What a turn of a session did.
#[derive(Clone, Copy, Debug, Drop, PartialEq, Eq)]
pub enum Progress {
    /// It answered a line.
    Moved,
    /// Its line asks for a cycle that isn't done.
    Blocked,
    /// It has left the run, after its last line or for want of memory.
    Ended,
}

/// A session, the script that it follows, and what it answered so far. Contracts see its number and the answers.
#[derive(Drop)]
pub struct Reader<'s, N: Scripted> {
    session: Session<N>,
    script: &'s Script,
    answers: Vec<Answer>,
    has_left: bool,
}

impl<'s, N: Scripted> Model for Reader<'s, N> {
    ghost use Rattle.std.specs.Prelude.{◌≡◌, ◌*◌};
    ghost use Rattle.cif_run.specs.Readers.{IsReading, ReaderOf};

    ghost Value = { ReaderOf };

    ghost view = { λ r. record { number = r.session.number; answers = r.answers.items } };

    ghost invariant = { λ r. (r.script.now ≡ N.script) × IsReading N.case N.script r.session.number r.session.pin r.answers.items };
}

/// The answer of a session to a line of a script.
fn reply<N: Scripted, R: Wait, G: Gate>(
    session: &mut Session<N>,
    rt: &R,
    alloc: Global,
    hall: &Hall<N>,
    gate: &G,
    script: &Script,
    line: Line,
    manner: Manner,
) -> Result<Option<Answer>, NoMemory>
    requires inside { is_line_inside (length script.now.wires) line ≡ true }
    requires wires { All (IsWireOf N.case.raw) script.now.wires }
    ensures steps { IfOk result (λ r. Replies (net_of N.case) N.case.stimulus script.now.wires session.old.pin line r session.new.pin) }
    ensures err { OnErr result (session.new.pin ≡ session.old.pin) }
    ensures number { session.new.number ≡ session.old.number }
{
    if let Line::Show(number) = line {
        let answer = show(session, alloc, script.wire(number))?;
        return Ok(Some(answer));
    }
    let _cycles = hall.cycles();
    let told = go(session, rt, alloc, hall, line, manner);
    reply_to(session, gate, told)
}

impl<'s, N: Scripted> Reader<'s, N> {
    /// A session that has answered nothing yet.
    pub fn new(alloc: Global, session: Session<N>, script: &'s Script) -> Reader<'s, N>
        requires fresh { session.pin ≡ None }
        requires script { script.now ≡ N.script }
        requires listed { session.number < length N.script.sessions }
        requires wires { All (IsWireOf N.case.raw) N.script.wires }
        ensures number { result.number ≡ session.number }
    {
        Reader {
            session,
            script,
            answers: Vec::new(alloc),
            has_left: false,
        }
    }

    /// Its number.
    pub fn number(&self) -> u32
        ensures { result ≡ self.now.number }
    {
        self.session.number()
    }

    /// Its lines.
    #[tactic(auto, using(crate::proofs::Reading::inside))]
    fn lines(&self) -> &[Line]
        ensures are { result.now ≡ lines_at N.script.sessions self.now.number }
        ensures inside { list_all (is_line_inside (length N.script.wires)) result.now ≡ true }
    {
        self.script.sessions()[self.session.number() as usize]
            .lines
            .items()
    }

    /// Leaves the run, once.
    fn leave<R: Wait>(&mut self, rt: &R, hall: &Hall<N>)
        ensures { self.new ≡ self.old }
    {
        if !self.has_left {
            self.session.leave(rt, hall);
            self.has_left = true;
        }
    }

    /// Answers the next line.
    fn step<R: Wait, G: Gate>(
        &mut self,
        rt: &R,
        alloc: Global,
        hall: &Hall<N>,
        gate: &G,
        manner: Manner,
    ) -> Result<Progress, NoMemory>
        ensures { self.new.number ≡ self.old.number }
    {
        let next = self.answers.len();
        let lines = self.lines();
        if next == lines.len() {
            return Ok(Progress::Ended);
        }
        let line = lines[next];
        self.answers.reserve(1)?;
        match reply(
            &mut self.session,
            rt,
            alloc,
            hall,
            gate,
            self.script,
            line,
            manner,
        )? {
            Some(answer) => {
                self.answers.push(answer)?;
                Ok(Progress::Moved)
            }
            None => Ok(Progress::Blocked),
        }
    }

    /// Answers the next line, where it may wait or not. After the last line, or where no memory is found, the session leaves.
    pub fn turn<R: Wait, G: Gate>(
        &mut self,
        rt: &R,
        alloc: Global,
        hall: &Hall<N>,
        gate: &G,
        manner: Manner,
    ) -> Progress
        ensures { self.new.number ≡ self.old.number }
    {
        match self.step(rt, alloc, hall, gate, manner) {
            Ok(Progress::Moved) => Progress::Moved,
            Ok(Progress::Blocked) => Progress::Blocked,
            Ok(Progress::Ended) | Err(_) => {
                self.leave(rt, hall);
                Progress::Ended
            }
        }
    }

    /// The transcript; none where a line wasn't answered.
    pub fn into_transcript(self) -> Option<Listed<Answer>>
        ensures { IfSome result (λ t. IsTranscript (net_of N.case) N.case.stimulus N.script.wires (lines_at N.script.sessions self.entry.number) t) }
    {
        if self.answers.len() != self.lines().len() {
            return None;
        }
        let Reader { answers, .. } = self;
        Some(Listed::of(answers))
    }
}
