// The command that may wait, and the call that the program makes.
ghost use Rattle.std.specs.Prelude.{◌≡◌, true, map, string_bytes, Some, None, IfErr, OnOk, Err};
ghost use Rattle.cif_io.specs.Outside.{Rose};
ghost use Rattle.cif_run.specs.Runs.{IsSize};
ghost use Rattle.cif_desk.specs.Commands.{may_wait};
ghost use Rattle.cif_desk.specs.CommandView.{asked_by, run_seen};
ghost use Rattle.cif_desk.specs.Ends.{WritesOut, WritesApart};
ghost use Rattle.cif_desk.specs.Calls.{Answers};
ghost use Rattle.cif_desk.specs.Stops.{HasCause, end_status};

use crate::command::{Command, RunFiles, asked, waits};
use crate::desk::{quiet, tell};
use crate::evaluation::write;
use crate::files::{netlist_file, script_file, stimulus_file};
use crate::stop::Stop;
use cif_io::{Gate, Sink, Store};
use cif_run::{RunSize, run_text};
use cif_seq::Case;
use std::alloc::Global;
use std::sync::Wait;
use std::thread::Threads;

/// `run NET STIM SESSIONS WORKERS PARTS WINDOW`. The text is made whole before its first byte is written.
fn run<S: Store, W: Sink, G: Gate + Sync, R: Threads + Wait + Sync>(
    rt: &R,
    alloc: Global,
    files: RunFiles<'_>,
    size: RunSize,
    store: &mut S,
    out: &mut W,
    gate: &G,
) -> Result<(), Stop>
    requires { IsSize size }
    ensures out { WritesOut (S.told store.old) (Some (run_seen files.entry size)) (end_status result)
        (W.taken out.old) (W.taken out.new) }
    ensures cause { IfErr result (HasCause (S.told store.old) (Some (run_seen files.entry size))
        (S.last_failed store.new) (Rose (S.faults store.old) (S.faults store.new))
        (Rose (W.faults out.old) (W.faults out.new))) }
    ensures noninterference { OnOk result (WritesApart (S.told store.old) (Some (run_seen files.entry size))
        (W.taken out.old) (W.taken out.new)) }
{
    let accepted = netlist_file(alloc, files.net, store)?;
    let stimulus = stimulus_file(alloc, files.stim, &accepted.netlist, store)?;
    let script = script_file(alloc, files.sessions, &accepted.netlist, store)?;
    let case = Case::new(alloc, accepted.netlist, accepted.levels, stimulus)?;
    let told = cif_run::run(rt, alloc, case, &script, size, gate)?;
    let text = run_text(alloc, &script, &told)?;
    write(out, &text)
}

/// Does what words ask that may wait, and writes its text to out.
fn answer_live<S: Store, W: Sink, G: Gate + Sync, R: Threads + Wait + Sync>(
    rt: &R,
    alloc: Global,
    words: &[String],
    store: &mut S,
    out: &mut W,
    gate: &G,
) -> Result<(), Stop>
    requires { may_wait (map string_bytes words.now) ≡ true }
    ensures out { WritesOut (S.told store.old) (asked_by words.now) (end_status result)
        (W.taken out.old) (W.taken out.new) }
    ensures cause { IfErr result (HasCause (S.told store.old) (asked_by words.now)
        (S.last_failed store.new) (Rose (S.faults store.old) (S.faults store.new))
        (Rose (W.faults out.old) (W.faults out.new))) }
    ensures no_form { asked_by words.now ≡ None → result ≡ Err Stop.Usage }
    ensures noninterference { OnOk result (WritesApart (S.told store.old) (asked_by words.now)
        (W.taken out.old) (W.taken out.new)) }
{
    match asked(words) {
        Some(Command::Run { files, size }) => run(rt, alloc, files, size, store, out, gate),
        Some(Command::Check { .. }) => unreachable!(),
        Some(Command::Eval { .. }) => unreachable!(),
        Some(Command::AugStim { .. }) => unreachable!(),
        None => Err(Stop::Usage),
    }
}

/// The call that the program makes: does what the words ask, as `quiet` does, and `run` besides. The runtime is what
/// threads are started by, and the gate what is told of the steps of workers and sessions. Where the words ask for what
/// may wait, the call may wait; else it always returns.
pub fn cellift<S: Store, W: Sink, E: Sink, G: Gate + Sync, R: Threads + Wait + Sync>(
    rt: &R,
    alloc: Global,
    words: &[String],
    store: &mut S,
    out: &mut W,
    err: &mut E,
    gate: &G,
) -> u8
    ensures { Answers (record {
      asked = asked_by words.now;
      told = S.told store.old;
      failed = S.last_failed store.new;
      store_faults = record { old = S.faults store.old; new = S.faults store.new };
      out_faults = record { old = W.faults out.old; new = W.faults out.new };
      err_faults = record { old = E.faults err.old; new = E.faults err.new };
      out = record { old = W.taken out.old; new = W.taken out.new };
      err = record { old = E.taken err.old; new = E.taken err.new };
    }) result }
{
    if !waits(words) {
        return quiet(alloc, words, store, out, err);
    }
    match answer_live(rt, alloc, words, store, out, gate) {
        Ok(()) => 0,
        Err(stop) => tell(err, &stop),
    }
}
