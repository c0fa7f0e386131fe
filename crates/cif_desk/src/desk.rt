// The commands that never wait, and what tells an end.
ghost use Rattle.std.specs.Prelude.{◌≡◌, false, map, string_bytes, Some, None, IfOk, IfErr, OnOk, Err};
ghost use Rattle.cif_io.specs.Outside.{Rose};
ghost use Rattle.cif_defs.specs.Accepted.{netlist_of};
ghost use Rattle.cif_desk.specs.Commands.{augstim as augments, check as checks, eval as evaluates, may_wait};
ghost use Rattle.cif_desk.specs.CommandView.{asked_by};
ghost use Rattle.cif_desk.specs.Permitted.{check_text as text_of_check};
ghost use Rattle.cif_desk.specs.Ends.{WritesOut, WritesApart};
ghost use Rattle.cif_desk.specs.Calls.{Answers};
ghost use Rattle.cif_desk.specs.Stops.{HasCause, Says, end_status, stop_line, stop_status};

use crate::command::{Command, asked};
use crate::evaluation::{write, write_cycles};
use crate::files::{netlist_file, stimulus_file};
use crate::stop::Stop;
use crate::text::{Piece, push_all};
use cif_augment::augment_stimulus;
use cif_cells::Netlist;
use cif_io::{Sink, Store, write_all};
use cif_seq::Case;
use cif_stim_write::write_stimulus;
use std::alloc::{AllocError, Global};
use std::sync::Arc;

/// The counts of a netlist.
fn check_text(alloc: Global, netlist: &Netlist) -> Result<Vec<u8>, AllocError>
    ensures { IfOk result (λ text. text.items ≡ text_of_check (netlist_of netlist.now)) }
{
    let pieces = [
        Piece::Plain("accepted cells "),
        Piece::Number(netlist.cells().len() as u64),
        Piece::Plain(" bits "),
        Piece::Number(u64::from(netlist.bits())),
        Piece::Plain(" state "),
        Piece::Number(netlist.state_bits()),
        Piece::Plain("\n"),
    ];
    let mut text = Vec::new(alloc);
    push_all(alloc, &mut text, &pieces)?;
    Ok(text)
}

/// `check NET`.
fn check<S: Store, W: Sink>(
    alloc: Global,
    net: &str,
    store: &mut S,
    out: &mut W,
) -> Result<(), Stop>
    ensures out { WritesOut (S.told store.old) (Some (checks net.now)) (end_status result)
        (W.taken out.old) (W.taken out.new) }
    ensures cause { IfErr result (HasCause (S.told store.old) (Some (checks net.now))
        (S.last_failed store.new) (Rose (S.faults store.old) (S.faults store.new))
        (Rose (W.faults out.old) (W.faults out.new))) }
{
    let accepted = netlist_file(alloc, net, store)?;
    let text = check_text(alloc, &accepted.netlist)?;
    write(out, &text)
}

/// `eval NET STIM`.
fn eval<S: Store, W: Sink>(
    alloc: Global,
    net: &str,
    stim: &str,
    store: &mut S,
    out: &mut W,
) -> Result<(), Stop>
    ensures out { WritesOut (S.told store.old) (Some (evaluates net.now stim.now)) (end_status result)
        (W.taken out.old) (W.taken out.new) }
    ensures cause { IfErr result (HasCause (S.told store.old) (Some (evaluates net.now stim.now))
        (S.last_failed store.new) (Rose (S.faults store.old) (S.faults store.new))
        (Rose (W.faults out.old) (W.faults out.new))) }
    ensures noninterference { OnOk result
        (WritesApart (S.told store.old) (Some (evaluates net.now stim.now)) (W.taken out.old) (W.taken out.new)) }
{
    let accepted = netlist_file(alloc, net, store)?;
    let stimulus = stimulus_file(alloc, stim, &accepted.netlist, store)?;
    let case = Case::new(alloc, accepted.netlist, accepted.levels, stimulus)?;
    let case = Arc::new(alloc, case)?;
    write_cycles(alloc, &case, out)
}

/// `augstim NET STIM`. The text is made whole before its first byte is written.
fn augstim<S: Store, W: Sink>(
    alloc: Global,
    net: &str,
    stim: &str,
    store: &mut S,
    out: &mut W,
) -> Result<(), Stop>
    ensures out { WritesOut (S.told store.old) (Some (augments net.now stim.now)) (end_status result)
        (W.taken out.old) (W.taken out.new) }
    ensures cause { IfErr result (HasCause (S.told store.old) (Some (augments net.now stim.now))
        (S.last_failed store.new) (Rose (S.faults store.old) (S.faults store.new))
        (Rose (W.faults out.old) (W.faults out.new))) }
{
    let accepted = netlist_file(alloc, net, store)?;
    let original = stimulus_file(alloc, stim, &accepted.netlist, store)?;
    let augmented = augment_stimulus(alloc, &accepted.netlist, &original)?;
    let text = write_stimulus(alloc, &augmented)?;
    write(out, &text)
}

/// Does what words ask that never wait, and writes its text to out.
fn answer<S: Store, W: Sink>(
    alloc: Global,
    words: &[String],
    store: &mut S,
    out: &mut W,
) -> Result<(), Stop>
    requires { may_wait (map string_bytes words.now) ≡ false }
    ensures out { WritesOut (S.told store.old) (asked_by words.now) (end_status result)
        (W.taken out.old) (W.taken out.new) }
    ensures cause { IfErr result (HasCause (S.told store.old) (asked_by words.now)
        (S.last_failed store.new) (Rose (S.faults store.old) (S.faults store.new))
        (Rose (W.faults out.old) (W.faults out.new))) }
    ensures no_form { asked_by words.now ≡ None → result ≡ Err Stop.Usage }
    ensures noninterference { OnOk result (WritesApart (S.told store.old) (asked_by words.now)
        (W.taken out.old) (W.taken out.new)) }
{
    match asked(words) {
        Some(Command::Check { net }) => check(alloc, net, store, out),
        Some(Command::Eval { net, stim }) => eval(alloc, net, stim, store, out),
        Some(Command::AugStim { net, stim }) => augstim(alloc, net, stim, store, out),
        Some(Command::Run { .. }) => unreachable!(),
        None => Err(Stop::Usage),
    }
}

/// Writes a line to err. The status is 4 where that fails.
fn say<E: Sink>(err: &mut E, line: &[u8], status: u8) -> u8
    ensures { Says line.now status (Rose (E.faults err.old) (E.faults err.new))
        (E.taken err.old) (E.taken err.new) result }
{
    match write_all(err, line) {
        Ok(()) => status,
        Err(_) => 4,
    }
}

/// Tells on err why there is no whole text.
pub(crate) fn tell<E: Sink>(err: &mut E, stop: &Stop) -> u8
    ensures { Says (stop_line stop.now) (stop_status stop.now)
        (Rose (E.faults err.old) (E.faults err.new)) (E.taken err.old) (E.taken err.new) result }
{
    match stop {
        Stop::Usage => {
            let usage = b"usage: cellift check, eval, instrument, augstim, explain, run or gen\n";
            say(err, usage, 1)
        }
        Stop::Refused(line) => say(err, line.items(), 2),
        Stop::Unread(line) => say(err, line.items(), 3),
        Stop::Unwritten => say(err, b"write fault\n", 4),
        Stop::NoMemory => say(err, b"out of memory\n", 5),
    }
}

/// Does what the words ask, which don't ask for what may wait: fetches the files that they name from `store`, writes the
/// text to `out`, and one line to `err` where there is no whole text. It always returns.
///
/// The status is 0 where the text was written whole, 1 for usage, 2 for a refusal, 3 for a read fault, 4 for a write
/// fault, and 5 for want of memory.
pub fn quiet<S: Store, W: Sink, E: Sink>(
    alloc: Global,
    words: &[String],
    store: &mut S,
    out: &mut W,
    err: &mut E,
) -> u8
    requires { may_wait (map string_bytes words.now) ≡ false }
    ensures { Answers (record {
      asked = asked_by words.now;
      told = S.told store.old;
      failed = S.last_failed store.new;
      store_faults = record { old = S.faults store.old; new = S.faults store.new };
      out_faults = record { old = W.faults out.old; new = W.faults out.new };
      err_faults = record { old = E.faults err.old; new = E.faults err.new };
      out = record { old = W.taken out.old; new = W.taken out.new };
      err = record { old = E.taken err.old; new = E.taken err.new };
    }) result }
{
    match answer(alloc, words, store, out) {
        Ok(()) => 0,
        Err(stop) => tell(err, &stop),
    }
}
