// Reading a script from its text.
ghost use Rattle.std.specs.Prelude.{◌≡◌, ◌<◌, ◌+◌, ◌^◌, Ok, length, bytes_eq, codes, IfOk, IfErr};
ghost use Rattle.std.specs.List.{All};
ghost use Rattle.cif_defs.specs.Text.{words_of, lines_of};
ghost use Rattle.cif_stimulus.specs.StimulusText.{numbered};
ghost use Rattle.cif_script.specs.ScriptText.{is_title as is_title_of, no_sessions, lines_read, script_of};
ghost use Rattle.cif_script.specs.Seen.{IsFirst, so_far};
ghost use Rattle.cif_script.specs.ShownWires.{IsWireOf, AreApart};

use crate::fault::ScriptFault;
use crate::reader::Reader;
use crate::script::Script;
use crate::sizes::is_too_large;
use cif_cells::Netlist;
use cif_stim_read::next_line;
use cif_text::{first_word, only_word};
use std::alloc::Global;

/// Whether a word is that with which each script begins.
fn is_name(word: &[u8]) -> bool
    ensures { result ≡ bytes_eq word.now (codes "cellift-sessions") }
{
    word == b"cellift-sessions".as_slice()
}

/// Whether a word is the version.
fn is_version(word: &[u8]) -> bool
    ensures { result ≡ bytes_eq word.now (codes "1") }
{
    word == b"1".as_slice()
}

/// Whether a line is that with which each script begins.
fn is_title(line: &[u8]) -> bool
    ensures { result ≡ is_title_of (words_of line.now) }
{
    let Some(name) = first_word(line) else {
        return false;
    };
    let Some(version) = only_word(name.rest) else {
        return false;
    };
    is_name(name.word) && is_version(version)
}

/// Reads the lines after the title, of which the first has this number.
fn read_lines<'a>(
    alloc: Global,
    netlist: &'a Netlist,
    text: &[u8],
    number: u64,
) -> Result<Reader<'a>, ScriptFault>
    requires { number + length text.now < 2 ^ 64 }
    ensures ok { IfOk result (λ r.
        lines_read netlist.now no_sessions (numbered number (lines_of text.now)) ≡ Ok (so_far r)) }
    ensures err { IfErr result (IsFirst
        (lines_read netlist.now no_sessions (numbered number (lines_of text.now)))) }
{
    let mut reader = Reader::new(alloc);
    let mut rest = text;
    let mut number = number;
    while let Some(line) = next_line(rest, number) {
        reader.take_line(alloc, netlist, &line)?;
        rest = line.rest;
        number = line.number + 1;
    }
    Ok(reader)
}

/// The script of a text, for a netlist.
///
/// The first line that fails gives the fault. Within a line the order is this: the line has no form that may stand at its
/// place (`BadLine`); it begins a session under a name that was given before (`SameName`), or a seventeenth session
/// (`TooManySessions`); it shows what isn't there (`NoSuchName`), or what isn't two-valued (`NotTwoValued`). A text that is
/// empty, or of which all lines are passed over, is `BadLine(1)`. After all lines, `ScriptTooLarge` comes where they count
/// more than 268,435,456 together: a line that shows a wire counts twice the wire's width, the length of its coded name and
/// 16, every other line that isn't passed over 96. Want of memory is `Memory`.
pub fn read_sessions(alloc: Global, netlist: &Netlist, bytes: &[u8]) -> Result<Script, ScriptFault>
    ensures ok { IfOk result (λ s. script_of netlist.now bytes.now ≡ Ok s) }
    ensures wires { IfOk result (λ s. All (IsWireOf netlist.now) s.wires) }
    ensures apart { IfOk result (λ s. AreApart s.wires) }
    ensures err { IfErr result (IsFirst (script_of netlist.now bytes.now)) }
{
    let Some(title) = next_line(bytes, 1) else {
        return Err(ScriptFault::BadLine(1));
    };
    if !is_title(title.text) {
        return Err(ScriptFault::BadLine(title.number));
    }
    let reader = read_lines(alloc, netlist, title.rest, title.number + 1)?;
    let script = reader.finish();
    if is_too_large(&script) {
        return Err(ScriptFault::ScriptTooLarge);
    }
    Ok(script)
}
