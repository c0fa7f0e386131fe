// Reading a stimulus from its text.
ghost use Rattle.std.specs.Prelude.{◌≡◌, ◌<◌, ◌≤◌, ◌+◌, ◌^◌, [], Ok, true, length, bytes_eq, codes, option_map, IfOk, IfErr};
ghost use Rattle.cif_defs.specs.Text.{words_of, lines_of};
ghost use Rattle.cif_defs.specs.declared.raw_module.Raw.{Raw as RawData};
ghost use Rattle.cif_stimulus.specs.Fitting.{fits_of};
ghost use Rattle.cif_stimulus.specs.Places.{is_cycle_count};
ghost use Rattle.cif_stim_read.specs.Reading.{IsReading, IsFirst, IsHead};
ghost use Rattle.cif_stimulus.specs.StimulusText.{numbered, lines_read, stimulus_read, version_said, cycles_said, version_read as version_read_of, cycles_read as cycles_read_of, ◌and_then◌};
ghost use Rattle.cif_stimulus.specs.Versions.{version_number};

use crate::lines::{Line, next_line};
use crate::reader::Reader;
use cif_cells::Netlist;
use cif_stimulus::{StimFault, Stimulus, Version};
use cif_text::{first_word, only_word, read_number};
use std::alloc::Global;

const CYCLE_LIMIT: u64 = 1_000_000;

/// What the first two lines say, and the text after them.
#[derive(Clone, Copy)]
struct Head<'a> {
    version: Version,
    cycles: u64,
    // The number of the first line of the rest.
    number: u64,
    rest: &'a [u8],
}

/// Whether a word is that with which each stimulus begins.
fn is_title(word: &[u8]) -> bool
    ensures { result ≡ bytes_eq word.now (codes "cellift-stimulus") }
{
    word == b"cellift-stimulus".as_slice()
}

/// Whether a word is that of the number of cycles.
fn is_cycles(word: &[u8]) -> bool
    ensures { result ≡ bytes_eq word.now (codes "cycles") }
{
    word == b"cycles".as_slice()
}

/// Whether a word is the first version.
fn is_first(word: &[u8]) -> bool
    ensures { result ≡ bytes_eq word.now (codes "1") }
{
    word == b"1".as_slice()
}

/// Whether a word is the second version.
fn is_second(word: &[u8]) -> bool
    ensures { result ≡ bytes_eq word.now (codes "2") }
{
    word == b"2".as_slice()
}

/// The version that a line names.
fn version_of(line: &[u8]) -> Option<Version>
    ensures { option_map version_number result ≡ version_said (words_of line.now) }
{
    let title = first_word(line)?;
    let version = only_word(title.rest)?;
    if !is_title(title.word) {
        return None;
    }
    if is_first(version) {
        return Some(Version::First);
    }
    if is_second(version) {
        return Some(Version::Second);
    }
    None
}

/// The number of cycles that a line gives.
fn count_of(line: &[u8]) -> Option<u64>
    ensures { result ≡ cycles_said (words_of line.now) }
{
    let verb = first_word(line)?;
    let count = only_word(verb.rest)?;
    if is_cycles(verb.word) {
        read_number(count)
    } else {
        None
    }
}

/// Reads the version.
fn read_version(line: &Line<'_>) -> Result<Version, StimFault>
    ensures ok { IfOk result (λ v. version_read_of
        (record { number = line.now.number; words = words_of line.now.text.now })
        ≡ Ok (version_number v)) }
    ensures err { IfErr result (IsFirst (version_read_of
        (record { number = line.now.number; words = words_of line.now.text.now }))) }
{
    version_of(line.text).ok_or(StimFault::BadLine(line.number))
}

/// Reads the number of cycles, from 1 to 1,000,000.
fn read_cycles(line: &Line<'_>) -> Result<u64, StimFault>
    ensures ok { IfOk result (λ n. cycles_read_of
        (record { number = line.now.number; words = words_of line.now.text.now }) ≡ Ok n) }
    ensures count { IfOk result (λ n. is_cycle_count n ≡ true) }
    ensures err { IfErr result (IsFirst (cycles_read_of
        (record { number = line.now.number; words = words_of line.now.text.now }))) }
{
    let Some(count) = count_of(line.text) else {
        return Err(StimFault::BadLine(line.number));
    };
    if count == 0 {
        return Err(StimFault::NoCycles);
    }
    if count > CYCLE_LIMIT {
        return Err(StimFault::TooManyCycles);
    }
    Ok(count)
}

/// Reads the first two lines.
fn read_head(bytes: &[u8]) -> Result<Head<'_>, StimFault>
    ensures ok { IfOk result (IsHead bytes.now) }
    ensures count { IfOk result (λ h. is_cycle_count h.cycles ≡ true) }
    ensures numbers { IfOk result (λ h. h.number + length h.rest.now < 2 ^ 64) }
    ensures err { IfErr result (λ e. (raw : RawData) → IsFirst (stimulus_read raw bytes.now) e) }
{
    if bytes.is_empty() {
        return Err(StimFault::BadLine(1));
    }
    let Some(first) = next_line(bytes, 1) else {
        return Err(StimFault::NoCycles);
    };
    let version = read_version(&first)?;
    let Some(second) = next_line(first.rest, first.number + 1) else {
        return Err(StimFault::NoCycles);
    };
    let cycles = read_cycles(&second)?;
    Ok(Head {
        version,
        cycles,
        number: second.number + 1,
        rest: second.rest,
    })
}

/// Reads the lines after the first two.
fn read_lines<'a>(
    alloc: Global,
    netlist: &'a Netlist,
    head: &Head<'_>,
) -> Result<Stimulus, StimFault>
    requires count { is_cycle_count head.now.cycles ≡ true }
    requires numbers { head.now.number + length head.now.rest.now < 2 ^ 64 }
    ensures lines { IfOk result (λ s. lines_read netlist.now
        (record { version = version_number head.now.version; cycles = head.now.cycles }) []
        (numbered head.now.number (lines_of head.now.rest.now)) ≡ Ok s.lines) }
    ensures cycles { IfOk result (λ s. s.cycles ≡ head.now.cycles) }
    ensures err { IfErr result (IsFirst (lines_read netlist.now
        (record { version = version_number head.now.version; cycles = head.now.cycles }) []
        (numbered head.now.number (lines_of head.now.rest.now)))) }
{
    let mut reader = Reader::new(alloc, head.cycles)?;
    let mut rest = head.rest;
    let mut number = head.number;
    while let Some(line) = next_line(rest, number) {
        reader.take_line(alloc, netlist, head.version, &line)?;
        rest = line.rest;
        number = line.number + 1;
    }
    Ok(reader.finish())
}

/// The stimulus of a text, for a netlist, which it fits.
///
/// The first line that fails gives the fault. Within a line the order is this: the line has no form that may stand at its
/// place (`BadLine`); on the line of the number of cycles that number is 0 (`NoCycles`) or above 1,000,000
/// (`TooManyCycles`); it names what isn't there (`NoSuchName`), or an address that a memory lacks (`BadAddress`); a word
/// has another width than what is named (`WrongWidth`); what it gives was given before (`SetTwice`). An empty text is
/// `BadLine(1)`, and one that ends before the number of cycles is `NoCycles`. Want of memory is `Memory`.
pub fn read_stimulus(alloc: Global, netlist: &Netlist, bytes: &[u8]) -> Result<Stimulus, StimFault>
    ensures ok { IfOk result (λ s. stimulus_read netlist.now bytes.now ≡ Ok s) }
    ensures fits { IfOk result (λ s. fits_of netlist.now s ≡ true) }
    ensures err { IfErr result (IsFirst (stimulus_read netlist.now bytes.now)) }
{
    let head = read_head(bytes)?;
    let stimulus = read_lines(alloc, netlist, &head)?;
    Ok(stimulus)
}
