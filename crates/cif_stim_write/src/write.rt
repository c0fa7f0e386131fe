// The text of a stimulus.
ghost use Rattle.std.specs.Prelude.{◌≡◌, ◌<◌, ◌++◌, ◌∷◌, [], true, map, codes, Ok, IfOk, OnOk, if◌then◌else◌};
ghost use Rattle.std.specs.List.{list_any, flat_map, list_all};
ghost use Rattle.std.specs.Fmt.{decimal};
ghost use Rattle.cif_defs.specs.Text.{coded, line_end};
ghost use Rattle.cif_defs.specs.Stimulus.{reg_line, mem_line, cycle_line, set_line};
ghost use Rattle.cif_defs.specs.declared.raw_module.Raw.{Raw};
ghost use Rattle.cif_stimulus.specs.Fitting.{fits_of};
ghost use Rattle.cif_text.specs.Bytes.{are_bytes};
ghost use Rattle.cif_stim_write.specs.Ranges.{is_in_range};
ghost use Rattle.cif_stimulus.specs.StimulusText.{line_text, tainted_text, is_release, stimulus_text, stimulus_read};
ghost use Rattle.cif_stimulus.specs.StimulusView.{line_seen, tainted};
ghost use Rattle.cif_stimulus.specs.Versions.{version_number};

use cif_bits::{Bits, NoMemory};
use cif_stimulus::{StimLine, Stimulus, Version};
use cif_text::{push_name, push_number};
use std::alloc::Global;

// ---- words

/// Adds a word and its taint, highest bit first, each after a space, and ends the line.
fn push_words(alloc: Global, text: &mut Vec<u8>, value: &Bits, taint: &Bits) -> Result<(), NoMemory>
    ensures { OnOk result
        (text.new.items ≡ text.old.items ++ tainted_text (tainted value.now taint.now)) }
{
    let value = value.to_text(alloc)?;
    let taint = taint.to_text(alloc)?;
    text.push(b' ')?;
    text.extend_from_slice(&value)?;
    text.push(b' ')?;
    text.extend_from_slice(&taint)?;
    text.push(b'\n')?;
    Ok(())
}

// ---- lines

/// Adds the line of a register's word.
fn push_reg(
    alloc: Global,
    text: &mut Vec<u8>,
    cell: &[u8],
    value: &Bits,
    taint: &Bits,
) -> Result<(), NoMemory>
    ensures text { OnOk result (text.new.items
        ≡ text.old.items ++ line_text (reg_line cell.now (tainted value.now taint.now))) }
    ensures bytes { OnOk result (are_bytes cell.now ≡ true) }
{
    text.extend_from_slice(b"reg ")?;
    push_name(text, cell)?;
    push_words(alloc, text, value, taint)
}

/// Adds the line of a memory's word at an address.
fn push_mem(
    alloc: Global,
    text: &mut Vec<u8>,
    cell: &[u8],
    address: u64,
    value: &Bits,
    taint: &Bits,
) -> Result<(), NoMemory>
    ensures text { OnOk result (text.new.items
        ≡ text.old.items ++ line_text (mem_line cell.now address (tainted value.now taint.now))) }
    ensures bytes { OnOk result (are_bytes cell.now ≡ true) }
{
    text.extend_from_slice(b"mem ")?;
    push_name(text, cell)?;
    text.push(b' ')?;
    push_number(alloc, text, address)?;
    push_words(alloc, text, value, taint)
}

/// Adds the line that releases a name.
fn push_release(text: &mut Vec<u8>, name: &[u8]) -> Result<(), NoMemory>
    ensures text { OnOk result
        (text.new.items ≡ text.old.items ++ (codes "release " ++ coded name.now ++ line_end ∷ [])) }
    ensures bytes { OnOk result (are_bytes name.now ≡ true) }
{
    text.extend_from_slice(b"release ")?;
    push_name(text, name)?;
    text.push(b'\n')?;
    Ok(())
}

/// Adds the line that begins a cycle.
fn push_cycle(alloc: Global, text: &mut Vec<u8>, cycle: u64) -> Result<(), NoMemory>
    ensures { OnOk result (text.new.items ≡ text.old.items ++ line_text (cycle_line cycle)) }
{
    text.extend_from_slice(b"@ ")?;
    push_number(alloc, text, cycle)?;
    text.push(b'\n')?;
    Ok(())
}

/// Adds the line of the word that an input port is set to.
fn push_set(
    alloc: Global,
    text: &mut Vec<u8>,
    port: &[u8],
    value: &Bits,
    taint: &Bits,
) -> Result<(), NoMemory>
    ensures text { OnOk result (text.new.items
        ≡ text.old.items ++ line_text (set_line port.now (tainted value.now taint.now))) }
    ensures bytes { OnOk result (are_bytes port.now ≡ true) }
{
    text.extend_from_slice(b"set ")?;
    push_name(text, port)?;
    push_words(alloc, text, value, taint)
}

/// Adds a line.
fn push_line(alloc: Global, text: &mut Vec<u8>, line: &StimLine) -> Result<(), NoMemory>
    ensures text { OnOk result
        (text.new.items ≡ text.old.items ++ line_text (line_seen line.now)) }
    ensures range { OnOk result (is_in_range (line_seen line.now) ≡ true) }
{
    match line {
        StimLine::Reg { cell, value, taint } => push_reg(alloc, text, cell.items(), value, taint),
        StimLine::Mem {
            cell,
            address,
            value,
            taint,
        } => push_mem(alloc, text, cell.items(), *address, value, taint),
        StimLine::Release { name, wire: _ } => push_release(text, name.items()),
        StimLine::Cycle(cycle) => push_cycle(alloc, text, *cycle),
        StimLine::Set { port, value, taint } => push_set(alloc, text, port.items(), value, taint),
    }
}

/// Adds lines, one after another.
fn push_lines(alloc: Global, text: &mut Vec<u8>, lines: &[StimLine]) -> Result<(), NoMemory>
    ensures text { OnOk result (text.new.items
        ≡ text.old.items ++ flat_map line_text (map line_seen lines.now)) }
    ensures range { OnOk result (list_all is_in_range (map line_seen lines.now) ≡ true) }
{
    for line in lines {
        push_line(alloc, text, line)?;
    }
    Ok(())
}

// ---- the whole text

/// Whether this line releases a name.
fn releases(line: &StimLine) -> bool
    ensures { result ≡ is_release (line_seen line.now) }
{
    matches!(line, StimLine::Release { .. })
}

/// Whether a line releases a name.
fn some_releases(lines: &[StimLine]) -> bool
    ensures { result ≡ list_any (λ line. is_release (line_seen line)) lines.now }
{
    lines.iter().any(|line| releases(line))
}

/// The version of the text that lines can be written in: the second where something is released, else the first.
fn version_for(lines: &[StimLine]) -> Version
    ensures { version_number result
        ≡ (if list_any is_release (map line_seen lines.now) then 2 else 1) }
{
    if some_releases(lines) {
        Version::Second
    } else {
        Version::First
    }
}

/// The first two lines.
fn head(alloc: Global, version: Version, cycles: u64) -> Result<Vec<u8>, NoMemory>
    ensures { IfOk result (λ text. text.items
        ≡ codes "cellift-stimulus " ++ decimal (version_number version) ++ line_end ∷ codes "cycles "
        ++ decimal cycles ++ line_end ∷ []) }
{
    let mut text = Vec::from_slice(alloc, b"cellift-stimulus ")?;
    push_number(alloc, &mut text, version.number())?;
    text.extend_from_slice(b"\ncycles ")?;
    push_number(alloc, &mut text, cycles)?;
    text.push(b'\n')?;
    Ok(text)
}

/// The text of a stimulus, with its lines in order and a taint at each word. Read for a netlist that the stimulus fits,
/// it gives the stimulus again. The text has version 2 exactly where a name is released.
#[tactic(auto, unfolding(cif_stimulus::specs::StimulusText::stimulus_text))]
pub fn write_stimulus(alloc: Global, stimulus: &Stimulus) -> Result<Vec<u8>, NoMemory>
    ensures text { IfOk result (λ t. t.items ≡ stimulus_text stimulus.now) }
    ensures back { IfOk result (λ t. (raw : Raw) → fits_of raw stimulus.now ≡ true
        → stimulus_read raw t.items ≡ Ok stimulus.now) }
{
    let lines = stimulus.lines();
    let mut text = head(alloc, version_for(lines), stimulus.cycles())?;
    push_lines(alloc, &mut text, lines)?;
    Ok(text)
}
