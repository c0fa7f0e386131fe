// Words written to the net bits that a cell's outputs drive; each reader of a bit that changes is marked.
ghost use Rattle.std.specs.Prelude.{◌≡◌, ◌≤◌, [], ◌∷◌, get_or, length, map};
ghost use Rattle.cif_defs.specs.Netlist.{Netlist as NetlistData};
ghost use Rattle.cif_defs.specs.Words.{operand, word_of};
ghost use Rattle.word_numbers.specs.HeldWords.{words_held};
ghost use Rattle.word_numbers.specs.NarrowCells.{AreWithin128};
ghost use Rattle.cif_cycle.specs.ShownBits.{shown_taints, shown_values};
ghost use Rattle.cif_readers.specs.Reads.{Notes};
ghost use Rattle.cif_readers.specs.Tables.{AreReaders};
ghost use Rattle.cif_writes.specs.Writes.{put, put_word, put_words};

use cif_bits::Bits;
use cif_cells::{NetBit, Targets};
use cif_cycle::{ShownBits, bit_of};
use cif_readers::Readers;
use word_numbers::{Words, bit as bit_at};

/// The bits of the word of `port`; none where there is no such port.
fn port_bits(words: &[Bits], port: usize) -> &[bool]
    ensures { result.now ≡ operand words.now port }
{
    match words.get(port) {
        Some(word) => word.bits(),
        None => &[],
    }
}

/// Writes a bit and its taint to the net bit of an output bit, where one is connected; a released bit is untainted.
fn write_target(
    readers: &Readers,
    released: &[bool],
    target: Option<NetBit>,
    value: bool,
    taint: bool,
    values: &mut [bool],
    taints: &mut [bool],
    marks: &mut [bool],
)
    requires { length taints.old ≡ length values.old }
    ensures values { values.new ≡ put [] target value values.old }
    ensures taints { taints.new ≡ put released.now target taint taints.old }
    ensures values_length { length values.new ≡ length values.old }
    ensures taints_length { length taints.new ≡ length taints.old }
    ensures marks_length { length marks.new ≡ length marks.old }
    ensures notes { (n : NetlistData) → AreReaders n readers.now → length n.cells ≤ length marks.old
        → Notes n values.old taints.old values.new taints.new marks.old marks.new }
{
    if let Some(net) = target {
        if (net as usize) < values.len() {
            let kept = !bit_of(released, net as usize) & taint;
            readers.set_bit(net, value, kept, values, taints, marks);
        }
    }
}

/// Writes a word and its taint to the net bits of one output; a released bit is untainted.
pub fn write_word(
    readers: &Readers,
    released: &[bool],
    targets: &[Option<NetBit>],
    word: &[bool],
    taint: &[bool],
    values: &mut [bool],
    taints: &mut [bool],
    marks: &mut [bool],
)
    requires { length taints.old ≡ length values.old }
    ensures values { values.new ≡ put_word [] targets.now word.now values.old }
    ensures taints { taints.new ≡ put_word released.now targets.now taint.now taints.old }
    ensures values_length { length values.new ≡ length values.old }
    ensures taints_length { length taints.new ≡ length taints.old }
    ensures marks_length { length marks.new ≡ length marks.old }
    ensures notes { (n : NetlistData) → AreReaders n readers.now → length n.cells ≤ length marks.old
        → Notes n values.old taints.old values.new taints.new marks.old marks.new }
{
    for i in 0..targets.len() {
        let value_bit = bit_of(word, i);
        let taint_bit = bit_of(taint, i);
        let target = targets[i];
        write_target(
            readers, released, target, value_bit, taint_bit, values, taints, marks,
        );
    }
}

/// Writes what a register shows and its taint to the net bits of its output; a released bit is untainted.
pub fn write_shown(
    readers: &Readers,
    released: &[bool],
    targets: &[Option<NetBit>],
    shown: &ShownBits,
    values: &mut [bool],
    taints: &mut [bool],
    marks: &mut [bool],
)
    requires few { length targets.now ≤ 4096 }
    requires as_many { length taints.old ≡ length values.old }
    ensures values { values.new
        ≡ put_word [] targets.now (shown_values shown.now (length targets.now)) values.old }
    ensures taints { taints.new
        ≡ put_word released.now targets.now (shown_taints shown.now (length targets.now)) taints.old }
    ensures values_length { length values.new ≡ length values.old }
    ensures taints_length { length taints.new ≡ length taints.old }
    ensures marks_length { length marks.new ≡ length marks.old }
    ensures notes { (n : NetlistData) → AreReaders n readers.now → length n.cells ≤ length marks.old
        → Notes n values.old taints.old values.new taints.new marks.old marks.new }
{
    for i in 0..targets.len() {
        let bit = shown.bit(i as u32);
        let target = targets[i];
        write_target(
            readers, released, target, bit.value, bit.taint, values, taints, marks,
        );
    }
}

/// Writes the words of a cell and their taints to the net bits that its outputs drive; a released bit is untainted.
pub fn write_words(
    readers: &Readers,
    released: &[bool],
    outputs: &[Targets],
    words: &[Bits],
    word_taints: &[Bits],
    values: &mut [bool],
    taints: &mut [bool],
    marks: &mut [bool],
)
    requires { length taints.old ≡ length values.old }
    ensures values { values.new ≡ put_words [] outputs.now words.now values.old }
    ensures taints { taints.new ≡ put_words released.now outputs.now word_taints.now taints.old }
    ensures values_length { length values.new ≡ length values.old }
    ensures taints_length { length taints.new ≡ length taints.old }
    ensures marks_length { length marks.new ≡ length marks.old }
    ensures notes { (n : NetlistData) → AreReaders n readers.now → length n.cells ≤ length marks.old
        → Notes n values.old taints.old values.new taints.new marks.old marks.new }
{
    for port in 0..outputs.len() {
        let targets = &outputs[port];
        let word = port_bits(words, port);
        let word_taint = port_bits(word_taints, port);
        write_word(
            readers,
            released,
            targets.items(),
            word,
            word_taint,
            values,
            taints,
            marks,
        );
    }
}

/// The number of the word of `port`; 0 where there is no such port.
fn port_number(words: &Words, port: usize) -> u128
    ensures { result ≡ get_or (words.now.a ∷ words.now.b ∷ words.now.c ∷ words.now.d ∷ []) port 0 }
{
    match port {
        0 => words.a,
        1 => words.b,
        2 => words.c,
        3 => words.d,
        _ => 0,
    }
}

/// Writes the word that a number holds, of at most 128 bits, and its taint to the net bits of one output; a released bit
/// is untainted.
fn write_number(
    readers: &Readers,
    released: &[bool],
    targets: &[Option<NetBit>],
    number: u128,
    taint: u128,
    values: &mut [bool],
    taints: &mut [bool],
    marks: &mut [bool],
)
    requires few { length targets.now ≤ 128 }
    requires as_many { length taints.old ≡ length values.old }
    ensures values { values.new ≡ put_word [] targets.now (word_of (length targets.now) number) values.old }
    ensures taints { taints.new
        ≡ put_word released.now targets.now (word_of (length targets.now) taint) taints.old }
    ensures values_length { length values.new ≡ length values.old }
    ensures taints_length { length taints.new ≡ length taints.old }
    ensures marks_length { length marks.new ≡ length marks.old }
    ensures notes { (n : NetlistData) → AreReaders n readers.now → length n.cells ≤ length marks.old
        → Notes n values.old taints.old values.new taints.new marks.old marks.new }
{
    for i in 0..targets.len() {
        let value_bit = bit_at(number, i as u32);
        let taint_bit = bit_at(taint, i as u32);
        let target = targets[i];
        write_target(
            readers, released, target, value_bit, taint_bit, values, taints, marks,
        );
    }
}

/// Writes the words that numbers hold and their taints to the net bits that the outputs of a narrow cell drive; a released
/// bit is untainted.
pub fn write_numbers(
    readers: &Readers,
    released: &[bool],
    outputs: &[Targets],
    words: &Words,
    word_taints: &Words,
    values: &mut [bool],
    taints: &mut [bool],
    marks: &mut [bool],
)
    requires narrow { AreWithin128 (map length outputs.now) }
    requires few { length outputs.now ≤ 4 }
    requires as_many { length taints.old ≡ length values.old }
    ensures values { values.new
        ≡ put_words [] outputs.now (words_held (map length outputs.now) words.now) values.old }
    ensures taints { taints.new
        ≡ put_words released.now outputs.now (words_held (map length outputs.now) word_taints.now) taints.old }
    ensures values_length { length values.new ≡ length values.old }
    ensures taints_length { length taints.new ≡ length taints.old }
    ensures marks_length { length marks.new ≡ length marks.old }
    ensures notes { (n : NetlistData) → AreReaders n readers.now → length n.cells ≤ length marks.old
        → Notes n values.old taints.old values.new taints.new marks.old marks.new }
{
    for port in 0..outputs.len() {
        let targets = &outputs[port];
        let word = port_number(words, port);
        let word_taint = port_number(word_taints, port);
        write_number(
            readers,
            released,
            targets.items(),
            word,
            word_taint,
            values,
            taints,
            marks,
        );
    }
}
