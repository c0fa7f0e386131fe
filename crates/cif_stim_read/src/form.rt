// The forms of the lines that follow the number of cycles.
ghost use Rattle.std.specs.Prelude.{◌≡◌, ◌<◌, ◌≤◌, ◌&&◌, ◌==◌, length, IfOk, bytes_eq, codes, option_map};
ghost use Rattle.cif_defs.specs.Text.{words_of};
ghost use Rattle.cif_defs.specs.declared.raw_module.Raw.{Raw as RawData};
ghost use Rattle.cif_stimulus.specs.Fitting.{is_of_width};
ghost use Rattle.cif_defs.specs.WordText.{word_of_text};
ghost use Rattle.cif_stim_read.specs.Forms.{word_seen, said_line};
ghost use Rattle.cif_stimulus.specs.StimulusText.{tainted_said, reg_said, mem_said, set_said, release_said, cycle_said, said_by, line_said};
ghost use Rattle.cif_stimulus.specs.StimulusView.{tainted};
ghost use Rattle.cif_stimulus.specs.Versions.{version_number};

use cif_bits::{Bits, NoMemory};
use cif_defs::Name;
use cif_stimulus::Version;
use cif_text::{are_visible, first_word, is_binary, is_blank, only_word, read_name, read_number};
use std::alloc::Global;

/// The texts of a word and of its taint, binary digits with the highest first.
#[derive(Clone, Copy)]
pub struct WordText<'a> {
    /// The digits of the word, one a bit.
    pub value: &'a [u8],
    /// The digits of its taint, where one is given.
    pub taint: Option<&'a [u8]>,
}

/// What a line says, before it is compared with a netlist.
#[derive(Drop)]
pub enum Said<'a> {
    /// A register and its word.
    Reg {
        /// The register's name.
        cell: Name,
        /// Its word.
        word: WordText<'a>,
    },
    /// A memory, an address, and the word there.
    Mem {
        /// The memory's name.
        cell: Name,
        /// The address of a row; that of the first row is the memory's offset.
        address: u64,
        /// The word of the row.
        word: WordText<'a>,
    },
    /// A net that is released.
    Release(Name),
    /// The cycle of the sets that follow.
    Cycle(u64),
    /// A port and its word.
    Set {
        /// The port's name.
        port: Name,
        /// Its word.
        word: WordText<'a>,
    },
}

/// A word and its taint.
#[derive(Drop)]
pub struct TaintedBits {
    /// The word.
    pub value: Bits,
    /// Which of its bits are tainted.
    pub taint: Bits,
}

/// The word of binary digits, highest first.
fn word_of(alloc: Global, text: &[u8]) -> Result<Bits, NoMemory>
    requires { length text.now ≤ 65536 }
    ensures { IfOk result (λ w. w ≡ word_of_text text.now) }
{
    let bits = text_bits(alloc, text)?;
    Ok(Bits::of(bits))
}

/// The bits of binary digits, of which the first is the highest.
fn text_bits(alloc: Global, text: &[u8]) -> Result<Vec<bool>, NoMemory>
    ensures { IfOk result (λ v. v.items ≡ word_of_text text.now) }
{
    Ok(text.iter().rev().map(|byte| *byte == b'1').collect(alloc)?)
}

impl WordText<'_> {
    /// Whether the word and its taint have so many bits.
    pub fn has_width(&self, width: u64) -> bool
        ensures { result ≡ is_of_width (word_seen self.now) width }
    {
        let count = self.value.len() as u64;
        match self.taint {
            Some(taint) => count == width && taint.len() as u64 == width,
            None => count == width,
        }
    }

    /// The word and its taint, which is all 0 where none is given.
    pub fn read(&self, alloc: Global) -> Result<TaintedBits, NoMemory>
        requires value { length (word_seen self.now).value ≤ 65536 }
        requires taint { length (word_seen self.now).taint ≤ 65536 }
        ensures { IfOk result (λ w. tainted w.value w.taint ≡ word_seen self.now) }
    {
        let value = word_of(alloc, self.value)?;
        let taint = match self.taint {
            Some(taint) => word_of(alloc, taint)?,
            None => Bits::zeros(alloc, self.value.len() as u32)?,
        };
        Ok(TaintedBits { value, taint })
    }
}

/// What the words `WORD [TAINT]` say.
fn word_form(text: &[u8]) -> Option<WordText<'_>>
    ensures { option_map word_seen result ≡ tainted_said (words_of text.now) }
{
    let value = first_word(text)?;
    if !is_binary(value.word) {
        return None;
    }
    let Some(taint) = first_word(value.rest) else {
        return Some(WordText {
            value: value.word,
            taint: None,
        });
    };
    if is_binary(taint.word) && is_blank(taint.rest) {
        Some(WordText {
            value: value.word,
            taint: Some(taint.word),
        })
    } else {
        None
    }
}

/// What the words `CELL WORD [TAINT]` of a register say.
fn reg_form(alloc: Global, text: &[u8]) -> Result<Option<Said<'_>>, NoMemory>
    ensures { IfOk result (λ said. (raw : RawData)
        → option_map (said_line raw) said ≡ reg_said (words_of text.now)) }
{
    let Some(cell) = first_word(text) else {
        return Ok(None);
    };
    let Some(word) = word_form(cell.rest) else {
        return Ok(None);
    };
    let Some(cell) = read_name(alloc, cell.word)? else {
        return Ok(None);
    };
    Ok(Some(Said::Reg { cell, word }))
}

/// What the words `CELL ADDRESS WORD [TAINT]` of a memory say.
fn mem_form(alloc: Global, text: &[u8]) -> Result<Option<Said<'_>>, NoMemory>
    ensures { IfOk result (λ said. (raw : RawData)
        → option_map (said_line raw) said ≡ mem_said (words_of text.now)) }
{
    let Some(cell) = first_word(text) else {
        return Ok(None);
    };
    let Some(address) = first_word(cell.rest) else {
        return Ok(None);
    };
    let Some(word) = word_form(address.rest) else {
        return Ok(None);
    };
    let Some(address) = read_number(address.word) else {
        return Ok(None);
    };
    let Some(cell) = read_name(alloc, cell.word)? else {
        return Ok(None);
    };
    Ok(Some(Said::Mem {
        cell,
        address,
        word,
    }))
}

/// What the words `PORT WORD [TAINT]` of a set say.
fn set_form(alloc: Global, text: &[u8]) -> Result<Option<Said<'_>>, NoMemory>
    ensures { IfOk result (λ said. (raw : RawData)
        → option_map (said_line raw) said ≡ set_said (words_of text.now)) }
{
    let Some(port) = first_word(text) else {
        return Ok(None);
    };
    let Some(word) = word_form(port.rest) else {
        return Ok(None);
    };
    let Some(port) = read_name(alloc, port.word)? else {
        return Ok(None);
    };
    Ok(Some(Said::Set { port, word }))
}

/// What the word `NAME` of a release says.
fn release_form(alloc: Global, text: &[u8]) -> Result<Option<Said<'_>>, NoMemory>
    ensures { IfOk result (λ said. (raw : RawData)
        → option_map (said_line raw) said ≡ release_said raw (words_of text.now)) }
{
    let Some(word) = only_word(text) else {
        return Ok(None);
    };
    let Some(name) = read_name(alloc, word)? else {
        return Ok(None);
    };
    Ok(Some(Said::Release(name)))
}

/// What the word `K` of a line that begins a group says.
fn cycle_form(text: &[u8]) -> Option<Said<'_>>
    ensures { (raw : RawData)
        → option_map (said_line raw) result ≡ cycle_said (words_of text.now) }
{
    let number = read_number(only_word(text)?)?;
    Some(Said::Cycle(number))
}

/// Whether the verb of a line gives the word of a register.
fn is_reg(verb: &[u8]) -> bool
    ensures { result ≡ bytes_eq verb.now (codes "reg") }
{
    verb == b"reg".as_slice()
}

/// Whether the verb of a line gives a word of a memory.
fn is_mem(verb: &[u8]) -> bool
    ensures { result ≡ bytes_eq verb.now (codes "mem") }
{
    verb == b"mem".as_slice()
}

/// Whether the verb of a line releases a net, which the version must allow.
fn is_release(version: Version, verb: &[u8]) -> bool
    ensures { result ≡ (bytes_eq verb.now (codes "release") && version_number version == 2) }
{
    verb == b"release".as_slice() && version.may_release()
}

/// Whether the verb of a line begins a group.
fn is_cycle(verb: &[u8]) -> bool
    ensures { result ≡ bytes_eq verb.now (codes "@") }
{
    verb == b"@".as_slice()
}

/// Whether the verb of a line sets a port.
fn is_set(verb: &[u8]) -> bool
    ensures { result ≡ bytes_eq verb.now (codes "set") }
{
    verb == b"set".as_slice()
}

/// What a verb and the text after it say.
fn form_by<'a>(
    alloc: Global,
    version: Version,
    verb: &[u8],
    text: &'a [u8],
) -> Result<Option<Said<'a>>, NoMemory>
    ensures { IfOk result (λ said. (raw : RawData)
        → option_map (said_line raw) said ≡ said_by raw (version_number version) verb.now (words_of text.now)) }
{
    if is_reg(verb) {
        let said = reg_form(alloc, text)?;
        return Ok(said);
    }
    if is_mem(verb) {
        let said = mem_form(alloc, text)?;
        return Ok(said);
    }
    if is_release(version, verb) {
        let said = release_form(alloc, text)?;
        return Ok(said);
    }
    if is_cycle(verb) {
        return Ok(cycle_form(text));
    }
    if is_set(verb) {
        let said = set_form(alloc, text)?;
        return Ok(said);
    }
    Ok(None)
}

/// What a line says; None where it has no form that its version knows.
pub fn form_of(alloc: Global, version: Version, line: &[u8]) -> Result<Option<Said<'_>>, NoMemory>
    ensures { IfOk result (λ said. (raw : RawData)
        → option_map (said_line raw) said ≡ line_said raw (version_number version) (words_of line.now)) }
{
    if !are_visible(line) {
        return Ok(None);
    }
    let Some(verb) = first_word(line) else {
        return Ok(None);
    };
    let said = form_by(alloc, version, verb.word, verb.rest)?;
    Ok(said)
}
