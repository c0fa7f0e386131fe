// The forms of the lines that follow the title.
ghost use Rattle.std.specs.Prelude.{◌≡◌, bytes_eq, codes, IfOk};
ghost use Rattle.cif_defs.specs.Text.{words_of};
ghost use Rattle.cif_script.specs.LineForms.{session_said, at_said, show_said, alone as stands_alone, said_by, line_said};

use cif_bits::NoMemory;
use cif_defs::Name;
use cif_text::{are_visible, first_word, is_blank, only_word, read_name, read_number};
use std::alloc::Global;

/// The most bytes of the word that codes the name of a session.
const NAME_LIMIT: usize = 64;

/// What a line says, before it is compared with a netlist and the lines before it.
#[derive(Drop)]
pub enum Said {
    /// A session of this name begins.
    Session(Name),
    /// Goes to a cycle.
    At(u64),
    /// Goes to the next cycle.
    Next,
    /// Goes to the newest cycle.
    Newest,
    /// Shows what has this name.
    Show(Name),
}

/// What the word `NAME` of a line that begins a session says.
fn session_form(alloc: Global, text: &[u8]) -> Result<Option<Said>, NoMemory>
    ensures { IfOk result (λ said. said ≡ session_said (words_of text.now)) }
{
    let Some(word) = only_word(text) else {
        return Ok(None);
    };
    if word.len() > NAME_LIMIT {
        return Ok(None);
    }
    let Some(name) = read_name(alloc, word)? else {
        return Ok(None);
    };
    Ok(Some(Said::Session(name)))
}

/// What the word `K` of a line that goes to a cycle says.
fn at_form(text: &[u8]) -> Option<Said>
    ensures { result ≡ at_said (words_of text.now) }
{
    let cycle = read_number(only_word(text)?)?;
    Some(Said::At(cycle))
}

/// What the word `NAME` of a line that shows a wire says.
fn show_form(alloc: Global, text: &[u8]) -> Result<Option<Said>, NoMemory>
    ensures { IfOk result (λ said. said ≡ show_said (words_of text.now)) }
{
    let Some(word) = only_word(text) else {
        return Ok(None);
    };
    let Some(name) = read_name(alloc, word)? else {
        return Ok(None);
    };
    Ok(Some(Said::Show(name)))
}

/// What a verb says that stands alone.
fn alone(said: Said, text: &[u8]) -> Option<Said>
    ensures { result ≡ stands_alone said (words_of text.now) }
{
    if is_blank(text) { Some(said) } else { None }
}

/// Whether a verb begins a session.
fn is_session(verb: &[u8]) -> bool
    ensures { result ≡ bytes_eq verb.now (codes "session") }
{
    verb == b"session".as_slice()
}

/// Whether a verb goes to a cycle.
fn is_at(verb: &[u8]) -> bool
    ensures { result ≡ bytes_eq verb.now (codes "at") }
{
    verb == b"at".as_slice()
}

/// Whether a verb goes to the next cycle.
fn is_next(verb: &[u8]) -> bool
    ensures { result ≡ bytes_eq verb.now (codes "next") }
{
    verb == b"next".as_slice()
}

/// Whether a verb goes to the newest cycle.
fn is_newest(verb: &[u8]) -> bool
    ensures { result ≡ bytes_eq verb.now (codes "newest") }
{
    verb == b"newest".as_slice()
}

/// Whether a verb shows a wire.
fn is_show(verb: &[u8]) -> bool
    ensures { result ≡ bytes_eq verb.now (codes "show") }
{
    verb == b"show".as_slice()
}

/// What a verb and the text after it say.
fn form_by(alloc: Global, verb: &[u8], text: &[u8]) -> Result<Option<Said>, NoMemory>
    ensures { IfOk result (λ said. said ≡ said_by verb.now (words_of text.now)) }
{
    if is_session(verb) {
        let said = session_form(alloc, text)?;
        return Ok(said);
    }
    if is_at(verb) {
        return Ok(at_form(text));
    }
    if is_next(verb) {
        return Ok(alone(Said::Next, text));
    }
    if is_newest(verb) {
        return Ok(alone(Said::Newest, text));
    }
    if is_show(verb) {
        let said = show_form(alloc, text)?;
        return Ok(said);
    }
    Ok(None)
}

/// What a line says; None where it has no form.
pub fn form_of(alloc: Global, line: &[u8]) -> Result<Option<Said>, NoMemory>
    ensures { IfOk result (λ said. said ≡ line_said (words_of line.now)) }
{
    if !are_visible(line) {
        return Ok(None);
    }
    let Some(verb) = first_word(line) else {
        return Ok(None);
    };
    let said = form_by(alloc, verb.word, verb.rest)?;
    Ok(said)
}
