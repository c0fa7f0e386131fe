// The words of a line.
ghost use Rattle.std.specs.Prelude.{◌≡◌, ◌<◌, ◌∷◌, [], ◌==◌, ◌||◌, not, false, length, get_or, position, IsNone, IfSome};
ghost use Rattle.std.specs.List.{list_all};
ghost use Rattle.cif_defs.specs.RawModule.{is_binary as is_binary_text};
ghost use Rattle.cif_defs.specs.Text.{words_of, space, is_visible as is_visible_byte};
ghost use Rattle.cif_text.specs.WordLists.{IsOnly};

use crate::lines::first_place;

const SPACE: u8 = 32;

/// Whether each byte is a space.
fn are_spaces(line: &[u8]) -> bool
    ensures { result ≡ list_all (λ b. b == space) line.now }
{
    line.iter().all(|byte| *byte == SPACE)
}

/// Whether a line has no words.
pub fn is_blank(line: &[u8]) -> bool
    ensures { result ≡ (length (words_of line.now) == 0) }
{
    are_spaces(line)
}

/// The first word of a text, and what stands after it.
#[derive(Clone, Copy)]
pub struct FirstWord<'a> {
    /// The word.
    pub word: &'a [u8],
    /// What stands after the space that ends it.
    pub rest: &'a [u8],
}

/// The first place of a byte that isn't a space.
fn first_other(text: &[u8]) -> Option<usize>
    ensures { result ≡ position (λ b. not (b == space)) text.now }
{
    text.iter().position(|byte| *byte != SPACE)
}

/// A text without the spaces at its beginning.
fn after_spaces(text: &[u8]) -> &[u8]
    ensures words { words_of result.now ≡ words_of text.now }
    ensures begins { 0 < length result.now → (get_or result.now 0 0 == space) ≡ false }
{
    match first_other(text) {
        Some(begin) => &text[begin..],
        None => &[],
    }
}

/// The first word of a text.
pub fn first_word(text: &[u8]) -> Option<FirstWord<'_>>
    ensures some { IfSome result
        (λ w. words_of text.now ≡ w.word.now ∷ words_of w.rest.now) }
    ensures none { IsNone result → words_of text.now ≡ [] }
{
    let text = after_spaces(text);
    if text.is_empty() {
        return None;
    }
    match first_place(text, SPACE) {
        Some(end) => Some(FirstWord {
            word: &text[..end],
            rest: &text[end + 1..],
        }),
        None => Some(FirstWord {
            word: text,
            rest: &[],
        }),
    }
}

/// The only word of a text.
pub fn only_word(text: &[u8]) -> Option<&[u8]>
    ensures { IsOnly (words_of text.now) result }
{
    let first = first_word(text)?;
    if is_blank(first.rest) {
        Some(first.word)
    } else {
        None
    }
}

/// Whether a word may have a byte.
pub(crate) fn is_visible(byte: u8) -> bool
    ensures { result ≡ is_visible_byte byte }
{
    byte >= 33 && byte <= 126
}

/// Whether each byte is a space or one that a word may have.
fn are_readable(line: &[u8]) -> bool
    ensures { result ≡ list_all (λ b. b == space || is_visible_byte b) line.now }
{
    line.iter().all(|byte| *byte == SPACE || is_visible(*byte))
}

/// Whether the words of a line have no other bytes than they may have.
pub fn are_visible(line: &[u8]) -> bool
    ensures { result ≡ list_all (list_all is_visible_byte) (words_of line.now) }
{
    are_readable(line)
}

/// Whether a word is one or more binary digits.
pub fn is_binary(word: &[u8]) -> bool
    ensures { result ≡ is_binary_text word.now }
{
    !word.is_empty() && are_binary(word)
}

/// Whether each byte is a binary digit.
fn are_binary(word: &[u8]) -> bool
    ensures { result ≡ list_all (λ b. not (not (b == 48 || b == 49))) word.now }
{
    word.iter().all(|byte| *byte == b'0' || *byte == b'1')
}
