// The lines of a text.
ghost use Rattle.std.specs.Prelude.{◌≡◌, ◌<◌, ◌∷◌, ◌==◌, get_or, length, position};
ghost use Rattle.cif_defs.specs.Text.{lines_of, space, number_sign, is_skipped as is_skipped_line};

use crate::words::is_blank;

const LINE_END: u8 = 10;

/// The first place of a byte.
pub(crate) fn first_place(text: &[u8], sought: u8) -> Option<usize>
    ensures { result ≡ position (λ b. b == sought) text.now }
{
    text.iter().position(|byte| *byte == sought)
}

/// The first line of a text, and what stands after its end.
pub fn split_line(text: &[u8]) -> (&[u8], &[u8])
    requires { 0 < length text.now }
    ensures lines { lines_of text.now ≡ result.0.now ∷ lines_of result.1.now }
    ensures shorter { length result.1.now < length text.now }
{
    match first_place(text, LINE_END) {
        Some(end) => (&text[..end], &text[end + 1..]),
        None => (text, &[]),
    }
}

/// Whether a line is a remark.
fn is_remark(line: &[u8]) -> bool
    ensures { result ≡ (get_or line.now 0 space == number_sign) }
{
    !line.is_empty() && line[0] == b'#'
}

/// Whether a line is passed over, though counted: it has no words, or its first byte is `#`.
pub fn is_skipped(line: &[u8]) -> bool
    ensures { result ≡ is_skipped_line line.now }
{
    is_blank(line) || is_remark(line)
}
