// Lines that aren't passed over, by their numbers.
ghost use Rattle.std.specs.Prelude.{◌≡◌, ◌<◌, ◌≤◌, ◌+◌, ◌^◌, ◌∷◌, [], length, IsNone, IfSome};
ghost use Rattle.cif_defs.specs.Text.{lines_of, words_of};
ghost use Rattle.cif_stimulus.specs.StimulusText.{numbered};

use cif_text::{is_skipped, split_line};

/// A line that isn't passed over.
#[derive(Clone, Copy)]
pub struct Line<'a> {
    /// Its number.
    pub number: u64,
    /// Its bytes.
    pub text: &'a [u8],
    /// What stands after its end.
    pub rest: &'a [u8],
}

/// The first line of a text that isn't passed over, where the lines of the text have numbers from `number` on.
pub fn next_line(text: &[u8], number: u64) -> Option<Line<'_>>
    requires { number + length text.now < 2 ^ 64 }
    ensures some { IfSome result (λ l. numbered number (lines_of text.now)
        ≡ record { number = l.number; words = words_of l.text.now }
        ∷ numbered (l.number + 1) (lines_of l.rest.now)) }
    ensures later { IfSome result (λ l. number ≤ l.number) }
    ensures shorter { IfSome result
        (λ l. l.number + 1 + length l.rest.now ≤ number + length text.now) }
    ensures none { IsNone result → numbered number (lines_of text.now) ≡ [] }
{
    let mut rest = text;
    let mut number = number;
    while !rest.is_empty() {
        let (line, after) = split_line(rest);
        if !is_skipped(line) {
            return Some(Line {
                number,
                text: line,
                rest: after,
            });
        }
        rest = after;
        number += 1;
    }
    None
}
