// The lines of a transcript.
ghost use Rattle.std.specs.Prelude.{◌≡◌, ◌++◌, ◌∷◌, [], IfOk, OnOk};
ghost use Rattle.std.specs.Fmt.{decimal};
ghost use Rattle.cif_defs.specs.EvalText.{pair_text};
ghost use Rattle.cif_defs.specs.Text.{line_end};
ghost use Rattle.cif_script.specs.AnswerText.{answer_text};

use cif_bits::{Bits, NoMemory};
use cif_defs::Name;
use cif_text::{push_name, push_number};
use std::alloc::Global;

/// What a line of a session is answered. Cycles are counted from 0.
#[derive(Drop)]
pub enum Answer {
    /// The session has this cycle as its own now.
    Cycle(u64),
    /// The cycle that was asked for is below the own one, which is this and stays.
    Back(u64),
    /// The cycle that was asked for is past the last, where there are so many cycles; the own cycle stays.
    Past(u64),
    /// What a wire holds in the own cycle.
    Shown {
        /// The wire's name.
        name: Name,
        /// The values of its bits.
        value: Bits,
        /// Which of its bits are tainted.
        taint: Bits,
    },
    /// There is no own cycle, so nothing is shown.
    Unpinned,
}

/// Adds a number and the end of a line.
fn push_count(alloc: Global, text: &mut Vec<u8>, count: u64) -> Result<(), NoMemory>
    ensures { OnOk result (text.new.items ≡ text.old.items ++ decimal count ++ line_end ∷ []) }
{
    push_number(alloc, text, count)?;
    text.push(b'\n')?;
    Ok(())
}

/// Adds values and taints, the highest bit first, and the end of a line.
fn push_pair(alloc: Global, text: &mut Vec<u8>, value: &Bits, taint: &Bits) -> Result<(), NoMemory>
    ensures { OnOk result (text.new.items
        ≡ text.old.items ++ pair_text value.now taint.now ++ line_end ∷ []) }
{
    let value = value.to_text(alloc)?;
    let taint = taint.to_text(alloc)?;
    text.extend_from_slice(&value)?;
    text.push(b'/')?;
    text.extend_from_slice(&taint)?;
    text.push(b'\n')?;
    Ok(())
}

/// Adds the line of an answer.
fn push_answer(alloc: Global, text: &mut Vec<u8>, answer: &Answer) -> Result<(), NoMemory>
    ensures { OnOk result (text.new.items ≡ text.old.items ++ answer_text answer.now) }
{
    match answer {
        Answer::Cycle(cycle) => {
            text.extend_from_slice(b"cycle ")?;
            push_count(alloc, text, *cycle)
        }
        Answer::Back(own) => {
            text.extend_from_slice(b"back ")?;
            push_count(alloc, text, *own)
        }
        Answer::Past(total) => {
            text.extend_from_slice(b"past ")?;
            push_count(alloc, text, *total)
        }
        Answer::Shown { name, value, taint } => {
            text.extend_from_slice(b"show ")?;
            push_name(text, name.items())?;
            text.push(b' ')?;
            push_pair(alloc, text, value, taint)
        }
        Answer::Unpinned => Ok(text.extend_from_slice(b"unpinned\n")?),
    }
}

/// The line of an answer, with the LF that ends it.
pub fn line_text(alloc: Global, answer: &Answer) -> Result<Vec<u8>, NoMemory>
    ensures { IfOk result (λ text. text.items ≡ answer_text answer.now) }
{
    let mut text = Vec::new(alloc);
    push_answer(alloc, &mut text, answer)?;
    Ok(text)
}
