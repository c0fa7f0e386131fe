// The text of a run.
ghost use Rattle.std.specs.Prelude.{◌≡◌, ◌++◌, ◌∷◌, [], codes, IfOk, OnOk};
ghost use Rattle.std.specs.Fmt.{decimal};
ghost use Rattle.std.specs.List.{flat_map};
ghost use Rattle.cif_script.specs.AnswerText.{answers_text};
ghost use Rattle.cif_run.specs.Runs.{run_text_of, session_text, sessions_text, transcript_at, workers_line};

use crate::told::Told;
use cif_bits::NoMemory;
use cif_defs::Listed;
use cif_script::{Answer, Script, SessionScript, line_text};
use cif_text::{push_name, push_number};
use std::alloc::Global;

/// Adds the lines of answers.
fn push_answers(alloc: Global, text: &mut Vec<u8>, answers: &[Answer]) -> Result<(), NoMemory>
    ensures { OnOk result (text.new.items ≡ text.old.items ++ answers_text answers.now) }
{
    for answer in answers {
        let line = line_text(alloc, answer)?;
        text.extend_from_slice(&line)?;
    }
    Ok(())
}

/// Adds the lines of a session.
fn push_session(
    alloc: Global,
    text: &mut Vec<u8>,
    session: &SessionScript,
    answers: &[Answer],
) -> Result<(), NoMemory>
    ensures { OnOk result (text.new.items ≡ text.old.items ++ session_text session.now answers.now) }
{
    text.extend_from_slice(b"session ")?;
    push_name(text, session.name.items())?;
    text.push(b'\n')?;
    push_answers(alloc, text, answers)?;
    text.extend_from_slice(b"end\n")?;
    Ok(())
}

/// The answers of a session; none past the end.
fn answers_at(transcripts: &[Listed<Answer>], session: usize) -> &[Answer]
    ensures { result.now ≡ transcript_at transcripts.now session }
{
    match transcripts.get(session) {
        Some(answers) => answers.items(),
        None => &[],
    }
}

/// Adds the lines of all sessions.
fn push_sessions(
    alloc: Global,
    text: &mut Vec<u8>,
    sessions: &[SessionScript],
    transcripts: &[Listed<Answer>],
) -> Result<(), NoMemory>
    ensures { OnOk result (text.new.items ≡ text.old.items ++ sessions_text sessions.now transcripts.now) }
{
    for i in 0..sessions.len() {
        push_session(alloc, text, &sessions[i], answers_at(transcripts, i))?;
    }
    Ok(())
}

/// Adds numbers, each after a space.
fn push_numbers(alloc: Global, text: &mut Vec<u8>, counts: &[u64]) -> Result<(), NoMemory>
    ensures { OnOk result (text.new.items ≡ text.old.items ++ flat_map (λ c. codes " " ++ decimal c) counts.now) }
{
    for count in counts {
        text.push(b' ')?;
        push_number(alloc, text, *count)?;
    }
    Ok(())
}

/// Adds the line of the workers.
fn push_counts(alloc: Global, text: &mut Vec<u8>, counts: &[u64]) -> Result<(), NoMemory>
    ensures { OnOk result (text.new.items ≡ text.old.items ++ workers_line counts.now) }
{
    text.extend_from_slice(b"workers")?;
    push_numbers(alloc, text, counts)?;
    text.push(b'\n')?;
    Ok(())
}

/// The text of what a run of a script tells: for each session `session NAME`, its lines, and `end`; last `workers` with the
/// count of each worker.
#[tactic(auto, unfolding(crate::specs::Runs::run_text_of))]
pub fn run_text(alloc: Global, script: &Script, told: &Told) -> Result<Vec<u8>, NoMemory>
    ensures { IfOk result (λ text. text.items ≡ run_text_of script.now told.now) }
{
    let mut text = Vec::new(alloc);
    push_sessions(alloc, &mut text, script.sessions(), told.transcripts())?;
    push_counts(alloc, &mut text, told.counts())?;
    Ok(text)
}
