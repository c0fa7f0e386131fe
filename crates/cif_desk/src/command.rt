// What words ask for.
ghost use Rattle.std.specs.Prelude.{◌≡◌, map, option_map, string_bytes, IfSome};
ghost use Rattle.cif_run.specs.Runs.{IsSize};
ghost use Rattle.cif_desk.specs.Commands.{command_of, may_wait, number_within as number_of, size_of, stimulus_command};
ghost use Rattle.cif_desk.specs.CommandView.{command_seen, HasSize};

use cif_run::RunSize;
use cif_text::read_number;

/// The names of the files of a run.
#[derive(Clone, Copy, Debug)]
pub(crate) struct RunFiles<'a> {
    pub net: &'a str,
    pub stim: &'a str,
    pub sessions: &'a str,
}

/// A command, with the names of its files.
#[derive(Clone, Copy, Debug)]
pub(crate) enum Command<'a> {
    /// The counts of a netlist.
    Check { net: &'a str },
    /// The output ports of a netlist in every cycle of a stimulus.
    Eval { net: &'a str, stim: &'a str },
    /// The stimulus for the augmented netlist, from one for a netlist.
    AugStim { net: &'a str, stim: &'a str },
    /// The transcripts of sessions over a netlist and a stimulus.
    Run { files: RunFiles<'a>, size: RunSize },
}

/// The number of a word that is neither below the least nor above the most.
fn number_within(least: u32, most: u32, word: &str) -> Option<u32>
    ensures { result ≡ number_of least most word.now }
{
    let number = read_number(word.as_bytes())?;
    if u64::from(least) <= number && number <= u64::from(most) {
        Some(number as u32)
    } else {
        None
    }
}

/// How a run of these words is cut.
fn size_within(workers: &str, parts: &str, window: &str) -> Option<RunSize>
    ensures value { result ≡ size_of workers.now parts.now window.now }
    ensures within { IfSome result IsSize }
{
    Some(RunSize {
        workers: number_within(1, 32, workers)?,
        parts: number_within(1, 64, parts)?,
        window: number_within(2, 64, window)?,
    })
}

/// What is asked for by a verb, a netlist and a stimulus.
fn with_stimulus<'a>(verb: &str, net: &'a str, stim: &'a str) -> Option<Command<'a>>
    ensures value { option_map command_seen result ≡ stimulus_command verb.now net.now stim.now }
    ensures within { IfSome result HasSize }
{
    if verb == "eval" {
        Some(Command::Eval { net, stim })
    } else if verb == "augstim" {
        Some(Command::AugStim { net, stim })
    } else {
        None
    }
}

/// What words ask for, where they fit a form.
#[tactic(auto, unfolding(crate::specs::Commands::command_of))]
pub(crate) fn asked(words: &[String]) -> Option<Command<'_>>
    ensures value { option_map command_seen result ≡ command_of (map string_bytes words.now) }
    ensures within { IfSome result HasSize }
{
    match words {
        [verb, net] if verb.as_str() == "check" => Some(Command::Check { net: net.as_str() }),
        [verb, net, stim] => with_stimulus(verb.as_str(), net.as_str(), stim.as_str()),
        [verb, net, stim, sessions, workers, parts, window] if verb.as_str() == "run" => {
            let size = size_within(workers.as_str(), parts.as_str(), window.as_str())?;
            let files = RunFiles {
                net: net.as_str(),
                stim: stim.as_str(),
                sessions: sessions.as_str(),
            };
            Some(Command::Run { files, size })
        }
        _ => None,
    }
}

/// Whether a command of these words may wait: the first word is `run` or `gen`.
pub fn waits(words: &[String]) -> bool
    ensures { result ≡ may_wait (map string_bytes words.now) }
{
    match words.first() {
        Some(verb) => verb.as_str() == "run" || verb.as_str() == "gen",
        None => false,
    }
}
