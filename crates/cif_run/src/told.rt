// What a run tells.
ghost use Rattle.std.specs.Prelude.{◌≡◌};

use cif_defs::Listed;
use cif_script::Answer;
use std::marker::Model;

/// What a run tells: for each session, in their order, what its lines are answered, and how many pieces of each worker were
/// taken.
#[derive(Drop)]
pub struct Told {
    transcripts: Vec<Listed<Answer>>,
    counts: Vec<u64>,
}

impl Model for Told {
    ghost use Rattle.cif_run.specs.Runs.{ToldData};

    ghost Value = { ToldData };

    ghost view = { λ t. record { transcripts = t.transcripts.items; counts = t.counts.items } };
}

impl Told {
    /// These transcripts and counts. It takes no memory.
    pub(crate) fn of(transcripts: Vec<Listed<Answer>>, counts: Vec<u64>) -> Told
        ensures { result ≡ record { transcripts = transcripts.items; counts = counts.items } }
    {
        Told {
            transcripts,
            counts,
        }
    }

    /// The answers of each session.
    pub fn transcripts(&self) -> &[Listed<Answer>]
        ensures { result.now ≡ self.now.transcripts }
    {
        &self.transcripts
    }

    /// The count of each worker.
    pub fn counts(&self) -> &[u64]
        ensures { result.now ≡ self.now.counts }
    {
        &self.counts
    }
}
