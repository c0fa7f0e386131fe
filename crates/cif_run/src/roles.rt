// The roles of a run.
use crate::name::Scripted;
use crate::reader::Reader;
use cif_hall::Worker;

/// Workers, and sessions at their lines.
#[derive(Drop)]
pub struct Roles<'s, N: Scripted> {
    /// The workers.
    pub workers: Vec<Worker<N>>,
    /// The sessions.
    pub readers: Vec<Reader<'s, N>>,
}
