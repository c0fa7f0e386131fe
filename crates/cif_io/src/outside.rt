//! The traits of the outside.
ghost use Rattle.std.specs.Prelude.{◌≡◌, ◌≢◌, ◌<◌, ◌≤◌, ℕ, List, Option, length, take, IsOk, IfOk, OnOk, OnErr};
ghost use Rattle.cif_io.specs.Outside.{Files, file_limit, Rose, IsTold, IsToldLong, Appends, AppendsPrefix};

use std::alloc::Global;
use thiserror::Error;

/// The most bytes that a fetched file has.
pub const FILE_LIMIT: usize = 67_108_864;

/// Why a file was not fetched.
#[derive(Debug, Drop, Error)]
pub enum StoreFault {
    /// The store failed, as for a missing file: its count of faults rose.
    #[error("the file could not be read")]
    Failed,

    /// The file has more than 67,108,864 bytes.
    #[error("the file is too long")]
    TooLong,

    #[error("out of memory")]
    Memory,
}

/// A sink took nothing of what it was given: its count of faults rose.
#[derive(Debug, Drop, Error)]
#[error("the bytes could not be written")]
pub struct Failed;

/// Named files, for fetching.
///
/// A store may tell its files (`told`), which never change. It counts its faults, and keeps the name
/// of the last fetch that failed, which is empty before the first. Only an answer `Failed` touches
/// these two.
pub trait Store {
    ghost told: { Self → Option Files };

    ghost faults: { Self → ℕ };

    ghost last_failed: { Self → List ℕ };

    /// What the file of that name holds, which is at most 67,108,864 bytes.
    ///
    /// Where the answer is not `Failed`, it is `TooLong` exactly where the told file is longer, unless
    /// memory is wanting. For a name that is missing among the told files no answer but `Failed` and
    /// `Memory` meets these clauses.
    fn fetch(&mut self, alloc: Global, name: &str) -> Result<Vec<u8>, StoreFault>
        ensures content { IfOk result (λ v. IsTold (told self.old) name.now v.items) }
        ensures within { IfOk result (λ v. length v.items ≤ file_limit) }
        ensures too_long { result ≡ Err StoreFault.TooLong → IsToldLong (told self.old) name.now }

        // A failure is counted and its name kept; no other answer touches either.
        ensures failed { result ≡ Err StoreFault.Failed
            → Rose (faults self.old) (faults self.new) × (last_failed self.new ≡ name.now) }
        ensures kept { result ≢ Err StoreFault.Failed
            → (faults self.new ≡ faults self.old) × (last_failed self.new ≡ last_failed self.old) }
        ensures never_falls { faults self.old ≤ faults self.new }
        ensures same_files { told self.new ≡ told self.old };
}

/// What takes bytes, one piece after another.
///
/// A sink may tell the bytes that it took so far (`taken`); one that tells nothing goes on so. It
/// counts its faults: only an answer `Failed` raises the count.
pub trait Sink {
    ghost taken: { Self → Option (List ℕ) };

    ghost faults: { Self → ℕ };

    /// Takes the first bytes of a piece, at least one where there are any, and says how many.
    fn write(&mut self, bytes: &[u8]) -> Result<usize, Failed>
        ensures within { IfOk result (λ n. n ≤ length bytes.now) }
        ensures moves { IfOk result (λ n. 0 < length bytes.now → 0 < n) }
        ensures took { IfOk result (λ n. Appends (taken self.old) (taken self.new) (take n bytes.now)) }

        // A failure is counted, and takes nothing.
        ensures failed { OnErr result (Rose (faults self.old) (faults self.new)) }
        ensures took_nothing { OnErr result (taken self.new ≡ taken self.old) }
        ensures kept { OnOk result (faults self.new ≡ faults self.old) }
        ensures never_falls { faults self.old ≤ faults self.new };
}

/// What is told of the steps of workers and sessions, and may hold them up.
pub trait Gate {
    /// A worker has computed a piece, and will deposit it next.
    fn pass(&self, worker: u32, cycle: u64, part: u32);

    /// A session has pinned this cycle.
    fn pinned(&self, session: u32, cycle: u64);
}

/// The gate that does nothing.
#[derive(Clone, Copy, Debug)]
pub struct Open;

impl Gate for Open {
    fn pass(&self, _worker: u32, _cycle: u64, _part: u32) {}

    fn pinned(&self, _session: u32, _cycle: u64) {}
}

/// Writes all bytes. After `Failed` the sink has taken a beginning of them.
///
/// Each turn takes at least one byte, or is the last.
pub fn write_all<W: Sink>(sink: &mut W, bytes: &[u8]) -> Result<(), Failed>
    ensures all { OnOk result (Appends (W.taken sink.old) (W.taken sink.new) bytes.now) }
    ensures part { OnErr result (AppendsPrefix (W.taken sink.old) (W.taken sink.new) bytes.now) }
    ensures failed { OnErr result (Rose (W.faults sink.old) (W.faults sink.new)) }
    ensures kept { OnOk result (W.faults sink.new ≡ W.faults sink.old) }
    ensures never_falls { W.faults sink.old ≤ W.faults sink.new }
{
    let mut done = 0;
    while done < bytes.len() {
        done += sink.write(&bytes[done..])?;
    }
    Ok(())
}
