//! The store and the sinks of the system.
//!
//! They tell no content: what a file or a stream really holds is trusted, and no clause speaks of it.
ghost use Rattle.std.specs.Prelude.{◌≡◌, ◌≢◌, ◌<◌, ◌≤◌, [], None, length, IfOk, IfSome};
ghost use Rattle.std.specs.IoError.{error_kind};
ghost use Rattle.cif_io.specs.Outside.{file_limit};

use super::lists::Bytes;
use super::memory::failure;
use super::outside::{FILE_LIMIT, Failed, Sink, Store, StoreFault};
use std::alloc::Global;
use std::io::{ErrorKind, Read, Write};
use std::rt::Files;
use std::{fs, io};

/// The files of the system, over a runtime or a reference to one. A name is a path.
///
/// A failure copies the name. Where there is no memory for the copy, the answer is `Memory`, which
/// counts no fault and keeps the last name. The count stands still at its last value, 2^64 - 1.
#[derive(Debug, Drop)]
pub struct FileStore<R> {
    pub files: R,
    /// The failures so far.
    pub faults: u64,
    /// The name that failed last.
    pub last: Bytes,
}

impl<R: Files> FileStore<R> {
    /// A store that has not failed yet.
    pub fn new(alloc: Global, files: R) -> FileStore<R>
        ensures faults { result.faults ≡ 0 }
        ensures last { result.last.items ≡ [] }
    {
        FileStore {
            files,
            faults: 0,
            last: Bytes::of(Vec::new(alloc)),
        }
    }
}

impl<R: Files> Store for FileStore<R> {
    ghost told = { λ _. None };

    ghost faults = { λ s. s.faults };

    ghost last_failed = { λ s. s.last.items };

    fn fetch(&mut self, alloc: Global, name: &str) -> Result<Vec<u8>, StoreFault> {
        match read_file(&self.files, alloc, name) {
            Err(StoreFault::Failed) => {
                Err(failure(alloc, name, &mut self.faults, &mut self.last))
            }
            answer => answer,
        }
    }
}

fn read_file<R: Files>(files: &R, alloc: Global, name: &str) -> Result<Vec<u8>, StoreFault>
    ensures within { IfOk result (λ v. length v.items ≤ file_limit) }
{
    let file = fs::open(files, name).map_err(fault_of)?;
    read_whole(alloc, file)
}

/// All that a reader gives, where that is not too long. At most one byte past the limit is read.
fn read_whole<F: Read + Drop>(alloc: Global, reader: F) -> Result<Vec<u8>, StoreFault>
    ensures content { IfOk result (λ v. IfSome (F.remaining reader) (λ bytes. v.items ≡ bytes)) }
    ensures within { IfOk result (λ v. length v.items ≤ file_limit) }
    ensures too_long { result ≡ Err StoreFault.TooLong
        → IfSome (F.remaining reader) (λ bytes. file_limit < length bytes) }
{
    let mut bytes = Vec::new(alloc);
    reader
        .take(FILE_LIMIT as u64 + 1)
        .read_to_end(&mut bytes)
        .map_err(fault_of)?;
    if bytes.len() > FILE_LIMIT {
        return Err(StoreFault::TooLong);
    }
    Ok(bytes)
}

fn fault_of(error: io::Error) -> StoreFault
    ensures memory { result ≡ StoreFault.Memory → error_kind error ≡ ErrorKind.OutOfMemory }
    ensures other { result ≢ StoreFault.TooLong }
{
    match error.kind() {
        ErrorKind::OutOfMemory => StoreFault::Memory,
        _ => StoreFault::Failed,
    }
}

/// How often a write is tried that signals interrupt.
const TRIES: u32 = 64;

/// A stream of the system, which is flushed in each write.
///
/// A write that takes nothing of a piece with bytes is a failure. The count stands still at its last
/// value, 2^64 - 1.
#[derive(Debug, Drop)]
pub struct StdSink<W> {
    pub stream: W,
    /// The failures so far.
    pub faults: u64,
}

impl<W: Write> StdSink<W> {
    /// A sink that has not failed yet.
    pub fn new(stream: W) -> StdSink<W>
        ensures stream { result.stream ≡ stream }
        ensures faults { result.faults ≡ 0 }
    {
        StdSink { stream, faults: 0 }
    }
}

impl<W: Write> Sink for StdSink<W> {
    ghost taken = { λ _. None };

    ghost faults = { λ s. s.faults };

    #[tactic(auto, unfolding(crate::specs::Outside::taken_with))]
    fn write(&mut self, bytes: &[u8]) -> Result<usize, Failed> {
        match write_some(&mut self.stream, bytes) {
            Ok(n) if n > 0 || bytes.is_empty() => Ok(n),
            _ => {
                self.faults = self.faults.saturating_add(1);
                Err(Failed)
            }
        }
    }
}

/// Writes once, and again where a signal came in between.
fn write_some<W: Write>(stream: &mut W, bytes: &[u8]) -> io::Result<usize>
    ensures { IfOk result (λ n. n ≤ length bytes.now) }
{
    for _ in 0..TRIES {
        match stream.write(bytes) {
            Ok(n) => {
                stream.flush()?;
                return Ok(n);
            }
            Err(e) if e.kind() == ErrorKind::Interrupted => {}
            Err(e) => return Err(e),
        }
    }
    Err(io::Error::from(ErrorKind::Interrupted))
}
