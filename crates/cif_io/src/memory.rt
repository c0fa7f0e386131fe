//! A store and a sink in memory, with calls that fail by their numbers.
ghost use Rattle.std.specs.Prelude.{◌≡◌, ◌≢◌, ◌⊎◌, ◌<◌, ◌≤◌, ◌+◌, ◌++◌, ◌↔◌, ℕ, List, [], Some, None, IsSome, length, take, IsErr, IfOk, OnErr, OnOk};
ghost use Rattle.cif_io.specs.Outside.{Rose, Appends, file_named, file_limit};
ghost use Rattle.cif_io.specs.Counts.{counted};

use super::lists::{Bytes, CallNumbers, Files};
use super::outside::{FILE_LIMIT, Failed, Sink, Store, StoreFault};
use std::alloc::Global;

/// A store in memory. The fetches that `fail_at` numbers fail, and those of a missing name.
///
/// A failure copies the name. Where there is no memory for the copy, the answer is `Memory`, which
/// counts no fault and keeps the last name. Counts stand still at their last value, 2^64 - 1.
#[derive(Debug, Drop)]
pub struct MemStore {
    pub files: Files,
    pub fail_at: CallNumbers,
    /// The calls so far.
    pub calls: u64,
    /// The failures so far.
    pub faults: u64,
    /// The name that failed last.
    pub last: Bytes,
}

impl Store for MemStore {
    ghost told = { λ s. Some s.files };

    ghost faults = { λ s. s.faults };

    ghost last_failed = { λ s. s.last.items };

    ghost use Rattle.cif_io.specs.FailingCalls.{FailsFetch};

    fn fetch(&mut self, alloc: Global, name: &str) -> Result<Vec<u8>, StoreFault>
        ensures content { IfOk result (λ v. file_named self.old.files name.now ≡ Some v.items) }
        ensures within { IfOk result (λ v. length v.items ≤ file_limit) }
        ensures too_long { result ≡ Err StoreFault.TooLong
            → (bytes : List ℕ) × (file_named self.old.files name.now ≡ Some bytes) × (file_limit < length bytes) }

        // It fails exactly where its number is listed or the name is missing, unless memory is wanting.
        ensures fails_only { result ≡ Err StoreFault.Failed → FailsFetch self.old name.now }
        ensures fails { FailsFetch self.old name.now
            → (result ≡ Err StoreFault.Failed) ⊎ (result ≡ Err StoreFault.Memory) }
        ensures failed { result ≡ Err StoreFault.Failed
            → Rose self.old.faults self.new.faults × (self.new.last.items ≡ name.now) }
        ensures counts { result ≡ Err StoreFault.Failed → self.new.faults ≡ counted self.old.faults }
        ensures kept { result ≢ Err StoreFault.Failed
            → (self.new.faults ≡ self.old.faults) × (self.new.last ≡ self.old.last) }

        ensures never_falls { self.old.faults ≤ self.new.faults }
        ensures sound { self.old.fail_at ≡ [] → IsSome (file_named self.old.files name.now)
            → self.new.faults ≡ self.old.faults }

        ensures calls { self.new.calls ≡ counted self.old.calls }
        ensures same { (self.new.files ≡ self.old.files) × (self.new.fail_at ≡ self.old.fail_at) }
    {
        self.calls = self.calls.saturating_add(1);
        if self.fail_at.contains(self.calls) {
            return Err(failure(alloc, name, &mut self.faults, &mut self.last));
        }
        match self.files.named(name.as_bytes()) {
            Some(file) => fetched(alloc, file.bytes.items()),
            None => Err(failure(alloc, name, &mut self.faults, &mut self.last)),
        }
    }
}

/// A copy of a file that is not too long.
fn fetched(alloc: Global, bytes: &[u8]) -> Result<Vec<u8>, StoreFault>
    ensures content { IfOk result (λ v. v.items ≡ bytes.now) }
    ensures within { IfOk result (λ v. length v.items ≤ file_limit) }
    ensures too_long { result ≡ Err StoreFault.TooLong → file_limit < length bytes.now }
    ensures no_failure { result ≢ Err StoreFault.Failed }
{
    if bytes.len() > FILE_LIMIT {
        return Err(StoreFault::TooLong);
    }
    Vec::from_slice(alloc, bytes).map_err(|_| StoreFault::Memory)
}

/// Counts a failure and keeps its name. Where there is no memory for the name, nothing changes.
pub(crate) fn failure(alloc: Global, name: &str, faults: &mut u64, last: &mut Bytes) -> StoreFault
    ensures answers { (result ≡ StoreFault.Failed) ⊎ (result ≡ StoreFault.Memory) }
    ensures failed { result ≡ StoreFault.Failed → (faults.new ≡ counted faults.old) × (last.new.items ≡ name.now) }
    ensures kept { result ≢ StoreFault.Failed → (faults.new ≡ faults.old) × (last.new ≡ last.old) }
    ensures never_falls { faults.old ≤ faults.new }
{
    match Vec::from_slice(alloc, name.as_bytes()) {
        Ok(copy) => {
            *last = Bytes::of(copy);
            *faults = faults.saturating_add(1);
            StoreFault::Failed
        }
        Err(_) => StoreFault::Memory,
    }
}

/// A sink in memory, which takes at most `most` bytes in a call and none beyond its room.
///
/// The writes that `fail_at` numbers fail, and those of a piece that finds no room. It takes no
/// memory. Counts stand still at their last value, 2^64 - 1.
#[derive(Debug, Drop)]
pub struct MemSink {
    /// What it took, and the room for more.
    pub bytes: Bytes,
    /// The most bytes of one call, at least 1.
    pub most: usize,
    pub fail_at: CallNumbers,
    /// The calls so far.
    pub calls: u64,
    /// The failures so far.
    pub faults: u64,
    ghost some: { 0 < most },
}

impl Sink for MemSink {
    ghost taken = { λ s. Some s.bytes.items };

    ghost faults = { λ s. s.faults };

    ghost use Rattle.cif_io.specs.FailingCalls.{FailsWrite, taken_size};

    #[tactic(auto, unfolding(crate::specs::Outside::taken_with))]
    fn write(&mut self, bytes: &[u8]) -> Result<usize, Failed>
        // It fails exactly where its number is listed, or the piece finds no room.
        ensures fails { IsErr result ↔ FailsWrite self.old bytes.now }
        ensures failed { OnErr result (Rose self.old.faults self.new.faults) }
        ensures counts { OnErr result (self.new.faults ≡ counted self.old.faults) }
        ensures took_nothing { OnErr result (self.new.bytes ≡ self.old.bytes) }

        ensures size { IfOk result (λ n. n ≡ taken_size self.old bytes.now) }
        ensures took { IfOk result (λ n. Appends (Some self.old.bytes.items) (Some self.new.bytes.items) (take n bytes.now)) }
        ensures room { IfOk result (λ n. self.old.bytes.room ≤ self.new.bytes.room + n) }
        ensures kept { OnOk result (self.new.faults ≡ self.old.faults) }
        ensures never_falls { self.old.faults ≤ self.new.faults }
        ensures sound { self.old.fail_at ≡ [] → length bytes.now ≤ self.old.bytes.room
            → self.new.faults ≡ self.old.faults }

        ensures calls { self.new.calls ≡ counted self.old.calls }
        ensures same { (self.new.most ≡ self.old.most) × (self.new.fail_at ≡ self.old.fail_at) }
    {
        self.calls = self.calls.saturating_add(1);
        let size = bytes.len().min(self.most).min(self.bytes.room());
        if self.fail_at.contains(self.calls) || (size == 0 && !bytes.is_empty()) {
            self.faults = self.faults.saturating_add(1);
            return Err(Failed);
        }
        self.bytes.append(&bytes[..size]);
        Ok(size)
    }
}
