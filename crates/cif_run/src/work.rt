// Roles until their end.
ghost use Rattle.std.specs.Prelude.{◌≡◌};

use crate::name::Scripted;
use crate::reader::{Progress, Reader};
use crate::reply::Manner;
use cif_core::Run;
use cif_hall::{Hall, Turn, Worker};
use cif_io::Gate;
use std::alloc::Global;
use std::sync::Wait;
use std::sync::atomic::{AtomicU64, Ordering};

/// Takes turns until the run is over, and waits where there is nothing to do.
fn work<N: Run, R: Wait, G: Gate>(
    rt: &R,
    alloc: Global,
    hall: &Hall<N>,
    gate: &G,
    worker: Worker<N>,
) -> Worker<N>
    ensures { result.number ≡ worker.number }
{
    let mut worker = worker;
    for _ in rt.forever() {
        match worker.turn(rt, alloc, hall, gate) {
            Turn::Ended => return worker,
            Turn::NoMemory => return worker,
            Turn::Blocked(mark) => hall.wait(rt, mark),
            Turn::Deposited | Turn::Published | Turn::Dropped => {}
        }
    }
    unreachable!()
}

/// Answers lines until the session has left, and waits for its cycles.
fn read<'s, N: Scripted, R: Wait, G: Gate>(
    rt: &R,
    alloc: Global,
    hall: &Hall<N>,
    gate: &G,
    reader: Reader<'s, N>,
) -> Reader<'s, N>
    ensures { result.number ≡ reader.entry.number }
{
    let mut reader = reader;
    for _ in rt.forever() {
        match reader.turn(rt, alloc, hall, gate, Manner::Waits) {
            Progress::Ended => return reader,
            Progress::Moved | Progress::Blocked => {}
        }
    }
    unreachable!()
}

/// Works, unless the worker is the one that is to stay.
pub(crate) fn work_unless<N: Run, R: Wait, G: Gate>(
    rt: &R,
    alloc: Global,
    hall: &Hall<N>,
    gate: &G,
    worker: Worker<N>,
    staying: &AtomicU64,
) -> Worker<N>
    ensures { result.number ≡ worker.number }
{
    if staying.load(Ordering::SeqCst) == u64::from(worker.number()) {
        worker
    } else {
        work(rt, alloc, hall, gate, worker)
    }
}

/// Reads, unless the session is the one that is to stay.
pub(crate) fn read_unless<'s, N: Scripted, R: Wait, G: Gate>(
    rt: &R,
    alloc: Global,
    hall: &Hall<N>,
    gate: &G,
    reader: Reader<'s, N>,
    staying: &AtomicU64,
) -> Reader<'s, N>
    ensures { result.number ≡ reader.entry.number }
{
    if staying.load(Ordering::SeqCst) == u64::from(reader.number()) {
        reader
    } else {
        read(rt, alloc, hall, gate, reader)
    }
}
