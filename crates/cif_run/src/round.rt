// Roles that the caller turns.
ghost use Rattle.std.specs.Prelude.{◌≡◌, map, vec_len};
ghost use Rattle.cif_run.specs.Readers.{number_of};

use crate::name::Scripted;
use crate::reader::{Progress, Reader};
use crate::reply::Manner;
use crate::roles::Roles;
use cif_core::Run;
use cif_hall::{Hall, Turn, Worker};
use cif_io::Gate;
use std::alloc::Global;
use std::sync::Wait;
use std::thread;

/// Turns each worker once, and says whether one of them hasn't ended.
fn turn_workers<N: Run, R: Wait, G: Gate>(
    rt: &R,
    alloc: Global,
    hall: &Hall<N>,
    gate: &G,
    workers: &mut Vec<Worker<N>>,
) -> bool
    ensures { vec_len workers.new ≡ vec_len workers.old }
{
    let mut is_busy = false;
    for i in 0..workers.len() {
        match workers[i].turn(rt, alloc, hall, gate) {
            Turn::Ended | Turn::NoMemory => {}
            Turn::Deposited | Turn::Published | Turn::Dropped | Turn::Blocked(_) => is_busy = true,
        }
    }
    is_busy
}

/// Turns each session once, and says whether one of them hasn't ended.
fn turn_readers<'s, N: Scripted, R: Wait, G: Gate>(
    rt: &R,
    alloc: Global,
    hall: &Hall<N>,
    gate: &G,
    readers: &mut Vec<Reader<'s, N>>,
) -> bool
    ensures len { vec_len readers.new ≡ vec_len readers.old }
    ensures numbers { map number_of readers.new.items ≡ map number_of readers.old.items }
{
    let mut is_busy = false;
    for i in 0..readers.len() {
        match readers[i].turn(rt, alloc, hall, gate, Manner::Tries) {
            Progress::Ended => {}
            Progress::Moved | Progress::Blocked => is_busy = true,
        }
    }
    is_busy
}

/// Turns each role once, without waiting in any of them, and says whether one hasn't ended.
pub(crate) fn round<'s, N: Scripted, R: Wait, G: Gate>(
    rt: &R,
    alloc: Global,
    hall: &Hall<N>,
    gate: &G,
    roles: &mut Roles<'s, N>,
) -> bool
    ensures workers { vec_len roles.new.workers ≡ vec_len roles.old.workers }
    ensures readers { vec_len roles.new.readers ≡ vec_len roles.old.readers }
    ensures numbers { map number_of roles.new.readers.items ≡ map number_of roles.old.readers.items }
{
    let workers = turn_workers(rt, alloc, hall, gate, &mut roles.workers);
    let readers = turn_readers(rt, alloc, hall, gate, &mut roles.readers);
    workers || readers
}

/// Turns roles in rotation until each has ended.
pub(crate) fn rotate<'s, N: Scripted, R: Wait, G: Gate>(
    rt: &R,
    alloc: Global,
    hall: &Hall<N>,
    gate: &G,
    roles: Roles<'s, N>,
) -> Roles<'s, N>
    ensures workers { vec_len result.workers ≡ vec_len roles.entry.workers }
    ensures readers { vec_len result.readers ≡ vec_len roles.entry.readers }
    ensures numbers { map number_of result.readers.items ≡ map number_of roles.entry.readers.items }
{
    let mut roles = roles;
    for _ in rt.forever() {
        if !round(rt, alloc, hall, gate, &mut roles) {
            return roles;
        }
        thread::yield_now();
    }
    unreachable!()
}
