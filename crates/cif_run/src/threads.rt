// Roles in threads.
ghost use Rattle.std.specs.Prelude.{◌≡◌, ◌<◌, ◌+◌, ℕ, IfOk, map, vec_len, slice_index_or};
ghost use Rattle.cif_run.specs.Readers.{AreNumbered, number_of};

use crate::name::Scripted;
use crate::reader::Reader;
use crate::roles::Roles;
use crate::round::rotate;
use crate::work::{read_unless, work_unless};
use cif_bits::NoMemory;
use cif_core::Run;
use cif_hall::{Hall, Worker};
use cif_io::Gate;
use std::alloc::Global;
use std::sync::Wait;
use std::sync::atomic::{AtomicU64, Ordering};
use std::thread;
use std::thread::{Promise, PromisedHandle, Scope, Threads};

/// What is known of a role that a thread hands back: its number.
#[derive(Clone, Copy)]
pub struct NumberOf(u32);

impl<N: Run> Promise<Worker<N>> for NumberOf {
    ghost kept_by = { λ p r. r.number ≡ p.0 };
}

impl<'r, N: Scripted> Promise<Reader<'r, N>> for NumberOf {
    ghost kept_by = { λ p r. r.number ≡ p.0 };
}

/// Workers in threads, and those that no thread took.
#[derive(Drop)]
struct Working<N: Run> {
    away: Vec<PromisedHandle<Worker<N>, NumberOf>>,
    home: Vec<Worker<N>>,
}

/// Sessions in threads, and those that no thread took.
#[derive(Drop)]
struct Reading<'r, N: Scripted> {
    away: Vec<PromisedHandle<Reader<'r, N>, NumberOf>>,
    home: Vec<Reader<'r, N>>,
}

/// The number of the worker and of the session, if any, that is to hand itself back since no thread took it.
#[derive(Drop)]
pub struct Staying {
    worker: AtomicU64,
    reader: AtomicU64,
}

impl Staying {
    /// None of them.
    pub fn none() -> Staying {
        Staying {
            worker: AtomicU64::new(u64::MAX),
            reader: AtomicU64::new(u64::MAX),
        }
    }
}

/// Starts a thread for each worker. From the first that no thread takes on, they stay here.
fn start_workers<'s, E, N: Scripted + Send + Sync, R: Threads + Wait + Sync, G: Gate + Sync>(
    scope: &'s Scope<'s, E>,
    rt: &'s R,
    alloc: Global,
    hall: &'s Hall<N>,
    gate: &'s G,
    staying: &'s AtomicU64,
    workers: Vec<Worker<N>>,
) -> Result<Working<N>, NoMemory>
    ensures { IfOk result (λ w. vec_len w.away + vec_len w.home ≡ vec_len workers) }
{
    let mut away = Vec::with_capacity(alloc, workers.len())?;
    let mut home = Vec::with_capacity(alloc, workers.len())?;
    for worker in workers {
        if home.is_empty() {
            let number = worker.number();
            let job = move || work_unless(rt, alloc, hall, gate, worker, staying);
            match scope.spawn_with(NumberOf(number), job) {
                Ok(handle) => away.push(handle)?,
                Err(refused) => {
                    staying.store(u64::from(number), Ordering::SeqCst);
                    home.push((refused.value)())?;
                }
            }
        } else {
            home.push(worker)?;
        }
    }
    Ok(Working { away, home })
}

/// Starts a thread for each session. From the first that no thread takes on, they stay here.
fn start_readers<
    's,
    'r: 's,
    E,
    N: Scripted + Send + Sync,
    R: Threads + Wait + Sync,
    G: Gate + Sync,
>(
    scope: &'s Scope<'s, E>,
    rt: &'s R,
    alloc: Global,
    hall: &'s Hall<N>,
    gate: &'s G,
    staying: &'s AtomicU64,
    readers: Vec<Reader<'r, N>>,
) -> Result<Reading<'r, N>, NoMemory>
    requires { AreNumbered readers.items }
    ensures len { IfOk result (λ r. vec_len r.away + vec_len r.home ≡ vec_len readers.entry) }
    ensures away { IfOk result (λ r. (i : ℕ) (d : _) → i < vec_len r.away → (slice_index_or r.away.items i d).promise.0 ≡ i) }
    ensures home { IfOk result (λ r. (i : ℕ) (d : _) → i < vec_len r.home → (slice_index_or r.home.items i d).number ≡ vec_len r.away + i) }
{
    let mut away = Vec::with_capacity(alloc, readers.len())?;
    let mut home = Vec::with_capacity(alloc, readers.len())?;
    for reader in readers {
        if home.is_empty() {
            let number = reader.number();
            let job = move || read_unless(rt, alloc, hall, gate, reader, staying);
            match scope.spawn_with(NumberOf(number), job) {
                Ok(handle) => away.push(handle)?,
                Err(refused) => {
                    staying.store(u64::from(number), Ordering::SeqCst);
                    home.push((refused.value)())?;
                }
            }
        } else {
            home.push(reader)?;
        }
    }
    Ok(Reading { away, home })
}

/// All workers, in their order, once the threads have ended.
fn all_workers<N: Run, R: Threads>(
    rt: &R,
    away: Vec<PromisedHandle<Worker<N>, NumberOf>>,
    home: Vec<Worker<N>>,
) -> Result<Vec<Worker<N>>, NoMemory>
    ensures { IfOk result (λ ws. vec_len ws ≡ vec_len away + vec_len home) }
{
    let Ok(mut workers) = thread::join_promised(rt, away) else {
        return Err(NoMemory);
    };
    for worker in home {
        workers.push(worker)?;
    }
    Ok(workers)
}

/// All sessions, in their order, once the threads have ended.
fn all_readers<'r, N: Scripted, R: Threads>(
    rt: &R,
    away: Vec<PromisedHandle<Reader<'r, N>, NumberOf>>,
    home: Vec<Reader<'r, N>>,
) -> Result<Vec<Reader<'r, N>>, NoMemory>
    requires away { (i : ℕ) (d : _) → i < vec_len away → (slice_index_or away.items i d).promise.0 ≡ i }
    requires home { (i : ℕ) (d : _) → i < vec_len home → (slice_index_or home.items i d).number ≡ vec_len away + i }
    ensures len { IfOk result (λ rs. vec_len rs ≡ vec_len away.entry + vec_len home.entry) }
    ensures numbers { IfOk result (λ rs. AreNumbered rs.items) }
{
    let Ok(mut readers) = thread::join_promised(rt, away) else {
        return Err(NoMemory);
    };
    for reader in home {
        readers.push(reader)?;
    }
    Ok(readers)
}

/// Starts the threads, turns here what no thread took, and waits until all have ended.
fn run_all<'s, 'r: 's, E, N: Scripted + Send + Sync, R: Threads + Wait + Sync, G: Gate + Sync>(
    scope: &'s Scope<'s, E>,
    rt: &'s R,
    alloc: Global,
    hall: &'s Hall<N>,
    gate: &'s G,
    staying: &'s Staying,
    roles: Roles<'r, N>,
) -> Result<Roles<'r, N>, NoMemory>
    requires { AreNumbered roles.readers.items }
    ensures workers { IfOk result (λ z. vec_len z.workers ≡ vec_len roles.entry.workers) }
    ensures readers { IfOk result (λ z. vec_len z.readers ≡ vec_len roles.entry.readers) }
    ensures numbers { IfOk result (λ z. AreNumbered z.readers.items) }
{
    let Roles { workers, readers } = roles;
    let working = start_workers(scope, rt, alloc, hall, gate, &staying.worker, workers)?;
    let reading = start_readers(scope, rt, alloc, hall, gate, &staying.reader, readers)?;
    let Working { away, home } = working;
    let Reading {
        away: away_readers,
        home: home_readers,
    } = reading;
    let home = rotate(
        rt,
        alloc,
        hall,
        gate,
        Roles {
            workers: home,
            readers: home_readers,
        },
    );
    let workers = all_workers(rt, away, home.workers)?;
    let readers = all_readers(rt, away_readers, home.readers)?;
    Ok(Roles { workers, readers })
}

/// Runs the roles. Where that finds no memory, a failure is kept, so that the threads end.
fn run_or_fail<'s, 'r: 's, E, N: Scripted + Send + Sync, R: Threads + Wait + Sync, G: Gate + Sync>(
    scope: &'s Scope<'s, E>,
    rt: &'s R,
    alloc: Global,
    hall: &'s Hall<N>,
    gate: &'s G,
    staying: &'s Staying,
    roles: Roles<'r, N>,
) -> Result<Roles<'r, N>, NoMemory>
    requires { AreNumbered roles.readers.items }
    ensures workers { IfOk result (λ z. vec_len z.workers ≡ vec_len roles.entry.workers) }
    ensures readers { IfOk result (λ z. vec_len z.readers ≡ vec_len roles.entry.readers) }
    ensures numbers { IfOk result (λ z. AreNumbered z.readers.items) }
{
    let told = run_all(scope, rt, alloc, hall, gate, staying, roles);
    if told.is_err() {
        hall.fail(rt);
    }
    told
}

/// Runs each role in a thread of its own, or here where none can be started, until all have ended. Sessions stand in their
/// order.
pub(crate) fn run_roles<'r, N: Scripted + Send + Sync, R: Threads + Wait + Sync, G: Gate + Sync>(
    rt: &R,
    alloc: Global,
    hall: &Hall<N>,
    gate: &G,
    staying: &Staying,
    roles: Roles<'r, N>,
) -> Result<Roles<'r, N>, NoMemory>
    requires { AreNumbered roles.readers.items }
    ensures workers { IfOk result (λ z. vec_len z.workers ≡ vec_len roles.entry.workers) }
    ensures readers { IfOk result (λ z. vec_len z.readers ≡ vec_len roles.entry.readers) }
    ensures numbers { IfOk result (λ z. AreNumbered z.readers.items) }
{
    thread::scope(
        thread::scope_env(),
        rt,
        move |scope| -> Result<Roles<'_, N>, NoMemory>
            requires { AreNumbered roles.readers.items }
            ensures workers { IfOk result (λ z. vec_len z.workers ≡ vec_len roles.entry.workers) }
            ensures readers { IfOk result (λ z. vec_len z.readers ≡ vec_len roles.entry.readers) }
            ensures numbers { IfOk result (λ z. AreNumbered z.readers.items) }
        { run_or_fail(scope, rt, alloc, hall, gate, staying, roles) },
    )
}
