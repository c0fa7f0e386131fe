//! What the programs share: the words, files and streams of the system, handed to the commands.
#![tactic(auto)]

use cif_desk::cellift;
use cif_io::{FileStore, Open, StdSink, write_all};
use std::io::Write;
use std::process::ExitCode;
use std::rt::{Env, Files};
use std::sync::Wait;
use std::thread::Threads;
use std::{env, io};

/// The words after the program's name. Where one of them is no text, there are none: they fit no form either.
fn words<R: Env + AllocGlobal>(rt: &R) -> io::Result<Vec<String>> {
    match env::args(rt) {
        Ok(words) => Ok(words.skip(1).collect(rt.alloc())?),
        Err(fault) if fault.kind() == io::ErrorKind::InvalidData => Ok(Vec::new(rt.alloc())),
        Err(fault) => Err(fault),
    }
}

/// Tells on err that the words found no memory, and gives the status.
fn tell_memory<E: Write>(err: &mut StdSink<E>) -> u8 {
    match write_all(err, b"out of memory\n") {
        Ok(()) => 5,
        Err(_) => 4,
    }
}

/// Does what the words of the command line ask, over the files of the system, and ends with the status of `cellift`.
/// Texts go to `out`, and what is told of a failure to `err`. The sessions and workers of `run` are threads of the runtime.
pub fn run<R, W: Write + Drop, E: Write + Drop>(rt: &R, out: W, err: E) -> ExitCode
where
    R: Env + Files + AllocGlobal + Threads + Wait + Sync,
{
    let alloc = rt.alloc();
    let mut out = StdSink::new(out);
    let mut err = StdSink::new(err);
    let Ok(words) = words(rt) else {
        return ExitCode::from(tell_memory(&mut err));
    };
    let mut store = FileStore::new(alloc, rt);
    let status = cellift(rt, alloc, &words, &mut store, &mut out, &mut err, &Open);
    ExitCode::from(status)
}
