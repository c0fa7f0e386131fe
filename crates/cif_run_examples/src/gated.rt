// Runs of the counter's session under gates, through the call that the program makes: the examples `gate-schedule` and
// `schedules`.

use crate::counter::{COUNTER, workers_line};
use crate::gate::{Holding, Piece, Until};
use cif_desk::cellift;
use cif_io::{Bytes, CallNumbers, File, Files, MemSink, MemStore};
use std::alloc::{AllocError, Global};
use std::process::Abort;
use std::sync::Wait;
use std::test::Fail;
use std::thread::Threads;

/// The counter runs for five cycles, and its enable is tainted at cycle 2.
const STIMULUS: &str =
    "cellift-stimulus 1\ncycles 5\n@ 0\nset en 1\n@ 2\nset en 1 1\n@ 3\nset en 1\n";

/// The session of the example `counter-session`.
const SCRIPT: &str = "cellift-sessions 1\nsession s\nat 2\nshow q\nat 1\nnext\nat 9\n";

/// Its transcript.
const TRANSCRIPT: &str = "session s\ncycle 2\nshow q 0010/0000\nback 2\ncycle 3\npast 5\nend\n";

/// A run of some workers and parts, and what its gate holds.
struct Row {
    words: &'static str,
    workers: u32,
    parts: u32,
    holds: &'static [(Piece, Until)],
}

/// Two workers compute the parts of cycle 0 side by side. Session 0 asks for cycle 2 while that is computed, and pins it before
/// cycle 3 is.
const GATE_SCHEDULE: Row = Row {
    words: "run net stim script 2 2 2",
    workers: 2,
    parts: 2,
    holds: &[
        ((0, 0), Until::Offered((0, 1))),
        ((0, 1), Until::Offered((0, 0))),
        ((2, 0), Until::Turns(10_000)),
        ((2, 1), Until::Turns(10_000)),
        ((3, 0), Until::Pinned(2, 10_000)),
        ((3, 1), Until::Pinned(2, 10_000)),
    ],
};

/// Pieces of a cycle are held until its last part is offered.
const SCHEDULES: [Row; 4] = [
    Row {
        words: "run net stim script 2 2 2",
        workers: 2,
        parts: 2,
        holds: &[((0, 0), Until::Offered((0, 1)))],
    },
    Row {
        words: "run net stim script 2 2 2",
        workers: 2,
        parts: 2,
        holds: &[((3, 0), Until::Offered((3, 1)))],
    },
    Row {
        words: "run net stim script 3 3 2",
        workers: 3,
        parts: 3,
        holds: &[
            ((0, 0), Until::Offered((0, 2))),
            ((0, 1), Until::Offered((0, 2))),
        ],
    },
    Row {
        words: "run net stim script 7 64 2",
        workers: 7,
        parts: 64,
        holds: &[((2, 0), Until::Offered((2, 63)))],
    },
];

/// The words of a command line.
fn words_of(alloc: Global, line: &str) -> Result<Vec<String>, AllocError> {
    let mut words = Vec::new(alloc);
    for word in line.split(' ') {
        words.push(String::from_str(alloc, word)?)?;
    }
    Ok(words)
}

/// A store of the three files of a run.
fn store(alloc: Global) -> Result<MemStore, AllocError> {
    let mut files = Vec::new(alloc);
    for (name, text) in [("net", COUNTER), ("stim", STIMULUS), ("script", SCRIPT)] {
        files.push(File {
            name: Bytes::of(Vec::from_slice(alloc, name.as_bytes())?),
            bytes: Bytes::of(Vec::from_slice(alloc, text.as_bytes())?),
        })?;
    }
    Ok(MemStore {
        files: Files::of(files),
        fail_at: CallNumbers::of(Vec::new(alloc)),
        calls: 0,
        faults: 0,
        last: Bytes::of(Vec::new(alloc)),
    })
}

/// A sink with room for 1,000 bytes.
fn sink(alloc: Global) -> Result<MemSink, AllocError> {
    Ok(MemSink {
        bytes: Bytes::with_room(alloc, 1000)?,
        most: 1000,
        fail_at: CallNumbers::of(Vec::new(alloc)),
        calls: 0,
        faults: 0,
    })
}

/// A run under a gate ends with its text. No piece was held too long, and no cycle was pinned while a piece of it was held. Each
/// piece was passed once, by the worker that counts it, and the gate was told of each cycle that the session pinned.
fn assert_run(
    rt: &(impl Abort + Threads + Wait + Sync),
    alloc: Global,
    row: &Row,
) -> Result<(), Fail> {
    let gate = Holding::new(alloc, row.holds, row.workers, row.parts)?;
    let words = words_of(alloc, row.words)?;
    let mut store = store(alloc)?;
    let mut out = sink(alloc)?;
    let mut err = sink(alloc)?;
    let status = cellift(rt, alloc, &words, &mut store, &mut out, &mut err, &gate);
    assert_eq!(rt; status, 0, "{}", row.words);
    assert_eq!(rt; gate.faults(), 0, "{}", row.words);
    let counts = workers_line(alloc, &gate.passes(alloc)?)?;
    let wanted = format!(in alloc; "{TRANSCRIPT}{counts}")?;
    assert_eq!(rt; out.bytes.items(), wanted.as_bytes(), "{}", row.words);
    for (cycle, pins) in [(0, 0), (1, 0), (2, 1), (3, 1), (4, 0)] {
        assert_eq!(rt; gate.pins(cycle), pins, "{}", row.words);
        for part in 0..row.parts {
            assert_eq!(rt; gate.offers((cycle, part)), 1, "{}", row.words);
        }
    }
    Ok(())
}

#[test]
fn gate_schedule(rt: HostRuntime) -> Result<(), Fail> {
    assert_run(&rt, rt.alloc(), &GATE_SCHEDULE)
}

#[test]
fn schedules(rt: HostRuntime) -> Result<(), Fail> {
    for row in &SCHEDULES {
        assert_run(&rt, rt.alloc(), row)?;
    }
    Ok(())
}
