use super::*;
use std::alloc::{AllocError, Global};
use std::process::Abort;
use std::test::Fail;
use std::{env, fs, process};

/// A file that is asked for, and what it holds; None where the call fails.
#[derive(Clone, Copy)]
struct Fetch {
    file: &'static str,
    holds: Option<&'static str>,
}

/// Fetches from a store in memory of two files `a` and one file `b`.
#[derive(Clone, Copy)]
struct FetchRow {
    name: &'static str,
    fail_at: &'static [u64],
    fetches: &'static [Fetch],
    faults: u64,
    last: &'static str,
}

const FETCHES: [FetchRow; 3] = [
    FetchRow {
        name: "the first file of a name counts",
        fail_at: &[],
        fetches: &[
            Fetch {
                file: "a",
                holds: Some("first"),
            },
            Fetch {
                file: "b",
                holds: Some(""),
            },
        ],
        faults: 0,
        last: "",
    },
    FetchRow {
        name: "a missing file is a fault",
        fail_at: &[],
        fetches: &[Fetch {
            file: "c",
            holds: None,
        }],
        faults: 1,
        last: "c",
    },
    FetchRow {
        name: "the second call fails",
        fail_at: &[2],
        fetches: &[
            Fetch {
                file: "b",
                holds: Some(""),
            },
            Fetch {
                file: "a",
                holds: None,
            },
            Fetch {
                file: "b",
                holds: Some(""),
            },
        ],
        faults: 1,
        last: "a",
    },
];

/// A text that is written to a sink in memory that takes at most 7 bytes in a call.
#[derive(Clone, Copy)]
struct WriteRow {
    name: &'static str,
    room: usize,
    fail_at: &'static [u64],
    text: &'static str,
    /// Whether the whole text is written.
    whole: bool,
    taken: &'static str,
    calls: u64,
    faults: u64,
}

const WRITES: [WriteRow; 4] = [
    WriteRow {
        name: "six calls",
        room: 100,
        fail_at: &[],
        text: "0123456789abcdefghijklmnopqrstuvwxyz",
        whole: true,
        taken: "0123456789abcdefghijklmnopqrstuvwxyz",
        calls: 6,
        faults: 0,
    },
    WriteRow {
        name: "the fifth call fails",
        room: 100,
        fail_at: &[5],
        text: "0123456789abcdefghijklmnopqrstuvwxyz",
        whole: false,
        taken: "0123456789abcdefghijklmnopqr",
        calls: 5,
        faults: 1,
    },
    WriteRow {
        name: "there is no room",
        room: 10,
        fail_at: &[],
        text: "0123456789ab",
        whole: false,
        taken: "0123456789",
        calls: 3,
        faults: 1,
    },
    WriteRow {
        name: "nothing needs no room",
        room: 0,
        fail_at: &[],
        text: "",
        whole: true,
        taken: "",
        calls: 0,
        faults: 0,
    },
];

fn bytes_of(alloc: Global, text: &str) -> Result<Bytes, AllocError> {
    Ok(Bytes::of(Vec::from_slice(alloc, text.as_bytes())?))
}

fn numbers(alloc: Global, calls: &[u64]) -> Result<CallNumbers, AllocError> {
    Ok(CallNumbers::of(Vec::from_slice(alloc, calls)?))
}

fn store(alloc: Global, fail_at: &[u64]) -> Result<MemStore, AllocError> {
    let mut files = Vec::new(alloc);
    for (name, bytes) in [("a", "first"), ("b", ""), ("a", "second")] {
        files.push(File {
            name: bytes_of(alloc, name)?,
            bytes: bytes_of(alloc, bytes)?,
        })?;
    }
    Ok(MemStore {
        files: Files::of(files),
        fail_at: numbers(alloc, fail_at)?,
        calls: 0,
        faults: 0,
        last: Bytes::of(Vec::new(alloc)),
    })
}

fn assert_bytes(rt: &impl Abort, name: &str, bytes: &[u8], wanted: &str) {
    assert!(rt; bytes == wanted.as_bytes(), "{name}");
}

fn assert_count(rt: &impl Abort, name: &str, count: u64, wanted: u64) {
    assert!(rt; count == wanted, "{name}");
}

fn assert_holds<S: Store>(rt: &impl Abort, alloc: Global, store: &mut S, name: &str, bytes: &str) {
    match store.fetch(alloc, name) {
        Ok(fetched) => assert_eq!(rt; fetched.as_slice(), bytes.as_bytes()),
        Err(fault) => panic!(rt; "{fault}"),
    }
}

fn assert_fails<S: Store>(rt: &impl Abort, alloc: Global, store: &mut S, name: &str) {
    assert!(rt; matches!(store.fetch(alloc, name), Err(StoreFault::Failed)));
}

fn assert_fetches(rt: &impl Abort, alloc: Global, row: FetchRow) -> Result<(), AllocError> {
    let mut store = store(alloc, row.fail_at)?;
    for fetch in row.fetches {
        match fetch.holds {
            Some(bytes) => assert_holds(rt, alloc, &mut store, fetch.file, bytes),
            None => assert_fails(rt, alloc, &mut store, fetch.file),
        }
    }
    assert_count(rt, row.name, store.faults, row.faults);
    assert_bytes(rt, row.name, store.last.items(), row.last);
    Ok(())
}

#[test]
fn store_in_memory(rt: HostRuntime) -> Result<(), Fail> {
    for row in FETCHES {
        assert_fetches(&rt, rt.alloc(), row)?;
    }
    Ok(())
}

fn assert_writes(rt: &impl Abort, alloc: Global, row: WriteRow) -> Result<(), AllocError> {
    let mut sink = MemSink {
        bytes: Bytes::with_room(alloc, row.room)?,
        most: 7,
        fail_at: numbers(alloc, row.fail_at)?,
        calls: 0,
        faults: 0,
    };
    let written = write_all(&mut sink, row.text.as_bytes());
    assert!(rt; written.is_ok() == row.whole);
    assert_bytes(rt, row.name, sink.bytes.items(), row.taken);
    assert_count(rt, row.name, sink.calls, row.calls);
    assert_count(rt, row.name, sink.faults, row.faults);
    Ok(())
}

#[test]
fn sink_in_memory(rt: HostRuntime) -> Result<(), Fail> {
    for row in WRITES {
        assert_writes(&rt, rt.alloc(), row)?;
    }
    Ok(())
}

#[test]
fn store_of_the_system(rt: HostRuntime) -> Result<(), Fail> {
    let alloc = rt.alloc();
    let folder = env::temp_dir(&rt)?;
    let folder = folder.as_path().to_str().ok_or("a folder that is no text")?;
    let name = format!(in alloc; "{folder}/cif_io_{}", process::id(rt.process()))?;
    let mut store = FileStore::new(alloc, &rt);

    fs::write(&rt, name.as_str(), "some text\n")?;
    assert_holds(&rt, alloc, &mut store, name.as_str(), "some text\n");
    fs::create(&rt, name.as_str())?.set_len(FILE_LIMIT as u64 + 1)?;
    assert!(rt; matches!(store.fetch(alloc, name.as_str()), Err(StoreFault::TooLong)));
    assert_eq!(rt; store.faults, 0);

    fs::remove_file(&rt, name.as_str())?;
    assert_fails(&rt, alloc, &mut store, name.as_str());
    assert_eq!(rt; store.faults, 1);
    assert_eq!(rt; store.last.items(), name.as_bytes());
    Ok(())
}

#[test]
fn sink_of_the_system(rt: HostRuntime) -> Result<(), Fail> {
    let mut err = StdSink::new(rt.stderr());
    assert!(rt; write_all(&mut err, b"a line on the stream of errors\n").is_ok());
    assert_eq!(rt; err.faults, 0);

    let mut short = [0; 3];
    let mut full = StdSink::new(short.as_mut_slice());
    assert!(rt; write_all(&mut full, b"abcd").is_err());
    assert_eq!(rt; full.faults, 1);
    assert_eq!(rt; short.as_slice(), "abc".as_bytes());
    Ok(())
}
