// What goes over the rows of the tables.

use cif_desk::{cellift, quiet, waits};
use cif_io::{Bytes, CallNumbers, File, Files, MemSink, MemStore, Open};
use std::alloc::{AllocError, Global};
use std::process::Abort;
use std::sync::Wait;
use std::test::Fail;
use std::thread::Threads;

/// The numbers of the calls that fail, counted from 1, where 0 is none; and the most bytes of one call of out.
#[derive(Clone, Copy)]
pub struct Failing {
    pub store: u64,
    pub out: u64,
    pub err: u64,
    pub most: usize,
}

/// Nothing fails.
pub const NOTHING: Failing = Failing {
    store: 0,
    out: 0,
    err: 0,
    most: 1000,
};

/// A command over the files `net`, `stim` and `script`, and what it has to leave.
#[derive(Clone, Copy)]
pub struct Case<'a> {
    pub name: &'a str,
    /// The words, with a space between two of them.
    pub words: &'a str,
    pub net: &'a str,
    pub stim: &'a [u8],
    pub script: &'a [u8],
    pub failing: Failing,
    pub status: u8,
    pub out: &'a str,
    pub err: &'a str,
}

/// A file of a name.
fn file(alloc: Global, name: &str, bytes: &[u8]) -> Result<File, AllocError> {
    Ok(File {
        name: Bytes::of(Vec::from_slice(alloc, name.as_bytes())?),
        bytes: Bytes::of(Vec::from_slice(alloc, bytes)?),
    })
}

/// A store of the case's files.
fn store(alloc: Global, case: &Case<'_>) -> Result<MemStore, AllocError> {
    let mut files = Vec::new(alloc);
    files.push(file(alloc, "net", case.net.as_bytes())?)?;
    files.push(file(alloc, "stim", case.stim)?)?;
    files.push(file(alloc, "script", case.script)?)?;
    Ok(MemStore {
        files: Files::of(files),
        fail_at: CallNumbers::of(Vec::from_slice(alloc, &[case.failing.store])?),
        calls: 0,
        faults: 0,
        last: Bytes::of(Vec::new(alloc)),
    })
}

/// A sink with room for 1,000 bytes.
fn sink(alloc: Global, fail_at: u64, most: usize) -> Result<MemSink, AllocError> {
    Ok(MemSink {
        bytes: Bytes::with_room(alloc, 1000)?,
        most: most.max(1),
        fail_at: CallNumbers::of(Vec::from_slice(alloc, &[fail_at])?),
        calls: 0,
        faults: 0,
    })
}

/// The words of a command line.
fn words_of(alloc: Global, line: &str) -> Result<Vec<String>, AllocError> {
    let mut words = Vec::new(alloc);
    for word in line.split(' ') {
        if !word.is_empty() {
            words.push(String::from_str(alloc, word)?)?;
        }
    }
    Ok(words)
}

/// What a command left.
#[derive(Drop)]
pub struct Left {
    pub status: u8,
    pub out: MemSink,
    pub err: MemSink,
}

/// What a case leaves, through the call that the program makes.
pub fn left_by_cellift(
    rt: &(impl Threads + Wait + Sync),
    alloc: Global,
    case: &Case<'_>,
) -> Result<Left, AllocError> {
    let words = words_of(alloc, case.words)?;
    let mut store = store(alloc, case)?;
    let mut out = sink(alloc, case.failing.out, case.failing.most)?;
    let mut err = sink(alloc, case.failing.err, 1000)?;
    let status = cellift(rt, alloc, &words, &mut store, &mut out, &mut err, &Open);
    Ok(Left { status, out, err })
}

/// What a case leaves, through the call that never waits; none where the words ask for what may wait.
fn left_by_quiet(alloc: Global, case: &Case<'_>) -> Result<Option<Left>, AllocError> {
    let words = words_of(alloc, case.words)?;
    if waits(&words) {
        return Ok(None);
    }
    let mut store = store(alloc, case)?;
    let mut out = sink(alloc, case.failing.out, case.failing.most)?;
    let mut err = sink(alloc, case.failing.err, 1000)?;
    let status = quiet(alloc, &words, &mut store, &mut out, &mut err);
    Ok(Some(Left { status, out, err }))
}

/// What was left is what the case has to leave.
fn assert_left(rt: &impl Abort, case: &Case<'_>, left: &Left) {
    assert_eq!(rt;
        left.err.bytes.items(),
        case.err.as_bytes(),
        "{}",
        case.name
    );
    assert_eq!(rt;
        left.out.bytes.items(),
        case.out.as_bytes(),
        "{}",
        case.name
    );
    assert_eq!(rt; left.status, case.status, "{}", case.name);
}

/// Each case leaves what it has to, through the call that the program makes and through the one below it.
pub fn assert_cases(
    rt: &(impl Abort + Threads + Wait + Sync),
    alloc: Global,
    cases: &[Case<'_>],
) -> Result<(), Fail> {
    for case in cases {
        if let Some(left) = left_by_quiet(alloc, case)? {
            assert_left(rt, case, &left);
        }
        let left = left_by_cellift(rt, alloc, case)?;
        assert_left(rt, case, &left);
    }
    Ok(())
}

/// The words over a netlist and a stimulus say a text.
pub fn assert_says(
    rt: &(impl Abort + Threads + Wait + Sync),
    alloc: Global,
    name: &str,
    files: (&str, &str),
    said: &str,
) -> Result<(), Fail> {
    let (net, stim) = files;
    let is_refused = said.starts_with("refused ");
    let case = Case {
        name,
        words: if stim.is_empty() {
            "check net"
        } else {
            "eval net stim"
        },
        net,
        stim: stim.as_bytes(),
        script: b"",
        failing: NOTHING,
        status: if is_refused { 2 } else { 0 },
        out: if is_refused { "" } else { said },
        err: if is_refused { said } else { "" },
    };
    assert_cases(rt, alloc, &[case])
}

/// The parts of a text between separators.
fn parts<'a>(alloc: Global, text: &'a str, separator: &str) -> Result<Vec<&'a str>, AllocError> {
    let mut parts = Vec::new(alloc);
    for part in text.split(separator) {
        parts.push(part)?;
    }
    Ok(parts)
}

/// A netlist with its edits made, each of which finds its text: `OLD => NEW`, with ` & ` between two of them, or `-` for
/// none.
fn edited(rt: &impl Abort, alloc: Global, net: &str, edits: &str) -> Result<String, AllocError> {
    let mut text = String::from_str(alloc, net)?;
    if edits == "-" {
        return Ok(text);
    }
    for edit in edits.split(" & ") {
        let edit = parts(alloc, edit, " => ")?;
        let [old, new] = edit.as_slice() else {
            panic!(rt; "an edit of {edits}");
        };
        assert!(rt; text.as_str().find(*old).is_some(), "{old}");
        text = text.as_str().replace(alloc, *old, new)?;
    }
    Ok(text)
}

/// A text of some lines, in which `\n`, `\r`, `\s` and `\t` stand for a line end, a carriage return, a space and a tab.
fn plain(alloc: Global, head: &str, lines: &str) -> Result<String, AllocError> {
    let mut text = String::from_str(alloc, lines)?;
    for (written, letter) in [("\\n", "\n"), ("\\r", "\r"), ("\\s", " "), ("\\t", "\t")] {
        text = text.as_str().replace(alloc, written, letter)?;
    }
    let mut whole = String::from_str(alloc, head)?;
    whole.push_str(&text)?;
    Ok(whole)
}

/// A row is `NAME | EDITS | STIMULUS | SAID`. Where the stimulus is `-` the command is `check`, else it is `eval` of the
/// stimulus below some first lines. What is said stands on err where it begins with `refused`, else on out, and a line
/// end comes after it.
fn assert_row(
    rt: &(impl Abort + Threads + Wait + Sync),
    alloc: Global,
    net: &str,
    head: &str,
    row: &str,
) -> Result<(), Fail> {
    let columns = parts(alloc, row, " | ")?;
    let [name, edits, lines, said] = columns.as_slice() else {
        panic!(rt; "four columns: {row}");
    };
    let net = edited(rt, alloc, net, edits)?;
    let mut said = plain(alloc, "", said)?;
    said.push('\n')?;
    if *lines == "-" {
        return assert_says(rt, alloc, name, (&net, ""), &said);
    }
    let stim = plain(alloc, head, lines)?;
    assert_says(rt, alloc, name, (&net, &stim), &said)
}

/// The rows of each table, a line each, hold of its netlist.
pub fn assert_tables(
    rt: &(impl Abort + Threads + Wait + Sync),
    alloc: Global,
    head: &str,
    tables: &[(&str, &str)],
) -> Result<(), Fail> {
    for (net, table) in tables {
        for row in table.split('\n') {
            if !row.is_empty() {
                assert_row(rt, alloc, net, head, row)?;
            }
        }
    }
    Ok(())
}
