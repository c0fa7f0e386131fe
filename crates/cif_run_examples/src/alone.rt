// Runs of the counter without a thread: the caller turns the roles. What is expected was worked by hand.
ghost use Rattle.std.specs.Prelude.{IfOk};
ghost use Rattle.std.specs.List.{All};
ghost use Rattle.cif_script.specs.ShownWires.{IsWireOf};
ghost use Rattle.cif_run.specs.Runs.{IsSize};

use crate::counter::{COUNTER, workers_line};
use cif_cells::Netlist;
use cif_io::Open;
use cif_json::read_netlist;
use cif_level::levels;
use cif_run::{RunSize, Told, run_alone, run_text};
use cif_script::{Script, read_sessions};
use cif_seq::Case;
use cif_stim_read::read_stimulus;
use std::alloc::Global;
use std::process::Abort;
use std::sync::Wait;
use std::test::Fail;

/// A script for the counter over so many cycles, and the transcripts.
struct Row {
    cycles: u64,
    script: &'static str,
    transcripts: &'static str,
}

/// The example `counter-session`, and `show` before any cycle.
const SESSION: Row = Row {
    cycles: 5,
    script: "session s\nat 2\nshow q\nat 1\nnext\nat 9\nsession t\nshow q\nat 4\nshow q\nnext\n",
    transcripts: "session s\ncycle 2\nshow q 0010/0000\nback 2\ncycle 3\npast 5\nend\nsession t\nunpinned\ncycle 4\nshow q 0100/0111\npast 5\nend\n",
};

/// The example `window-waits`: with a window of two cycles the second session's frame comes only once the first has gone on.
const WAITING: Row = Row {
    cycles: 50,
    script: "session a\nat 0\nat 45\nsession b\nat 40\n",
    transcripts: "session a\ncycle 0\ncycle 45\nend\nsession b\ncycle 40\nend\n",
};

/// The counter under a stimulus in which the enable is tainted at cycle 2, and the script of a row.
fn given(rt: &impl Abort, alloc: Global, row: &Row) -> Result<(Case, Script), Fail>
    ensures { IfOk result (λ g. All (IsWireOf g.0.raw) g.1.wires) }
{
    let module = read_netlist(alloc, COUNTER.as_bytes()).expect(rt, "the text is refused");
    let netlist = Netlist::build(alloc, module).expect(rt, "the module is refused");
    let levels = levels(alloc, &netlist).expect(rt, "a loop");
    let stimulus = format!(in alloc;
        "cellift-stimulus 1\ncycles {}\n@ 0\nset en 1\n@ 2\nset en 1 1\n@ 3\nset en 1\n",
        row.cycles
    )?;
    let stimulus = read_stimulus(alloc, &netlist, stimulus.as_bytes())?;
    let script = format!(in alloc; "cellift-sessions 1\n{}", row.script)?;
    let script = read_sessions(alloc, &netlist, script.as_bytes())?;
    let case = Case::new(alloc, netlist, levels, stimulus)?;
    Ok((case, script))
}

/// How a run is cut, with a window of two cycles.
fn size_of(rt: &impl Abort, workers: u32, parts: u32) -> RunSize
    ensures { IsSize result }
{
    assert!(rt; 1 <= workers && workers <= 32);
    assert!(rt; 1 <= parts && parts <= 64);
    RunSize {
        workers,
        parts,
        window: 2,
    }
}

/// What a run tells is what its row says, and the counts add up to the cycles times the parts.
fn assert_told(
    rt: &impl Abort,
    alloc: Global,
    row: &Row,
    size: RunSize,
    script: &Script,
    told: &Told,
) -> Result<(), Fail> {
    let text = run_text(alloc, script, told)?;
    let counts = workers_line(alloc, told.counts())?;
    let wanted = format!(in alloc; "{}{counts}", row.transcripts)?;
    assert!(rt; text.as_slice() == wanted.as_bytes());
    assert_eq!(rt; told.counts().len(), size.workers as usize);
    let mut pieces = 0u64;
    for count in told.counts() {
        pieces = pieces.saturating_add(*count);
    }
    assert_eq!(rt; pieces, row.cycles.saturating_mul(u64::from(size.parts)));
    Ok(())
}

/// Runs a row without a thread, in fewer than 100,000 turns.
fn assert_run_alone<R: Abort + Wait>(
    rt: &R,
    alloc: Global,
    row: &Row,
    workers: u32,
    parts: u32,
) -> Result<(), Fail> {
    let (case, script) = given(rt, alloc, row)?;
    let size = size_of(rt, workers, parts);
    match run_alone(rt, alloc, case, &script, size, &Open, 10_000)? {
        Some(told) => assert_told(rt, alloc, row, size, &script, &told),
        None => panic!(rt; "the roles haven't ended"),
    }
}

/// Roles that the caller turns alone.
#[test]
fn turned_by_the_caller(rt: HostRuntime) -> Result<(), Fail> {
    assert_run_alone(&rt, rt.alloc(), &SESSION, 1, 1)?;
    assert_run_alone(&rt, rt.alloc(), &SESSION, 2, 3)?;
    assert_run_alone(&rt, rt.alloc(), &WAITING, 2, 2)
}
