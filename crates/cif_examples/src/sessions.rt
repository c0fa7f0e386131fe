// Sessions that watch the counter run: the command `run`.

use crate::counter::COUNTER;
use crate::driver::{Case, Failing, NOTHING, assert_cases, left_by_cellift};
use std::alloc::Global;
use std::process::Abort;
use std::sync::Wait;
use std::test::Fail;
use std::thread::Threads;

const USAGE: &str = "usage: cellift check, eval, instrument, augstim, explain, run or gen\n";

/// The counter runs with a session that goes on, shows, and asks for a cycle that is over and for one past the last.
const RUN: Case<'static> = Case {
    name: "counter-session",
    words: "run net stim script 1 1 2",
    net: COUNTER,
    stim: b"cellift-stimulus 1\ncycles 5\n@ 0\nset en 1\n@ 2\nset en 1 1\n@ 3\nset en 1\n",
    script: b"cellift-sessions 1\nsession s\nat 2\nshow q\nat 1\nnext\nat 9\n",
    failing: NOTHING,
    status: 0,
    out: "session s\ncycle 2\nshow q 0010/0000\nback 2\ncycle 3\npast 5\nend\nworkers 5\n",
    err: "",
};

/// Its transcript, without the line of the workers.
const SESSION: Case<'static> = Case {
    out: "session s\ncycle 2\nshow q 0010/0000\nback 2\ncycle 3\npast 5\nend\n",
    ..RUN
};

/// Words that ask for no run.
const NO_RUN: Case<'static> = Case {
    name: "usage, a run without its size",
    words: "run net stim script",
    status: 1,
    out: "",
    err: USAGE,
    ..RUN
};

const OF_WORDS: [Case<'static>; 11] = [
    NO_RUN,
    Case {
        name: "usage, no worker",
        words: "run net stim script 0 1 2",
        ..NO_RUN
    },
    Case {
        name: "usage, 33 workers",
        words: "run net stim script 33 1 2",
        ..NO_RUN
    },
    Case {
        name: "usage, no part",
        words: "run net stim script 1 0 2",
        ..NO_RUN
    },
    Case {
        name: "usage, 65 parts",
        words: "run net stim script 1 65 2",
        ..NO_RUN
    },
    Case {
        name: "usage, a window of 1",
        words: "run net stim script 1 1 1",
        ..NO_RUN
    },
    Case {
        name: "usage, a window of 65",
        words: "run net stim script 1 1 65",
        ..NO_RUN
    },
    Case {
        name: "usage, a leading zero",
        words: "run net stim script 01 1 2",
        ..NO_RUN
    },
    Case {
        name: "usage, a sign",
        words: "run net stim script +1 1 2",
        ..NO_RUN
    },
    Case {
        name: "usage, 1 and 2 ^ 64",
        words: "run net stim script 18446744073709551617 1 2",
        ..NO_RUN
    },
    Case {
        name: "usage, a word too many",
        words: "run net stim script 1 1 2 3",
        ..NO_RUN
    },
];

const OF_FAILURES: [Case<'static>; 11] = [
    Case {
        name: "run-store-fails, call 1",
        failing: Failing {
            store: 1,
            ..NOTHING
        },
        status: 3,
        out: "",
        err: "read fault: net\n",
        ..RUN
    },
    Case {
        name: "run-store-fails, call 2",
        failing: Failing {
            store: 2,
            ..NOTHING
        },
        status: 3,
        out: "",
        err: "read fault: stim\n",
        ..RUN
    },
    Case {
        name: "run-store-fails, call 3",
        failing: Failing {
            store: 3,
            ..NOTHING
        },
        status: 3,
        out: "",
        err: "read fault: script\n",
        ..RUN
    },
    Case {
        name: "no sessions file",
        words: "run net stim SCRIPT 1 1 2",
        status: 3,
        out: "",
        err: "read fault: SCRIPT\n",
        ..RUN
    },
    Case {
        name: "the netlist is refused before the stimulus is fetched",
        words: "run net STIM script 1 1 2",
        net: "",
        status: 2,
        out: "",
        err: "refused 1: not JSON\n",
        ..RUN
    },
    Case {
        name: "the stimulus is refused before the sessions are fetched",
        words: "run net stim SCRIPT 1 1 2",
        stim: b"",
        status: 2,
        out: "",
        err: "refused 40: line 1\n",
        ..RUN
    },
    Case {
        name: "out fails at its only call",
        failing: Failing { out: 1, ..NOTHING },
        status: 4,
        out: "",
        err: "write fault\n",
        ..RUN
    },
    Case {
        name: "out takes a part",
        failing: Failing {
            out: 2,
            most: 12,
            ..NOTHING
        },
        status: 4,
        out: "session s\ncy",
        err: "write fault\n",
        ..RUN
    },
    Case {
        name: "err fails where it takes the usage line",
        words: "run net stim script 1 1 1",
        failing: Failing { err: 1, ..NOTHING },
        status: 4,
        out: "",
        ..RUN
    },
    Case {
        name: "err fails where it takes a refusal",
        script: b"",
        failing: Failing { err: 1, ..NOTHING },
        status: 4,
        out: "",
        ..RUN
    },
    Case {
        name: "err fails where it takes a read fault",
        failing: Failing {
            store: 3,
            err: 1,
            ..NOTHING
        },
        status: 4,
        out: "",
        ..RUN
    },
];

/// A script that is refused.
const REFUSED: Case<'static> = Case {
    name: "session-refusals, 61",
    script: b"cellift-sessions 1\nsession s\nshow nosuch",
    status: 2,
    out: "",
    err: "refused 61: name at line 3\n",
    ..RUN
};

const OF_SCRIPTS: [Case<'static>; 7] = [
    REFUSED,
    Case {
        name: "session-refusals, 62",
        script: b"cellift-sessions 1\nsession s\nshow clk",
        err: "refused 62: no two-valued name at line 3\n",
        ..REFUSED
    },
    Case {
        name: "session-refusals, 64",
        script: b"cellift-sessions 1\nsession s\nsession s",
        err: "refused 64: session again at line 3\n",
        ..REFUSED
    },
    Case {
        name: "an empty script",
        script: b"",
        err: "refused 60: line 1\n",
        ..REFUSED
    },
    Case {
        name: "seventeen sessions",
        script: b"cellift-sessions 1\nsession a\nsession b\nsession c\nsession d\nsession e\nsession f\nsession g\nsession h\nsession i\nsession j\nsession k\nsession l\nsession m\nsession n\nsession o\nsession p\nsession q\n",
        err: "refused 63: too many sessions\n",
        ..REFUSED
    },
    Case {
        name: "session-refusals, unpinned",
        script: b"cellift-sessions 1\nsession s\nshow q",
        out: "session s\nunpinned\nend\nworkers 5\n",
        ..RUN
    },
    Case {
        name: "no sessions",
        script: b"cellift-sessions 1",
        out: "workers 5\n",
        ..RUN
    },
];

#[test]
fn runs(rt: HostRuntime) -> Result<(), Fail> {
    assert_cases(&rt, rt.alloc(), &[RUN])?;
    assert_cases(&rt, rt.alloc(), &OF_WORDS)?;
    assert_cases(&rt, rt.alloc(), &OF_FAILURES)?;
    assert_cases(&rt, rt.alloc(), &OF_SCRIPTS)
}

/// How many words stand after `workers` in a line, and what they add up to.
fn counted(line: &str) -> (u64, u64) {
    let mut count = 0u64;
    let mut sum = 0u64;
    for word in line.split(' ') {
        if let Ok(number) = word.parse::<u64>() {
            count = count.saturating_add(1);
            sum = sum.saturating_add(number);
        }
    }
    (count, sum)
}

/// A session has one transcript, however the run is cut, and the workers' counts add up.
fn assert_transcript(
    rt: &(impl Abort + Threads + Wait + Sync),
    alloc: Global,
    case: &Case<'_>,
    wanted: (u64, u64),
) -> Result<(), Fail> {
    let left = left_by_cellift(rt, alloc, case)?;
    let text = str::from_utf8(left.out.bytes.items()).expect(rt, "a text");
    let Some((transcript, counts)) = text.split_once("workers") else {
        panic!(rt; "the workers' counts: {}", case.words);
    };
    assert_eq!(rt; transcript, case.out, "{}", case.words);
    assert_eq!(rt; counted(counts.trim_end()), wanted, "{}", case.words);
    assert_eq!(rt; left.status, case.status, "{}", case.words);
    Ok(())
}

/// The counter over 50 cycles: the window keeps the second session's frame back until the first has gone on.
const WAITING: Case<'static> = Case {
    name: "window-waits",
    stim: b"cellift-stimulus 1\ncycles 50\n",
    script: b"cellift-sessions 1\nsession a\nat 0\nat 45\nsession b\nat 40\n",
    out: "session a\ncycle 0\ncycle 45\nend\nsession b\ncycle 40\nend\n",
    ..RUN
};

/// Sessions, the words of runs, and how many workers and pieces they count.
const CUT: [(Case<'static>, &str, u64, u64); 12] = [
    (SESSION, "run net stim script 1 1 2", 1, 5),
    (SESSION, "run net stim script 1 3 2", 1, 15),
    (SESSION, "run net stim script 1 64 2", 1, 320),
    (SESSION, "run net stim script 2 1 2", 2, 5),
    (SESSION, "run net stim script 2 3 2", 2, 15),
    (SESSION, "run net stim script 2 64 2", 2, 320),
    (SESSION, "run net stim script 7 1 2", 7, 5),
    (SESSION, "run net stim script 7 3 2", 7, 15),
    (SESSION, "run net stim script 7 64 2", 7, 320),
    (SESSION, "run net stim script 32 64 64", 32, 320),
    (WAITING, "run net stim script 1 1 2", 1, 50),
    (WAITING, "run net stim script 3 2 2", 3, 100),
];

#[test]
fn counter_session_and_window_waits(rt: HostRuntime) -> Result<(), Fail> {
    for (case, words, workers, pieces) in &CUT {
        let case = Case { words, ..*case };
        assert_transcript(&rt, rt.alloc(), &case, (*workers, *pieces))?;
    }
    Ok(())
}
