// Words of no form, stores and sinks that fail, and damaged files.

use crate::counter::COUNTER;
use crate::driver::{Case, Failing, NOTHING, assert_cases, assert_says};
use std::test::Fail;

const USAGE: &str = "usage: cellift check, eval, instrument, augstim, explain, run or gen\n";

const WRITE_FAULT: &str = "write fault\n";

/// The counter is evaluated, and out fails before it takes a byte.
const EVAL: Case<'static> = Case {
    name: "eval-sink-fails, call 1",
    words: "eval net stim",
    net: COUNTER,
    stim: b"cellift-stimulus 1\ncycles 5\n@ 0\nset en 1\n@ 2\nset en 1 1\n@ 3\nset en 1\n",
    script: b"",
    failing: Failing { out: 1, ..NOTHING },
    status: 4,
    out: "",
    err: WRITE_FAULT,
};

/// Words without files.
const WORDS: Case<'static> = Case {
    name: "usage-and-missing-file, no words",
    words: "",
    net: "",
    stim: b"",
    script: b"",
    failing: NOTHING,
    status: 1,
    out: "",
    err: USAGE,
};

const OF_WORDS: [Case<'static>; 6] = [
    WORDS,
    Case {
        name: "usage-and-missing-file, eval of a netlist alone",
        words: "eval NET",
        ..WORDS
    },
    Case {
        name: "usage-and-missing-file, check of nothing",
        words: "check",
        ..WORDS
    },
    Case {
        name: "usage-and-missing-file, 33 workers",
        words: "run NET STIM SCRIPT 33 1 2",
        ..WORDS
    },
    Case {
        name: "usage-and-missing-file, no netlist",
        words: "eval NET STIM",
        status: 3,
        err: "read fault: NET\n",
        ..WORDS
    },
    Case {
        name: "usage-and-missing-file, no stimulus",
        words: "eval net STIM",
        net: COUNTER,
        status: 3,
        err: "read fault: STIM\n",
        ..WORDS
    },
];

const OF_FAILURES: [Case<'static>; 14] = [
    EVAL,
    Case {
        name: "eval-sink-fails, call 2",
        failing: Failing { out: 2, ..NOTHING },
        out: "cycle 0\nq 0000/0000\n",
        ..EVAL
    },
    Case {
        name: "failing-calls, and eval-sink-fails, call 3",
        failing: Failing { out: 3, ..NOTHING },
        out: "cycle 0\nq 0000/0000\ncycle 1\nq 0001/0000\n",
        ..EVAL
    },
    Case {
        name: "eval-sink-fails, call 4",
        failing: Failing { out: 4, ..NOTHING },
        out: "cycle 0\nq 0000/0000\ncycle 1\nq 0001/0000\ncycle 2\nq 0010/0000\n",
        ..EVAL
    },
    Case {
        name: "eval-sink-fails, call 5",
        failing: Failing { out: 5, ..NOTHING },
        out: "cycle 0\nq 0000/0000\ncycle 1\nq 0001/0000\ncycle 2\nq 0010/0000\ncycle 3\nq 0011/0001\n",
        ..EVAL
    },
    Case {
        name: "eval-sink-fails, call 6",
        failing: Failing { out: 6, ..NOTHING },
        out: "cycle 0\nq 0000/0000\ncycle 1\nq 0001/0000\ncycle 2\nq 0010/0000\ncycle 3\nq 0011/0001\ncycle 4\nq 0100/0111\n",
        ..EVAL
    },
    Case {
        name: "eval-sink-fails, call 5 of seven bytes",
        failing: Failing {
            out: 5,
            most: 7,
            ..NOTHING
        },
        out: "cycle 0\nq 0000/0000\ncycle 1",
        ..EVAL
    },
    Case {
        name: "eval-sink-fails, call 16 of seven bytes",
        failing: Failing {
            out: 16,
            most: 7,
            ..NOTHING
        },
        out: "cycle 0\nq 0000/0000\ncycle 1\nq 0001/0000\ncycle 2\nq 0010/0000\ncycle 3\nq 0011/0001\ncycle 4\nq 0100/0111\n",
        ..EVAL
    },
    Case {
        name: "failing-calls, the second of the store",
        failing: Failing {
            store: 2,
            ..NOTHING
        },
        status: 3,
        err: "read fault: stim\n",
        ..EVAL
    },
    Case {
        name: "err-fails-too",
        net: r#"{"modules":{"counter":{"#,
        failing: Failing { err: 1, ..NOTHING },
        err: "",
        ..EVAL
    },
    Case {
        name: "err fails where it takes the usage line",
        words: "eval",
        failing: Failing { err: 1, ..NOTHING },
        err: "",
        ..EVAL
    },
    Case {
        name: "the most cycles are begun",
        stim: b"cellift-stimulus 1\ncycles 1000000",
        ..EVAL
    },
    Case {
        name: "an empty stimulus",
        stim: b"",
        failing: NOTHING,
        status: 2,
        err: "refused 40: line 1\n",
        ..EVAL
    },
    Case {
        name: "a byte that no word has",
        stim: b"cellift-stimulus 2\ncycles 1\nrelease \xFF",
        failing: NOTHING,
        status: 2,
        err: "refused 40: line 3\n",
        ..EVAL
    },
];

#[test]
fn words_and_failures(rt: HostRuntime) -> Result<(), Fail> {
    assert_cases(&rt, rt.alloc(), &OF_WORDS)?;
    assert_cases(&rt, rt.alloc(), &OF_FAILURES)
}

/// Every proper prefix of the counter's netlist without spaces and line ends.
#[test]
fn netlist_prefixes(rt: HostRuntime) -> Result<(), Fail> {
    let mut prefix = String::new(rt.alloc());
    for letter in COUNTER.chars() {
        if letter != ' ' && letter != '\n' {
            assert_says(
                &rt,
                rt.alloc(),
                "netlist-prefixes",
                (&prefix, ""),
                "refused 1: not JSON\n",
            )?;
            prefix.push(letter)?;
        }
    }
    Ok(())
}
