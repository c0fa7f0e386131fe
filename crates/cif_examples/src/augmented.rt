// The command `augstim`: what a stimulus says of values and taints, both as values for an augmented netlist.

use crate::counter::COUNTER;
use crate::driver::{Case, NOTHING, assert_cases};
use crate::state::{ASYNCHRONOUS, MEMORY};
use std::test::Fail;

/// The stimulus of the counter, in which its enable is tainted in cycle 2.
const AUGMENTED: Case<'static> = Case {
    name: "counter, its augmented stimulus",
    words: "augstim net stim",
    net: COUNTER,
    stim: b"cellift-stimulus 1\ncycles 5\n@ 0\nset en 1\n@ 2\nset en 1 1\n@ 3\nset en 1\n",
    script: b"",
    failing: NOTHING,
    status: 0,
    out: "cellift-stimulus 1\ncycles 5\n@ 0\nset en 1 0\nset en__t 0 0\n@ 2\nset en 1 0\nset en__t 1 0\n@ 3\nset en 1 0\nset en__t 0 0\n",
    err: "",
};

/// The taint of a released bit is cleared, and nothing is released any more.
const RELEASED: Case<'static> = Case {
    name: "release-augmented, its stimulus",
    stim: b"cellift-stimulus 2\ncycles 5\nrelease en\n@ 0\nset en 1\n@ 2\nset en 1 1\n@ 3\nset en 1\n",
    out: "cellift-stimulus 1\ncycles 5\n@ 0\nset en 1 0\nset en__t 0 0\n@ 2\nset en 1 0\nset en__t 0 0\n@ 3\nset en 1 0\nset en__t 0 0\n",
    ..AUGMENTED
};

/// A register with asynchronous reset starts with its word in two places.
const RESET: Case<'static> = Case {
    name: "async-reset-augmented, its stimulus",
    net: ASYNCHRONOUS,
    stim: b"cellift-stimulus 1\ncycles 5\nreg r 01 10\n@ 0\nset d 11\n@ 4\nset rst 0 1\n",
    out: "cellift-stimulus 1\ncycles 5\nreg r 01 00\nreg r__t 10 00\nreg r__v 01 00\n@ 0\nset d 11 00\nset d__t 00 00\n@ 4\nset rst 0 0\nset rst__t 1 0\n",
    ..AUGMENTED
};

const MEMORY_WORD: Case<'static> = Case {
    name: "instrumented-memory, a word of its stimulus",
    net: MEMORY,
    stim: b"cellift-stimulus 1\ncycles 2\nmem c 2 10 01\n@ 1\nset ra 10 11\n",
    out: "cellift-stimulus 1\ncycles 2\nmem c 2 10 00\nmem c__t 2 01 00\n@ 1\nset ra 10 00\nset ra__t 11 00\n",
    ..AUGMENTED
};

const REFUSED: Case<'static> = Case {
    name: "a stimulus that is refused",
    stim: b"cellift-stimulus 1\ncycles 5\n@ 0\nset clk 1\n",
    status: 2,
    out: "",
    err: "refused 41: name at line 4\n",
    ..AUGMENTED
};

#[test]
fn augmented_stimuli(rt: HostRuntime) -> Result<(), Fail> {
    let cases = [AUGMENTED, RELEASED, RESET, MEMORY_WORD, REFUSED];
    assert_cases(&rt, rt.alloc(), &cases)
}
