//! Printed values that are right, and values that are refused for a cause.
use crate::desk::{AMPLE, Task};
use crate::expecting::{End, MODEL, Refusals, Run, expect_all};

/// A parity and a clause that the values 1 and -2 alone meet.
const FORMULA: &str = "p cnf 2 2\nx1 2 0\n1 0\n";

static REFUSED: [Refusals; 1] = [Refusals {
    command: MODEL,
    texts: &[
        (FORMULA, "s UNSATISFIABLE\n", "A1"),
        (FORMULA, "s SATISFIABLE\nv 1 q 0\n", "A2 at byte 18"),
        (FORMULA, "s SATISFIABLE\nv 1 0\n", "A3 variable 2"),
        (FORMULA, "s SATISFIABLE\nv 1 -2 1 0\n", "A4 variable 1"),
        (FORMULA, "s SATISFIABLE\nv 1 2 0\n", "A5 constraint 1"),
        (
            "p cnf 2 2\nx1 2 0\na 1 2 0\n",
            "s SATISFIABLE\nv 1 -2 0\n",
            "A5 constraint 2",
        ),
    ],
}];

static RIGHT: [Run; 1] = [Run {
    task: Task {
        line: &["cxsat", "model", "f", "s"],
        formula: FORMULA,
        second: "s SATISFIABLE\nv 1 -2 0\n",
    },
    bounds: AMPLE,
    end: End {
        status: 0,
        answer: "s MODEL RIGHT\n",
        message: "",
        proof: b"",
    },
}];

#[test]
fn right_values_are_found_right(rt: HostRuntime) {
    expect_all(&rt, &RIGHT);
}

#[test]
fn wrong_values_are_found_wrong(rt: HostRuntime) {
    expect_all(&rt, &REFUSED);
}
