//! Formulas in clauses: their texts, the limit of variables, and that a search answers the same of them.
use crate::desk::{AMPLE, Bounds, Task, run};
use crate::expecting::{Case, End, Lines, Offences, Run, expect_all, put_other_in_pieces};
use crate::faults::InTurn;
use crate::formulas::{SQUARE, TRIANGLE};
use std::alloc::{AllocError, Global};

const BLAST: &[&str] = &["cxsat", "blast", "f", "p"];

const TWO: &str = "p cnf 2 1\nx1 2 0\n";

const FIVE: &str = "p cnf 5 1\nx1 2 3 4 5 0\n";

/// A parity of five variables over all variables that there may be: it needs one more.
const FULL: &str = "p cnf 268435455 1\nx1 2 3 4 5 0\n";

/// A formula, and what the Answer and the Proof port have of it.
struct Blasted(&'static str, &'static str, &'static str);

static BLASTED: [Blasted; 6] = [
    Blasted(
        TWO,
        "c variables 2\nc clauses 2\ns BLASTED\n",
        "p cnf 2 2\n1 2 0\n-1 -2 0\n",
    ),
    Blasted(
        FIVE,
        "c variables 6\nc clauses 12\ns BLASTED\n",
        "p cnf 6 12\n1 2 3 -6 0\n1 2 -3 6 0\n1 -2 3 6 0\n1 -2 -3 -6 0\n-1 2 3 6 0\n-1 2 -3 -6 0\n-1 -2 3 -6 0\n-1 -2 -3 6 0\n6 4 5 0\n6 -4 -5 0\n-6 4 -5 0\n-6 -4 5 0\n",
    ),
    Blasted(
        "p cnf 1 1\nx1 1 0\n",
        "c variables 1\nc clauses 1\ns BLASTED\n",
        "p cnf 1 1\n0\n",
    ),
    Blasted(
        "p cnf 1 1\nx-1 1 0\n",
        "c variables 1\nc clauses 0\ns BLASTED\n",
        "p cnf 1 0\n",
    ),
    Blasted(
        "p cnf 3 2\nx3 -1 2 1 2 0\na -1 2 0\n2 2 0\n",
        "c variables 3\nc clauses 2\ns BLASTED\n",
        "p cnf 3 2\n-3 0\na -1 2 0\n2 2 0\n",
    ),
    Blasted(
        "p cnf 4 0\n",
        "c variables 4\nc clauses 0\ns BLASTED\n",
        "p cnf 4 0\n",
    ),
];

impl Case for Blasted {
    fn put_other(&self, alloc: Global, others: &mut String) -> Result<(), AllocError> {
        let task = Task {
            line: BLAST,
            formula: self.0,
            second: "",
        };
        let end = End {
            status: 0,
            answer: self.1,
            message: "",
            proof: self.2.as_bytes(),
        };
        put_other_in_pieces(alloc, others, task, AMPLE, end)
    }
}

#[test]
fn parities_become_clauses(rt: HostRuntime) {
    expect_all(&rt, &BLASTED);
}

/// Formulas that are not put into clauses.
static REFUSED: [Offences; 1] = [Offences {
    line: BLAST,
    formulas: &[
        (FULL, 9, "error: limit L3 at constraint 1\n"),
        (
            "p cnf 268435454 3\nx1 2 3 4 5 0\n1 0\nx1 2 3 4 5 0\n",
            9,
            "error: limit L3 at constraint 3\n",
        ),
        (
            "p cnf 268435455 2\nx1 2 3 4 5 0\n268435456 0\n",
            9,
            "error: limit L1 at byte 31\n",
        ),
        (
            "p cnf 268435455 1\nx1 2 3 4 5 0\nz 0\n",
            3,
            "error: formula F3 at byte 31\n",
        ),
    ],
}];

#[test]
fn too_many_variables_are_told_after_every_offence(rt: HostRuntime) {
    expect_all(&rt, &REFUSED);
}

static CUT_OFF: [Run; 1] = [Run {
    task: Task {
        line: BLAST,
        formula: FIVE,
        second: "",
    },
    bounds: Bounds { proof: 14, ..AMPLE },
    end: End {
        status: 5,
        answer: "",
        message: "error: write fault\n",
        proof: b"p cnf 6 12\n1 2",
    },
}];

#[test]
fn a_full_proof_port_has_a_prefix(rt: HostRuntime) {
    expect_all(&rt, &CUT_OFF);
}

/// Where there are too many variables no call that writes is made but those of the message: none that fails ends the run
/// with another status than a failed read does.
static TASKS: [InTurn; 2] = [
    InTurn {
        task: Task {
            line: BLAST,
            formula: TWO,
            second: "",
        },
        status: 0,
    },
    InTurn {
        task: Task {
            line: BLAST,
            formula: FULL,
            second: "",
        },
        status: 9,
    },
];

#[test]
fn each_call_of_a_blasting_fails_in_turn(rt: HostRuntime) {
    expect_all(&rt, &TASKS);
}

static LINES: [Lines; 1] = [Lines {
    texts: (TWO, ""),
    rows: &[
        (&["cxsat", "blast", "f", "p"], u32::MAX, 0),
        (&["cxsat", "blast", "f", "f"], u32::MAX, 2),
        (&["cxsat", "blast", "f"], u32::MAX, 2),
        (&["cxsat", "blast", "f", "s", "p"], u32::MAX, 2),
        (&["cxsat", "blast", "g", "p"], u32::MAX, 4),
        (&["cxsat", "blast", "f", "p"], 8, 9),
    ],
}];

#[test]
fn words_of_blast_are_refused_or_taken(rt: HostRuntime) {
    expect_all(&rt, &LINES);
}

// All 512 values of nine variables were tried, outside of this repository: 98 meet the first formula, 128 the second, and
// none the third, whose last parity is the sum of the two before with the other right side.

/// A formula with wide parities, and whether values meet it: the status of a search.
struct Wide(&'static str, u8);

static WIDE: [Wide; 5] = [
    Wide(
        "p cnf 9 4\nx1 2 3 4 5 6 7 0\nx-2 4 6 8 9 0\n1 -2 3 0\n-4 5 9 0\n",
        10,
    ),
    Wide("p cnf 9 2\nx1 2 3 4 5 6 7 8 9 0\nx1 3 5 7 9 0\n", 10),
    Wide(
        "p cnf 9 3\nx1 2 3 4 5 6 0\nx4 5 6 7 8 9 0\nx1 2 3 7 8 9 0\n",
        20,
    ),
    Wide(SQUARE, 20),
    Wide(TRIANGLE, 20),
];

static SOLVE: [&str; 3] = ["cxsat", "solve", "f"];

/// The status of a search over the formula of these bytes, or 0 if they are no text.
fn status_over(alloc: Global, bytes: &[u8]) -> Result<u8, AllocError> {
    let Ok(text) = std::str::from_utf8(bytes) else {
        return Ok(0);
    };
    let solved = run(alloc, text, b"", &SOLVE, AMPLE)?;
    Ok(solved.status)
}

/// As `status_over`, of the formula in clauses.
fn status_in_clauses(alloc: Global, formula: &str) -> Result<u8, AllocError> {
    let made = run(alloc, formula, b"", BLAST, AMPLE)?;
    status_over(alloc, made.proof())
}

impl Case for Wide {
    fn put_other(&self, alloc: Global, others: &mut String) -> Result<(), AllocError> {
        let status = status_in_clauses(alloc, self.0)?;
        if status == self.1 {
            return Ok(());
        }
        writeln!(others, "{}status {status}", self.0)
    }
}

#[test]
fn a_search_answers_the_same_of_the_clauses(rt: HostRuntime) {
    expect_all(&rt, &WIDE);
}
