//! Logs that become proofs, and logs that are refused at a step for a cause.
use crate::desk::{AMPLE, Bounds, Task};
use crate::expecting::{
    Case, ELAB, End, Refusals, Run, expect, expect_all, is_answered, put_other_in_pieces,
};
use crate::flow::proves;
use crate::formulas::{SQUARE, TRIANGLE, TRIANGLE_OF_CLAUSES};
use std::alloc::{AllocError, Global};

/// A log of the four clauses, with no hints.
pub(crate) const SQUARE_LOG: &str =
    "o 10 1 2 0\no 11 -1 2 0\no 12 1 -2 0\no 13 -1 -2 0\na 20 2 0\na 21 0\n";

/// This log with a final step and a deletion of names that are not there.
pub(crate) const SQUARE_LOG_WITH_IDLE_STEPS: &str =
    "o 10 1 2 0\no 11 -1 2 0\no 12 1 -2 0\no 13 -1 -2 0\nf 99 500 0\nd 77 0\na 20 2 0\na 21 0\n";

const LINE: &[&str] = &["cxsat", "elab", "f", "s", "p"];

const CLAUSE: &str = "p cnf 2 1\n1 2 0\n";

const PARITY: &str = "p cnf 2 1\nx1 2 0\n";

static REFUSED: [Refusals; 1] = [Refusals {
    command: ELAB,
    texts: &[
        (CLAUSE, "z 1 0\n", "step 1 E0 at byte 0"),
        (CLAUSE, "o 1 3 0\n", "step 1 E1"),
        (CLAUSE, "o 1 1 2 0\no 1 1 2 0\n", "step 2 E2"),
        (CLAUSE, "o 1 1 0\n", "step 1 E3"),
        (CLAUSE, "i 5 1 0 l 9 0\n", "step 1 E4"),
        (CLAUSE, "o 1 1 2 0\na 5 1 0\n", "step 2 E5"),
        (CLAUSE, "o 1 1 2 0\na 5 1 -1 0\n", "step 2 E5"),
        (PARITY, "o x 1 1 2 0\na x 2 1 0 l 1 0\n", "step 2 E7"),
        (PARITY, "o x 1 1 2 0\ni 5 1 0 l 1 0\n", "step 2 E8"),
        (
            "p cnf 13 0\n",
            "i x 1 1 2 3 4 5 6 7 8 9 10 11 12 13 0 l 0\n",
            "step 1 E9",
        ),
        (
            "p cnf 3 2\n1 2 0\n1 3 0\n",
            "o 7 1 3 0\ni x 1 1 2 0 l 7 0\n",
            "step 2 E10",
        ),
        (CLAUSE, "", "step 1 E11"),
    ],
}];

#[test]
fn logs_are_refused_at_a_step(rt: HostRuntime) {
    expect_all(&rt, &REFUSED);
}

#[test]
fn a_log_may_end_behind_a_tautology(rt: HostRuntime) {
    let task = Task {
        line: LINE,
        formula: CLAUSE,
        second: "o 1 1 2 0\na 5 1 2 -2 0\n",
    };
    let answer = "c step 3 E11\ns NOT ELABORATED\n";
    expect(&rt, is_answered(rt.alloc(), task, AMPLE, 8, answer), &true);
}

static CUT_OFF: [Run; 1] = [Run {
    task: Task {
        line: LINE,
        formula: SQUARE,
        second: SQUARE_LOG,
    },
    bounds: Bounds { proof: 3, ..AMPLE },
    end: End {
        status: 5,
        answer: "",
        message: "error: write fault\n",
        proof: b"5 2",
    },
}];

#[test]
fn a_full_proof_port_is_a_write_fault(rt: HostRuntime) {
    expect_all(&rt, &CUT_OFF);
}

/// The four clauses under the numbers that a proof gives them, and what follows them in a log.
const FOUR: &str = "o 1 1 2 0\no 2 -1 2 0\no 3 1 -2 0\no 4 -1 -2 0\n";

/// The proof of the clause of 2 by the first two clauses, and of the empty one by it, the third and the fourth.
const STRAIGHT: &str = "5 2 0 1 2 0\n6 0 5 3 4 0\n";

/// What follows the four clauses, and the proof. Hints name each clause by the id that it has by then.
struct Moved(&'static str, &'static str);

static MOVED: [Moved; 10] = [
    Moved(
        "r 0\nr x 0\na 20 2 0 l 1 2 0\na 21 0 l 20 3 4 0\n",
        STRAIGHT,
    ),
    // Two change places.
    Moved(
        "r 1 2 2 1 0\na 20 2 0 l 2 1 0\na 21 0 l 20 3 4 0\n",
        STRAIGHT,
    ),
    // A cycle, its pairs out of order, and twice.
    Moved(
        "r 3 1 1 2 2 3 0\na 20 2 0 l 2 3 0\na 21 0 l 20 1 4 0\n",
        STRAIGHT,
    ),
    Moved(
        "r 1 2 2 3 3 1 0\nr 1 2 2 3 3 1 0\na 20 2 0 l 3 1 0\na 21 0 l 20 2 4 0\n",
        STRAIGHT,
    ),
    // A chain, whose last id is far away, from its end on and from its start on.
    Moved(
        "r 3 9000000000 2 3 1 2 0\na 20 2 0 l 2 3 0\na 21 0 l 20 9000000000 4 0\n",
        STRAIGHT,
    ),
    Moved(
        "r 1 2 2 3 3 9000000000 0\na 20 2 0 l 2 3 0\na 21 0 l 20 9000000000 4 0\n",
        STRAIGHT,
    ),
    // To its own id, and there and back.
    Moved(
        "r 1 1 0\nr 1 7 2 1 0\nr 1 2 7 1 0\na 20 2 0 l 1 2 0\na 21 0 l 20 3 4 0\n",
        STRAIGHT,
    ),
    // What was derived is deleted under its new id, and its old one is given anew.
    Moved(
        "a 20 2 0 l 1 2 0\nr 20 7 0\na 20 2 0 l 7 0\nd 7 2 0\na 21 0 l 20 3 4 0\n",
        "5 2 0 1 2 0\n6 2 0 5 0\n6 d 5 0\n7 0 6 3 4 0\n",
    ),
    // Ids that are in use for clauses are free for parities.
    Moved(
        "a 20 2 0 l 1 2 0\ni x 5 2 0 l 20 0\nr x 5 20 0\ni 21 2 0 l 20 0\na 22 0 l 21 3 4 0\n",
        "5 2 0 1 2 0\ni x 1 2 0 5 0\ni 6 2 0 1 0\n7 0 6 3 4 0\n",
    ),
    // The old id is free for an original again, which has the old name.
    Moved(
        "r 1 2 2 1 0\nr 2 8 0\no 2 1 2 0\na 20 2 0 l 2 1 0\na 21 0 l 20 3 4 0\n",
        STRAIGHT,
    ),
];

/// Writes how the log ended, unless it was elaborated into this proof.
fn put_other_proof(
    alloc: Global,
    others: &mut String,
    formula: &str,
    log: &str,
    proof: &str,
) -> Result<(), AllocError> {
    let task = Task {
        line: LINE,
        formula,
        second: log,
    };
    let end = End {
        status: 0,
        answer: "s ELABORATED\n",
        message: "",
        proof: proof.as_bytes(),
    };
    put_other_in_pieces(alloc, others, task, AMPLE, end)
}

impl Case for Moved {
    fn put_other(&self, alloc: Global, others: &mut String) -> Result<(), AllocError> {
        let log = format!(in alloc; "{FOUR}{}", self.0)?;
        put_other_proof(alloc, others, SQUARE, log.as_str(), self.1)
    }
}

#[test]
fn moved_clauses_keep_their_names_in_the_proof(rt: HostRuntime) {
    expect_all(&rt, &MOVED);
}

/// A formula, a log of it, and the proof that it becomes.
struct Elaborated(&'static str, &'static str, &'static str);

impl Case for Elaborated {
    fn put_other(&self, alloc: Global, others: &mut String) -> Result<(), AllocError> {
        put_other_proof(alloc, others, self.0, self.1, self.2)
    }
}

/// Three parities in a cycle, and their sum.
const MOVED_PARITIES: &str = "o x 1 1 2 0\no x 2 2 3 0\no x 3 1 3 0\nr x 1 2 2 3 3 1 0\n\
    a x 9 -1 3 0 l 2 3 0\nr x 9 4 0\na x 5 0 l 4 1 0\nd x 4 0\ni 7 0 l 5 0\n";

static OF_PARITIES: [Elaborated; 1] = [Elaborated(
    TRIANGLE,
    MOVED_PARITIES,
    "x 4 -1 3 0 1 2 0\nx 5 0 4 3 0\nx d 4 0\ni 1 0 5 0\n",
)];

#[test]
fn moved_parities_keep_their_names_in_the_proof(rt: HostRuntime) {
    expect_all(&rt, &OF_PARITIES);
}

/// The four clauses, two of which change places, and two clauses without hints.
const SEARCHED: &str =
    "o 10 1 2 0\no 11 -1 2 0\no 12 1 -2 0\no 13 -1 -2 0\nr 10 11 11 10 0\na 20 2 0\na 21 0\n";

/// A move between two searches: what was found before has another id then.
const SEARCHED_TWICE: &str =
    "o 10 1 2 0\no 11 -1 2 0\no 12 1 -2 0\no 13 -1 -2 0\na 20 2 0\nr 20 12 12 20 10 11 11 10 0\na 21 0\n";

/// Whether the logs without hints become proofs.
fn both_prove(alloc: Global) -> Result<(bool, bool), AllocError> {
    let once = proves(alloc, SQUARE, SEARCHED.as_bytes(), AMPLE)?;
    let twice = proves(alloc, SQUARE, SEARCHED_TWICE.as_bytes(), AMPLE)?;
    Ok((once, twice))
}

#[test]
fn chains_are_found_over_moved_clauses(rt: HostRuntime) {
    expect(&rt, both_prove(rt.alloc()), &(true, true));
}

static REFUSED_MOVES: [Refusals; 1] = [Refusals {
    command: ELAB,
    texts: &[
        (CLAUSE, "r 1 0\n", "step 1 E0 at byte 4"),
        (CLAUSE, "r x 1 2 3 0\n", "step 1 E0 at byte 10"),
        (CLAUSE, "r 1 2 0\n", "step 1 E4"),
        (CLAUSE, "o 1 1 2 0\nr x 1 2 0\n", "step 2 E4"),
        (PARITY, "o x 1 1 2 0\nr 1 2 0\n", "step 2 E4"),
        (CLAUSE, "o 1 1 2 0\nr 1 2 1 3 0\n", "step 2 E4"),
        (CLAUSE, "o 1 1 2 0\nr 1 1 0\n", "step 3 E11"),
        (CLAUSE, "o 1 1 2 0\no 2 2 1 0\nr 1 2 0\n", "step 3 E2"),
        (CLAUSE, "o 1 1 2 0\no 2 2 1 0\nr 1 3 2 3 0\n", "step 3 E2"),
        // The old ids are looked at before the new ones.
        (CLAUSE, "o 1 1 2 0\no 2 2 1 0\nr 1 2 9 5 0\n", "step 3 E4"),
        // Nothing is under an old id any more, and something under the new one.
        (
            CLAUSE,
            "o 1 1 2 0\nr 1 2 0\ni x 1 1 2 0 l 1 0\n",
            "step 3 E4",
        ),
        (
            PARITY,
            "o x 1 1 2 0\nr x 1 2 0\no x 1 2 1 0\no x 2 1 2 0\n",
            "step 4 E2",
        ),
    ],
}];

#[test]
fn moves_are_refused_at_a_step(rt: HostRuntime) {
    expect_all(&rt, &REFUSED_MOVES);
}

/// What `solve` wrote of the three parities as clauses.
const SOLVED: &str =
    "o 1 1 2 0\no 2 -1 -2 0\no 3 2 3 0\no 4 -2 -3 0\no 5 1 3 0\no 6 -1 -3 0\ni x 1 1 2 0 l 1 2 0\ni x 2 1 3 0 l 5 6 0\ni x 3 2 3 0 l 3 4 0\na x 7 0 l 1 2 3 0\ni 8 0 l 7 0\n";

/// Its proof.
const OF_SOLVED: &str =
    "i x 1 1 2 0 1 2 0\ni x 2 1 3 0 5 6 0\ni x 3 2 3 0 3 4 0\nx 4 0 1 2 3 0\ni 7 0 4 0\n";

/// This log, and with moves, as `bench/make/moves.py` draws them from seeds.
static SOLVED_AND_MOVED: [Elaborated; 4] = [
    Elaborated(TRIANGLE_OF_CLAUSES, SOLVED, OF_SOLVED),
    Elaborated(
        TRIANGLE_OF_CLAUSES,
        "o 1 1 2 0\no 2 -1 -2 0\no 3 2 3 0\no 4 -2 -3 0\no 5 1 3 0\no 6 -1 -3 0\nr x 0\ni x 1 1 2 0 l 1 2 0\nr 5 5 0\ni x 2 1 3 0 l 5 6 0\nr x 2 2 1 5 0\ni x 3 2 3 0 l 3 4 0\na x 7 0 l 5 2 3 0\ni 8 0 l 7 0\n",
        OF_SOLVED,
    ),
    Elaborated(
        TRIANGLE_OF_CLAUSES,
        "o 1 1 2 0\no 2 -1 -2 0\nr 1 2 2 5 0\no 3 2 3 0\no 4 -2 -3 0\nr 3 2 4 3 2 4 0\no 6 1 3 0\no 7 -1 -3 0\ni x 1 1 2 0 l 4 5 0\ni x 2 1 3 0 l 6 7 0\nr x 2 3 1 6 0\ni x 7 2 3 0 l 2 3 0\na x 8 0 l 6 3 7 0\ni 8 0 l 8 0\n",
        OF_SOLVED,
    ),
    Elaborated(
        TRIANGLE_OF_CLAUSES,
        "o 1 1 2 0\nr 1 2 0\no 3 -1 -2 0\nr 3 2 2 6 0\no 3 2 3 0\nr 3 2 2 9 6 3 0\no 4 -2 -3 0\nr 3 2 2 4 9 9 4 11 0\no 5 1 3 0\nr 4 4 9 2 5 11 2 5 11 9 0\no 6 -1 -3 0\nr 4 9 9 4 2 5 5 11 11 6 6 14 0\ni x 1 1 2 0 l 11 5 0\nr 6 9 5 16 4 4 9 11 11 14 14 6 0\ni x 2 1 3 0 l 9 6 0\nr 9 14 4 16 14 17 16 19 11 9 6 4 0\ni x 3 2 3 0 l 9 16 0\nr 9 19 16 9 14 4 19 16 17 22 4 17 0\na x 7 0 l 1 2 3 0\nr 19 17 17 9 9 4 16 22 22 16 4 19 0\ni 8 0 l 7 0\nr 9 19 19 16 22 8 16 17 8 22 17 24 0\n",
        OF_SOLVED,
    ),
];

#[test]
fn moves_at_random_change_no_proof(rt: HostRuntime) {
    expect_all(&rt, &SOLVED_AND_MOVED);
}
