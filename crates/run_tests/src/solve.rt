//! Searches for values: their answers, their budgets, and their logs.
ghost use Rattle.std.specs.Prelude.{◌≤◌};

use crate::desk::{AMPLE, Bounds, Ended, Task, run};
use crate::expecting::{
    Case, End, Lines, PIECES, answers, expect, expect_all, in_pieces, is_answered,
    put_other_in_pieces, put_unless, run_task,
};
use crate::formulas::{EMPTY, SQUARE, TRIANGLE, TRIANGLE_OF_CLAUSES};
use std::alloc::{AllocError, Global};

/// A parity and a clause that give variable 1 true and variable 2 false.
const CHAIN: &str = "p cnf 2 2\nx1 2 0\n1 0\n";

/// Clauses that each decision runs into, and that no values meet.
const FOUR: &str = "p cnf 3 4\n1 2 0\n1 -2 0\n-1 3 0\n-1 -3 0\n";

const SOLVE: &[&str] = &["cxsat", "solve", "f"];

const FILED: &[&str] = &["cxsat", "solve", "f", "--proof", "l"];

/// A formula, a budget of conflicts, and the status and the answer of `solve`.
struct Solved(&'static str, &'static str, u8, &'static str);

/// Whether two runs came to the same answer and the same log, the second with no message.
fn ended_alike(plain: &Ended, filed: &Ended) -> bool {
    plain.status == filed.status
        && plain.answer() == filed.answer()
        && plain.proof() == filed.proof()
        && filed.message().is_empty()
}

/// Runs `solve` with a file for the log, beside a run without one. Writes how it ended, unless both ended so and wrote the
/// same log.
fn put_other_beside(
    alloc: Global,
    others: &mut String,
    case: &Solved,
    bounds: Bounds,
    plain: &Ended,
) -> Result<(), AllocError>
    requires { 1 ≤ bounds.piece }
{
    let line = ["cxsat", "solve", "f", "--proof", "l", "--conflicts", case.1];
    let task = Task {
        line: line.as_slice(),
        formula: case.0,
        second: "",
    };
    let filed = run_task(alloc, task, bounds)?;
    let is_right = answers(plain, case.2, case.3) && ended_alike(plain, &filed);
    put_unless(alloc, others, task, &filed, is_right)
}

/// Runs `solve` with a budget, with a file for the log and without one.
fn put_other_within(
    alloc: Global,
    others: &mut String,
    case: &Solved,
    bounds: Bounds,
) -> Result<(), AllocError>
    requires { 1 ≤ bounds.piece }
{
    let line = ["cxsat", "solve", "f", "--conflicts", case.1];
    let plain = run(alloc, case.0, b"", line.as_slice(), bounds)?;
    put_other_beside(alloc, others, case, bounds, &plain)
}

impl Case for Solved {
    fn put_other(&self, alloc: Global, others: &mut String) -> Result<(), AllocError> {
        for piece in &PIECES {
            put_other_within(alloc, others, self, in_pieces(AMPLE, *piece))?;
        }
        Ok(())
    }
}

static ANSWERS: [Solved; 14] = [
    Solved("p cnf 0 0\n", "7", 10, "s SATISFIABLE\nv 0\n"),
    Solved(CHAIN, "7", 10, "s SATISFIABLE\nv 1 -2 0\n"),
    Solved(
        "p cnf 2 2\nx-1 2 0\n1 0\n",
        "7",
        10,
        "s SATISFIABLE\nv 1 2 0\n",
    ),
    Solved(
        "p cnf 2 2\nx -1 2 0\n1 0\n",
        "7",
        10,
        "s SATISFIABLE\nv 1 2 0\n",
    ),
    Solved(
        "p cnf 1 2\nx1 1 2 0\n1 0\n",
        "7",
        10,
        "s SATISFIABLE\nv 1 2 0\n",
    ),
    Solved(
        "c hi\r\np cnf 1 1\r\n1 0\r\n%\n0\n",
        "7",
        10,
        "s SATISFIABLE\nv 1 0\n",
    ),
    Solved(EMPTY, "1", 20, "s UNSATISFIABLE\n"),
    Solved("p cnf 2 1\nx0\n", "1", 20, "s UNSATISFIABLE\n"),
    Solved(TRIANGLE, "1", 20, "s UNSATISFIABLE\n"),
    Solved(TRIANGLE_OF_CLAUSES, "1", 20, "s UNSATISFIABLE\n"),
    Solved(SQUARE, "1", 20, "s UNSATISFIABLE\n"),
    Solved(FOUR, "2", 20, "s UNSATISFIABLE\n"),
    Solved(FOUR, "1", 0, "c conflicts 1\ns UNKNOWN\n"),
    Solved(
        "p cnf 2000000 4\n1 2 0\n1 -2 0\n-1 3 0\n-1 -3 0\n",
        "1",
        0,
        "c conflicts 1\ns UNKNOWN\n",
    ),
];

/// Runs `solve --inprocess` with a budget and a file for the log. Writes how it ended, unless it gave the same answer.
fn put_other_tidied(alloc: Global, others: &mut String, case: &Solved) -> Result<(), AllocError> {
    let line = [
        "cxsat",
        "solve",
        "--inprocess",
        "f",
        "--proof",
        "l",
        "--conflicts",
        case.1,
    ];
    let task = Task {
        line: line.as_slice(),
        formula: case.0,
        second: "",
    };
    let ended = run_task(alloc, task, AMPLE)?;
    let is_right = answers(&ended, case.2, case.3);
    put_unless(alloc, others, task, &ended, is_right)
}

/// Formulas with assumption constraints: the literals that fail come by rising variables, and the two of a variable that is assumed with both signs.
static ASSUMED: [Solved; 10] = [
    Solved(
        "p cnf 2 2\nx1 2 0\na 1 2 0\n",
        "7",
        20,
        "s UNSATISFIABLE\nc failed 1 2 0\n",
    ),
    Solved(
        "p cnf 2 2\n1 2 0\na -1 0\n",
        "7",
        10,
        "s SATISFIABLE\nv -1 2 0\n",
    ),
    Solved(
        "p cnf 1 0\na 1 -1 0\n",
        "1",
        20,
        "s UNSATISFIABLE\nc failed 1 -1 0\n",
    ),
    Solved(
        "p cnf 3 0\na 3 -2 -3 0\na 2 0\n",
        "1",
        20,
        "s UNSATISFIABLE\nc failed 2 -2 0\n",
    ),
    Solved(
        "p cnf 3 2\nx 1 2 3 0\na 3 -2 1 0\n",
        "1",
        20,
        "s UNSATISFIABLE\nc failed 1 -2 3 0\n",
    ),
    Solved(
        "p cnf 3 3\n-3 2 0\n-2 -1 0\na 3 0\na 1 0\n",
        "1",
        20,
        "s UNSATISFIABLE\nc failed 1 3 0\n",
    ),
    Solved(
        "p cnf 2 3\n1 0\na -1 2 0\n",
        "1",
        20,
        "s UNSATISFIABLE\nc failed -1 0\n",
    ),
    Solved(
        "p cnf 1 3\n1 0\n-1 0\na 0\n",
        "1",
        20,
        "s UNSATISFIABLE\nc failed 0\n",
    ),
    Solved(
        "p cnf 4 5\n1 2 3 0\n1 -2 3 0\n1 2 -3 0\n1 -2 -3 0\na -1 4 0\n",
        "7",
        20,
        "s UNSATISFIABLE\nc failed -1 0\n",
    ),
    Solved(
        "p cnf 2000000 1\n-1 2 0\na 3 1 -2 0\n",
        "7",
        20,
        "s UNSATISFIABLE\nc failed 1 -2 0\n",
    ),
];

#[test]
fn assumed_literals_that_fail_are_told(rt: HostRuntime) {
    expect_all(&rt, &ASSUMED);
}

/// Formulas that propagation refutes at level 0, with assumptions that have no part in it, also where one is false there.
static REFUTED_ALONE: [Solved; 13] = [
    Solved(
        "p cnf 2 2\n0\na 1 -2 0\n",
        "1",
        20,
        "s UNSATISFIABLE\nc failed 0\n",
    ),
    Solved(
        "p cnf 2 2\nx0\na 2 0\n",
        "1",
        20,
        "s UNSATISFIABLE\nc failed 0\n",
    ),
    Solved(
        "p cnf 3 4\nx1 2 0\nx2 3 0\nx1 3 0\na 3 1 0\n",
        "1",
        20,
        "s UNSATISFIABLE\nc failed 0\n",
    ),
    Solved(
        "p cnf 4 6\n1 0\n-1 2 0\n-2 3 0\n-3 -1 0\na 4 0\na 1 0\n",
        "1",
        20,
        "s UNSATISFIABLE\nc failed 0\n",
    ),
    Solved(
        "p cnf 3 6\n1 2 0\n-1 2 0\n1 -2 0\n-1 -2 0\na 3 0\na 1 0\n",
        "1",
        20,
        "s UNSATISFIABLE\nc failed 0\n",
    ),
    Solved(
        "p cnf 2 4\n1 0\n-1 2 0\n-1 -2 0\na -1 0\n",
        "1",
        20,
        "s UNSATISFIABLE\nc failed 0\n",
    ),
    Solved(
        "p cnf 3 5\n1 0\nx1 2 0\n2 3 0\n2 -3 0\na -3 -1 0\n",
        "1",
        20,
        "s UNSATISFIABLE\nc failed 0\n",
    ),
    // 1 contradicts an assumed literal, and after it each literal of the parity is implied, which is assumed
    Solved(
        "p cnf 3 5\n1 0\n-1 2 0\n-1 3 0\nx2 3 0\na -1 2 3 0\n",
        "1",
        20,
        "s UNSATISFIABLE\nc failed 0\n",
    ),
    // each literal of the parity is assumed, and known
    Solved(
        "p cnf 2 4\nx1 2 0\n1 0\n2 0\na 1 2 0\n",
        "1",
        20,
        "s UNSATISFIABLE\nc failed 0\n",
    ),
    // each parity's clause would end the log
    Solved(
        "p cnf 2 4\nx1 0\nx2 0\n-1 -2 0\na -1 -2 0\n",
        "1",
        20,
        "s UNSATISFIABLE\nc failed 0\n",
    ),
    Solved(
        "p cnf 3 5\nx1 0\nx2 0\nx3 0\n-1 -2 -3 0\na -1 -2 -3 0\n",
        "1",
        20,
        "s UNSATISFIABLE\nc failed 0\n",
    ),
    // also that of the parity that is not met
    Solved(
        "p cnf 3 5\nx1 0\n-1 2 0\n-1 3 0\nx2 3 0\na -1 2 3 0\n",
        "1",
        20,
        "s UNSATISFIABLE\nc failed 0\n",
    ),
    // the first one has a literal that a unit clause makes false
    Solved(
        "p cnf 4 7\nx1 2 0\n-2 0\n-1 3 0\nx3 4 0\n-3 4 0\na -1 -2 0\na -3 4 0\n",
        "1",
        20,
        "s UNSATISFIABLE\nc failed 0\n",
    ),
];

#[test]
fn no_assumed_literal_fails_where_the_formula_is_refuted_without_a_decision(rt: HostRuntime) {
    expect_all(&rt, &REFUTED_ALONE);
}

/// Formulas of which some assumed literals fail, and others that are decided before these have no part in it.
static PARTLY_FAILED: [Solved; 10] = [
    // 2 excludes 4
    Solved(
        "p cnf 4 2\n-2 -4 0\na 1 2 3 4 0\n",
        "1",
        20,
        "s UNSATISFIABLE\nc failed 2 4 0\n",
    ),
    // over two more variables 1 excludes 3
    Solved(
        "p cnf 6 4\n-1 5 0\n-5 6 0\n-6 -3 0\na 2 4 1 3 0\n",
        "1",
        20,
        "s UNSATISFIABLE\nc failed 1 3 0\n",
    ),
    // 1 and 2 give two values of 5
    Solved(
        "p cnf 5 3\n-1 -2 5 0\n-1 -2 -5 0\na 3 -4 1 2 0\n",
        "1",
        20,
        "s UNSATISFIABLE\nc failed 1 2 0\n",
    ),
    // the parity of 1, 2 and 3
    Solved(
        "p cnf 5 2\nx1 2 3 0\na 5 1 -4 2 -3 0\n",
        "1",
        20,
        "s UNSATISFIABLE\nc failed 1 2 -3 0\n",
    ),
    // the sum of two parities, of 1, 2, 4 and 5
    Solved(
        "p cnf 7 3\nx1 2 3 0\nx3 4 5 0\na 6 1 7 -2 4 5 0\n",
        "1",
        20,
        "s UNSATISFIABLE\nc failed 1 -2 4 5 0\n",
    ),
    // what is known at level 0 is no reason that fails
    Solved(
        "p cnf 5 4\n5 0\n-5 -1 4 0\n-4 -2 0\na 3 1 2 0\n",
        "1",
        20,
        "s UNSATISFIABLE\nc failed 1 2 0\n",
    ),
    // of a parity, nor are literals that are known and assumed
    Solved(
        "p cnf 2 3\nx1 2 0\n1 0\na 1 2 0\n",
        "1",
        20,
        "s UNSATISFIABLE\nc failed 2 0\n",
    ),
    // where 2 follows from 1
    Solved(
        "p cnf 3 4\nx1 2 3 0\n1 0\n-1 2 0\na 1 2 -3 0\n",
        "1",
        20,
        "s UNSATISFIABLE\nc failed -3 0\n",
    ),
    // and of a parity that clauses give
    Solved(
        "p cnf 5 8\n1 2 3 0\n1 -2 -3 0\n-1 2 -3 0\n-1 -2 3 0\nx3 4 5 0\n1 0\n2 0\na 1 2 4 -5 0\n",
        "1",
        20,
        "s UNSATISFIABLE\nc failed 4 -5 0\n",
    ),
    // one literal alone, after others
    Solved(
        "p cnf 5 4\n-3 4 0\n-3 5 0\n-4 -5 0\na 1 2 3 0\n",
        "1",
        20,
        "s UNSATISFIABLE\nc failed 3 0\n",
    ),
];

#[test]
fn what_a_contradiction_does_not_rest_on_does_not_fail(rt: HostRuntime) {
    expect_all(&rt, &PARTLY_FAILED);
}

/// The sign of a variable that is assumed: by turns true and false.
fn sign(var: u32) -> &'static str {
    if var % 2 == 0 { "-" } else { "" }
}

fn put_signed(text: &mut String, vars: u32) -> Result<(), AllocError> {
    for var in 1..=vars {
        write!(text, " {}{var}", sign(var))?;
    }
    text.push_str(" 0\n")
}

/// A formula of a clause and of one assumption constraint, which has each of this many variables.
fn assuming(alloc: Global, vars: u32, clause: &str) -> Result<String, AllocError> {
    let mut text = format!(in alloc; "p cnf {vars} 2\n{clause}\na")?;
    put_signed(&mut text, vars)?;
    Ok(text)
}

fn put_lines_of_values(text: &mut String, vars: u32) -> Result<(), AllocError> {
    for var in 1..=vars {
        if var % 16 == 1 {
            text.push_str("\nv")?;
        }
        write!(text, " {}{var}", sign(var))?;
    }
    text.push_str(" 0\n")
}

/// The answer of just those values.
fn assumed_values(alloc: Global, vars: u32) -> Result<String, AllocError> {
    let mut text = String::from_str(alloc, "s SATISFIABLE")?;
    put_lines_of_values(&mut text, vars)?;
    Ok(text)
}

/// Whether a search over 5,000 assumed literals and a clause ends so.
fn assumes_many(alloc: Global, clause: &str, status: u8, answer: &str) -> Result<bool, AllocError> {
    let formula = assuming(alloc, 5_000, clause)?;
    let task = Task {
        line: SOLVE,
        formula: formula.as_str(),
        second: "",
    };
    let bounds = Bounds {
        answer: 50_000,
        ..AMPLE
    };
    is_answered(alloc, task, bounds, status, answer)
}

/// Whether the values are told where a clause is met, and the literals that fail where one is not.
fn both_assume_many(alloc: Global) -> Result<(bool, bool), AllocError> {
    let values = assumed_values(alloc, 5_000)?;
    let met = assumes_many(alloc, "1 5000 0", 10, values.as_str())?;
    let failed = "s UNSATISFIABLE\nc failed 1 -5000 0\n";
    let unmet = assumes_many(alloc, "-1 5000 0", 20, failed)?;
    Ok((met, unmet))
}

#[test]
fn many_literals_are_assumed(rt: HostRuntime) {
    expect(&rt, both_assume_many(rt.alloc()), &(true, true));
}

#[test]
fn values_are_printed_where_there_are_any(rt: HostRuntime) {
    expect_all(&rt, &ANSWERS);
}

/// Whether a conflict is marked in a log.
fn has_mark(log: &[u8]) -> bool {
    log.windows(11)
        .any(|front| front == b"c conflict ".as_slice())
}

static TO_ONE_CONFLICT: [&str; 5] = ["cxsat", "solve", "f", "--conflicts", "1"];

/// Whether a conflict is marked in the log of a search with a budget of one.
fn marks(alloc: Global, formula: &str) -> Result<bool, AllocError> {
    let solved = run(alloc, formula, b"", &TO_ONE_CONFLICT, AMPLE)?;
    Ok(has_mark(solved.proof()))
}

/// Searches that tidy.
#[derive(Drop)]
struct Tidied(&'static [Solved]);

impl Case for Tidied {
    fn put_other(&self, alloc: Global, others: &mut String) -> Result<(), AllocError> {
        for case in self.0 {
            put_other_tidied(alloc, others, case)?;
        }
        Ok(())
    }
}

#[test]
fn tidying_gives_the_same_answers(rt: HostRuntime) {
    expect_all(&rt, &[Tidied(&ANSWERS), Tidied(&ASSUMED)]);
}

/// Whether a conflict is marked where all is forced, and where there are decisions.
fn both_mark(alloc: Global) -> Result<(bool, bool), AllocError> {
    let forced = marks(alloc, TRIANGLE)?;
    let decided = marks(alloc, FOUR)?;
    Ok((forced, decided))
}

#[test]
fn conflicts_are_marked_behind_decisions_alone(rt: HostRuntime) {
    expect(&rt, both_mark(rt.alloc()), &(false, true));
}

/// The originals of the triangle of clauses, and the parities that are recovered from them.
const RECOVERED: &[u8] =
    b"o 1 1 2 0\no 2 -1 -2 0\no 3 2 3 0\no 4 -2 -3 0\no 5 1 3 0\no 6 -1 -3 0\ni x 1 1 2 0 l 1 2 0\ni x 2 1 3 0 l 5 6 0\ni x 3 2 3 0 l 3 4 0\n";

/// Whether the log of a search begins so, and whether it has a mark.
fn begins(alloc: Global, formula: &str, front: &[u8]) -> Result<(bool, bool), AllocError> {
    let solved = run(alloc, formula, b"", SOLVE, AMPLE)?;
    let log = solved.proof();
    Ok((log.starts_with(front), has_mark(log)))
}

#[test]
fn recovered_parities_are_told_behind_the_originals(rt: HostRuntime) {
    let begun = begins(rt.alloc(), TRIANGLE_OF_CLAUSES, RECOVERED);
    expect(&rt, begun, &(true, false));
}

/// Runs `solve` of the triangle with this room for its log, which is too little: just that prefix of
/// the log is to be on its port.
fn put_other_front(
    alloc: Global,
    others: &mut String,
    line: &[&str],
    front: &[u8],
) -> Result<(), AllocError> {
    let task = Task {
        line,
        formula: TRIANGLE,
        second: "",
    };
    let bounds = Bounds {
        proof: front.len(),
        ..AMPLE
    };
    let end = End {
        status: 5,
        answer: "",
        message: "error: write fault\n",
        proof: front,
    };
    put_other_in_pieces(alloc, others, task, bounds, end)
}

/// As `put_other_front`, with a file for the log and without one, of two prefixes of a log that has more than six bytes.
fn put_other_fronts(alloc: Global, others: &mut String, log: &[u8]) -> Result<(), AllocError> {
    let most = log.len().saturating_sub(1);
    if most <= 5 {
        return others.push_str("the log is short");
    }
    put_other_front(alloc, others, FILED, b"o x 1")?;
    put_other_front(alloc, others, FILED, &log[..most])?;
    put_other_front(alloc, others, SOLVE, b"o x 1")?;
    put_other_front(alloc, others, SOLVE, &log[..most])
}

/// A formula, and logs of it that have too little room.
struct FrontsOfLog(&'static str);

impl Case for FrontsOfLog {
    fn put_other(&self, alloc: Global, others: &mut String) -> Result<(), AllocError> {
        let whole = run(alloc, self.0, b"", FILED, AMPLE)?;
        put_other_fronts(alloc, others, whole.proof())
    }
}

#[test]
fn a_full_log_is_a_write_fault(rt: HostRuntime) {
    expect_all(&rt, &[FrontsOfLog(TRIANGLE)]);
}

#[test]
fn a_full_answer_port_is_a_write_fault(rt: HostRuntime) {
    let task = Task {
        line: SOLVE,
        formula: CHAIN,
        second: "",
    };
    let bounds = Bounds { answer: 3, ..AMPLE };
    let is_so = is_answered(rt.alloc(), task, bounds, 5, "s S");
    expect(&rt, is_so, &true);
}

static LINES: [Lines; 1] = [Lines {
    texts: (CHAIN, ""),
    rows: &[
        (SOLVE, 21, 10),
        (SOLVE, 20, 9),
        (
            &["cxsat", "solve", "f", "--conflicts", "1000000000000000000"],
            21,
            10,
        ),
        (
            &["cxsat", "solve", "f", "--conflicts", "1000000000000000001"],
            21,
            2,
        ),
        (&["cxsat", "solve", "f", "--conflicts", "0"], 21, 2),
        (&["cxsat", "solve", "f", "--proof", "f"], 21, 2),
        (&["cxsat", "solve", "g"], 21, 4),
        (&[], 21, 2),
    ],
}];

#[test]
fn words_and_texts_are_within_their_bounds(rt: HostRuntime) {
    expect_all(&rt, &LINES);
}
