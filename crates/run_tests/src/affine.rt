//! The solutions of parities, told as a point and a basis.
use crate::desk::{AMPLE, Bounds, Task, run_on_input};
use crate::expecting::{
    Case, End, Lines, Offences, answers, expect, expect_all, put_other_in_pieces,
};
use crate::faults::InTurn;
use crate::formulas::{SQUARE, TRIANGLE};
use std::alloc::{AllocError, Global};

const AFFINE: &[&str] = &["cxsat", "affine", "f"];

/// A parity of two of three variables.
const TWO: &str = "p cnf 3 1\nx1 2 0\n";

const TWO_TOLD: &str = "s AFFINE 2\nt 1 -2 -3 0\nb 1 2 0\nb 3 0\n";

// Expected texts with more than one parity were made outside of this repository, by trying all values.

/// A formula, and what is told of its parities.
struct Told(&'static str, &'static str);

static TOLD: [Told; 13] = [
    Told(TWO, TWO_TOLD),
    Told(TRIANGLE, "s AFFINE NONE\n"),
    Told("p cnf 0 0\n", "s AFFINE 0\nt 0\n"),
    Told("p cnf 2 1\nx0\n", "s AFFINE NONE\n"),
    Told("p cnf 1 1\nx1 1 0\n", "s AFFINE NONE\n"),
    Told(
        "p cnf 2 1\nx1 -1 0\n",
        "s AFFINE 2\nt -1 -2 0\nb 1 0\nb 2 0\n",
    ),
    Told("p cnf 2 1\nx1 1 2 0\n", "s AFFINE 1\nt -1 2 0\nb 1 0\n"),
    Told("p cnf 2 2\nx1 2 0\nx-1 2 2 0\n", "s AFFINE 0\nt -1 2 0\n"),
    Told(
        "p cnf 1 2\nx-3 1 0\nx2 0\n",
        "s AFFINE 1\nt -1 2 -3 0\nb 1 3 0\n",
    ),
    Told(
        "p cnf 5 3\nx1 2 3 0\nx3 4 0\nx-4 5 0\n",
        "s AFFINE 2\nt -1 -2 3 -4 -5 0\nb 1 2 0\nb 1 3 4 5 0\n",
    ),
    Told(
        "p cnf 4 4\nx1 2 0\nx2 3 0\nx-1 3 0\nx4 -3 0\n",
        "s AFFINE 1\nt -1 2 -3 -4 0\nb 1 2 3 4 0\n",
    ),
    Told(
        "p cnf 17 2\nx17 1 0\nx3 17 2 0\n",
        "s AFFINE 15\nt 1 2 -3 -4 -5 -6 -7 -8 -9 -10 -11 -12 -13 -14 -15 -16 -17 0\nb 2 3 0\nb 4 0\nb 5 0\nb 6 0\nb 7 0\nb 8 0\nb 9 0\nb 10 0\nb 11 0\nb 12 0\nb 13 0\nb 14 0\nb 15 0\nb 16 0\nb 1 2 17 0\n",
    ),
    Told(
        "p cnf 4 2\nx4 2 0\nx3 -1 0\n",
        "s AFFINE 2\nt -1 2 -3 -4 0\nb 1 3 0\nb 2 4 0\n",
    ),
];

/// Formulas whose clauses and assumptions leave less than their parities do, or nothing.
static WITH_CLAUSES: [Told; 3] = [
    Told(SQUARE, "s AFFINE 2\nt -1 -2 0\nb 1 0\nb 2 0\n"),
    Told("p cnf 3 3\n-1 0\nx1 2 0\na -2 3 0\n", TWO_TOLD),
    Told("p cnf 3 3\n0\nx1 2 0\na 1 -1 0\n", TWO_TOLD),
];

/// Writes how a run over the formula ends, if it does not tell this.
fn put_untold(
    alloc: Global,
    others: &mut String,
    formula: &str,
    answer: &str,
) -> Result<(), AllocError> {
    let task = Task {
        line: AFFINE,
        formula,
        second: "",
    };
    let end = End {
        status: 0,
        answer,
        message: "",
        proof: b"",
    };
    put_other_in_pieces(alloc, others, task, AMPLE, end)
}

impl Case for Told {
    fn put_other(&self, alloc: Global, others: &mut String) -> Result<(), AllocError> {
        put_untold(alloc, others, self.0, self.1)
    }
}

#[test]
fn solutions_of_parities_are_told(rt: HostRuntime) {
    expect_all(&rt, &TOLD);
}

#[test]
fn clauses_and_assumptions_have_no_say(rt: HostRuntime) {
    expect_all(&rt, &WITH_CLAUSES);
}

fn put_point(text: &mut String, vars: u32) -> Result<(), AllocError> {
    for var in 1..=vars {
        write!(text, " -{var}")?;
    }
    text.push_str(" 0\n")
}

fn put_lines(text: &mut String, vars: u32) -> Result<(), AllocError> {
    for var in 1..=vars {
        writeln!(text, "b {var} 0")?;
    }
    Ok(())
}

/// Writes what is told of this many variables without a parity.
fn put_told_of_free(text: &mut String, vars: u32) -> Result<(), AllocError> {
    write!(text, "s AFFINE {vars}\nt")?;
    put_point(text, vars)?;
    put_lines(text, vars)
}

/// A formula without a constraint, all of whose variables are to be told as free.
struct Free(u32);

impl Case for Free {
    fn put_other(&self, alloc: Global, others: &mut String) -> Result<(), AllocError> {
        let formula = format!(in alloc; "p cnf {} 0\n", self.0)?;
        let mut told = String::new(alloc);
        put_told_of_free(&mut told, self.0)?;
        put_untold(alloc, others, formula.as_str(), told.as_str())
    }
}

#[test]
fn an_answer_of_nine_thousand_bytes_is_told_whole(rt: HostRuntime) {
    expect_all(&rt, &[Free(700)]);
}

static REFUSED: [Offences; 1] = [Offences {
    line: AFFINE,
    formulas: &[
        ("", 3, "error: formula F1 at byte 0\n"),
        ("p cnf x 1\n", 3, "error: formula F2 at byte 6\n"),
        ("p cnf 2 1\nx1 a 0\n", 3, "error: formula F3 at byte 13\n"),
        ("p cnf 2 1\nx1 2", 3, "error: formula F4 at byte 14\n"),
        ("p cnf 268435456 0\n", 9, "error: limit L1 at byte 6\n"),
        (
            "p cnf 2 1\nx268435456 0\n",
            9,
            "error: limit L1 at byte 10\n",
        ),
    ],
}];

#[test]
fn refused_formulas_have_no_answer(rt: HostRuntime) {
    expect_all(&rt, &REFUSED);
}

/// A formula, and the prefix of its answer for which the port has room.
struct CutOff(&'static str, &'static str);

impl Case for CutOff {
    fn put_other(&self, alloc: Global, others: &mut String) -> Result<(), AllocError> {
        let task = Task {
            line: AFFINE,
            formula: self.0,
            second: "",
        };
        let bounds = Bounds {
            answer: self.1.len(),
            ..AMPLE
        };
        let end = End {
            status: 5,
            answer: self.1,
            message: "error: write fault\n",
            proof: b"",
        };
        put_other_in_pieces(alloc, others, task, bounds, end)
    }
}

static CUT_OFF: [CutOff; 2] = [
    CutOff(TWO, "s AFFINE 2\nt 1"),
    CutOff(TRIANGLE, "s AFFINE NON"),
];

#[test]
fn a_full_answer_port_has_a_prefix(rt: HostRuntime) {
    expect_all(&rt, &CUT_OFF);
}

static OF_INPUT: [&str; 3] = ["cxsat", "affine", "-"];

/// Whether the solutions of a formula on standard input are told.
fn is_told_of_input(alloc: Global) -> Result<bool, AllocError> {
    let ended = run_on_input(alloc, TWO, &OF_INPUT, AMPLE)?;
    Ok(answers(&ended, 0, TWO_TOLD))
}

#[test]
fn a_formula_comes_from_standard_input(rt: HostRuntime) {
    expect(&rt, is_told_of_input(rt.alloc()), &true);
}

static TASKS: [InTurn; 2] = [
    InTurn {
        task: Task {
            line: AFFINE,
            formula: TWO,
            second: "",
        },
        status: 0,
    },
    InTurn {
        task: Task {
            line: AFFINE,
            formula: TRIANGLE,
            second: "",
        },
        status: 0,
    },
];

#[test]
fn each_call_of_telling_solutions_fails_in_turn(rt: HostRuntime) {
    expect_all(&rt, &TASKS);
}

static LINES: [Lines; 1] = [Lines {
    texts: (TWO, ""),
    rows: &[
        (AFFINE, 17, 0),
        (AFFINE, 16, 9),
        (&["cxsat", "affine"], 17, 2),
        (&["cxsat", "affine", "f", "s"], 17, 2),
        (&["cxsat", "affine", "-f"], 17, 2),
        (&["cxsat", "affine", "f", "--proof", "l"], 17, 2),
        (&["cxsat", "affine", "g"], 17, 4),
        (&["cxsat", "affine", "-"], 17, 4),
        (&["cxsat", "affine", "--", "f"], 17, 0),
    ],
}];

#[test]
fn words_of_affine_are_refused_or_taken(rt: HostRuntime) {
    expect_all(&rt, &LINES);
}
