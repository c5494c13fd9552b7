//! Proofs that are trimmed, and proofs that are refused at a step for a cause.
use crate::desk::{AMPLE, Bounds, Task};
use crate::expecting::{
    Case, End, Judging, Refusals, Run, expect_all, is_answered, put_other_in_pieces, run_task,
};
use crate::formulas::SQUARE;
use std::alloc::{AllocError, Global};

const LINE: &[&str] = &["cxsat", "trim", "f", "s", "p"];

const TRIM: Judging = Judging {
    line: LINE,
    status: 7,
    verdict: "s NOT TRIMMED",
};

/// Three parities that no values meet together, and a clause.
const TRIANGLE_AND_CLAUSE: &str = "p cnf 3 4\nx1 2 0\nx2 3 0\nx1 3 0\n1 2 3 0\n";

/// The four clauses over two variables, among constraints that no refutation needs.
const SQUARE_AMONG_OTHERS: &str =
    "p cnf 3 7\n1 3 0\nx1 3 0\n1 2 0\n-1 2 0\n-2 3 0\n1 -2 0\n-1 -2 0\n";

const SQUARE_PROOF: &str = "5 2 0 1 2 0\n6 0 5 3 4 0\n";

const SQUARE_CORE: &str = "c core clauses 1 2 3 4 0\nc core parities 0\ns TRIMMED\n";

/// A formula, a proof of it, what is left of that, and the lines of the core.
struct Trimming(&'static str, &'static str, &'static str, &'static str);

static TRIMMED: [Trimming; 8] = [
    Trimming(SQUARE, SQUARE_PROOF, SQUARE_PROOF, SQUARE_CORE),
    Trimming(
        SQUARE,
        "5 2 0 1 2 0\n7 2 1 0 1 0\n6 0 5 3 4 0\n",
        SQUARE_PROOF,
        SQUARE_CORE,
    ),
    Trimming(
        SQUARE,
        "c a comment\n5   2 0 1 2 0\n6 0 5 3 4 0\nzzz",
        SQUARE_PROOF,
        SQUARE_CORE,
    ),
    Trimming(
        SQUARE,
        "5 2 0 1 2 0\n5 d 1 0\n9 d 7 0\n6 0 5 3 4 0\n",
        "5 2 0 1 2 0\n5 d 1 0\n6 0 5 3 4 0\n",
        SQUARE_CORE,
    ),
    Trimming(
        TRIANGLE_AND_CLAUSE,
        "x 4 0 1 2 3 0\ni 2 0 4 0\n",
        "x 4 0 1 2 3 0\ni 2 0 4 0\n",
        "c core clauses 0\nc core parities 1 2 3 0\ns TRIMMED\n",
    ),
    Trimming(
        SQUARE_AMONG_OTHERS,
        "7 2 0 2 3 0\n8 3 0 7 4 0\n9 0 7 5 6 0\n",
        "7 2 0 2 3 0\n9 0 7 5 6 0\n",
        "c core clauses 2 3 5 6 0\nc core parities 0\ns TRIMMED\n",
    ),
    Trimming(
        "p cnf 1 1\n0\n",
        "2 0 1 0\n",
        "2 0 1 0\n",
        "c core clauses 1 0\nc core parities 0\ns TRIMMED\n",
    ),
    Trimming(
        "p cnf 1 0\na 1 -1 0\n",
        "",
        "",
        "c core clauses 0\nc core parities 0\ns TRIMMED\n",
    ),
];

/// Writes how the trimming of the proof ends, if it is not so.
fn put_untrimmed(
    alloc: Global,
    others: &mut String,
    case: &Trimming,
    proof: &str,
) -> Result<(), AllocError> {
    let task = Task {
        line: LINE,
        formula: case.0,
        second: proof,
    };
    let end = End {
        status: 0,
        answer: case.3,
        message: "",
        proof: case.2.as_bytes(),
    };
    put_other_in_pieces(alloc, others, task, AMPLE, end)
}

impl Case for Trimming {
    /// Trimmed again, what is left of the proof stays whole.
    fn put_other(&self, alloc: Global, others: &mut String) -> Result<(), AllocError> {
        put_untrimmed(alloc, others, self, self.1)?;
        put_untrimmed(alloc, others, self, self.2)
    }
}

#[test]
fn proofs_are_trimmed(rt: HostRuntime) {
    expect_all(&rt, &TRIMMED);
}

static REFUSED: [Refusals; 1] = [Refusals {
    command: TRIM,
    texts: &[
        (
            TRIANGLE_AND_CLAUSE,
            "x 4 0 1 2 3 0\ni 1 0 4 0\n",
            "step 2 P2",
        ),
        (SQUARE, "5 d 1 0\n5 2 0 1 2 0\n", "step 2 P4"),
        (SQUARE, "5 2 0 1 2 0\n", "step 2 P11"),
        (SQUARE, "5 2 0 1 2 0\nzzz\n", "step 2 P0 at byte 12"),
    ],
}];

#[test]
fn of_a_refused_proof_nothing_is_written(rt: HostRuntime) {
    expect_all(&rt, &REFUSED);
}

/// The lines of a core, and how many constraints of each kind were passed in the formula.
#[derive(Drop)]
struct Core<'a> {
    clauses: &'a str,
    parities: &'a str,
    clause: u64,
    parity: u64,
}

/// Whether a word of the line is this number.
fn tells(alloc: Global, line: &str, number: u64) -> Result<bool, AllocError> {
    let number = format!(in alloc; "{number}")?;
    Ok(line.split(' ').any(|word| word == number.as_str()))
}

impl Core<'_> {
    /// Whether this line of the formula belongs to the formula of the core.
    fn keeps(&mut self, alloc: Global, line: &str) -> Result<bool, AllocError> {
        if line.starts_with("p ") || line.starts_with("a ") {
            return Ok(true);
        }
        if line.starts_with("x") {
            self.parity = self.parity.saturating_add(1);
            return tells(alloc, self.parities, self.parity);
        }
        self.clause = self.clause.saturating_add(1);
        tells(alloc, self.clauses, self.clause)
    }
}

/// Writes the lines of the formula that belong to the formula of the core.
fn put_kept(
    alloc: Global,
    text: &mut String,
    core: &mut Core,
    formula: &str,
) -> Result<(), AllocError> {
    for line in formula.split('\n') {
        if core.keeps(alloc, line)? {
            text.push_str(line)?;
            text.push_str("\n")?;
        }
    }
    Ok(())
}

/// The formula of the core that an answer of `trim` tells.
fn core_of(alloc: Global, formula: &str, answer: &str) -> Result<String, AllocError> {
    let mut lines = answer.split('\n');
    let mut core = Core {
        clauses: lines.next().unwrap_or(""),
        parities: lines.next().unwrap_or(""),
        clause: 0,
        parity: 0,
    };
    let mut text = String::new(alloc);
    put_kept(alloc, &mut text, &mut core, formula)?;
    Ok(text)
}

/// As `core_of`, of an answer in bytes.
fn core_in(alloc: Global, formula: &str, answer: &[u8]) -> Result<String, AllocError> {
    let answer = String::from_utf8_lossy(alloc, answer)?;
    core_of(alloc, formula, answer.as_str())
}

/// The formula of the core that `trim` tells.
fn told_core(alloc: Global, formula: &str, second: &str) -> Result<String, AllocError> {
    let task = Task {
        line: LINE,
        formula,
        second,
    };
    let ended = run_task(alloc, task, AMPLE)?;
    core_in(alloc, formula, ended.answer())
}

/// Writes a formula, unless `solve` says that no values meet it.
fn put_if_met(alloc: Global, others: &mut String, formula: &str) -> Result<(), AllocError> {
    let task = Task {
        line: &["cxsat", "solve", "f"],
        formula,
        second: "",
    };
    let ended = run_task(alloc, task, AMPLE)?;
    if ended.status == 20 {
        return Ok(());
    }
    others.push_str(formula)
}

/// As `put_if_met`, of the formula of a core.
fn put_met(alloc: Global, others: &mut String, trimming: &Trimming) -> Result<(), AllocError> {
    let core = told_core(alloc, trimming.0, trimming.1)?;
    put_if_met(alloc, others, core.as_str())
}

/// Proofs, of each of which the core has no values.
#[derive(Drop)]
struct Cores(&'static [Trimming]);

impl Case for Cores {
    fn put_other(&self, alloc: Global, others: &mut String) -> Result<(), AllocError> {
        for trimming in self.0 {
            put_met(alloc, others, trimming)?;
        }
        Ok(())
    }
}

#[test]
fn cores_are_unsatisfiable_by_themselves(rt: HostRuntime) {
    expect_all(&rt, &[Cores(&TRIMMED)]);
}

static LONG: [Run; 1] = [Run {
    task: Task {
        line: LINE,
        formula: SQUARE,
        second: "5 2 0 1 2 0\n6 0 5 3 4 0\nthis follows the last step\n",
    },
    bounds: Bounds { limit: 40, ..AMPLE },
    end: End {
        status: 9,
        answer: "",
        message: "error: limit L2 second\n",
        proof: b"",
    },
}];

#[test]
fn a_long_proof_is_refused_before_it_is_trimmed(rt: HostRuntime) {
    expect_all(&rt, &LONG);
}

static CUT_OFF: [Run; 1] = [Run {
    task: Task {
        line: LINE,
        formula: SQUARE,
        second: SQUARE_PROOF,
    },
    bounds: Bounds { proof: 3, ..AMPLE },
    end: End {
        status: 5,
        answer: "",
        message: "error: write fault\n",
        proof: b"5 2",
    },
}];

#[test]
fn a_full_port_is_a_write_fault(rt: HostRuntime) {
    expect_all(&rt, &CUT_OFF);
}

/// A command line whose names for `trim` are not plain.
struct Unplain(&'static [&'static str]);

impl Case for Unplain {
    fn put_other(&self, alloc: Global, others: &mut String) -> Result<(), AllocError> {
        let task = Task {
            line: self.0,
            formula: SQUARE,
            second: SQUARE_PROOF,
        };
        if is_answered(alloc, task, AMPLE, 2, "")? {
            return Ok(());
        }
        writeln!(others, "{:?}", self.0)
    }
}

static UNPLAIN: [Unplain; 4] = [
    Unplain(&["cxsat", "trim", "f", "s"]),
    Unplain(&["cxsat", "trim", "f", "s", "s"]),
    Unplain(&["cxsat", "trim", "f", "s", "f"]),
    Unplain(&["cxsat", "trim", "f", "s", "p", "q"]),
];

#[test]
fn three_names_are_asked_for(rt: HostRuntime) {
    expect_all(&rt, &UNPLAIN);
}
