//! Proofs that are verified, and proofs that are refused at a step for a cause.
use crate::desk::{AMPLE, Task};
use crate::expecting::{
    CHECK, Case, End, Refusals, expect_all, put_other_in_pieces, put_other_refusal,
};
use crate::formulas::{EMPTY, SQUARE, TRIANGLE};
use std::alloc::{AllocError, Global};

/// A parity of two variables, both of which are assumed.
const ASSUMING: &str = "p cnf 2 2\nx1 2 0\na 1 2 0\n";

/// A formula, and a proof of it.
struct Verified(&'static str, &'static str);

static VERIFIED: [Verified; 13] = [
    Verified(TRIANGLE, "x 4 0 1 2 3 0\ni 1 0 4 0\n"),
    Verified("p cnf 2 1\nx0\n", "i 1 0 1 0\n"),
    Verified(SQUARE, "5 2 0 1 2 0\n6 0 5 3 4 0"),
    Verified(SQUARE, "5 2 0 1 2 0\n6 0 5 3 4 0\n"),
    Verified(SQUARE, "5 2 0 1 2 0\n6 0 5 3 4 0\nzzz\n"),
    Verified(SQUARE, "5 2 0 1 2 0\n5 d 5 0\n5 2 0 1 2 0\n6 0 5 3 4 0\n"),
    Verified(SQUARE, "9 d 77 0\n5 2 0 1 2 0\n6 0 5 3 4 0\n"),
    Verified(SQUARE, "5 2 0 1 1 2 3 0\n6 0 5 3 4 0\n"),
    Verified(
        SQUARE,
        "9223372036854775807 2 0 1 2 0\n6 0 9223372036854775807 3 4 0\n",
    ),
    Verified(
        SQUARE,
        "i x 1 1 2 0 1 4 0\ni x 2 -1 2 0 2 3 0\nx 3 0 1 2 0\ni 5 0 3 0\n",
    ),
    Verified(EMPTY, "2 0 1 0\n"),
    Verified(ASSUMING, "i 1 -1 -2 0 1 0\n"),
    Verified("p cnf 1 0\na 1 -1 0\n", ""),
];

impl Case for Verified {
    fn put_other(&self, alloc: Global, others: &mut String) -> Result<(), AllocError> {
        let task = Task {
            line: CHECK.line,
            formula: self.0,
            second: self.1,
        };
        let end = End {
            status: 0,
            answer: "s VERIFIED\n",
            message: "",
            proof: b"",
        };
        put_other_in_pieces(alloc, others, task, AMPLE, end)
    }
}

#[test]
fn proofs_are_verified(rt: HostRuntime) {
    expect_all(&rt, &VERIFIED);
}

static REFUSED: [Refusals; 1] = [Refusals {
    command: CHECK,
    texts: &[
        (ASSUMING, "i 1 1 2 0 1 0\n", "step 2 P11"),
        (TRIANGLE, "x 4 0 1 2 0\n", "step 1 P7"),
        (TRIANGLE, "x 4 1 2 0 1 1 0\n", "step 1 P7"),
        (TRIANGLE, "x d 1 0\nx 4 0 1 2 3 0\n", "step 2 P4"),
        (EMPTY, "", "step 1 P11"),
        (SQUARE, "", "step 1 P11"),
        (SQUARE, "5 d 1 0\n5 2 0 1 2 0\n", "step 2 P4"),
        (SQUARE, "5 2 0 5 0\n", "step 1 P4"),
        (SQUARE, "5 2 0 6 0\n6 0 5 0\n", "step 1 P4"),
        (SQUARE, "5 3 0 1 2 0\n", "step 1 P1"),
        (SQUARE, "4 2 0 1 2 0\n", "step 1 P2"),
        (SQUARE, "5 2 0 1 -2 0\n", "step 1 P3"),
        (SQUARE, "5 0 1 0\n", "step 1 P5"),
        (SQUARE, "5 2 0 1 0\n", "step 1 P6"),
        (SQUARE, "i x 1 1 2 0 1 0\n", "step 1 P8"),
        (
            "p cnf 13 0\n",
            "i x 1 1 2 3 4 5 6 7 8 9 10 11 12 13 0 0\n",
            "step 1 P9",
        ),
        (
            "p cnf 3 2\n1 2 0\n1 3 0\n",
            "i x 1 1 2 0 2 0\n",
            "step 1 P10",
        ),
        (SQUARE, "5 a 0\n", "step 1 P0 at byte 2"),
        (SQUARE, "5 2 0 1\n", "step 1 P0 at byte 8"),
        (SQUARE, "9223372036854775808 0 1 0\n", "step 1 P0 at byte 0"),
        (
            SQUARE,
            "5 2 0 1 2 0\n6 0 5 3 4 zzz\n",
            "step 2 P0 at byte 22",
        ),
    ],
}];

#[test]
fn proofs_are_refused_at_a_step(rt: HostRuntime) {
    expect_all(&rt, &REFUSED);
}

static GREAT: [Refusals; 1] = [Refusals {
    command: CHECK,
    texts: &[("p cnf 1 1\n16777216 0\n", "", "step 1 P11")],
}];

#[test]
fn a_variable_may_have_a_great_number(rt: HostRuntime) {
    expect_all(&rt, &GREAT);
}

/// Why `check` refuses a prefix of the proof of this many bytes.
fn cause_on_front(alloc: Global, len: usize) -> Result<String, AllocError> {
    match len {
        0 => format!(in alloc; "step 1 P11"),
        11 | 12 => format!(in alloc; "step 2 P11"),
        1..=10 => format!(in alloc; "step 1 P0 at byte {len}"),
        _ => format!(in alloc; "step 2 P0 at byte {len}"),
    }
}

/// Writes how the check of a prefix of the proof ends, if it is not refused where it ends.
fn put_other_front(
    alloc: Global,
    others: &mut String,
    proof: &str,
    len: usize,
) -> Result<(), AllocError> {
    let front = proof.get(..len).unwrap_or(proof);
    let cause = cause_on_front(alloc, len)?;
    put_other_refusal(alloc, others, &CHECK, (SQUARE, front, cause.as_str()))
}

/// A proof of 24 bytes, each prefix of which is checked.
struct Fronts(&'static str);

impl Case for Fronts {
    fn put_other(&self, alloc: Global, others: &mut String) -> Result<(), AllocError> {
        for len in 0..23 {
            put_other_front(alloc, others, self.0, len)?;
        }
        Ok(())
    }
}

#[test]
fn a_front_of_a_proof_is_refused_where_it_ends(rt: HostRuntime) {
    expect_all(&rt, &[Fronts("5 2 0 1 2 0\n6 0 5 3 4 0\n")]);
}
