//! The commands one after another, each on a desk of its own.
ghost use Rattle.std.specs.Prelude.{◌≤◌};

use crate::desk::{AMPLE, Bounds, Ended, run};
use crate::elab::{SQUARE_LOG, SQUARE_LOG_WITH_IDLE_STEPS};
use crate::expecting::{PIECES, answers, expect, in_pieces};
use crate::formulas::{SQUARE, TRIANGLE, TRIANGLE_OF_CLAUSES};
use std::alloc::{AllocError, Global};

// Made outside of this repository: values of eight variables were drawn, then five parities of three variables, with the
// sign that these values meet, and twelve clauses of three literals that they meet. The sum of the first, second and
// fourth parity is one of variables 1, 6 and 7; the odd parity is its opposite. All 256 values were tried: three meet
// the planted formula, and none the others.

/// Parities and clauses that are met together.
const PLANTED: &str =
    "p cnf 8 17\nx-1 2 4 0\nx-4 5 7 0\nx1 4 6 0\nx-2 5 6 0\nx1 2 3 0\n-1 -8 6 0\n4 8 6 0\n8 -5 -2 0\n-3 6 7 0\n7 5 -6 0\n8 -7 5 0\n-6 1 4 0\n-7 3 4 0\n7 6 2 0\n4 -5 -7 0\n-6 -4 -3 0\n-7 8 -6 0\n";

/// The odd parity as it is.
const ODD: &str = "x1 6 7 0\n";

/// The odd parity, hidden in four clauses.
const HIDDEN: &str = "1 6 7 0\n1 -6 -7 0\n-1 6 -7 0\n-1 -6 7 0\n";

/// A circle of five variables, each unlike the next; the last step of it is hidden in clauses.
const CIRCLE: &str = "p cnf 5 6\nx1 2 0\nx2 3 0\nx3 4 0\nx4 5 0\n1 5 0\n-1 -5 0\n";

/// A refuted formula that uses two of its variables.
const SQUARE_AMONG_MANY: &str = "p cnf 2000000 4\n1 2 0\n-1 2 0\n1 -2 0\n-1 -2 0\n";

static SOLVE: [&str; 5] = ["cxsat", "solve", "f", "--proof", "l"];

static CHECK: [&str; 4] = ["cxsat", "check", "f", "s"];

static ELAB: [&str; 5] = ["cxsat", "elab", "f", "s", "p"];

static MODEL: [&str; 4] = ["cxsat", "model", "f", "s"];

/// Whether the check of this proof verifies it.
fn verifies(alloc: Global, formula: &str, proof: &[u8], bounds: Bounds) -> Result<bool, AllocError>
    requires { 1 ≤ bounds.piece }
{
    let checked = run(alloc, formula, proof, &CHECK, bounds)?;
    Ok(answers(&checked, 0, "s VERIFIED\n"))
}

/// Whether the log is elaborated, and the proof that is made of it verified.
pub(crate) fn proves(
    alloc: Global,
    formula: &str,
    log: &[u8],
    bounds: Bounds,
) -> Result<bool, AllocError>
    requires { 1 ≤ bounds.piece }
{
    let elaborated = run(alloc, formula, log, &ELAB, bounds)?;
    if !answers(&elaborated, 0, "s ELABORATED\n") {
        return Ok(false);
    }
    verifies(alloc, formula, elaborated.proof(), bounds)
}

fn solved(alloc: Global, formula: &str) -> Result<Ended, AllocError> {
    run(alloc, formula, b"", &SOLVE, AMPLE)
}

/// Whether the log becomes a proof in pieces of any length.
fn proves_in_pieces(alloc: Global, formula: &str, log: &str) -> Result<bool, AllocError> {
    for piece in &PIECES {
        if !proves(alloc, formula, log.as_bytes(), in_pieces(AMPLE, *piece))? {
            return Ok(false);
        }
    }
    Ok(true)
}

/// Whether the square's log becomes a proof, and whether its log with idle steps does.
fn both_prove(alloc: Global) -> Result<(bool, bool), AllocError> {
    let plain = proves_in_pieces(alloc, SQUARE, SQUARE_LOG)?;
    let with_idle_steps = proves_in_pieces(alloc, SQUARE, SQUARE_LOG_WITH_IDLE_STEPS)?;
    Ok((plain, with_idle_steps))
}

#[test]
fn a_log_becomes_a_proof(rt: HostRuntime) {
    expect(&rt, both_prove(rt.alloc()), &(true, true));
}

/// Whether the formula is refuted, and its log becomes a proof.
fn is_refuted(alloc: Global, formula: &str) -> Result<bool, AllocError> {
    let refuted = solved(alloc, formula)?;
    if refuted.status != 20 {
        return Ok(false);
    }
    proves(alloc, formula, refuted.proof(), AMPLE)
}

/// As `is_refuted`, of a formula of two parts.
fn is_refuted_with(alloc: Global, front: &str, rest: &str) -> Result<bool, AllocError> {
    let formula = format!(in alloc; "{front}{rest}")?;
    is_refuted(alloc, formula.as_str())
}

/// Which formulas are refuted.
fn all_refuted(alloc: Global) -> Result<[bool; 6], AllocError> {
    let triangle = is_refuted(alloc, TRIANGLE)? && is_refuted(alloc, TRIANGLE_OF_CLAUSES)?;
    let square = is_refuted(alloc, SQUARE)?;
    let circle = is_refuted(alloc, CIRCLE)?;
    let odd = is_refuted_with(alloc, PLANTED, ODD)?;
    let hidden = is_refuted_with(alloc, PLANTED, HIDDEN)?;
    let among_many = is_refuted(alloc, SQUARE_AMONG_MANY)?;
    Ok([triangle, square, circle, odd, hidden, among_many])
}

#[test]
fn refutations_are_verified(rt: HostRuntime) {
    expect(&rt, all_refuted(rt.alloc()), &[true; 6]);
}

/// The status of the judgement of an answer, if the search ended with values.
fn status_of_values(alloc: Global, formula: &str, met: &Ended) -> Result<u8, AllocError> {
    if met.status != 10 {
        return Ok(met.status);
    }
    let judged = run(alloc, formula, met.answer(), &MODEL, AMPLE)?;
    Ok(judged.status)
}

/// Whether the search finds values that are right.
fn is_met(alloc: Global, formula: &str) -> Result<bool, AllocError> {
    let met = solved(alloc, formula)?;
    Ok(status_of_values(alloc, formula, &met)? == 0)
}

#[test]
fn printed_values_are_right(rt: HostRuntime) {
    expect(&rt, is_met(rt.alloc(), PLANTED), &true);
}
