//! Worked proofs, and what is left of them when they are trimmed.
ghost use Rattle.std.specs.Prelude.{◌≡◌, IfOk, false, true};

use crate::expecting::expect;
use cnfx_reader::read_formula;
use cx_base::{Formula, ProofStep};
use cx_semantics::Cause;
use proof_text::{ProofText, StepRef};
use proof_trim::{KeptSteps, TrimOf, trim};
use std::alloc::{AllocError, Global};
use step_text::{SpareLists, StepSource};

/// What comes of a proof.
#[derive(Clone, Copy, Drop)]
enum Wanted {
    /// These steps are left, and the core has the clauses and the parities with these numbers.
    Left(&'static str, &'static [u64], &'static [u64]),
    /// The proof is refused at this step for this cause.
    Refused(u64, Cause),
}

/// A formula, a proof, and what comes of it.
type Row = (&'static str, &'static str, Wanted);

/// Puts a step after others.
fn push_step(text: &mut String, step: StepRef<'_>) -> Result<(), AllocError> {
    write!(text, "{step:?} ")
}

/// Puts the next step after others, or why there is none. Whether there may be more.
fn push_next<S: StepSource<Step = ProofStep>>(
    source: &mut S,
    spare: &mut SpareLists,
    text: &mut String,
) -> Result<bool, AllocError>
    requires { S.is_spent source.old ≡ false }
    ensures { IfOk result (λ more. more ≡ true → S.is_spent source.new ≡ false) }
{
    match source.next_step(spare) {
        Ok(Some(step)) => {
            push_step(text, StepRef::of(&step))?;
            Ok(true)
        }
        Ok(None) => Ok(false),
        Err(refusal) => {
            write!(text, "{refusal:?}")?;
            Ok(false)
        }
    }
}

/// The next steps, at most sixteen.
fn steps_of<S: StepSource<Step = ProofStep>>(
    alloc: Global,
    source: &mut S,
) -> Result<String, AllocError>
    requires { S.is_spent source.old ≡ false }
{
    let mut spare = SpareLists::new(alloc);
    let mut text = String::new(alloc);
    for _ in 0..16 {
        if !push_next(source, &mut spare, &mut text)? {
            break;
        }
    }
    Ok(text)
}

/// The steps that are left, at most sixteen.
fn steps_left(alloc: Global, steps: &mut KeptSteps) -> Result<String, AllocError> {
    let mut text = String::new(alloc);
    for _ in 0..16 {
        if !steps.advance() {
            return Ok(text);
        }
        push_step(&mut text, steps.step())?;
    }
    Ok(text)
}

fn left(
    alloc: Global,
    steps: &str,
    clauses: &[u64],
    parities: &[u64],
) -> Result<String, AllocError> {
    format!(in alloc; "{steps}, clauses {clauses:?}, parities {parities:?}")
}

fn refused(alloc: Global, step: u64, cause: Cause) -> Result<String, AllocError> {
    format!(in alloc; "step {step}: {cause:?}")
}

fn told_of(alloc: Global, answer: TrimOf) -> Result<String, AllocError> {
    match answer {
        TrimOf::Done(mut trimmed) => {
            let steps = steps_left(alloc, &mut trimmed.steps)?;
            left(
                alloc,
                steps.as_str(),
                trimmed.clauses.as_slice(),
                trimmed.parities.as_slice(),
            )
        }
        TrimOf::Refused(step, cause) => refused(alloc, step, cause),
    }
}

/// What comes of a proof of at most 4,096 bytes.
fn told_over(alloc: Global, formula: &Formula, proof: &[u8]) -> Result<String, AllocError> {
    if proof.len() > 4096 {
        return String::from_str(alloc, "too long");
    }
    match trim(alloc, formula, &mut ProofText::new(proof)) {
        Ok(answer) => told_of(alloc, answer),
        Err(fault) => format!(in alloc; "not trimmed: {fault:?}"),
    }
}

/// As `told_over`, over the formula of a text.
fn told(alloc: Global, formula: &str, proof: &str) -> Result<String, AllocError> {
    match &read_formula(alloc, formula.as_bytes()) {
        Ok(formula) => told_over(alloc, formula, proof.as_bytes()),
        Err(refusal) => format!(in alloc; "no formula: {refusal:?}"),
    }
}

/// What is told where steps of at most 4,096 bytes are left.
fn left_of(
    alloc: Global,
    steps: &[u8],
    clauses: &[u64],
    parities: &[u64],
) -> Result<String, AllocError> {
    if steps.len() > 4096 {
        return String::from_str(alloc, "the wanted steps are too long");
    }
    let steps = steps_of(alloc, &mut ProofText::new(steps))?;
    left(alloc, steps.as_str(), clauses, parities)
}

fn wanted_of(alloc: Global, wanted: &Wanted) -> Result<String, AllocError> {
    match *wanted {
        Wanted::Left(steps, clauses, parities) => {
            left_of(alloc, steps.as_bytes(), clauses, parities)
        }
        Wanted::Refused(step, cause) => refused(alloc, step, cause),
    }
}

/// Writes a proof and what comes of it, if that is not this.
fn put_unless(
    others: &mut String,
    proof: &str,
    told: &str,
    wanted: &str,
) -> Result<(), AllocError> {
    if told == wanted {
        return Ok(());
    }
    writeln!(others, "{proof}{told}")
}

/// Writes a proof and what comes of it, if something else is wanted.
fn put_other(
    alloc: Global,
    others: &mut String,
    formula: &str,
    proof: &str,
    wanted: &Wanted,
) -> Result<(), AllocError> {
    let told = told(alloc, formula, proof)?;
    let wanted = wanted_of(alloc, wanted)?;
    put_unless(others, proof, told.as_str(), wanted.as_str())
}

/// Goes over a row, and over the steps that are left of its proof: trimmed again they are all left.
fn put_others(alloc: Global, others: &mut String, row: &Row) -> Result<(), AllocError> {
    let (formula, proof, wanted) = *row;
    put_other(alloc, others, formula, proof, &wanted)?;
    if let Wanted::Left(steps, _, _) = wanted {
        put_other(alloc, others, formula, steps, &wanted)?;
    }
    Ok(())
}

/// The proofs that give something other than wanted.
fn others(alloc: Global, rows: &[Row]) -> Result<String, AllocError> {
    let mut others = String::new(alloc);
    for row in rows {
        put_others(alloc, &mut others, row)?;
    }
    Ok(others)
}

/// The four clauses of two variables.
const SQUARE: &str = "p cnf 2 4\n1 2 0\n-1 2 0\n1 -2 0\n-1 -2 0\n";

/// Three parities whose sum is the one that is never met, and a clause.
const TRIANGLE: &str = "p cnf 3 4\nx1 2 0\nx2 3 0\nx1 3 0\n1 2 3 0\n";

static ROWS: [Row; 10] = [
    // a step that no other one names
    (
        SQUARE,
        "5 2 0 1 2 0\n7 2 1 0 1 0\n6 0 5 3 4 0\n",
        Wanted::Left("5 2 0 1 2 0\n6 0 5 3 4 0\n", &[1, 2, 3, 4], &[]),
    ),
    // by parities alone
    (
        TRIANGLE,
        "x 4 0 1 2 3 0\ni 2 0 4 0\n",
        Wanted::Left("x 4 0 1 2 3 0\ni 2 0 4 0\n", &[], &[1, 2, 3]),
    ),
    // the id of the clause is live
    (
        TRIANGLE,
        "x 4 0 1 2 3 0\ni 1 0 4 0\n",
        Wanted::Refused(2, Cause::IdInUse),
    ),
    (
        SQUARE,
        "5 d 1 0\n5 2 0 1 2 0\n",
        Wanted::Refused(2, Cause::HintNotLive),
    ),
    // an id that is used again: its first clause is not needed, and then its deletion takes nothing out
    (
        SQUARE,
        "5 1 2 0 1 0\n5 d 5 0\n5 2 0 1 2 0\n6 0 5 3 4 0\n",
        Wanted::Left("5 2 0 1 2 0\n6 0 5 3 4 0\n", &[1, 2, 3, 4], &[]),
    ),
    // a deletion of which one id is live stays as it is, one of which none is live goes
    (
        SQUARE,
        "5 2 0 1 2 0\n9 d 2 77 0\n9 d 77 0\nx d 1 0\n6 0 5 3 4 0\n",
        Wanted::Left("5 2 0 1 2 0\n9 d 2 77 0\n6 0 5 3 4 0\n", &[1, 2, 3, 4], &[]),
    ),
    // a hint counts also where the chain ends before it; what comes after the step that ends the proof does not
    (
        SQUARE,
        "5 2 0 1 2 0\n7 2 1 0 1 0\n6 0 5 3 4 7 0\n8 1 0 5 3 0\n",
        Wanted::Left(
            "5 2 0 1 2 0\n7 2 1 0 1 0\n6 0 5 3 4 7 0\n",
            &[1, 2, 3, 4],
            &[],
        ),
    ),
    // the assumptions clash
    ("p cnf 1 0\na 1 -1 0\n", "", Wanted::Left("", &[], &[])),
    (
        "p cnf 2 1\n1 2 0\na 1 -1 0\n",
        "5 2 0 9 0\n",
        Wanted::Left("", &[], &[]),
    ),
    // a clause that ends the proof under the assumptions
    (
        "p cnf 2 2\nx1 2 0\na 1 2 0\n",
        "i 1 -1 -2 0 1 0\n",
        Wanted::Left("i 1 -1 -2 0 1 0\n", &[], &[1]),
    ),
];

#[test]
fn needed_steps_are_left(rt: HostRuntime) {
    expect(&rt, others(rt.alloc(), &ROWS), "");
}
