//! Worked logs: what is answered, and the proof that is written.
use crate::expecting::expect;
use crate::formulas::{repeated, square};
use cx_base::Formula;
use fratx_elab::{Elab, ElabFault, Joined, elaborate};
use log_text::LogText;
use proof_text::ListProof;
use std::alloc::{AllocError, Global};

/// The steps of a proof, if the log was to be answered so.
fn steps_or_answer(
    alloc: Global,
    elab: Elab,
    wanted: Elab,
    proof: &ListProof,
) -> Result<String, AllocError> {
    if elab != wanted {
        return format!(in alloc; "{elab:?}");
    }
    format!(in alloc; "{:?}", proof.steps())
}

/// Elaborates a log of at most 4,096 bytes that is to end at the step of this number. The steps that are written, if it does.
fn written(alloc: Global, formula: &Formula, log: &str, last: u64) -> Result<String, ElabFault> {
    let log = log.as_bytes();
    if log.len() > 4096 {
        return Ok(String::from_str(alloc, "too long")?);
    }
    let mut ends = Joined {
        source: LogText::new(log),
        sink: ListProof::make(alloc),
    };
    let elab = elaborate(alloc, formula, &mut ends)?;
    Ok(steps_or_answer(alloc, elab, Elab::Done(last), &ends.sink)?)
}

/// The four clauses as steps of a log.
const ORIGINALS: &str = "o 10 1 2 0\no 11 -1 2 0\no 12 1 -2 0\no 13 -1 -2 0\n";

/// The proof of the clause of 2 by the first two clauses, and of the empty one.
const STRAIGHT: &str =
    "[Clause(5, IntList { integers: [2] }, IntList { integers: [1, 2] }), Clause(6, IntList { integers: [] }, IntList { integers: [5, 3, 4] })]";

/// This proof with the hints of the first chain turned.
const TURNED: &str =
    "[Clause(5, IntList { integers: [2] }, IntList { integers: [2, 1] }), Clause(6, IntList { integers: [] }, IntList { integers: [5, 3, 4] })]";

/// The steps between the originals and the clause of 2, the hints of that clause, the number of the last step, and the
/// proofs that are right.
type Case = (&'static str, &'static str, u64, &'static [&'static str]);

fn is_one_of(text: &str, wanted: &[&str]) -> bool {
    for each in wanted {
        if text == *each {
            return true;
        }
    }
    false
}

/// Writes a log and what comes of it, if that is none of the proofs that are wanted.
fn put_other(
    alloc: Global,
    others: &mut String,
    formula: &Formula,
    case: &Case,
) -> Result<(), ElabFault> {
    let (between, hints, last, wanted) = *case;
    let log = format!(in alloc; "{ORIGINALS}{between}a 20 2 0 {hints}\na 21 0 l 20 12 13 0\n")?;
    let steps = written(alloc, formula, log.as_str(), last)?;
    if is_one_of(steps.as_str(), wanted) {
        return Ok(());
    }
    Ok(writeln!(others, "{log}{steps}")?)
}

fn put_others(
    alloc: Global,
    others: &mut String,
    formula: &Formula,
    cases: &[Case],
) -> Result<(), ElabFault> {
    for case in cases {
        put_other(alloc, others, formula, case)?;
    }
    Ok(())
}

/// The logs of which comes another proof than wanted.
fn others(alloc: Global, cases: &[Case]) -> Result<String, ElabFault> {
    let formula = square(alloc)?;
    let mut others = String::new(alloc);
    put_others(alloc, &mut others, &formula, cases)?;
    Ok(others)
}

static GIVEN: [Case; 5] = [
    ("", "l 10 11 0", 6, &[STRAIGHT]),
    ("f 99 500 0\nd 77 0\n", "l 10 11 0", 8, &[STRAIGHT]),
    ("d 13 0\no 13 -2 -1 -1 0\n", "l 10 11 0", 8, &[STRAIGHT]),
    ("r 10 11 11 10 0\nr x 0\n", "l 11 10 0", 8, &[STRAIGHT]),
    ("r 10 500 11 10 0\n", "l 500 10 0", 7, &[STRAIGHT]),
];

#[test]
fn a_proof_is_written(rt: HostRuntime) {
    expect(&rt, others(rt.alloc(), &GIVEN), "");
}

/// Without hints, and with wrong ones.
static SEARCHED: [Case; 3] = [
    ("", "", 6, &[STRAIGHT, TURNED]),
    ("", "l 10 10 99 0", 6, &[STRAIGHT, TURNED]),
    ("", "l 10 12 0", 6, &[STRAIGHT, TURNED]),
];

/// Either order of the hints that are found is right.
#[test]
fn a_chain_is_searched_for(rt: HostRuntime) {
    expect(&rt, others(rt.alloc(), &SEARCHED), "");
}

/// Clauses and parities of the formula in which others say the same: under their own numbers and under others, in other orders of
/// literals and with some of these twice.
const SAID_TWICE: &str = "o 2 2 1 2 0\no 30 2 1 0\no 3 -1 2 0\no 4 1 -2 0\no 5 -1 -2 0\n\
    o x 2 -2 -1 0\no x 9 2 1 1 1 0\na x 3 1 -1 0 l 2 9 0\na 20 2 0 l 2 3 0\na 22 2 0 l 30 3 0\na 21 0 l 20 4 5 0\n";

/// Each is named by the least number.
const NAMED_ONCE: &str = "[Parity(3, IntList { integers: [1, -1] }, IntList { integers: [1, 1] }), \
    Clause(6, IntList { integers: [2] }, IntList { integers: [1, 3] }), \
    Clause(7, IntList { integers: [2] }, IntList { integers: [1, 3] }), \
    Clause(8, IntList { integers: [] }, IntList { integers: [6, 4, 5] })]";

fn written_of_repeated(alloc: Global) -> Result<String, ElabFault> {
    let formula = repeated(alloc)?;
    written(alloc, &formula, SAID_TWICE, 11)
}

#[test]
fn the_least_number_names_an_original(rt: HostRuntime) {
    expect(&rt, written_of_repeated(rt.alloc()), NAMED_ONCE);
}
