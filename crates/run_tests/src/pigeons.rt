//! Pigeons that have one hole too few: formulas that no values meet, and that take many conflicts.
use crate::desk::{AMPLE, Bounds, Ended, run};
use crate::expecting::expect;
use crate::flow::proves;
use std::alloc::{AllocError, Global};

/// Room for a log of some thousand conflicts, in large pieces.
pub(crate) const WIDE: Bounds = Bounds {
    proof: 20_000_000,
    piece: 65_536,
    ..AMPLE
};

/// The variable that says that a pigeon is in a hole, both from 1.
fn variable(holes: u8, pigeon: u8, hole: u8) -> u32 {
    u32::from(holes) * u32::from(pigeon.saturating_sub(1)) + u32::from(hole)
}

/// The clause that a pigeon is in some hole.
fn put_pigeon(text: &mut String, holes: u8, pigeon: u8) -> Result<(), AllocError> {
    for hole in 1..=holes {
        write!(text, "{} ", variable(holes, pigeon, hole))?;
    }
    text.push_str("0\n")
}

/// The clauses that a pigeon and each one before it are not in the same hole.
fn put_hole(text: &mut String, holes: u8, pigeon: u8, hole: u8) -> Result<(), AllocError> {
    let mine = variable(holes, pigeon, hole);
    for other in 1..pigeon {
        writeln!(text, "-{} -{mine} 0", variable(holes, other, hole))?;
    }
    Ok(())
}

/// The clauses of a pigeon and those before it in all holes.
fn put_holes(text: &mut String, holes: u8, pigeon: u8) -> Result<(), AllocError> {
    for hole in 1..=holes {
        put_hole(text, holes, pigeon, hole)?;
    }
    Ok(())
}

fn put_pigeons(text: &mut String, holes: u8) -> Result<(), AllocError> {
    for pigeon in 1..=holes.saturating_add(1) {
        put_pigeon(text, holes, pigeon)?;
        put_holes(text, holes, pigeon)?;
    }
    Ok(())
}

/// Each of the pigeons in some hole, and no two in one: a pigeon more than holes.
fn pigeonholes(alloc: Global, holes: u8) -> Result<String, AllocError> {
    let many = u32::from(holes);
    let (pigeons, pairs) = (many + 1, many * (many + 1) / 2);
    let (variables, clauses) = (many * pigeons, pigeons + many * pairs);
    let mut text = format!(in alloc; "p cnf {variables} {clauses}\n")?;
    put_pigeons(&mut text, holes)?;
    Ok(text)
}

/// How a command ends of which `f` is the formula of that many pigeons.
pub(crate) fn run_over_pigeons(
    alloc: Global,
    holes: u8,
    line: &[&str],
) -> Result<Ended, AllocError> {
    let formula = pigeonholes(alloc, holes)?;
    run(alloc, formula.as_str(), b"", line, WIDE)
}

/// Whether the last mark of a conflict in the log is this line.
fn ends_with_mark(log: &[u8], conflicts: &str) -> bool {
    let mut marks = log
        .windows(11)
        .enumerate()
        .filter(|at| at.1 == b"c conflict ".as_slice());
    match marks.next_back() {
        Some((place, _)) => log
            .get(place..)
            .is_some_and(|mark| mark.starts_with(conflicts.as_bytes())),
        None => false,
    }
}

/// Whether a search with a budget of 6,000 conflicts ended with a proof, or with its budget spent.
fn is_refuted_or_spent(alloc: Global, formula: &str, solved: &Ended) -> Result<bool, AllocError> {
    if solved.status == 20 {
        return proves(alloc, formula, solved.proof(), WIDE);
    }
    Ok(solved.status == 0 && ends_with_mark(solved.proof(), "c conflict 6000\n"))
}

static TO_A_BUDGET: [&str; 7] = ["cxsat", "solve", "f", "--proof", "l", "--conflicts", "6000"];

/// Whether the search ends so.
fn refutes_or_spends(alloc: Global, formula: &str) -> Result<bool, AllocError> {
    let solved = run(alloc, formula, b"", &TO_A_BUDGET, WIDE)?;
    is_refuted_or_spent(alloc, formula, &solved)
}

/// As `refutes_or_spends`, over this many holes.
fn refutes_or_spends_holes(alloc: Global, holes: u8) -> Result<bool, AllocError> {
    let formula = pigeonholes(alloc, holes)?;
    refutes_or_spends(alloc, formula.as_str())
}

#[test]
fn eight_pigeons_are_refuted_or_the_budget_is_spent(rt: HostRuntime) {
    expect(&rt, refutes_or_spends_holes(rt.alloc(), 7), &true);
}

static TO_A_WIDE_BUDGET: [&str; 5] = ["cxsat", "solve", "f", "--conflicts", "100000"];

/// The status of a search over this many holes, with a budget that is not spent.
fn status_over(alloc: Global, holes: u8) -> Result<u8, AllocError> {
    let solved = run_over_pigeons(alloc, holes, &TO_A_WIDE_BUDGET)?;
    Ok(solved.status)
}

#[test]
fn six_pigeons_are_refuted(rt: HostRuntime) {
    expect(&rt, status_over(rt.alloc(), 5), &20);
}
