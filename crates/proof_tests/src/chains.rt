//! The two searches for chains, beside each other over tables that a seed draws. Each chain is judged.
use crate::expecting::expect;
use crate::formulas::square;
use crate::numbers::{next, some_lits};
use cx_base::{Formula, IdList, LitList};
use proof_rules::{JudgeRefusal, Kind, LiteralSet, Live, judge_chain};
use rup_finder::{IndexedClauses, find};
use std::alloc::{AllocError, Global};

/// What a search gave.
#[derive(Clone, Copy, Drop)]
enum Outcome {
    /// A chain that the judge takes.
    Right,
    /// A chain that the judge refuses.
    Wrong,
    Nothing,
}

/// How many targets have a right chain from both searches, none from either, and anything else.
#[derive(Clone, Copy, Drop)]
struct Tally {
    chains: u64,
    nones: u64,
    faults: u64,
}

/// The ids as hints.
fn hints_of(alloc: Global, ids: &IdList) -> Result<Vec<i64>, AllocError> {
    let mut hints = Vec::new(alloc);
    for id in ids.as_slice() {
        hints.push((*id).min(1_000) as i64)?;
    }
    Ok(hints)
}

/// What is to be said of a chain that was judged.
fn outcome_of(judged: Result<(), JudgeRefusal>) -> Result<Outcome, AllocError> {
    match judged {
        Ok(()) => Ok(Outcome::Right),
        Err(JudgeRefusal::Wrong(_)) => Ok(Outcome::Wrong),
        Err(JudgeRefusal::Memory) => Err(AllocError),
    }
}

/// What the judge says of a chain for the target.
fn judged(
    alloc: Global,
    live: &Live,
    target: &LitList,
    ids: &IdList,
) -> Result<Outcome, AllocError> {
    let hints = hints_of(alloc, ids)?;
    let mut assumed = LiteralSet::new(alloc);
    outcome_of(judge_chain(&mut assumed, live, target, &hints))
}

/// What is to be said of what a search found.
fn searched(
    alloc: Global,
    live: &Live,
    target: &LitList,
    found: Option<IdList>,
) -> Result<Outcome, AllocError> {
    match found {
        Some(ids) => judged(alloc, live, target, &ids),
        None => Ok(Outcome::Nothing),
    }
}

/// What the search over all clauses gives.
fn plainly(alloc: Global, live: &Live, target: &LitList) -> Result<Outcome, AllocError> {
    let found = find(alloc, live, target.as_slice())?;
    searched(alloc, live, target, found)
}

/// What the search by watched literals gives.
fn watched(
    alloc: Global,
    clauses: &mut IndexedClauses,
    target: &LitList,
) -> Result<Outcome, AllocError> {
    let found = clauses.find(alloc, target.as_slice())?;
    searched(alloc, clauses.live(), target, found)
}

/// Counts a target.
fn count(tally: &mut Tally, plain: Outcome, watched: Outcome) {
    match (plain, watched) {
        (Outcome::Right, Outcome::Right) => tally.chains = tally.chains.saturating_add(1),
        (Outcome::Nothing, Outcome::Nothing) => tally.nones = tally.nones.saturating_add(1),
        _ => tally.faults = tally.faults.saturating_add(1),
    }
}

/// Puts a clause under an id, or takes the one under it out. An empty clause comes rarely, since all targets have
/// chains then.
fn change(
    alloc: Global,
    seed: &mut u64,
    vars: u32,
    clauses: &mut IndexedClauses,
    id: u64,
) -> Result<(), AllocError> {
    let lits = some_lits(alloc, seed, vars)?;
    let is_kept = !lits.as_slice().is_empty() || next(seed) % 8 == 0;
    if is_kept && next(seed) % 3 > 0 {
        return clauses.add_copy(Kind::Clauses, id, lits.as_slice());
    }
    clauses.remove(Kind::Clauses, id);
    Ok(())
}

/// Searches a chain for a target both ways, and counts what comes of it.
fn search(
    alloc: Global,
    clauses: &mut IndexedClauses,
    target: &LitList,
    tally: &mut Tally,
) -> Result<(), AllocError> {
    let plain = plainly(alloc, clauses.live(), target)?;
    let watched = watched(alloc, clauses, target)?;
    count(tally, plain, watched);
    Ok(())
}

/// Changes one clause of this many, and searches a chain for one target.
fn turn(
    alloc: Global,
    seed: &mut u64,
    (vars, ids): (u32, u64),
    clauses: &mut IndexedClauses,
    tally: &mut Tally,
) -> Result<(), AllocError> {
    let id = next(seed) % ids.max(1);
    change(alloc, seed, vars, clauses, id)?;
    let target = some_lits(alloc, seed, vars)?;
    search(alloc, clauses, &target, tally)
}

/// So many turns that an engine is worn out more than once, over this many variables and ids. The one over recent clauses
/// is full at little more than a thousand of them, which takes some 1,600 turns: so it is made anew five times.
fn turns(
    alloc: Global,
    size: (u32, u64),
    clauses: &mut IndexedClauses,
) -> Result<Tally, AllocError> {
    let mut seed = 7;
    let mut tally = Tally {
        chains: 0,
        nones: 0,
        faults: 0,
    };
    for _ in 0..9_000 {
        turn(alloc, &mut seed, size, clauses, &mut tally)?;
    }
    Ok(tally)
}

/// What comes of the turns, from no clause on, beside a formula.
fn tally_beside(alloc: Global, formula: &Formula, size: (u32, u64)) -> Result<Tally, AllocError> {
    let mut clauses = IndexedClauses::make(alloc, formula);
    turns(alloc, size, &mut clauses)
}

/// As `tally_beside`, of a formula whose clauses come among the others.
fn tally_of(alloc: Global, size: (u32, u64)) -> Result<Tally, AllocError> {
    let formula = square(alloc)?;
    tally_beside(alloc, &formula, size)
}

/// Writes the tally, unless the searches agree, and both answers come often.
fn put_fault(alloc: Global, faults: &mut String, size: (u32, u64)) -> Result<(), AllocError> {
    let tally = tally_of(alloc, size)?;
    if tally.faults == 0 && tally.chains > 500 && tally.nones > 500 {
        return Ok(());
    }
    let (vars, chains, nones) = (size.0, tally.chains, tally.nones);
    writeln!(
        faults,
        "of {vars} variables: {chains} chains, {nones} nones"
    )
}

/// The tallies of these sizes that are not as they should be.
fn faults(alloc: Global, sizes: &[(u32, u64)]) -> Result<String, AllocError> {
    let mut faults = String::new(alloc);
    for size in sizes {
        put_fault(alloc, &mut faults, *size)?;
    }
    Ok(faults)
}

#[test]
fn both_searches_agree(rt: HostRuntime) {
    let faults = faults(rt.alloc(), &[(5, 12), (9, 40), (30, 60)]);
    expect(&rt, faults, "");
}
