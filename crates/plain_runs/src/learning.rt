//! Logs of searches over drawn formulas: each learned clause is fresh, and each other clause that is derived is known.
ghost use Rattle.std.specs.Prelude.{◌≤◌, ◌^◌};

use crate::drawing::some_formula;
use crate::expecting::expect_none;
use cdcl_core::solve_core;
use cx_base::{Formula, IntList, Lit, LogEvent, LogStep, Var};
use gauss_incremental::ShortFirst;
use log_text::ListLog;
use plain_tests::fresh::is_fresh;
use proof_rules::{Kind, Live};
use std::alloc::{AllocError, Global};
use tidy_rules::relations::{has_both, lies_inside};

/// What a log told up to some event.
#[derive(Drop)]
struct LogPrefix<'f> {
    live: Live<'f>,
    /// Whether the clause that the last conflict taught is still to come.
    awaits: bool,
    learned: u64,
    units: u64,
}

/// The literal of an integer that is not zero.
pub(crate) fn lit(integer: i64) -> Lit {
    let number = integer.unsigned_abs().clamp(1, 1_000) as u32;
    Lit::new(Var::new(number), integer < 0)
}

fn lits(alloc: Global, integers: &IntList) -> Result<Vec<Lit>, AllocError> {
    let mut lits = Vec::new(alloc);
    for integer in integers.as_slice() {
        lits.push(lit(*integer))?;
    }
    Ok(lits)
}

/// Whether a live clause that is no tautology has all of these literals.
fn is_part(alloc: Global, live: &Live, lits: &[Lit]) -> Result<bool, AllocError> {
    for id in live.clause_ids(alloc)?.as_slice() {
        if let Some(clause) = live.clause(*id) {
            if lies_inside(lits, clause) && !has_both(clause) {
                return Ok(true);
            }
        }
    }
    Ok(false)
}

/// Whether a derived clause fits what was told before: a learned one is fresh, and another one that does not end the log is
/// a unit clause that is not, or a part of a live clause.
fn fits(
    alloc: Global,
    formula: &Formula,
    told: &LogPrefix,
    lits: &[Lit],
) -> Result<bool, AllocError> {
    let fresh = is_fresh(alloc, &told.live, lits)?;
    if told.awaits {
        return Ok(!lits.is_empty() && fresh);
    }
    Ok(formula.is_ending(lits) || (lits.len() == 1 && !fresh) || is_part(alloc, &told.live, lits)?)
}

/// Takes in a derived clause. Whether it fits.
fn derive(
    alloc: Global,
    formula: &Formula,
    told: &mut LogPrefix,
    id: u64,
    lits: &[Lit],
) -> Result<bool, AllocError> {
    let fits = fits(alloc, formula, told, lits)?;
    if told.awaits {
        told.learned = told.learned.saturating_add(1);
    } else if lits.len() == 1 {
        told.units = told.units.saturating_add(1);
    }
    told.awaits = false;
    told.live.add_copy(Kind::Clauses, id, lits)?;
    Ok(fits)
}

/// Takes in a step. Whether it fits.
fn step(
    alloc: Global,
    formula: &Formula,
    told: &mut LogPrefix,
    step: &LogStep,
) -> Result<bool, AllocError> {
    match step {
        LogStep::Clause(id, integers) | LogStep::ClauseWithHints(id, integers, _) => {
            let lits = lits(alloc, integers)?;
            return derive(alloc, formula, told, *id, &lits);
        }
        LogStep::Original(id, integers) | LogStep::ClauseOfParity(id, integers, _) => {
            let lits = lits(alloc, integers)?;
            told.live.add_copy(Kind::Clauses, *id, &lits)?;
        }
        LogStep::Delete(id, _) => told.live.remove(Kind::Clauses, *id),
        LogStep::MoveClauses(_) => return Ok(false),
        _ => {}
    }
    Ok(true)
}

/// Takes in an event. Whether it fits.
fn event(
    alloc: Global,
    formula: &Formula,
    told: &mut LogPrefix,
    event: &LogEvent,
) -> Result<bool, AllocError> {
    match event {
        LogEvent::Step(it) => step(alloc, formula, told, it),
        LogEvent::Conflict(_) => {
            let served = !told.awaits;
            told.awaits = true;
            Ok(served)
        }
    }
}

/// As `judged`, from what the log told before.
fn judged_after(
    alloc: Global,
    formula: &Formula,
    told: &mut LogPrefix,
    events: &[LogEvent],
) -> Result<Option<(u64, u64)>, AllocError> {
    for it in events {
        if !event(alloc, formula, told, it)? {
            return Ok(None);
        }
    }
    Ok(if told.awaits {
        None
    } else {
        Some((told.learned, told.units))
    })
}

/// How many clauses a log's search learned and how many unit clauses it told besides, if each event fits.
fn judged(
    alloc: Global,
    formula: &Formula,
    events: &[LogEvent],
) -> Result<Option<(u64, u64)>, AllocError> {
    let mut told = LogPrefix {
        live: Live::beside(alloc, formula),
        awaits: false,
        learned: 0,
        units: 0,
    };
    judged_after(alloc, formula, &mut told, events)
}

/// How many clauses a search over a formula learned and how many unit clauses it told besides, if each event fits.
fn searched(alloc: Global, formula: &Formula) -> Result<Option<(u64, u64)>, AllocError> {
    if formula.len() > u32::MAX as usize {
        return Ok(None);
    }
    let mut log = ListLog::make(alloc);
    if solve_core::<ShortFirst, ListLog>(alloc, formula, 100, &mut log).is_err() {
        return Ok(None);
    }
    judged(alloc, formula, log.events())
}

/// Searches over drawn formulas. Writes those whose log has an event that does not fit, and counts learned clauses and units.
fn put_others(alloc: Global, others: &mut String, seeds: u64) -> Result<(u64, u64), AllocError> {
    let (mut learned, mut units) = (0u64, 0u64);
    for seed in 1..=seeds {
        let formula = some_formula(alloc, seed, 9, 40)?;
        match searched(alloc, &formula)? {
            Some(counts) => {
                learned = learned.saturating_add(counts.0);
                units = units.saturating_add(counts.1);
            }
            None => writeln!(others, "seed {seed}")?,
        }
    }
    Ok((learned, units))
}

/// As `put_others`. Writes the counts too if they are small.
fn put_others_and_counts(alloc: Global, others: &mut String, seeds: u64) -> Result<(), AllocError> {
    let (learned, units) = put_others(alloc, others, seeds)?;
    if learned > 40 && units > 100 {
        return Ok(());
    }
    writeln!(others, "{learned} and {units}")
}

#[test]
fn learned_clauses_are_fresh_and_others_are_known(rt: HostRuntime) {
    let mut others = String::new(rt.alloc());
    let written = put_others_and_counts(rt.alloc(), &mut others, 80);
    expect_none(&rt, written, others.as_str());
}
