//! Searches over drawn formulas that may stop at the first conflict: a settled formula is decided with no mark in the log, and one
//! that is refuted so is settled.
use crate::drawing::tight_formula;
use crate::expecting::expect_none;
use crate::searching::{SearchAnswer, searched};
use cx_base::{Formula, LogEvent};
use plain_tests::settled::is_settled;
use std::alloc::{AllocError, Global};
use xor_recover::recover;

/// How many formulas are settled, and how many are refuted so.
#[derive(Clone, Copy, Drop)]
struct SettledCounts {
    settled: u64,
    refuted: u64,
    others: u64,
}

fn has_mark(events: &[LogEvent]) -> bool {
    for event in events {
        if let LogEvent::Conflict(_) = event {
            return true;
        }
    }
    false
}

/// What a search with a budget of one conflict answers, and whether its log has a mark; none where it gives up.
fn answered(alloc: Global, formula: &Formula) -> Result<Option<(SearchAnswer, bool)>, AllocError> {
    match searched(alloc, formula, 1)? {
        Some((answer, log)) => Ok(Some((answer, has_mark(log.events())))),
        None => Ok(None),
    }
}

/// Whether an answer fits. Where no parity is recovered, only a settled formula is refuted.
fn fits(settled: bool, recovers: bool, answer: SearchAnswer, marked: bool) -> bool {
    if settled {
        return answer != SearchAnswer::Unknown && !marked;
    }
    recovers || answer != SearchAnswer::Refuted
}

/// Whether some parity is recovered.
fn recovers(alloc: Global, formula: &Formula) -> Result<bool, AllocError> {
    let finds = recover(alloc, formula)?.into_vec();
    Ok(!finds.is_empty())
}

/// Writes the seed of a formula whose answer does not fit, and counts the formula.
fn put_other(
    alloc: Global,
    others: &mut String,
    formula: &Formula,
    seed: u64,
    counts: &mut SettledCounts,
) -> Result<(), AllocError> {
    let settled = is_settled(alloc, formula)?;
    let recovers = recovers(alloc, formula)?;
    match answered(alloc, formula)? {
        Some((answer, marked)) if fits(settled, recovers, answer, marked) => {
            if !settled {
                counts.others = counts.others.saturating_add(1);
            } else if answer == SearchAnswer::Refuted {
                counts.refuted = counts.refuted.saturating_add(1);
            } else {
                counts.settled = counts.settled.saturating_add(1);
            }
        }
        answer => writeln!(others, "seed {seed}: {settled} {answer:?}")?,
    }
    Ok(())
}

/// As `put_other`, of the formula of a seed.
fn put_other_of(
    alloc: Global,
    others: &mut String,
    seed: u64,
    counts: &mut SettledCounts,
) -> Result<(), AllocError> {
    let formula = tight_formula(alloc, seed, 7, 7 + seed % 10)?;
    put_other(alloc, others, &formula, seed, counts)
}

fn put_others(alloc: Global, others: &mut String, seeds: u64) -> Result<SettledCounts, AllocError> {
    let mut counts = SettledCounts {
        settled: 0,
        refuted: 0,
        others: 0,
    };
    for seed in 1..=seeds {
        put_other_of(alloc, others, seed, &mut counts)?;
    }
    Ok(counts)
}

/// As `put_others`. Writes the counts too if they are small.
fn put_others_and_counts(alloc: Global, others: &mut String, seeds: u64) -> Result<(), AllocError> {
    let counts = put_others(alloc, others, seeds)?;
    if counts.settled > 3 && counts.refuted > 10 && counts.others > 10 {
        return Ok(());
    }
    let (settled, refuted) = (counts.settled, counts.refuted);
    writeln!(others, "{settled} {refuted} {}", counts.others)
}

#[test]
fn settled_formulas_are_decided_at_once(rt: HostRuntime) {
    let mut others = String::new(rt.alloc());
    let written = put_others_and_counts(rt.alloc(), &mut others, 100);
    expect_none(&rt, written, others.as_str());
}
