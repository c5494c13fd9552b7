//! Logs of drawn searches, and the same logs with one change: the plain judge and the elaborator judge each log alike.
use crate::changing::{LineChange, changed};
use crate::drawing::{next, some_formula};
use crate::expecting::expect_none;
use crate::log_lines::{lines_of, steps_of};
use crate::searching::{SearchAnswer, searched};
use cx_base::{Formula, LogEvent};
use cx_semantics::Cause;
use fratx_elab::{Elab, Joined, elaborate};
use log_text::LogText;
use plain_tests::judged::{Judged, judge};
use proof_text::ListProof;
use std::alloc::{AllocError, Global};

/// How the elaborator judges the log of a text.
fn elaborated(alloc: Global, formula: &Formula, text: &[u8]) -> Result<Option<Judged>, AllocError> {
    if text.len() > u32::MAX as usize {
        return Ok(None);
    }
    let mut ends = Joined {
        source: LogText::new(text),
        sink: ListProof::make(alloc),
    };
    match elaborate(alloc, formula, &mut ends) {
        Ok(Elab::Done(number)) => Ok(Some(Judged::Right(number))),
        Ok(Elab::Refused(number, cause)) => Ok(Some(Judged::Refused(number, cause))),
        Err(_) => Ok(None),
    }
}

/// How many searches ended in each way, and how many changed logs were refused before their end.
#[derive(Clone, Copy, Drop)]
struct JudgedCounts {
    solved: u64,
    refuted: u64,
    unknown: u64,
    refused: u64,
}

/// The plain judgement of the log of a text, and how many steps it has, if the text has just steps.
fn judged(
    alloc: Global,
    formula: &Formula,
    text: &[u8],
) -> Result<Option<(Judged, u64)>, AllocError> {
    let Some(steps) = steps_of(alloc, text)? else {
        return Ok(None);
    };
    let judged = judge(alloc, formula, &steps)?;
    Ok(Some((judged, steps.len() as u64)))
}

/// Judges the log of a text in both ways, if the text has just steps. Writes the judgements where the two differ.
fn put_other(
    alloc: Global,
    others: &mut String,
    formula: &Formula,
    text: &[u8],
    counts: &mut JudgedCounts,
) -> Result<(), AllocError> {
    let Some((judged, count)) = judged(alloc, formula, text)? else {
        return Ok(());
    };
    match elaborated(alloc, formula, text)? {
        Some(other) if other == judged => {}
        other => return writeln!(others, "{judged:?} {other:?}"),
    }
    if let Judged::Refused(number, _) = judged {
        if number <= count {
            counts.refused = counts.refused.saturating_add(1);
        }
    }
    Ok(())
}

/// Whether a judgement of a log of this many steps fits the answer: the log of a search that refutes is right to its last step, or
/// at once where assumptions clash, and any other one is open.
fn fits(answer: SearchAnswer, judged: Judged, count: u64) -> bool {
    match judged {
        Judged::Right(number) => answer == SearchAnswer::Refuted
            && (number == count || number == 0),
        Judged::Refused(number, cause) => {
            answer != SearchAnswer::Refuted
                && number == count.saturating_add(1)
                && cause == Cause::NoEmptyClause
        }
    }
}

fn count(counts: &mut JudgedCounts, answer: SearchAnswer) {
    match answer {
        SearchAnswer::Solved => counts.solved = counts.solved.saturating_add(1),
        SearchAnswer::Refuted => counts.refuted = counts.refuted.saturating_add(1),
        SearchAnswer::Unknown => counts.unknown = counts.unknown.saturating_add(1),
    }
}

/// A change at some word of a line.
fn some_change(seed: &mut u64) -> LineChange {
    let place = 2 + next(seed) % 4;
    match next(seed) % 3 {
        0 => LineChange::LeaveLineOut,
        1 => LineChange::LeaveWordOut(place),
        _ => LineChange::NameNone(place),
    }
}

/// Changes a log at several places, one at a time, and judges what comes of it in both ways.
fn put_changed(
    alloc: Global,
    others: &mut String,
    formula: &Formula,
    text: &[u8],
    counts: &mut JudgedCounts,
) -> Result<(), AllocError> {
    let mut seed = text.len() as u64;
    let lines = 1 + text.len() as u64 / 12;
    for _ in 0..6 {
        let line = next(&mut seed) % lines.max(1);
        let text = changed(alloc, text, line, some_change(&mut seed))?;
        put_other(alloc, others, formula, &text, counts)?;
    }
    Ok(())
}

/// A formula that a seed draws, and what a search over it answered.
#[derive(Clone, Copy, Drop)]
struct DrawnSearch<'f> {
    formula: &'f Formula,
    seed: u64,
    answer: SearchAnswer,
}

/// Judges the text of a search's log, and then the text with changes. Writes the judgement if it does not fit the answer.
fn put_text(
    alloc: Global,
    others: &mut String,
    search: DrawnSearch<'_>,
    text: &[u8],
    counts: &mut JudgedCounts,
) -> Result<(), AllocError> {
    let DrawnSearch {
        formula,
        seed,
        answer,
    } = search;
    match judged(alloc, formula, text)? {
        Some((judged, count)) if fits(answer, judged, count) => {}
        Some((judged, _)) => writeln!(others, "seed {seed}: {answer:?} {judged:?}")?,
        None => return writeln!(others, "no steps from {seed}"),
    }
    count(counts, answer);
    put_other(alloc, others, formula, text, counts)?;
    put_changed(alloc, others, formula, text, counts)
}

/// As `put_text`, of the events of a search's log.
fn put_log(
    alloc: Global,
    others: &mut String,
    search: DrawnSearch<'_>,
    events: &[LogEvent],
    counts: &mut JudgedCounts,
) -> Result<(), AllocError> {
    let text = lines_of(alloc, events)?;
    put_text(alloc, others, search, text.as_bytes(), counts)
}

/// As `put_log`, of a search over a formula.
fn put_searched(
    alloc: Global,
    others: &mut String,
    formula: &Formula,
    seed: u64,
    counts: &mut JudgedCounts,
) -> Result<(), AllocError> {
    let budget = if seed % 2 == 0 { 1 } else { 100 };
    let Some((answer, log)) = searched(alloc, formula, budget)? else {
        return writeln!(others, "no log from {seed}");
    };
    let search = DrawnSearch {
        formula,
        seed,
        answer,
    };
    put_log(alloc, others, search, log.events(), counts)
}

/// As `put_searched`, of the formula of a seed.
fn put_searched_of(
    alloc: Global,
    others: &mut String,
    seed: u64,
    counts: &mut JudgedCounts,
) -> Result<(), AllocError> {
    let formula = some_formula(alloc, seed, 8, 20 + seed % 3 * 12)?;
    put_searched(alloc, others, &formula, seed, counts)
}

fn put_others(alloc: Global, others: &mut String, seeds: u64) -> Result<JudgedCounts, AllocError> {
    let mut counts = JudgedCounts {
        solved: 0,
        refuted: 0,
        unknown: 0,
        refused: 0,
    };
    for seed in 1..=seeds {
        put_searched_of(alloc, others, seed, &mut counts)?;
    }
    Ok(counts)
}

/// As `put_others`. Writes the counts too if they are small.
fn put_others_and_counts(alloc: Global, others: &mut String, seeds: u64) -> Result<(), AllocError> {
    let counts = put_others(alloc, others, seeds)?;
    if counts.solved > 3 && counts.refuted > 3 && counts.unknown > 1 && counts.refused > 12 {
        return Ok(());
    }
    let (solved, refuted, unknown) = (counts.solved, counts.refuted, counts.unknown);
    writeln!(others, "{solved} {refuted} {unknown} {}", counts.refused)
}

#[test]
fn logs_are_judged_alike(rt: HostRuntime) {
    let mut others = String::new(rt.alloc());
    let written = put_others_and_counts(rt.alloc(), &mut others, 24);
    expect_none(&rt, written, others.as_str());
}
