//! Logs of drawn searches are marked once for each conflict, and the logs with one change are not.
use crate::drawing::{planted_formula, some_formula};
use crate::expecting::expect_none;
use crate::searching::{SearchAnswer, searched};
use cx_base::{Formula, IntList, LogEvent, LogStep};
use plain_tests::marked::{have_literals, marks};
use std::alloc::{AllocError, Global};

/// How many times the events are marked, if they are.
fn marks_of(
    alloc: Global,
    formula: &Formula,
    events: &[LogEvent],
) -> Result<Option<u64>, AllocError> {
    if !have_literals(events) {
        return Ok(None);
    }
    marks(alloc, formula, events)
}

/// The first clause that a conflict taught.
#[derive(Clone, Copy, Drop)]
struct LearnedClause<'e> {
    /// The place of its step, from 0.
    place: usize,
    id: u64,
    lits: &'e IntList,
}

fn first_learned(events: &[LogEvent]) -> Option<LearnedClause<'_>> {
    let mut awaits = false;
    for place in 0..events.len() {
        match &events[place] {
            LogEvent::Conflict(_) => awaits = true,
            LogEvent::Step(LogStep::Clause(id, lits) | LogStep::ClauseWithHints(id, lits, _))
                if awaits => {
                return Some(LearnedClause {
                    place,
                    id: *id,
                    lits,
                });
            }
            LogEvent::Step(_) => {}
        }
    }
    None
}

/// One change after the first learned clause, or before it.
#[derive(Clone, Copy, PartialEq, Eq, Debug, Drop)]
enum EventChange {
    Nothing,
    /// Another conflict teaches the clause again.
    SayTwice,
    /// The clause goes, and another conflict teaches it again.
    DeleteAndSay,
    /// The mark of the clause's conflict is left out, and the next ones have numbers one less.
    LeaveMarkOut,
    /// The mark is left out, and the next ones keep their numbers.
    LeaveNumberOut,
}

/// An id that no step of these logs has.
const SPARE: u64 = 1_000_000;

fn copy_of(alloc: Global, lits: &IntList) -> Result<IntList, AllocError> {
    Ok(IntList::from_vec(Vec::from_slice(alloc, lits.as_slice())?))
}

/// What follows the learned clause after the change.
fn put_again(
    alloc: Global,
    events: &mut Vec<LogEvent>,
    learned: LearnedClause<'_>,
    change: EventChange,
) -> Result<(), AllocError> {
    if change == EventChange::DeleteAndSay {
        let gone = copy_of(alloc, learned.lits)?;
        events.push(LogEvent::Step(LogStep::Delete(learned.id, gone)))?;
    }
    if change == EventChange::DeleteAndSay || change == EventChange::SayTwice {
        events.push(LogEvent::Conflict(2))?;
        let again = copy_of(alloc, learned.lits)?;
        events.push(LogEvent::Step(LogStep::Clause(SPARE, again)))?;
    }
    Ok(())
}

/// The number of a mark after the change, if it stays.
fn number(change: EventChange, number: u64) -> Option<u64> {
    match change {
        EventChange::Nothing => Some(number),
        EventChange::SayTwice | EventChange::DeleteAndSay if number > 1 => Some(
            number.saturating_add(1),
        ),
        EventChange::SayTwice | EventChange::DeleteAndSay => Some(number),
        EventChange::LeaveMarkOut if number > 1 => Some(number.saturating_sub(1)),
        EventChange::LeaveNumberOut if number > 1 => Some(number),
        EventChange::LeaveMarkOut | EventChange::LeaveNumberOut => None,
    }
}

/// The events after the change.
fn changed(
    alloc: Global,
    events: &[LogEvent],
    learned: LearnedClause<'_>,
    change: EventChange,
) -> Result<Vec<LogEvent>, AllocError> {
    let mut all = Vec::new(alloc);
    for place in 0..events.len() {
        match &events[place] {
            LogEvent::Conflict(mark) => {
                if let Some(mark) = number(change, *mark) {
                    all.push(LogEvent::Conflict(mark))?;
                }
            }
            event => all.push(event.clone()?)?,
        }
        if place == learned.place {
            put_again(alloc, &mut all, learned, change)?;
        }
    }
    Ok(all)
}

/// Whether this many marks of a changed log fit: the unchanged log has these marks; without its first mark it may have one less, if
/// the clause is a part of another one; and otherwise it is not marked.
fn fits(change: EventChange, marks: u64, changed: Option<u64>) -> bool {
    match change {
        EventChange::Nothing => changed == Some(marks),
        EventChange::LeaveMarkOut => changed == None || changed == Some(marks.saturating_sub(1)),
        EventChange::LeaveNumberOut => changed == None || marks < 2,
        EventChange::SayTwice | EventChange::DeleteAndSay => changed == None,
    }
}

/// How many logs were changed, and in how many the clause without its mark is refused.
#[derive(Clone, Copy, Drop)]
struct MarkedCounts {
    solved: u64,
    refuted: u64,
    unknown: u64,
    changed: u64,
    unmarked: u64,
}

const CHANGES: [EventChange; 5] = [
    EventChange::Nothing,
    EventChange::SayTwice,
    EventChange::DeleteAndSay,
    EventChange::LeaveMarkOut,
    EventChange::LeaveNumberOut,
];

/// The events of a search of the formula, which are marked this many times.
#[derive(Clone, Copy, Drop)]
struct MarkedLog<'e> {
    formula: &'e Formula,
    events: &'e [LogEvent],
    marks: u64,
}

/// How many times a log is marked after a change, if it is.
fn marks_after(
    alloc: Global,
    log: MarkedLog<'_>,
    learned: LearnedClause<'_>,
    change: EventChange,
) -> Result<Option<u64>, AllocError> {
    let events = changed(alloc, log.events, learned, change)?;
    marks_of(alloc, log.formula, &events)
}

/// Writes the changes after which the marks do not fit.
fn put_changed(
    alloc: Global,
    others: &mut String,
    log: MarkedLog<'_>,
    counts: &mut MarkedCounts,
) -> Result<(), AllocError> {
    let Some(learned) = first_learned(log.events) else {
        return Ok(());
    };
    counts.changed = counts.changed.saturating_add(1);
    for change in CHANGES {
        let found = marks_after(alloc, log, learned, change)?;
        if !fits(change, log.marks, found) {
            writeln!(others, "{change:?}: {} {found:?}", log.marks)?;
        }
        if change == EventChange::LeaveMarkOut && found == None {
            counts.unmarked = counts.unmarked.saturating_add(1);
        }
    }
    Ok(())
}

/// Whether this many marks fit the answer: fewer than the budget, or just as many where it is used up.
fn fits_budget(answer: SearchAnswer, marks: u64, budget: u64) -> bool {
    match answer {
        SearchAnswer::Solved | SearchAnswer::Refuted => marks < budget,
        SearchAnswer::Unknown => marks == budget,
    }
}

fn count(counts: &mut MarkedCounts, answer: SearchAnswer) {
    match answer {
        SearchAnswer::Solved => counts.solved = counts.solved.saturating_add(1),
        SearchAnswer::Refuted => counts.refuted = counts.refuted.saturating_add(1),
        SearchAnswer::Unknown => counts.unknown = counts.unknown.saturating_add(1),
    }
}

/// Looks at the log of a search, and then at changed ones.
fn put_searched(
    alloc: Global,
    others: &mut String,
    formula: &Formula,
    budget: u64,
    counts: &mut MarkedCounts,
) -> Result<(), AllocError> {
    let budget = budget.clamp(1, 100);
    let Some((answer, log)) = searched(alloc, formula, budget)? else {
        return writeln!(others, "no log");
    };
    let events = log.events();
    match marks_of(alloc, formula, events)? {
        Some(marks) if fits_budget(answer, marks, budget) => {
            count(counts, answer);
            let log = MarkedLog {
                formula,
                events,
                marks,
            };
            put_changed(alloc, others, log, counts)
        }
        marks => writeln!(others, "{answer:?} {budget} {marks:?}"),
    }
}

/// As `put_searched`, of two formulas from a seed.
fn put_drawn(
    alloc: Global,
    others: &mut String,
    seed: u64,
    budget: u64,
    counts: &mut MarkedCounts,
) -> Result<(), AllocError> {
    let formula = some_formula(alloc, seed, 9, 24 + seed % 3 * 8)?;
    put_searched(alloc, others, &formula, budget, counts)?;
    let formula = planted_formula(alloc, seed, 8)?;
    put_searched(alloc, others, &formula, budget, counts)
}

fn put_others(alloc: Global, others: &mut String, seeds: u64) -> Result<MarkedCounts, AllocError> {
    let mut counts = MarkedCounts {
        solved: 0,
        refuted: 0,
        unknown: 0,
        changed: 0,
        unmarked: 0,
    };
    for seed in 1..=seeds {
        let budget = if seed % 3 == 0 { 1 + seed % 2 } else { 100 };
        put_drawn(alloc, others, seed, budget, &mut counts)?;
    }
    Ok(counts)
}

/// Whether none of the counts is small.
fn are_many(counts: &MarkedCounts) -> bool {
    counts.solved > 3
        && counts.refuted > 3
        && counts.unknown > 3
        && counts.changed > 9
        && counts.unmarked > 1
}

/// As `put_others`. Writes the counts too if one is small.
fn put_others_and_counts(alloc: Global, others: &mut String, seeds: u64) -> Result<(), AllocError> {
    let counts = put_others(alloc, others, seeds)?;
    if are_many(&counts) {
        return Ok(());
    }
    let (solved, refuted, unknown) = (counts.solved, counts.refuted, counts.unknown);
    let (changed, unmarked) = (counts.changed, counts.unmarked);
    writeln!(others, "{solved} {refuted} {unknown} {changed} {unmarked}")
}

#[test]
fn logs_are_marked_once_a_conflict(rt: HostRuntime) {
    let mut others = String::new(rt.alloc());
    let written = put_others_and_counts(rt.alloc(), &mut others, 24);
    expect_none(&rt, written, others.as_str());
}
