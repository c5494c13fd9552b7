//! Whether a log is marked, and how many times.
ghost use Rattle.std.specs.Prelude.{◌≡◌, ◌↔◌, ℕ, true, Some, filter_map, IfOk, MatchBool, MatchOption};
ghost use Rattle.std.specs.List.{range_with_len};
ghost use Rattle.cx_semantics.specs.Marked.{Marked, first_moment, mark_of};
ghost use Rattle.plain_tests.specs.Marking.{moment_of, are_literals, adds_literals, has_literals, have_literals, FitToTheEnd};

use crate::fitting::event_fits;
use crate::originals::begins_with_originals;
use crate::told::{Told, nothing_told, take_event};
use cx_base::{Formula, IntList, LogEvent, LogStep, MAX_VARIABLE};
use std::alloc::{AllocError, Global};

/// Whether each integer is the literal of a variable that there is.
fn are_literals(integers: &IntList) -> bool
    ensures { result ≡ are_literals integers.now }
{
    for integer in integers.as_slice() {
        if u64::from(MAX_VARIABLE) < integer.unsigned_abs() {
            return false;
        }
    }
    true
}

/// Whether the integers of what a step adds are literals.
fn adds_literals(step: &LogStep) -> bool
    ensures { result ≡ adds_literals step.now }
{
    match step {
        LogStep::Original(_, lits)
        | LogStep::OriginalParity(_, lits)
        | LogStep::Clause(_, lits)
        | LogStep::ClauseWithHints(_, lits, _)
        | LogStep::Parity(_, lits, _)
        | LogStep::ClauseOfParity(_, lits, _)
        | LogStep::ParityOfClauses(_, lits, _) => are_literals(lits),
        LogStep::Delete(_, _)
        | LogStep::DeleteParity(_, _)
        | LogStep::Final(_, _)
        | LogStep::FinalParity(_, _)
        | LogStep::MoveClauses(_)
        | LogStep::MoveParities(_) => true,
    }
}

/// Whether the integers of what an event adds are literals.
fn has_literals(event: &LogEvent) -> bool
    ensures { result ≡ has_literals event.now }
{
    match event {
        LogEvent::Step(step) => adds_literals(step),
        LogEvent::Conflict(_) => true,
    }
}

/// Whether the integers of what the steps add are literals, of variables that there are.
pub fn have_literals(events: &[LogEvent]) -> bool
    ensures { result ≡ have_literals events.now }
{
    for event in events {
        if !has_literals(event) {
            return false;
        }
    }
    true
}

/// How many marks there are, if these are 1, 2 and so on.
fn marks_in_order(events: &[LogEvent]) -> Option<u64>
    ensures { MatchOption result ((n : ℕ) → ¬ (filter_map mark_of events.now ≡ range_with_len 1 n)) (λ n. filter_map mark_of events.now ≡ range_with_len 1 n) }
{
    let mut count = 0u64;
    for event in events {
        match event {
            LogEvent::Conflict(number) => {
                if *number != count + 1 {
                    return None;
                }
                count += 1;
            }
            LogEvent::Step(_) => {}
        }
    }
    Some(count)
}

/// Takes in events as long as each fits what was told before it. Whether all do, and no clause is awaited then.
fn events_fit(
    alloc: Global,
    formula: &Formula,
    told: &mut Told,
    events: &[LogEvent],
) -> Result<bool, AllocError>
    requires literals { have_literals events.now ≡ true }
    requires first { told.old.reductions ≡ 0 }
    ensures { IfOk result (λ b. MatchBool b (FitToTheEnd formula.now (moment_of told.old) events.now) (¬ FitToTheEnd formula.now (moment_of told.old) events.now)) }
{
    for place in 0..events.len() {
        let event = &events[place];
        if !event_fits(alloc, formula, told, event)? {
            return Ok(false);
        }
        take_event(alloc, told, event)?;
    }
    Ok(!told.awaits)
}

/// Whether all events fit from the first one on, and the last mark has its clause.
fn all_fit(alloc: Global, formula: &Formula, events: &[LogEvent]) -> Result<bool, AllocError>
    requires literals { have_literals events.now ≡ true }
    ensures { IfOk result (λ b. MatchBool b (FitToTheEnd formula.now first_moment events.now) (¬ FitToTheEnd formula.now first_moment events.now)) }
{
    let mut told = nothing_told(alloc, formula);
    events_fit(alloc, formula, &mut told, events)
}

/// How many times a log is marked, if it is.
pub fn marks(
    alloc: Global,
    formula: &Formula,
    events: &[LogEvent],
) -> Result<Option<u64>, AllocError>
    requires literals { have_literals events.now ≡ true }
    ensures { IfOk result (λ o. (n : ℕ) → (o ≡ Some n) ↔ Marked formula.now events.now n) }
{
    let Some(count) = marks_in_order(events) else {
        return Ok(None);
    };
    if !begins_with_originals(formula, events) {
        return Ok(None);
    }
    if !all_fit(alloc, formula, events)? {
        return Ok(None);
    }
    Ok(Some(count))
}
