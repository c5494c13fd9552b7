//! Whether a log begins with the formula.
ghost use Rattle.std.specs.Prelude.{◌≡◌, ◌≤◌, ◌+◌, length, drop, MatchBool};
ghost use Rattle.cx_base.specs.Integers.{integer_of, integers_of};
ghost use Rattle.cx_base.specs.declared.steps.LogStep.TheVariants as step;
ghost use Rattle.cx_base.specs.declared.steps.LogEvent.TheVariants.{Step};
ghost use Rattle.cx_semantics.specs.Marked.{BeginsWithOriginals};
ghost use Rattle.plain_tests.specs.Marking.{Tells};

use cx_base::{ConstraintRef, Formula, Lit, LogEvent, LogStep};

/// The integer of a literal.
fn integer(lit: Lit) -> i64
    ensures { result ≡ integer_of lit }
{
    let number = i64::from(lit.var().number());
    if lit.is_negative() { -number } else { number }
}

/// Whether the integers are those of the literals.
fn are_of(integers: &[i64], lits: &[Lit]) -> bool
    ensures { MatchBool result (integers.now ≡ integers_of lits.now) (¬ (integers.now ≡ integers_of lits.now)) }
{
    match (integers, lits) {
        ([], []) => true,
        ([first, integers @ ..], [lit, lits @ ..]) => {
            *first == integer(*lit) && are_of(integers, lits)
        }
        _ => false,
    }
}

/// Whether the event tells this clause under this id.
fn tells_clause(event: &LogEvent, id: u64, lits: &[Lit]) -> bool
    ensures { MatchBool result (event.now ≡ Step (step.Original id (integers_of lits.now))) (¬ (event.now ≡ Step (step.Original id (integers_of lits.now)))) }
{
    match event {
        LogEvent::Step(LogStep::Original(other, integers)) => {
            *other == id && are_of(integers.as_slice(), lits)
        }
        _ => false,
    }
}

/// Whether the event tells this parity under this id.
fn tells_parity(event: &LogEvent, id: u64, lits: &[Lit]) -> bool
    ensures { MatchBool result (event.now ≡ Step (step.OriginalParity id (integers_of lits.now))) (¬ (event.now ≡ Step (step.OriginalParity id (integers_of lits.now)))) }
{
    match event {
        LogEvent::Step(LogStep::OriginalParity(other, integers)) => {
            *other == id && are_of(integers.as_slice(), lits)
        }
        _ => false,
    }
}

/// Whether the events begin with a step for each constraint from a place on, the clauses and the parities under ids from these on.
fn tell(formula: &Formula, place: usize, clauses: u64, parities: u64, events: &[LogEvent]) -> bool
    requires place { place ≤ length formula.now.constraints }
    requires few_clauses { clauses ≤ place + 1 }
    requires few_parities { parities ≤ place + 1 }
    ensures { MatchBool result (Tells clauses parities (drop place formula.now.constraints) events.now) (¬ Tells clauses parities (drop place formula.now.constraints) events.now) }
{
    if place == formula.len() {
        return true;
    }
    match (formula.item(place), events) {
        (ConstraintRef::Assume(_), _) => tell(formula, place + 1, clauses, parities, events),
        (ConstraintRef::Clause(lits), [first, events @ ..]) => {
            tells_clause(first, clauses, lits)
                && tell(formula, place + 1, clauses + 1, parities, events)
        }
        (ConstraintRef::Parity(lits), [first, events @ ..]) => {
            tells_parity(first, parities, lits)
                && tell(formula, place + 1, clauses, parities + 1, events)
        }
        (_, []) => false,
    }
}

/// Whether the events begin with a step for each clause and parity of the formula in order.
pub(crate) fn begins_with_originals(formula: &Formula, events: &[LogEvent]) -> bool
    ensures { MatchBool result (BeginsWithOriginals formula.now.constraints events.now) (¬ BeginsWithOriginals formula.now.constraints events.now) }
{
    tell(formula, 0, 1, 1, events)
}
