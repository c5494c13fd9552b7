//! What the clauses and the parities force.
ghost use Rattle.std.specs.Prelude.{◌≡◌, ◌≢◌, ◌≤◌, [], List, Option, MatchOption, length};
ghost use Rattle.cx_base.specs.Problem.{Problem};
ghost use Rattle.cx_base.specs.declared.steps.LogEvent.{LogEvent};
ghost use Rattle.watch_lists.specs.Watching.{Fits};
ghost use Rattle.watch_lists.specs.Events.{Happens};
ghost use Rattle.parity_engine.specs.State.{State};
ghost use Rattle.parity_engine.specs.declared.state.Mood.TheVariants.{Broken};
ghost use Rattle.cdcl_search.specs.Calls.{IsUnbroken, StaysUnbroken};
ghost use Rattle.cdcl_search.specs.Ties.{SearchStands};
ghost use Rattle.cdcl_search.specs.Finds.{PropagationFinds, RowsSay, HasAll, HasSameCounts, IsClash};

use crate::state::SearchState;
use cx_base::{ClauseRef, Formula, Row};
use cx_trail::Reason;
use parity_engine::{ParityEngine, ParityEvent};
use watch_lists::Event;

/// What propagation comes to.
#[derive(Clone, Copy, Drop)]
pub enum Found {
    /// Nothing more is forced.
    Quiet,
    /// Each literal of this clause is false.
    Clause(ClauseRef),
    /// The values miss this row.
    Row(Row),
}

/// What the rows say.
#[derive(Clone, Copy, Drop)]
pub(crate) enum RowFinding {
    Quiet,
    /// A literal was implied, and is on the trail now.
    Implied,
    Conflict(Row),
}

/// Implies what the clauses force, up to a conflict.
fn follow_clauses(state: &mut SearchState) -> Event
    requires { Fits state.old.watches state.old.arena state.old.trail }
    ensures stands { (formula : Problem) (e : State) (told : Option (List LogEvent)) → SearchStands formula state.old e [] told → SearchStands formula state.new e [] told }
    ensures happens { Happens state.new.watches.attached state.new.arena state.new.trail result }
    ensures grows { length state.old.trail.entries ≤ length state.new.trail.entries }
    ensures given { state.new.given ≡ state.old.given }
    ensures same { HasSameCounts state.old state.new }
{
    let event = state.watches.next_event(&state.arena, &mut state.trail);
    // `len` tells the proof that the trail is sound.
    let _sound = state.trail.len();
    event
}

/// Gives the engine the literals of the trail that it does not have yet.
fn feed<P: ParityEngine>(formula: &Formula, state: &mut SearchState, engine: &mut P)
    requires { IsUnbroken formula.now state.old (P.state engine.old) }
    ensures stays { StaysUnbroken formula.now state.old (P.state engine.old) state.new (P.state engine.new) }
    ensures given { state.new ≡ record state.old { given = length state.old.trail.entries } }
{
    for place in state.given..state.trail.len() {
        let literal = state.trail.entry(place).literal;
        engine.assign(literal.var(), !literal.is_negative());
    }
    state.given = state.trail.len();
}

/// What follows from the parities. An implied literal goes on the trail.
fn follow_rows<P: ParityEngine>(
    formula: &Formula,
    state: &mut SearchState,
    engine: &mut P,
) -> RowFinding
    requires stands { (told : Option (List LogEvent)) × SearchStands formula.now state.old (P.state engine.old) [] told }
    requires unbroken { (P.state engine.old).mood ≢ Broken }
    requires all { HasAll state.old }
    ensures stands { (told : Option (List LogEvent)) → SearchStands formula.now state.old (P.state engine.old) [] told → SearchStands formula.now state.new (P.state engine.new) [] told }
    ensures says { RowsSay state.old state.new (P.state engine.new) result }
    ensures same { HasSameCounts state.old state.new }
{
    match engine.next_event() {
        ParityEvent::Quiet => RowFinding::Quiet,
        ParityEvent::Implied(literal, row) => {
            state.trail.imply(literal, Reason::Row(row));
            RowFinding::Implied
        }
        ParityEvent::Conflict(row) => RowFinding::Conflict(row),
    }
}

/// Puts each literal that the parities imply on the trail, until they imply nothing more. The row that the values miss, if any.
fn empty_rows<P: ParityEngine>(
    formula: &Formula,
    state: &mut SearchState,
    engine: &mut P,
) -> Option<Row>
    requires { IsUnbroken formula.now state.old (P.state engine.old) }
    ensures stands { (told : Option (List LogEvent)) → SearchStands formula.now state.old (P.state engine.old) [] told → SearchStands formula.now state.new (P.state engine.new) [] told }
    ensures ends { MatchOption result ((P.state engine.new).mood ≢ Broken) (λ row. HasAll state.new × IsClash (P.state engine.new) row) }
    ensures same { HasSameCounts state.old state.new }
    ensures grows { length state.old.trail.entries ≤ length state.new.trail.entries }
{
    'rows: loop {
        feed(formula, state, engine);
        match follow_rows(formula, state, engine) {
            RowFinding::Quiet => return None,
            RowFinding::Implied => {}
            RowFinding::Conflict(row) => return Some(row),
        }
    }
}

/// Implies what the clauses and the parities force, until both are quiet or one is in conflict.
pub(crate) fn propagate<P: ParityEngine>(
    formula: &Formula,
    state: &mut SearchState,
    engine: &mut P,
) -> Found
    requires { IsUnbroken formula.now state.old (P.state engine.old) }
    ensures stands { (told : Option (List LogEvent)) → SearchStands formula.now state.old (P.state engine.old) [] told → SearchStands formula.now state.new (P.state engine.new) [] told }
    ensures finds { PropagationFinds state.new (P.state engine.new) result }
    ensures same { HasSameCounts state.old state.new }
    ensures grows { length state.old.trail.entries ≤ length state.new.trail.entries }
{
    loop {
        match follow_clauses(state) {
            Event::Conflict(reference) => return Found::Clause(reference),
            Event::Quiet => {}
        }
        feed(formula, state, engine);
        match follow_rows(formula, state, engine) {
            RowFinding::Quiet => return Found::Quiet,
            // all that the rows imply goes on the trail before the clauses go on: otherwise reasons become long
            RowFinding::Implied => match empty_rows(formula, state, engine) {
                None => {}
                Some(row) => return Found::Row(row),
            },
            RowFinding::Conflict(row) => return Found::Row(row),
        }
    }
}
