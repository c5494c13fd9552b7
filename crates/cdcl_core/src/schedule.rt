//! When the search restarts, and which learned clauses it deletes then.
ghost use Rattle.std.specs.Prelude.{◌≡◌, ◌<◌, ◌≤◌, ◌+◌, ◌*◌, ◌^◌, ◌↔◌, ℕ, [], length, IsTrue, IfSome, MatchOption, OnOk};
ghost use Rattle.search_policy.specs.Restarts.{IsDue};
ghost use Rattle.search_steps.specs.Schedule.{IsRestart, IsRestartAt};
ghost use Rattle.cdcl_search.specs.Calls.{SearchesOn};
ghost use Rattle.cdcl_search.specs.Logs.{HasNotFailed, Stands};
ghost use Rattle.cdcl_core.specs.Scheduling.{IsOnSchedule};

use crate::compacting::compact;
use crate::reducing::reduce;
use cdcl_search::SearchState;
use cdcl_search::logs::SearchLog;
use clause_arena::Arena;
use conflict_learn::CoreFault;
use cx_base::{ClauseRef, LogEvent, RefList};
use parity_engine::ParityEngine;
use search_policy::{Card, choose_removed_in_place, restart_due};
use std::alloc::{AllocError, Global};
use step_text::Sink;

/// What decides when the search restarts. No answer rests on it, but the log follows it.
#[derive(Drop)]
pub(crate) struct Schedule {
    /// Counted conflicts since the last restart.
    since: u64,
    restarts: u64,
}

/// What a reduction looks at in a clause, where it was learned. At level 0 no clause is held as a reason.
fn card_of(arena: &Arena, reference: ClauseRef) -> Option<Card> {
    if !arena.is_live(reference) || !arena.learned(reference) {
        return None;
    }
    Some(Card {
        reference,
        id: arena.id(reference),
        lbd: arena.lbd(reference),
        learned: true,
        is_reason: false,
    })
}

/// The cards of the learned clauses, of which there are so many, as a rule: so they take just the memory that they need. They are made
/// anew for each reduction, so none names a clause by an old reference.
fn cards_of(alloc: Global, arena: &Arena, learned: u64) -> Result<Vec<Card>, AllocError> {
    let mut cards = Vec::with_capacity(alloc, learned as usize)?;
    for place in 0..arena.len() {
        if let Some(card) = card_of(arena, ClauseRef::new(place as u32)) {
            cards.push(card)?;
        }
    }
    Ok(cards)
}

impl Schedule {
    /// No restart yet.
    pub fn new() -> Schedule
        ensures { result ≡ record { since = 0; restarts = 0 } }
    {
        Schedule {
            since: 0,
            restarts: 0,
        }
    }

    /// Counts a conflict.
    fn count(&mut self)
        requires { self.old.since < 2 ^ 63 }
        ensures { self.new ≡ record self.old { since = self.old.since + 1 } }
    {
        self.since += 1;
    }

    /// Whether a restart is due.
    fn is_due(&self) -> bool
        requires { self.now.restarts < 2 ^ 62 }
        ensures { IsTrue result ↔ IsDue self.now.since (self.now.restarts + 1) }
    {
        restart_due(self.since, self.restarts + 1)
    }

    /// Counts a restart.
    fn begin_again(&mut self)
        requires { self.old.restarts < 2 ^ 62 }
        ensures { self.new ≡ record { since = 0; restarts = self.old.restarts + 1 } }
    {
        self.since = 0;
        self.restarts += 1;
    }

    /// Counts a conflict, and a restart where that is due then: its number is the answer.
    pub fn next_restart(&mut self) -> Option<u64>
        requires { (count : ℕ) × (count ≤ 10 ^ 18) × IsOnSchedule self.old count }
        ensures on { (count : ℕ) → IsOnSchedule self.old count → IsOnSchedule self.new (count + 1) }
        ensures number { MatchOption result (self.new.restarts ≡ self.old.restarts) (λ r. (r ≡ self.old.restarts + 1) × (self.new.restarts ≡ r)) }
        ensures due { IfSome result (λ r. (count : ℕ) → IsOnSchedule self.old count → IsRestartAt r (count + 1)) }
    {
        self.count();
        if !self.is_due() {
            return None;
        }
        self.begin_again();
        Some(self.restarts)
    }
}

/// The learned clauses that a reduction removes.
fn choose(alloc: Global, state: &SearchState) -> Result<RefList, AllocError> {
    let cards = cards_of(alloc, &state.arena, state.learned)?;
    choose_removed_in_place(alloc, cards)
}

/// Whether there are so many learned clauses that some go: 2000, and 500 more for each reduction before.
fn are_many(state: &SearchState) -> bool
    ensures { IsTrue result → 2000 + 500 * state.now.reductions ≤ state.now.learned }
{
    state.learned >= 2000 && state.reductions <= (state.learned - 2000) / 500
}

/// Whether each literal of the trail has a unit clause, as at level 0.
fn has_units(state: &SearchState) -> bool
    ensures { IsTrue result → length state.now.units.items ≡ length state.now.trail.entries }
{
    state.units.len() == state.trail.len()
}

/// Deletes learned clauses at a restart where there are many, and closes the gaps that they leave.
pub(crate) fn reduce_where_many<P: ParityEngine, L: Sink<Item = LogEvent>>(
    log: &mut SearchLog<L>,
    state: &mut SearchState,
    engine: &P,
) -> Result<(), CoreFault>
    requires stands { Stands P.ParityEngine L.Sink log.old state.old engine.now [] }
    requires restart { IsRestart state.old.conflicts }
    requires going { HasNotFailed L.Sink log.old }
    ensures searches_on { SearchesOn P.ParityEngine L.Sink log.old state.old log.new state.new engine.now result }
    ensures level { state.new.trail.level ≡ state.old.trail.level }
    ensures variables { state.new.trail.variables ≡ state.old.trail.variables }
    ensures units { length state.old.units.items ≡ length state.old.trail.entries → OnOk result (length state.new.units.items ≡ length state.new.trail.entries) }
{
    if !has_units(state) || !are_many(state) {
        return Ok(());
    }
    let chosen = choose(log.alloc, state)?;
    reduce(log, state, engine, chosen.as_slice())?;
    compact(state)?;
    Ok(())
}
