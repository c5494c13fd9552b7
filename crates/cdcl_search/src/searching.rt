//! The search between two conflicts.
ghost use Rattle.std.specs.Prelude.{◌≡◌, ◌≢◌, ◌≤◌, length, OnOk, IfOk, IsSome, IsTrue, IsFalse, MatchOption};
ghost use Rattle.search_policy.specs.Assuming.{KeepsAssumptions};
ghost use Rattle.search_steps.specs.Recovering.{SettledWithRecovered};
ghost use Rattle.cdcl_search.specs.Calls.{IsReady, SearchesOn};
ghost use Rattle.cdcl_search.specs.declared.propagation.Found.TheVariants.{Quiet};
ghost use Rattle.cdcl_search.specs.declared.searching.Reached.TheVariants as at;
ghost use Rattle.cdcl_search.specs.Searching.{HasUnits, OpensLevel, SearchReaches, SettlesAt};

use crate::deciding::decide;
use crate::logs::SearchLog;
use crate::propagation::{Found, propagate};
use crate::state::SearchState;
use crate::units::tell_units;
use conflict_learn::CoreFault;
use cx_base::LogEvent;
use parity_engine::ParityEngine;
use search_policy::Assumptions;
use step_text::Sink;

/// Where a search stops.
#[derive(Clone, Copy, Drop)]
pub enum Reached {
    /// At what propagation found.
    Found(Found),
    /// The literal at this place of the trail contradicts an assumed one, whatever propagation found.
    Failed(usize, Found),
}

/// Whether nothing more is forced, and nothing contradicts an assumed literal.
pub fn is_quiet(reached: &Reached) -> bool
    ensures quiet { IsTrue result → reached.now ≡ at.Found Quiet }
    ensures other { IsFalse result → reached.now ≢ at.Found Quiet }
{
    match reached {
        Reached::Found(Found::Quiet) => true,
        Reached::Found(_) => false,
        Reached::Failed(_, _) => false,
    }
}

/// Implies what the clauses and the parities force, and looks for a literal that contradicts an assumed one. At level 0 the units are told.
pub fn settle<P: ParityEngine, L: Sink<Item = LogEvent>>(
    log: &mut SearchLog<L>,
    state: &mut SearchState,
    engine: &mut P,
    assumptions: &mut Assumptions,
) -> Result<Reached, CoreFault>
    requires ready { IsReady P.ParityEngine L.Sink log.old state.old engine.old }
    requires keeps { KeepsAssumptions log.old.formula.now.constraints assumptions.old state.old.trail }
    ensures searches_on { SearchesOn P.ParityEngine L.Sink log.old state.old log.new state.new engine.new result }
    ensures keeps { KeepsAssumptions log.new.formula.now.constraints assumptions.new state.new.trail }
    ensures settles { IfOk result (λ r. SettlesAt log.new.formula.now.constraints state.new (P.state engine.new) assumptions.new r) }
    ensures units { OnOk result (HasUnits state.new assumptions.new) }
    ensures grows { length state.old.trail.entries ≤ length state.new.trail.entries }
    ensures level { state.new.trail.level ≡ state.old.trail.level }
{
    let found = propagate(log.formula, state, engine);
    let failed = assumptions.check(log.formula, &state.trail);
    tell_units(log, state, engine, assumptions)?;
    match failed {
        Some(place) => Ok(Reached::Failed(place, found)),
        None => Ok(Reached::Found(found)),
    }
}

/// Propagates, and opens a level by a decision where nothing is in conflict and a variable is not assigned. Otherwise it answers where the search is.
fn turn<P: ParityEngine, L: Sink<Item = LogEvent>>(
    log: &mut SearchLog<L>,
    state: &mut SearchState,
    engine: &mut P,
    assumptions: &mut Assumptions,
) -> Result<Option<Reached>, CoreFault>
    requires ready { IsReady P.ParityEngine L.Sink log.old state.old engine.old }
    requires keeps { KeepsAssumptions log.old.formula.now.constraints assumptions.old state.old.trail }
    ensures searches_on { SearchesOn P.ParityEngine L.Sink log.old state.old log.new state.new engine.new result }
    ensures keeps { KeepsAssumptions log.new.formula.now.constraints assumptions.new state.new.trail }
    ensures reaches { IfOk result (λ o. MatchOption o (OpensLevel state.old state.new (P.state engine.new)) (λ r. SearchReaches log.new.formula.now.constraints state.new (P.state engine.new) assumptions.new r)) }
    ensures settled { SettledWithRecovered log.new.formula.now → IfOk result (λ o. IsSome o × (state.new.trail.level ≡ state.old.trail.level)) }
{
    let reached = settle(log, state, engine, assumptions)?;
    if !is_quiet(&reached) {
        return Ok(Some(reached));
    }
    if decide(log.formula, state, engine, assumptions) {
        return Ok(None);
    }
    Ok(Some(reached))
}

/// Searches up to the next conflict, or until each variable is assigned, or until a literal contradicts an assumed one.
pub fn search_on<P: ParityEngine, L: Sink<Item = LogEvent>>(
    log: &mut SearchLog<L>,
    state: &mut SearchState,
    engine: &mut P,
    assumptions: &mut Assumptions,
) -> Result<Reached, CoreFault>
    requires ready { IsReady P.ParityEngine L.Sink log.old state.old engine.old }
    requires keeps { KeepsAssumptions log.old.formula.now.constraints assumptions.old state.old.trail }
    ensures searches_on { SearchesOn P.ParityEngine L.Sink log.old state.old log.new state.new engine.new result }
    ensures reaches { IfOk result (λ r. SearchReaches log.new.formula.now.constraints state.new (P.state engine.new) assumptions.new r) }
    ensures settled { SettledWithRecovered log.new.formula.now → OnOk result (state.new.trail.level ≡ state.old.trail.level) }
{
    loop {
        if let Some(reached) = turn(log, state, engine, assumptions)? {
            return Ok(reached);
        }
    }
}
