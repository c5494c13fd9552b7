//! Deleting learned clauses.
ghost use Rattle.std.specs.Prelude.{◌≡◌, ◌+◌, ◌*◌, ◌≤◌, [], length, IsTrue, OnOk};
ghost use Rattle.search_steps.specs.Schedule.{IsRestart};
ghost use Rattle.cdcl_search.specs.Calls.{SearchesOn};
ghost use Rattle.cdcl_search.specs.Logs.{HasNotFailed, Stands};
ghost use Rattle.cdcl_core.specs.Reducing.{MayGo, IsReducing, ReducesOn};

use cdcl_search::SearchState;
use cdcl_search::logs::SearchLog;
use cdcl_search::steps::deletion;
use cdcl_search::telling::tell_step;
use conflict_learn::CoreFault;
use cx_base::{ClauseRef, LogEvent};
use parity_engine::ParityEngine;
use step_text::Sink;

/// Whether the clause of a reference was learned and may be deleted: enough others are left.
fn may_go(state: &SearchState, reference: ClauseRef) -> bool
    ensures { IsTrue result → MayGo state.now reference }
{
    state.arena.is_live(reference)
        && state.arena.learned(reference)
        && state.learned >= 751
        && state.reductions <= (state.learned - 751) / 250
}

/// Removes a clause from the arena where it may go, and tells its deletion. It stays attached.
fn remove_where_may<P: ParityEngine, L: Sink<Item = LogEvent>>(
    log: &mut SearchLog<L>,
    state: &mut SearchState,
    engine: &P,
    reference: ClauseRef,
) -> Result<(), CoreFault>
    requires { IsReducing P.ParityEngine L.Sink log.old state.old engine.now }
    ensures reduces_on { ReducesOn P.ParityEngine L.Sink log.old state.old log.new state.new engine.now result }
    ensures trail { state.new.trail ≡ state.old.trail }
{
    if !may_go(state, reference) {
        return Ok(());
    }
    let step = deletion(log.alloc, state.arena.id(reference));
    tell_step(log, step)?;
    state.arena.remove(reference);
    state.learned -= 1;
    Ok(())
}

/// Deletes those of these clauses that may go, at a restart where many are learned: at level 0, with a unit clause for each literal.
pub(crate) fn reduce<P: ParityEngine, L: Sink<Item = LogEvent>>(
    log: &mut SearchLog<L>,
    state: &mut SearchState,
    engine: &P,
    chosen: &[ClauseRef],
) -> Result<(), CoreFault>
    requires stands { Stands P.ParityEngine L.Sink log.old state.old engine.now [] }
    requires units { length state.old.units.items ≡ length state.old.trail.entries }
    requires many { 2000 + 500 * state.old.reductions ≤ state.old.learned }
    requires restart { IsRestart state.old.conflicts }
    requires going { HasNotFailed L.Sink log.old }
    ensures searches_on { SearchesOn P.ParityEngine L.Sink log.old state.old log.new state.new engine.now result }
    ensures trail { state.new.trail ≡ state.old.trail }
    ensures units { OnOk result (length state.new.units.items ≡ length state.new.trail.entries) }
{
    if state.reductions >= 1_000_000_000_000_000_000 {
        return Ok(());
    }
    state.reductions += 1;
    for reference in chosen {
        remove_where_may(log, state, engine, *reference)?;
    }
    state.watches.detach_all_removed(&state.arena);
    Ok(())
}
