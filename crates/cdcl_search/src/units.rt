//! Unit clauses of the literals of level 0.
ghost use Rattle.std.specs.Prelude.{◌≡◌, ◌+◌, ◌<◌, [], length, OnOk, IsFalse};
ghost use Rattle.cx_base.specs.Assumptions.{assumes};
ghost use Rattle.cx_base.specs.Literals.{negate};
ghost use Rattle.cx_trail.specs.Sequence.{entry_at};
ghost use Rattle.search_policy.specs.Assuming.{KeepsAssumptions};
ghost use Rattle.cdcl_search.specs.Calls.{HasRowsToDelete, StandsOn};
ghost use Rattle.cdcl_search.specs.Logs.{HasNotFailed, Stands};
ghost use Rattle.cdcl_search.specs.Searching.{HasUnits};
ghost use Rattle.cdcl_search.specs.Units.{HasOther, IsNextUnit};

use crate::chains::{hints_of, tell_chained};
use crate::deleting::delete_rows;
use crate::logs::SearchLog;
use crate::source::{Hinted, clause_of_reason};
use crate::state::SearchState;
use crate::told_rows::ToldRows;
use conflict_learn::CoreFault;
use cx_base::{Lit, LogEvent};
use parity_engine::ParityEngine;
use search_policy::Assumptions;
use step_text::Sink;

/// Tells the unit clause of the next literal, which this clause implied and which contradicts no assumed one.
fn tell_unit<P: ParityEngine, L: Sink<Item = LogEvent>>(
    log: &mut SearchLog<L>,
    state: &mut SearchState,
    engine: &P,
    literal: Lit,
    implying: &Hinted,
    rows: &ToldRows,
) -> Result<(), CoreFault>
    requires stands { Stands P.ParityEngine L.Sink log.old state.old engine.now rows.now }
    requires going { HasNotFailed L.Sink log.old }
    requires level { state.old.trail.level ≡ 0 }
    requires next { IsNextUnit state.old rows.now literal implying.now.lits implying.now.id }
    requires apart { IsFalse (assumes log.old.formula.now.constraints (negate literal)) }
    ensures to_delete { HasRowsToDelete P.ParityEngine L.Sink log.old log.new state.new engine.now rows.now result }
    ensures units { OnOk result (length state.new.units.items ≡ length state.old.units.items + 1) }
    ensures same { HasOther state.old state.new }
{
    let id = state.next;
    let hints = hints_of(log.alloc, state, implying.lits.as_slice(), implying.id)?;
    tell_chained(log, id, &[literal], hints)?;
    state.units.push(id)?;
    state.next = id + 1;
    Ok(())
}

/// Tells the unit clause of the first literal that has none, where it contradicts no assumed one. Where a row implied it, the row's clause is told before it and deleted after it.
fn tell_next_unit<P: ParityEngine, L: Sink<Item = LogEvent>>(
    log: &mut SearchLog<L>,
    state: &mut SearchState,
    engine: &P,
) -> Result<(), CoreFault>
    requires stands { Stands P.ParityEngine L.Sink log.old state.old engine.now [] }
    requires going { HasNotFailed L.Sink log.old }
    requires level { state.old.trail.level ≡ 0 }
    requires more { length state.old.units.items < length state.old.trail.entries }
    requires apart { IsFalse (assumes log.old.formula.now.constraints (negate (entry_at state.old.trail.entries (length state.old.units.items)).literal)) }
    ensures stands_on { StandsOn P.ParityEngine L.Sink log.old log.new state.new engine.now [] result }
    ensures units { OnOk result (length state.new.units.items ≡ length state.old.units.items + 1) }
    ensures same { HasOther state.old state.new }
{
    let entry = state.trail.entry(state.units.len());
    let mut rows = ToldRows::new();
    let implying = clause_of_reason(log, state, engine, entry.reason, entry.literal, &mut rows)?;
    tell_unit(log, state, engine, entry.literal, &implying, &rows)?;
    delete_rows(log, state, engine, &rows)
}

/// Tells the unit clauses, with hints, of the literals of level 0 that have none yet, where the search is at level 0, up to the first one that contradicts an assumed literal.
pub(crate) fn tell_units<P: ParityEngine, L: Sink<Item = LogEvent>>(
    log: &mut SearchLog<L>,
    state: &mut SearchState,
    engine: &P,
    assumptions: &Assumptions,
) -> Result<(), CoreFault>
    requires stands { Stands P.ParityEngine L.Sink log.old state.old engine.now [] }
    requires going { HasNotFailed L.Sink log.old }
    requires keeps { KeepsAssumptions log.old.formula.now.constraints assumptions.now state.old.trail }
    ensures stands_on { StandsOn P.ParityEngine L.Sink log.old log.new state.new engine.now [] result }
    ensures units { OnOk result (HasUnits state.new assumptions.now) }
    ensures same { HasOther state.old state.new }
{
    if state.trail.level() > 0 {
        return Ok(());
    }
    while state.units.len() < assumptions.checked {
        tell_next_unit(log, state, engine)?;
    }
    Ok(())
}
