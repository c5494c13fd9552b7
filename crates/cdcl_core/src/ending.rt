//! The end of a log.
ghost use Rattle.std.specs.Prelude.{◌≡◌, ◌≤◌, IfOk};
ghost use Rattle.std.specs.List.{All};
ghost use Rattle.cdcl_search.specs.Logs.{HasNotFailed, told_in};
ghost use Rattle.cdcl_search.specs.Tells.{IsId};
ghost use Rattle.cdcl_core.specs.Concluding.{EndsLog, IsRefutable, IsRefutedBy, TellsEmpty, TellsEnd};

use crate::conflicts::LogEnd;
use cdcl_search::SearchState;
use cdcl_search::chains::{hints_of, tell_chained};
use cdcl_search::logs::SearchLog;
use cdcl_search::telling::tell_steps;
use conflict_learn::CoreFault;
use cx_base::{IntList, Lit, LitList, LogEvent};
use step_text::Sink;

/// Tells the steps that end the log. The answer is the assumed literals that fail.
pub(crate) fn tell_ending<L: Sink<Item = LogEvent>>(
    log: &mut SearchLog<L>,
    state: &SearchState,
    ending: LogEnd,
) -> Result<LitList, CoreFault>
    requires ends { EndsLog log.old.formula.now state.now (told_in L.Sink log.old) ending.failed ending.steps.items }
    requires going { HasNotFailed L.Sink log.old }
    ensures ends { TellsEnd L.Sink log.old state.now log.new result }
    ensures failed { IfOk result (λ failed. failed ≡ ending.failed) }
{
    let LogEnd { steps, failed } = ending;
    tell_steps(log, steps)?;
    Ok(failed)
}

/// Tells the empty clause, by a chain with these hints.
pub(crate) fn tell_empty<L: Sink<Item = LogEvent>>(
    log: &mut SearchLog<L>,
    state: &SearchState,
    hints: IntList,
) -> Result<(), CoreFault>
    requires shown { IsRefutedBy log.old.formula.now state.now hints (told_in L.Sink log.old) }
    requires going { HasNotFailed L.Sink log.old }
    ensures { TellsEmpty L.Sink log.old state.now log.new result }
{
    tell_chained(log, state.next, &[], hints)
}

/// Tells the empty clause. The clause of this id shows it, with the unit clauses that make its literals false.
pub(crate) fn refute<L: Sink<Item = LogEvent>>(
    log: &mut SearchLog<L>,
    state: &SearchState,
    lits: &[Lit],
    id: u64,
) -> Result<(), CoreFault>
    requires known { All (λ l. l.variable ≤ state.now.trail.variables) lits.now }
    requires units { All IsId state.now.units.items }
    requires id { IsId id }
    requires shown { IsRefutable log.old.formula.now state.now lits.now id (told_in L.Sink log.old) }
    requires going { HasNotFailed L.Sink log.old }
    ensures { TellsEmpty L.Sink log.old state.now log.new result }
{
    let hints = hints_of(log.alloc, state, lits, id)?;
    tell_empty(log, state, hints)
}
