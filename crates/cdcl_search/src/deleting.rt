//! Deleting the clauses of rows.
ghost use Rattle.std.specs.Prelude.{◌≡◌, ◌≤◌, [], ◌++◌, length, OnOk, IfOk};
ghost use Rattle.std.specs.List.{AllByRecursion};
ghost use Rattle.cdcl_search.specs.Calls.{StandsOn};
ghost use Rattle.cdcl_search.specs.Deleting.{deletions};
ghost use Rattle.cdcl_search.specs.Logs.{HasNotFailed, StandsBeforeDeletion};
ghost use Rattle.cdcl_search.specs.Tells.{as_events, AreIdsFrom, IsTellable, AreStepsOf};
ghost use Rattle.cdcl_search.specs.Ties.{row_ids};

use crate::logs::SearchLog;
use crate::state::SearchState;
use crate::steps::deletion;
use crate::telling::tell_steps;
use crate::told_rows::ToldRows;
use conflict_learn::CoreFault;
use cx_base::{LogEvent, LogStep};
use parity_engine::ParityEngine;
use std::alloc::{AllocError, Global};
use step_text::Sink;

/// Adds to these steps the deletions of this many clauses of rows, from this id on, the newest first.
pub fn put_deletions(
    alloc: Global,
    steps: &mut Vec<LogStep>,
    first: u64,
    count: usize,
) -> Result<(), AllocError>
    requires texts { AllByRecursion IsTellable steps.old.items }
    requires ids { AreIdsFrom first count }
    ensures { OnOk result (AreStepsOf (as_events steps.old.items ++ deletions (row_ids first count)) steps.new.items) }
{
    let mut left = count;
    while left > 0 {
        left -= 1;
        steps.push(deletion(alloc, first + left as u64))?;
    }
    Ok(())
}

/// The deletions of this many clauses of rows from this id on, the newest first.
fn deletions_of_rows(alloc: Global, first: u64, count: usize) -> Result<Vec<LogStep>, AllocError>
    requires { AreIdsFrom first count }
    ensures { IfOk result (λ s. AreStepsOf (deletions (row_ids first count)) s.items) }
{
    let mut steps = Vec::new(alloc);
    put_deletions(alloc, &mut steps, first, count)?;
    Ok(steps)
}

/// Deletes the clause of a row that was told for the last clause that stays, where there is one: its id follows that one's.
pub(crate) fn delete_rows<P: ParityEngine, L: Sink<Item = LogEvent>>(
    log: &mut SearchLog<L>,
    state: &SearchState,
    engine: &P,
    rows: &ToldRows,
) -> Result<(), CoreFault>
    requires stands { StandsBeforeDeletion P.ParityEngine L.Sink log.old state.now engine.now rows.now }
    requires few { length rows.now ≤ 1 }
    requires going { HasNotFailed L.Sink log.old }
    ensures { StandsOn P.ParityEngine L.Sink log.old log.new state.now engine.now [] result }
{
    let steps = deletions_of_rows(log.alloc, state.next, rows.len())?;
    tell_steps(log, steps)
}
