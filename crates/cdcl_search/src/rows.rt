//! Rows as the log tells them.
ghost use Rattle.std.specs.Prelude.{◌≡◌, ◌≢◌, ◌≤◌, [], ◌∷◌, ◌++◌, length, None, IfOk, IfSome, OnOk, OnErr, IsFalse};
ghost use Rattle.std.specs.List.{AllByRecursion};
ghost use Rattle.cx_base.specs.Assumptions.{is_ending};
ghost use Rattle.cx_base.specs.Integers.{integers_of};
ghost use Rattle.cx_base.specs.declared.steps.LogStep.TheVariants.{ClauseOfParity};
ghost use Rattle.search_steps.specs.LogSteps.{row_events};
ghost use Rattle.cdcl_search.specs.Calls.{StandsOn, Tells};
ghost use Rattle.cdcl_search.specs.Explaining.{Explains};
ghost use Rattle.cdcl_search.specs.Logs.{HasNotFailed, IsRightBehind, Stands};
ghost use Rattle.cdcl_search.specs.Rows.{AreFew, AreNextIds, steps_in, sum_and_clause_events};
ghost use Rattle.cdcl_search.specs.Tells.{as_events, AreStepsOf, AreTellable, IsId, IsStep, IsTellable};
ghost use Rattle.cdcl_search.specs.Ties.{first_row_id};

use crate::integers::integers;
use crate::logs::SearchLog;
use crate::state::SearchState;
use crate::steps::{clause_of_sum, deletion_of_sum, sum};
use crate::telling::{tell_step, tell_steps, tell_unmade};
use crate::told_rows::ToldRows;
use conflict_learn::CoreFault;
use cx_base::{Formula, IdList, Lit, LitList, LogEvent, LogStep};
use parity_engine::ParityEngine;
use std::alloc::{AllocError, Global};
use step_text::{Sink, Unmade};
use xor_reason::ReasonOf;

/// The first id of the clauses of rows that are told for a clause that stays, which gets this next id.
///
/// They are deleted after that clause, so their ids are free again then.
pub fn first_id_of_rows(next: u64) -> u64
    requires { IsId next }
    ensures { result ≡ first_row_id next }
{
    next + 1
}

/// The ids of a row's sum and of its clause.
#[derive(Clone, Copy, Drop)]
pub struct RowIds {
    pub sum: u64,
    pub clause: u64,
}

/// The ids of the next row, after these and the next id of a clause that stays.
pub fn next_ids(formula: &Formula, next: u64, rows: &ToldRows) -> RowIds
    requires next { IsId next }
    requires few { AreFew formula.now.constraints next rows.now }
    ensures { AreNextIds (length formula.now.constraints) next (length rows.now) result }
{
    RowIds {
        sum: formula.len() as u64 + 1,
        clause: first_id_of_rows(next) + rows.len() as u64,
    }
}

/// The first steps of a row that is summed: its sum and its clause.
fn sum_and_clause(
    alloc: Global,
    ids: RowIds,
    parity: &LitList,
    sources: IdList,
    clause: &LitList,
) -> Result<Vec<LogStep>, AllocError>
    requires proper { IsId ids.sum × IsId ids.clause }
    requires sources { AllByRecursion IsId sources }
    ensures { IfOk result (λ s. AreStepsOf (sum_and_clause_events ids.sum (integers_of parity.now) sources ids.clause (integers_of clause.now)) s.items) }
{
    let parity = integers(alloc, parity.as_slice())?;
    let clause = integers(alloc, clause.as_slice())?;
    let mut steps = Vec::with_capacity(alloc, 3)?;
    steps.push_reserved(sum(ids.sum, parity, sources));
    steps.push_reserved(clause_of_sum(ids.clause, clause, ids.sum));
    Ok(steps)
}

/// The step of a row of one source: its clause.
fn clause_of_source(
    alloc: Global,
    id: u64,
    clause: &LitList,
    source: u64,
) -> Result<LogStep, AllocError>
    requires proper { IsId id × IsId source }
    ensures { IfOk result (IsStep (ClauseOfParity id (integers_of clause.now) source)) }
{
    let clause = integers(alloc, clause.as_slice())?;
    Ok(clause_of_sum(id, clause, source))
}

/// The one source of a row, where it has just one.
fn only_source(sources: &[u64]) -> Option<u64>
    ensures some { IfSome result (λ source. sources.now ≡ source ∷ []) }
    ensures none { result ≡ None → length sources.now ≢ 1 }
{
    match sources {
        [source] => Some(*source),
        _ => None,
    }
}

/// The steps of a row.
#[derive(Drop)]
pub(crate) enum RowSteps {
    /// Its clause, from its one source. No list is made for this one step.
    Alone(LogStep),
    /// Its sum, its clause, and the sum's deletion.
    Summed(Vec<LogStep>),
}

/// The steps of a row: its clause, from its one source; or its sum, its clause, and the sum's deletion.
pub(crate) fn row_steps(
    alloc: Global,
    ids: RowIds,
    parity: &LitList,
    sources: IdList,
    clause: &LitList,
) -> Result<RowSteps, AllocError>
    requires proper { IsId ids.sum × IsId ids.clause }
    requires sources { AllByRecursion IsId sources }
    ensures { IfOk result (λ s. AreStepsOf (row_events ids.sum (integers_of parity.now) sources ids.clause (integers_of clause.now)) (steps_in s)) }
{
    match only_source(sources.as_slice()) {
        Some(source) => {
            let step = clause_of_source(alloc, ids.clause, clause, source)?;
            Ok(RowSteps::Alone(step))
        }
        None => {
            let mut steps = sum_and_clause(alloc, ids, parity, sources, clause)?;
            steps.push(deletion_of_sum(alloc, ids.sum))?;
            Ok(RowSteps::Summed(steps))
        }
    }
}

/// The steps of a row, which are not made.
#[derive(Clone, Copy, Drop)]
struct UnmadeRow<'a> {
    ids: RowIds,
    parity: &'a LitList,
    sources: &'a IdList,
    clause: &'a LitList,
}

impl Unmade<LogEvent> for UnmadeRow<'_> {
    ghost use Rattle.cx_base.specs.Integers.{integers_of};
    ghost use Rattle.search_steps.specs.LogSteps.{row_events};

    ghost items = { λ r. row_events r.ids.sum (integers_of r.parity.now) r.sources.now r.ids.clause (integers_of r.clause.now) };
}

/// Tells steps that were made.
pub(crate) fn tell_made<L: Sink<Item = LogEvent>>(
    log: &mut SearchLog<L>,
    steps: RowSteps,
) -> Result<(), CoreFault>
    requires texts { AllByRecursion IsTellable (steps_in steps) }
    requires going { HasNotFailed L.Sink log.old }
    requires right { IsRightBehind L.Sink log.old (as_events (steps_in steps)) }
    ensures { Tells L.Sink log.old (as_events (steps_in steps)) result log.new }
{
    match steps {
        RowSteps::Alone(step) => tell_step(log, step),
        RowSteps::Summed(steps) => tell_steps(log, steps),
    }
}

/// Tells the steps of a row, which leave the log right. They are made only where the log does not take them unmade.
fn tell_row<L: Sink<Item = LogEvent>>(
    log: &mut SearchLog<L>,
    ids: RowIds,
    parity: &LitList,
    sources: IdList,
    clause: &LitList,
) -> Result<(), CoreFault>
    requires proper { IsId ids.sum × IsId ids.clause }
    requires sources { AllByRecursion IsId sources }
    requires events { AreTellable log.old.formula.now (row_events ids.sum (integers_of parity.now) sources ids.clause (integers_of clause.now)) }
    requires going { HasNotFailed L.Sink log.old }
    requires right { IsRightBehind L.Sink log.old (row_events ids.sum (integers_of parity.now) sources ids.clause (integers_of clause.now)) }
    ensures { Tells L.Sink log.old (row_events ids.sum (integers_of parity.now) sources ids.clause (integers_of clause.now)) result log.new }
{
    let row = UnmadeRow {
        ids,
        parity,
        sources: &sources,
        clause,
    };
    if tell_unmade(log, &row) {
        return Ok(());
    }
    let steps = row_steps(log.alloc, ids, parity, sources, clause)?;
    tell_made(log, steps)
}

/// A copy of these literals.
pub fn copy_of(alloc: Global, lits: &[Lit]) -> Result<LitList, AllocError>
    ensures { IfOk result (λ copy. copy ≡ lits.now) }
{
    Ok(LitList::from_vec(lits.to_vec(alloc)?))
}

/// Tells the clause of a row, which does not end the log, and adds it to those that were told.
///
/// `engine` is the engine that named the row.
pub fn tell_reason<P: ParityEngine, L: Sink<Item = LogEvent>>(
    log: &mut SearchLog<L>,
    state: &SearchState,
    engine: &P,
    reason: ReasonOf,
    rows: &mut ToldRows,
) -> Result<LitList, CoreFault>
    requires stands { Stands P.ParityEngine L.Sink log.old state.now engine.now rows.old }
    requires going { HasNotFailed L.Sink log.old }
    requires explains { Explains (P.state engine.now).parities state.now.trail reason }
    requires goes_on { IsFalse (is_ending log.old.formula.now.constraints reason.clause) }
    requires room { length rows.old ≤ log.old.formula.now.variables }
    ensures clause { IfOk result (λ c. c ≡ reason.clause) }
    ensures same { OnErr result (rows.new ≡ rows.old) }
    ensures rows { OnOk result (rows.new ≡ rows.old ++ reason.clause ∷ []) }
    ensures stands_on { StandsOn P.ParityEngine L.Sink log.old log.new state.now engine.now (rows.old ++ reason.clause ∷ []) result }
{
    let ids = next_ids(log.formula, state.next, rows);
    let ReasonOf {
        parity,
        sources,
        clause,
    } = reason;
    tell_row(log, ids, &parity, sources, &clause)?;
    rows.push(&clause);
    Ok(clause)
}
