//! The clauses of conflicts, and of literals that contradict assumed ones.
ghost use Rattle.std.specs.Prelude.{◌≡◌, ◌≢◌, ℕ, ◌<◌, ◌≤◌, [], length, None, Some, IfOk, IsFalse};
ghost use Rattle.cx_base.specs.Assumptions.{is_ending};
ghost use Rattle.cx_trail.specs.Sequence.{entry_at};
ghost use Rattle.conflict_learn.specs.Faults.{fault_in};
ghost use Rattle.parity_engine.specs.Written.{AreRising};
ghost use Rattle.search_policy.specs.Assuming.{Contradicts, KeepsAssumptions};
ghost use Rattle.cdcl_search.specs.Finds.{PropagationFinds};
ghost use Rattle.cdcl_search.specs.Explaining.{Explains};
ghost use Rattle.cdcl_search.specs.Logs.{GoesOn, HasNotFailed, Stands};
ghost use Rattle.cdcl_search.specs.Rows.{AreFew};
ghost use Rattle.cdcl_search.specs.Sources.{HasIds};
ghost use Rattle.std.specs.List.{All};
ghost use Rattle.cdcl_search.specs.declared.propagation.Found.TheVariants.{Quiet};
ghost use Rattle.conflict_learn.specs.Learning.{HasReason};
ghost use Rattle.cdcl_core.specs.Concluding.{ConcludesOn, IsRowAgainst, IsToldRow, IsByClause, IsOfClause};
ghost use Rattle.cdcl_core.specs.Shortening.{EndsByRow};
ghost use Rattle.cdcl_core.specs.declared.conflicts.Conflict.{Conflict};
ghost use Rattle.cdcl_core.specs.declared.conflicts.Conclusion.TheVariants as conclusion;

use crate::shortening::{last_steps, shorten};
use cdcl_search::logs::SearchLog;
use cdcl_search::rows::{first_id_of_rows, tell_reason};
use cdcl_search::source::{Hinted, stored, unit};
use cdcl_search::{Found, SearchState, ToldRows};
use conflict_learn::CoreFault;
use cx_base::{Formula, Lit, LitList, LogEvent, LogStep, Row};
use cx_trail::Reason;
use parity_engine::ParityEngine;
use search_policy::Assumptions;
use std::alloc::{AllocError, Global};
use step_text::Sink;
use xor_reason::{ReasonOf, reason_clause};

/// A clause, with its id in the log, and the clauses of rows that were told for it.
#[derive(Drop)]
pub(crate) struct Conflict {
    pub lits: LitList,
    pub id: u64,
    pub rows: ToldRows,
}

/// Steps that end the log, and the assumed literals that fail then.
#[derive(Drop)]
pub(crate) struct LogEnd {
    pub steps: Vec<LogStep>,
    pub failed: LitList,
}

/// What a conflict comes to, or a literal that contradicts an assumed one.
#[derive(Drop)]
pub(crate) enum Conclusion {
    /// Each literal of this clause is false, but the one that contradicts an assumed one.
    Clause(Conflict),
    /// The clause of a row is an ending clause. These steps were not told yet.
    Ending(LogEnd),
}

/// The steps of a row whose clause is an ending clause, without what is known at level 0.
fn end_of_row(
    alloc: Global,
    formula: &Formula,
    state: &SearchState,
    reason: &ReasonOf,
) -> Result<LogEnd, AllocError>
    requires ids { HasIds state.now }
    requires few { AreFew formula.now.constraints state.now.next [] }
    requires units { length state.now.units.items ≤ length state.now.trail.entries }
    requires known { All (λ l. l.variable ≤ state.now.trail.variables) reason.now.clause }
    requires short { length reason.now.clause ≤ 268435455 }
    requires sources { (parities : ℕ) × (parities ≤ length formula.now.constraints) × AreRising 1 parities reason.now.sources }
    ensures { IfOk result (EndsByRow state.now (length formula.now.constraints) reason.now) }
{
    let short = shorten(alloc, state, reason.clause.as_slice())?;
    let id = first_id_of_rows(state.next);
    last_steps(
        alloc,
        formula,
        id,
        reason.sources.as_slice(),
        &short,
        Vec::new(alloc),
    )
}

/// The clause of a row, which is not an ending clause. It is told first.
pub(crate) fn told_row<P: ParityEngine, L: Sink<Item = LogEvent>>(
    log: &mut SearchLog<L>,
    state: &SearchState,
    engine: &P,
    reason: ReasonOf,
) -> Result<Conflict, CoreFault>
    requires stands { Stands P.ParityEngine L.Sink log.old state.now engine.now [] }
    requires explains { Explains (P.state engine.now).parities state.now.trail reason }
    requires goes_on { IsFalse (is_ending log.old.formula.now.constraints reason.clause) }
    requires going { HasNotFailed L.Sink log.old }
    ensures told { IfOk result (IsToldRow state.now reason.clause) }
    ensures stands { IfOk result (λ k. Stands P.ParityEngine L.Sink log.new state.now engine.now k.rows) }
    ensures log { GoesOn L.Sink log.old (fault_in result) log.new }
{
    let mut rows = ToldRows::new();
    match tell_reason(log, state, engine, reason, &mut rows) {
        Ok(lits) => Ok(Conflict {
            lits,
            id: first_id_of_rows(state.next),
            rows,
        }),
        Err(fault) => Err(fault),
    }
}

/// What comes of a row that is not met, or of one that implied a literal that contradicts an assumed one.
fn of_row<P: ParityEngine, L: Sink<Item = LogEvent>>(
    log: &mut SearchLog<L>,
    state: &SearchState,
    engine: &P,
    row: Row,
    kept: Option<Lit>,
) -> Result<Conclusion, CoreFault>
    requires stands { Stands P.ParityEngine L.Sink log.old state.now engine.now [] }
    requires row { IsRowAgainst state.now (P.state engine.now) row kept }
    requires going { HasNotFailed L.Sink log.old }
    ensures { ConcludesOn P.ParityEngine L.Sink log.old log.new state.now engine.now kept result }
{
    let reason = reason_clause(log.alloc, engine, row, kept, &state.trail)?;
    if log.formula.is_ending(reason.clause.as_slice()) {
        let ending = end_of_row(log.alloc, log.formula, state, &reason)?;
        return Ok(Conclusion::Ending(ending));
    }
    match told_row(log, state, engine, reason) {
        Ok(conflict) => Ok(Conclusion::Clause(conflict)),
        Err(fault) => Err(fault),
    }
}

/// What comes of a clause for which no row is told.
fn of_stored(hinted: Hinted) -> Conclusion
    ensures { (k : Conflict) × (result ≡ conclusion.Clause k) × (k.lits ≡ hinted.lits) × (k.id ≡ hinted.id) × (k.rows ≡ []) }
{
    Conclusion::Clause(Conflict {
        lits: hinted.lits,
        id: hinted.id,
        rows: ToldRows::new(),
    })
}

/// What a conflict comes to. The clause of a row is told first.
pub(crate) fn conflict_clause<P: ParityEngine, L: Sink<Item = LogEvent>>(
    log: &mut SearchLog<L>,
    state: &SearchState,
    engine: &P,
    found: Found,
) -> Result<Conclusion, CoreFault>
    requires stands { Stands P.ParityEngine L.Sink log.old state.now engine.now [] }
    requires found { PropagationFinds state.now (P.state engine.now) found }
    requires conflict { found ≢ Quiet }
    requires going { HasNotFailed L.Sink log.old }
    ensures concludes_on { ConcludesOn P.ParityEngine L.Sink log.old log.new state.now engine.now None result }
    ensures by_clause { IsOfClause found → IfOk result IsByClause }
{
    match found {
        Found::Clause(reference) => Ok(of_stored(stored(log.alloc, state, reference)?)),
        Found::Row(row) => of_row(log, state, engine, row, None),
        Found::Quiet => unreachable!(),
    }
}

/// What comes of the reason of a literal that contradicts an assumed one. The clause of a row is told first.
fn reason_against<P: ParityEngine, L: Sink<Item = LogEvent>>(
    log: &mut SearchLog<L>,
    state: &SearchState,
    engine: &P,
    reason: Reason,
    literal: Lit,
) -> Result<Conclusion, CoreFault>
    requires stands { Stands P.ParityEngine L.Sink log.old state.now engine.now [] }
    requires reason { HasReason state.now.trail literal reason }
    requires high { (p : ℕ) × (p < length state.now.trail.entries) × ((entry_at state.now.trail.entries p).literal ≡ literal) × (length state.now.units.items ≤ p) }
    requires going { HasNotFailed L.Sink log.old }
    ensures { ConcludesOn P.ParityEngine L.Sink log.old log.new state.now engine.now (Some literal) result }
{
    match reason {
        Reason::Clause(reference) => Ok(of_stored(stored(log.alloc, state, reference)?)),
        Reason::Row(row) => of_row(log, state, engine, row, Some(literal)),
        Reason::Decision => unreachable!(),
    }
}

/// What comes of the literal at a place, which contradicts an assumed one: the clause that implied it. That of a row is told first.
pub(crate) fn clause_against<P: ParityEngine, L: Sink<Item = LogEvent>>(
    log: &mut SearchLog<L>,
    state: &SearchState,
    engine: &P,
    assumptions: &Assumptions,
    place: usize,
) -> Result<Conclusion, CoreFault>
    requires stands { Stands P.ParityEngine L.Sink log.old state.now engine.now [] }
    requires place { place < length state.now.trail.entries }
    requires keeps { KeepsAssumptions log.old.formula.now.constraints assumptions.now state.now.trail }
    requires contradicts { Contradicts log.old.formula.now.constraints state.now.trail place }
    requires going { HasNotFailed L.Sink log.old }
    ensures { ConcludesOn P.ParityEngine L.Sink log.old log.new state.now engine.now (Some (entry_at state.now.trail.entries place).literal) result }
{
    if place < state.units.len() {
        return Ok(of_stored(unit(log.alloc, state, place)?));
    }
    let entry = state.trail.entry(place);
    reason_against(log, state, engine, entry.reason, entry.literal)
}
