//! Conflicts at level 0: the empty clause follows, whatever is assumed.
ghost use Rattle.std.specs.Prelude.{◌≡◌, ◌≢◌, pos, [], ◌∷◌, ◌++◌, filter, length, IfOk, OnOk, IsFalse, IsSome, IsTrue, None, Some};
ghost use Rattle.std.specs.List.{Contains};
ghost use Rattle.cx_base.specs.Assumptions.{is_ending};
ghost use Rattle.conflict_learn.specs.declared.learning.Resolved.{Resolved};
ghost use Rattle.conflict_learn.specs.Marks.{AreClear};
ghost use Rattle.search_steps.specs.Hints.{hints_from};
ghost use Rattle.cdcl_search.specs.Explaining.{Explains};
ghost use Rattle.cdcl_search.specs.Finds.{IsClash, PropagationFinds};
ghost use Rattle.cdcl_search.specs.Logs.{told_in};
ghost use Rattle.cdcl_search.specs.Tells.{IsId};
ghost use Rattle.cdcl_search.specs.declared.propagation.Found.TheVariants.{Quiet};
ghost use Rattle.cdcl_search.specs.declared.propagation.Found.TheVariants as found;
ghost use Rattle.xor_reason.specs.Reasons.{IsReason};
ghost use Rattle.cdcl_core.specs.Analysing.{CanAnalyse, IsAtZero, IsFirstOf, TellsRefutation};
ghost use Rattle.cdcl_core.specs.Concluding.{EndsByHints, IsConflictClause, IsTold, TellsEnd};
ghost use Rattle.cdcl_core.specs.Failing.{IsRefuted};
ghost use Rattle.cdcl_core.specs.Refuting.{is_told};

use crate::analyser::Analyser;
use crate::conflicts::{Conclusion, Conflict, conflict_clause, told_row};
use crate::ending::{tell_empty, tell_ending};
use crate::ending_rows::{EndingRow, LevelZero};
use crate::learning::{hints_of_lesson, hints_of_resolved};
use crate::level_zero::{NOT_TOLD, trace_all};
use crate::refuted_rows::end_of_refuted;
use cdcl_search::logs::SearchLog;
use cdcl_search::{Found, SearchState, ToldRows};
use conflict_learn::{CoreFault, Marks, Resolved};
use cx_base::{ClauseRef, IntList, LitList, LogEvent, Row};
use parity_engine::ParityEngine;
use std::alloc::{AllocError, Global};
use step_text::Sink;
use xor_reason::{ReasonOf, reason_clause};

/// Whether propagation found a conflict at level 0.
pub(crate) fn is_refuted(state: &SearchState, found: &Found) -> bool
    ensures refuted { IsTrue result → IsRefuted state.now.trail found.now }
    ensures other { IsFalse result → ¬ IsRefuted state.now.trail found.now }
{
    match found {
        Found::Quiet => false,
        Found::Clause(_) => state.trail.level() == 0,
        Found::Row(_) => state.trail.level() == 0,
    }
}

/// Those whose clauses were told.
fn told_ones(alloc: Global, resolved: &[Resolved]) -> Result<Vec<Resolved>, AllocError>
    ensures { IfOk result (λ told. told.items ≡ filter is_told resolved.now) }
{
    let mut told = Vec::with_capacity(alloc, resolved.len())?;
    for one in resolved {
        if one.id != NOT_TOLD {
            told.push(*one)?;
        }
    }
    Ok(told)
}

/// The hints of a conflict beside a row whose clause is not told: the ids of the resolved clauses that were, the last one's first, and then its own.
fn hints_of_told(alloc: Global, resolved: &[Resolved], conflict: u64) -> Result<IntList, AllocError>
    requires ids { (r : Resolved) → Contains (filter is_told resolved.now) r → IsId r.id }
    requires conflict { IsId conflict }
    ensures { IfOk result (λ hints. hints ≡ hints_from (filter is_told resolved.now) ++ pos conflict ∷ []) }
{
    let told = told_ones(alloc, resolved)?;
    hints_of_lesson(alloc, &told, conflict)
}

/// The reason of a row that is given.
fn reason_of(first: &Option<EndingRow>) -> &ReasonOf
    requires { (row : EndingRow) × (first.now ≡ Some row) }
    ensures { (row : EndingRow) → first.now ≡ Some row → result.now ≡ row.reason }
{
    match first {
        Some(row) => &row.reason,
        None => unreachable!(),
    }
}

impl<P: ParityEngine, L: Sink<Item = LogEvent>> Analyser<'_, '_, P, L> {
    /// Ends the log by a clause that is false at level 0, where no row's clause would end it before.
    fn refute_told(
        &mut self,
        conflict: &mut Conflict,
        first: &Option<EndingRow>,
    ) -> Result<LitList, CoreFault>
        requires at { IsAtZero P.ParityEngine L.Sink self.old conflict.old.rows }
        requires conflict { IsConflictClause self.old.state.now conflict.old.rows conflict.old.lits conflict.old.id }
        requires told { IsTold conflict.old }
        requires first { IsFirstOf P.ParityEngine self.old first.now }
        requires none { first.now ≡ None }
        ensures { TellsRefutation L.Sink self.old result self.new }
    {
        let traced = trace_all(
            self.log,
            self.state,
            self.engine,
            &conflict.lits,
            first,
            &mut conflict.rows,
            self.marks,
        )?;
        let hints = hints_of_lesson(self.log.alloc, &traced.resolved, conflict.id)?;
        tell_empty(self.log, self.state, hints)?;
        Ok(LitList::from_vec(Vec::new(self.log.alloc)))
    }

    /// Ends the log by a row's clause: chains with these hints leave none of its literals, after these clauses of rows.
    fn end_by(
        &mut self,
        reason: &ReasonOf,
        hints: &IntList,
        rows: &ToldRows,
    ) -> Result<LitList, CoreFault>
        requires at { IsAtZero P.ParityEngine L.Sink self.old rows.now }
        requires reason { Explains (P.state self.old.engine.now).parities self.old.state.now.trail reason.now }
        requires ends { EndsByHints self.old.log.now.formula.now self.old.state.now (told_in L.Sink self.old.log.now) (length rows.now) reason.now hints.now }
        ensures { TellsRefutation L.Sink self.old result self.new }
    {
        let count = rows.len();
        let ending = end_of_refuted(
            self.log.alloc,
            self.log.formula,
            self.state,
            reason,
            hints,
            count,
        )?;
        tell_ending(self.log, self.state, ending)
    }

    /// Ends the log by a clause that is false at level 0, where this row is the first one whose clause would end it before.
    fn refute_beside(
        &mut self,
        conflict: &mut Conflict,
        first: &Option<EndingRow>,
    ) -> Result<LitList, CoreFault>
        requires at { IsAtZero P.ParityEngine L.Sink self.old conflict.old.rows }
        requires conflict { IsConflictClause self.old.state.now conflict.old.rows conflict.old.lits conflict.old.id }
        requires told { IsTold conflict.old }
        requires first { IsFirstOf P.ParityEngine self.old first.now }
        requires some { (row : EndingRow) × (first.now ≡ Some row) }
        ensures { TellsRefutation L.Sink self.old result self.new }
    {
        let traced = trace_all(
            self.log,
            self.state,
            self.engine,
            &conflict.lits,
            first,
            &mut conflict.rows,
            self.marks,
        )?;
        let hints = hints_of_told(self.log.alloc, &traced.resolved, conflict.id)?;
        self.end_by(reason_of(first), &hints, &conflict.rows)
    }

    /// Ends the log by a clause that is false at level 0. The first row whose clause would end it before may be given.
    fn refute_by(
        &mut self,
        conflict: &mut Conflict,
        first: &Option<EndingRow>,
    ) -> Result<LitList, CoreFault>
        requires at { IsAtZero P.ParityEngine L.Sink self.old conflict.old.rows }
        requires conflict { IsConflictClause self.old.state.now conflict.old.rows conflict.old.lits conflict.old.id }
        requires told { IsTold conflict.old }
        requires first { IsFirstOf P.ParityEngine self.old first.now }
        ensures { TellsRefutation L.Sink self.old result self.new }
    {
        match first {
            Some(_) => self.refute_beside(conflict, first),
            None => self.refute_told(conflict, first),
        }
    }

    /// Ends the log by a row that is not met at level 0, where its own clause is the first that would end it before.
    fn refute_ending(
        &mut self,
        reason: &ReasonOf,
        first: &Option<EndingRow>,
        rows: &mut ToldRows,
    ) -> Result<LitList, CoreFault>
        requires at { IsAtZero P.ParityEngine L.Sink self.old rows.old }
        requires rows { rows.old ≡ [] }
        requires first { IsFirstOf P.ParityEngine self.old first.now }
        requires none { first.now ≡ None }
        requires reason { IsReason (P.state self.old.engine.now).parities self.old.state.now.trail None reason.now }
        requires ending { IsTrue (is_ending self.old.log.now.formula.now.constraints reason.now.clause) }
        ensures { TellsRefutation L.Sink self.old result self.new }
    {
        let traced = trace_all(
            self.log,
            self.state,
            self.engine,
            &reason.clause,
            first,
            rows,
            self.marks,
        )?;
        let hints = IntList::from_vec(hints_of_resolved(self.log.alloc, &traced.resolved)?);
        self.end_by(reason, &hints, rows)
    }

    /// Ends the log by a row that is not met at level 0, where no other row's clause would end it before.
    fn refute_row_alone(
        &mut self,
        reason: ReasonOf,
        first: &Option<EndingRow>,
    ) -> Result<LitList, CoreFault>
        requires at { IsAtZero P.ParityEngine L.Sink self.old [] }
        requires reason { IsReason (P.state self.old.engine.now).parities self.old.state.now.trail None reason }
        requires first { IsFirstOf P.ParityEngine self.old first.now }
        requires none { first.now ≡ None }
        ensures { TellsRefutation L.Sink self.old result self.new }
    {
        if self.log.formula.is_ending(reason.clause.as_slice()) {
            let mut rows = ToldRows::new();
            return self.refute_ending(&reason, first, &mut rows);
        }
        let mut conflict = told_row(self.log, self.state, self.engine, reason)?;
        self.refute_told(&mut conflict, first)
    }

    /// Ends the log by a row that is not met at level 0, where this row is the first one whose clause would end it before.
    fn refute_row_beside(
        &mut self,
        reason: ReasonOf,
        first: &Option<EndingRow>,
    ) -> Result<LitList, CoreFault>
        requires at { IsAtZero P.ParityEngine L.Sink self.old [] }
        requires reason { IsReason (P.state self.old.engine.now).parities self.old.state.now.trail None reason }
        requires first { IsFirstOf P.ParityEngine self.old first.now }
        requires some { IsSome first.now }
        ensures { TellsRefutation L.Sink self.old result self.new }
    {
        let zero = LevelZero {
            alloc: self.log.alloc,
            formula: self.log.formula,
            state: self.state,
            engine: self.engine,
        };
        let told = zero.going_on(first, reason, None)?;
        let mut conflict = told_row(self.log, self.state, self.engine, told)?;
        self.refute_by(&mut conflict, first)
    }

    /// Ends the log by a row that is not met at level 0.
    fn refute_row(&mut self, row: Row, first: &Option<EndingRow>) -> Result<LitList, CoreFault>
        requires at { IsAtZero P.ParityEngine L.Sink self.old [] }
        requires clash { IsClash (P.state self.old.engine.now) row }
        requires first { IsFirstOf P.ParityEngine self.old first.now }
        ensures { TellsRefutation L.Sink self.old result self.new }
    {
        let reason = reason_clause(self.log.alloc, self.engine, row, None, &self.state.trail)?;
        match first {
            Some(_) => self.refute_row_beside(reason, first),
            None => self.refute_row_alone(reason, first),
        }
    }

    /// Ends the log by a clause whose literals are all false at level 0.
    fn refute_clause(
        &mut self,
        clause: ClauseRef,
        first: &Option<EndingRow>,
    ) -> Result<LitList, CoreFault>
        requires at { IsAtZero P.ParityEngine L.Sink self.old [] }
        requires found { PropagationFinds self.old.state.now (P.state self.old.engine.now) (found.Clause clause) }
        requires first { IsFirstOf P.ParityEngine self.old first.now }
        ensures { TellsRefutation L.Sink self.old result self.new }
    {
        match conflict_clause(self.log, self.state, self.engine, Found::Clause(clause))? {
            Conclusion::Clause(conflict) => {
                let mut conflict = conflict;
                self.refute_by(&mut conflict, first)
            }
            Conclusion::Ending(_) => unreachable!(),
        }
    }

    /// Ends the log by a conflict at level 0. No assumed literal fails.
    fn refute(&mut self, found: Found) -> Result<LitList, CoreFault>
        requires at { IsAtZero P.ParityEngine L.Sink self.old [] }
        requires found { PropagationFinds self.old.state.now (P.state self.old.engine.now) found }
        requires conflict { found ≢ Quiet }
        ensures { TellsRefutation L.Sink self.old result self.new }
    {
        let zero = LevelZero {
            alloc: self.log.alloc,
            formula: self.log.formula,
            state: self.state,
            engine: self.engine,
        };
        let first = zero.first_ending()?;
        match found {
            Found::Clause(clause) => self.refute_clause(clause, &first),
            Found::Row(row) => self.refute_row(row, &first),
            Found::Quiet => unreachable!(),
        }
    }
}

/// Ends the log by a conflict at level 0, by an analyser of these. No assumed literal fails.
pub(crate) fn refute_conflict<P: ParityEngine, L: Sink<Item = LogEvent>>(
    log: &mut SearchLog<L>,
    state: &SearchState,
    engine: &P,
    marks: &mut Marks,
    found: Found,
) -> Result<LitList, CoreFault>
    requires ready { CanAnalyse P.ParityEngine L.Sink log.old state.now engine.now marks.old [] }
    requires level { state.now.trail.level ≡ 0 }
    requires found { PropagationFinds state.now (P.state engine.now) found }
    requires conflict { found ≢ Quiet }
    ensures ends { TellsEnd L.Sink log.old state.now log.new result }
    ensures none { IfOk result (λ failed. failed ≡ []) }
    ensures clear { OnOk result (AreClear marks.new) }
{
    let mut analyser = Analyser {
        log,
        state,
        engine,
        marks,
    };
    analyser.refute(found)
}
