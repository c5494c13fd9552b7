//! The rounds of a search.
ghost use Rattle.std.specs.Prelude.{true, ◌≡◌, ◌≢◌, ◌⊎◌, ℕ, ◌<◌, ◌≤◌, ◌+◌, ◌^◌, [], length, IfNone, IfOk, None, Some};
ghost use Rattle.conflict_learn.specs.Faults.{fault_in};
ghost use Rattle.conflict_learn.specs.Marks.{AreClear};
ghost use Rattle.parity_engine.specs.declared.state.Mood.TheVariants.{Broken};
ghost use Rattle.search_steps.specs.Recovering.{SettledWithRecovered};
ghost use Rattle.search_policy.specs.Assuming.{Contradicts};
ghost use Rattle.cdcl_search.specs.Finds.{PropagationFinds};
ghost use Rattle.cdcl_search.specs.Searching.{SearchReaches};
ghost use Rattle.cdcl_search.specs.Logs.{GoesOn, HasNotFailed, told_in};
ghost use Rattle.cdcl_search.specs.declared.propagation.Found.TheVariants.{Quiet};
ghost use Rattle.cdcl_search.specs.declared.searching.Reached.TheVariants as reached;
ghost use Rattle.cdcl_core.specs.Beginning.{IsAtStart};
ghost use Rattle.cdcl_core.specs.Concluding.{Concludes, IsByClause, IsConflictClause, IsTold};
ghost use Rattle.cdcl_core.specs.Failing.{EndsAtPlace};
ghost use Rattle.cdcl_core.specs.LogLines.{AreTidyLines, GoesOnIn};
ghost use Rattle.cdcl_core.specs.Results.{AnswersTo};
ghost use Rattle.cdcl_core.specs.Rounds.{EndsRound, HasLinesAfter, IsSameRun, IsSearching, IsSettledIn, LeavesRestart, LeavesRound};
ghost use Rattle.cdcl_core.specs.Scheduling.{IsOneAhead, IsOnSchedule};
ghost use Rattle.cdcl_core.specs.Shortening.{HasAllUnits};
ghost use Rattle.cdcl_core.specs.Tidying.{IsAtRestartOf};
ghost use Rattle.cdcl_core.specs.declared.solving.SearchOutcome.TheVariants as outcome;

use crate::conflicts::{Conclusion, Conflict, clause_against, conflict_clause};
use crate::ending::tell_ending;
use crate::failing::{Failure, fail};
use crate::grading::grade_resolved;
use crate::jumping::jump;
use crate::learning::learn;
use crate::refuting::{is_refuted, refute_conflict};
use crate::restarting::restart;
use crate::schedule::{Schedule, reduce_where_many};
use crate::solving::SearchOutcome;
use crate::tidying::{tell_tidied, tidy_clauses};
use cdcl_search::logs::SearchLog;
use cdcl_search::{Found, Reached, SearchState, is_quiet, search_on, settle, values_of};
use conflict_learn::{CoreFault, Marks};
use cx_base::{Lit, LitList, LogEvent};
use parity_engine::ParityEngine;
use search_policy::Assumptions;
use step_text::Sink;

/// A search with its log, its parities, and a budget of counted conflicts.
#[derive(Drop)]
pub(crate) struct Run<'r, 'f, P, L> {
    pub log: &'r mut SearchLog<'f, L>,
    pub state: &'r mut SearchState,
    pub engine: &'r mut P,
    pub budget: u64,
}

impl<P: ParityEngine, L: Sink<Item = LogEvent>> Run<'_, '_, P, L> {
    /// Learns from a conflict above the levels of the assumed literals, counts the levels of the clauses anew that it used, and goes back. None: the search goes on.
    fn learn_and_jump(
        &mut self,
        assumptions: &mut Assumptions,
        marks: &mut Marks,
        conflict: Conflict,
    ) -> Result<Option<SearchOutcome>, CoreFault>
        requires searches { IsSearching P.ParityEngine L.Sink self.old assumptions.old marks.old conflict.rows }
        requires conflict { IsConflictClause self.old.state.now conflict.rows conflict.lits conflict.id }
        requires told { IsTold conflict }
        requires checked { assumptions.old.checked ≡ length self.old.state.now.trail.entries }
        requires free { assumptions.old.level < self.old.state.now.trail.level }
        requires unsettled { ¬ SettledWithRecovered self.old.log.now.formula.now }
        ensures { LeavesRound P.ParityEngine L.Sink self.old result self.new assumptions.new marks.new }
    {
        let learned = learn(self.log, self.state, self.engine, marks, conflict)?;
        if self.state.conflicts + 1 == self.budget {
            return Ok(Some(SearchOutcome::Unknown {
                conflicts: self.budget,
            }));
        }
        grade_resolved(self.state, marks, &learned.resolved)?;
        let formula = self.log.formula;
        jump(formula, self.state, self.engine, assumptions, &learned)?;
        Ok(None)
    }

    /// Ends the log by what a conflict comes to, or a literal that contradicts an assumed one. The answer are the assumed literals that fail.
    fn end(
        &mut self,
        marks: &mut Marks,
        conclusion: Conclusion,
        kept: Option<Lit>,
        below: usize,
    ) -> Result<LitList, CoreFault>
        requires concludes { Concludes self.old.log.now.formula.now self.old.state.now (P.state self.old.engine.now) (told_in L.Sink self.old.log.now) kept conclusion }
        requires at { EndsAtPlace self.old.log.now.formula.now.constraints self.old.state.now.trail kept below }
        requires clear { AreClear marks.old }
        requires going { HasNotFailed L.Sink self.old.log.now }
        ensures ends { EndsRound L.Sink self.old result self.new marks.new }
        ensures none { IsByClause conclusion ⊎ HasAllUnits self.old.state.now → kept ≡ None → self.old.state.now.trail.level ≡ 0 → IfOk result (λ failed. failed ≡ []) }
    {
        match conclusion {
            Conclusion::Clause(conflict) => fail(
                self.log,
                self.state,
                self.engine,
                marks,
                Failure {
                    conflict,
                    kept,
                    below,
                },
            ),
            Conclusion::Ending(ending) => tell_ending(self.log, self.state, ending),
        }
    }

    /// What a conflict comes to: what it teaches, or where each decision is of an assumed literal, the end of the log. None: the search goes on.
    fn conclude_conflict(
        &mut self,
        assumptions: &mut Assumptions,
        marks: &mut Marks,
        found: Found,
    ) -> Result<Option<SearchOutcome>, CoreFault>
        requires searches { IsSearching P.ParityEngine L.Sink self.old assumptions.old marks.old [] }
        requires reaches { SearchReaches self.old.log.now.formula.now.constraints self.old.state.now (P.state self.old.engine.now) assumptions.old (reached.Found found) }
        requires conflict { found ≢ Quiet }
        requires settled { SettledWithRecovered self.old.log.now.formula.now → self.old.state.now.trail.level ≡ 0 }
        ensures none { self.old.state.now.trail.level ≡ 0 → IfOk result (λ o. o ≡ Some (outcome.Unsat [])) }
        ensures leaves { LeavesRound P.ParityEngine L.Sink self.old result self.new assumptions.new marks.new }
        ensures at_start { self.old.state.now.trail.level ≡ 0 → IsSettledIn self.old.state.now.tidies self.new.log.now.formula.now self.old.state.now.conflicts (told_in L.Sink self.new.log.now) result }
    {
        let conclusion = conflict_clause(self.log, self.state, self.engine, found)?;
        if self.state.trail.level() <= assumptions.level {
            let below = self.state.trail.len();
            let failed = self.end(marks, conclusion, None, below)?;
            return Ok(Some(SearchOutcome::Unsat { failed }));
        }
        match conclusion {
            Conclusion::Clause(conflict) => self.learn_and_jump(assumptions, marks, conflict),
            Conclusion::Ending(ending) => {
                let failed = tell_ending(self.log, self.state, ending)?;
                Ok(Some(SearchOutcome::Unsat { failed }))
            }
        }
    }

    /// What a literal comes to that contradicts an assumed one: the end of the log. A conflict at level 0 goes before it, since no assumed literal fails then.
    fn conclude_failed(
        &mut self,
        assumptions: &Assumptions,
        marks: &mut Marks,
        place: usize,
        found: Found,
    ) -> Result<LitList, CoreFault>
        requires searches { IsSearching P.ParityEngine L.Sink self.old assumptions.now marks.old [] }
        requires place { (place ≡ assumptions.now.checked) × (place < length self.old.state.now.trail.entries) × Contradicts self.old.log.now.formula.now.constraints self.old.state.now.trail place }
        requires found { PropagationFinds self.old.state.now (P.state self.old.engine.now) found }
        ensures ends { EndsRound L.Sink self.old result self.new marks.new }
        ensures none { self.old.state.now.trail.level ≡ 0 → found ≢ Quiet → IfOk result (λ failed. failed ≡ []) }
    {
        if is_refuted(self.state, &found) {
            return refute_conflict(self.log, self.state, self.engine, marks, found);
        }
        let literal = self.state.trail.entry(place).literal;
        let conclusion = clause_against(self.log, self.state, self.engine, assumptions, place)?;
        self.end(marks, conclusion, Some(literal), place)
    }

    /// What the search comes to where it stops: the values of a full trail, what a conflict teaches, or the end of the log. None: the search goes on.
    fn conclude(
        &mut self,
        assumptions: &mut Assumptions,
        marks: &mut Marks,
        reached: Reached,
    ) -> Result<Option<SearchOutcome>, CoreFault>
        requires searches { IsSearching P.ParityEngine L.Sink self.old assumptions.old marks.old [] }
        requires reaches { SearchReaches self.old.log.now.formula.now.constraints self.old.state.now (P.state self.old.engine.now) assumptions.old reached }
        requires settled { SettledWithRecovered self.old.log.now.formula.now → self.old.state.now.trail.level ≡ 0 }
        ensures leaves { LeavesRound P.ParityEngine L.Sink self.old result self.new assumptions.new marks.new }
        ensures at_start { self.old.state.now.trail.level ≡ 0 → IsSettledIn self.old.state.now.tidies self.new.log.now.formula.now self.old.state.now.conflicts (told_in L.Sink self.new.log.now) result }
    {
        match reached {
            Reached::Found(Found::Quiet) => {
                let values = values_of(self.log.alloc, self.log.formula, self.state, self.engine)?;
                Ok(Some(SearchOutcome::Sat(values)))
            }
            Reached::Found(found) => self.conclude_conflict(assumptions, marks, found),
            Reached::Failed(place, found) => {
                let failed = self.conclude_failed(assumptions, marks, place, found)?;
                Ok(Some(SearchOutcome::Unsat { failed }))
            }
        }
    }

    /// Searches up to the next conflict or a full trail, and acts on it. None: the search goes on.
    fn round(
        &mut self,
        assumptions: &mut Assumptions,
        marks: &mut Marks,
    ) -> Result<Option<SearchOutcome>, CoreFault>
        requires searches { IsSearching P.ParityEngine L.Sink self.old assumptions.old marks.old [] }
        requires unbroken { (P.state self.old.engine.now).mood ≢ Broken }
        requires settled { SettledWithRecovered self.old.log.now.formula.now → self.old.state.now.trail.level ≡ 0 }
        ensures leaves { LeavesRound P.ParityEngine L.Sink self.old result self.new assumptions.new marks.new }
        ensures settled { SettledWithRecovered self.new.log.now.formula.now → self.old.state.now.trail.level ≡ 0 → IsSettledIn self.old.state.now.tidies self.new.log.now.formula.now self.old.state.now.conflicts (told_in L.Sink self.new.log.now) result }
    {
        let reached = search_on(self.log, self.state, self.engine, assumptions)?;
        self.conclude(assumptions, marks, reached)
    }

    /// Implies what follows at level 0, and tells its units. The answer is one where that comes to a conflict, or contradicts an assumed literal. None: both
    /// engines are quiet.
    fn settle_at_restart(
        &mut self,
        assumptions: &mut Assumptions,
        marks: &mut Marks,
    ) -> Result<Option<SearchOutcome>, CoreFault>
        requires searches { IsSearching P.ParityEngine L.Sink self.old assumptions.old marks.old [] }
        requires unbroken { (P.state self.old.engine.now).mood ≢ Broken }
        requires level { self.old.state.now.trail.level ≡ 0 }
        ensures leaves { LeavesRestart P.ParityEngine L.Sink self.old result self.new assumptions.new marks.new }
        ensures level { IfOk result (λ o. IfNone o (self.new.state.now.trail.level ≡ 0)) }
        ensures units { IfOk result (λ o. IfNone o (length self.new.state.now.units.items ≡ length self.new.state.now.trail.entries)) }
        ensures log { GoesOn L.Sink self.old.log.now (fault_in result) self.new.log.now }
    {
        let reached = settle(self.log, self.state, self.engine, assumptions)?;
        if is_quiet(&reached) {
            return Ok(None);
        }
        self.conclude(assumptions, marks, reached)
    }

    /// Tidies the clauses at the restart of this number, at level 0, and tells its tidy line. None: the search goes on.
    fn tidy_at_restart(
        &mut self,
        assumptions: &mut Assumptions,
        marks: &mut Marks,
        number: u64,
    ) -> Result<Option<SearchOutcome>, CoreFault>
        requires searches { IsSearching P.ParityEngine L.Sink self.old assumptions.old marks.old [] }
        requires unbroken { (P.state self.old.engine.now).mood ≢ Broken }
        requires tidies { self.old.state.now.tidies ≡ true }
        requires restart { IsAtRestartOf number self.old.state.now }
        requires lines { (before : ℕ) × (number ≡ before + 1) × AreTidyLines before (L.lines self.old.log.now.sink.now) }
        ensures leaves { LeavesRestart P.ParityEngine L.Sink self.old result self.new assumptions.new marks.new }
        ensures lines { HasLinesAfter number (L.lines self.new.log.now.sink.now) result }
        ensures log { GoesOnIn true L.Sink self.old.log.now (fault_in result) self.new.log.now }
    {
        if let Some(outcome) = self.settle_at_restart(assumptions, marks)? {
            return Ok(Some(outcome));
        }
        reduce_where_many(self.log, self.state, self.engine)?;
        if let Some(failed) = tidy_clauses(self.log, self.state, self.engine)? {
            return Ok(Some(SearchOutcome::Unsat { failed }));
        }
        tell_tidied(self.log, number)?;
        assumptions.begin_again();
        Ok(None)
    }

    /// After a counted conflict and its jump: restarts where that is due. It deletes learned clauses then where there are many, and a search that tidies
    /// tidies its clauses. None: the search goes on.
    fn follow_schedule(
        &mut self,
        assumptions: &mut Assumptions,
        marks: &mut Marks,
        schedule: &mut Schedule,
    ) -> Result<Option<SearchOutcome>, CoreFault>
        requires searches { IsSearching P.ParityEngine L.Sink self.old assumptions.old marks.old [] }
        requires unbroken { (P.state self.old.engine.now).mood ≢ Broken }
        requires on { IsOneAhead schedule.old self.old.state.now.conflicts }
        requires lines { self.old.state.now.tidies ≡ true → AreTidyLines schedule.old.restarts (L.lines self.old.log.now.sink.now) }
        ensures leaves { LeavesRestart P.ParityEngine L.Sink self.old result self.new assumptions.new marks.new }
        ensures on { IsOnSchedule schedule.new self.old.state.now.conflicts }
        ensures lines { self.old.state.now.tidies ≡ true → HasLinesAfter schedule.new.restarts (L.lines self.new.log.now.sink.now) result }
        ensures log { GoesOnIn self.old.state.now.tidies L.Sink self.old.log.now (fault_in result) self.new.log.now }
    {
        let Some(number) = schedule.next_restart() else {
            return Ok(None);
        };
        restart(self.log.formula, self.state, self.engine, assumptions);
        if self.state.tidies {
            return self.tidy_at_restart(assumptions, marks, number);
        }
        reduce_where_many(self.log, self.state, self.engine)?;
        assumptions.begin_again();
        Ok(None)
    }

    /// Searches in rounds up to the budget, from the beginning on.
    pub(crate) fn search_in_rounds(&mut self) -> Result<SearchOutcome, CoreFault>
        requires begins { IsAtStart self.old.log.now.formula.now (told_in L.Sink self.old.log.now) self.old.state.now (P.state self.old.engine.now) }
        requires budget { (1 ≤ self.old.budget) × (self.old.budget ≤ 10 ^ 18) }
        requires going { HasNotFailed L.Sink self.old.log.now }
        requires lines { self.old.state.now.tidies ≡ true → AreTidyLines 0 (L.lines self.old.log.now.sink.now) }
        ensures answers { AnswersTo L.Sink self.old.state.now.tidies self.old.budget self.old.log.now result self.new.log.now }
        ensures same { IsSameRun self.old self.new }
    {
        let mut schedule = Schedule::new();
        let mut marks = Marks::new(self.log.alloc);
        let mut assumptions = Assumptions::of(self.log.alloc, self.log.formula)?;
        loop {
            if let Some(outcome) = self.round(&mut assumptions, &mut marks)? {
                return Ok(outcome);
            }
            if let Some(outcome) = self.follow_schedule(
                &mut assumptions,
                &mut marks,
                &mut schedule,
            )? {
                return Ok(outcome);
            }
        }
    }
}
