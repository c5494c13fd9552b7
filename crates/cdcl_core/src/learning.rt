//! Learning from a conflict.
ghost use Rattle.std.specs.Prelude.{◌≡◌, pos, [], ◌∷◌, ◌++◌, IfOk, OnOk};
ghost use Rattle.std.specs.List.{Contains};
ghost use Rattle.cx_base.specs.Integers.{integers_of};
ghost use Rattle.cx_base.specs.Numbers.{AreStepIntegers};
ghost use Rattle.cx_base.specs.declared.steps.LogEvent.TheVariants as event;
ghost use Rattle.cx_base.specs.declared.steps.LogStep.TheVariants as step;
ghost use Rattle.conflict_learn.specs.Faults.{fault_in};
ghost use Rattle.conflict_learn.specs.declared.learning.Resolved.{Resolved};
ghost use Rattle.conflict_learn.specs.Marks.{AreClear};
ghost use Rattle.search_steps.specs.Hints.{hints_from};
ghost use Rattle.search_steps.specs.Recovering.{SettledWithRecovered};
ghost use Rattle.cdcl_search.specs.Deleting.{deletions};
ghost use Rattle.cdcl_search.specs.Calls.{Tells};
ghost use Rattle.cdcl_search.specs.Tells.{IsId, AreIdsFrom, AreStepsOf, AreTellable};
ghost use Rattle.cdcl_search.specs.Logs.{GoesOn, HasNotFailed, IsRightBehind, told_in};
ghost use Rattle.cdcl_search.specs.Ties.{first_row_id, row_ids};
ghost use Rattle.cdcl_core.specs.Analysing.{AnalysesOn, CanAnalyse};
ghost use Rattle.cdcl_core.specs.Concluding.{IsAtConflict, IsConflictClause, IsTold};
ghost use Rattle.cdcl_core.specs.Learning.{AreUsed, IsLesson, Learns, MayLearn};
ghost use Rattle.cdcl_core.specs.Lessons.{HasStepIds, events_after_mark, lesson_events};

use crate::conflicts::Conflict;
use cdcl_search::SearchState;
use cdcl_search::chains::push_hint;
use cdcl_search::deleting::put_deletions;
use cdcl_search::integers::integers;
use cdcl_search::logs::SearchLog;
use cdcl_search::rows::first_id_of_rows;
use cdcl_search::source::Source;
use cdcl_search::steps::chained;
use cdcl_search::telling::{tell_round, tell_unmade};
use conflict_learn::{CoreFault, Learned, Marks, Resolved, analyse};
use cx_base::{IntList, Lit, LitList, LogEvent, LogStep};
use parity_engine::ParityEngine;
use std::alloc::{AllocError, Global};
use step_text::{Sink, Unmade};

/// The steps after the mark of a conflict: the learned clause with its hints, and the deletions of the clauses of rows.
fn steps_of_learned(
    alloc: Global,
    id: u64,
    lits: &[Lit],
    hints: IntList,
    rows: usize,
) -> Result<Vec<LogStep>, AllocError>
    requires id { IsId id }
    requires rows { AreIdsFrom (first_row_id id) rows }
    ensures { IfOk result (λ s. AreStepsOf (event.Step (step.ClauseWithHints id (integers_of lits.now) hints) ∷ deletions (row_ids (first_row_id id) rows)) s.items) }
{
    let clause = chained(id, integers(alloc, lits)?, hints);
    let mut steps = Vec::new(alloc);
    steps.push(clause)?;
    put_deletions(alloc, &mut steps, first_id_of_rows(id), rows)?;
    Ok(steps)
}

/// The ids of the clauses of the resolved literals, the last one's first.
pub(crate) fn hints_of_resolved(
    alloc: Global,
    resolved: &[Resolved],
) -> Result<Vec<i64>, AllocError>
    requires { (r : Resolved) → Contains resolved.now r → IsId r.id }
    ensures hints { IfOk result (λ hints. hints.items ≡ hints_from resolved.now) }
    ensures integers { IfOk result (λ hints. AreStepIntegers hints.items) }
{
    let mut hints = Vec::with_capacity(alloc, resolved.len())?;
    let mut left = resolved.len();
    while left > 0 {
        left -= 1;
        push_hint(&mut hints, resolved[left].id)?;
    }
    Ok(hints)
}

/// The hints of a learned clause: the ids of the clauses of the resolved literals, the last one's first, and then the conflict's.
pub(crate) fn hints_of_lesson(
    alloc: Global,
    resolved: &[Resolved],
    conflict: u64,
) -> Result<IntList, AllocError>
    requires ids { (r : Resolved) → Contains resolved.now r → IsId r.id }
    requires conflict { IsId conflict }
    ensures { IfOk result (λ hints. hints ≡ hints_from resolved.now ++ pos conflict ∷ []) }
{
    let mut hints = hints_of_resolved(alloc, resolved)?;
    push_hint(&mut hints, conflict)?;
    Ok(IntList::from_vec(hints))
}

/// What is told of a learned clause, which is not made: the mark of its conflict, the clause with its hints, and the deletions of the clauses of rows.
#[derive(Clone, Copy, Drop)]
pub(crate) struct UnmadeLesson<'a> {
    /// The number of the mark.
    pub number: u64,
    /// The id of the clause.
    pub id: u64,
    pub learned: &'a Learned,
    pub conflict: &'a Conflict,
}

impl Unmade<LogEvent> for UnmadeLesson<'_> {
    ghost items = { lesson_events };
}

/// The steps of a lesson after its mark.
fn steps_of_lesson(alloc: Global, lesson: &UnmadeLesson) -> Result<Vec<LogStep>, AllocError>
    requires { HasStepIds lesson.now }
    ensures { IfOk result (λ s. AreStepsOf (events_after_mark lesson.now) s.items) }
{
    let learned = lesson.learned;
    let conflict = lesson.conflict;
    let hints = hints_of_lesson(alloc, &learned.resolved, conflict.id)?;
    steps_of_learned(
        alloc,
        lesson.id,
        learned.lits.as_slice(),
        hints,
        conflict.rows.len(),
    )
}

/// Tells a lesson, which leaves the log right. Its steps are made only where the log does not take them unmade.
fn tell_lesson<L: Sink<Item = LogEvent>>(
    log: &mut SearchLog<L>,
    lesson: &UnmadeLesson,
) -> Result<(), CoreFault>
    requires ids { HasStepIds lesson.now }
    requires events { AreTellable log.old.formula.now (lesson_events lesson.now) }
    requires unsettled { ¬ SettledWithRecovered log.old.formula.now }
    requires going { HasNotFailed L.Sink log.old }
    requires right { IsRightBehind L.Sink log.old (lesson_events lesson.now) }
    ensures { Tells L.Sink log.old (lesson_events lesson.now) result log.new }
{
    if tell_unmade(log, lesson) {
        return Ok(());
    }
    let steps = steps_of_lesson(log.alloc, lesson)?;
    tell_round(log, lesson.number, steps)
}

/// Tells what a conflict taught: the mark, the learned clause with its hints, and the deletions of the clauses of rows.
fn tell_learned<P: ParityEngine, L: Sink<Item = LogEvent>>(
    log: &mut SearchLog<L>,
    state: &SearchState,
    engine: &P,
    conflict: &Conflict,
    learned: &Learned,
) -> Result<(), CoreFault>
    requires at { IsAtConflict P.ParityEngine L.Sink log.old state.now engine.now conflict.now.rows conflict.now.lits conflict.now.id }
    requires id { IsId conflict.now.id }
    requires may { MayLearn log.old.formula.now state.now }
    requires lesson { IsLesson state.now conflict.now.rows conflict.now.lits learned.now }
    requires going { HasNotFailed L.Sink log.old }
    ensures learned { OnOk result (Learns log.new.formula.now state.now (P.state engine.now) learned.now.lits learned.now.back_level (told_in L.Sink log.new)) }
    ensures log { GoesOn L.Sink log.old (fault_in result) log.new }
{
    let lesson = UnmadeLesson {
        number: state.conflicts + 1,
        id: state.next,
        learned,
        conflict,
    };
    tell_lesson(log, &lesson)
}

/// What a conflict teaches. The clauses of rows that are told for it come after its own.
fn lesson_of<'x, P: ParityEngine, L: Sink<Item = LogEvent>>(
    log: &'x mut SearchLog<L>,
    state: &'x SearchState,
    engine: &'x P,
    marks: &mut Marks,
    conflict: &'x mut Conflict,
) -> Result<Learned, CoreFault>
    requires ready { CanAnalyse P.ParityEngine L.Sink log.old state.now engine.now marks.old conflict.old.rows }
    requires conflict { IsConflictClause state.now conflict.old.rows conflict.old.lits conflict.old.id }
    requires told { IsTold conflict.old }
    requires may { MayLearn log.old.formula.now state.now }
    ensures lesson { IfOk result (IsLesson state.now conflict.new.rows conflict.new.lits) }
    ensures conflict { OnOk result (IsConflictClause state.now conflict.new.rows conflict.new.lits conflict.new.id) }
    ensures id { conflict.new.id ≡ conflict.old.id }
    ensures on { AnalysesOn P.ParityEngine L.Sink log.old log.new state.now engine.now marks.new conflict.new.rows result }
{
    let alloc = log.alloc;
    let mut source = Source {
        log,
        state,
        engine,
        rows: &mut conflict.rows,
        below: state.trail.len(),
    };
    analyse(alloc, &state.trail, &conflict.lits, marks, &mut source)
}

/// What a conflict above the levels of the assumed literals teaches: so its clause is no ending clause. The mark, the learned clause with its hints, and the deletions of the clauses of rows are told.
pub(crate) fn learn<P: ParityEngine, L: Sink<Item = LogEvent>>(
    log: &mut SearchLog<L>,
    state: &SearchState,
    engine: &P,
    marks: &mut Marks,
    conflict: Conflict,
) -> Result<Learned, CoreFault>
    requires ready { CanAnalyse P.ParityEngine L.Sink log.old state.now engine.now marks.old conflict.rows }
    requires conflict { IsConflictClause state.now conflict.rows conflict.lits conflict.id }
    requires told { IsTold conflict }
    requires may { MayLearn log.old.formula.now state.now }
    ensures learned { IfOk result (λ r. Learns log.new.formula.now state.now (P.state engine.now) r.lits r.back_level (told_in L.Sink log.new)) }
    ensures used { IfOk result (AreUsed state.now.trail) }
    ensures clear { OnOk result (AreClear marks.new) }
    ensures log { GoesOn L.Sink log.old (fault_in result) log.new }
{
    let mut conflict = conflict;
    let learned = lesson_of(log, state, engine, marks, &mut conflict)?;
    tell_learned(log, state, engine, &conflict, &learned)?;
    Ok(learned)
}
