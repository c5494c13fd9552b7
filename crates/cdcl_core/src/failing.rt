//! Assumptions that fail.
ghost use Rattle.std.specs.Prelude.{◌≡◌, ℕ, ◌≤◌, List, [], length, IfOk, OnOk, None};
ghost use Rattle.cx_semantics.specs.Chain.{negations};
ghost use Rattle.conflict_learn.specs.Marks.{AreClear};
ghost use Rattle.cdcl_core.specs.Analysing.{AnalysesOn, CanAnalyse};
ghost use Rattle.cdcl_core.specs.Concluding.{IsTold, TellsEnd};
ghost use Rattle.cdcl_core.specs.Failing.{IsFailure, IsLeftOf};

use crate::conflicts::Conflict;
use crate::learning::hints_of_lesson;
use cdcl_search::chains::tell_chained;
use cdcl_search::logs::SearchLog;
use cdcl_search::source::Source;
use cdcl_search::{SearchState, ToldRows};
use conflict_learn::{CoreFault, Final, Marks, analyse_final};
use cx_base::{Lit, LitList, LogEvent};
use parity_engine::ParityEngine;
use std::alloc::{AllocError, Global};
use step_text::Sink;

/// A clause that rests on assumed literals alone.
#[derive(Drop)]
pub(crate) struct Failure {
    pub conflict: Conflict,
    /// The literal of the clause that is true, where there is one: it contradicts an assumed one.
    pub kept: Option<Lit>,
    /// The others are false before this place of the trail.
    pub below: usize,
}

/// The negations of these literals, in order.
pub(crate) fn negated(alloc: Global, lits: &[Lit]) -> Result<LitList, AllocError>
    ensures { IfOk result (λ n. n ≡ negations lits.now) }
{
    let mut negated = Vec::with_capacity(alloc, lits.len())?;
    for lit in lits {
        negated.push(lit.negate())?;
    }
    Ok(LitList::from_vec(negated))
}

/// What is left of a failure's clause when its literals are traced to assumed ones. The clauses of rows that are told for it come after these rows.
fn trace<'x, P: ParityEngine, L: Sink<Item = LogEvent>>(
    log: &'x mut SearchLog<L>,
    state: &'x SearchState,
    engine: &'x P,
    lits: &LitList,
    kept: &Option<Lit>,
    below: usize,
    rows: &'x mut ToldRows,
    marks: &mut Marks,
) -> Result<Final, CoreFault>
    requires ready { CanAnalyse P.ParityEngine L.Sink log.old state.now engine.now marks.old rows.old }
    requires fails { (n : ℕ) × IsFailure log.old.formula.now.constraints state.now lits.now n kept.now below rows.old }
    requires few_rows { length rows.old ≤ 1 }
    ensures left { (n : ℕ) → IsFailure log.old.formula.now.constraints state.now lits.now n kept.now below rows.old
        → IfOk result (IsLeftOf log.new.formula.now.constraints state.now lits.now n kept.now below rows.new) }
    ensures on { AnalysesOn P.ParityEngine L.Sink log.old log.new state.now engine.now marks.new rows.new result }
{
    let alloc = log.alloc;
    let mut source = Source {
        log,
        state,
        engine,
        rows,
        below,
    };
    analyse_final(
        alloc,
        &state.trail,
        lits.as_slice(),
        kept,
        below,
        marks,
        &mut source,
    )
}

/// Ends the log by what is left of a failure's clause. The answer are the assumed literals that fail: those that its literals rest on, and the one that the kept literal contradicts.
pub(crate) fn fail<P: ParityEngine, L: Sink<Item = LogEvent>>(
    log: &mut SearchLog<L>,
    state: &SearchState,
    engine: &P,
    marks: &mut Marks,
    failure: Failure,
) -> Result<LitList, CoreFault>
    requires ready { CanAnalyse P.ParityEngine L.Sink log.old state.now engine.now marks.old failure.conflict.rows }
    requires fails { IsFailure log.old.formula.now.constraints state.now failure.conflict.lits failure.conflict.id failure.kept failure.below failure.conflict.rows }
    requires told { IsTold failure.conflict }
    ensures ends { TellsEnd L.Sink log.old state.now log.new result }
    ensures none { failure.kept ≡ None → state.now.trail.level ≡ 0 → IfOk result (λ failed. failed ≡ []) }
    ensures clear { OnOk result (AreClear marks.new) }
{
    let Failure {
        conflict,
        kept,
        below,
    } = failure;
    let Conflict { lits, id, rows } = conflict;
    // The lists go here, and not at each exit below.
    let left = {
        let lits = lits;
        let mut rows = rows;
        trace(log, state, engine, &lits, &kept, below, &mut rows, marks)?
    };
    let clause = left.lits.as_slice();
    let hints = hints_of_lesson(log.alloc, &left.resolved, id)?;
    let failed = negated(log.alloc, clause)?;
    tell_chained(log, state.next, clause, hints)?;
    Ok(failed)
}
