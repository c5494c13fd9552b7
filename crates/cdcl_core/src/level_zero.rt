//! The literals of level 0 that a conflict rests on.
ghost use Rattle.std.specs.Prelude.{◌≡◌, ◌+◌, ◌-◌, ◌≤◌, length, IfOk, IfSome, IsTrue, None};
ghost use Rattle.cx_base.specs.Literals.{Literal};
ghost use Rattle.cx_semantics.specs.Chain.{has_literal};
ghost use Rattle.cx_trail.specs.Sequence.{IsFalseIn};
ghost use Rattle.conflict_learn.specs.Final.{IsFinal, StandsBelow};
ghost use Rattle.conflict_learn.specs.Learning.{AreHeld, HasReason, literals_of};
ghost use Rattle.cdcl_search.specs.GoingOn.{log_rests, log_stops, log_then};
ghost use Rattle.cdcl_search.specs.Logs.{GoesOn};
ghost use Rattle.cdcl_core.specs.Alike.{AnswersOn, AreLentAlike, CanBeAsked, HasRoom, HoldsOneMore, IsClauseFor, alike_rest, alike_then};
ghost use Rattle.cdcl_core.specs.Analysing.{AnalysesOn, CanAnalyse};
ghost use Rattle.cdcl_core.specs.Refuting.{IsFirst, IsHeldBeside, IsImpliedByRow, IsLiteralOf, IsUntold};

use crate::ending_rows::{EndingRow, LevelZero};
use cdcl_search::logs::SearchLog;
use cdcl_search::rows::{copy_of, next_ids, tell_reason};
use cdcl_search::source::{Hinted, stored, unit};
use cdcl_search::{SearchState, ToldRows};
use conflict_learn::{Antecedents, CoreFault, Final, Marks, analyse_final};
use cx_base::{Lit, LitList, LogEvent, Row};
use cx_trail::Reason;
use parity_engine::ParityEngine;
use std::alloc::{AllocError, Global};
use step_text::Sink;
use xor_reason::reason_clause;

/// In place of an id, where a clause is not told: ids begin at 1.
pub(crate) const NOT_TOLD: u64 = 0;

/// The clause of the first row whose clause would end the log, where it implied this literal.
fn untold_clause(
    alloc: Global,
    first: &Option<EndingRow>,
    literal: Lit,
) -> Result<Option<LitList>, AllocError>
    ensures some { IfOk result (λ o. IfSome o (λ clause. IsLiteralOf first.now literal × IsUntold first.now clause)) }
    ensures none { IfOk result (λ o. o ≡ None → ¬ IsLiteralOf first.now literal) }
{
    match first {
        Some(ending) if ending.literal == literal => Ok(Some(copy_of(
            alloc,
            ending.reason.clause.as_slice(),
        )?)),
        _ => Ok(None),
    }
}

/// The clauses of the arena, of level 0 and of the rows. A row's clause is told when it is asked for, and none that would end the log.
#[derive(Drop)]
struct ZeroSource<'a, 'b, 'r, 'f, P, L> {
    log: &'a mut SearchLog<'b, L>,
    state: &'a SearchState,
    engine: &'a P,
    /// The clauses of rows that were told since the last mark, in the order of their ids.
    rows: &'r mut ToldRows,
    /// The first row whose clause would end the log.
    first: &'f Option<EndingRow>,
}

impl<P: ParityEngine, L: Sink<Item = LogEvent>> ZeroSource<'_, '_, '_, '_, P, L> {
    /// The clause of the row that implied a literal of the trail. It is told. Where it would end the log, the first such row is added to the row.
    fn told_clause(&mut self, row: Row, literal: Lit) -> Result<Hinted, CoreFault>
        requires ready { CanBeAsked P.ParityEngine L.Sink self.old }
        requires later { ¬ IsLiteralOf self.old.first.now literal }
        requires implied { IsImpliedByRow self.old.state.now literal row }
        requires room { HasRoom self.old }
        ensures clause { IfOk result (IsClauseFor self.old self.new literal) }
        ensures more { HoldsOneMore self.old result self.new }
        ensures on { AnswersOn P.ParityEngine L.Sink self.old result self.new }
    {
        let reason = reason_clause(
            self.log.alloc,
            self.engine,
            row,
            Some(literal),
            &self.state.trail,
        )?;
        let zero = LevelZero {
            alloc: self.log.alloc,
            formula: self.log.formula,
            state: self.state,
            engine: self.engine,
        };
        let told = zero.going_on(self.first, reason, Some(literal))?;
        let id = next_ids(self.log.formula, self.state.next, self.rows).clause;
        let lits = tell_reason(self.log, self.state, self.engine, told, self.rows)?;
        Ok(Hinted { lits, id })
    }

    /// The clause of the row that implied a literal of the trail. It is told, but that of the first row whose clause would end the log.
    fn clause_of_row(&mut self, row: Row, literal: Lit) -> Result<Hinted, CoreFault>
        requires ready { CanBeAsked P.ParityEngine L.Sink self.old }
        requires implied { IsImpliedByRow self.old.state.now literal row }
        requires room { HasRoom self.old }
        ensures clause { IfOk result (IsClauseFor self.old self.new literal) }
        ensures more { HoldsOneMore self.old result self.new }
        ensures on { AnswersOn P.ParityEngine L.Sink self.old result self.new }
    {
        if let Some(lits) = untold_clause(self.log.alloc, self.first, literal)? {
            return Ok(Hinted { lits, id: NOT_TOLD });
        }
        self.told_clause(row, literal)
    }

    /// The clause that implied a literal of level 0. A row's is told, but that of the first row whose clause would end the log.
    fn clause_at_zero(&mut self, reason: Reason, literal: Lit) -> Result<Hinted, CoreFault>
        requires ready { CanBeAsked P.ParityEngine L.Sink self.old }
        requires reason { HasReason self.old.state.now.trail literal reason }
        requires room { HasRoom self.old }
        ensures clause { IfOk result (IsClauseFor self.old self.new literal) }
        ensures more { HoldsOneMore self.old result self.new }
        ensures on { AnswersOn P.ParityEngine L.Sink self.old result self.new }
    {
        let place = self.state.trail.place_of(literal.negate());
        if place < self.state.units.len() {
            return Ok(unit(self.log.alloc, self.state, place)?);
        }
        match reason {
            Reason::Clause(reference) => Ok(stored(self.log.alloc, self.state, reference)?),
            Reason::Row(row) => self.clause_of_row(row, literal),
            Reason::Decision => unreachable!(),
        }
    }
}

impl<P: ParityEngine, L: Sink<Item = LogEvent>> Antecedents for ZeroSource<'_, '_, '_, '_, P, L> {
    ghost trail = { λ a. a.state.now.trail };

    ghost holds = { λ a c n. IsHeldBeside a.state.now a.rows.now a.first.now c n };

    ghost ready = { λ a. CanBeAsked P.ParityEngine L.Sink a };

    ghost room = { λ a. a.log.now.formula.now.variables + 1 - length a.rows.now };

    ghost reach = { λ a. length a.state.now.trail.entries };

    ghost faults = { λ a. L.faults a.log.now.sink.now };

    ghost goes_on = { λ a why b. AreLentAlike a b × GoesOn L.Sink a.log.now why b.log.now };

    ghost rests = { λ a. (alike_rest a, log_rests _ L.keeps_itself a.log.now) };

    ghost stops = { λ a. (alike_rest a, log_stops _ L.keeps_itself a.log.now) };

    ghost goes_on_then = { λ a b c why h k. (alike_then a b c h.0 k.0, log_then _ L.keeps_on a.log.now b.log.now c.log.now why h.1 k.1) };

    fn look(&self, _reason: Reason, _literal: Lit) -> Option<(&[Lit], u64)> {
        None
    }

    fn clause_of(&mut self, reason: Reason, literal: Lit) -> Result<(LitList, u64), CoreFault> {
        let hinted = self.clause_at_zero(reason, literal)?;
        Ok((hinted.lits, hinted.id))
    }
}

/// The literals of level 0 that a false clause rests on, where that is the current level. The clauses of rows that are told for it come after these rows.
pub(crate) fn trace_all<'x, 'r, 'f, P: ParityEngine, L: Sink<Item = LogEvent>>(
    log: &'x mut SearchLog<L>,
    state: &'x SearchState,
    engine: &'x P,
    clause: &LitList,
    first: &'f Option<EndingRow>,
    rows: &'r mut ToldRows,
    marks: &mut Marks,
) -> Result<Final, CoreFault>
    requires ready { CanAnalyse P.ParityEngine L.Sink log.old state.now engine.now marks.old rows.old }
    requires first { IsFirst log.old.formula.now.constraints state.now (P.state engine.now) first.now }
    requires false_now { (m : Literal) → IsTrue (has_literal clause.now m) → IsFalseIn state.now.trail.entries m }
    requires few_rows { length rows.old ≤ 1 }
    ensures held { AreHeld (IsHeldBeside state.now rows.old first.now) (IsHeldBeside state.now rows.new first.now) }
    ensures left { IfOk result (λ x. IsFinal state.now.trail (length state.now.trail.entries) None clause.now (IsHeldBeside state.now rows.new first.now) x.resolved.items x.lits) }
    ensures stand { IfOk result (λ x. (l : Literal) → IsTrue (has_literal (literals_of x.resolved.items) l) → StandsBelow state.now.trail (length state.now.trail.entries) l) }
    ensures on { AnalysesOn P.ParityEngine L.Sink log.old log.new state.now engine.now marks.new rows.new result }
{
    let alloc = log.alloc;
    let below = state.trail.len();
    let mut source = ZeroSource {
        log,
        state,
        engine,
        rows,
        first,
    };
    analyse_final(
        alloc,
        &state.trail,
        clause.as_slice(),
        &None,
        below,
        marks,
        &mut source,
    )
}
