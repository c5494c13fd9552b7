//! Rows at level 0 whose clause would end the log.
ghost use Rattle.std.specs.Prelude.{◌≡◌, ◌<◌, ◌≤◌, length, None, IfOk, IfSome, IsTrue, IsFalse};
ghost use Rattle.cx_base.specs.Assumptions.{clashes, is_ending};
ghost use Rattle.cx_trail.specs.Sequence.{IsTrail, entry_at};
ghost use Rattle.conflict_learn.specs.Learning.{literal_at};
ghost use Rattle.cdcl_search.specs.Ties.{HaveReasons};
ghost use Rattle.xor_reason.specs.Reasons.{IsReason};
ghost use Rattle.cdcl_core.specs.Refuting.{HasRowBeside, HasVariablesOf, IsEndingRow, IsFirst, IsImpliedAt, RowGoesOn};

use cdcl_search::SearchState;
use cx_base::{Formula, Lit, Row};
use cx_trail::Reason;
use parity_engine::ParityEngine;
use std::alloc::{AllocError, Global};
use xor_reason::{ReasonOf, ReasonPair, reason_clause, sum_of_reasons};

/// A row whose clause would end the log, with the literal of the trail that it implied.
#[derive(Drop)]
pub(crate) struct EndingRow {
    pub literal: Lit,
    pub reason: ReasonOf,
}

/// A search at level 0, as its rows are looked over.
#[derive(Drop)]
pub(crate) struct LevelZero<'z, P> {
    pub alloc: Global,
    pub formula: &'z Formula,
    pub state: &'z SearchState,
    pub engine: &'z P,
}

impl<P: ParityEngine> LevelZero<'_, P> {
    /// The row that implied this literal, at this place, where its clause would end the log.
    fn ending_of_row(
        &self,
        row: Row,
        literal: Lit,
        place: usize,
    ) -> Result<Option<EndingRow>, AllocError>
        requires sound { IsTrail self.now.state.now.trail }
        requires reasons { HaveReasons self.now.state.now (P.state self.now.engine.now) }
        requires implied { IsImpliedAt self.now.state.now place literal row }
        ensures some { IfOk result (λ o. IfSome o (IsEndingRow self.now.formula.now.constraints self.now.state.now (P.state self.now.engine.now) place)) }
        ensures none { IfOk result (λ o. o ≡ None → RowGoesOn self.now.formula.now.constraints self.now.state.now (P.state self.now.engine.now) place) }
    {
        if !self.formula.assumes(literal.negate()) {
            return Ok(None);
        }
        let reason = reason_clause(
            self.alloc,
            self.engine,
            row,
            Some(literal),
            &self.state.trail,
        )?;
        if !self.formula.is_ending(reason.clause.as_slice()) {
            return Ok(None);
        }
        Ok(Some(EndingRow { literal, reason }))
    }

    /// The row that implied this literal, at this place and for this reason, where its clause would end the log.
    fn ending_by(
        &self,
        reason: Reason,
        literal: Lit,
        place: usize,
    ) -> Result<Option<EndingRow>, AllocError>
        requires sound { IsTrail self.now.state.now.trail }
        requires reasons { HaveReasons self.now.state.now (P.state self.now.engine.now) }
        requires late { length self.now.state.now.units.items ≤ place }
        requires within { place < length self.now.state.now.trail.entries }
        requires is { literal_at self.now.state.now.trail place ≡ literal }
        requires reason { (entry_at self.now.state.now.trail.entries place).reason ≡ reason }
        ensures some { IfOk result (λ o. IfSome o (IsEndingRow self.now.formula.now.constraints self.now.state.now (P.state self.now.engine.now) place)) }
        ensures none { IfOk result (λ o. o ≡ None → RowGoesOn self.now.formula.now.constraints self.now.state.now (P.state self.now.engine.now) place) }
    {
        match reason {
            Reason::Row(row) => self.ending_of_row(row, literal, place),
            Reason::Clause(_) => Ok(None),
            Reason::Decision => Ok(None),
        }
    }

    /// The row that implied the literal at a place, where its clause would end the log.
    fn ending_at(&self, place: usize) -> Result<Option<EndingRow>, AllocError>
        requires sound { IsTrail self.now.state.now.trail }
        requires reasons { HaveReasons self.now.state.now (P.state self.now.engine.now) }
        requires late { length self.now.state.now.units.items ≤ place }
        requires within { place < length self.now.state.now.trail.entries }
        ensures some { IfOk result (λ o. IfSome o (IsEndingRow self.now.formula.now.constraints self.now.state.now (P.state self.now.engine.now) place)) }
        ensures none { IfOk result (λ o. o ≡ None → RowGoesOn self.now.formula.now.constraints self.now.state.now (P.state self.now.engine.now) place) }
    {
        let entry = self.state.trail.entry(place);
        self.ending_by(entry.reason, entry.literal, place)
    }

    /// The first row of the trail whose clause would end the log.
    pub(crate) fn first_ending(&self) -> Result<Option<EndingRow>, AllocError>
        requires sound { IsTrail self.now.state.now.trail }
        requires reasons { HaveReasons self.now.state.now (P.state self.now.engine.now) }
        ensures { IfOk result (IsFirst self.now.formula.now.constraints self.now.state.now (P.state self.now.engine.now)) }
    {
        for place in self.state.units.len()..self.state.trail.len() {
            if let Some(row) = self.ending_at(place)? {
                return Ok(Some(row));
            }
        }
        Ok(None)
    }

    /// The reason that a row gives, where its clause would not end the log; else the sum of the row and of the first one whose clause would.
    pub(crate) fn going_on(
        &self,
        first: &Option<EndingRow>,
        reason: ReasonOf,
        implied: Option<Lit>,
    ) -> Result<ReasonOf, AllocError>
        requires sound { IsTrail self.now.state.now.trail }
        requires apart { IsFalse (clashes self.now.formula.now.constraints) }
        requires reason { IsReason (P.state self.now.engine.now).parities self.now.state.now.trail implied reason }
        requires first { IsFirst self.now.formula.now.constraints self.now.state.now (P.state self.now.engine.now) first.now }
        requires beside { IsTrue (is_ending self.now.formula.now.constraints reason.clause) → HasRowBeside implied first.now }
        ensures goes_on { IfOk result (λ r. IsFalse (is_ending self.now.formula.now.constraints r.clause)) }
        ensures reason { IfOk result (IsReason (P.state self.now.engine.now).parities self.now.state.now.trail implied) }
        ensures variables { IfOk result (λ r. HasVariablesOf self.now.formula.now.constraints reason.clause first.now r.clause) }
    {
        let clause = reason.clause.as_slice();
        if !self.formula.is_ending(clause) {
            return Ok(reason);
        }
        match first {
            Some(row) => {
                let pair = ReasonPair {
                    one: &reason,
                    other: &row.reason,
                };
                sum_of_reasons(self.alloc, self.engine, pair, implied, &self.state.trail)
            }
            None => unreachable!(),
        }
    }
}
