//! Where the clauses that implied the literals of the trail come from.
ghost use Rattle.std.specs.Prelude.{◌≡◌, ℕ, ◌+◌, ◌-◌, ◌<◌, ◌≤◌, [], ◌∷◌, ◌++◌, List, length, get_or, IfOk, IfSome, OnOk, OnErr, IsFalse};
ghost use Rattle.cx_base.specs.Assumptions.{assumes};
ghost use Rattle.cx_base.specs.Literals.{Literal, negate};
ghost use Rattle.cx_trail.specs.Sequence.{entry_at};
ghost use Rattle.clause_arena.specs.Clauses.{IsLive, id_at, literals_at};
ghost use Rattle.conflict_learn.specs.Learning.{HasReason, IsAntecedent};
ghost use Rattle.parity_engine.specs.State.{State};
ghost use Rattle.cdcl_search.specs.Calls.{CanTellRow, StandsOn};
ghost use Rattle.cdcl_search.specs.Explaining.{IsReasonOf};
ghost use Rattle.cdcl_search.specs.Sources.{HasIds, IsApartByRow, IsHeldFor, IsHinted, IsNextRow, IsSourcedBy, RowsAreApart};
ghost use Rattle.cdcl_search.specs.Ties.{HaveReasons, SearchStands};
ghost use Rattle.cdcl_search.specs.Logs.{GoesOn, HasNotFailed};
ghost use Rattle.cdcl_search.specs.Loans.{HasSameLoans, loans_rest, loans_then};
ghost use Rattle.cdcl_search.specs.GoingOn.{log_rests, log_stops, log_then};

use crate::logs::SearchLog;
use crate::row_clauses::{row_clause, tell_row_reason};
use crate::rows::{copy_of, next_ids};
use crate::state::SearchState;
use crate::told_rows::ToldRows;
use conflict_learn::{Antecedents, CoreFault};
use cx_base::{ClauseRef, Lit, LitList, LogEvent, Row};
use cx_trail::Reason;
use parity_engine::ParityEngine;
use std::alloc::{AllocError, Global};
use step_text::Sink;

/// A clause with its id in the log.
#[derive(Drop)]
pub struct Hinted {
    pub lits: LitList,
    pub id: u64,
}

/// The unit clause of a literal of level 0.
pub fn unit(alloc: Global, state: &SearchState, place: usize) -> Result<Hinted, AllocError>
    requires unit { place < length state.now.units.items }
    requires place { place < length state.now.trail.entries }
    requires ids { HasIds state.now }
    ensures { IfOk result (IsHinted ((entry_at state.now.trail.entries place).literal ∷ []) (get_or state.now.units.items place 0)) }
{
    let mut lits = Vec::new(alloc);
    lits.push(state.trail.entry(place).literal)?;
    Ok(Hinted {
        lits: LitList::from_vec(lits),
        id: state.units[place],
    })
}

/// A clause of the arena.
pub fn stored(
    alloc: Global,
    state: &SearchState,
    reference: ClauseRef,
) -> Result<Hinted, AllocError>
    requires live { IsLive state.now.arena reference }
    requires ids { HasIds state.now }
    ensures { IfOk result (IsHinted (literals_at state.now.arena reference) (id_at state.now.arena reference)) }
{
    let lits = copy_of(alloc, state.arena.lits(reference))?;
    Ok(Hinted {
        lits,
        id: state.arena.id(reference),
    })
}

/// The literals of the clause of the arena that implied a literal, and its id.
fn lent(state: &SearchState, reason: Reason, literal: Lit) -> Option<(&[Lit], u64)>
    requires reason { HasReason state.now.trail literal reason }
    requires reasons { (e : State) × HaveReasons state.now e }
    ensures sourced { IfSome result (λ c. (rows : List (List Literal)) → IsSourcedBy state.now rows c.0.now c.1) }
    ensures implied { IfSome result (λ c. IsAntecedent state.now.trail literal c.0.now) }
{
    let place = state.trail.place_of(literal.negate());
    match reason {
        Reason::Clause(reference) if place >= state.units.len() => {
            Some((state.arena.lits(reference), state.arena.id(reference)))
        }
        _ => None,
    }
}

/// The clause of the row that implied a literal of the trail, which contradicts no assumed one. It is told.
fn hinted_row<P: ParityEngine, L: Sink<Item = LogEvent>>(
    log: &mut SearchLog<L>,
    state: &SearchState,
    engine: &P,
    row: Row,
    literal: Lit,
    rows: &mut ToldRows,
) -> Result<Hinted, CoreFault>
    requires ready { CanTellRow P.ParityEngine L.Sink log.old state.now engine.now rows.old }
    requires reason { IsReasonOf (P.state engine.now) state.now.trail.entries literal row }
    requires apart { IsFalse (assumes log.old.formula.now.constraints (negate literal)) }
    ensures clause { IfOk result (IsNextRow state.now rows.old literal) }
    ensures same { OnErr result (rows.new ≡ rows.old) }
    ensures rows { IfOk result (λ h. rows.new ≡ rows.old ++ h.lits ∷ []) }
    ensures stands_on { StandsOn P.ParityEngine L.Sink log.old log.new state.now engine.now rows.new result }
{
    let made = row_clause(engine, row, literal, &state.trail)?;
    let id = next_ids(log.formula, state.next, rows).clause;
    tell_row_reason(log, state, engine, &made, rows)?;
    Ok(Hinted {
        lits: made.clause,
        id,
    })
}

/// The clause that implied a literal of the trail. A row's is told, where the literal contradicts no assumed one.
pub(crate) fn clause_of_reason<P: ParityEngine, L: Sink<Item = LogEvent>>(
    log: &mut SearchLog<L>,
    state: &SearchState,
    engine: &P,
    reason: Reason,
    literal: Lit,
    rows: &mut ToldRows,
) -> Result<Hinted, CoreFault>
    requires ready { CanTellRow P.ParityEngine L.Sink log.old state.now engine.now rows.old }
    requires reason { HasReason state.now.trail literal reason }
    requires apart { IsApartByRow log.old.formula.now.constraints reason literal }
    ensures clause { IfOk result (IsHeldFor state.now rows.new literal) }
    ensures grows { (clause : List Literal) (n : ℕ) → IsSourcedBy state.now rows.old clause n → IsSourcedBy state.now rows.new clause n }
    ensures one { OnOk result (length rows.new ≤ length rows.old + 1) }
    ensures stands_on { StandsOn P.ParityEngine L.Sink log.old log.new state.now engine.now rows.new result }
{
    let place = state.trail.place_of(literal.negate());
    if place < state.units.len() {
        return Ok(unit(log.alloc, state, place)?);
    }
    match reason {
        Reason::Clause(reference) => Ok(stored(log.alloc, state, reference)?),
        Reason::Row(row) => hinted_row(log, state, engine, row, literal, rows),
        Reason::Decision => unreachable!(),
    }
}

/// The clauses of the arena, of level 0 and of the rows. A row's clause is told when it is asked for.
///
/// It owns no memory, so that its maker knows afterwards what was done to what it lent.
#[derive(Drop)]
pub struct Source<'a, 'b, P, L> {
    pub log: &'a mut SearchLog<'b, L>,
    pub state: &'a SearchState,
    pub engine: &'a P,
    /// The clauses of rows that were told since the last mark, in the order of their ids.
    pub rows: &'a mut ToldRows,
    /// No literal of the trail below this place that a row implied contradicts an assumed one.
    pub below: usize,
}

impl<P: ParityEngine, L: Sink<Item = LogEvent>> Antecedents for Source<'_, '_, P, L> {
    ghost trail = { λ a. a.state.now.trail };

    ghost holds = { λ a c n. IsSourcedBy a.state.now a.rows.now c n };

    ghost ready = { λ a. SearchStands a.log.now.formula.now a.state.now (P.state a.engine.now) a.rows.now (L.items a.log.now.sink.now)
        × RowsAreApart a.log.now.formula.now.constraints a.state.now.trail a.below × HasNotFailed L.Sink a.log.now };

    ghost room = { λ a. a.log.now.formula.now.variables + 1 - length a.rows.now };

    ghost reach = { λ a. a.below };

    ghost faults = { λ a. L.faults a.log.now.sink.now };

    ghost goes_on = { λ a why b. HasSameLoans a b × GoesOn L.Sink a.log.now why b.log.now };

    ghost rests = { λ a. (loans_rest a, log_rests _ L.keeps_itself a.log.now) };

    ghost stops = { λ a. (loans_rest a, log_stops _ L.keeps_itself a.log.now) };

    ghost goes_on_then = { λ a b c why h k. (loans_then a b c h.0 k.0, log_then _ L.keeps_on a.log.now b.log.now c.log.now why h.1 k.1) };

    fn look(&self, reason: Reason, literal: Lit) -> Option<(&[Lit], u64)> {
        lent(self.state, reason, literal)
    }

    fn clause_of(&mut self, reason: Reason, literal: Lit) -> Result<(LitList, u64), CoreFault> {
        let hinted = clause_of_reason(
            self.log,
            self.state,
            self.engine,
            reason,
            literal,
            self.rows,
        )?;
        Ok((hinted.lits, hinted.id))
    }
}
