//! Clauses of rows whose parities and sources are asked for only where the log needs them.
ghost use Rattle.std.specs.Prelude.{◌≡◌, ◌≤◌, ◌∷◌, ◌++◌, [], length, IfOk, IsFalse, IsSome, OnOk, OnErr};
ghost use Rattle.std.specs.List.{AllByRecursion};
ghost use Rattle.cx_base.specs.Assumptions.{is_ending};
ghost use Rattle.parity_engine.specs.State.{OfNamed, named_at};
ghost use Rattle.parity_engine.specs.Written.{IsWritten};
ghost use Rattle.cdcl_search.specs.Calls.{StandsOn, Tells};
ghost use Rattle.cdcl_search.specs.Explaining.{IsReasonOf};
ghost use Rattle.cdcl_search.specs.Logs.{HasNotFailed, IsRightBehind, Stands};
ghost use Rattle.cdcl_search.specs.RowClauses.{ExplainsRow, IsClauseOfRow, parity_of, row_clause_events, sources_at};
ghost use Rattle.cdcl_search.specs.Tells.{AreTellable, IsId};

use crate::logs::SearchLog;
use crate::rows::{RowIds, next_ids, row_steps, tell_made};
use crate::state::SearchState;
use crate::telling::tell_unmade;
use crate::told_rows::{GhostClauses, ToldRows};
use conflict_learn::CoreFault;
use cx_base::{Lit, LitList, LogEvent, Row};
use cx_trail::Trail;
use parity_engine::ParityEngine;
use std::alloc::AllocError;
use step_text::{Sink, Unmade};
use xor_reason::clause_in_place;

/// A row and the clause of the reason that it gives.
#[derive(Drop)]
pub(crate) struct RowClause {
    pub row: Row,
    pub clause: LitList,
    /// The row as a parity, which only contracts read.
    pub parity: GhostClauses,
}

/// The clause of the row that implied a literal of the trail. It is the only list that is made.
pub(crate) fn row_clause<P: ParityEngine>(
    engine: &P,
    row: Row,
    literal: Lit,
    trail: &Trail,
) -> Result<RowClause, AllocError>
    requires reason { IsReasonOf (P.state engine.now) trail.now.entries literal row }
    ensures { IfOk result (IsClauseOfRow (P.state engine.now) trail.now row literal) }
{
    let lits = engine.row_parity(row)?;
    let mut parity = GhostClauses::new();
    parity.push(&lits);
    let clause = clause_in_place(trail, Some(literal), lits);
    Ok(RowClause {
        row,
        clause,
        parity,
    })
}

/// The steps of a row of which only the clause is made.
#[derive(Drop)]
struct UnmadeRowClause<'a, P> {
    ids: RowIds,
    engine: &'a P,
    made: &'a RowClause,
}

impl<P: ParityEngine> Unmade<LogEvent> for UnmadeRowClause<'_, P> {
    ghost items = { λ r. row_clause_events r.ids (P.state r.engine.now) r.made.now };
}

/// Tells the steps of a row, which leave the log right. Its parity and its sources are asked for only where the log does not
/// take the steps unmade.
fn tell_row_clause<P: ParityEngine, L: Sink<Item = LogEvent>>(
    log: &mut SearchLog<L>,
    engine: &P,
    ids: RowIds,
    made: &RowClause,
) -> Result<(), CoreFault>
    requires named { IsSome (named_at (P.state engine.now) made.now.row) }
    requires written { OfNamed (P.state engine.now) made.now.row (λ n. IsWritten n.form (parity_of made.now)) }
    requires proper { IsId ids.sum × IsId ids.clause }
    requires sources { AllByRecursion IsId (sources_at (P.state engine.now) made.now.row) }
    requires events { AreTellable log.old.formula.now (row_clause_events ids (P.state engine.now) made.now) }
    requires going { HasNotFailed L.Sink log.old }
    requires right { IsRightBehind L.Sink log.old (row_clause_events ids (P.state engine.now) made.now) }
    ensures { Tells L.Sink log.old (row_clause_events ids (P.state engine.now) made.now) result log.new }
{
    let unmade = UnmadeRowClause { ids, engine, made };
    if tell_unmade(log, &unmade) {
        return Ok(());
    }
    let parity = engine.row_parity(made.row)?;
    let sources = engine.row_sources(made.row)?;
    let steps = row_steps(log.alloc, ids, &parity, sources, &made.clause)?;
    tell_made(log, steps)
}

/// Tells the clause of a row, which does not end the log, and adds it to those that were told.
///
/// `engine` is the engine that named the row.
pub(crate) fn tell_row_reason<P: ParityEngine, L: Sink<Item = LogEvent>>(
    log: &mut SearchLog<L>,
    state: &SearchState,
    engine: &P,
    made: &RowClause,
    rows: &mut ToldRows,
) -> Result<(), CoreFault>
    requires stands { Stands P.ParityEngine L.Sink log.old state.now engine.now rows.old }
    requires going { HasNotFailed L.Sink log.old }
    requires explains { ExplainsRow (P.state engine.now) state.now.trail made.now }
    requires goes_on { IsFalse (is_ending log.old.formula.now.constraints made.now.clause) }
    requires room { length rows.old ≤ log.old.formula.now.variables }
    ensures same { OnErr result (rows.new ≡ rows.old) }
    ensures rows { OnOk result (rows.new ≡ rows.old ++ made.now.clause ∷ []) }
    ensures stands_on { StandsOn P.ParityEngine L.Sink log.old log.new state.now engine.now (rows.old ++ made.now.clause ∷ []) result }
{
    let ids = next_ids(log.formula, state.next, rows);
    tell_row_clause(log, engine, ids, made)?;
    rows.push(&made.clause);
    Ok(())
}
