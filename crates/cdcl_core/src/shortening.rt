//! Rows without the literals that are known at level 0.
ghost use Rattle.std.specs.Prelude.{◌≡◌, ◌+◌, ◌≤◌, [], ◌∷◌, ◌++◌, length, IfOk, OnOk, IfSome, None};
ghost use Rattle.std.specs.List.{All, AllByRecursion, range_with_len};
ghost use Rattle.cx_base.specs.Integers.{integer_of};
ghost use Rattle.cx_base.specs.Literals.{negate};
ghost use Rattle.cx_base.specs.declared.steps.LogStep.TheVariants.{ParityOfClauses};
ghost use Rattle.cdcl_search.specs.Tells.{as_events, AreIdsFrom, AreStepsOf, IsId, IsStep, IsTellable};
ghost use Rattle.cdcl_core.specs.Shortening.{EndsBy, HasNoUnit, IsShortened, IsToldUnit, unit_parity_events};

use crate::conflicts::LogEnd;
use crate::failing::negated;
use cdcl_search::SearchState;
use cdcl_search::integers::integers;
use cdcl_search::steps::{clause_of_sum, recovered_parity, sum};
use cx_base::{Formula, IdList, Lit, LitList, LogStep};
use cx_trail::Truth;
use std::alloc::{AllocError, Global};

/// A literal with the id of its unit clause.
#[derive(Clone, Copy, Drop)]
pub(crate) struct UnitClause {
    pub literal: Lit,
    pub id: u64,
}

/// What is left of a clause, and the unit clauses that make its other literals false.
#[derive(Drop)]
pub(crate) struct Shortened {
    pub left: LitList,
    pub units: Vec<UnitClause>,
}

/// The unit clause of level 0 that makes a literal false, where one was told.
fn unit_against(state: &SearchState, lit: Lit) -> Option<UnitClause>
    requires known { lit.variable ≤ state.now.trail.variables }
    requires few { length state.now.units.items ≤ length state.now.trail.entries }
    ensures told { IfSome result (λ u. IsToldUnit state.now u × (u.literal ≡ negate lit)) }
    ensures none { result ≡ None → HasNoUnit state.now (negate lit) }
{
    match state.trail.truth(lit) {
        Truth::False => {
            let place = state.trail.place_of(lit);
            if place >= state.units.len() {
                return None;
            }
            Some(UnitClause {
                literal: lit.negate(),
                id: state.units[place],
            })
        }
        _ => None,
    }
}

/// What is left of a clause without the literals that unit clauses of level 0 make false.
pub(crate) fn shorten(
    alloc: Global,
    state: &SearchState,
    clause: &[Lit],
) -> Result<Shortened, AllocError>
    requires known { All (λ l. l.variable ≤ state.now.trail.variables) clause.now }
    requires few { length state.now.units.items ≤ length state.now.trail.entries }
    ensures { IfOk result (IsShortened state.now clause.now) }
{
    let mut left = Vec::new(alloc);
    let mut units = Vec::new(alloc);
    for lit in clause {
        match unit_against(state, *lit) {
            Some(unit) => units.push(unit)?,
            None => left.push(*lit)?,
        }
    }
    Ok(Shortened {
        left: LitList::from_vec(left),
        units,
    })
}

/// The parity of a unit clause.
fn unit_parity(alloc: Global, id: u64, unit: UnitClause) -> Result<LogStep, AllocError>
    requires id { IsId id }
    requires unit { IsId unit.id }
    ensures { IfOk result (IsStep (ParityOfClauses id (integer_of unit.literal ∷ []) (unit.id ∷ []))) }
{
    let lits = integers(alloc, &[unit.literal])?;
    let mut clauses = Vec::with_capacity(alloc, 1)?;
    clauses.push(unit.id)?;
    Ok(recovered_parity(id, lits, IdList::from_vec(clauses)))
}

/// Adds the parities of these unit clauses to some steps, under the ids from the first one on.
fn push_unit_parities(
    alloc: Global,
    steps: &mut Vec<LogStep>,
    first: u64,
    units: &[UnitClause],
) -> Result<(), AllocError>
    requires texts { AllByRecursion IsTellable steps.old.items }
    requires ids { AreIdsFrom first (length units.now) }
    requires units { AllByRecursion (λ u. IsId u.id) units.now }
    ensures { OnOk result (AreStepsOf (as_events steps.old.items ++ unit_parity_events first units.now) steps.new.items) }
{
    let mut id = first;
    for unit in units {
        let step = unit_parity(alloc, id, *unit)?;
        steps.push(step)?;
        id += 1;
    }
    Ok(())
}

/// A copy of these ids, and so many after them from the first one on.
fn with_ids(alloc: Global, ids: &[u64], first: u64, count: usize) -> Result<IdList, AllocError>
    requires { AreIdsFrom first count }
    ensures { IfOk result (λ all. all ≡ ids.now ++ range_with_len first count) }
{
    let mut all = ids.to_vec(alloc)?;
    for place in 0..count {
        all.push(first + place as u64)?;
    }
    Ok(IdList::from_vec(all))
}

/// The last steps of a log, after some: the parities of unit clauses, the sum of these and of a row's sources, and its clause under this id.
pub(crate) fn last_steps(
    alloc: Global,
    formula: &Formula,
    id: u64,
    sources: &[u64],
    short: &Shortened,
    before: Vec<LogStep>,
) -> Result<LogEnd, AllocError>
    requires texts { AllByRecursion IsTellable before.items }
    requires id { IsId id }
    requires sources { AllByRecursion IsId sources.now }
    requires units { AllByRecursion (λ u. IsId u.id) short.now.units.items }
    requires ids { AreIdsFrom (length formula.now.constraints + 1) (length short.now.units.items) }
    ensures { IfOk result (EndsBy (length formula.now.constraints) id sources.now short.now (as_events before.items)) }
{
    let first = formula.len() as u64 + 1;
    let number = first + short.units.len() as u64;
    let mut steps = before;
    push_unit_parities(alloc, &mut steps, first, &short.units)?;
    let sources = with_ids(alloc, sources, first, short.units.len())?;
    let parity = integers(alloc, short.left.as_slice())?;
    steps.push(sum(number, parity, sources))?;
    let clause = integers(alloc, short.left.as_slice())?;
    steps.push(clause_of_sum(id, clause, number))?;
    let failed = negated(alloc, short.left.as_slice())?;
    Ok(LogEnd { steps, failed })
}
