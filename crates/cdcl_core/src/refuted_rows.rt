//! The last steps of a row whose clause would end the log, at a conflict at level 0: the empty clause follows.
ghost use Rattle.std.specs.Prelude.{◌≡◌, ℕ, ◌≤◌, [], ◌∷◌, ◌++◌, length, OnOk, IfOk};
ghost use Rattle.std.specs.List.{All, AllByRecursion};
ghost use Rattle.cx_base.specs.Integers.{integer_of};
ghost use Rattle.cx_base.specs.declared.steps.LogStep.TheVariants as step;
ghost use Rattle.parity_engine.specs.Written.{AreRising};
ghost use Rattle.cdcl_search.specs.Sources.{HasIds};
ghost use Rattle.cdcl_search.specs.Tells.{as_events, AreIdsFrom, AreStepsOf, IsId, IsStep, IsTellable};
ghost use Rattle.cdcl_core.specs.Shortening.{EndsByUnits, late_unit_events, late_units_from};

use crate::conflicts::LogEnd;
use crate::shortening::{Shortened, UnitClause, last_steps, shorten};
use cdcl_search::SearchState;
use cdcl_search::integers::integers;
use cdcl_search::rows::first_id_of_rows;
use cdcl_search::steps::chained;
use cx_base::{Formula, IntList, Lit, LitList, LogStep};
use std::alloc::{AllocError, Global};
use xor_reason::ReasonOf;

/// A unit clause by a chain of these hints.
fn late_unit(alloc: Global, unit: UnitClause, hints: &IntList) -> Result<LogStep, AllocError>
    requires { IsId unit.id }
    ensures { IfOk result (IsStep (step.ClauseWithHints unit.id (integer_of unit.literal ∷ []) hints.now)) }
{
    let lits = integers(alloc, &[unit.literal])?;
    Ok(chained(unit.id, lits, hints.clone()?))
}

/// Adds the unit clauses of these literals' negations to some steps and to the units, by chains of these hints and under the ids from the first one on.
fn push_late_units(
    alloc: Global,
    steps: &mut Vec<LogStep>,
    units: &mut Vec<UnitClause>,
    first: u64,
    lits: &[Lit],
    hints: &IntList,
) -> Result<(), AllocError>
    requires texts { AllByRecursion IsTellable steps.old.items }
    requires ids { AreIdsFrom first (length lits.now) }
    ensures steps { OnOk result (AreStepsOf (as_events steps.old.items ++ late_unit_events hints.now (late_units_from first lits.now)) steps.new.items) }
    ensures units { OnOk result (units.new.items ≡ units.old.items ++ late_units_from first lits.now) }
{
    let mut id = first;
    for lit in lits {
        let literal = lit.negate();
        let step = late_unit(alloc, UnitClause { literal, id }, hints)?;
        steps.push(step)?;
        units.push(UnitClause { literal, id })?;
        id += 1;
    }
    Ok(())
}

/// The steps of a row without all of its literals: those that have no unit clause yet get one, by a chain of these hints.
pub(crate) fn end_of_refuted(
    alloc: Global,
    formula: &Formula,
    state: &SearchState,
    reason: &ReasonOf,
    hints: &IntList,
    rows: usize,
) -> Result<LogEnd, AllocError>
    requires ids { HasIds state.now }
    requires constraints { length formula.now.constraints ≤ 4294967295 }
    requires room { (state.now.next ≤ 1000000005000000000) × (rows ≤ 268435456) }
    requires units { length state.now.units.items ≤ length state.now.trail.entries }
    requires known { All (λ l. l.variable ≤ state.now.trail.variables) reason.now.clause }
    requires short { length reason.now.clause ≤ 268435455 }
    requires sources { (parities : ℕ) × (parities ≤ length formula.now.constraints) × AreRising 1 parities reason.now.sources }
    ensures { IfOk result (EndsByUnits state.now (length formula.now.constraints) rows reason.now hints.now) }
{
    let short = shorten(alloc, state, reason.clause.as_slice())?;
    let Shortened { left, units } = short;
    let mut units = units;
    let lits = left.as_slice();
    let first = first_id_of_rows(state.next) + rows as u64;
    let mut steps = Vec::new(alloc);
    push_late_units(alloc, &mut steps, &mut units, first, lits, hints)?;
    let id = first + lits.len() as u64;
    let last = Shortened {
        left: LitList::from_vec(Vec::new(alloc)),
        units,
    };
    last_steps(alloc, formula, id, reason.sources.as_slice(), &last, steps)
}
