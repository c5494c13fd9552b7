//! The beginning of a search.
ghost use Rattle.std.specs.Prelude.{◌≡◌, ◌+◌, ◌<◌, ◌≤◌, false, [], List, length, drop, IfOk, OnOk, Option};
ghost use Rattle.cx_base.specs.Literals.{Literal};
ghost use Rattle.cx_base.specs.declared.steps.LogEvent.{LogEvent};
ghost use Rattle.conflict_learn.specs.Faults.{fault_in};
ghost use Rattle.cdcl_search.specs.Logs.{GoesOn, HasNotFailed, told_in};
ghost use Rattle.cdcl_core.specs.Beginning.{SearchBegins};
ghost use Rattle.cdcl_core.specs.Filling.{IsFilled};
ghost use Rattle.cdcl_core.specs.Given.{AreEngines, HasGiven};
ghost use Rattle.cdcl_core.specs.Waiting.{SearchStandsBut, Puts};

use crate::ending::refute;
use crate::filling::{Filled, Single};
use crate::tautologies::begin_tidying;
use cdcl_search::SearchState;
use cdcl_search::logs::SearchLog;
use conflict_learn::CoreFault;
use cx_base::{Formula, Lit, LogEvent, ParityList};
use cx_trail::{Reason, Truth};
use parity_engine::ParityEngine;
use std::alloc::AllocError;
use step_text::Sink;

/// Puts the literal of the unit clause at a place on the trail. False where its negation is there: then the log is
/// ended.
fn put_unit<L: Sink<Item = LogEvent>>(
    log: &mut SearchLog<L>,
    state: &mut SearchState,
    units: &[Single],
    place: usize,
) -> Result<bool, CoreFault>
    requires place { place < length units.now }
    requires stands { (engines : List (List Literal)) × SearchStandsBut log.old.formula.now engines state.old (drop place units.now) (told_in L.Sink log.old) }
    requires going { HasNotFailed L.Sink log.old }
    ensures puts { IfOk result (Puts L.Sink log.old state.old (drop place units.now) log.new state.new (drop (place + 1) units.now)) }
    ensures tidies { state.new.tidies ≡ state.old.tidies }
    ensures log { GoesOn L.Sink log.old (fault_in result) log.new }
{
    let unit = units[place];
    match state.trail.truth(unit.literal) {
        Truth::True => Ok(true),
        Truth::False => {
            refute(log, state, &[unit.literal], unit.number)?;
            Ok(false)
        }
        Truth::Open => {
            state.units.push(unit.number)?;
            state.trail.imply(unit.literal, Reason::Decision);
            Ok(true)
        }
    }
}

/// Puts the literals of the unit clauses on the trail. False where two contradict each other: then the log is ended.
fn put_units<L: Sink<Item = LogEvent>>(
    log: &mut SearchLog<L>,
    state: &mut SearchState,
    units: &[Single],
) -> Result<bool, CoreFault>
    requires stands { (engines : List (List Literal)) × SearchStandsBut log.old.formula.now engines state.old units.now (told_in L.Sink log.old) }
    requires going { HasNotFailed L.Sink log.old }
    ensures puts { IfOk result (Puts L.Sink log.old state.old units.now log.new state.new []) }
    ensures tidies { state.new.tidies ≡ state.old.tidies }
    ensures log { GoesOn L.Sink log.old (fault_in result) log.new }
{
    for place in 0..units.len() {
        if !put_unit(log, state, units, place)? {
            return Ok(false);
        }
    }
    Ok(true)
}

/// Has a search tidy at restarts, or not.
fn settle_tidying(
    formula: &Formula,
    state: &mut SearchState,
    tidies: bool,
) -> Result<(), AllocError>
    requires few { length formula.now.constraints ≤ 4294967295 }
    requires plain { state.old.tidies ≡ false }
    requires stands { (engines : List (List Literal)) × (told : Option (List LogEvent)) × SearchStandsBut formula.now engines state.old [] told }
    ensures tidies { OnOk result (state.new.tidies ≡ tidies) }
    ensures stands { OnOk result ((engines : List (List Literal)) (told : Option (List LogEvent)) → SearchStandsBut formula.now engines state.old [] told → SearchStandsBut formula.now engines state.new [] told) }
{
    if !tidies {
        return Ok(());
    }
    begin_tidying(formula, state)
}

/// Puts the unit clauses on the trail and makes the engine over these parities; the search then tidies, or not. None: an
/// empty clause, or two units that contradict each other, have ended the log.
pub(crate) fn start<P: ParityEngine, L: Sink<Item = LogEvent>>(
    log: &mut SearchLog<L>,
    filled: &mut Filled,
    parities: &ParityList,
    tidies: bool,
) -> Result<Option<P>, CoreFault>
    requires few { length log.old.formula.now.constraints ≤ 4294967295 }
    requires given { HasGiven log.old.formula.now parities.now (told_in L.Sink log.old) }
    requires engines { AreEngines log.old.formula.now parities.now }
    requires filled { IsFilled log.old.formula.now filled.old.state filled.old.units.items filled.old.empty }
    requires going { HasNotFailed L.Sink log.old }
    ensures begins { IfOk result (λ e. SearchBegins P.state tidies log.new.formula.now (told_in L.Sink log.new) filled.new.state e) }
    ensures log { GoesOn L.Sink log.old (fault_in result) log.new }
{
    // `vars` tells the proof that the literals of the formula are within its variables.
    let vars = log.formula.vars();
    if let Some(number) = filled.empty {
        refute(log, &filled.state, &[], number)?;
        return Ok(None);
    }
    if !put_units(log, &mut filled.state, &filled.units)? {
        return Ok(None);
    }
    settle_tidying(log.formula, &mut filled.state, tidies)?;
    let engine = P::make(log.alloc, vars, parities)?;
    Ok(Some(engine))
}
