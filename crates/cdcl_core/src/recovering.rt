//! The engine's parities: the formula's, and those that it has as clauses.
ghost use Rattle.std.specs.Prelude.{◌≡◌, ◌+◌, ◌<◌, ◌≤◌, ◌∷◌, [], ◌++◌, length, take, OnOk, IfOk, IsFalse};
ghost use Rattle.cx_base.specs.Assumptions.{clashes};
ghost use Rattle.std.specs.List.{AllByRecursion};
ghost use Rattle.cx_base.specs.Problem.{parities_of};
ghost use Rattle.cx_base.specs.Integers.{integers_of};
ghost use Rattle.cx_base.specs.declared.steps.LogStep.TheVariants as step;
ghost use Rattle.conflict_learn.specs.Faults.{fault_in};
ghost use Rattle.cdcl_search.specs.Logs.{GoesOn, HasNotFailed, told_in};
ghost use Rattle.cdcl_search.specs.Tells.{IsId, IsStep};
ghost use Rattle.cdcl_core.specs.Given.{AreEngines, HasGiven, IsRightFind};
ghost use Rattle.cdcl_core.specs.Originals.{HasBegun};

use cdcl_search::integers::integers;
use cdcl_search::logs::SearchLog;
use cdcl_search::rows::copy_of;
use cdcl_search::steps::recovered_parity;
use cdcl_search::telling::tell_step;
use conflict_learn::CoreFault;
use cx_base::{ConstraintRef, Formula, IdList, Lit, LitList, LogEvent, LogStep, ParityList};
use std::alloc::{AllocError, Global};
use step_text::Sink;
use xor_recover::{FoundParity, recover};

/// Puts the parity at a place of the formula, where there is one, after those of the places before.
fn add_parity(
    alloc: Global,
    formula: &Formula,
    place: usize,
    parities: &mut Vec<LitList>,
) -> Result<(), AllocError>
    requires place { place < length formula.now.constraints }
    requires before { parities.old.items ≡ parities_of (take place formula.now.constraints) }
    ensures { OnOk result (parities.new.items ≡ parities_of (take (place + 1) formula.now.constraints)) }
{
    match formula.item(place) {
        ConstraintRef::Clause(_) => Ok(()),
        ConstraintRef::Assume(_) => Ok(()),
        ConstraintRef::Parity(lits) => {
            parities.push(copy_of(alloc, lits)?)?;
            Ok(())
        }
    }
}

/// The formula's parities, in order.
fn parities(alloc: Global, formula: &Formula) -> Result<Vec<LitList>, AllocError>
    ensures { IfOk result (λ p. p.items ≡ parities_of formula.now.constraints) }
{
    let mut parities = Vec::with_capacity(alloc, formula.parity_count())?;
    for place in 0..formula.len() {
        add_parity(alloc, formula, place, &mut parities)?;
    }
    Ok(parities)
}

/// The step of a recovered parity.
fn step_of(alloc: Global, id: u64, find: &FoundParity) -> Result<LogStep, AllocError>
    requires id { IsId id }
    requires clauses { AllByRecursion IsId find.now.clauses }
    ensures { IfOk result (IsStep (step.ParityOfClauses id (integers_of find.now.parity) find.now.clauses)) }
{
    let lits = integers(alloc, find.parity.as_slice())?;
    let clauses = IdList::from_vec(find.clauses.as_slice().to_vec(alloc)?);
    Ok(recovered_parity(id, lits, clauses))
}

/// Tells a recovered parity under the next id, and puts it after these.
fn tell_find<L: Sink<Item = LogEvent>>(
    log: &mut SearchLog<L>,
    find: &FoundParity,
    parities: &mut Vec<LitList>,
) -> Result<(), CoreFault>
    requires few { length log.old.formula.now.constraints ≤ 4294967295 }
    requires fewer { length parities.old.items < length log.old.formula.now.constraints }
    requires given { HasGiven log.old.formula.now parities.old.items (told_in L.Sink log.old) }
    requires find { IsRightFind log.old.formula.now find.now }
    requires going { HasNotFailed L.Sink log.old }
    ensures given { OnOk result (HasGiven log.new.formula.now parities.new.items (told_in L.Sink log.new)) }
    ensures one_more { OnOk result (parities.new.items ≡ parities.old.items ++ find.now.parity ∷ []) }
    ensures log { GoesOn L.Sink log.old (fault_in result) log.new }
{
    let id = parities.len() as u64 + 1;
    let parity = copy_of(log.alloc, find.parity.as_slice())?;
    let step = step_of(log.alloc, id, find)?;
    tell_step(log, step)?;
    parities.push(parity)?;
    Ok(())
}

/// Tells the parities that are recovered from the formula's clauses, and gives them after the formula's own.
pub(crate) fn all_parities<L: Sink<Item = LogEvent>>(
    log: &mut SearchLog<L>,
) -> Result<ParityList, CoreFault>
    requires few { length log.old.formula.now.constraints ≤ 4294967295 }
    requires apart { IsFalse (clashes log.old.formula.now.constraints) }
    requires begun { HasBegun log.old.formula.now log.old.formula.now.constraints (told_in L.Sink log.old) }
    requires going { HasNotFailed L.Sink log.old }
    ensures given { IfOk result (λ p. HasGiven log.new.formula.now p (told_in L.Sink log.new)) }
    ensures engines { IfOk result (AreEngines log.new.formula.now) }
    ensures log { GoesOn L.Sink log.old (fault_in result) log.new }
{
    // `vars` tells the proof that the literals of the formula are within its variables.
    let _vars = log.formula.vars();
    let finds = recover(log.alloc, log.formula)?.into_vec();
    let mut parities = parities(log.alloc, log.formula)?;
    parities.reserve_exact(finds.len())?;
    for place in 0..finds.len() {
        tell_find(log, &finds[place], &mut parities)?;
    }
    Ok(ParityList::from_vec(parities))
}
