//! Clauses that chains of clauses show.
ghost use Rattle.std.specs.Prelude.{◌≡◌, ℕ, ◌<◌, ◌≤◌, [], ◌∷◌, ◌++◌, length, get_or, pos, Some, OnOk, IfOk, IfSome};
ghost use Rattle.std.specs.List.{All, Contains};
ghost use Rattle.cx_base.specs.Numbers.{AreStepIntegers};
ghost use Rattle.cx_base.specs.Integers.{integers_of};
ghost use Rattle.cx_base.specs.Literals.{negate};
ghost use Rattle.cx_trail.specs.Sequence.{StandsAt};
ghost use Rattle.cx_base.specs.declared.steps.LogEvent.TheVariants.{Step};
ghost use Rattle.cx_base.specs.declared.steps.LogStep.TheVariants as step;
ghost use Rattle.cdcl_search.specs.Calls.{Tells};
ghost use Rattle.cdcl_search.specs.Logs.{HasNotFailed, IsRightBehind};
ghost use Rattle.cdcl_search.specs.Tells.{IsId};
ghost use Rattle.cdcl_search.specs.Units.{AreUnitsAnd};

use crate::integers::integers;
use crate::logs::SearchLog;
use crate::state::SearchState;
use crate::steps::chained;
use crate::telling::tell_step;
use conflict_learn::CoreFault;
use cx_base::{IntList, Lit, LogEvent};
use cx_trail::Truth;
use std::alloc::{AllocError, Global};
use step_text::Sink;

/// Adds an id to the hints of a step.
pub fn push_hint(hints: &mut Vec<i64>, id: u64) -> Result<(), AllocError>
    requires integers { AreStepIntegers hints.old.items }
    requires id { IsId id }
    ensures pushed { OnOk result (hints.new.items ≡ hints.old.items ++ pos id ∷ []) }
    ensures integers { OnOk result (AreStepIntegers hints.new.items) }
{
    hints.push(id as i64)?;
    Ok(())
}

/// The id of the unit clause that makes a literal false, where there is one.
fn id_against(state: &SearchState, lit: Lit) -> Option<u64>
    requires { lit.variable ≤ state.now.trail.variables }
    ensures held { IfSome result (Contains state.now.units.items) }
    ensures finds { (i : ℕ) → i < length state.now.units.items → StandsAt state.now.trail.entries (negate lit) i → result ≡ Some (get_or state.now.units.items i 0) }
{
    match state.trail.truth(lit) {
        Truth::False => state.units.get(state.trail.place_of(lit)).copied(),
        _ => None,
    }
}

/// The hints of a chain that ends with this clause: the unit clauses that make its literals false, and its id.
pub fn hints_of(
    alloc: Global,
    state: &SearchState,
    lits: &[Lit],
    id: u64,
) -> Result<IntList, AllocError>
    requires known { All (λ l. l.variable ≤ state.now.trail.variables) lits.now }
    requires ids { All IsId state.now.units.items }
    requires id { IsId id }
    ensures { IfOk result (AreUnitsAnd state.now lits.now id) }
{
    let mut hints = Vec::new(alloc);
    for lit in lits {
        if let Some(unit) = id_against(state, *lit) {
            push_hint(&mut hints, unit)?;
        }
    }
    push_hint(&mut hints, id)?;
    Ok(IntList::from_vec(hints))
}

/// Tells a clause that a chain of clauses with these ids shows.
pub fn tell_chained<L: Sink<Item = LogEvent>>(
    log: &mut SearchLog<L>,
    id: u64,
    lits: &[Lit],
    hints: IntList,
) -> Result<(), CoreFault>
    requires id { IsId id }
    requires going { HasNotFailed L.Sink log.old }
    requires right { IsRightBehind L.Sink log.old (Step (step.ClauseWithHints id (integers_of lits.now) hints) ∷ []) }
    ensures { Tells L.Sink log.old (Step (step.ClauseWithHints id (integers_of lits.now) hints) ∷ []) result log.new }
{
    let zs = integers(log.alloc, lits)?;
    let step = chained(id, zs, hints);
    tell_step(log, step)
}
