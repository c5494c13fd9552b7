//! The values of a full trail.
ghost use Rattle.std.specs.Prelude.{◌+◌, ◌≤◌, not, [], List, Option, IfOk, IsTrue};
ghost use Rattle.cx_base.specs.Assumptions.{assumes};
ghost use Rattle.cx_base.specs.Literals.{Literal};
ghost use Rattle.cx_base.specs.Problem.{Meets};
ghost use Rattle.cx_base.specs.declared.steps.LogEvent.{LogEvent};
ghost use Rattle.cx_trail.specs.Sequence.{IsFull, IsTrueIn, IsAssignedIn};
ghost use Rattle.cdcl_search.specs.Ties.{SearchStands};
ghost use Rattle.cdcl_search.specs.Finds.{PropagationFinds};
ghost use Rattle.cdcl_search.specs.declared.propagation.Found.TheVariants as found;

use crate::state::SearchState;
use cx_base::{Formula, Values, Var};
use cx_trail::Trail;
use parity_engine::ParityEngine;
use std::alloc::{AllocError, Global};

/// The value of an assigned variable.
fn value_on(trail: &Trail, variable: Var) -> bool
    requires within { variable ≤ trail.now.variables }
    requires assigned { IsAssignedIn trail.now.entries variable }
    ensures { IsTrueIn trail.now.entries (record { variable = variable; negative = not result }) }
{
    match trail.value(variable) {
        Some(value) => value,
        None => false,
    }
}

/// The values of a full trail, which meet the formula where both engines are quiet and each assumed literal is true.
pub fn values_of<P: ParityEngine>(
    alloc: Global,
    formula: &Formula,
    state: &SearchState,
    engine: &P,
) -> Result<Values, AllocError>
    requires stands { (told : Option (List LogEvent)) × SearchStands formula.now state.now (P.state engine.now) [] told }
    requires quiet { PropagationFinds state.now (P.state engine.now) found.Quiet }
    requires full { IsFull state.now.trail }
    requires assumed { (l : Literal) → IsTrue (assumes formula.now.constraints l) → IsTrueIn state.now.trail.entries l }
    ensures { IfOk result (Meets formula.now) }
{
    let vars = formula.vars();
    let mut values = Vec::with_capacity(alloc, vars as usize)?;
    for index in 0..vars {
        values.push(value_on(&state.trail, Var::new(index + 1)))?;
    }
    Ok(Values::from_vec(values))
}
