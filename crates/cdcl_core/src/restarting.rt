//! Restarts.
ghost use Rattle.std.specs.Prelude.{◌≡◌, List};
ghost use Rattle.cx_base.specs.declared.constraint.Constraint.{Constraint};
ghost use Rattle.search_policy.specs.Assuming.{KeepsAssumptions};
ghost use Rattle.cdcl_search.specs.Calls.{IsUnbroken, StaysUnbroken};

use crate::jumping::go_back;
use cdcl_search::SearchState;
use cx_base::Formula;
use parity_engine::ParityEngine;
use search_policy::Assumptions;

/// Goes back to level 0, where the search is not there. Nothing is told.
pub(crate) fn restart<P: ParityEngine>(
    formula: &Formula,
    state: &mut SearchState,
    engine: &mut P,
    assumptions: &mut Assumptions,
)
    requires { IsUnbroken formula.now state.old (P.state engine.old) }
    ensures stays { StaysUnbroken formula.now state.old (P.state engine.old) state.new (P.state engine.new) }
    ensures level { state.new.trail.level ≡ 0 }
    ensures conflicts { state.new.conflicts ≡ state.old.conflicts }
    ensures keeps { (constraints : List Constraint) → KeepsAssumptions constraints assumptions.old state.old.trail → KeepsAssumptions constraints assumptions.new state.new.trail }
{
    if state.trail.level() == 0 {
        return;
    }
    go_back(formula, state, engine, assumptions, 0);
}
