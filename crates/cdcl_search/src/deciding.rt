//! Decisions.
ghost use Rattle.std.specs.Prelude.{◌≡◌, ◌≤◌, ◌+◌, ◌⊎◌, [], List, Option, MatchOption, IfSome, length, IsTrue, IsFalse};
ghost use Rattle.cx_base.specs.Assumptions.{assumptions_of};
ghost use Rattle.cx_base.specs.declared.steps.LogEvent.{LogEvent};
ghost use Rattle.search_steps.specs.Recovering.{SettledWithRecovered};
ghost use Rattle.cx_trail.specs.declared.entry.Reason.TheVariants.{Decision};
ghost use Rattle.cx_trail.specs.Sequence.{IsFull, IsOpenIn, pushed};
ghost use Rattle.search_policy.specs.Assuming.{KeepsAssumptions, AreTrue, IsFirstOpen};
ghost use Rattle.search_policy.specs.Scores.{NoneIsOpen};
ghost use Rattle.cdcl_search.specs.Calls.{MayDecide, StaysUnbroken};
ghost use Rattle.cdcl_search.specs.Deciding.{CanPick, DecidesOn, IsNextDecision, IsReordered};
ghost use Rattle.cdcl_search.specs.Ties.{SearchStands};
ghost use Rattle.cdcl_search.specs.Finds.{PropagationFinds};
ghost use Rattle.cdcl_search.specs.declared.propagation.Found.TheVariants as found;

use crate::state::SearchState;
use cx_base::{Formula, Lit};
use parity_engine::ParityEngine;
use search_policy::Assumptions;

/// The literal of the variable of the greatest score, with the value that it had last.
fn picked(state: &mut SearchState) -> Option<Lit>
    requires { CanPick state.old }
    ensures literal { MatchOption result (NoneIsOpen state.old.trail.variables state.old.trail.entries) (IsNextDecision state.old.trail) }
    ensures reordered { IsReordered state.old state.new }
{
    let Some(variable) = state.order.pick_from_heap(&state.trail) else {
        return None;
    };
    let value = state.phases[variable.number() as usize - 1];
    Some(Lit::new(variable, !value))
}

/// The literal that is decided next: the first assumed one that has no value, or where each assumed one is true, that of the variable of the greatest
/// score.
fn next_decision(
    formula: &Formula,
    state: &mut SearchState,
    assumptions: &mut Assumptions,
) -> Option<Lit>
    requires can { CanPick state.old }
    requires keeps { KeepsAssumptions formula.now.constraints assumptions.old state.old.trail }
    requires checked { assumptions.old.checked ≡ length state.old.trail.entries }
    ensures literal { MatchOption result (NoneIsOpen state.old.trail.variables state.old.trail.entries) (IsNextDecision state.old.trail) }
    ensures first { IfSome result (λ l. AreTrue (assumptions_of formula.now.constraints) state.old.trail ⊎ IsFirstOpen (assumptions_of formula.now.constraints) state.old.trail l) }
    ensures keeps { MatchOption result (KeepsAssumptions formula.now.constraints assumptions.new state.old.trail)
        (λ l. KeepsAssumptions formula.now.constraints assumptions.new (pushed state.old.trail (state.old.trail.level + 1) l Decision)) }
    ensures checked { assumptions.new.checked ≡ assumptions.old.checked }
    ensures reordered { IsReordered state.old state.new }
{
    // `len` tells the proof that the trail is sound.
    let _sound = state.trail.len();
    if let Some(literal) = assumptions.next_open(formula, &state.trail) {
        assumptions.level = state.trail.level() + 1;
        return Some(literal);
    }
    picked(state)
}

/// Opens a level by a decision, where both engines are quiet; false where each variable is assigned. Assumed literals are decided first, in order of writing; one
/// that is true is passed over.
pub(crate) fn decide<P: ParityEngine>(
    formula: &Formula,
    state: &mut SearchState,
    engine: &mut P,
    assumptions: &mut Assumptions,
) -> bool
    requires { MayDecide formula.now state.old (P.state engine.old) assumptions.old }
    ensures stays { StaysUnbroken formula.now state.old (P.state engine.old) state.new (P.state engine.new) }
    ensures keeps { KeepsAssumptions formula.now.constraints assumptions.new state.new.trail }
    ensures checked { assumptions.new.checked ≡ assumptions.old.checked }
    ensures decided { IsTrue result → DecidesOn (assumptions_of formula.now.constraints) state.old.trail state.new.trail }
    ensures full { IsFalse result → (state.new.trail ≡ state.old.trail) × IsFull state.new.trail × PropagationFinds state.new (P.state engine.new) found.Quiet }
    ensures settled { SettledWithRecovered formula.now → IsFalse result }
    ensures same { (state.new.units.items ≡ state.old.units.items) × (state.new.conflicts ≡ state.old.conflicts) × (state.new.next ≡ state.old.next) }
{
    if state.trail.is_full() {
        return false;
    }
    let Some(literal) = next_decision(formula, state, assumptions) else {
        return false;
    };
    engine.push_level();
    state.trail.decide(literal);
    true
}
