//! Going back to an earlier level.
ghost use Rattle.std.specs.Prelude.{◌≡◌, ◌≢◌, ◌<◌, ◌≤◌, ◌+◌, List, [], length, Option, OnOk};
ghost use Rattle.std.specs.List.{All};
ghost use Rattle.cx_base.specs.Literals.{Literal};
ghost use Rattle.cx_base.specs.declared.steps.LogEvent.{LogEvent};
ghost use Rattle.cx_base.specs.declared.constraint.Constraint.{Constraint};
ghost use Rattle.search_policy.specs.Assuming.{KeepsAssumptions};
ghost use Rattle.conflict_learn.specs.Learning.{literals_of};
ghost use Rattle.conflict_learn.specs.Touching.{AreTouched};
ghost use Rattle.watch_lists.specs.Watching.{Fits};
ghost use Rattle.watch_lists.specs.Attaching.{CanBeWatched, literal_at};
ghost use Rattle.parity_engine.specs.declared.state.Mood.TheVariants.{Broken};
ghost use Rattle.search_steps.specs.Search.{Search, IsSearchIn};
ghost use Rattle.cdcl_search.specs.Ties.{Ties, IsWatched};
ghost use Rattle.cdcl_core.specs.Learning.{Learns, StandsBehind};
ghost use Rattle.cdcl_core.specs.Entering.{CanBePut, MayEnter, EntersUnit, EntersClause, Enters};
ghost use Rattle.cdcl_core.specs.GoingBack.{IsBackAt};

use cdcl_search::SearchState;
use conflict_learn::Learned;
use cx_base::{Formula, Lit, Var};
use cx_trail::{Reason, Trail};
use parity_engine::ParityEngine;
use search_policy::{Assumptions, Order};
use std::alloc::AllocError;

/// Keeps the values of the literals above a level for later decisions.
fn save_phases(phases: &mut Vec<bool>, trail: &Trail, level: u32)
    requires { length phases.old.items ≡ trail.now.variables }
    ensures { length phases.new.items ≡ length phases.old.items }
{
    let mut place = trail.len();
    while place > 0 {
        place -= 1;
        let entry = trail.entry(place);
        if entry.level <= level {
            return;
        }
        phases[entry.literal.var().number() as usize - 1] = !entry.literal.is_negative();
    }
}

/// Goes back to a level below the current one.
pub(crate) fn go_back<P: ParityEngine>(
    formula: &Formula,
    state: &mut SearchState,
    engine: &mut P,
    assumptions: &mut Assumptions,
    level: u32,
)
    requires stands { (rows : List (List Literal)) × (s : Search) × IsSearchIn state.old.tidies formula.now (P.state engine.old).parities s × Ties formula.now state.old (P.state engine.old) rows s × IsWatched state.old.watches state.old.arena state.old.trail }
    requires lower { level < state.old.trail.level }
    ensures back { IsBackAt formula.now level state.old (P.state engine.old) state.new (P.state engine.new) }
    ensures keeps { (constraints : List Constraint) → KeepsAssumptions constraints assumptions.old state.old.trail → KeepsAssumptions constraints assumptions.new state.new.trail }
{
    save_phases(&mut state.phases, &state.trail, level);
    state.order.back_to(&state.trail, level);
    state.trail.back_to(level);
    state.watches.back_to(level);
    engine.back_to(level);
    state.given = state.trail.len();
    assumptions.back_to(&state.trail, level);
}

/// Raises the scores of these variables by the weight that bumps have by now, which then grows.
fn bump(order: &mut Order, vars: &[Var])
    requires within { All (λ v. (1 ≤ v) × (v ≤ length order.old.scores)) vars.now }
    ensures standing { order.new.standing ≡ order.old.standing }
    ensures scores { length order.new.scores ≡ length order.old.scores }
{
    let weight = order.weight();
    for var in vars {
        order.bump_by(*var, weight);
    }
    order.grow();
}

/// Puts a literal on the trail at level 0, where each literal has a unit clause. That of this one has the id.
fn enter_unit(state: &mut SearchState, first: Lit, id: u64) -> Result<(), AllocError>
    requires level { state.old.trail.level ≡ 0 }
    requires put { CanBePut state.old.trail first }
    ensures { OnOk result (EntersUnit state.old state.new first id) }
{
    state.units.push(id)?;
    state.trail.imply(first, Reason::Decision);
    Ok(())
}

/// Puts a learned clause among the others, and its first literal on the trail.
fn enter_clause(state: &mut SearchState, lits: &[Lit], id: u64, lbd: u32) -> Result<(), AllocError>
    requires fits { Fits state.old.watches state.old.arena state.old.trail }
    requires watched { CanBeWatched state.old.watches.variables state.old.trail lits.now }
    requires put { CanBePut state.old.trail (literal_at lits.now 0) }
    ensures { OnOk result (EntersClause state.old state.new lits.now (literal_at lits.now 0) id lbd) }
{
    let reference = state.arena.add(lits, id, lbd, true)?;
    // The true literal guards the second one, so propagation does not look at the level again.
    state.trail.imply(lits[0], Reason::Clause(reference));
    state.watches.attach(&state.arena, &state.trail, reference)?;
    Ok(())
}

/// Puts a learned clause among the others, or its id among those of units, and its first literal on the trail.
fn enter(state: &mut SearchState, lits: &[Lit], id: u64, lbd: u32) -> Result<(), AllocError>
    requires { MayEnter state.old lits.now }
    ensures { OnOk result (Enters state.old state.new lits.now id lbd) }
{
    if lits.len() == 1 {
        enter_unit(state, lits[0], id)
    } else {
        enter_clause(state, lits, id, lbd)
    }
}

/// Goes back to the level of a learned clause and implies its first literal.
pub(crate) fn jump<P: ParityEngine>(
    formula: &Formula,
    state: &mut SearchState,
    engine: &mut P,
    assumptions: &mut Assumptions,
    learned: &Learned,
) -> Result<(), AllocError>
    requires learned { (told : Option (List LogEvent)) × Learns formula.now state.old (P.state engine.old) learned.now.lits learned.now.back_level told }
    requires touched { AreTouched state.old.trail (literals_of learned.now.resolved.items) learned.now.lits learned.now.touched.items }
    ensures stands { OnOk result (StandsBehind formula.now state.old (P.state engine.old) learned.now state.new (P.state engine.new)) }
    ensures counted { OnOk result (state.new.conflicts ≡ state.old.conflicts + 1) }
    ensures tidies { OnOk result (state.new.tidies ≡ state.old.tidies) }
    ensures level { OnOk result (state.new.trail.level ≡ learned.now.back_level) }
    ensures unbroken { (P.state engine.new).mood ≢ Broken }
    ensures keeps { OnOk result ((constraints : List Constraint) → KeepsAssumptions constraints assumptions.old state.old.trail → KeepsAssumptions constraints assumptions.new state.new.trail) }
{
    go_back(formula, state, engine, assumptions, learned.back_level);
    bump(&mut state.order, &learned.touched);
    let id = state.next;
    state.next = id + 1;
    state.conflicts += 1;
    state.learned += 1;
    enter(state, learned.lits.as_slice(), id, learned.lbd)
}
