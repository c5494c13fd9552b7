//! The formula's tautologies: a search that tidies has them in its arena until its first tidying deletes them.
ghost use Rattle.std.specs.Prelude.{◌≡◌, ◌+◌, ◌<◌, ◌≤◌, false, true, [], ℕ, List, length, take, IfOk, OnOk, Option};
ghost use Rattle.cx_base.specs.Literals.{Literal};
ghost use Rattle.cx_base.specs.Problem.{Problem, clauses_of};
ghost use Rattle.cx_base.specs.declared.steps.LogEvent.{LogEvent};
ghost use Rattle.clause_arena.specs.Clauses.{ArenaState};
ghost use Rattle.cdcl_core.specs.Tautologies.{IsAdded, IsNumbered};
ghost use Rattle.cdcl_core.specs.Waiting.{SearchStandsBut};

use crate::clauses::has_both;
use cdcl_search::SearchState;
use clause_arena::Arena;
use cx_base::{ConstraintRef, Formula, Lit};
use std::alloc::AllocError;

/// Adds the clause of this number to the arena, where it is a tautology.
fn add_tautology(arena: &mut Arena, lits: &[Lit], number: u64) -> Result<(), AllocError>
    ensures { OnOk result ((formula : Problem) (n : ℕ) (a : ArenaState) → number ≡ n + 1 → IsNumbered formula number lits.now → IsAdded formula n a arena.old → IsAdded formula number a arena.new) }
{
    if !has_both(lits) {
        return Ok(());
    }
    arena.add(lits, number, 0, false)?;
    Ok(())
}

/// Adds the clause at a place of the formula, where there is one that is a tautology; so many clauses come before it. It gives the number of clauses up to there.
fn take_place(
    formula: &Formula,
    arena: &mut Arena,
    before: u64,
    place: usize,
) -> Result<u64, AllocError>
    requires few { length formula.now.constraints ≤ 4294967295 }
    requires place { place < length formula.now.constraints }
    requires before { before ≡ length (clauses_of (take place formula.now.constraints)) }
    ensures count { IfOk result (λ n. n ≡ length (clauses_of (take (place + 1) formula.now.constraints))) }
    ensures added { IfOk result (λ n. (a : ArenaState) → IsAdded formula.now before a arena.old → IsAdded formula.now n a arena.new) }
{
    match formula.item(place) {
        ConstraintRef::Clause(lits) => {
            add_tautology(arena, lits, before + 1)?;
            Ok(before + 1)
        }
        ConstraintRef::Parity(_) => Ok(before),
        ConstraintRef::Assume(_) => Ok(before),
    }
}

/// Adds the formula's tautologies to the arena, each under its number.
fn add_tautologies(formula: &Formula, arena: &mut Arena) -> Result<(), AllocError>
    requires few { length formula.now.constraints ≤ 4294967295 }
    ensures { OnOk result ((a : ArenaState) → IsAdded formula.now 0 a arena.old → IsAdded formula.now (length (clauses_of formula.now.constraints)) a arena.new) }
{
    let mut number = 0;
    for place in 0..formula.len() {
        number = take_place(formula, arena, number, place)?;
    }
    Ok(())
}

/// Has a search that does not tidy yet, and has not begun, tidy at restarts.
pub(crate) fn begin_tidying(formula: &Formula, state: &mut SearchState) -> Result<(), AllocError>
    requires few { length formula.now.constraints ≤ 4294967295 }
    requires plain { state.old.tidies ≡ false }
    requires stands { (engines : List (List Literal)) × (told : Option (List LogEvent)) × SearchStandsBut formula.now engines state.old [] told }
    ensures tidies { OnOk result (state.new.tidies ≡ true) }
    ensures stands { OnOk result ((engines : List (List Literal)) (told : Option (List LogEvent)) → SearchStandsBut formula.now engines state.old [] told → SearchStandsBut formula.now engines state.new [] told) }
{
    add_tautologies(formula, &mut state.arena)?;
    state.watches.attach_anew(&state.arena)?;
    state.tidies = true;
    Ok(())
}
