//! Counting the levels of learned clauses anew.
ghost use Rattle.std.specs.Prelude.{◌≡◌, ◌&&◌, length, nat_lt, IfSome, OnOk};
ghost use Rattle.std.specs.List.{All};
ghost use Rattle.cx_trail.specs.Sequence.{IsAssignedIn};
ghost use Rattle.clause_arena.specs.Clauses.{IsLive, literals_at, lbd_at, learned_at};
ghost use Rattle.conflict_learn.specs.Levels.{distinct, levels_in};
ghost use Rattle.conflict_learn.specs.Marks.{AreClear};
ghost use Rattle.cdcl_core.specs.Grading.{HaveLiveReasons, ImpliesAbove, IsGraded, least_lbd};

use cdcl_search::SearchState;
use clause_arena::Arena;
use conflict_learn::{Marks, Resolved, count_levels};
use cx_base::{ClauseRef, Var};
use cx_trail::{Reason, Trail};
use std::alloc::AllocError;

/// The clause that implied the variable's literal above level 0, where a clause did.
fn clause_above(trail: &Trail, variable: Var) -> Option<ClauseRef>
    requires { IsAssignedIn trail.now.entries variable }
    ensures { IfSome result (ImpliesAbove trail.now) }
{
    if trail.level_of(variable) == 0 {
        return None;
    }
    match trail.reason_of(variable) {
        Reason::Clause(reference) => Some(reference),
        Reason::Decision | Reason::Row(_) => None,
    }
}

/// Whether a reduction may remove the clause.
fn may_be_removed(arena: &Arena, reference: ClauseRef) -> bool
    requires { IsLive arena.now reference }
    ensures { result ≡ (learned_at arena.now reference && nat_lt 2 (lbd_at arena.now reference)) }
{
    arena.learned(reference) && arena.lbd(reference) > 2
}

/// Counts the levels of a clause anew, and keeps the least count so far. Where no reduction removes the clause, nothing is counted.
fn grade(state: &mut SearchState, marks: &mut Marks, reference: ClauseRef) -> Result<(), AllocError>
    requires live { IsLive state.old.arena reference }
    requires assigned { All (λ l. IsAssignedIn state.old.trail.entries l.variable) (literals_at state.old.arena reference) }
    requires clear { AreClear marks.old }
    ensures graded { IsGraded state.old state.new }
    ensures least { OnOk result (lbd_at state.new.arena reference ≡ least_lbd (learned_at state.old.arena reference) (lbd_at state.old.arena reference)
        (length (distinct (levels_in state.old.trail (literals_at state.old.arena reference))))) }
    ensures clear { AreClear marks.new }
{
    if !may_be_removed(&state.arena, reference) {
        return Ok(());
    }
    let lbd = state.arena.lbd(reference);
    let count = count_levels(&state.trail, state.arena.lits(reference), marks)?;
    let least = count.min(lbd as usize) as u32;
    state.arena.set_lbd(reference, least);
    Ok(())
}

/// Counts the levels of the clause anew that implied the variable's literal above level 0, where a clause did.
fn grade_reason(state: &mut SearchState, marks: &mut Marks, variable: Var) -> Result<(), AllocError>
    requires reasons { HaveLiveReasons state.old }
    requires assigned { IsAssignedIn state.old.trail.entries variable }
    requires clear { AreClear marks.old }
    ensures graded { IsGraded state.old state.new }
    ensures clear { AreClear marks.new }
{
    match clause_above(&state.trail, variable) {
        Some(reference) => grade(state, marks, reference),
        None => Ok(()),
    }
}

/// Counts the levels of the clauses anew that an analysis resolved with. The trail is as the analysis met it.
pub(crate) fn grade_resolved(
    state: &mut SearchState,
    marks: &mut Marks,
    resolved: &[Resolved],
) -> Result<(), AllocError>
    requires reasons { HaveLiveReasons state.old }
    requires assigned { All (λ r. IsAssignedIn state.old.trail.entries r.literal.variable) resolved.now }
    requires clear { AreClear marks.old }
    ensures graded { IsGraded state.old state.new }
    ensures clear { AreClear marks.new }
{
    for step in resolved {
        grade_reason(state, marks, step.literal.var())?;
    }
    Ok(())
}
