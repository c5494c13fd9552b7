//! Closing the gaps that removed clauses leave.
ghost use Rattle.std.specs.Prelude.{◌≡◌, ◌≤◌, ◌<◌, ℕ, List, OnErr, OnOk};
ghost use Rattle.cx_base.specs.declared.moved.Move.{Move};
ghost use Rattle.clause_arena.specs.Clauses.{ArenaState, IsLive};
ghost use Rattle.clause_arena.specs.Compact.{IsRenamed};
ghost use Rattle.cdcl_core.specs.Compacting.{IsCompacted, IsFirstLive, LeavesNoOldName, MovesBelow, StandsStill};

use cdcl_search::SearchState;
use clause_arena::Arena;
use cx_base::{ClauseRef, Moved};
use std::alloc::AllocError;

/// The first live clause from this reference on.
fn first_live(arena: &Arena, from: u32) -> Option<ClauseRef>
    ensures { IsFirstLive arena.now from result }
{
    for place in from as usize..arena.len() {
        let clause = ClauseRef::new(place as u32);
        if arena.is_live(clause) {
            return Some(clause);
        }
    }
    None
}

/// The new place of the end of the clauses before this one, or of all.
fn new_end(arena: &Arena, moved: &Moved, first: Option<ClauseRef>) -> u32
    ensures { (a : ArenaState) (from : ℕ) → IsRenamed a arena.now moved.now → IsFirstLive a from first → MovesBelow moved.now arena.now from result }
{
    match first {
        Some(clause) => match moved.to(clause) {
            Some(new) => new.place(),
            None => 0,
        },
        None => arena.len() as u32,
    }
}

/// Closes the gaps of the arena. Watches and trail name each clause by its new reference then. Without memory nothing changes.
pub(crate) fn compact(state: &mut SearchState) -> Result<(), AllocError>
    ensures compacted { OnOk result ((moves : List Move) × IsCompacted moves state.old state.new) }
    ensures stands { OnOk result (StandsStill state.old state.new) }
    ensures names { OnOk result (LeavesNoOldName state.old state.new) }
    ensures same { OnErr result (state.new ≡ state.old) }
{
    let first = first_live(&state.arena, state.tidy_below);
    let moved = state.arena.compact()?;
    state.tidy_below = new_end(&state.arena, &moved, first);
    state.trail.rename(&moved);
    state.watches.rename(&moved);
    Ok(())
}
