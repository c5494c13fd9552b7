//! What refutes a target where the live clauses refute themselves.
ghost use Rattle.std.specs.Prelude.{◌≡◌, ◌≤◌, ◌+◌, ℕ};
ghost use Rattle.cx_semantics.specs.Chain.{negations};
ghost use Rattle.clause_arena.specs.Clauses.{ArenaState, IsLive, literals_at};
ghost use Rattle.watch_lists.specs.Watching.{WatchState};
ghost use Rattle.rup_engine.specs.Standing.{IsWithin, Rests};
ghost use Rattle.rup_engine.specs.Gathers.{IsRefuted};
ghost use Rattle.rup_engine.specs.Searching.{IsBroken, IsGiver};

use crate::gather::clause_of;
use cx_base::{ClauseRef, Lit};
use cx_trail::{Trail, Truth};

/// The clause that gave a literal, if one did.
fn giver(trail: &Trail, lit: Lit) -> Option<ClauseRef>
    requires { lit.variable ≤ trail.now.variables }
    ensures { IsGiver lit trail.now.entries result }
{
    match trail.truth(lit) {
        Truth::True => clause_of(trail.reason_of(lit.var())),
        Truth::False => None,
        Truth::Open => None,
    }
}

/// The clause that gave a literal of the target, or else this one, whose literals are all false.
///
/// The chain to it is the target's own: that to a conflict of the live clauses may go through all of them.
pub(crate) fn refuter(limit: u32, trail: &Trail, target: &[Lit], broken: ClauseRef) -> ClauseRef
    requires variables { trail.now.variables ≡ limit + 2 }
    requires within { IsWithin limit target.now }
    ensures { (a : ArenaState) (w : WatchState) → Rests limit (negations target.now) a w trail.now → IsBroken a trail.now.entries broken
        → IsLive a result × IsRefuted (negations target.now) trail.now.entries (literals_at a result) }
{
    for lit in target {
        match giver(trail, *lit) {
            Some(reference) => return reference,
            None => {}
        }
    }
    broken
}
