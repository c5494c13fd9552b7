//! Units that arose are taken out of the arena.
ghost use Rattle.std.specs.Prelude.{◌≡◌, ◌≤◌, ◌∷◌, [], ℕ, OnOk, MatchOption};
ghost use Rattle.clause_arena.specs.Clauses.{ArenaState, IsLive, literals_at};
ghost use Rattle.clause_tidy.specs.Tautologies.{IsLeft};
ghost use Rattle.clause_tidy.specs.Taking.{Takes, IsWide};

use clause_arena::Arena;
use cx_base::{ClauseRef, Lit};
use std::alloc::AllocError;

/// The literal of a live clause that has just one.
fn unit_of(arena: &Arena, clause: ClauseRef) -> Option<Lit>
    ensures { MatchOption result (IsWide arena.now clause) (λ l. IsLive arena.now clause × (literals_at arena.now clause ≡ l ∷ [])) }
{
    if !arena.is_live(clause) {
        return None;
    }
    let lits = arena.lits(clause);
    if lits.len() == 1 { Some(lits[0]) } else { None }
}

/// Takes a clause out, where it has one literal.
fn take_unit(
    arena: &mut Arena,
    units: &mut Vec<Lit>,
    ids: &mut Vec<u64>,
    clause: ClauseRef,
) -> Result<(), AllocError>
    ensures takes { OnOk result ((a : ArenaState) → Takes a arena.old units.old.items ids.old.items → Takes a arena.new units.new.items ids.new.items) }
    ensures left { OnOk result (IsLeft arena.old arena.new) }
    ensures wide { OnOk result (IsWide arena.new clause) }
{
    match unit_of(arena, clause) {
        Some(lit) => {
            units.push(lit)?;
            ids.push(arena.id(clause))?;
            arena.remove(clause);
            Ok(())
        }
        None => Ok(()),
    }
}

/// Takes the clauses of one literal from this reference on out of the arena.
pub(crate) fn take_units(
    arena: &mut Arena,
    units: &mut Vec<Lit>,
    ids: &mut Vec<u64>,
    first: usize,
) -> Result<(), AllocError>
    requires units { units.old.items ≡ [] }
    requires ids { ids.old.items ≡ [] }
    ensures takes { OnOk result (Takes arena.old arena.new units.new.items ids.new.items) }
    ensures wide { OnOk result ((q : ℕ) → first ≤ q → IsWide arena.new q) }
{
    for place in first..arena.len() {
        take_unit(arena, units, ids, ClauseRef::new(place as u32))?;
    }
    Ok(())
}
