//! Clauses that come under other ids.
ghost use Rattle.std.specs.Prelude.{◌≡◌, ℕ, OnOk, Some, false};
ghost use Rattle.std.specs.FinMap as map;
ghost use Rattle.clause_arena.specs.Clauses.{IsLive, id_at};
ghost use Rattle.cx_semantics.specs.Moves.{moved, names_twice, old_ids};
ghost use Rattle.cx_semantics.specs.Tables.{Table};
ghost use Rattle.rup_engine.specs.Moving.{AreApart, AreNamed, HaveMovedIds};
ghost use Rattle.rup_engine.specs.Finding.{IsAtRest, Holds};

use crate::engine::Engine;
use clause_arena::Arena;
use cx_base::{ClauseRef, IdMove};
use proof_rules::IdMap;
use std::alloc::{AllocError, Global};

/// Gives each clause that had an old id its new one. The references are those of the ids before.
fn rename_all(arena: &mut Arena, refs: &IdMap<ClauseRef>, moves: &[IdMove])
    requires named { AreNamed arena.old refs.now }
    requires apart { names_twice (old_ids moves.now) ≡ false }
    ensures { HaveMovedIds moves.now arena.old arena.new }
{
    for place in 0..moves.len() {
        if let Some(reference) = refs.get(moves[place].from) {
            arena.rename(*reference, moves[place].to);
        }
    }
}

impl Engine {
    /// Clauses come under other ids, all at once. None is written anew, and what was propagated stays. Nothing is known
    /// once memory ran out.
    pub fn move_ids(&mut self, alloc: Global, moves: &[IdMove]) -> Result<(), AllocError>
        requires rest { IsAtRest self.old }
        requires apart { (table : Table) × AreApart table moves.now × Holds table self.old }
        ensures rest { OnOk result (IsAtRest self.new) }
        ensures limit { self.new.limit ≡ self.old.limit }
        ensures holds { OnOk result ((table : Table) → AreApart table moves.now → Holds table self.old → Holds (moved table moves.now) self.new) }
    {
        rename_all(&mut self.arena, &self.refs, moves);
        self.refs.move_ids(alloc, moves)
    }
}
