//! Two clauses of which one lies inside the other, or strengthens it.
ghost use Rattle.std.specs.Prelude.{◌↔◌, IsTrue};
ghost use Rattle.clause_arena.specs.Clauses.{IsLive};
ghost use Rattle.clause_tidy.specs.Pairs.{Bears, IsPair};

use clause_arena::Arena;
use cx_base::ClauseRef;
use tidy_rules::relations::bears_on;

/// Two clauses, of which the part lies inside the whole or strengthens it.
#[derive(Clone, Copy, Drop)]
pub(crate) struct Pair {
    pub part: ClauseRef,
    pub whole: ClauseRef,
}

/// Whether a reference is that of another live clause that lies inside this one, or strengthens it.
pub(crate) fn bears(arena: &Arena, part: ClauseRef, clause: ClauseRef) -> bool
    requires { IsLive arena.now clause }
    ensures { IsTrue result ↔ Bears arena.now part clause }
{
    part != clause && arena.is_live(part) && bears_on(arena.lits(part), arena.lits(clause))
}

/// Whether the whole is live, and the part bears on it.
pub(crate) fn is_pair(arena: &Arena, pair: &Pair) -> bool
    ensures { IsTrue result ↔ IsPair arena.now pair.now }
{
    arena.is_live(pair.whole) && bears(arena, pair.part, pair.whole)
}
