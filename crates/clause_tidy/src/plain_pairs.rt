//! The plain look for two clauses of which one lies inside the other, or strengthens it: each beside each other.
ghost use Rattle.std.specs.Prelude.{◌-◌, ◌^◌, ◌<◌, MatchOption};
ghost use Rattle.clause_arena.specs.Clauses.{IsLive};
ghost use Rattle.clause_tidy.specs.Pairs.{Bears, IsPair, NoneBearsOn, NoneBears};

use crate::pairs::{Pair, bears};
use clause_arena::Arena;
use cx_base::ClauseRef;

/// A clause that lies inside this one, or strengthens it.
fn bearing_on(arena: &Arena, clause: ClauseRef) -> Option<ClauseRef>
    requires { IsLive arena.now clause }
    ensures { MatchOption result (NoneBearsOn arena.now clause) (λ part. Bears arena.now part clause) }
{
    for place in 0..arena.len() {
        let part = ClauseRef::new(place as u32);
        if bears(arena, part, clause) {
            return Some(part);
        }
    }
    None
}

/// The first clause of a place that is live and has such a one, with that.
fn pair_at(arena: &Arena, place: usize) -> Option<Pair>
    requires { place < 2 ^ 31 - 1 }
    ensures { MatchOption result (IsLive arena.now place → NoneBearsOn arena.now place) (IsPair arena.now) }
{
    let whole = ClauseRef::new(place as u32);
    if !arena.is_live(whole) {
        return None;
    }
    match bearing_on(arena, whole) {
        Some(part) => Some(Pair { part, whole }),
        None => None,
    }
}

/// Two clauses, of which the part lies inside the whole or strengthens it.
pub(crate) fn untidy_pair(arena: &Arena) -> Option<Pair>
    ensures { MatchOption result (NoneBears arena.now) (IsPair arena.now) }
{
    for place in 0..arena.len() {
        let found = pair_at(arena, place);
        if found.is_some() {
            return found;
        }
    }
    None
}
