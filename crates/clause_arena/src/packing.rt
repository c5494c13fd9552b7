//! Closing the gaps that removed clauses leave.
ghost use Rattle.std.specs.Prelude.{◌≡◌, ◌≤◌, [], length, vec_capacity};
ghost use Rattle.clause_arena.specs.Heads.{clauses_from, AreHeads};
ghost use Rattle.clause_arena.specs.Packing.{IsCut, IsPacked};

use crate::head::Head;
use cx_base::{ClauseRef, Lit, Move};

/// Moves the live clauses down in their order, each to the end of those before it, and cuts what is after the last.
pub(crate) fn pack(
    ends: &mut Vec<usize>,
    heads: &mut Vec<Head>,
    lits: &mut Vec<Lit>,
    moves: &mut Vec<Move>,
)
    requires heads { AreHeads lits.old.items ends.old.items heads.old.items }
    requires no_move { moves.old.items ≡ [] }
    requires room { length heads.old.items ≤ vec_capacity moves.old }
    ensures heads { AreHeads lits.new.items ends.new.items heads.new.items }
    ensures packed { IsPacked (clauses_from 0 lits.old.items ends.old.items heads.old.items) (length heads.old.items) (clauses_from 0 lits.new.items ends.new.items heads.new.items) moves.new.items }
    ensures same_ends { vec_capacity ends.new ≡ vec_capacity ends.old }
    ensures cut_heads { IsCut heads.old heads.new }
    ensures cut_lits { IsCut lits.old lits.new }
{
    let mut start = 0;
    let mut used = 0;
    for place in 0..heads.len() {
        let end = ends[place];
        let head = heads[place];
        if head.live {
            let kept = moves.len();
            lits.copy_within(start..end, used);
            used += end - start;
            ends[kept] = used;
            heads[kept] = head;
            moves.push_reserved(Move {
                old: ClauseRef::new(place as u32),
                new: ClauseRef::new(kept as u32),
            });
        }
        start = end;
    }
    ends.truncate(moves.len());
    heads.truncate(moves.len());
    lits.truncate(used);
}
