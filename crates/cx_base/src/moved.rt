//! References of clauses that have new numbers.
ghost use Rattle.std.specs.Prelude.{◌≡◌, ◌<◌, ◌≤◌, ℕ, length};
ghost use Rattle.cx_base.specs.Moved.{moved_to, move_at, IsRising};

use crate::refs::ClauseRef;
use std::marker::Model;

/// A clause's reference before and after.
#[derive(Clone, Copy, Drop)]
pub struct Move {
    pub old: ClauseRef,
    pub new: ClauseRef,
}

/// The references that clauses had and those that they have now. The old ones rise.
#[derive(Drop)]
pub struct Moved {
    moves: Vec<Move>,
}

impl Model for Moved {
    ghost use Rattle.std.specs.Prelude.{List};
    ghost use Rattle.cx_base.specs.declared.moved.Move.{Move};
    ghost use Rattle.cx_base.specs.Moved.{IsRising};

    ghost Value = { List Move };

    ghost view = { λ a. a.moves.items };

    ghost invariant = { λ a. IsRising a.moves.items };
}

/// The place of the first move whose old reference is not below this one.
fn place_of(moves: &[Move], old: u32) -> usize
    requires { IsRising moves.now }
    ensures below { (i : ℕ) → i < result → (move_at moves.now i).old < old }
    ensures above { (i : ℕ) → result ≤ i → i < length moves.now → old ≤ (move_at moves.now i).old }
{
    moves.partition_point(|m| m.old.place() < old)
}

impl Moved {
    /// The moves of a vector. Their old references rise.
    pub fn from_vec(moves: Vec<Move>) -> Moved
        requires { IsRising moves.items }
        ensures { result ≡ moves.items }
    {
        Moved { moves }
    }

    /// The moves in order.
    pub fn as_slice(&self) -> &[Move]
        ensures moves { result.now ≡ self.now }
        ensures rises { IsRising self.now }
    {
        &self.moves
    }

    /// The new reference, where this is an old one. It is found by bisection.
    pub fn to(&self, old: ClauseRef) -> Option<ClauseRef>
        ensures { result ≡ moved_to self.now old }
    {
        let place = place_of(&self.moves, old.place());
        if place < self.moves.len() && self.moves[place].old == old {
            return Some(self.moves[place].new);
        }
        None
    }
}
