//! Moves of ids.
ghost use Rattle.std.specs.Prelude.{◌≡◌};

use std::alloc::AllocError;
use std::marker::Model;

/// What is under the first id comes under the second.
#[derive(Clone, Copy, Drop)]
pub struct IdMove {
    pub from: u64,
    pub to: u64,
}

/// Moves that are made at once: what is under the old ids is taken out, and then each content is put under its new id.
#[derive(Drop)]
pub struct MoveList {
    moves: Vec<IdMove>,
}

impl Model for MoveList {
    ghost use Rattle.std.specs.Prelude.{List};
    ghost use Rattle.cx_base.specs.declared.id_moves.IdMove.{IdMove};

    ghost Value = { List IdMove };

    ghost view = { λ a. a.moves.items };
}

impl Clone for MoveList {
    ghost use Rattle.std.specs.Prelude.{◌≡◌};

    ghost is_clone = { λ list copy. copy ≡ list };

    fn clone(&self) -> Result<MoveList, AllocError> {
        let moves = self.moves.clone()?;
        Ok(MoveList { moves })
    }
}

impl MoveList {
    /// The list of a vector's elements.
    pub fn from_vec(moves: Vec<IdMove>) -> MoveList
        ensures { result ≡ moves.items }
    {
        MoveList { moves }
    }

    /// The moves in order.
    pub fn as_slice(&self) -> &[IdMove]
        ensures { result.now ≡ self.now }
    {
        &self.moves
    }

    /// The vector of the moves.
    pub fn into_vec(self) -> Vec<IdMove>
        ensures { result.items ≡ self }
    {
        self.moves
    }
}
