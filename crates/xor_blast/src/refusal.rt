//! Why a formula is not put into clauses.
ghost use Rattle.std.specs.Prelude.{◌≡◌};
ghost use Rattle.xor_blast.specs.declared.refusal.BlastRefusal.TheVariants.{Memory};

use std::alloc::AllocError;
use thiserror::Error;

/// Why there is no formula of clauses.
#[derive(Clone, Copy, Debug, Drop, Error)]
pub enum BlastRefusal {
    /// The first constraint, by its number from 1, whose new variables pass the limit of variables.
    #[error("variable limit at constraint {0}")]
    Limit(u64),
    /// Out of memory, which says nothing of the formula.
    #[error("out of memory")]
    Memory,
}

impl From<AllocError> for BlastRefusal {
    ghost from_gives = { λ _ e. e ≡ Memory };

    fn from(_: AllocError) -> Self {
        BlastRefusal::Memory
    }
}
