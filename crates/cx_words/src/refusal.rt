//! Why the words give no plan.
ghost use Rattle.std.specs.Prelude.{◌≡◌};
ghost use Rattle.cx_words.specs.declared.refusal.PlanRefusal.TheVariants.{Memory};

use std::alloc::AllocError;
use thiserror::Error;

/// Why the words give no plan.
#[derive(Clone, Copy, Debug, Drop, Error)]
pub enum PlanRefusal {
    /// The words ask for nothing that the program does.
    #[error("usage")]
    Usage,
    /// Out of memory, which says nothing of the words.
    #[error("out of memory")]
    Memory,
}

impl From<AllocError> for PlanRefusal {
    ghost from_gives = { λ _ e. e ≡ Memory };

    fn from(_: AllocError) -> Self {
        PlanRefusal::Memory
    }
}
