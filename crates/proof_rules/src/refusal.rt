//! Why a step is not right.
ghost use Rattle.std.specs.Prelude.{◌≡◌};
ghost use Rattle.proof_rules.specs.declared.refusal.JudgeRefusal.TheVariants.{Memory};

use cx_semantics::Cause;
use std::alloc::AllocError;
use thiserror::Error;

/// What a judge answers where it does not find the step right.
#[derive(Clone, Copy, Debug, Drop, Error)]
pub enum JudgeRefusal {
    /// The first cause, in the order of the rules, that refuses the step.
    #[error("the step is not right")]
    Wrong(Cause),
    /// Out of memory, which says nothing of the step.
    #[error("out of memory")]
    Memory,
}

impl From<AllocError> for JudgeRefusal {
    ghost from_gives = { λ _ e. e ≡ Memory };

    fn from(_: AllocError) -> Self {
        JudgeRefusal::Memory
    }
}
