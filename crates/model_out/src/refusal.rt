//! Why a text is no answer.
ghost use Rattle.std.specs.Prelude.{◌≡◌};
ghost use Rattle.model_out.specs.declared.refusal.AnswerRefusal.TheVariants.{Memory};

use cx_base::Var;
use std::alloc::AllocError;
use thiserror::Error;

/// Why a text is no answer to a formula: the first cause in this order.
#[derive(Clone, Copy, Debug, Drop, Error)]
pub enum AnswerRefusal {
    /// The first line has other tokens than `s` and `SATISFIABLE`.
    #[error("no status line")]
    NoStatusLine,
    /// The token at this byte does not fit; the text's length where the zero is missing.
    #[error("bad token at byte {0}")]
    BadToken(u64),
    /// No literal of this variable.
    #[error("missing variable")]
    Missing(Var),
    /// Two or more literals of this variable, equal ones too.
    #[error("repeated variable")]
    Twice(Var),
    /// The values do not meet the constraint of this number, from 1.
    #[error("unmet constraint {0}")]
    Unmet(u64),
    /// Out of memory, which says nothing of the text.
    #[error("out of memory")]
    Memory,
}

impl From<AllocError> for AnswerRefusal {
    ghost from_gives = { λ _ e. e ≡ Memory };

    fn from(_: AllocError) -> Self {
        AnswerRefusal::Memory
    }
}
