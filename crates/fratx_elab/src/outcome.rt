//! What the elaborator answers.
ghost use Rattle.std.specs.Prelude.{◌≡◌};
ghost use Rattle.fratx_elab.specs.declared.outcome.ElabFault.TheVariants.{Memory};

use cx_semantics::Cause;
use std::alloc::AllocError;
use thiserror::Error;

/// The judgement of a log.
#[derive(Clone, Copy, Debug, PartialEq, Eq, Drop)]
pub enum Elab {
    /// The log is right and ends at the step of this number, from 1, or at 0 where the formula's assumptions clash; the proof is written whole.
    Done(u64),
    /// The log is refused at the step of this number, from 1, for its first cause.
    Refused(u64, Cause),
}

/// Why a log was not judged to its end.
#[derive(Clone, Copy, Debug, PartialEq, Eq, Drop, Error)]
pub enum ElabFault {
    /// Out of memory, which says nothing of the log.
    #[error("out of memory")]
    Memory,
    /// A fault of reading, which the source counted.
    #[error("the read failed")]
    Read,
    /// A fault of writing, which the sink counted.
    #[error("the write failed")]
    Write,
    /// The text of the log is longer than the source's limit.
    #[error("the text is too long")]
    TooLong,
}

impl From<AllocError> for ElabFault {
    ghost from_gives = { λ _ e. e ≡ Memory };

    fn from(_: AllocError) -> Self {
        ElabFault::Memory
    }
}
