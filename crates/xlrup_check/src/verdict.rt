//! What the checker answers.
use cx_semantics::Cause;
use thiserror::Error;

/// The judgement of a proof.
#[derive(Clone, Copy, Drop)]
pub enum Verdict {
    /// The proof is accepted at the step of this number, from 1, or at 0 where the formula's assumptions clash: no values meet the formula.
    Verified(u64),
    /// The proof is refused at the step of this number, from 1, for its first cause.
    Refused(u64, Cause),
}

/// Why a proof was not judged.
#[derive(Clone, Copy, Debug, Drop, Error)]
pub enum Fault {
    /// Out of memory, which says nothing of the proof.
    #[error("out of memory")]
    Memory,
    /// A fault of reading, which the source counted.
    #[error("the read failed")]
    Read,
    /// The proof's text is longer than the source's limit.
    #[error("the text is too long")]
    TooLong,
}
