//! What trimming gives.
use crate::kept::KeptSteps;
use cx_base::IdList;
use cx_semantics::Cause;

/// What is left of an accepted proof.
#[derive(Drop)]
pub struct Trimmed {
    /// The needed steps, and the deletions of what is live among them, in order and unchanged.
    pub steps: KeptSteps,
    /// The numbers of the formula's clauses that needed steps name, rising.
    pub clauses: IdList,
    /// The numbers of the formula's parities that needed steps name, rising.
    pub parities: IdList,
}

/// The trimming of a proof.
#[derive(Drop)]
pub enum TrimOf {
    /// The proof is accepted.
    Done(Trimmed),
    /// The proof is refused at the step of this number, from 1, for its first cause.
    Refused(u64, Cause),
}
