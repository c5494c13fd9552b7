//! What tidying gives.
use cx_base::{IdList, LitList};

/// What tidying gives.
#[derive(Drop)]
pub enum TidyOf {
    /// The clauses are tidy, together with these units, which the log has under these ids.
    Done(LitList, IdList),
    /// The log has ended, by an ending clause of these literals.
    Ended(LitList),
}
