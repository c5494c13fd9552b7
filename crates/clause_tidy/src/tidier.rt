//! What a tidying is given and leaves as it is.
use cx_base::Formula;
use std::alloc::Global;

/// What a tidying is given and leaves as it is.
#[derive(Drop)]
pub(crate) struct Tidier<'f> {
    pub alloc: Global,
    pub formula: &'f Formula,
    /// The id under which a shorter clause waits for the one that it replaces to go.
    pub spare: u64,
    /// The clauses before this reference were tidy when the work began.
    pub from: u32,
}
