//! Chains of hints for clauses that come without any, by unit propagation over the live clauses.
#![tactic(auto)]

mod front;
mod indexed;
mod ready;
mod recent;
mod search;

pub use indexed::IndexedClauses;
pub use search::find;
