//! Clauses that say why a row of parities implied a literal or was missed.
#![tactic(auto)]

pub mod laws;
mod literals;
mod reason;
mod sums;

pub use reason::{ReasonOf, clause_in_place, reason_clause};
pub use sums::{ReasonPair, sum_of_reasons};
