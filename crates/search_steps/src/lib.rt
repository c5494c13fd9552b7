//! The steps of a search over clauses and parities: what holds between them, and the laws that keep it.
#![tactic(auto)]

pub mod laws;
