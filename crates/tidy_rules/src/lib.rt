//! When clauses are tidy: none is a tautology, none lies inside another, none strengthens another. And the plain look for what is not.
#![tactic(auto)]

mod finding;
mod part;
mod parts;
pub mod relations;

pub use finding::find_untidy;
pub use part::{TidyPart, Untidy};
