//! Subsumption and strengthening of the clauses of an arena, told to a log.
#![tactic(auto)]

mod changes;
mod index;
mod integers;
mod lists;
mod look;
mod marks;
mod mending;
mod outcome;
mod pairs;
pub mod plain;
mod plain_pairs;
mod plain_settling;
mod room;
mod settling;
mod shortening;
mod shorter;
mod signatures;
mod steps;
mod tautologies;
mod telling;
mod tidier;
mod tidying;
mod units;

pub use outcome::TidyOf;
pub use tidying::tidy_from;
