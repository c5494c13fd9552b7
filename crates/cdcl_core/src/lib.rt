//! The search over clauses and parities: conflict-driven clause learning with Gauss-Jordan elimination.
#![tactic(auto)]

mod analyser;
mod beginning;
mod clauses;
mod compacting;
mod conflicts;
mod ending;
mod ending_rows;
mod failing;
mod filling;
mod grading;
mod jumping;
mod learning;
mod level_zero;
mod narrowing;
mod originals;
mod preferring;
mod recovering;
mod reducing;
mod refuted_rows;
mod refuting;
mod restarting;
mod rounds;
mod schedule;
mod shortening;
mod solving;
mod tautologies;
mod tidying;

pub use conflict_learn::CoreFault;
pub use narrowing::{solve_core, solve_tidy};
pub use solving::SearchOutcome;
