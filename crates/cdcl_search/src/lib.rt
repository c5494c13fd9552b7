//! The search between two conflicts: what it holds and tells the log, unit propagation over clauses and rows, reasons,
//! units of level 0, decisions, and the values at the end.
#![tactic(auto)]

pub mod chains;
mod deciding;
pub mod deleting;
pub mod integers;
pub mod logs;
mod models;
mod propagation;
mod row_clauses;
pub mod rows;
mod searching;
pub mod source;
mod state;
pub mod steps;
pub mod telling;
mod told_rows;
mod units;

pub use models::values_of;
pub use propagation::Found;
pub use searching::{Reached, is_quiet, search_on, settle};
pub use state::SearchState;
pub use told_rows::ToldRows;
