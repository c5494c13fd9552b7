//! Variables, literals, small lists, and formulas of clauses, parities and assumptions with their meaning.
#![tactic(auto)]

mod assumed;
mod builder;
mod constraint;
mod formula;
mod id_moves;
mod items;
mod lists;
mod literal;
mod moved;
mod places;
mod refs;
mod steps;

pub use builder::FormulaBuilder;
pub use constraint::{Constraint, ConstraintRef};
pub use formula::Formula;
pub use id_moves::{IdMove, MoveList};
pub use items::Items;
pub use lists::{IdList, IntList, LitList, ParityList, RefList, Values};
pub use literal::{Lit, MAX_VARIABLE, Var};
pub use moved::{Move, Moved};
pub use refs::{ClauseRef, Row};
pub use steps::{LogEvent, LogStep, ProofStep};
