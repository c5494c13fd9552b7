//! Parities that a formula has as clauses.
//!
//! A formula has a parity of k variables where it has each of the clauses that exclude an assignment with the wrong
//! sum (Soos, Meel 2019; of 2 to 6 variables here). Mostly those clauses follow one another, so a parity is
//! looked for there first (`wholes`). Such parities and the other clauses are put in order of their two least variables
//! (`ordered`). Only those that share both with another are put in order of all their variables and signs (`gathering`), so
//! that each parity's clauses are side by side.
#![tactic(auto)]

mod entry;
mod found;
mod gathering;
mod ordered;
mod recovering;
mod starts;
mod wholes;

pub use found::{FoundList, FoundParity};
pub use recovering::recover;
