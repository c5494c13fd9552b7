//! Formulas of clauses and parities, in clauses alone.
#![tactic(auto)]

mod blasting;
mod laws;
mod normal;
mod piece;
mod pieces;
mod refusal;

pub use blasting::blast;
pub use laws::blasted_extend_in_one_way;
pub use normal::{fill_rising, right_side};
pub use refusal::BlastRefusal;
