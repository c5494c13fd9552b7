//! The readers of formulas, DIMACS CNF with x-lines: over a slice, and over a slot of a desk piece by piece.
#![tactic(auto)]

mod body;
mod body_token;
mod digits;
mod from_refusal;
mod header;
mod header_token;
mod laws;
mod lay_out;
mod leading_integer;
mod pending;
mod piece;
mod printing;
mod read;
mod refusal;
mod slot_formula;

pub use from_refusal::FromRefusal;
pub use laws::printed_formulas_read;
pub use printing::put_formula;
pub use read::read_formula;
pub use refusal::ReadRefusal;
pub use slot_formula::read_formula_from;
