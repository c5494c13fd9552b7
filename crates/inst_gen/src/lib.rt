//! Planted instances: formulas of parities and clauses that are met by chosen values, or by none.
#![tactic(auto)]

mod building;
mod drawing;
mod kind;
mod laws;
mod triple;

pub use building::planted;
pub use kind::InstanceKind;
pub use laws::{even_is_met, odd_is_unmet};
