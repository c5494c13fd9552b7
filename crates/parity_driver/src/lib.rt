//! Drives an engine of parities by hand, with its values kept beside it, over parities of numbers that look random:
//! for tests of the engines, and for measuring them.
#![tactic(auto)]

mod driven;
mod numbers;
mod parities;

pub use driven::{assign, back_to, open, set};
pub use numbers::Numbers;
pub use parities::any_parities;
