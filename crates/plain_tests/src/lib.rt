//! Plain, slow programs whose contracts are the definitions. Tests hold the work of other crates against them.
#![tactic(auto)]

mod constraints;
mod covering;
mod fitting;
pub mod fresh;
pub mod judged;
mod log_rules;
pub mod marked;
mod originals;
pub mod recovered;
pub mod settled;
mod tables;
mod told;
