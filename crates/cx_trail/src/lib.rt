//! The sequence of assigned literals with levels and reasons.
#![tactic(auto)]

mod entry;
mod forgetting;
mod renaming;
mod trail;

pub use entry::{Entry, Reason, Truth};
pub use trail::Trail;
