//! The checker of proofs: a proof is accepted only where no values meet the formula.
#![tactic(auto)]

mod checker;
mod recorder;
mod step;
mod verdict;

pub use checker::{check, check_and_record};
pub use recorder::Recorder;
pub use verdict::{Fault, Verdict};
