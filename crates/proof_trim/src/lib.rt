//! Trimming: of an accepted proof the steps that its last step needs, and the constraints of the formula that these name.
#![tactic(auto)]

mod back;
mod before;
mod head;
mod ids;
mod integers;
mod keep;
mod kept;
mod laws;
mod longer;
mod names;
mod opened;
mod outcome;
mod put;
mod store;
mod trimming;

pub use kept::KeptSteps;
pub use laws::{
    core_is_unmet, marks_are_needed, trimmed_is_a_part, trimmed_is_accepted, wanted_is_named,
};
pub use outcome::{TrimOf, Trimmed};
pub use trimming::trim;
