//! The program as one call over its words and its desk.
#![tactic(auto)]

mod affine;
mod blast;
mod demo;
mod elab;
mod elab_desk;
mod ending;
mod failed;
mod judge;
mod laws;
mod load;
mod print;
mod program;
mod proof_on_desk;
mod solve;
mod trim;

pub use cx_words::{InstanceKind, Name, Plan, PlanRefusal, plan};
pub use ending::{Core, Ending, Instance, Outcome, Shown, Status, WrongAnswer};
pub use laws::{
    files_decide, one_ending_is_due, refusals_of_formulas_are_due, refutations_are_verified,
    runs_agree, usage_is_for_no_plan,
};
pub use program::{run, run_within};
