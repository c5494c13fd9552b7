//! Which texts are accepted as proofs and which are right as logs: what texts mean together with when steps are right.
#![tactic(auto)]

mod laws;

pub use laws::{
    accepted_is_unmet, logs_are_judged_in_one_way, marked_logs_learn, proofs_are_judged_in_one_way,
    right_log_is_unmet, right_steps_have_right_sources,
};
