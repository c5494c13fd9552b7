//! A log becomes a proof: each step is judged, and what it adds is written with hints.
#![tactic(auto)]

mod content_index;
mod delete;
mod elaboration;
mod ends;
mod laws;
mod moving;
mod naming;
mod one_step;
mod originals;
mod outcome;
mod own_ids;
mod state;
mod steps;
mod take;
mod walk;

pub use ends::{ElabEnds, Joined};
pub use laws::right_hints_are_kept;
pub use outcome::{Elab, ElabFault};
pub use walk::elaborate;
