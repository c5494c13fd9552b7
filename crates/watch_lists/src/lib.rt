//! Two watched literals for each clause.
#![tactic(auto)]

mod ahead;
mod anew;
mod attach;
mod detach;
mod event;
mod laws;
mod linking;
mod lists;
mod look;
mod nodes;
mod renaming;
mod starts;
mod walk;
mod watches;

pub use event::Event;
pub use laws::{
    compacted_references_fall, detached_watches_fit, larger_arena_fits, longer_trail_fits,
    new_watches_fit, renamed_watches_fit, taken_back_fits,
};
pub use watches::Watches;
