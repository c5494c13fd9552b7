//! Learning a clause from a conflict.
#![tactic(auto)]

mod antecedents;
mod fault;
mod final_analysis;
mod learning;
mod levels;
mod marks;
mod shortening;
mod touching;

pub use antecedents::Antecedents;
pub use fault::CoreFault;
pub use final_analysis::{Final, analyse_final};
pub use learning::{Learned, Resolved, analyse};
pub use levels::count_levels;
pub use marks::Marks;
