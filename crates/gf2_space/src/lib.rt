//! The solutions of a formula's parities as an affine space: a point and, for each free variable, a vector.
//!
//! [`space`] eliminates until each row has its least variable to itself ([`gf2_lists::ListedRows::echelon`]): the other
//! variables are the free ones. A [`Space`] keeps these rows, and reads its point and its vectors off them.
#![tactic(auto)]

mod affine;
pub mod laws;
mod making;
mod put;
mod reading;
mod supports;

pub use affine::Space;
pub use making::space;
pub use put::put_space;
