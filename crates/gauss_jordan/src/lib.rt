//! Gauss-Jordan elimination over parities: an engine that eliminates anew at each event, and what the rows of a
//! reduced matrix say, for every engine that keeps one.
#![tactic(auto)]

pub mod found;
pub mod laws;
mod masks;
mod scratch;
mod slot;

pub use gf2_matrix::RowView;
pub use parity_engine::{Held, Mood, ParityEngine, ParityEvent};
pub use scratch::Scratch;
