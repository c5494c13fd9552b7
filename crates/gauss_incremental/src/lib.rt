//! Gauss-Jordan elimination over parities that goes on from where it stood.
//!
//! [`Incremental`] keeps its matrix reduced. Each row has a basic column, which no other row has, and watches one
//! column more (Han and Jiang, CAV 2012): it is looked at only when one of the two is assigned, and pivoted only
//! when its basic column is. Rows, and what is assigned and true, are packed into words (Soos, Gocht and Meel,
//! CAV 2020), and a named row is the row itself, so that a reason is written only where it is asked for. A backjump
//! takes back values and names, and touches no row.
#![tactic(auto)]

mod basics;
mod gates;
mod incremental;
mod line;
mod lists;
mod looks;
mod marks;
mod names;
mod short_first;
mod shorts;
mod sight;
mod trail;
mod watching;

pub use gf2_matrix::RowView;
pub use incremental::Incremental;
pub use parity_engine::{Held, Mood, ParityEngine, ParityEvent};
pub use short_first::ShortFirst;
