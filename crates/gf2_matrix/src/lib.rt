//! Rows over the two-element field that are sums of given parities.
//!
//! A [`Matrix`] is made of parities: a column for each variable that occurs in a normal form, and a row for each
//! parity. Each row keeps a bit for each given parity that it is the sum of, through every pivot. Parities that
//! share variables, directly or by others between them, make up a part, and a row has words for the columns and the
//! parities of its part alone, in tables where few words take little room. [`Matrix::make_of_independent`] gives rows
//! only to parities that say what all of them say. A [`RowView`] looks at a row.
#![tactic(auto)]

mod by_column;
mod column_set;
mod crowded;
mod flat;
mod independent;
mod labels;
mod make;
mod matrix;
mod packed;
mod picked;
mod renamed;
mod row_bits;
mod row_tables;
mod sources;
mod span;
mod view;

pub use column_set::next_in_set;
pub use make::clear_words;
pub use matrix::Matrix;
pub use row_bits::RowBits;
pub use view::{RowView, place_of};
