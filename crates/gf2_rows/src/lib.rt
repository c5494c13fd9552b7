//! Rows over the two-element field, packed 64 positions to a word.
//!
//! Position `k` of a row is bit `k % 64` of word `k / 64`. The kernels go over blocks of eight words at a
//! time, and over the words after the last whole block one by one; a sum of less than a block goes by two. The
//! module [`plain`] has them as plain loops under the same contracts. A [`WordTable`] has many rows, and keeps
//! those of few words by these alone.
#![tactic(auto)]

mod few;
mod head;
mod lanes;
pub mod plain;
mod pool;
mod position;
mod scan;
mod short;
mod table;
mod word_row;

pub use few::FEW;
pub use lanes::{add_into, first_outside, ones, outside_near, parity_and};
pub use position::{bit, flip, put};
pub use scan::{next_one, next_outside};
pub use table::WordTable;
pub use word_row::WordRow;
