//! Rows over the two-element field as lists of their variables, for parities of few variables.
//!
//! [`ListedRows::echelon`] makes a row of each parity and adds rows until none has the least variable of another. A row
//! takes memory for its variables alone, so that parities that share few variables take time and memory in proportion to
//! their number. Where the lists grow long, a [`gf2_matrix::Matrix`] eliminates.
#![tactic(auto)]

mod columns;
mod echelon;
mod eliminating;
mod making;
mod reducing;
mod row;
mod rows;
mod unpacked;

pub use rows::ListedRows;
