//! The digits of numbers, laid out from the last one to the first.
#![tactic(auto)]

mod digits;

pub use digits::{MOST_DIGITS, lay_out_number};
