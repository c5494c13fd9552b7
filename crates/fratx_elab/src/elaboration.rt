//! What the elaboration of any log of a formula goes by.
use crate::originals::{Counts, Originals};
use cx_base::Formula;
use std::alloc::Global;

/// A formula, and its constraints by number and by content.
#[derive(Drop)]
pub struct Elaboration<'f> {
    pub alloc: Global,
    pub formula: &'f Formula,
    /// The formula's numbers of clauses and of parities.
    pub counts: Counts,
    pub originals: Originals,
}
