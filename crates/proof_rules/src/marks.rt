//! What the judges look up literals and variables in.
use crate::literal_set::LiteralSet;
use crate::parity_sum::ParitySum;
use cx_base::{Lit, LitList, Var};
use std::alloc::Global;
use std::mem;

/// The marks and lists of the judges. What they have before and after a judgement plays no part: only their memory is
/// used again.
#[derive(Drop)]
pub struct JudgeMarks {
    alloc: Global,
    /// What a chain assumes; the literals of a clause.
    pub assumed: LiteralSet,
    /// The literals of a step.
    target: Vec<Lit>,
    /// What is left of a sum of parities.
    pub(crate) sum: ParitySum,
    /// The variables of a parity.
    pub(crate) variables: Vec<Var>,
    /// The assignments of a parity's variables, and whether each is excluded.
    pub(crate) table: Vec<bool>,
    /// The ids of hints.
    ids: Vec<u64>,
}

impl JudgeMarks {
    /// No mark yet.
    pub fn new(alloc: Global) -> JudgeMarks {
        JudgeMarks {
            alloc,
            assumed: LiteralSet::new(alloc),
            target: Vec::new(alloc),
            sum: ParitySum::new(alloc),
            variables: Vec::new(alloc),
            table: Vec::new(alloc),
            ids: Vec::new(alloc),
        }
    }
    /// A list to clear, for the literals of a step.
    pub fn literals(&mut self) -> Vec<Lit> {
        mem::replace(&mut self.target, Vec::new(self.alloc))
    }

    /// Keeps the memory of a step's literals.
    pub fn keep_literals(&mut self, lits: LitList) {
        self.target = lits.into_vec();
    }

    /// A list to clear, for the ids of hints.
    pub(crate) fn ids(&mut self) -> Vec<u64> {
        mem::replace(&mut self.ids, Vec::new(self.alloc))
    }

    /// Keeps the memory of ids.
    pub(crate) fn keep_ids(&mut self, ids: Vec<u64>) {
        self.ids = ids;
    }
}
