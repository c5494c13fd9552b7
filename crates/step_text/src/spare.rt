//! Lists that are done with, for the memory that they have.
use cx_base::{IdList, IdMove, IntList, MoveList, ProofStep};
use std::alloc::Global;
use std::mem;

/// The memory of a step's lists, in which the next step's are made: so a reader asks for memory only where a list grows longer
/// than all before it. It is for its memory alone, and no clause speaks of what is there.
#[derive(Drop)]
pub struct SpareLists {
    alloc: Global,
    literals: Vec<i64>,
    hints: Vec<i64>,
    ids: Vec<u64>,
    moves: Vec<IdMove>,
}

impl SpareLists {
    /// No memory yet.
    pub fn new(alloc: Global) -> SpareLists {
        SpareLists {
            alloc,
            literals: Vec::new(alloc),
            hints: Vec::new(alloc),
            ids: Vec::new(alloc),
            moves: Vec::new(alloc),
        }
    }

    /// A list to clear, for literals.
    pub fn literals(&mut self) -> Vec<i64> {
        mem::replace(&mut self.literals, Vec::new(self.alloc))
    }

    /// A list to clear, for hints.
    pub fn hints(&mut self) -> Vec<i64> {
        mem::replace(&mut self.hints, Vec::new(self.alloc))
    }

    /// A list to clear, for ids.
    pub fn ids(&mut self) -> Vec<u64> {
        mem::replace(&mut self.ids, Vec::new(self.alloc))
    }

    /// A list to clear, for moves of ids.
    pub fn moves(&mut self) -> Vec<IdMove> {
        mem::replace(&mut self.moves, Vec::new(self.alloc))
    }

    /// Keeps the memory of a step's literals.
    pub fn keep_literals(&mut self, list: IntList) {
        self.literals = list.into_vec();
    }

    /// Keeps the memory of a step's hints.
    pub fn keep_hints(&mut self, list: IntList) {
        self.hints = list.into_vec();
    }

    /// Keeps the memory of a step's ids.
    pub fn keep_ids(&mut self, list: IdList) {
        self.ids = list.into_vec();
    }

    /// Keeps the memory of a step's moves of ids.
    pub fn keep_moves(&mut self, list: MoveList) {
        self.moves = list.into_vec();
    }

    /// Keeps the memory of a proof's step.
    #[inline(always)]
    pub fn keep(&mut self, step: ProofStep) {
        match step {
            ProofStep::Clause(_, literals, hints)
            | ProofStep::Parity(_, literals, hints)
            | ProofStep::ParityOfClauses(_, literals, hints) => {
                self.keep_literals(literals);
                self.keep_hints(hints);
            }
            ProofStep::ClauseOfParity(_, literals, _) => self.keep_literals(literals),
            ProofStep::DeleteClauses(_, ids) | ProofStep::DeleteParities(ids) => self.keep_ids(ids),
        }
    }
}
