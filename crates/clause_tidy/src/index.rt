//! An index of an arena's clauses: lists by variable, and signatures.
ghost use Rattle.std.specs.Prelude.{◌≡◌, ◌+◌, ◌≤◌, ℕ, [], length, get_or, IfOk, OnOk, IsFalse, MatchBool};
ghost use Rattle.clause_arena.specs.Clauses.{ArenaState, IsLive, literals_at};
ghost use Rattle.clause_tidy.specs.Indexes.{IsIndexed, AreKnown, HasNoWholeFrom};
ghost use Rattle.clause_tidy.specs.Signatures.{HasOther};

use crate::lists::{VariableLists, enter, enter_from, lacks_one};
use crate::signatures::{is_within, signature};
use clause_arena::Arena;
use cx_base::ClauseRef;
use std::alloc::{AllocError, Global};

/// An index of an arena's clauses.
#[derive(Drop)]
pub(crate) struct Index {
    /// For each chosen variable the clauses that have it, of the references from the first one on. One that has lost it may be
    /// there too.
    pub lists: VariableLists,
    /// By variable, whether it is a chosen one. At first all are, and nothing is here.
    pub chosen: Vec<bool>,
    /// The signature of each clause.
    pub signatures: Vec<u64>,
    /// The first reference of which the clause is in the lists.
    pub first: u32,
}

impl Index {
    /// An index of no clause, for variables up to this number. The clauses from this reference on are to be in the lists.
    pub(crate) fn make(alloc: Global, vars: u32, first: u32) -> Result<Index, AllocError>
        ensures lists { IfOk result (λ index. length index.lists ≡ vars + 1) }
        ensures none { IfOk result (λ index. index.signatures.items ≡ []) }
        ensures first { IfOk result (λ index. index.first ≡ first) }
    {
        let lists = VariableLists::make(alloc, vars)?;
        Ok(Index {
            lists,
            chosen: Vec::new(alloc),
            signatures: Vec::new(alloc),
            first,
        })
    }

    /// Takes in the clause of the next reference.
    pub(crate) fn enter(&mut self, arena: &Arena, clause: ClauseRef) -> Result<(), AllocError>
        requires indexed { IsIndexed arena.now self.old.first clause self.old.lists self.old.chosen.items self.old.signatures.items }
        requires known { IsLive arena.now clause → AreKnown self.old.lists (literals_at arena.now clause) }
        ensures indexed { OnOk result (IsIndexed arena.now self.new.first (clause + 1) self.new.lists self.new.chosen.items self.new.signatures.items) }
        ensures lists { OnOk result (length self.new.lists ≡ length self.old.lists) }
        ensures first { self.new.first ≡ self.old.first }
    {
        if !arena.is_live(clause) {
            self.signatures.push(0)?;
            return Ok(());
        }
        let lits = arena.lits(clause);
        enter_from(&mut self.lists, &self.chosen, lits, clause, self.first)?;
        self.signatures.push(signature(lits))?;
        Ok(())
    }

    /// Puts the clause before the first one of the lists into those of chosen variables.
    fn step_back(&mut self, arena: &Arena) -> Result<(), AllocError>
        requires some { 1 ≤ self.old.first }
        requires within { self.old.first ≤ length arena.now.clauses }
        requires indexed { IsIndexed arena.now self.old.first (length arena.now.clauses) self.old.lists self.old.chosen.items self.old.signatures.items }
        ensures indexed { OnOk result (IsIndexed arena.now self.new.first (length arena.now.clauses) self.new.lists self.new.chosen.items self.new.signatures.items) }
        ensures lists { OnOk result (length self.new.lists ≡ length self.old.lists) }
        ensures first { self.new.first + 1 ≡ self.old.first }
    {
        self.first -= 1;
        let clause = ClauseRef::new(self.first);
        if !arena.is_live(clause) {
            return Ok(());
        }
        enter(&mut self.lists, &self.chosen, arena.lits(clause), clause)
    }

    /// Chooses the variables that have a clause in their list, where none was chosen before.
    fn choose(&mut self) -> Result<(), AllocError>
        ensures indexed { (a : ArenaState) (count : ℕ) → IsIndexed a self.old.first count self.old.lists self.old.chosen.items self.old.signatures.items → IsIndexed a self.new.first count self.new.lists self.new.chosen.items self.new.signatures.items }
        ensures lists { self.new.lists ≡ self.old.lists }
        ensures first { self.new.first ≡ self.old.first }
    {
        if self.chosen.len() > 0 {
            return Ok(());
        }
        self.chosen = self.lists.used()?;
        Ok(())
    }

    /// Puts all clauses into the lists of the variables that have a clause in their list.
    pub(crate) fn complete(&mut self, arena: &Arena) -> Result<(), AllocError>
        requires within { self.old.first ≤ length arena.now.clauses }
        requires indexed { IsIndexed arena.now self.old.first (length arena.now.clauses) self.old.lists self.old.chosen.items self.old.signatures.items }
        ensures indexed { OnOk result (IsIndexed arena.now self.new.first (length arena.now.clauses) self.new.lists self.new.chosen.items self.new.signatures.items) }
        ensures lists { OnOk result (length self.new.lists ≡ length self.old.lists) }
        ensures first { OnOk result (self.new.first ≡ 0) }
    {
        if self.first == 0 {
            return Ok(());
        }
        self.choose()?;
        while self.first > 0 {
            self.step_back(arena)?;
        }
        Ok(())
    }

    /// Whether the clause is live, and no list of its chosen variables is empty. Else it bears on none of those in the lists.
    pub(crate) fn may_be_part(&self, arena: &Arena, clause: ClauseRef) -> bool
        requires { IsIndexed arena.now self.now.first (length arena.now.clauses) self.now.lists self.now.chosen.items self.now.signatures.items }
        ensures { MatchBool result (IsLive arena.now clause) (IsLive arena.now clause → HasNoWholeFrom arena.now clause self.now.first) }
    {
        if !arena.is_live(clause) {
            return false;
        }
        !lacks_one(&self.lists, &self.chosen, arena.lits(clause))
    }

    /// Whether the clause's signature has all of these bits.
    pub(crate) fn may_have(&self, clause: ClauseRef, part: u64) -> bool
        ensures { IsFalse result → HasOther part (get_or self.now.signatures.items clause 0) }
    {
        let place = clause.place() as usize;
        place >= self.signatures.len() || is_within(part, self.signatures[place])
    }
}
