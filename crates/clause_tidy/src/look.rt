//! A look at a clause as a part: of which clauses it may be one.
ghost use Rattle.std.specs.Prelude.{◌≡◌, ◌⊎◌, ◌+◌, ◌*◌, ◌<◌, ◌≤◌, ◌^◌, [], ℕ, true, length, IfOk, IfSome, OnOk, IsTrue, Contains};
ghost use Rattle.clause_arena.specs.Clauses.{IsLive, literals_at};
ghost use Rattle.cx_base.specs.Literals.{Literal};
ghost use Rattle.clause_tidy.specs.Indexes.{IsIndexed, AreKnown};
ghost use Rattle.clause_tidy.specs.Listing.{list_of};
ghost use Rattle.clause_tidy.specs.Looks.{HasChosenAt, IsBlankFor, IsChosenIn, IsLookAt, HasWholesOf};
ghost use Rattle.clause_tidy.specs.Marks.{AreClear, HaveRoom};
ghost use Rattle.clause_tidy.specs.Pairs.{Bears};

use crate::index::Index;
use crate::lists::{VariableLists, is_chosen};
use crate::marks::{clear, mark, may_bear};
use crate::signatures::signature;
use clause_arena::Arena;
use cx_base::{ClauseRef, Lit};
use std::alloc::{AllocError, Global};

/// A look at a clause as a part.
#[derive(Drop)]
pub(crate) struct Look {
    pub part: ClauseRef,
    pub signature: u64,
    /// How many different literals it has.
    pub many: usize,
    /// Its literals, by their codes.
    pub marks: Vec<bool>,
}

impl Look {
    /// A look at nothing, for variables up to this number.
    pub(crate) fn make(alloc: Global, vars: u32) -> Result<Look, AllocError>
        requires { vars < 2 ^ 31 }
        ensures clear { IfOk result (λ look. AreClear look.marks.items) }
        ensures room { IfOk result (λ look. length look.marks.items ≡ 2 * (vars + 1)) }
    {
        let mut marks = Vec::new(alloc);
        marks.resize(2 * (vars as usize + 1), false)?;
        Ok(Look {
            part: ClauseRef::new(0),
            signature: 0,
            many: 0,
            marks,
        })
    }

    /// Looks at this clause.
    fn begin(&mut self, arena: &Arena, part: ClauseRef)
        requires live { IsLive arena.now part }
        requires clear { AreClear self.old.marks.items }
        requires room { HaveRoom self.old.marks.items (literals_at arena.now part) }
        ensures look { IsLookAt arena.now self.new }
        ensures part { self.new.part ≡ part }
        ensures room { length self.new.marks.items ≡ length self.old.marks.items }
    {
        let lits = arena.lits(part);
        self.part = part;
        self.signature = signature(lits);
        self.many = mark(&mut self.marks, lits);
    }

    /// The look is over.
    fn end(&mut self, arena: &Arena)
        requires live { IsLive arena.now self.old.part }
        requires look { IsLookAt arena.now self.old }
        requires room { HaveRoom self.old.marks.items (literals_at arena.now self.old.part) }
        ensures clear { AreClear self.new.marks.items }
        ensures part { self.new.part ≡ self.old.part }
        ensures room { length self.new.marks.items ≡ length self.old.marks.items }
    {
        clear(&mut self.marks, arena.lits(self.part));
    }

    /// Whether the part may bear on this clause.
    fn may_find(&self, index: &Index, arena: &Arena, clause: ClauseRef) -> bool
        requires look { IsLookAt arena.now self.now }
        requires indexed { IsIndexed arena.now index.now.first (length arena.now.clauses) index.now.lists index.now.chosen.items index.now.signatures.items }
        ensures { IsLive arena.now clause → Bears arena.now self.now.part clause → IsTrue result }
    {
        clause != self.part
            && index.may_have(clause, self.signature)
            && arena.is_live(clause)
            && may_bear(&self.marks, self.many, arena.lits(clause))
    }

    /// Finds those of a list on which the part may bear.
    fn find_in(
        &self,
        index: &Index,
        arena: &Arena,
        list: &[ClauseRef],
        found: &mut Vec<ClauseRef>,
    ) -> Result<(), AllocError>
        requires look { IsLookAt arena.now self.now }
        requires indexed { IsIndexed arena.now index.now.first (length arena.now.clauses) index.now.lists index.now.chosen.items index.now.signatures.items }
        requires none { found.old.items ≡ [] }
        ensures { OnOk result (HasWholesOf arena.now self.now.part (Contains list.now) found.new.items) }
    {
        for clause in list {
            if self.may_find(index, arena, *clause) {
                found.push(*clause)?;
            }
        }
        Ok(())
    }

    /// Finds all clauses on which the part may bear, where it has no chosen variable.
    fn find_all(
        &self,
        index: &Index,
        arena: &Arena,
        found: &mut Vec<ClauseRef>,
    ) -> Result<(), AllocError>
        requires look { IsLookAt arena.now self.now }
        requires indexed { IsIndexed arena.now index.now.first (length arena.now.clauses) index.now.lists index.now.chosen.items index.now.signatures.items }
        ensures { OnOk result (HasWholesOf arena.now self.now.part (λ q. q < length arena.now.clauses) found.new.items) }
    {
        for place in 0..arena.len() {
            let clause = ClauseRef::new(place as u32);
            if self.may_find(index, arena, clause) {
                found.push(clause)?;
            }
        }
        Ok(())
    }

    /// Finds all clauses on which the part may bear, of those from the first one of the lists on.
    fn find(
        &self,
        index: &Index,
        arena: &Arena,
        found: &mut Vec<ClauseRef>,
    ) -> Result<(), AllocError>
        requires live { IsLive arena.now self.now.part }
        requires look { IsLookAt arena.now self.now }
        requires indexed { IsIndexed arena.now index.now.first (length arena.now.clauses) index.now.lists index.now.chosen.items index.now.signatures.items }
        requires none { found.old.items ≡ [] }
        ensures { OnOk result (HasWholesOf arena.now self.now.part (λ q. index.now.first ≤ q) found.new.items) }
    {
        match rarest(&index.lists, &index.chosen, arena.lits(self.part)) {
            Some(lit) => self.find_in(index, arena, index.lists.of(lit.var()), found),
            None => self.find_all(index, arena, found),
        }
    }

    /// Looks at this clause: finds all clauses on which it may bear, of those in the lists.
    pub(crate) fn look(
        &mut self,
        index: &Index,
        arena: &Arena,
        part: ClauseRef,
        found: &mut Vec<ClauseRef>,
    ) -> Result<(), AllocError>
        requires live { IsLive arena.now part }
        requires indexed { IsIndexed arena.now index.now.first (length arena.now.clauses) index.now.lists index.now.chosen.items index.now.signatures.items }
        requires blank { IsBlankFor index.now.lists self.old }
        requires none { found.old.items ≡ [] }
        ensures found { OnOk result (HasWholesOf arena.now part (λ q. index.now.first ≤ q) found.new.items) }
        ensures part { OnOk result (self.new.part ≡ part) }
        ensures blank { OnOk result (IsBlankFor index.now.lists self.new) }
    {
        self.begin(arena, part);
        self.find(index, arena, found)?;
        self.end(arena);
        Ok(())
    }
}

/// Whether the first of two places of literals has a variable with a shorter list, or there is no other.
fn is_shorter(lists: &VariableLists, lits: &[Lit], place: usize, other: usize) -> bool
    requires { place < length lits.now }
{
    other >= lits.len() || lists.len_of(lits[place].var()) < lists.len_of(lits[other].var())
}

/// The place of the rarer literal of the two. Only a chosen variable's counts.
fn rarer(lists: &VariableLists, chosen: &[bool], lits: &[Lit], place: usize, other: usize) -> usize
    requires { place < length lits.now }
    ensures { (result ≡ other) ⊎ ((result ≡ place) × HasChosenAt chosen.now lits.now place) }
{
    if !is_chosen(chosen, lits[place].var()) {
        return other;
    }
    if is_shorter(lists, lits, place, other) {
        return place;
    }
    other
}

/// The literal of a clause whose variable's list is the shortest, of those of chosen variables.
fn rarest(lists: &VariableLists, chosen: &[bool], lits: &[Lit]) -> Option<Lit>
    ensures { IfSome result (IsChosenIn chosen.now lits.now) }
{
    let mut rarest = lits.len();
    for place in 0..lits.len() {
        rarest = rarer(lists, chosen, lits, place, rarest);
    }
    if rarest < lits.len() {
        Some(lits[rarest])
    } else {
        None
    }
}
