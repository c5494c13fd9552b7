//! The look for clauses of which one bears on another. Each old clause is looked at as a part of new ones alone, then each new
//! one as a part of all, the shortest ones first.
ghost use Rattle.std.specs.Prelude.{◌≡◌, ◌+◌, ◌^◌, ◌<◌, ◌≤◌, ℕ, [], length, IfOk, OnOk, MatchBool, MatchOption};
ghost use Rattle.cx_base.specs.Problem.{AreWithin};
ghost use Rattle.clause_arena.specs.Clauses.{IsLive, literals_at};
ghost use Rattle.clause_tidy.specs.Indexes.{IsIndexed, AreKnown};
ghost use Rattle.clause_tidy.specs.Marks.{AreClearFor};
ghost use Rattle.clause_tidy.specs.Pairs.{IsPair, NoneBears};
ghost use Rattle.clause_tidy.specs.Rooms.{HasMore, IsWaiting, IsRoomFor, IsRoomBefore, KeepsLook, looks_to_come};
ghost use Rattle.tidy_rules.specs.Below.{TidiedBelow};

use crate::index::Index;
use crate::look::Look;
use crate::pairs::{Pair, is_pair};
use clause_arena::Arena;
use cx_base::ClauseRef;
use std::alloc::{AllocError, Global};

/// A clause that waits to be looked at, and its length.
#[derive(Clone, Copy, Drop)]
pub(crate) struct Queued {
    pub len: usize,
    pub clause: ClauseRef,
}

/// What a tidying keeps beside the arena.
#[derive(Drop)]
pub(crate) struct TidyRoom {
    pub index: Index,
    pub look: Look,
    /// The clauses before this reference are old: they were tidy when the work began.
    pub from: u32,
    /// The old clauses before this reference were looked at as parts of new ones.
    pub passed: u32,
    /// The clauses that are looked at as parts of all, from this place on.
    pub queue: Vec<Queued>,
    pub place: usize,
    /// What the last look has found and was not yet seen to be tidy.
    pub found: Vec<ClauseRef>,
}

/// Puts a live clause at the end of the queue.
fn wait(queue: &mut Vec<Queued>, arena: &Arena, clause: ClauseRef) -> Result<(), AllocError>
    ensures kept { OnOk result ((place p : ℕ) → IsWaiting queue.old.items place p → IsWaiting queue.new.items place p) }
    ensures waits { OnOk result ((place : ℕ) → IsLive arena.now clause → place ≤ length queue.old.items → IsWaiting queue.new.items place clause) }
    ensures longer { OnOk result (length queue.old.items ≤ length queue.new.items) }
{
    if !arena.is_live(clause) {
        return Ok(());
    }
    let len = arena.lits(clause).len();
    queue.push(Queued { len, clause })?;
    Ok(())
}

/// Puts the shortest ones first.
fn sort(queue: &mut Vec<Queued>)
    ensures { (p : ℕ) → IsWaiting queue.old.items 0 p → IsWaiting queue.new.items 0 p }
{
    queue.sort_unstable_by_key(|queued| queued.len);
}

impl TidyRoom {
    /// Room for no clause, and for variables up to this number. The clauses before this reference are old.
    fn empty(alloc: Global, vars: u32, from: u32) -> Result<TidyRoom, AllocError>
        requires { vars < 2 ^ 31 }
        ensures lists { IfOk result (λ room. length room.index.lists ≡ vars + 1) }
        ensures signatures { IfOk result (λ room. room.index.signatures.items ≡ []) }
        ensures marks { IfOk result (λ room. AreClearFor (length room.index.lists) room.look.marks.items) }
        ensures first { IfOk result (λ room. room.index.first ≡ from) }
        ensures from { IfOk result (λ room. (room.from ≡ from) × (room.passed ≡ 0)) }
        ensures place { IfOk result (λ room. room.place ≡ 0) }
        ensures found { IfOk result (λ room. room.found.items ≡ []) }
    {
        let index = Index::make(alloc, vars, from)?;
        let look = Look::make(alloc, vars)?;
        Ok(TidyRoom {
            index,
            look,
            from,
            passed: 0,
            queue: Vec::new(alloc),
            place: 0,
            found: Vec::new(alloc),
        })
    }

    /// Takes in the clause of the next reference, which waits then where it is a new one.
    fn enter(&mut self, arena: &Arena, clause: ClauseRef) -> Result<(), AllocError>
        requires indexed { IsIndexed arena.now self.old.index.first clause self.old.index.lists self.old.index.chosen.items self.old.index.signatures.items }
        requires known { IsLive arena.now clause → AreKnown self.old.index.lists (literals_at arena.now clause) }
        ensures indexed { OnOk result (IsIndexed arena.now self.new.index.first (clause + 1) self.new.index.lists self.new.index.chosen.items self.new.index.signatures.items) }
        ensures lists { OnOk result (length self.new.index.lists ≡ length self.old.index.lists) }
        ensures kept { OnOk result ((place p : ℕ) → IsWaiting self.old.queue.items place p → IsWaiting self.new.queue.items place p) }
        ensures waits { OnOk result ((place : ℕ) → self.old.from ≤ clause → IsLive arena.now clause → place ≤ length self.old.queue.items → IsWaiting self.new.queue.items place clause) }
        ensures longer { OnOk result (length self.old.queue.items ≤ length self.new.queue.items) }
        ensures keeps { KeepsLook self.old self.new }
    {
        self.index.enter(arena, clause)?;
        if clause.place() < self.from {
            return Ok(());
        }
        wait(&mut self.queue, arena, clause)
    }

    /// Takes in all clauses of an arena.
    fn fill(&mut self, arena: &Arena) -> Result<(), AllocError>
        requires known { (r : ℕ) → IsLive arena.now r → AreKnown self.old.index.lists (literals_at arena.now r) }
        requires none { self.old.index.signatures.items ≡ [] }
        ensures indexed { OnOk result (IsIndexed arena.now self.new.index.first (length arena.now.clauses) self.new.index.lists self.new.index.chosen.items self.new.index.signatures.items) }
        ensures lists { OnOk result (length self.new.index.lists ≡ length self.old.index.lists) }
        ensures waits { OnOk result ((p : ℕ) → self.old.from ≤ p → IsLive arena.now p → IsWaiting self.new.queue.items 0 p) }
        ensures keeps { OnOk result (KeepsLook self.old self.new) }
    {
        for place in 0..arena.len() {
            self.enter(arena, ClauseRef::new(place as u32))?;
        }
        Ok(())
    }

    /// Room for the clauses of an arena, whose variables go up to this number. Those before this reference are tidy. Each other
    /// one waits to be looked at, the shortest ones first.
    pub(crate) fn make(
        alloc: Global,
        vars: u32,
        arena: &Arena,
        from: u32,
    ) -> Result<TidyRoom, AllocError>
        requires few { vars < 2 ^ 31 }
        requires within { from ≤ length arena.now.clauses }
        requires tidy { TidiedBelow arena.now from }
        requires variables { (r : ℕ) → IsLive arena.now r → AreWithin vars (literals_at arena.now r) }
        ensures { IfOk result (IsRoomFor arena.now) }
    {
        let mut room = TidyRoom::empty(alloc, vars, from)?;
        room.fill(arena)?;
        sort(&mut room.queue);
        Ok(room)
    }

    /// Looks at the next old clause, as a part of those in the lists.
    fn look_at_old(&mut self, arena: &Arena) -> Result<(), AllocError>
        requires room { IsRoomFor arena.now self.old }
        requires more { self.old.passed < self.old.from }
        requires none { self.old.found.items ≡ [] }
        ensures room { OnOk result (IsRoomFor arena.now self.new) }
        ensures less { OnOk result (looks_to_come self.new < looks_to_come self.old) }
    {
        let part = ClauseRef::new(self.passed);
        self.passed += 1;
        if !self.index.may_be_part(arena, part) {
            return Ok(());
        }
        self.look.look(&self.index, arena, part, &mut self.found)
    }

    /// Puts all clauses into the lists.
    fn complete(&mut self, arena: &Arena) -> Result<(), AllocError>
        requires { IsRoomFor arena.now self.old }
        ensures room { OnOk result (IsRoomFor arena.now self.new) }
        ensures first { OnOk result (self.new.index.first ≡ 0) }
        ensures looks { looks_to_come self.new ≡ looks_to_come self.old }
        ensures queue { (self.new.queue ≡ self.old.queue) × (self.new.place ≡ self.old.place) }
        ensures found { self.new.found ≡ self.old.found }
    {
        self.index.complete(arena)
    }

    /// Looks at the clause that waits next.
    fn look_on(&mut self, arena: &Arena) -> Result<(), AllocError>
        requires room { IsRoomFor arena.now self.old }
        requires all { self.old.index.first ≡ 0 }
        requires more { self.old.place < length self.old.queue.items }
        requires none { self.old.found.items ≡ [] }
        ensures room { OnOk result (IsRoomFor arena.now self.new) }
        ensures less { OnOk result (looks_to_come self.new < looks_to_come self.old) }
    {
        let part = self.queue[self.place].clause;
        self.place += 1;
        if !arena.is_live(part) {
            return Ok(());
        }
        self.look.look(&self.index, arena, part, &mut self.found)
    }

    /// The clause that was looked at, and one that was found on which it bears. Those found that it does not are let go.
    fn next_found(&mut self, arena: &Arena) -> Option<Pair>
        requires room { IsRoomFor arena.now self.old }
        ensures room { IsRoomFor arena.now self.new }
        ensures pair { MatchOption result (self.new.found.items ≡ []) (IsPair arena.now) }
        ensures looks { looks_to_come self.new ≡ looks_to_come self.old }
    {
        while !self.found.is_empty() {
            let whole = self.found[self.found.len() - 1];
            let pair = Pair {
                part: self.look.part,
                whole,
            };
            if is_pair(arena, &pair) {
                return Some(pair);
            }
            self.found.pop();
        }
        None
    }

    /// Whether a clause is still to be looked at.
    fn has_more(&self) -> bool
        ensures { MatchBool result (HasMore self.now) ((self.now.from ≤ self.now.passed) × (length self.now.queue.items ≤ self.now.place)) }
    {
        self.passed < self.from || self.place < self.queue.len()
    }

    /// Looks at the next clause: at the old ones first.
    fn look_next(&mut self, arena: &Arena) -> Result<(), AllocError>
        requires room { IsRoomFor arena.now self.old }
        requires more { HasMore self.old }
        requires none { self.old.found.items ≡ [] }
        ensures room { OnOk result (IsRoomFor arena.now self.new) }
        ensures less { OnOk result (looks_to_come self.new < looks_to_come self.old) }
    {
        if self.passed < self.from {
            return self.look_at_old(arena);
        }
        self.complete(arena)?;
        self.look_on(arena)
    }

    /// Two clauses, of which the part lies inside the whole or strengthens it.
    pub(crate) fn next(&mut self, arena: &Arena) -> Result<Option<Pair>, AllocError>
        requires { IsRoomFor arena.now self.old }
        ensures room { OnOk result (IsRoomFor arena.now self.new) }
        ensures pair { IfOk result (λ found. MatchOption found (NoneBears arena.now) (IsPair arena.now)) }
    {
        loop {
            if let Some(pair) = self.next_found(arena) {
                return Ok(Some(pair));
            }
            if !self.has_more() {
                return Ok(None);
            }
            self.look_next(arena)?;
        }
    }

    /// Takes in what is left of a clause that lost a literal: one more reference, or none. It waits to be looked at, and the
    /// clause that is looked at may bear on it too.
    pub(crate) fn admit(&mut self, arena: &Arena, before: usize) -> Result<(), AllocError>
        requires room { IsRoomBefore arena.now before self.old }
        requires few { length arena.now.clauses ≤ before + 1 }
        ensures { OnOk result (IsRoomFor arena.now self.new) }
    {
        if before == arena.len() {
            return Ok(());
        }
        let clause = ClauseRef::new(before as u32);
        self.enter(arena, clause)?;
        self.found.push(clause)?;
        Ok(())
    }
}
