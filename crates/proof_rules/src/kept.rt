//! Lists of literals, as a table keeps them.
ghost use Rattle.std.specs.Prelude.{◌≡◌, ◌+◌, ◌≤◌, ◌++◌, IfOk, OnOk, OnErr, MatchOption, None, Some, length, vec_len, vec_capacity};
ghost use Rattle.std.specs.FinMap as map;
ghost use Rattle.cx_semantics.specs.LogRules.{moving};
ghost use Rattle.cx_semantics.specs.Moves.{moved};
ghost use Rattle.proof_rules.specs.Judges.{JudgesBy};
ghost use Rattle.proof_rules.specs.KeptLists.{literals_at};
ghost use Rattle.proof_rules.specs.Places.{HasKeys};

use crate::id_map::IdMap;
use crate::page::Filler;
use crate::refusal::JudgeRefusal;
use cx_base::{IdMove, Lit};
use std::alloc::{AllocError, Global};
use std::marker::Model;
use std::mem;

/// How many literals there are at most, with those of lists that went.
const MAX_LITERALS: usize = 4_294_967_295;

/// Up to this many literals are written one by one, which costs less than a call that copies them at once.
const FEW: usize = 8;

/// How many literals pay for the walk over a page of the map: as many as take the memory of a page without values.
const LITERALS_PER_PAGE: usize = 8;

/// Room for this many more comes with each gathering.
const MORE_LITERALS: usize = 1024;

/// Where the literals of a list are among those of all.
#[derive(Clone, Copy, Drop)]
struct Span {
    start: u32,
    len: u32,
}

impl Filler for Span {
    fn filler() -> Span {
        Span { start: 0, len: 0 }
    }
}

/// Lists of literals by their ids.
///
/// The literals of all follow one another in one vector, so that a list takes eight bytes and its literals, and
/// no memory of its own. Those of a list that goes stay where they are. Where the vector has no room and a third of its
/// literals or more are those of lists that went, it is made anew, and otherwise it grows.
#[derive(Drop)]
pub(crate) struct KeptLists {
    spans: IdMap<Span>,
    lits: Vec<Lit>,
    /// How many literals the lists have. A list that comes under the id of another counts too.
    live: usize,
}

impl Model for KeptLists {
    ghost use Rattle.cx_semantics.specs.Tables.{Table, table_code};

    ghost Value = { Table };

    ghost coded = { table_code };

    ghost use Rattle.proof_rules.specs.KeptLists.{kept_in, AreWithin};

    ghost view = { λ a. kept_in a.lits.items a.spans };

    ghost invariant = { λ a. AreWithin a.lits.items a.spans };
}

/// The literals of a span.
#[inline(always)]
fn part(lits: &[Lit], span: Span) -> &[Lit]
    requires { span.start + span.len ≤ length lits.now }
    ensures { result.now ≡ literals_at lits.now span }
{
    let start = span.start as usize;
    &lits[start..start + span.len as usize]
}

/// Makes room for this many more, where it is missing: the vector grows by half or more, so that a literal costs constant time.
fn make_room(all: &mut Vec<Lit>, more: usize) -> Result<(), AllocError>
    ensures items { all.new.items ≡ all.old.items }
    ensures room { OnOk result (vec_len all.new + more ≤ vec_capacity all.new) }
{
    if more <= all.capacity() - all.len() {
        return Ok(());
    }
    all.reserve_exact((all.len() / 2).max(more))
}

/// Adds literals one by one, where there is room for them.
fn push_all(all: &mut Vec<Lit>, lits: &[Lit])
    requires { vec_len all.old + length lits.now ≤ vec_capacity all.old }
    ensures { all.new.items ≡ all.old.items ++ lits.now }
{
    for lit in lits {
        all.push_reserved(*lit);
    }
}

/// Adds literals. Without memory nothing changes.
fn append(all: &mut Vec<Lit>, lits: &[Lit]) -> Result<(), AllocError>
    ensures items { OnOk result (all.new.items ≡ all.old.items ++ lits.now) }
    ensures err { OnErr result (all.new.items ≡ all.old.items) }
{
    make_room(all, lits.len())?;
    if lits.len() > FEW {
        return all.extend_from_slice(lits);
    }
    push_all(all, lits);
    Ok(())
}

/// Adds literals, and tells where they are. Without memory nothing changes.
fn push_list(all: &mut Vec<Lit>, lits: &[Lit]) -> Result<Span, AllocError>
    ensures items { OnOk result (all.new.items ≡ all.old.items ++ lits.now) }
    ensures span { IfOk result (λ span. span ≡ record { start = length all.old.items; len = length lits.now }) }
    ensures err { OnErr result (all.new.items ≡ all.old.items) }
{
    let start = all.len();
    if start + lits.len() > MAX_LITERALS {
        return Err(AllocError);
    }
    append(all, lits)?;
    Ok(Span {
        start: start as u32,
        len: lits.len() as u32,
    })
}

/// Takes the span of this id out, and tells how many literals it has, if there is one. It takes one look-up.
fn take_span(spans: &mut IdMap<Span>, id: u64) -> usize
    ensures { spans.new ≡ map.remove spans.old id }
{
    match spans.take(id) {
        Some(span) => span.len as usize,
        None => 0,
    }
}

impl KeptLists {
    /// No list is in it, and this many are elsewhere, whose ids come before those of this one.
    pub(crate) fn beside(alloc: Global, count: u64) -> KeptLists
        ensures { result ≡ map.empty }
    {
        KeptLists {
            spans: IdMap::beside(alloc, count),
            lits: Vec::new(alloc),
            live: 0,
        }
    }

    /// Whether there is a list of this id.
    pub(crate) fn has(&self, id: u64) -> bool
        ensures { result ≡ map.contains_key self.now id }
    {
        self.spans.get(id).is_some()
    }

    /// The literals of the list of this id, in order.
    #[inline(always)]
    pub(crate) fn get(&self, id: u64) -> Option<&[Lit]>
        ensures { MatchOption result (map.get self.now id ≡ None) (λ lits. map.get self.now id ≡ Some lits.now) }
    {
        match self.spans.get(id) {
            Some(span) => Some(part(&self.lits, *span)),
            None => None,
        }
    }

    /// The ids of the lists.
    pub(crate) fn ids(&self, alloc: Global) -> Result<Vec<u64>, AllocError>
        ensures { IfOk result (λ ids. HasKeys self.now ids.items) }
    {
        self.spans.ids(alloc)
    }

    /// Puts a copy of these literals under this id. Without memory nothing changes.
    #[inline(always)]
    pub(crate) fn insert(&mut self, id: u64, lits: &[Lit]) -> Result<(), AllocError>
        ensures ok { OnOk result (self.new ≡ map.insert self.old id lits.now) }
        ensures err { OnErr result (self.new ≡ self.old) }
    {
        if lits.len() > self.lits.capacity() - self.lits.len() && self.is_sparse() {
            self.gather();
        }
        self.put(id, lits)
    }

    /// Adds a copy of these literals to those of all, and notes under this id where they are. Without memory nothing changes.
    // In one place for both who ask for it, so that its own calls are inlined.
    #[inline(never)]
    fn put(&mut self, id: u64, lits: &[Lit]) -> Result<(), AllocError>
        ensures ok { OnOk result (self.new ≡ map.insert self.old id lits.now) }
        ensures err { OnErr result (self.new ≡ self.old) }
    {
        let span = push_list(&mut self.lits, lits)?;
        // Where the map has no memory for the span, the literals stay after those of all spans, and belong to none.
        self.spans.insert(id, span)?;
        self.live = self.live.saturating_add(lits.len());
        Ok(())
    }

    /// Takes the list of this id out; where there is none nothing changes.
    pub(crate) fn remove(&mut self, id: u64)
        ensures { self.new ≡ map.remove self.old id }
    {
        let len = take_span(&mut self.spans, id);
        self.live = self.live.saturating_sub(len);
    }

    /// Moves lists under other ids, all at once, where the rules of a move hold. No literal is copied. After an error the lists
    /// are spoilt.
    pub(crate) fn judge_and_move(&mut self, moves: &[IdMove]) -> Result<(), JudgeRefusal>
        ensures judged { JudgesBy (moving self.old moves.now) result }
        ensures moved { OnOk result (self.new ≡ moved self.old moves.now) }
    {
        let alloc = *self.lits.allocator();
        // They come back when all are moved, so that a map that is spoilt has no span.
        let mut spans = mem::replace(&mut self.spans, IdMap::new(alloc));
        let judged = spans.judge_and_move(alloc, moves);
        if judged.is_ok() {
            self.spans = spans;
        }
        judged
    }

    /// Whether a third of the literals or more are those of lists that went.
    fn is_sparse(&self) -> bool {
        self.lits.len().saturating_sub(self.live) >= self.live / 2
    }

    /// Lets go of the literals of lists that went. Without memory they stay.
    #[inline(never)]
    fn gather(&mut self)
        ensures { self.new ≡ self.old }
    {
        if let Ok(gathered) = self.gathered() {
            *self = gathered;
        }
    }

    /// These lists, and no other literals.
    fn gathered(&self) -> Result<KeptLists, AllocError>
        ensures { IfOk result (λ gathered. gathered ≡ self.now) }
    {
        let mut gathered = self.without_lists()?;
        let ids = self.ids(*self.lits.allocator())?;
        for id in &ids {
            gathered.copy_list(self, *id)?;
        }
        Ok(gathered)
    }

    /// No list is in it, and there is room for twice the literals of these, and for as many more as pay for a walk over the pages
    /// of the map. The same ids get a place.
    fn without_lists(&self) -> Result<KeptLists, AllocError>
        ensures { IfOk result (λ lists. lists ≡ map.empty) }
    {
        let alloc = *self.lits.allocator();
        let walk = self.spans.page_count().saturating_mul(LITERALS_PER_PAGE);
        let room = self.live.saturating_mul(2).saturating_add(walk);
        Ok(KeptLists {
            spans: IdMap::beside(alloc, self.spans.added()),
            lits: Vec::with_capacity(alloc, room.saturating_add(MORE_LITERALS))?,
            live: 0,
        })
    }

    /// Puts a copy of the list that the others have under this id under it here too, if they have one. Without memory nothing changes.
    fn copy_list(&mut self, others: &KeptLists, id: u64) -> Result<(), AllocError>
        ensures { OnOk result (MatchOption (map.get others.now id) (self.new ≡ self.old) (λ lits. self.new ≡ map.insert self.old id lits)) }
    {
        match others.get(id) {
            Some(lits) => self.put(id, lits),
            None => Ok(()),
        }
    }
}
