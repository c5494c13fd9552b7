//! The arena.
ghost use Rattle.std.specs.Prelude.{◌≡◌, ◌+◌, ◌-◌, ◌<◌, ◌≤◌, ◌^◌, ◌++◌, ◌∷◌, [], ◌↔◌, length, None, Some, slice_index, slice_set, IfOk, OnOk, OnErr, IsOk, IsTrue, min};
ghost use Rattle.clause_arena.specs.Clauses.{ArenaState, clause_at, literals_at, id_at, lbd_at, learned_at, kept, renamed, with_lbd, IsLive};
ghost use Rattle.std.specs.Prelude.{vec_len, vec_capacity};
ghost use Rattle.clause_arena.specs.Compact.{IsRenamed};
ghost use Rattle.clause_arena.specs.Heads.{part_at, RiseTo};

use crate::head::Head;
use crate::packing::pack;
use cx_base::{ClauseRef, Lit, Moved};
use std::alloc::{AllocError, Global};
use std::marker::Model;

/// How many references an arena hands out at most.
pub const MAX_CLAUSES: usize = 2_147_483_647;

/// Clauses by references.
///
/// All literals follow one another in one vector. A clause that is removed keeps its place, and its reference is not handed out again.
/// Propagation asks for literals alone, so where they end is kept apart from what else is known of a clause.
#[derive(Drop)]
pub struct Arena {
    /// Where the literals of each clause end. They begin where those of the clause before end.
    ends: Vec<usize>,
    heads: Vec<Head>,
    lits: Vec<Lit>,
}

impl Model for Arena {
    ghost use Rattle.std.specs.Prelude.{◌-◌, ◌^◌, min, vec_capacity, vec_len};
    ghost use Rattle.clause_arena.specs.Clauses.{ArenaState};

    ghost Value = { ArenaState };

    ghost use Rattle.clause_arena.specs.Heads.{clauses_from, AreHeads};

    ghost view = { λ a. record {
      clauses = clauses_from 0 a.lits.items a.ends.items a.heads.items;
      clause_room = min (min (vec_capacity a.ends) (vec_capacity a.heads)) (2 ^ 31 - 1) - vec_len a.heads;
      literal_room = vec_capacity a.lits - vec_len a.lits;
    } };

    ghost invariant = { λ a. AreHeads a.lits.items a.ends.items a.heads.items };
}

/// Where the literals of the clause at a place begin.
fn start(ends: &[usize], place: usize) -> usize
    requires { place ≤ length ends.now }
    ensures { result ≡ slice_index (0 ∷ ends.now) place }
{
    if place == 0 { 0 } else { ends[place - 1] }
}

/// The literals of the clause at a place.
fn part<'a>(lits: &'a [Lit], ends: &[usize], place: usize) -> &'a [Lit]
    requires place { place < length ends.now }
    requires order { RiseTo 0 ends.now (length lits.now) }
    ensures { result.now ≡ part_at lits.now ends.now place }
{
    &lits[start(ends, place)..ends[place]]
}

/// Appends literals for which there is room.
fn append(into: &mut Vec<Lit>, lits: &[Lit])
    requires { vec_len into.old + length lits.now ≤ vec_capacity into.old }
    ensures items { into.new.items ≡ into.old.items ++ lits.now }
    ensures room { vec_capacity into.new ≡ vec_capacity into.old }
{
    for lit in lits {
        into.push_reserved(*lit);
    }
}

/// Makes room for this many more, where it is missing: the vector grows by half or more, so that an element costs constant time.
fn make_room<T>(items: &mut Vec<T>, more: usize) -> Result<(), AllocError>
    ensures items { items.new.items ≡ items.old.items }
    ensures room { OnOk result (vec_len items.new + more ≤ vec_capacity items.new) }
    ensures grows { vec_capacity items.old ≤ vec_capacity items.new }
    ensures kept { vec_len items.old + more ≤ vec_capacity items.old → IsOk result × (vec_capacity items.new ≡ vec_capacity items.old) }
{
    if more <= items.capacity() - items.len() {
        return Ok(());
    }
    items.reserve_exact((items.len() / 2).max(more))
}

impl Arena {
    /// An arena with no clause.
    pub fn make(alloc: Global) -> Arena
        ensures { result.clauses ≡ [] }
    {
        Arena {
            ends: Vec::new(alloc),
            heads: Vec::new(alloc),
            lits: Vec::new(alloc),
        }
    }

    /// How many references were handed out.
    pub fn len(&self) -> usize
        ensures len { result ≡ length self.now.clauses }
        ensures few { result ≤ 2 ^ 31 - 1 }
    {
        self.heads.len()
    }

    /// Whether no reference was handed out.
    pub fn is_empty(&self) -> bool
        ensures { IsTrue result ↔ (length self.now.clauses ≡ 0) }
    {
        self.heads.is_empty()
    }

    /// Whether the reference is one of a clause that was not removed.
    pub fn is_live(&self, reference: ClauseRef) -> bool
        ensures { IsTrue result ↔ IsLive self.now reference }
    {
        let place = reference.place() as usize;
        place < self.heads.len() && self.heads[place].live
    }

    /// The literals, in order and with repeats.
    pub fn lits(&self, reference: ClauseRef) -> &[Lit]
        requires { IsLive self.now reference }
        ensures { result.now ≡ literals_at self.now reference }
    {
        part(&self.lits, &self.ends, reference.place() as usize)
    }

    /// The id.
    pub fn id(&self, reference: ClauseRef) -> u64
        requires { IsLive self.now reference }
        ensures { result ≡ id_at self.now reference }
    {
        self.heads[reference.place() as usize].id
    }

    /// The number of levels that its literals had when it was learned, or the one that it was given since.
    pub fn lbd(&self, reference: ClauseRef) -> u32
        requires { IsLive self.now reference }
        ensures { result ≡ lbd_at self.now reference }
    {
        self.heads[reference.place() as usize].lbd
    }

    /// Whether it was learned.
    pub fn learned(&self, reference: ClauseRef) -> bool
        requires { IsLive self.now reference }
        ensures { result ≡ learned_at self.now reference }
    {
        self.heads[reference.place() as usize].learned
    }

    /// Makes room for this many more clauses and literals. Without memory the clauses stay as they are. Where more than
    /// [`MAX_CLAUSES`] references would have to be handed out, the answer is out of memory too.
    pub fn reserve(&mut self, clauses: usize, lits: usize) -> Result<(), AllocError>
        ensures same { self.new.clauses ≡ self.old.clauses }
        ensures room { OnOk result ((clauses ≤ self.new.clause_room) × (lits ≤ self.new.literal_room)) }
        ensures kept { (self.old.clause_room ≤ self.new.clause_room) × (self.old.literal_room ≤ self.new.literal_room) }
        ensures few { IsOk result → length self.old.clauses + clauses ≤ 2 ^ 31 - 1 }
    {
        if clauses > MAX_CLAUSES - self.heads.len() {
            return Err(AllocError);
        }
        self.ends.reserve(clauses)?;
        self.heads.reserve(clauses)?;
        self.lits.reserve(lits)
    }

    /// Adds a clause and gives its reference.
    ///
    /// Where there is room for a clause and the literals it takes just these and no memory. Without memory the clauses stay as they are.
    /// Once [`MAX_CLAUSES`] references were handed out, the answer is out of memory too.
    pub fn add(
        &mut self,
        lits: &[Lit],
        id: u64,
        lbd: u32,
        learned: bool,
    ) -> Result<ClauseRef, AllocError>
        ensures ok { IfOk result (λ r. r ≡ length self.old.clauses) }
        ensures added { OnOk result (self.new.clauses ≡ self.old.clauses ++ Some (record { literals = lits.now; id = id; lbd = lbd; learned = learned }) ∷ []) }
        ensures same { OnErr result (self.new.clauses ≡ self.old.clauses) }
        ensures room { 1 ≤ self.old.clause_room → length lits.now ≤ self.old.literal_room
            → IsOk result × (self.old.clause_room ≡ self.new.clause_room + 1) × (self.old.literal_room ≡ self.new.literal_room + length lits.now) }
        ensures few { IsOk result → length self.old.clauses < 2 ^ 31 - 1 }
    {
        let place = self.heads.len();
        if place >= MAX_CLAUSES {
            return Err(AllocError);
        }
        make_room(&mut self.ends, 1)?;
        make_room(&mut self.heads, 1)?;
        make_room(&mut self.lits, lits.len())?;
        append(&mut self.lits, lits);
        self.ends.push_reserved(self.lits.len());
        self.heads.push_reserved(Head {
            id,
            lbd,
            learned,
            live: true,
        });
        Ok(ClauseRef::new(place as u32))
    }

    /// Removes a clause.
    pub fn remove(&mut self, reference: ClauseRef)
        requires { IsLive self.old reference }
        ensures { self.new ≡ record self.old { clauses = slice_set self.old.clauses reference None } }
    {
        let place = reference.place() as usize;
        self.heads[place].live = false;
    }

    /// Makes a clause one that was not learned. Nothing else changes, and no memory is taken.
    pub fn keep(&mut self, reference: ClauseRef)
        requires { IsLive self.old reference }
        ensures { self.new ≡ record self.old { clauses = slice_set self.old.clauses reference (kept (clause_at self.old reference)) } }
    {
        let place = reference.place() as usize;
        self.heads[place].learned = false;
    }

    /// Gives a clause another id. Nothing else changes, and no memory is taken.
    pub fn rename(&mut self, reference: ClauseRef, id: u64)
        requires { IsLive self.old reference }
        ensures { self.new ≡ record self.old { clauses = slice_set self.old.clauses reference (renamed id (clause_at self.old reference)) } }
    {
        let place = reference.place() as usize;
        self.heads[place].id = id;
    }

    /// Gives a clause another lbd. Nothing else changes, and no memory is taken.
    pub fn set_lbd(&mut self, reference: ClauseRef, lbd: u32)
        requires { IsLive self.old reference }
        ensures { self.new ≡ record self.old { clauses = slice_set self.old.clauses reference (with_lbd lbd (clause_at self.old reference)) } }
    {
        let place = reference.place() as usize;
        self.heads[place].lbd = lbd;
    }

    /// Lets go of what was removed. The clauses that are left have new references, from 0 on and in the order of the old ones.
    ///
    /// Its time is in the clauses and literals. It takes memory for the references alone; without it the arena stays as it is.
    pub fn compact(&mut self) -> Result<Moved, AllocError>
        ensures renamed { IfOk result (λ moved. IsRenamed self.old self.new moved) }
        ensures room { (self.old.clause_room ≤ self.new.clause_room) × (self.old.literal_room ≤ self.new.literal_room) }
        ensures same { OnErr result (self.new ≡ self.old) }
    {
        // all memory is taken before a clause is moved
        let mut moves = Vec::with_capacity(*self.heads.allocator(), self.heads.len())?;
        pack(&mut self.ends, &mut self.heads, &mut self.lits, &mut moves);
        Ok(Moved::from_vec(moves))
    }
}
