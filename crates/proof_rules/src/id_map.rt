//! Maps from ids, which are nearly always small and close together.
ghost use Rattle.std.specs.Prelude.{◌≡◌, ◌<◌, ◌≤◌, false, OnOk, OnErr, IfOk, MatchOption, None, Some, length, get_or, set};
ghost use Rattle.std.specs.FinMap as map;
ghost use Rattle.std.specs.Map.{keys_of};
ghost use Rattle.std.specs.Option.{option_or};
ghost use Rattle.proof_rules.specs.Places.{entries_of, places_of, value_under, IsPutUnder, IsTakenOut, HasKeys};

use crate::page::{Filler, PLACES, Page};
use std::alloc::{AllocError, Global};
use std::collections::BTreeMap;
use std::marker::Model;

/// From ids to values. Ids are nearly always small and close together, so most are places of a list of pages; all
/// others are in an ordered map. What is in an id's place takes precedence over what the ordered map has for it.
#[derive(Drop)]
pub struct IdMap<V> {
    /// The values of small ids, each in the place of its id. A page without values takes half a byte for each id.
    near: Vec<Page<V>>,
    /// The values of the other ids.
    far: BTreeMap<u64, V>,
    /// How many values were put in so far, here or elsewhere. `near` has at most four places for each, and a thousand
    /// more, so that no id that a proof names takes memory that the proof's length does not pay for.
    added: u64,
    /// The page that was emptied last. It keeps its places until another page is emptied, so that a value that comes
    /// and goes takes no new memory.
    idle: usize,
}

impl<V> Model for IdMap<V> {
    ghost use Rattle.std.specs.Prelude.{◌++◌};
    ghost use Rattle.std.specs.Ordering.{nat_cmp};
    ghost use Rattle.std.specs.Coded.{coded_ℕ};
    ghost use Rattle.std.specs.FinMap as map;
    ghost use Rattle.proof_rules.specs.Places.{entries_of, places_of};

    ghost Value = { map.FinMap nat_cmp V };

    ghost coded = { map.code coded_ℕ V.code };

    ghost view = { λ a. map.from_entries (entries_of (places_of a.near.items) ++ a.far.entries) };
}

impl<V: Drop + Filler> IdMap<V> {
    /// Nothing is in it.
    pub fn new(alloc: Global) -> IdMap<V>
        ensures { result ≡ map.empty }
    {
        IdMap::beside(alloc, 0)
    }

    /// Nothing is in it, and this many values are elsewhere, whose ids come before those of this map.
    pub fn beside(alloc: Global, count: u64) -> IdMap<V>
        ensures { result ≡ map.empty }
    {
        IdMap {
            near: Vec::new(alloc),
            far: BTreeMap::new(alloc),
            added: count,
            idle: 0,
        }
    }

    /// How many pages there are.
    pub(crate) fn page_count(&self) -> usize {
        self.near.len()
    }

    /// How many values were put in so far, here or elsewhere.
    pub(crate) fn added(&self) -> u64 {
        self.added
    }

    /// The value of this id.
    pub fn get(&self, id: u64) -> Option<&V>
        ensures { MatchOption result (map.get self.now id ≡ None) (λ v. map.get self.now id ≡ Some v.now) }
    {
        match in_place(&self.near, id) {
            Some(value) => Some(value),
            None => self.far.get(&id),
        }
    }

    /// The ids that have a value. An id that has one in its place and another in the ordered map would come twice,
    /// which does no harm to a list that says which ids have one.
    pub fn ids(&self, alloc: Global) -> Result<Vec<u64>, AllocError>
        ensures { IfOk result (λ ids. HasKeys self.now ids.items) }
    {
        let mut ids = taken_places(alloc, &self.near)?;
        for id in self.far.keys() {
            ids.push(*id)?;
        }
        Ok(ids)
    }

    /// Puts a value under this id. Without memory nothing changes.
    // Its calls are few, and on the path of each step and of each id that is moved.
    #[inline(always)]
    pub fn insert(&mut self, id: u64, value: V) -> Result<(), AllocError>
        ensures ok { OnOk result (self.new ≡ map.insert self.old id value) }
        ensures err { OnErr result (self.new ≡ self.old) }
    {
        if is_near(&self.near, self.added, id) {
            reach(&mut self.near, id)?;
            put_in_place(&mut self.near, id, value)?;
        } else {
            put_far(&mut self.far, id, value)?;
        }
        self.added = self.added.saturating_add(1);
        Ok(())
    }

    /// Takes the value of this id out; where it has none nothing changes.
    // On the path of each id that is moved, where its value was looked up just before.
    #[inline(always)]
    pub fn remove(&mut self, id: u64)
        ensures { self.new ≡ map.remove self.old id }
    {
        clear_place(&mut self.near, id);
        make_idle(&mut self.near, &mut self.idle, id);
        clear_far(&mut self.far, id);
    }
}

impl<V: Copy + Drop + Filler> IdMap<V> {
    /// Takes out what is under this id and gives it, if there is something.
    // One look-up for both, on the path of each id that is moved.
    #[inline(always)]
    pub(crate) fn take(&mut self, id: u64) -> Option<V>
        ensures taken { result ≡ map.get self.old id }
        ensures gone { self.new ≡ map.remove self.old id }
    {
        let near = take_place(&mut self.near, id);
        make_idle(&mut self.near, &mut self.idle, id);
        or_take_far(near, &mut self.far, id)
    }
}

/// The first of the two values that is there.
#[inline(always)]
fn first_of<V: Copy + Drop>(near: Option<V>, far: Option<V>) -> Option<V>
    ensures { result ≡ option_or near far }
{
    match near {
        Some(value) => Some(value),
        None => far,
    }
}

/// The value at hand, if there is one, and otherwise what the ordered map has under this id. The map has nothing under it then. Mostly
/// the map is empty.
#[inline(always)]
fn or_take_far<V: Copy + Drop>(near: Option<V>, far: &mut BTreeMap<u64, V>, id: u64) -> Option<V>
    ensures taken { result ≡ option_or near (value_under id far.old.entries) }
    ensures gone { IsTakenOut id far.old.entries far.new.entries }
{
    if far.is_empty() {
        near
    } else {
        or_far_value(near, far, id)
    }
}

/// The value at hand, if there is one, and otherwise what the ordered map has under this id. The map has nothing under it then.
// Apart for the same reason as `remove_far`.
#[inline(never)]
fn or_far_value<V: Copy + Drop>(near: Option<V>, far: &mut BTreeMap<u64, V>, id: u64) -> Option<V>
    ensures taken { result ≡ option_or near (value_under id far.old.entries) }
    ensures gone { IsTakenOut id far.old.entries far.new.entries }
{
    let value = far.remove(&id);
    first_of(near, value)
}

/// Puts a value under this id into the ordered map. Without memory nothing changes.
// Apart for the same reason as `remove_far`.
#[inline(never)]
fn put_far<V: Drop>(far: &mut BTreeMap<u64, V>, id: u64, value: V) -> Result<(), AllocError>
    ensures ok { OnOk result (IsPutUnder id value far.old.entries far.new.entries) }
    ensures err { OnErr result (far.new.entries ≡ far.old.entries) }
{
    far.insert(id, value)?;
    Ok(())
}

/// Takes out what the ordered map has under this id, if it has something. Mostly the map is empty.
#[inline(always)]
fn clear_far<V: Drop>(far: &mut BTreeMap<u64, V>, id: u64)
    ensures { IsTakenOut id far.old.entries far.new.entries }
{
    if !far.is_empty() {
        remove_far(far, id);
    }
}

/// Takes out what the ordered map has under this id, if it has something.
// Ids that have a place are not to pay for what this call keeps on the stack.
#[inline(never)]
fn remove_far<V: Drop>(far: &mut BTreeMap<u64, V>, id: u64)
    ensures { IsTakenOut id far.old.entries far.new.entries }
{
    far.remove(&id);
}

/// Whether an id has a place, or may get one once this many values were put in.
fn is_near<V>(near: &[Page<V>], added: u64, id: u64) -> bool
    ensures { result ≡ false → length (places_of near.now) ≤ id }
{
    id / PLACES < near.len() as u64 || id < added.saturating_mul(4).saturating_add(1024)
}

/// The value in the place of this id.
fn in_place<V: Drop + Filler>(near: &[Page<V>], id: u64) -> Option<&V>
    ensures { MatchOption result (get_or (places_of near.now) id None ≡ None) (λ value. get_or (places_of near.now) id None ≡ Some value.now) }
{
    let page = id / PLACES;
    if page < near.len() as u64 {
        near[page as usize].get((id % PLACES) as usize)
    } else {
        None
    }
}

/// Puts a value in the place of this id. Without memory nothing changes.
#[inline(always)]
fn put_in_place<V: Drop + Filler>(
    near: &mut Vec<Page<V>>,
    id: u64,
    value: V,
) -> Result<(), AllocError>
    requires { id < length (places_of near.old.items) }
    ensures ok { OnOk result (places_of near.new.items ≡ set (places_of near.old.items) id (Some value)) }
    ensures err { OnErr result (places_of near.new.items ≡ places_of near.old.items) }
{
    near[(id / PLACES) as usize].put((id % PLACES) as usize, value)
}

/// Empties the place of this id, if there is one.
#[inline(always)]
fn clear_place<V: Drop + Filler>(near: &mut Vec<Page<V>>, id: u64)
    ensures { places_of near.new.items ≡ set (places_of near.old.items) id None }
{
    let page = id / PLACES;
    if page < near.len() as u64 {
        near[page as usize].clear((id % PLACES) as usize);
    }
}

/// Empties the place of this id, if there is one, and gives the value that it held.
#[inline(always)]
fn take_place<V: Copy + Drop + Filler>(near: &mut Vec<Page<V>>, id: u64) -> Option<V>
    ensures taken { result ≡ get_or (places_of near.old.items) id None }
    ensures gone { places_of near.new.items ≡ set (places_of near.old.items) id None }
{
    let page = id / PLACES;
    if page < near.len() as u64 {
        near[page as usize].take((id % PLACES) as usize)
    } else {
        None
    }
}

/// Makes the page of this id the idle one where none of its places holds a value, and gives the places of the one
/// before back.
fn make_idle<V: Drop + Filler>(near: &mut Vec<Page<V>>, idle: &mut usize, id: u64)
    ensures { places_of near.new.items ≡ places_of near.old.items }
{
    let page = (id / PLACES) as usize;
    if is_vacant(near, page) && page != *idle {
        trim(near, *idle);
        *idle = page;
    }
}

/// Whether there is this page and none of its places holds a value.
fn is_vacant<V: Drop + Filler>(near: &[Page<V>], page: usize) -> bool {
    page < near.len() && near[page].is_vacant()
}

/// Gives the places of this page back where none of them holds a value.
fn trim<V: Drop + Filler>(near: &mut Vec<Page<V>>, page: usize)
    ensures { places_of near.new.items ≡ places_of near.old.items }
{
    if page < near.len() {
        near[page].trim();
    }
}

/// Adds pages without values until there is the place of this id. Without memory some may have been added.
#[inline(always)]
fn reach<V: Drop + Filler>(near: &mut Vec<Page<V>>, id: u64) -> Result<(), AllocError>
    ensures same { entries_of (places_of near.new.items) ≡ entries_of (places_of near.old.items) }
    ensures reached { OnOk result (id < length (places_of near.new.items)) }
{
    let page = id / PLACES;
    if page < near.len() as u64 {
        Ok(())
    } else {
        add_pages(near, id)
    }
}

/// Adds pages without values until there is the place of this id. Without memory some may have been added.
// Mostly the page is there, and that path is not to pay for the loop.
#[inline(never)]
fn add_pages<V: Drop + Filler>(near: &mut Vec<Page<V>>, id: u64) -> Result<(), AllocError>
    ensures same { entries_of (places_of near.new.items) ≡ entries_of (places_of near.old.items) }
    ensures reached { OnOk result (id < length (places_of near.new.items)) }
{
    let alloc = *near.allocator();
    for _ in near.len() as u64..id / PLACES + 1 {
        near.push(Page::new(alloc))?;
    }
    Ok(())
}

/// The numbers of the places that hold a value, in order.
fn taken_places<V: Drop + Filler>(alloc: Global, near: &[Page<V>]) -> Result<Vec<u64>, AllocError>
    ensures { IfOk result (λ ids. ids.items ≡ keys_of (entries_of (places_of near.now))) }
{
    let mut ids = Vec::new(alloc);
    for page in 0..near.len() {
        near[page].push_taken(page as u64 * PLACES, &mut ids)?;
    }
    Ok(ids)
}
