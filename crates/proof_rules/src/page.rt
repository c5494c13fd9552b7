//! Pages of places for values.
ghost use Rattle.std.specs.Prelude.{◌≡◌, ◌↔◌, IsTrue, ◌+◌, ◌<◌, ◌≤◌, ◌++◌, ◌^◌, OnOk, OnErr, IfOk, MatchOption, None, Some, [], get_or, is_some, length, replicate, set};
ghost use Rattle.std.specs.Map.{keys_of};
ghost use Rattle.proof_rules.specs.Places.{entries_from, all_places, held_in, HasAllOrNone};

use cx_base::ClauseRef;
use std::alloc::{AllocError, Global};
use std::marker::Model;

/// How many places a page has.
pub(crate) const PLACES: u64 = 64;

/// Values one of which fills the places that hold none.
pub trait Filler {
    /// Any value will do; one without memory of its own is best.
    fn filler() -> Self;
}

impl Filler for u64 {
    fn filler() -> u64 {
        0
    }
}

impl Filler for ClauseRef {
    fn filler() -> ClauseRef {
        ClauseRef::new(0)
    }
}

/// Places for values. A page without values has no list of places, and so takes no memory but its own.
#[derive(Drop)]
pub(crate) struct Page<V> {
    /// What is in each place. Where none holds a value, any list will do.
    places: Vec<V>,
    /// Bit `k` says whether place `k` holds a value: a word takes less memory than an `Option` in each place.
    taken: u64,
}

impl<V> Model for Page<V> {
    ghost use Rattle.std.specs.Prelude.{◌≡◌, ◌<◌, ◌^◌, List, Option, length};
    ghost use Rattle.std.specs.Coded.{coded_list, coded_option};
    ghost use Rattle.proof_rules.specs.Places.{held_in, HasAllOrNone};

    ghost Value = { List (Option V) };

    ghost coded = { coded_list (coded_option V.code) };

    ghost view = { λ p. held_in p.taken p.places.items };

    ghost invariant = { λ p. HasAllOrNone p.places.items × (length p.places.items ≡ 0 → p.taken ≡ 0) × (p.taken < 2 ^ 64) };
}

impl<V: Drop + Filler> Page<V> {
    /// A page without values.
    pub(crate) fn new(alloc: Global) -> Page<V>
        ensures { result ≡ [] }
    {
        Page {
            places: Vec::new(alloc),
            taken: 0,
        }
    }

    /// Whether this place holds a value.
    #[inline(always)]
    fn holds(&self, place: usize) -> bool
        requires { place < 64 }
        ensures { result ≡ is_some (get_or self.now place None) }
    {
        (self.taken >> place) & 1 == 1
    }

    /// The value in this place.
    #[inline(always)]
    pub(crate) fn get(&self, place: usize) -> Option<&V>
        ensures { MatchOption result (get_or self.now place None ≡ None) (λ value. get_or self.now place None ≡ Some value.now) }
    {
        // A place that holds a value is there, so that the list's length is not read.
        if place < 64 && self.holds(place) {
            Some(&self.places[place])
        } else {
            None
        }
    }

    /// Puts a value in this place. Without memory nothing changes.
    #[inline(always)]
    pub(crate) fn put(&mut self, place: usize, value: V) -> Result<(), AllocError>
        requires { place < 64 }
        ensures ok { OnOk result (all_places self.new ≡ set (all_places self.old) place (Some value)) }
        ensures err { OnErr result (self.new ≡ self.old) }
    {
        make_places(&mut self.places, self.taken)?;
        self.places[place] = value;
        self.taken |= 1 << place;
        Ok(())
    }

    /// Empties this place.
    #[inline(always)]
    pub(crate) fn clear(&mut self, place: usize)
        requires { place < 64 }
        ensures { all_places self.new ≡ set (all_places self.old) place None }
    {
        if self.get(place).is_some() {
            self.places[place] = V::filler();
            self.taken &= !(1 << place);
        }
    }

    /// Whether no place holds a value.
    #[inline(always)]
    pub(crate) fn is_vacant(&self) -> bool
        ensures { IsTrue result ↔ (all_places self.now ≡ replicate 64 None) }
    {
        self.taken == 0
    }

    /// Gives the list of places back where none of them holds a value.
    pub(crate) fn trim(&mut self)
        ensures { all_places self.new ≡ all_places self.old }
    {
        if self.taken == 0 {
            self.places = Vec::new(*self.places.allocator());
        }
    }

    /// Adds to these the numbers of the places that hold a value, in order, where the first place has this number.
    pub(crate) fn push_taken(&self, first: u64, ids: &mut Vec<u64>) -> Result<(), AllocError>
        requires { first + 64 ≤ 2 ^ 64 }
        ensures { OnOk result (ids.new.items ≡ ids.old.items ++ keys_of (entries_from first (all_places self.now))) }
    {
        for place in 0..self.places.len() {
            if self.holds(place) {
                ids.push(first + place as u64)?;
            }
        }
        Ok(())
    }
}

impl<V: Copy + Drop + Filler> Page<V> {
    /// A copy of the value in this place.
    #[inline(always)]
    fn copy_of(&self, place: usize) -> Option<V>
        ensures { result ≡ get_or self.now place None }
    {
        match self.get(place) {
            Some(value) => Some(*value),
            None => None,
        }
    }

    /// Empties this place, and gives the value that it held, if there was one.
    #[inline(always)]
    pub(crate) fn take(&mut self, place: usize) -> Option<V>
        requires { place < 64 }
        ensures taken { result ≡ get_or self.old place None }
        ensures gone { all_places self.new ≡ set (all_places self.old) place None }
    {
        let value = self.copy_of(place);
        self.clear(place);
        value
    }
}

/// Makes the list of places where there is none. Without memory nothing changes.
#[tactic(auto, using(crate::proofs::PageLaws::places_made))]
#[inline(always)]
fn make_places<V: Drop + Filler>(places: &mut Vec<V>, taken: u64) -> Result<(), AllocError>
    requires full { HasAllOrNone places.old.items }
    requires none { length places.old.items ≡ 0 → taken ≡ 0 }
    ensures made { OnOk result (length places.new.items ≡ 64) }
    ensures same { all_places (held_in taken places.new.items) ≡ all_places (held_in taken places.old.items) }
    ensures err { OnErr result (places.new.items ≡ places.old.items) }
{
    if places.is_empty() {
        fill_places(places)?;
    }
    Ok(())
}

/// Makes the list of places. Without memory nothing changes.
// Mostly the list is there, and that path is not to pay for what this call keeps on the stack.
#[inline(never)]
fn fill_places<V: Drop + Filler>(places: &mut Vec<V>) -> Result<(), AllocError>
    ensures made { OnOk result (length places.new.items ≡ 64) }
    ensures err { OnErr result (places.new.items ≡ places.old.items) }
{
    *places = filled_places(*places.allocator())?;
    Ok(())
}

/// The places of a page, none of which holds a value.
fn filled_places<V: Drop + Filler>(alloc: Global) -> Result<Vec<V>, AllocError>
    ensures { IfOk result (λ places. length places.items ≡ 64) }
{
    let mut places = Vec::with_capacity(alloc, PLACES as usize)?;
    for _ in 0..PLACES {
        places.push_reserved(V::filler());
    }
    Ok(places)
}
