//! Ids that stand for themselves, but for one at most.
ghost use Rattle.std.specs.Prelude.{◌≡◌, ℕ, true, false, IfOk, Some};
ghost use Rattle.std.specs.FinMap as map;
ghost use Rattle.fratx_elab.specs.Names.{IsProofId};
ghost use Rattle.fratx_elab.specs.OwnIds.{each_itself, AreProofIds};

use crate::naming::ProofId;
use proof_rules::{Filler, IdMap};
use std::alloc::{AllocError, Global};
use std::marker::Model;

/// What is kept with an id that stands for itself: nothing.
#[derive(Drop)]
struct Itself;

impl Filler for Itself {
    fn filler() -> Itself {
        Itself
    }
}

/// An id for which another number may stand.
#[derive(Clone, Copy, Drop)]
struct Other {
    id: u64,
    number: ProofId,
}

/// Ids that stand for themselves, but for one at most. A bit is kept for each.
///
/// A solver may use one id over and over for what it soon deletes, and otherwise count as a proof does.
#[derive(Drop)]
pub(crate) struct OwnIds {
    ids: IdMap<Itself>,
    /// Its number takes precedence over what `ids` has for its id.
    other: Option<Other>,
}

impl Model for OwnIds {
    ghost use Rattle.std.specs.Prelude.{ℕ};
    ghost use Rattle.std.specs.Ordering.{nat_cmp};
    ghost use Rattle.std.specs.Coded.{coded_ℕ};
    ghost use Rattle.std.specs.FinMap as map;
    ghost use Rattle.fratx_elab.specs.OwnIds.{each_itself, AreProofIds, with_other};

    ghost Value = { map.FinMap nat_cmp ℕ };

    ghost coded = { map.code coded_ℕ coded_ℕ };

    ghost view = { λ a. with_other a.other (each_itself a.ids) };

    ghost invariant = { λ a. AreProofIds a.ids };
}

/// The number of an id that stands for itself.
fn own_number(ids: &IdMap<Itself>, id: u64) -> Option<ProofId>
    requires { AreProofIds ids.now }
    ensures { result ≡ map.get (each_itself ids.now) id }
{
    match ids.get(id) {
        Some(_) => Some(ProofId::new(id)),
        None => None,
    }
}

/// The ids, each as its own number. The proof has `count` ids by now, and as many may have a place.
fn own_numbers(alloc: Global, count: u64, ids: &IdMap<Itself>) -> Result<IdMap<ProofId>, AllocError>
    requires { AreProofIds ids.now }
    ensures { IfOk result (λ numbers. numbers ≡ each_itself ids.now) }
{
    let list = ids.ids(alloc)?;
    let mut numbers = IdMap::beside(alloc, count);
    for id in &list {
        numbers.insert(*id, ProofId::new(*id))?;
    }
    Ok(numbers)
}

impl OwnIds {
    /// No id stands for anything.
    pub(crate) fn new(alloc: Global) -> OwnIds
        ensures { result ≡ map.empty }
    {
        OwnIds {
            ids: IdMap::new(alloc),
            other: None,
        }
    }

    /// Whether all stand for themselves. No says nothing.
    pub(crate) fn has_no_other(&self) -> bool
        ensures themselves { result ≡ true → (n p : ℕ) → map.get self.now n ≡ Some p → p ≡ n }
        ensures within { result ≡ true → (n p : ℕ) → map.get self.now n ≡ Some p → IsProofId p }
    {
        self.other.is_none()
    }

    /// The number that stands for this id.
    pub(crate) fn get(&self, id: u64) -> Option<ProofId>
        ensures { result ≡ map.get self.now id }
    {
        match self.other {
            Some(other) if other.id == id => Some(other.number),
            _ => own_number(&self.ids, id),
        }
    }

    /// This number stands for this id from now on; false where there is no room for it, and then nothing changes.
    pub(crate) fn put(&mut self, id: u64, number: ProofId) -> Result<bool, AllocError>
        ensures put { IfOk result (λ has_room. has_room ≡ true → self.new ≡ map.insert self.old id number) }
        ensures same { IfOk result (λ has_room. has_room ≡ false → self.new ≡ self.old) }
    {
        let is_own = number.number() == id;
        match self.other {
            Some(other) if other.id == id => self.other = Some(Other { id, number }),
            Some(_) if !is_own => return Ok(false),
            None if !is_own => self.other = Some(Other { id, number }),
            _ => self.ids.insert(id, Itself)?,
        }
        Ok(true)
    }

    /// Nothing stands for this id any more.
    pub(crate) fn remove(&mut self, id: u64)
        ensures { self.new ≡ map.remove self.old id }
    {
        if let Some(other) = self.other {
            if other.id == id {
                self.other = None;
            }
        }
        self.ids.remove(id);
    }

    /// The numbers as a map. The proof has `count` ids by now, and as many may have a place.
    pub(crate) fn numbers(&self, alloc: Global, count: u64) -> Result<IdMap<ProofId>, AllocError>
        ensures { IfOk result (λ numbers. numbers ≡ self.now) }
    {
        let mut numbers = own_numbers(alloc, count, &self.ids)?;
        if let Some(other) = self.other {
            numbers.insert(other.id, other.number)?;
        }
        Ok(numbers)
    }
}
