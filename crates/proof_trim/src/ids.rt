//! Sets of ids, which are nearly always small.
ghost use Rattle.std.specs.Prelude.{◌≡◌, false, not, ◌&&◌, ◌||◌, nat_eq, OnOk, IfOk};
ghost use Rattle.proof_trim.specs.IdSets.{HasIds, has_id};

use proof_rules::{Filler, IdMap};
use std::alloc::{AllocError, Global};

/// What is kept with a large id: nothing.
#[derive(Drop)]
struct Here;

impl Filler for Here {
    fn filler() -> Here {
        Here
    }
}

/// A set of ids.
#[derive(Drop)]
pub(crate) struct IdSet {
    /// Whether each id is in it, from 0 up to a bound that stays.
    near: Vec<bool>,
    /// The ids from that bound on.
    far: IdMap<Here>,
}

impl IdSet {
    /// No id. There is room for this many ids, from 0; all others are looked for in a map.
    pub(crate) fn with_room(alloc: Global, room: usize) -> Result<IdSet, AllocError>
        ensures { IfOk result (λ ids. HasIds ids (λ n. false)) }
    {
        Ok(IdSet {
            near: vec![in alloc; false; room]?,
            far: IdMap::beside(alloc, room as u64),
        })
    }

    /// Whether this id is in it.
    #[inline(always)]
    pub(crate) fn has(&self, id: u64) -> bool
        ensures { result ≡ has_id self.now id }
    {
        if id < self.near.len() as u64 {
            self.near[id as usize]
        } else {
            self.far.get(id).is_some()
        }
    }

    /// Puts an id in.
    #[inline(always)]
    pub(crate) fn insert(&mut self, id: u64) -> Result<(), AllocError>
        ensures { OnOk result (HasIds self.new (λ n. nat_eq n id || has_id self.old n)) }
    {
        if id < self.near.len() as u64 {
            self.near[id as usize] = true;
            Ok(())
        } else {
            self.far.insert(id, Here)
        }
    }

    /// Takes an id out, if it is in it.
    #[inline(always)]
    pub(crate) fn remove(&mut self, id: u64)
        ensures { HasIds self.new (λ n. not (nat_eq n id) && has_id self.old n) }
    {
        if id < self.near.len() as u64 {
            self.near[id as usize] = false;
        } else {
            self.far.remove(id);
        }
    }
}
