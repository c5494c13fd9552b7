//! Where a search for a free literal begins.
ghost use Rattle.std.specs.Prelude.{◌≤◌};

use cx_base::ClauseRef;
use std::alloc::{AllocError, Global};

/// A clause of this many literals is long.
const LONG: usize = 128;

/// Whether a clause of this many literals is long.
pub(crate) fn is_long(len: usize) -> bool {
    len >= LONG
}

/// For long clauses the place where the last free literal was found, so that a clause whose literals become false one by one
/// is gone through once. It is a hint: a search goes around, so it may begin at any place.
#[derive(Drop)]
pub(crate) struct Starts {
    // by references, up to the last long clause
    places: Vec<usize>,
}

impl Starts {
    /// Nothing is known.
    pub(crate) fn make(alloc: Global) -> Starts {
        Starts {
            places: Vec::new(alloc),
        }
    }

    /// Room for what is said of a clause of this many literals.
    pub(crate) fn grow(&mut self, place: u32, len: usize) -> Result<(), AllocError> {
        let count = place as usize + 1;
        if !is_long(len) || count <= self.places.len() {
            return Ok(());
        }
        self.places.resize(count, 0)
    }

    /// Where to begin in a long clause of this many literals.
    pub(crate) fn start(&self, reference: ClauseRef, len: usize) -> usize
        ensures { result ≤ len }
    {
        let place = reference.place() as usize;
        if place < self.places.len() {
            self.places[place].min(len)
        } else {
            0
        }
    }

    /// Where a free literal of a long clause was found.
    pub(crate) fn note(&mut self, reference: ClauseRef, found: usize) {
        let place = reference.place() as usize;
        if place < self.places.len() {
            self.places[place] = found;
        }
    }
}
