//! What a slot gave or a port took, which only clauses read.
ghost use Rattle.std.specs.Prelude.{◌≡◌, ◌++◌, ◌||◌, ℕ, Bool, false, List, []};
ghost use Rattle.std.specs.Borrow.{ftrue};
ghost use Rattle.cx_desk.specs.Gave.{is_none};

use crate::Unwritten;
use std::marker::{Model, PhantomData};

/// The bytes of the pieces that were noted, and whether one of them was empty.
///
/// It takes no memory, and its calls do nothing when they run.
#[derive(Drop)]
pub struct Transcript {
    marker: PhantomData<u8>,
    pub ghost bytes: { List ℕ },
    pub ghost ended: { Bool },
}

impl Model for Transcript {
    ghost also_owns = { λ _. ftrue };
}

impl Transcript {
    ghost use Rattle.cx_desk.specs.Noted.{IsBlank, Notes};

    /// Nothing was noted.
    pub fn new() -> Transcript
        ensures { IsBlank result }
    {
        Transcript {
            marker: PhantomData,
        }
    }

    /// Notes a piece after the others.
    pub fn note(&mut self, _piece: &[u8])
        ensures { Notes _piece.now self.old self.new }
    {}

    /// Notes a text that is not laid out, after the others.
    pub fn note_unwritten(&mut self, _text: &Unwritten)
        ensures { Notes _text.now.bytes self.old self.new }
    {}
}
