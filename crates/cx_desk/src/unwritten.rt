//! A text that is not laid out.
ghost use Rattle.std.specs.Prelude.{◌≡◌, ℕ, List};
ghost use Rattle.std.specs.Borrow.{ftrue};

use std::marker::{Model, PhantomData};

/// A text of which no byte is laid out: only clauses read it.
///
/// It takes no memory, and making it does nothing when it runs.
#[derive(Drop)]
pub struct Unwritten {
    marker: PhantomData<u8>,
    pub ghost bytes: { List ℕ },
}

impl Model for Unwritten {
    ghost also_owns = { λ _. ftrue };
}

impl Unwritten {
    /// The text that the caller's proof names, by what it is a text of.
    pub fn of<T>(_value: &T) -> Unwritten
        ghost text: { List ℕ }
        ensures { result.bytes ≡ text }
    {
        Unwritten {
            marker: PhantomData,
        }
    }
}
