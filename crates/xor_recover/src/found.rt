//! What is recovered: parities, each with its clauses.
ghost use Rattle.std.specs.Prelude.{◌≡◌};

use cx_base::{IdList, LitList};
use std::marker::Model;

/// A parity, and the numbers of the clauses that it is recovered from, rising.
///
/// Its variables rise. Its literals are positive, but for the first one where the right side is 0.
#[derive(Drop)]
pub struct FoundParity {
    /// The parity's literals.
    pub parity: LitList,
    /// The numbers of clauses, from 1 among the formula's clauses.
    pub clauses: IdList,
}

/// A list of recovered parities.
#[derive(Drop)]
pub struct FoundList {
    finds: Vec<FoundParity>,
}

impl Model for FoundList {
    ghost use Rattle.std.specs.Prelude.{List};
    ghost use Rattle.xor_recover.specs.declared.found.FoundParity.{FoundParity};

    ghost Value = { List FoundParity };

    ghost view = { λ a. a.finds.items };
}

impl FoundList {
    /// The list of a vector's elements.
    pub fn from_vec(finds: Vec<FoundParity>) -> FoundList
        ensures { result ≡ finds.items }
    {
        FoundList { finds }
    }

    /// The elements in order.
    pub fn as_slice(&self) -> &[FoundParity]
        ensures { result.now ≡ self.now }
    {
        &self.finds
    }

    /// The vector of the elements.
    pub fn into_vec(self) -> Vec<FoundParity>
        ensures { result.items ≡ self }
    {
        self.finds
    }
}
