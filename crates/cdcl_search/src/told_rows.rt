//! The clauses of rows that were told, of which only the number is there when the program runs.
ghost use Rattle.std.specs.Prelude.{◌≡◌, ◌<◌, ◌∷◌, ◌++◌, List, [], length};
ghost use Rattle.std.specs.Borrow.{ftrue};
ghost use Rattle.cx_base.specs.Literals.{Literal};

use cx_base::LitList;
use std::marker::{Model, PhantomData};

/// Clauses that only contracts read.
///
/// They take no memory, and their calls do nothing when they run.
#[derive(Drop)]
pub struct GhostClauses {
    marker: PhantomData<u8>,
    pub ghost items: { List (List Literal) },
}

impl Model for GhostClauses {
    ghost also_owns = { λ _. ftrue };
}

impl GhostClauses {
    /// No clause.
    pub(crate) fn new() -> GhostClauses
        ensures { result.items ≡ [] }
    {
        GhostClauses {
            marker: PhantomData,
        }
    }

    /// Adds a clause at the end.
    pub(crate) fn push(&mut self, _clause: &LitList)
        ensures { self.new.items ≡ self.old.items ++ _clause.now ∷ [] }
    {}
}

/// The clauses of rows that were told since the last mark, in the order of their ids.
///
/// Only their number is kept: no clause is copied.
#[derive(Drop)]
pub struct ToldRows {
    clauses: GhostClauses,
    count: usize,
}

impl Model for ToldRows {
    ghost Value = { List (List Literal) };

    ghost view = { λ r. r.clauses.items };

    ghost invariant = { λ r. length r.clauses.items ≡ r.count };
}

impl ToldRows {
    /// No row was told.
    pub fn new() -> ToldRows
        ensures { result ≡ [] }
    {
        ToldRows {
            clauses: GhostClauses::new(),
            count: 0,
        }
    }

    /// Adds the clause of a row that was told.
    pub fn push(&mut self, clause: &LitList)
        requires { length self.old < usize.MAX }
        ensures { self.new ≡ self.old ++ clause.now ∷ [] }
    {
        self.clauses.push(clause);
        self.count += 1;
    }

    /// How many rows were told.
    pub fn len(&self) -> usize
        ensures { result ≡ length self.now }
    {
        self.count
    }
}
