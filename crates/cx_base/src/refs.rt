//! Typed numbers of clauses and rows.
ghost use Rattle.std.specs.Prelude.{◌≡◌};

use std::marker::Model;

/// A reference to a clause of an arena.
#[derive(Clone, Copy, PartialEq, Eq, Debug, Drop)]
pub struct ClauseRef {
    place: u32,
}

impl Model for ClauseRef {
    ghost use Rattle.std.specs.Prelude.{ℕ};

    ghost Value = { ℕ };

    ghost view = { λ r. r.place };

    ghost inverse = { λ n. record { place = n } };
}

impl ClauseRef {
    /// The reference of this number.
    pub fn new(place: u32) -> ClauseRef
        ensures { result ≡ place }
    {
        ClauseRef { place }
    }

    /// Its number.
    pub fn place(self) -> u32
        ensures { result ≡ self }
    {
        self.place
    }
}

/// A row of a matrix.
#[derive(Clone, Copy, Drop)]
pub struct Row {
    place: u32,
}

impl Model for Row {
    ghost use Rattle.std.specs.Prelude.{ℕ};

    ghost Value = { ℕ };

    ghost view = { λ r. r.place };

    ghost inverse = { λ n. record { place = n } };
}

impl Row {
    /// The row of this number.
    pub fn new(place: u32) -> Row
        ensures { result ≡ place }
    {
        Row { place }
    }

    /// Its number.
    pub fn place(self) -> u32
        ensures { result ≡ self }
    {
        self.place
    }
}
