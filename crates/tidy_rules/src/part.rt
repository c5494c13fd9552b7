//! Clauses and units together, and what is untidy of them.
use cx_base::{ClauseRef, Lit};

/// A clause of an arena, or a unit, which is taken as a clause.
#[derive(Clone, Copy, PartialEq, Eq, Drop)]
pub enum TidyPart {
    Clause(ClauseRef),
    Unit(Lit),
}

/// What tidy clauses don't have.
#[derive(Clone, Copy, Drop)]
pub enum Untidy {
    /// It has a literal together with its negation.
    One(TidyPart),
    /// The first lies inside the second, or strengthens it.
    Two(TidyPart, TidyPart),
}
