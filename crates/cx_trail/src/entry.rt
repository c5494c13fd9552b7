//! One assigned literal, and the value of a literal.
ghost use Rattle.cx_base.specs.Literals.{Literal};

use cx_base::{ClauseRef, Lit, Row};

/// Why a literal is true.
#[derive(Clone, Copy, Drop)]
pub enum Reason {
    /// It was decided. At level 0 it may also mean 'no reason is given'.
    Decision,
    /// The clause forced it.
    Clause(ClauseRef),
    /// The row of a matrix forced it.
    Row(Row),
}

/// A literal with its level and its reason.
#[derive(Clone, Copy, Drop)]
pub struct Entry {
    /// The literal, which is true.
    pub literal: Lit,
    /// How many levels were open when it was assigned.
    pub level: u32,
    /// Why it is true.
    pub reason: Reason,
}

/// The value of a literal.
#[derive(Clone, Copy, Drop)]
pub enum Truth {
    /// The literal is assigned.
    True,
    /// Its negation is assigned.
    False,
    /// Its variable is unassigned.
    Open,
}
