//! Constraints, and whether values meet them.
ghost use Rattle.std.specs.Prelude.{◌≡◌, length};
ghost use Rattle.cx_base.specs.Problem.{AreWithin, literals_of, clause_met, parity_met, assumption_met, constraint_met};
ghost use Rattle.cx_base.specs.Borrowed.{constraint_of};

use crate::lists::LitList;
use crate::literal::Lit;

/// A clause, a parity or an assumption constraint, by its literals in order and with repeats.
#[derive(Drop)]
pub enum Constraint {
    /// Met where some literal is true.
    Clause(LitList),
    /// Met where the number of places with a true literal is odd.
    Parity(LitList),
    /// Met where all literals are true.
    Assume(LitList),
}

/// A constraint of a formula, whose literals are borrowed.
#[derive(Clone, Copy, Drop)]
pub enum ConstraintRef<'a> {
    /// Met where some literal is true.
    Clause(&'a [Lit]),
    /// Met where the number of places with a true literal is odd.
    Parity(&'a [Lit]),
    /// Met where all literals are true.
    Assume(&'a [Lit]),
}

/// Whether some literal is true.
fn any_true(lits: &[Lit], values: &[bool]) -> bool
    requires { AreWithin (length values.now) lits.now }
    ensures { result ≡ clause_met values.now lits.now }
{
    for lit in lits {
        if lit.is_true(values) {
            return true;
        }
    }
    false
}

/// Whether the number of places with a true literal is odd.
fn odd_true(lits: &[Lit], values: &[bool]) -> bool
    requires { AreWithin (length values.now) lits.now }
    ensures { result ≡ parity_met values.now lits.now }
{
    let mut odd = false;
    for lit in lits {
        odd = odd != lit.is_true(values);
    }
    odd
}

/// Whether all literals are true.
fn all_true(lits: &[Lit], values: &[bool]) -> bool
    requires { AreWithin (length values.now) lits.now }
    ensures { result ≡ assumption_met values.now lits.now }
{
    for lit in lits {
        if !lit.is_true(values) {
            return false;
        }
    }
    true
}

impl ConstraintRef<'_> {
    /// Whether the values meet it.
    pub fn is_met(self, values: &[bool]) -> bool
        requires { AreWithin (length values.now) (literals_of (constraint_of self)) }
        ensures { result ≡ constraint_met values.now (constraint_of self.entry) }
    {
        match self {
            ConstraintRef::Clause(lits) => any_true(lits, values),
            ConstraintRef::Parity(lits) => odd_true(lits, values),
            ConstraintRef::Assume(lits) => all_true(lits, values),
        }
    }
}
