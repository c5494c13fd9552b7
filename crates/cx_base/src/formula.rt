//! Formulas of clauses, parities and assumptions.
ghost use Rattle.std.specs.Prelude.{◌≡◌, ◌<◌, ◌≤◌, ◌-◌, ◌^◌, length, IsTrue, ◌↔◌, slice_get, is_some, IfSome};
ghost use Rattle.cx_base.specs.Problem.{Problem, Meets, first_unmet, AreWithin, IsWithinVariables, literals_of, clauses_of, parities_of};
ghost use Rattle.cx_base.specs.Assumptions.{assumes, is_ending, clashes, IsClash};
ghost use Rattle.cx_base.specs.Borrowed.{constraint_of, constraint_at};
ghost use Rattle.cx_base.specs.Items.{items_left};
ghost use Rattle.cx_base.specs.Literals.{negate};
ghost use Rattle.cx_base.specs.Integers.{literal, literals};

use crate::assumed::Assumed;
use crate::constraint::ConstraintRef;
use crate::items::Items;
use crate::literal::{Lit, MAX_VARIABLE, Var};
use crate::places::Places;
use std::marker::Model;
use std::mem::size_of_val;

/// Whether a constraint is a clause, a parity or an assumption constraint.
#[derive(Clone, Copy, Drop)]
pub(crate) enum ConstraintKind {
    Clause,
    Parity,
    Assume,
}

/// A constraint's kind, and where its literals are among the formula's.
#[derive(Clone, Copy, Drop)]
pub(crate) struct ConstraintHead {
    pub kind: ConstraintKind,
    pub start: usize,
    pub len: usize,
}

/// A number of variables, and a list of constraints over them.
///
/// The literals of all constraints, one constraint after another in one vector.
#[derive(Drop)]
pub struct Formula {
    pub(crate) vars: u32,
    pub(crate) lits: Vec<Lit>,
    pub(crate) heads: Vec<ConstraintHead>,
    pub(crate) places: Places,
    pub(crate) assumed: Assumed,
}

impl Model for Formula {
    ghost use Rattle.std.specs.Prelude.{map};
    ghost use Rattle.cx_base.specs.Problem.{Problem, IsWithinVariables};

    ghost Value = { Problem };

    ghost use Rattle.cx_base.specs.Heads.{stored, AreInside};
    ghost use Rattle.cx_base.specs.Places.{ArePlaces};
    ghost use Rattle.cx_base.specs.Assumed.{AreAssumed};

    ghost view = { λ f. record { variables = f.vars; constraints = map (stored f.lits.items) f.heads.items } };

    ghost invariant = { λ f. IsWithinVariables f.vars (map (stored f.lits.items) f.heads.items) × AreInside f.lits.items f.heads.items
        × ArePlaces f.places.clauses.items f.places.parities.items (map (stored f.lits.items) f.heads.items)
        × AreAssumed f.assumed.marks.items (map (stored f.lits.items) f.heads.items) };
}

impl Formula {
    /// How many variables it has.
    pub fn vars(&self) -> u32
        ensures variables { result ≡ self.now.variables }
        ensures within { IsWithinVariables self.now.variables self.now.constraints }
    {
        self.vars
    }

    /// How many constraints it has: fewer than 2^60, since what it keeps of each takes 24 bytes.
    pub fn len(&self) -> usize
        ensures len { result ≡ length self.now.constraints }
        ensures few { length self.now.constraints < 2 ^ 60 }
    {
        let _bytes = size_of_val(&self.heads[..]);
        self.heads.len()
    }

    /// Whether it has no constraint.
    pub fn is_empty(&self) -> bool
        ensures { IsTrue result ↔ (length self.now.constraints ≡ 0) }
    {
        self.heads.is_empty()
    }

    /// The constraint at a place, from 0.
    pub fn item(&self, place: usize) -> ConstraintRef<'_>
        requires { place < length self.now.constraints }
        ensures item { constraint_of result ≡ constraint_at self.now.constraints place }
        ensures within { AreWithin self.now.variables (literals_of (constraint_of result)) }
    {
        let _vars = self.vars();
        self.stored(place)
    }

    /// The constraints in order.
    pub fn items(&self) -> Items<'_>
        ensures { items_left result ≡ self.now.constraints }
    {
        Items::new(self)
    }

    /// The constraint of the head at a place.
    fn stored(&self, place: usize) -> ConstraintRef<'_>
        requires { place < length self.now.constraints }
        ensures { constraint_of result ≡ constraint_at self.now.constraints place }
    {
        let head = self.heads[place];
        let lits = &self.lits[head.start..head.start + head.len];
        match head.kind {
            ConstraintKind::Clause => ConstraintRef::Clause(lits),
            ConstraintKind::Parity => ConstraintRef::Parity(lits),
            ConstraintKind::Assume => ConstraintRef::Assume(lits),
        }
    }

    /// The literals of the constraint at a place.
    fn lits_at(&self, place: usize) -> &[Lit]
        requires { place < length self.now.constraints }
        ensures { result.now ≡ literals_of (constraint_at self.now.constraints place) }
    {
        match self.stored(place) {
            ConstraintRef::Clause(lits) => lits,
            ConstraintRef::Parity(lits) => lits,
            ConstraintRef::Assume(lits) => lits,
        }
    }

    /// How many of its constraints are clauses.
    pub fn clause_count(&self) -> usize
        ensures { result ≡ length (clauses_of self.now.constraints) }
    {
        self.places.clauses.len()
    }

    /// How many of its constraints are parities.
    pub fn parity_count(&self) -> usize
        ensures { result ≡ length (parities_of self.now.constraints) }
    {
        self.places.parities.len()
    }

    /// The literals of a clause, by its number among the clauses, from 1.
    pub fn clause(&self, number: usize) -> &[Lit]
        requires low { 1 ≤ number }
        requires high { number ≤ length (clauses_of self.now.constraints) }
        ensures clause { slice_get (clauses_of self.now.constraints) (number - 1) ≡ Some result.now }
        ensures within { AreWithin self.now.variables result.now }
    {
        let place = self.places.clauses[number - 1];
        self.lits_at(place)
    }

    /// The literals of a parity, by its number among the parities, from 1.
    pub fn parity(&self, number: usize) -> &[Lit]
        requires low { 1 ≤ number }
        requires high { number ≤ length (parities_of self.now.constraints) }
        ensures parity { slice_get (parities_of self.now.constraints) (number - 1) ≡ Some result.now }
        ensures within { AreWithin self.now.variables result.now }
    {
        let place = self.places.parities[number - 1];
        self.lits_at(place)
    }

    /// Whether an assumption constraint has the literal: one access of memory.
    pub fn assumes(&self, lit: Lit) -> bool
        ensures { result ≡ assumes self.now.constraints lit }
    {
        self.assumed.has(lit)
    }

    /// Whether the negation of each of the literals is assumed, as it is where there are none.
    pub fn is_ending(&self, lits: &[Lit]) -> bool
        ensures { result ≡ is_ending self.now.constraints lits.now }
    {
        for lit in lits {
            if !self.assumes(lit.negate()) {
                return false;
            }
        }
        true
    }

    /// Whether the negation of the literal of this integer is assumed. Where it is no literal of a variable, it is not.
    fn is_negated(&self, integer: i64) -> bool
        ensures { result ≡ assumes self.now.constraints (negate (literal integer)) }
    {
        let _vars = self.vars();
        let size = integer.unsigned_abs();
        if size == 0 || size > u64::from(MAX_VARIABLE) {
            return false;
        }
        self.assumes(Lit::new(Var::new(size as u32), integer > 0))
    }

    /// `is_ending` for the literals of integers, whatever their magnitude.
    pub fn is_ending_integers(&self, integers: &[i64]) -> bool
        ensures { result ≡ is_ending self.now.constraints (literals integers.now) }
    {
        for integer in integers {
            if !self.is_negated(*integer) {
                return false;
            }
        }
        true
    }

    /// The least variable that is assumed with both signs, if there is one.
    pub fn clash(&self) -> Option<Var>
        ensures some { is_some result ≡ clashes self.now.constraints }
        ensures least { IfSome result (IsClash self.now.constraints) }
    {
        self.assumed.first_both()
    }

    /// The least number, from 1, of a constraint that the values do not meet.
    pub fn first_unmet(&self, values: &[bool]) -> Option<u64>
        requires { length values.now ≡ self.now.variables }
        ensures { result ≡ first_unmet values.now 1 self.now.constraints }
    {
        for place in 0..self.len() {
            if !self.item(place).is_met(values) {
                return Some(place as u64 + 1);
            }
        }
        None
    }

    /// Whether the values meet each constraint.
    pub fn meets(&self, values: &[bool]) -> bool
        requires { length values.now ≡ self.now.variables }
        ensures { IsTrue result ↔ Meets self.now values.now }
    {
        self.first_unmet(values).is_none()
    }
}
