//! Assumed literals, which are decided before all others.
ghost use Rattle.std.specs.Prelude.{◌≡◌, ◌<◌, ◌≤◌, ◌+◌, ◌⊎◌, List, length, take, IfOk, OnOk, MatchOption, IsTrue, IsFalse};
ghost use Rattle.cx_base.specs.declared.constraint.Constraint.{Constraint};
ghost use Rattle.cx_base.specs.Assumptions.{assumptions_of};
ghost use Rattle.cx_base.specs.Problem.{AreWithin};
ghost use Rattle.cx_trail.specs.Sequence.{TrailState, TakesBack, IsOpenIn, IsTrueIn, IsFalseIn};
ghost use Rattle.search_policy.specs.Assuming.{AreTrue, IsFirstOpen, Contradicts, HaveValues, KeepsAssumptions, literal_of};

use cx_base::{ConstraintRef, Formula, Lit};
use cx_trail::{Trail, Truth};
use std::alloc::{AllocError, Global};

/// Assumed literals, and how far a search has come with them.
#[derive(Drop)]
pub struct Assumptions {
    /// The assumed literals, in order of writing.
    pub lits: Vec<Lit>,
    /// The literals before this one are true.
    pub next: usize,
    /// Each decision of the levels up to this one is of an assumed literal.
    pub level: u32,
    /// No literal of the trail before this place contradicts an assumed one.
    pub checked: usize,
}

/// Whether the literal has no value.
fn is_open(trail: &Trail, literal: Lit) -> bool
    requires { literal.variable ≤ trail.now.variables }
    ensures no_value { IsTrue result → IsOpenIn trail.now.entries literal.variable }
    ensures value { IsFalse result → IsTrueIn trail.now.entries literal ⊎ IsFalseIn trail.now.entries literal }
{
    match trail.truth(literal) {
        Truth::Open => true,
        Truth::True => false,
        Truth::False => false,
    }
}

/// The place of the first of these literals, from one on, that has no value; their number where there is none.
fn first_open(trail: &Trail, lits: &[Lit], from: usize) -> usize
    requires from { from ≤ length lits.now }
    requires within { AreWithin trail.now.variables lits.now }
    ensures low { from ≤ result }
    ensures high { result ≤ length lits.now }
    ensures before { HaveValues trail.now lits.now from result }
    ensures no_value { result < length lits.now → IsOpenIn trail.now.entries (literal_of lits.now result).variable }
{
    let mut place = from;
    while place < lits.len() {
        if is_open(trail, lits[place]) {
            return place;
        }
        place += 1;
    }
    place
}

/// Adds what the constraint at a place of the formula assumes to these literals.
fn add_assumed(formula: &Formula, place: usize, lits: &mut Vec<Lit>) -> Result<(), AllocError>
    requires place { place < length formula.now.constraints }
    requires before { lits.old.items ≡ assumptions_of (take place formula.now.constraints) }
    ensures { OnOk result (lits.new.items ≡ assumptions_of (take (place + 1) formula.now.constraints)) }
{
    match formula.item(place) {
        ConstraintRef::Clause(_) => Ok(()),
        ConstraintRef::Parity(_) => Ok(()),
        ConstraintRef::Assume(more) => {
            lits.extend_from_slice(more)?;
            Ok(())
        }
    }
}

/// The literals that the formula assumes, in order of writing.
fn assumed_literals(alloc: Global, formula: &Formula) -> Result<Vec<Lit>, AllocError>
    ensures { IfOk result (λ lits. lits.items ≡ assumptions_of formula.now.constraints) }
{
    let mut lits = Vec::new(alloc);
    for place in 0..formula.len() {
        add_assumed(formula, place, &mut lits)?;
    }
    Ok(lits)
}

impl Assumptions {
    /// The formula's, before the first decision.
    pub fn of(alloc: Global, formula: &Formula) -> Result<Assumptions, AllocError>
        ensures { IfOk result (λ a. (t : TrailState) → t.variables ≡ formula.now.variables → t.level ≡ 0 → KeepsAssumptions formula.now.constraints a t) }
    {
        // `vars` tells the proof that the literals of the formula are within its variables.
        let _vars = formula.vars();
        Ok(Assumptions {
            lits: assumed_literals(alloc, formula)?,
            next: 0,
            level: 0,
            checked: 0,
        })
    }

    /// Looks at the literals of the trail that were not looked at, up to the first one that contradicts an assumed literal: its place is the answer.
    pub fn check(&mut self, formula: &Formula, trail: &Trail) -> Option<usize>
        requires { KeepsAssumptions formula.now.constraints self.old trail.now }
        ensures keeps { KeepsAssumptions formula.now.constraints self.new trail.now }
        ensures found { MatchOption result (self.new.checked ≡ length trail.now.entries)
            (λ p. (p ≡ self.new.checked) × (p < length trail.now.entries) × Contradicts formula.now.constraints trail.now p) }
        ensures same { self.new ≡ record self.old { checked = self.new.checked } }
    {
        if self.lits.is_empty() {
            self.checked = trail.len();
            return None;
        }
        while self.checked < trail.len() {
            let literal = trail.entry(self.checked).literal;
            if formula.assumes(literal.negate()) {
                return Some(self.checked);
            }
            self.checked += 1;
        }
        None
    }

    /// The first assumed literal that has no value, where no literal of the trail contradicts an assumed one. Those before it are passed over.
    pub fn next_open(&mut self, formula: &Formula, trail: &Trail) -> Option<Lit>
        requires keeps { KeepsAssumptions formula.now.constraints self.old trail.now }
        requires checked { self.old.checked ≡ length trail.now.entries }
        ensures keeps { KeepsAssumptions formula.now.constraints self.new trail.now }
        ensures first { MatchOption result (AreTrue (assumptions_of formula.now.constraints) trail.now) (λ l. IsFirstOpen (assumptions_of formula.now.constraints) trail.now l) }
        ensures passed { MatchOption result (self.new.next ≡ length self.new.lits.items) (λ l. self.new.next < length self.new.lits.items) }
        ensures same { self.new ≡ record self.old { next = self.new.next } }
    {
        // `len` tells the proof that the trail is sound.
        let _sound = trail.len();
        self.next = first_open(trail, &self.lits, self.next);
        if self.next < self.lits.len() {
            Some(self.lits[self.next])
        } else {
            None
        }
    }

    /// Follows the trail back to a level.
    pub fn back_to(&mut self, trail: &Trail, level: u32)
        ensures { (constraints : List Constraint) (old : TrailState) → KeepsAssumptions constraints self.old old → level ≤ old.level → TakesBack level old trail.now
            → KeepsAssumptions constraints self.new trail.now }
    {
        self.checked = self.checked.min(trail.len());
        if level < self.level {
            self.next = 0;
            self.level = level;
        }
    }

    /// Begins again, at level 0.
    pub fn begin_again(&mut self)
        ensures { (constraints : List Constraint) (old t : TrailState) → KeepsAssumptions constraints self.old old → t.variables ≡ old.variables → t.level ≡ 0 → KeepsAssumptions constraints self.new t }
    {
        self.next = 0;
        self.level = 0;
        self.checked = 0;
    }
}
