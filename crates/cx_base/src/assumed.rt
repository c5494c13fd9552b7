//! Which literals a formula assumes.
ghost use Rattle.std.specs.Prelude.{◌≡◌, ◌<◌, ◌≤◌, ◌+◌, ◌*◌, ◌/◌, ◌||◌, ℕ, [], get_or, length, IsFalse, OnOk, MatchOption};
ghost use Rattle.std.specs.List.{list_any};
ghost use Rattle.std.specs.Slice.Scan.{HoldsNowhere, IsFirstPlace};
ghost use Rattle.cx_base.specs.Literals.{Literal, same_literal};
ghost use Rattle.cx_base.specs.Problem.{AreWithin};
ghost use Rattle.cx_base.specs.Assumptions.{assumed_by};
ghost use Rattle.cx_base.specs.Heads.{of_kind};
ghost use Rattle.cx_base.specs.Assumed.{is_marked, are_both_marked, has_pair, HasRoom, IsFirstBoth, IsNoneBoth};
ghost use Rattle.cx_base.specs.declared.literal.TheConstants.{MAX_VARIABLE};

use crate::formula::ConstraintKind;
use crate::literal::{Lit, Var};
use std::alloc::{AllocError, Global};

/// The bits of a word that are the marks of positive literals.
const POSITIVE: u64 = 0x5555_5555_5555_5555;

/// A mark for each assumed literal: the bit of its code, 64 to a word. Where nothing is assumed, there is no word.
#[derive(Drop)]
pub(crate) struct Assumed {
    pub marks: Vec<u64>,
}

/// Marks the literals.
fn mark_all(marks: &mut Vec<u64>, greatest: u32, lits: &[Lit])
    requires room { greatest < 32 * length marks.old.items }
    requires within { AreWithin greatest lits.now }
    ensures marked { (l : Literal) → is_marked marks.new.items l ≡ (is_marked marks.old.items l || list_any (same_literal l) lits.now) }
    ensures len { length marks.new.items ≡ length marks.old.items }
{
    for lit in lits {
        let code = lit.code();
        marks[code / 64] |= 1 << (code % 64);
    }
}

/// The least of the word's 32 variables both of whose literals have a mark, if there is one.
fn first_pair(word: u64) -> Option<u32>
    ensures { MatchOption result (HoldsNowhere (has_pair word) 0 32) (λ j. (j < 32) × IsFirstPlace (has_pair word) 0 32 j) }
{
    let pairs = word & (word >> 1) & POSITIVE;
    if pairs == 0 {
        return None;
    }
    Some(pairs.trailing_zeros() / 2)
}

impl Assumed {
    /// No mark yet.
    pub fn new(alloc: Global) -> Assumed
        ensures { result.marks.items ≡ [] }
    {
        Assumed {
            marks: Vec::new(alloc),
        }
    }

    /// Whether the literal has a mark.
    pub fn has(&self, lit: Lit) -> bool
        ensures { result ≡ is_marked self.now.marks.items lit }
    {
        let code = lit.code();
        code / 64 < self.marks.len() && (self.marks[code / 64] >> (code % 64)) & 1 == 1
    }

    /// Makes places for the marks of literals up to this variable, where the constraint to come has assumptions. No mark changes.
    pub fn reserve(&mut self, kind: ConstraintKind, greatest: u32) -> Result<(), AllocError>
        requires few { greatest ≤ MAX_VARIABLE }
        requires before { length self.old.marks.items ≤ MAX_VARIABLE / 32 + 1 }
        ensures same { (p : ℕ) → get_or self.new.marks.items p 0 ≡ get_or self.old.marks.items p 0 }
        ensures few { length self.new.marks.items ≤ MAX_VARIABLE / 32 + 1 }
        ensures room { OnOk result (HasRoom kind greatest (length self.new.marks.items)) }
    {
        let len = greatest as usize / 32 + 1;
        if matches!(kind, ConstraintKind::Assume) && self.marks.len() < len {
            self.marks.resize(len, 0)?;
        }
        Ok(())
    }

    /// Marks what a constraint of this kind assumes.
    pub fn mark(&mut self, kind: ConstraintKind, greatest: u32, lits: &[Lit])
        requires room { HasRoom kind greatest (length self.old.marks.items) }
        requires within { AreWithin greatest lits.now }
        ensures marked { (l : Literal) → is_marked self.new.marks.items l ≡ (is_marked self.old.marks.items l || list_any (same_literal l) (assumed_by (of_kind kind lits.now))) }
        ensures len { length self.new.marks.items ≡ length self.old.marks.items }
    {
        match kind {
            ConstraintKind::Clause | ConstraintKind::Parity => {}
            ConstraintKind::Assume => mark_all(&mut self.marks, greatest, lits),
        }
    }

    /// The least variable both of whose literals have a mark, if there is one.
    pub fn first_both(&self) -> Option<Var>
        requires few { length self.now.marks.items ≤ MAX_VARIABLE / 32 + 1 }
        requires no_variable { IsFalse (are_both_marked self.now.marks.items 0) }
        ensures { MatchOption result (IsNoneBoth self.now.marks.items) (IsFirstBoth self.now.marks.items) }
    {
        for place in 0..self.marks.len() {
            if let Some(pair) = first_pair(self.marks[place]) {
                return Some(Var::new(32 * place as u32 + pair));
            }
        }
        None
    }
}
