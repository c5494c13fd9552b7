//! The variables of a clause's false literals.
ghost use Rattle.std.specs.Prelude.{◌≡◌, ℕ, ◌≤◌, ◌<◌, length, IsTrue, IsFalse, MatchOption};
ghost use Rattle.cx_base.specs.Literals.{Literal};
ghost use Rattle.cx_semantics.specs.Chain.{has_literal};
ghost use Rattle.cx_trail.specs.Sequence.{IsFalseBefore};
ghost use Rattle.conflict_learn.specs.Learning.{skips};
ghost use Rattle.conflict_learn.specs.Marks.{StandBetween};
ghost use Rattle.conflict_learn.specs.Touching.{Touched, IsLastMarked, NoneIsMarked};

use crate::marks::Marks;
use cx_base::Lit;
use cx_trail::Trail;

/// Whether the literal is the one to be skipped.
fn is_skipped(skip: &Option<Lit>, literal: Lit) -> bool
    ensures { result ≡ skips skip.now literal }
{
    match skip {
        Some(other) => *other == literal,
        None => false,
    }
}

/// Marks the variables of the literals but the skipped one. The result is the lowest place of a marked one.
pub(crate) fn touch(
    trail: &Trail,
    literals: &[Lit],
    skip: &Option<Lit>,
    below: usize,
    marks: &mut Marks,
    lowest: usize,
) -> usize
    requires bound { below ≤ length trail.now.entries }
    requires wide { trail.now.variables < length marks.old }
    requires stand { StandBetween trail.now marks.old lowest below }
    requires negated { (m : Literal) → IsTrue (has_literal literals.now m) → IsFalse (skips skip.now m) → IsFalseBefore trail.now.entries below m }
    ensures touched { Touched skip.now marks.old marks.new literals.now }
    ensures stand { StandBetween trail.now marks.new result below }
{
    // that variables are within the trail's, which this call tells the proof
    let _vars = trail.vars();
    let mut low = lowest;
    for literal in literals {
        if !is_skipped(skip, *literal) && !marks.has(literal.var()) {
            marks.mark(literal.var());
            low = low.min(trail.place_of(*literal));
        }
    }
    low
}

/// The greatest place below one whose variable is marked. None is marked at lower places than the lowest.
pub(crate) fn last_marked(trail: &Trail, marks: &Marks, from: usize, lowest: usize) -> Option<usize>
    requires bound { from ≤ length trail.now.entries }
    requires wide { trail.now.variables < length marks.now }
    ensures { MatchOption result (NoneIsMarked trail.now marks.now lowest from) (λ p. IsLastMarked trail.now marks.now from lowest p) }
{
    let mut place = from;
    while place > lowest {
        place -= 1;
        if marks.has(trail.entry(place).literal.var()) {
            return Some(place);
        }
    }
    None
}
