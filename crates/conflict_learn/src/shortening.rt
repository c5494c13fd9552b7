//! Literals that others of the clause imply.
ghost use Rattle.std.specs.Prelude.{◌≡◌, ◌≢◌, ℕ, ◌<◌, ◌≤◌, List, length, IsTrue, IsFalse};
ghost use Rattle.cx_base.specs.Literals.{Literal, same_literal};
ghost use Rattle.cx_semantics.specs.Chain.{has_literal};
ghost use Rattle.cx_trail.specs.declared.entry.Reason.TheVariants.{Decision};
ghost use Rattle.cx_trail.specs.Sequence.{IsFalseIn, entry_at};
ghost use Rattle.conflict_learn.specs.Learning.{IsAntecedent, literal_at};
ghost use Rattle.conflict_learn.specs.Touching.{IsMarkedOrFixed, IsCovered};

use crate::antecedents::Antecedents;
use crate::marks::Marks;
use cx_base::Lit;
use cx_trail::{Reason, Trail};

/// Whether a false literal is marked, or false at level 0.
fn is_marked_or_fixed(trail: &Trail, marks: &Marks, literal: Lit) -> bool
    requires wide { trail.now.variables < length marks.now }
    requires negated { IsFalseIn trail.now.entries literal }
    ensures { IsTrue result → IsMarkedOrFixed trail.now marks.now literal }
{
    // that the variable is within the trail's, which this call tells the proof
    let _vars = trail.vars();
    marks.has(literal.var()) || trail.entry(trail.place_of(literal)).level == 0
}

/// Whether it is the same literal.
fn is_same(own: Lit, literal: Lit) -> bool
    ensures { result ≡ same_literal own literal }
{
    own == literal
}

/// Whether each literal of the clause but its own has a marked variable or level 0.
fn is_covered(trail: &Trail, marks: &Marks, own: Lit, clause: &[Lit]) -> bool
    requires wide { trail.now.variables < length marks.now }
    requires negated { (m : Literal) → IsTrue (has_literal clause.now m) → IsFalse (same_literal own m) → IsFalseIn trail.now.entries m }
    ensures { IsTrue result → IsCovered trail.now marks.now own clause.now }
{
    for literal in clause {
        if !is_same(own, *literal) && !is_marked_or_fixed(trail, marks, *literal) {
            return false;
        }
    }
    true
}

/// Whether a literal of the trail may be dropped: an antecedent's other literals are marked or of level 0.
pub(crate) fn is_redundant<S: Antecedents>(
    trail: &Trail,
    marks: &Marks,
    source: &S,
    place: usize,
) -> bool
    requires ready { S.ready source.now }
    requires stands { S.trail source.now ≡ trail.now }
    requires wide { trail.now.variables < length marks.now }
    requires place { place < length trail.now.entries }
    ensures forced { IsTrue result → (entry_at trail.now.entries place).reason ≢ Decision }
    ensures covered { IsTrue result → (clause : List Literal) × (n : ℕ) × S.holds source.now clause n × IsAntecedent trail.now (literal_at trail.now place) clause × IsCovered trail.now marks.now (literal_at trail.now place) clause }
{
    let entry = trail.entry(place);
    if matches!(entry.reason, Reason::Decision) {
        return false;
    }
    match source.look(entry.reason, entry.literal) {
        Some((clause, _)) => is_covered(trail, marks, entry.literal, clause),
        None => false,
    }
}
