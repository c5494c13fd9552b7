//! The decisions that a clause rests on.
ghost use Rattle.std.specs.Prelude.{◌≡◌, ◌≢◌, ◌<◌, ◌≤◌, List, length, IsTrue, IsFalse, IfOk, OnOk};
ghost use Rattle.cx_base.specs.Literals.{Literal};
ghost use Rattle.cx_semantics.specs.Chain.{has_literal};
ghost use Rattle.cx_trail.specs.declared.entry.Reason.TheVariants.{Decision};
ghost use Rattle.cx_trail.specs.Sequence.{IsFalseBefore};
ghost use Rattle.conflict_learn.specs.Faults.{CountsAs, fault_in};
ghost use Rattle.conflict_learn.specs.Final.{IsFinal, StandsBelow};
ghost use Rattle.conflict_learn.specs.Learning.{AreHeld, literals_of, skips};
ghost use Rattle.conflict_learn.specs.Marks.{AreClear};

use crate::antecedents::Antecedents;
use crate::fault::CoreFault;
use crate::learning::{Gathered, Resolved, resolve};
use crate::marks::Marks;
use crate::touching::{last_marked, touch};
use cx_base::{Lit, LitList};
use cx_trail::{Entry, Reason, Trail};
use std::alloc::Global;

/// What is left of a clause when its literals are traced to decisions.
#[derive(Drop)]
pub struct Final {
    /// The kept literal, where there is one, and then the negations of decided literals, from the newest to the oldest.
    pub lits: LitList,
    /// The literals whose clauses were resolved, in this order. These clauses, the last one first, and then the clause itself are a right chain.
    pub resolved: Vec<Resolved>,
}

/// Whether the literal was decided.
fn is_decided(entry: &Entry) -> bool
    ensures decided { IsTrue result → (0 < entry.now.level) × (entry.now.reason ≡ Decision) }
    ensures forced { IsFalse result → 0 < entry.now.level → entry.now.reason ≢ Decision }
{
    entry.level > 0 && matches!(entry.reason, Reason::Decision)
}

fn into_final(gathered: Gathered) -> Final
    ensures lits { result.lits ≡ gathered.lits.items }
    ensures resolved { result.resolved.items ≡ gathered.resolved.items }
{
    Final {
        lits: LitList::from_vec(gathered.lits),
        resolved: gathered.resolved,
    }
}

/// The decisions that a clause rests on, whose literals but the kept one are false below a place: each literal is resolved with the clause that implied it, but those
/// that were decided. What is left follows from the clause and the clauses that implied literals of the trail below the place.
///
/// A clause that is not at hand is asked for at most once for each literal of the trail.
pub fn analyse_final<S: Antecedents>(
    alloc: Global,
    trail: &Trail,
    clause: &[Lit],
    kept: &Option<Lit>,
    below: usize,
    marks: &mut Marks,
    source: &mut S,
) -> Result<Final, CoreFault>
    requires ready { S.ready source.old }
    requires stands { S.trail source.old ≡ trail.now }
    requires room { below ≤ S.room source.old }
    requires reach { below ≤ S.reach source.old }
    requires bound { below ≤ length trail.now.entries }
    requires all_false { (m : Literal) → IsTrue (has_literal clause.now m) → IsFalse (skips kept.now m) → IsFalseBefore trail.now.entries below m }
    requires clear { AreClear marks.old }
    ensures trail { S.trail source.new ≡ S.trail source.old }
    ensures held { AreHeld (S.holds source.old) (S.holds source.new) }
    ensures left { IfOk result (λ r. IsFinal trail.now below kept.now clause.now (S.holds source.new) r.resolved.items r.lits) }
    ensures stand { IfOk result (λ r. (l : Literal) → IsTrue (has_literal (literals_of r.resolved.items) l) → StandsBelow trail.now below l) }
    ensures clear { OnOk result (AreClear marks.new) }
    ensures ready { OnOk result (S.ready source.new) }
    ensures faults { CountsAs (fault_in result) (S.faults source.old) (S.faults source.new) }
    ensures goes_on { S.goes_on source.old (fault_in result) source.new }
{
    marks.reach(trail.vars())?;
    let mut from = below;
    let mut lowest = touch(trail, clause, kept, below, marks, below);
    let mut gathered = Gathered::begin(alloc, kept)?;
    while let Some(place) = last_marked(trail, marks, from, lowest) {
        from = place;
        let entry = trail.entry(place);
        marks.clear(entry.literal.var());
        if is_decided(&entry) {
            gathered.keep(&entry)?;
        } else {
            let (id, lower) = resolve(trail, marks, source, place, lowest)?;
            lowest = lower;
            gathered.add_resolved(&entry, id)?;
        }
    }
    Ok(into_final(gathered))
}
