//! One clause less.
ghost use Rattle.std.specs.Prelude.{◌≡◌, ◌≢◌, ◌<◌, ◌≤◌, ◌⊎◌, ℕ, [], length, None, Some, false};
ghost use Rattle.std.specs.List.{Contains};
ghost use Rattle.std.specs.FinMap as map;
ghost use Rattle.cx_base.specs.Literals.{Literal};
ghost use Rattle.cx_semantics.specs.Tables.{Table};
ghost use Rattle.rup_engine.specs.Standing.{IsWithin, Rests};
ghost use Rattle.cx_trail.specs.Sequence.{entry_at};
ghost use Rattle.cx_trail.specs.declared.entry.Reason.TheVariants.{Clause};
ghost use Rattle.clause_arena.specs.Clauses.{IsLive};
ghost use Rattle.rup_engine.specs.Forgetting.{IsReasonOf};
ghost use Rattle.rup_engine.specs.Finding.{IsAtRest, Holds};

use crate::engine::{Engine, LiveClauses};
use crate::gather::clause_of;
use crate::search::back;
use cx_base::{ClauseRef, Lit};
use cx_trail::{Trail, Truth};
use watch_lists::Watches;

/// Whether the literal is true for this reason.
fn gave(trail: &Trail, lit: Lit, reference: ClauseRef) -> bool
    requires { lit.variable ≤ trail.now.variables }
    ensures { result ≡ false → IsReasonOf trail.now.entries reference lit → ⊥ }
{
    match trail.truth(lit) {
        Truth::True => match clause_of(trail.reason_of(lit.var())) {
            Some(found) => found == reference,
            None => false,
        },
        Truth::False => false,
        Truth::Open => false,
    }
}

/// Whether the clause is the reason of one of its literals.
fn is_reason(trail: &Trail, lits: &[Lit], reference: ClauseRef) -> bool
    requires { IsWithin trail.now.variables lits.now }
    ensures { result ≡ false → (l : Literal) → Contains lits.now l → IsReasonOf trail.now.entries reference l → ⊥ }
{
    for lit in lits {
        if gave(trail, *lit, reference) {
            return true;
        }
    }
    false
}

/// Whether the broken clause is this one.
fn is_broken(broken: Option<ClauseRef>, reference: ClauseRef) -> bool
    ensures { result ≡ false → broken ≢ Some reference }
{
    match broken {
        Some(found) => found == reference,
        None => false,
    }
}

/// Takes level 1 back where it rests on a clause, or makes just this one false.
fn release(
    clauses: &LiveClauses,
    watches: &mut Watches,
    trail: &mut Trail,
    broken: &mut Option<ClauseRef>,
    reference: ClauseRef,
)
    requires rests { Rests clauses.now.limit [] clauses.now.arena.now watches.old trail.old }
    requires live { IsLive clauses.now.arena.now reference }
    ensures rests { Rests clauses.now.limit [] clauses.now.arena.now watches.new trail.new }
    ensures attached { watches.new.attached ≡ watches.old.attached }
    ensures unused { (i : ℕ) → i < length trail.new.entries → (entry_at trail.new.entries i).reason ≢ Clause reference }
    ensures kept { ((trail.new.level ≡ 0) × (broken.new ≡ None)) ⊎ ((trail.new ≡ trail.old) × (broken.new ≡ broken.old) × (broken.old ≢ Some reference)) }
{
    if is_broken(*broken, reference) || is_reason(trail, clauses.arena.lits(reference), reference) {
        back(watches, trail, 0);
        *broken = None;
    }
}

impl Engine {
    /// The clause of this id goes, if there is one. What rests on it is taken back.
    pub fn forget(&mut self, id: u64)
        requires rest { IsAtRest self.old }
        ensures rest { IsAtRest self.new }
        ensures limit { self.new.limit ≡ self.old.limit }
        ensures free { map.get self.new.refs id ≡ None }
        ensures holds { (table : Table) → Holds table self.old → Holds (map.remove table id) self.new }
    {
        let reference = match self.refs.get(id) {
            Some(reference) => *reference,
            None => return,
        };
        let clauses = LiveClauses {
            limit: self.limit,
            arena: &self.arena,
            units: &self.units,
        };
        release(
            &clauses,
            &mut self.watches,
            &mut self.trail,
            &mut self.broken,
            reference,
        );
        self.arena.remove(reference);
        self.watches.detach(&self.arena, reference);
        self.refs.remove(id);
        self.gone = self.gone.saturating_add(1);
    }
}
