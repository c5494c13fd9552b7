//! Tidying: what is a tautology goes, and what is left is mended.
ghost use Rattle.std.specs.Prelude.{◌≡◌, false, ◌≤◌, ℕ, [], length, IfOk, IsNone, IsTrue, OnErr};
ghost use Rattle.cx_base.specs.Assumptions.{is_ending};
ghost use Rattle.clause_arena.specs.Clauses.{clause_at, IsLive, literals_at, learned_at};
ghost use Rattle.step_text.specs.Sinks.{SinkFaultsAs, HasFailedAs, OnFailed};
ghost use Rattle.tidy_rules.specs.declared.part.TidyPart.{TidyPart};
ghost use Rattle.tidy_rules.specs.Parts.{IsPart, Tidied, lits_in};
ghost use Rattle.clause_tidy.specs.Agreeing.{IsStepId, AreProper};
ghost use Rattle.clause_tidy.specs.Answers.{EndsFrom, HasNoTautology, IsRightFrom, IsTold, IsTornAfter, MayTidy, MendsTo, TidiesOn};
ghost use Rattle.tidy_rules.specs.Below.{TidiedBelow};
ghost use Rattle.clause_tidy.specs.Derived.{IsDerived};
ghost use Rattle.clause_tidy.specs.Done.{AgreesAgain, ArePartsOf, IfDone, IfEnded, IsCoveredBy, TidiesTo, TakesUnits};
ghost use Rattle.clause_tidy.specs.Pairs.{NoneBears};
ghost use Rattle.clause_tidy.specs.Taking.{IsWide};
ghost use Rattle.clause_tidy.specs.Tidying.{IsClauseOf, WasOrCame};

use crate::outcome::TidyOf;
use crate::tautologies::drop_tautologies;
use crate::tidier::Tidier;
use crate::units::take_units;
use clause_arena::Arena;
use cx_base::{Formula, IdList, LitList, LogEvent};
use std::alloc::{AllocError, Global};
use step_text::{Sink, SinkFault};

/// How two clauses are sought of which one bears on the other.
#[derive(Clone, Copy)]
pub(crate) enum Search {
    /// Each clause waits in a queue to be looked at.
    Queue,
    /// Each is looked at beside each other.
    Pairs,
}

/// The units that arose are taken out of a tidied arena: those of references from this one on.
fn done(alloc: Global, arena: &mut Arena, first: usize) -> Result<TidyOf, AllocError>
    ensures { IfOk result (TakesUnits arena.old arena.new first) }
{
    let mut units = Vec::new(alloc);
    let mut ids = Vec::new(alloc);
    take_units(arena, &mut units, &mut ids, first)?;
    Ok(TidyOf::Done(LitList::from_vec(units), IdList::from_vec(ids)))
}

impl Tidier<'_> {
    /// Mends two clauses, one of which bears on the other, as long as there are two.
    fn settle<L: Sink<Item = LogEvent>>(
        &self,
        arena: &mut Arena,
        log: &mut L,
        search: Search,
    ) -> Result<Option<LitList>, SinkFault>
        requires may { MayTidy L.Sink self.now.formula.now self.now.spare arena.old log.old }
        requires none { HasNoTautology arena.old }
        requires within { self.now.from ≤ length arena.old.clauses }
        requires tidy { TidiedBelow arena.old self.now.from }
        ensures free { IfOk result (λ ended. IsNone ended → HasNoTautology arena.new) }
        ensures bears { IfOk result (λ ended. IsNone ended → NoneBears arena.new) }
        ensures tidies { TidiesOn L.Sink self.now.formula.now self.now.spare arena.old log.old result (MendsTo self.now.formula.now self.now.spare arena.old arena.new) log.new }
    {
        match search {
            Search::Queue => self.settle_by_queue(arena, log),
            Search::Pairs => self.settle_plainly(arena, log),
        }
    }

    /// Makes the clauses of an arena tidy, where it has units too, and tells the log each change. Where an ending clause is left, the log ends with it.
    fn tidy_clauses<L: Sink<Item = LogEvent>>(
        &self,
        arena: &mut Arena,
        log: &mut L,
        search: Search,
    ) -> Result<Option<LitList>, SinkFault>
        requires may { MayTidy L.Sink self.now.formula.now self.now.spare arena.old log.old }
        requires within { self.now.from ≤ length arena.old.clauses }
        requires tidy { TidiedBelow arena.old self.now.from }
        ensures tidied { IfOk result (λ ended. IsNone ended → Tidied arena.new []) }
        ensures tidies { TidiesOn L.Sink self.now.formula.now self.now.spare arena.old log.old result (MendsTo self.now.formula.now self.now.spare arena.old arena.new) log.new }
    {
        match drop_tautologies(self.alloc, arena, log, self.from) {
            Ok(()) => self.settle(arena, log, search),
            Err(fault) => Err(fault),
        }
    }

    /// Makes the clauses of an arena tidy, together with the units that arise, and tells the log each change.
    pub(crate) fn tidy_all<L: Sink<Item = LogEvent>>(
        &self,
        arena: &mut Arena,
        log: &mut L,
        search: Search,
    ) -> Result<TidyOf, SinkFault>
        requires may { MayTidy L.Sink self.now.formula.now self.now.spare arena.old log.old }
        requires within { self.now.from ≤ length arena.old.clauses }
        requires tidy { TidiedBelow arena.old self.now.from }
        ensures { TidiesOn L.Sink self.now.formula.now self.now.spare arena.old log.old result (TidiesTo self.now.formula.now self.now.spare arena.old arena.new) log.new }
    {
        let first = arena.len();
        match self.tidy_clauses(arena, log, search) {
            Ok(Some(lits)) => Ok(TidyOf::Ended(lits)),
            Ok(None) => match done(self.alloc, arena, first) {
                Ok(outcome) => Ok(outcome),
                Err(_) => Err(SinkFault::Memory),
            },
            Err(fault) => Err(fault),
        }
    }
}

/// Makes the clauses of an arena tidy, together with the units that arise, and tells the log each change. Those before this
/// reference are tidy already: where one of two clauses bears on the other, one of them is a later one.
///
/// Where an ending clause arises, it is told and the log has ended. A fault of writing leaves the log with a torn step.
/// After a fault the arena is a stage of the work. The log has not failed before, and has not after an answer: one that has
/// failed is not asked again.
pub fn tidy_from<L: Sink<Item = LogEvent>>(
    alloc: Global,
    arena: &mut Arena,
    formula: &Formula,
    spare: u64,
    from: usize,
    log: &mut L,
) -> Result<TidyOf, SinkFault>
    requires proper { AreProper formula.now arena.old }
    requires spare { IsStepId spare }
    requires tidy { TidiedBelow arena.old from }
    requires going { L.has_failed log.old ≡ false }
    ensures tidied { IfDone result (λ units ids. Tidied arena.new units) }
    ensures each { IfDone result (λ units ids. length ids ≡ length units) }
    ensures covers { IfDone result (λ units ids. (r : ℕ) → IsLive arena.old r → IsCoveredBy arena.new units (literals_at arena.old r) (learned_at arena.old r)) }
    ensures derived { IfDone result (λ units ids. (p : TidyPart) → IsPart arena.new units p → IsDerived (IsClauseOf arena.old) (lits_in arena.new p)) }
    ensures parts { IfDone result (λ units ids. ArePartsOf arena.old arena.new units ids) }
    ensures learned { IfDone result (λ units ids. (q : ℕ) → IsLive arena.new q → IsTrue (learned_at arena.new q) → clause_at arena.new q ≡ clause_at arena.old q) }
    ensures wide { IfDone result (λ units ids. (q : ℕ) → length arena.old.clauses ≤ q → IsWide arena.new q) }
    ensures was { IfDone result (λ units ids. (q : ℕ) → IsLive arena.new q → WasOrCame formula.now arena.old arena.new q) }
    ensures agrees { IfDone result (λ units ids. IsTold L.Sink spare arena.old log.old (AgreesAgain formula.now spare arena.old arena.new units ids) log.new) }
    ensures ending { IfEnded result (λ lits. IsTrue (is_ending formula.now.constraints lits)) }
    ensures ended { IfEnded result (λ lits. IsDerived (IsClauseOf arena.old) lits) }
    ensures ends { IfEnded result (λ lits. IsTold L.Sink spare arena.old log.old (EndsFrom formula.now spare arena.old lits) log.new) }
    ensures left { OnErr result (IsTold L.Sink spare arena.old log.old (IsRightFrom formula.now spare arena.old) log.new) }
    ensures torn { OnFailed result (IsTold L.Sink spare arena.old log.old (IsTornAfter L.Sink formula.now spare arena.old log.new) log.new) }
    ensures faults { SinkFaultsAs result (L.Sink.faults log.old) (L.Sink.faults log.new) }
    ensures failed { HasFailedAs result (L.Sink.has_failed log.old) (L.Sink.has_failed log.new) }
    ensures frame { L.Sink.keeps log.old log.new }
{
    let tidier = Tidier {
        alloc,
        formula,
        spare,
        from: from.min(arena.len()) as u32,
    };
    tidier.tidy_all(arena, log, Search::Queue)
}
