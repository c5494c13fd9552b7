//! The changes that tidying makes, each told to the log: a clause loses a literal.
ghost use Rattle.std.specs.Prelude.{◌≡◌, ◌⊎◌, ◌<◌, pos, [], ◌∷◌, length, true, false, MatchBool, IfOk};
ghost use Rattle.std.specs.List.{AllByRecursion};
ghost use Rattle.cx_base.specs.Literals.{same_literal};
ghost use Rattle.cx_semantics.specs.Chain.{has_literal};
ghost use Rattle.cx_base.specs.Integers.{integers_of, literals};
ghost use Rattle.cx_base.specs.declared.steps.LogEvent.TheVariants.{Step};
ghost use Rattle.cx_base.specs.declared.steps.LogStep.TheVariants.{ClauseWithHints};
ghost use Rattle.clause_tidy.specs.Agreeing.{IsStepId};
ghost use Rattle.clause_tidy.specs.Shortened.{IsWithout};
ghost use Rattle.clause_tidy.specs.Steps.{shortening, strengthening};
ghost use Rattle.clause_tidy.specs.Telling.{IsStep, IsTellable, TellsIn, as_events};

use crate::integers::integers;
use crate::steps::{chained, deletion};
use crate::telling::{tell_all, tell_one};
use crate::tidier::Tidier;
use cx_base::{IntList, Lit, LogEvent, LogStep};
use std::alloc::{AllocError, Global};
use step_text::{Sink, SinkFault};
use tidy_rules::relations::has;

/// Whether a literal differs from this one and from those found.
fn is_wanted(found: &[Lit], lit: Lit, other: Lit) -> bool
    ensures { MatchBool result ((same_literal other lit ≡ false) × (has_literal found.now other ≡ false)) ((same_literal other lit ≡ true) ⊎ (has_literal found.now other ≡ true)) }
{
    other != lit && !has(found, other)
}

/// The literals of the clause but this one, each once.
pub(crate) fn without(alloc: Global, lits: &[Lit], lit: Lit) -> Result<Vec<Lit>, AllocError>
    ensures without { IfOk result (λ v. IsWithout lits.now lit v.items) }
    ensures fewer { IfOk result (λ v. has_literal lits.now lit ≡ true → length v.items < length lits.now) }
{
    let mut found = Vec::new(alloc);
    for other in lits {
        if is_wanted(&found, lit, *other) {
            found.push(*other)?;
        }
    }
    Ok(found)
}

/// One id as a hint.
fn hint(alloc: Global, id: u64) -> Result<IntList, AllocError>
    requires { IsStepId id }
    ensures { IfOk result (λ hints. hints ≡ pos id ∷ []) }
{
    let mut hints = Vec::with_capacity(alloc, 1)?;
    hints.push(id as i64)?;
    Ok(IntList::from_vec(hints))
}

/// Two ids as hints.
fn hints(alloc: Global, first: u64, second: u64) -> Result<IntList, AllocError>
    requires first { IsStepId first }
    requires second { IsStepId second }
    ensures { IfOk result (λ hints. hints ≡ pos first ∷ pos second ∷ []) }
{
    let mut hints = Vec::with_capacity(alloc, 2)?;
    hints.push(first as i64)?;
    hints.push(second as i64)?;
    Ok(IntList::from_vec(hints))
}

/// The step that adds these literals under this id.
fn added(alloc: Global, id: u64, rest: &[Lit], hints: IntList) -> Result<LogStep, AllocError>
    requires { IsStepId id }
    ensures added { IfOk result (λ s. IsStep (ClauseWithHints id (integers_of rest.now) hints) s) }
    ensures spells { IfOk result (λ _. literals (integers_of rest.now) ≡ rest.now) }
{
    let lits = integers(alloc, rest)?;
    Ok(chained(id, lits, hints))
}

/// The step that adds these literals under an id, by the clause of the spare one.
fn copied_step(alloc: Global, spare: u64, id: u64, rest: &[Lit]) -> Result<LogStep, AllocError>
    requires spare { IsStepId spare }
    requires id { IsStepId id }
    ensures copied { IfOk result (IsStep (ClauseWithHints id (integers_of rest.now) (pos spare ∷ []))) }
    ensures spells { IfOk result (λ _. literals (integers_of rest.now) ≡ rest.now) }
{
    let hints = hint(alloc, spare)?;
    added(alloc, id, rest, hints)
}

/// Four values in order.
// Of any type: a step has many parts, of which the proof is to know nothing here.
fn four<T: Drop>(
    alloc: Global,
    first: T,
    second: T,
    third: T,
    fourth: T,
) -> Result<Vec<T>, AllocError>
    ensures { IfOk result (λ all. all.items ≡ first ∷ second ∷ third ∷ fourth ∷ []) }
{
    match Vec::with_capacity(alloc, 4) {
        Ok(mut all) => {
            all.push_reserved(first);
            all.push_reserved(second);
            all.push_reserved(third);
            all.push_reserved(fourth);
            Ok(all)
        }
        Err(AllocError) => Err(AllocError),
    }
}

/// The four steps that tell a shorter clause: the one of the first id strengthens the one of the second.
pub(crate) fn shortening_steps(
    alloc: Global,
    spare: u64,
    by: u64,
    id: u64,
    rest: &[Lit],
) -> Result<Vec<LogStep>, AllocError>
    requires spare { IsStepId spare }
    requires by { IsStepId by }
    requires id { IsStepId id }
    ensures steps { IfOk result (λ s. s.items ≡ shortening spare by id (integers_of rest.now)) }
    ensures texts { IfOk result (λ s. AllByRecursion IsTellable s.items) }
    ensures spells { IfOk result (λ _. literals (integers_of rest.now) ≡ rest.now) }
{
    let strengthened = ending_step(alloc, spare, by, id, rest)?;
    match copied_step(alloc, spare, id, rest) {
        Ok(copied) => {
            let old_goes = deletion(alloc, id);
            let spare_goes = deletion(alloc, spare);
            four(alloc, strengthened, old_goes, copied, spare_goes)
        }
        Err(AllocError) => {
            // By a call, since in place each list that a step may have is a step of the proof.
            drop(strengthened);
            Err(AllocError)
        }
    }
}

/// The step that ends the log: these literals are left of the clause of the second id.
pub(crate) fn ending_step(
    alloc: Global,
    spare: u64,
    by: u64,
    id: u64,
    rest: &[Lit],
) -> Result<LogStep, AllocError>
    requires spare { IsStepId spare }
    requires by { IsStepId by }
    requires id { IsStepId id }
    ensures { IfOk result (IsStep (strengthening spare by id (integers_of rest.now))) }
{
    let hints = hints(alloc, by, id)?;
    added(alloc, spare, rest, hints)
}

impl Tidier<'_> {
    /// Tells a shorter clause.
    pub(crate) fn tell_shortening<L: Sink<Item = LogEvent>>(
        &self,
        log: &mut L,
        by: u64,
        id: u64,
        rest: &[Lit],
    ) -> Result<(), SinkFault>
        requires spare { IsStepId self.now.spare }
        requires by { IsStepId by }
        requires id { IsStepId id }
        requires going { L.has_failed log.old ≡ false }
        ensures { TellsIn L.Sink (as_events (shortening self.now.spare by id (integers_of rest.now))) log.old result log.new }
    {
        match shortening_steps(self.alloc, self.spare, by, id, rest) {
            Ok(steps) => tell_all(log, steps),
            Err(_) => Err(SinkFault::Memory),
        }
    }

    /// Tells that an ending clause is left of one.
    pub(crate) fn tell_ending<L: Sink<Item = LogEvent>>(
        &self,
        log: &mut L,
        by: u64,
        id: u64,
        rest: &[Lit],
    ) -> Result<(), SinkFault>
        requires spare { IsStepId self.now.spare }
        requires by { IsStepId by }
        requires id { IsStepId id }
        requires going { L.has_failed log.old ≡ false }
        ensures { TellsIn L.Sink (Step (strengthening self.now.spare by id (integers_of rest.now)) ∷ []) log.old result log.new }
    {
        match ending_step(self.alloc, self.spare, by, id, rest) {
            Ok(step) => tell_one(log, step),
            Err(_) => Err(SinkFault::Memory),
        }
    }
}
