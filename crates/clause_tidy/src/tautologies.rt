//! Clauses with a literal and its negation go first.
ghost use Rattle.std.specs.Prelude.{◌≡◌, ◌<◌, false, ℕ, IsTrue, OnOk, MatchBool};
ghost use Rattle.cx_semantics.specs.Fresh.{is_tautology};
ghost use Rattle.cx_base.specs.Problem.{Problem};
ghost use Rattle.clause_arena.specs.Clauses.{IsLive, literals_at, id_at};
ghost use Rattle.clause_tidy.specs.Agreeing.{IsStepId};
ghost use Rattle.clause_tidy.specs.Answers.{TidiesOn, HasNoTautology};
ghost use Rattle.clause_tidy.specs.Tautologies.{IsLeft, IsFreeAt};
ghost use Rattle.clause_tidy.specs.Tidying.{Tidies};

use crate::changes::drop_clause;
use clause_arena::Arena;
use cx_base::{ClauseRef, LogEvent};
use std::alloc::Global;
use step_text::{Sink, SinkFault};
use tidy_rules::relations::has_both;

/// Whether a reference is that of a live clause with a literal and its negation.
fn is_to_go(arena: &Arena, clause: ClauseRef) -> bool
    ensures { MatchBool result (IsLive arena.now clause × IsTrue (is_tautology (literals_at arena.now clause))) (IsFreeAt arena.now clause) }
{
    arena.is_live(clause) && has_both(arena.lits(clause))
}

/// Removes the clause of a reference, where it is live and has a literal and its negation.
fn drop_tautology<L: Sink<Item = LogEvent>>(
    alloc: Global,
    arena: &mut Arena,
    log: &mut L,
    clause: ClauseRef,
) -> Result<(), SinkFault>
    requires ids { (r : ℕ) → IsLive arena.old r → IsStepId (id_at arena.old r) }
    requires going { L.has_failed log.old ≡ false }
    ensures left { OnOk result (IsLeft arena.old arena.new) }
    ensures free { OnOk result (IsFreeAt arena.new clause) }
    ensures tidies { (formula : Problem) (spare : ℕ) → TidiesOn L.Sink formula spare arena.old log.old result (λ _. Tidies formula spare arena.old arena.new) log.new }
{
    if !is_to_go(arena, clause) {
        return Ok(());
    }
    drop_clause(alloc, arena, log, clause)
}

/// Removes each clause with a literal and its negation. Those before this reference have none.
pub(crate) fn drop_tautologies<L: Sink<Item = LogEvent>>(
    alloc: Global,
    arena: &mut Arena,
    log: &mut L,
    from: u32,
) -> Result<(), SinkFault>
    requires ids { (r : ℕ) → IsLive arena.old r → IsStepId (id_at arena.old r) }
    requires free { (r : ℕ) → r < from → IsFreeAt arena.old r }
    requires going { L.has_failed log.old ≡ false }
    ensures left { OnOk result (IsLeft arena.old arena.new) }
    ensures free { OnOk result (HasNoTautology arena.new) }
    ensures tidies { (formula : Problem) (spare : ℕ) → TidiesOn L.Sink formula spare arena.old log.old result (λ _. Tidies formula spare arena.old arena.new) log.new }
{
    for place in from as usize..arena.len() {
        match drop_tautology(alloc, arena, log, ClauseRef::new(place as u32)) {
            Ok(()) => {}
            Err(fault) => return Err(fault),
        }
    }
    Ok(())
}
