//! The changes that tidying makes, each told to the log: a clause goes.
ghost use Rattle.std.specs.Prelude.{◌≡◌, false, ◌≢◌, ◌<◌, ℕ, [], None, IsTrue, OnOk, length, slice_set};
ghost use Rattle.cx_base.specs.Problem.{Problem};
ghost use Rattle.cx_semantics.specs.Chain.{is_inside};
ghost use Rattle.clause_arena.specs.Clauses.{IsLive, literals_at, id_at};
ghost use Rattle.clause_tidy.specs.Agreeing.{IsStepId};
ghost use Rattle.clause_tidy.specs.Answers.{MayGo, Subsumes, TidiesOn};
ghost use Rattle.clause_tidy.specs.Pairs.{AreLive};
ghost use Rattle.clause_tidy.specs.Shrinking.{Shrinks, ShrinksOnce};
ghost use Rattle.clause_tidy.specs.Tidying.{Tidies};
ghost use Rattle.clause_tidy.specs.Weights.{weight};

use crate::pairs::Pair;
use crate::steps::deletion;
use crate::telling::tell_one;
use clause_arena::Arena;
use cx_base::{ClauseRef, LogEvent};
use std::alloc::Global;
use step_text::{Sink, SinkFault};

/// Removes a clause that may go, and tells its deletion.
pub(crate) fn drop_clause<L: Sink<Item = LogEvent>>(
    alloc: Global,
    arena: &mut Arena,
    log: &mut L,
    clause: ClauseRef,
) -> Result<(), SinkFault>
    requires live { IsLive arena.old clause }
    requires id { IsStepId (id_at arena.old clause) }
    requires why { MayGo arena.old clause }
    requires going { L.has_failed log.old ≡ false }
    ensures removed { OnOk result (arena.new.clauses ≡ slice_set arena.old.clauses clause None) }
    ensures less { OnOk result (weight arena.new < weight arena.old) }
    ensures tidies { (formula : Problem) (spare : ℕ) → TidiesOn L.Sink formula spare arena.old log.old result (λ _. Tidies formula spare arena.old arena.new) log.new }
{
    let step = deletion(alloc, arena.id(clause));
    match tell_one(log, step) {
        Ok(()) => {
            arena.remove(clause);
            Ok(())
        }
        Err(fault) => Err(fault),
    }
}

/// Where the clause that goes was not learned, the one that lies inside it is kept.
fn keep_for(arena: &mut Arena, pair: &Pair)
    requires { Subsumes arena.old pair.now }
    ensures tidies { (formula : Problem) (spare : ℕ) → Tidies formula spare arena.old arena.new [] }
    ensures live { IsLive arena.new pair.now.whole }
    ensures id { id_at arena.new pair.now.whole ≡ id_at arena.old pair.now.whole }
    ensures may_go { MayGo arena.new pair.now.whole }
    ensures weight { weight arena.new ≡ weight arena.old }
    ensures shrinks { Shrinks arena.old arena.new }
    ensures references { length arena.new.clauses ≡ length arena.old.clauses }
{
    if !arena.learned(pair.whole) {
        arena.keep(pair.part);
    }
}

/// Removes a clause inside which another lies, and tells its deletion.
pub(crate) fn subsume<L: Sink<Item = LogEvent>>(
    alloc: Global,
    arena: &mut Arena,
    log: &mut L,
    pair: &Pair,
) -> Result<(), SinkFault>
    requires live { AreLive arena.old pair.now }
    requires differ { pair.now.part ≢ pair.now.whole }
    requires inside { IsTrue (is_inside (literals_at arena.old pair.now.part) (literals_at arena.old pair.now.whole)) }
    requires id { IsStepId (id_at arena.old pair.now.whole) }
    requires going { L.has_failed log.old ≡ false }
    ensures less { OnOk result (weight arena.new < weight arena.old) }
    ensures shrinks { OnOk result (ShrinksOnce arena.old arena.new) }
    ensures tidies { (formula : Problem) (spare : ℕ) → TidiesOn L.Sink formula spare arena.old log.old result (λ _. Tidies formula spare arena.old arena.new) log.new }
{
    keep_for(arena, pair);
    drop_clause(alloc, arena, log, pair.whole)
}
