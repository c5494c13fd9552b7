//! The plain program of the definition: each clause is looked at beside each other until none bears on another. For tests.
ghost use Rattle.std.specs.Prelude.{◌≡◌, false};
ghost use Rattle.clause_tidy.specs.Agreeing.{IsStepId, AreProper};
ghost use Rattle.clause_tidy.specs.Answers.{TidiesOn};
ghost use Rattle.clause_tidy.specs.Done.{TidiesTo};

use crate::outcome::TidyOf;
use crate::tidier::Tidier;
use crate::tidying::Search;
use clause_arena::Arena;
use cx_base::{Formula, LogEvent};
use std::alloc::Global;
use step_text::{Sink, SinkFault};

/// As [`crate::tidy_from`], where no clause is known to be tidy.
pub fn tidy<L: Sink<Item = LogEvent>>(
    alloc: Global,
    arena: &mut Arena,
    formula: &Formula,
    spare: u64,
    log: &mut L,
) -> Result<TidyOf, SinkFault>
    requires proper { AreProper formula.now arena.old }
    requires spare { IsStepId spare }
    requires going { L.has_failed log.old ≡ false }
    ensures { TidiesOn L.Sink formula.now spare arena.old log.old result (TidiesTo formula.now spare arena.old arena.new) log.new }
{
    let tidier = Tidier {
        alloc,
        formula,
        spare,
        from: 0,
    };
    tidier.tidy_all(arena, log, Search::Pairs)
}
