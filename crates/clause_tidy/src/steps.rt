//! The steps that tidying tells. A text can have each of them.
//!
//! A call of `as_slice` whose answer is let go says to the proof what holds of each integer of a list.
ghost use Rattle.std.specs.Prelude.{[]};
ghost use Rattle.cx_base.specs.declared.steps.LogStep.TheVariants as step;
ghost use Rattle.clause_tidy.specs.Agreeing.{IsStepId};
ghost use Rattle.clause_tidy.specs.Telling.{IsStep};

use cx_base::{IntList, LogStep};
use std::alloc::Global;

/// A clause that a chain of these clauses shows.
pub(crate) fn chained(id: u64, lits: IntList, hints: IntList) -> LogStep
    requires { IsStepId id }
    ensures { IsStep (step.ClauseWithHints id lits hints) result }
{
    let _ = lits.as_slice();
    let _ = hints.as_slice();
    LogStep::ClauseWithHints(id, lits, hints)
}

/// The deletion of a clause.
pub(crate) fn deletion(alloc: Global, id: u64) -> LogStep
    requires { IsStepId id }
    ensures { IsStep (step.Delete id []) result }
{
    LogStep::Delete(id, IntList::from_vec(Vec::new(alloc)))
}
