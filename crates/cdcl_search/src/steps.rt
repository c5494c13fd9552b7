//! The steps that the search tells. A text can have each of them.
//!
//! A call of `as_slice` whose answer is let go tells the proof what holds of each integer of a list.
ghost use Rattle.std.specs.Prelude.{[]};
ghost use Rattle.std.specs.List.{AllByRecursion};
ghost use Rattle.cx_base.specs.declared.steps.LogStep.TheVariants as step;
ghost use Rattle.cdcl_search.specs.Tells.{IsId, IsStep};

use cx_base::{IdList, IntList, LogStep};
use std::alloc::Global;

/// A clause of the formula.
pub fn original(id: u64, lits: IntList) -> LogStep
    requires { IsId id }
    ensures { IsStep (step.Original id lits) result }
{
    let _ = lits.as_slice();
    LogStep::Original(id, lits)
}

/// A parity of the formula.
pub fn original_parity(id: u64, lits: IntList) -> LogStep
    requires { IsId id }
    ensures { IsStep (step.OriginalParity id lits) result }
{
    let _ = lits.as_slice();
    LogStep::OriginalParity(id, lits)
}

/// A parity that these clauses imply.
pub fn recovered_parity(id: u64, lits: IntList, clauses: IdList) -> LogStep
    requires id { IsId id }
    requires clauses { AllByRecursion IsId clauses }
    ensures { IsStep (step.ParityOfClauses id lits clauses) result }
{
    let _ = lits.as_slice();
    LogStep::ParityOfClauses(id, lits, clauses)
}

/// A clause that a chain of these clauses shows.
pub fn chained(id: u64, lits: IntList, hints: IntList) -> LogStep
    requires { IsId id }
    ensures { IsStep (step.ClauseWithHints id lits hints) result }
{
    let _ = lits.as_slice();
    let _ = hints.as_slice();
    LogStep::ClauseWithHints(id, lits, hints)
}

/// A sum of parities.
pub fn sum(id: u64, lits: IntList, sources: IdList) -> LogStep
    requires id { IsId id }
    requires sources { AllByRecursion IsId sources }
    ensures { IsStep (step.Parity id lits sources) result }
{
    let _ = lits.as_slice();
    LogStep::Parity(id, lits, sources)
}

/// A clause that a parity implies.
pub fn clause_of_sum(id: u64, lits: IntList, source: u64) -> LogStep
    requires id { IsId id }
    requires source { IsId source }
    ensures { IsStep (step.ClauseOfParity id lits source) result }
{
    let _ = lits.as_slice();
    LogStep::ClauseOfParity(id, lits, source)
}

/// The deletion of a clause.
pub fn deletion(alloc: Global, id: u64) -> LogStep
    requires { IsId id }
    ensures { IsStep (step.Delete id []) result }
{
    LogStep::Delete(id, IntList::from_vec(Vec::new(alloc)))
}

/// The deletion of a sum.
pub(crate) fn deletion_of_sum(alloc: Global, id: u64) -> LogStep
    requires { IsId id }
    ensures { IsStep (step.DeleteParity id []) result }
{
    LogStep::DeleteParity(id, IntList::from_vec(Vec::new(alloc)))
}
