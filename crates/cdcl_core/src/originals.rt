//! The formula's clauses and parities, with which the log begins.
ghost use Rattle.std.specs.Prelude.{◌+◌, ◌<◌, ◌≤◌, length, OnOk};
ghost use Rattle.conflict_learn.specs.Faults.{fault_in};
ghost use Rattle.cdcl_search.specs.Logs.{GoesOn, HasNotFailed, told_in};
ghost use Rattle.cdcl_core.specs.Originals.{HasBegun, HasTaken};
ghost use Rattle.cdcl_core.specs.Results.{IsFresh};

use cdcl_search::integers::integers;
use cdcl_search::logs::SearchLog;
use cdcl_search::steps::{original, original_parity};
use cdcl_search::telling::tell_step;
use conflict_learn::CoreFault;
use cx_base::{ConstraintRef, LogEvent};
use step_text::Sink;

/// How many clauses and how many parities were told.
#[derive(Clone, Copy, Drop)]
struct ToldCounts {
    clauses: u64,
    parities: u64,
}

/// Tells the constraint at a place of the formula, where it is a clause or a parity.
fn tell_original<L: Sink<Item = LogEvent>>(
    log: &mut SearchLog<L>,
    place: usize,
    counts: &mut ToldCounts,
) -> Result<(), CoreFault>
    requires few { length log.old.formula.now.constraints ≤ 4294967295 }
    requires place { place < length log.old.formula.now.constraints }
    requires taken { HasTaken L.Sink log.old place counts.old }
    requires going { HasNotFailed L.Sink log.old }
    ensures taken { OnOk result (HasTaken L.Sink log.new (place + 1) counts.new) }
    ensures log { GoesOn L.Sink log.old (fault_in result) log.new }
{
    match log.formula.item(place) {
        ConstraintRef::Clause(lits) => {
            counts.clauses += 1;
            let zs = integers(log.alloc, lits)?;
            let step = original(counts.clauses, zs);
            tell_step(log, step)
        }
        ConstraintRef::Parity(lits) => {
            counts.parities += 1;
            let zs = integers(log.alloc, lits)?;
            let step = original_parity(counts.parities, zs);
            tell_step(log, step)
        }
        ConstraintRef::Assume(_) => Ok(()),
    }
}

/// Tells the clauses and parities of the formula, in order. Clauses have ids from 1 on, and parities have theirs from 1 on.
pub(crate) fn tell_originals<L: Sink<Item = LogEvent>>(
    log: &mut SearchLog<L>,
) -> Result<(), CoreFault>
    requires few { length log.old.formula.now.constraints ≤ 4294967295 }
    requires fresh { IsFresh (told_in L.Sink log.old) }
    requires going { HasNotFailed L.Sink log.old }
    ensures begun { OnOk result (HasBegun log.new.formula.now log.new.formula.now.constraints (told_in L.Sink log.new)) }
    ensures log { GoesOn L.Sink log.old (fault_in result) log.new }
{
    let mut counts = ToldCounts {
        clauses: 0,
        parities: 0,
    };
    for place in 0..log.formula.len() {
        tell_original(log, place, &mut counts)?;
    }
    Ok(())
}
