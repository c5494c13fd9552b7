//! A worked reason, from an engine's event.
ghost use Rattle.std.specs.Prelude.{◌≤◌, IsTrue};
ghost use Rattle.std.specs.List.{AllByRecursion};
ghost use Rattle.cx_base.specs.Problem.{AreWithin};
ghost use Rattle.cx_trail.specs.Sequence.{IsOpenIn};
ghost use Rattle.xor_reason.specs.Laws.{StandsOn};

use crate::expecting::expect;
use crate::parities::{parities_of, yes};
use cx_base::{Lit, ParityList, Row, Var};
use cx_trail::{Reason, Trail};
use gauss_incremental::{Incremental, ShortFirst};
use gauss_jordan::Scratch;
use parity_engine::{ParityEngine, ParityEvent};
use std::alloc::{AllocError, Global};
use xor_reason::{ReasonOf, reason_clause};

/// Whether the trail can take the variable.
fn is_open(trail: &Trail, variable: Var) -> bool
    ensures within { IsTrue result → variable ≤ trail.now.variables }
    ensures unassigned { IsTrue result → IsOpenIn trail.now.entries variable }
{
    variable.number() <= trail.vars() && trail.value(variable).is_none()
}

/// The reason that the next event gives. An implied literal is put on the trail first.
fn reason_of_next<P: ParityEngine>(
    alloc: Global,
    engine: &mut P,
    trail: &mut Trail,
) -> Result<Option<ReasonOf>, AllocError>
    requires { StandsOn (P.state engine.old) trail.old }
{
    match engine.next_event() {
        ParityEvent::Quiet => Ok(None),
        ParityEvent::Implied(literal, row) => {
            if !is_open(trail, literal.var()) {
                return Ok(None);
            }
            trail.imply(literal, Reason::Row(row));
            let reason = reason_clause(alloc, &*engine, row, Some(literal), trail)?;
            Ok(Some(reason))
        }
        ParityEvent::Conflict(row) => {
            let reason = reason_clause(alloc, &*engine, row, None, trail)?;
            Ok(Some(reason))
        }
    }
}

/// The reason of what follows from variables 1 and 2 at level 1, where nothing follows before.
fn reason_from_two<P: ParityEngine + Drop>(
    alloc: Global,
    parities: &ParityList,
) -> Result<Option<ReasonOf>, AllocError>
    requires { AllByRecursion (AreWithin 3) parities.now }
{
    let mut engine = P::make(alloc, 3, parities)?;
    let mut trail = Trail::make(alloc, 3)?;
    match engine.next_event() {
        ParityEvent::Quiet => {}
        ParityEvent::Implied(_, _) | ParityEvent::Conflict(_) => return Ok(None),
    }
    engine.push_level();
    engine.assign(Var::new(1), true);
    trail.decide(Lit::new(Var::new(1), false));
    if !is_open(&trail, Var::new(2)) {
        return Ok(None);
    }
    engine.assign(Var::new(2), true);
    trail.imply(Lit::new(Var::new(2), false), Reason::Row(Row::new(0)));
    reason_of_next(alloc, &mut engine, &mut trail)
}

/// Whether the reason is the parity itself, as a parity and as a clause.
fn is_triple(reason: &ReasonOf) -> bool {
    let clause = [
        Lit::new(Var::new(1), true),
        Lit::new(Var::new(2), true),
        yes(3),
    ];
    reason.sources.as_slice() == [1].as_slice()
        && reason.parity.as_slice() == [yes(1), yes(2), yes(3)].as_slice()
        && reason.clause.as_slice() == clause.as_slice()
}

/// Whether that reason follows from variables 1 and 2 of the parity.
fn gives_triple<P: ParityEngine + Drop>(alloc: Global) -> Result<bool, AllocError> {
    let parities = parities_of(alloc, 3, &[&[1, 2, 3]])?;
    match reason_from_two::<P>(alloc, &parities)? {
        Some(reason) => Ok(is_triple(&reason)),
        None => Ok(false),
    }
}

/// As `gives_triple`, of each engine.
fn all_give_triple(alloc: Global) -> Result<(bool, bool, bool), AllocError> {
    let scratch = gives_triple::<Scratch>(alloc)?;
    let incremental = gives_triple::<Incremental>(alloc)?;
    let short_first = gives_triple::<ShortFirst>(alloc)?;
    Ok((scratch, incremental, short_first))
}

#[test]
fn two_of_three_are_false(rt: HostRuntime) {
    expect(&rt, all_give_triple(rt.alloc()), &(true, true, true));
}
