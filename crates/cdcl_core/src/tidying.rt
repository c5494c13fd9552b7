//! Tidying the clauses of a search that restarts: none lies inside another, or strengthens it, then.
ghost use Rattle.std.specs.Prelude.{true, ◌≡◌, ◌≤◌, ◌+◌, [], ◌∷◌, List, ℕ, length, IfOk, OnOk, Option, MatchOption};
ghost use Rattle.cx_base.specs.Literals.{Literal};
ghost use Rattle.cx_base.specs.Problem.{Problem};
ghost use Rattle.cx_base.specs.declared.steps.LogEvent.{LogEvent};
ghost use Rattle.clause_arena.specs.Clauses.{learned_at};
ghost use Rattle.clause_tidy.specs.Agreeing.{AreProper};
ghost use Rattle.conflict_learn.specs.Faults.{fault_in};
ghost use Rattle.parity_engine.specs.State.{State};
ghost use Rattle.watch_lists.specs.Anew.{AreWatchable};
ghost use Rattle.cdcl_search.specs.Logs.{GoesOn, HasNotFailed, Stands, told_in};
ghost use Rattle.cdcl_search.specs.Ties.{IsWatched, SearchStands};
ghost use Rattle.step_text.specs.Sinks.{with_tidy};
ghost use Rattle.cdcl_core.specs.LogLines.{GoesOnIn};
ghost use Rattle.cdcl_core.specs.Results.{RefutesIn};
ghost use Rattle.cdcl_core.specs.Tidying.{AreTidyNow, IsAtRestart, PutsUnit, StandsBeside, StandsUnwatched, StaysAtRestart, TidiesSearch, learned_count};

use crate::ending::refute;
use crate::failing::negated;
use cdcl_search::SearchState;
use cdcl_search::logs::SearchLog;
use cdcl_search::telling::fault_of;
use clause_arena::Arena;
use clause_tidy::{TidyOf, tidy_from};
use conflict_learn::CoreFault;
use cx_base::{ClauseRef, IdList, Lit, LitList, LogEvent};
use cx_trail::{Reason, Truth};
use parity_engine::ParityEngine;
use step_text::Sink;

/// The id that a clause has while another one is shortened: above all others of a search.
const SPARE: u64 = 2_000_000_000_000_000_000;

/// Forgets the reasons of the trail, each literal of which has a unit clause: their clauses may go.
fn forget(state: &mut SearchState)
    requires { IsAtRestart state.old }
    ensures restart { IsAtRestart state.new }
    ensures unwatched { (formula : Problem) (e : State) (told : Option (List LogEvent)) → SearchStands formula state.old e [] told → StandsUnwatched formula state.new e told }
    ensures arena { state.new.arena ≡ state.old.arena }
    ensures conflicts { state.new.conflicts ≡ state.old.conflicts }
    ensures watches { (state.new.watches ≡ state.old.watches) × (state.new.trail.variables ≡ state.old.trail.variables) }
{
    state.trail.forget_reasons();
}

/// Makes the clauses of the arena tidy, together with the units that arise, and tells the log. Or the log has ended.
fn tidy_arena<P: ParityEngine, L: Sink<Item = LogEvent>>(
    log: &mut SearchLog<L>,
    state: &mut SearchState,
    engine: &P,
) -> Result<TidyOf, CoreFault>
    requires stands { StandsUnwatched log.old.formula.now state.old (P.state engine.now) (told_in L.Sink log.old) }
    requires proper { AreProper log.old.formula.now state.old.arena }
    requires restart { IsAtRestart state.old }
    requires going { HasNotFailed L.Sink log.old }
    ensures tidies { IfOk result (TidiesSearch log.new.formula.now state.new (P.state engine.now) (told_in L.Sink log.new)) }
    ensures only { state.new ≡ record state.old { arena = state.new.arena; tidy_below = state.new.tidy_below } }
    ensures log { GoesOn L.Sink log.old (fault_in result) log.new }
{
    let from = state.tidy_below as usize;
    match tidy_from(
        log.alloc,
        &mut state.arena,
        log.formula,
        SPARE,
        from,
        log.sink,
    ) {
        Ok(outcome) => {
            state.tidy_below = state.arena.len() as u32;
            Ok(outcome)
        }
        Err(fault) => Err(fault_of(fault)),
    }
}

/// Whether the clause of a reference is there and was learned.
fn is_learned(arena: &Arena, reference: ClauseRef) -> bool
    ensures { result ≡ learned_at arena.now reference }
{
    arena.is_live(reference) && arena.learned(reference)
}

/// How many learned clauses the arena holds.
fn count_learned(arena: &Arena) -> u64
    ensures { result ≡ learned_count arena.now }
{
    let mut count = 0;
    for at in 0..arena.len() {
        if is_learned(arena, ClauseRef::new(at as u32)) {
            count += 1;
        }
    }
    count
}

/// Puts a unit on the trail. False where its negation is there: then the log has ended.
fn put_unit<P: ParityEngine, L: Sink<Item = LogEvent>>(
    log: &mut SearchLog<L>,
    state: &mut SearchState,
    engine: &P,
    unit: Lit,
    id: u64,
) -> Result<bool, CoreFault>
    requires beside { (units : List Literal) × (ids : List ℕ) × StandsBeside log.old.formula.now state.old (P.state engine.now) (unit ∷ units) (id ∷ ids) (told_in L.Sink log.old) }
    requires restart { IsAtRestart state.old }
    requires going { HasNotFailed L.Sink log.old }
    ensures puts { IfOk result (λ going. (units : List Literal) (ids : List ℕ) → StandsBeside log.old.formula.now state.old (P.state engine.now) (unit ∷ units) (id ∷ ids) (told_in L.Sink log.old)
        → PutsUnit log.new.formula.now state.new (P.state engine.now) units ids (told_in L.Sink log.new) going) }
    ensures stays { OnOk result (StaysAtRestart state.old state.new) }
    ensures log { GoesOn L.Sink log.old (fault_in result) log.new }
{
    match state.trail.truth(unit) {
        Truth::True => Ok(true),
        Truth::False => {
            refute(log, state, &[unit], id)?;
            Ok(false)
        }
        Truth::Open => {
            state.units.push(id)?;
            state.trail.imply(unit, Reason::Decision);
            Ok(true)
        }
    }
}

/// Puts the units that arose on the trail. False where the negation of one is there: then the log has ended.
fn put_units<P: ParityEngine, L: Sink<Item = LogEvent>>(
    log: &mut SearchLog<L>,
    state: &mut SearchState,
    engine: &P,
    units: &[Lit],
    ids: &[u64],
) -> Result<bool, CoreFault>
    requires each { length ids.now ≡ length units.now }
    requires beside { StandsBeside log.old.formula.now state.old (P.state engine.now) units.now ids.now (told_in L.Sink log.old) }
    requires restart { IsAtRestart state.old }
    requires going { HasNotFailed L.Sink log.old }
    ensures puts { IfOk result (PutsUnit log.new.formula.now state.new (P.state engine.now) [] [] (told_in L.Sink log.new)) }
    ensures stays { OnOk result (StaysAtRestart state.old state.new) }
    ensures log { GoesOn L.Sink log.old (fault_in result) log.new }
{
    for place in 0..units.len() {
        if !put_unit(log, state, engine, units[place], ids[place])? {
            return Ok(false);
        }
    }
    Ok(true)
}

/// Goes on with the tidied clauses: counts the learned ones, attaches all anew, and puts the units that arose on the trail. False: the log has ended.
fn go_on_tidied<P: ParityEngine, L: Sink<Item = LogEvent>>(
    log: &mut SearchLog<L>,
    state: &mut SearchState,
    engine: &P,
    units: &LitList,
    ids: &IdList,
) -> Result<bool, CoreFault>
    requires each { length ids.now ≡ length units.now }
    requires beside { StandsBeside log.old.formula.now (record state.old { learned = learned_count state.old.arena }) (P.state engine.now) units.now ids.now (told_in L.Sink log.old) }
    requires watchable { AreWatchable state.old.watches.variables state.old.arena }
    requires variables { state.old.watches.variables ≡ state.old.trail.variables }
    requires restart { IsAtRestart state.old }
    requires going { HasNotFailed L.Sink log.old }
    ensures puts { IfOk result (PutsUnit log.new.formula.now state.new (P.state engine.now) [] [] (told_in L.Sink log.new)) }
    ensures watched { OnOk result (IsWatched state.new.watches state.new.arena state.new.trail) }
    ensures stays { OnOk result (IsAtRestart state.new × (state.new.conflicts ≡ state.old.conflicts) × (state.new.trail.variables ≡ state.old.trail.variables) × (state.new.arena ≡ state.old.arena)) }
    ensures log { GoesOn L.Sink log.old (fault_in result) log.new }
{
    state.learned = count_learned(&state.arena);
    state.watches.attach_anew(&state.arena)?;
    put_units(log, state, engine, units.as_slice(), ids.as_slice())
}

/// Tidies the clauses of a search that restarts. Where that ends the log, it gives the assumed literals that fail.
pub(crate) fn tidy_clauses<P: ParityEngine, L: Sink<Item = LogEvent>>(
    log: &mut SearchLog<L>,
    state: &mut SearchState,
    engine: &P,
) -> Result<Option<LitList>, CoreFault>
    requires stands { Stands P.ParityEngine L.Sink log.old state.old engine.now [] }
    requires restart { IsAtRestart state.old }
    requires going { HasNotFailed L.Sink log.old }
    ensures goes_on { IfOk result (λ o. MatchOption o (Stands P.ParityEngine L.Sink log.new state.new engine.now []) (RefutesIn state.old.tidies log.new.formula.now (state.old.conflicts + 1) (told_in L.Sink log.new))) }
    ensures tidied { IfOk result (λ o. MatchOption o (AreTidyNow (told_in L.Sink log.new)) (λ _. Unit {0})) }
    ensures stays { IfOk result (λ o. MatchOption o (IsAtRestart state.new × (state.new.conflicts ≡ state.old.conflicts) × (state.new.trail.variables ≡ state.old.trail.variables)) (λ _. Unit {0})) }
    ensures log { GoesOn L.Sink log.old (fault_in result) log.new }
{
    forget(state);
    match tidy_arena(log, state, engine)? {
        TidyOf::Ended(lits) => Ok(Some(negated(log.alloc, lits.as_slice())?)),
        TidyOf::Done(units, ids) => {
            if go_on_tidied(log, state, engine, &units, &ids)? {
                return Ok(None);
            }
            Ok(Some(LitList::from_vec(Vec::new(log.alloc))))
        }
    }
}

/// Tells the line that says that the clauses are tidy at this restart.
pub(crate) fn tell_tidied<L: Sink<Item = LogEvent>>(
    log: &mut SearchLog<L>,
    restart: u64,
) -> Result<(), CoreFault>
    requires { HasNotFailed L.Sink log.old }
    ensures told { OnOk result (L.lines log.new.sink.now ≡ with_tidy restart (L.lines log.old.sink.now)) }
    ensures items { told_in L.Sink log.new ≡ told_in L.Sink log.old }
    ensures log { GoesOnIn true L.Sink log.old (fault_in result) log.new }
{
    match log.sink.tidied(restart) {
        Ok(()) => Ok(()),
        Err(fault) => Err(fault_of(fault)),
    }
}
