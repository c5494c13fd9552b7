//! The clauses of the formula are put into a search.
ghost use Rattle.std.specs.Prelude.{◌+◌, ◌<◌, ◌≤◌, length, take, IfOk, OnOk};
ghost use Rattle.cx_base.specs.Problem.{Problem, clauses_of};
ghost use Rattle.cx_base.specs.declared.literal.TheConstants.{MAX_VARIABLE};
ghost use Rattle.watch_lists.specs.Watching.{Fits};
ghost use Rattle.watch_lists.specs.Attaching.{CanBeWatched};
ghost use Rattle.cdcl_core.specs.Filling.{IsEmpty, IsFilledUpTo, IsFilled, IsNext, TakesNext, Attaches};

use crate::clauses::{different, has_both};
use cdcl_search::SearchState;
use clause_arena::Arena;
use cx_base::{ConstraintRef, Formula, Lit};
use cx_trail::Trail;
use search_policy::Order;
use std::alloc::{AllocError, Global};
use watch_lists::Watches;

/// A clause of the formula of one literal, and its number.
#[derive(Clone, Copy, Drop)]
pub(crate) struct Single {
    pub literal: Lit,
    pub number: u64,
}

/// A search in which the clauses of several literals are attached, and the others wait.
#[derive(Drop)]
pub(crate) struct Filled {
    pub state: SearchState,
    /// The clauses of one literal.
    pub units: Vec<Single>,
    /// The number of a clause without a literal.
    pub empty: Option<u64>,
}

/// A search over this many variables, before its first clause.
fn empty_state(alloc: Global, vars: u32) -> Result<SearchState, AllocError>
    requires { vars ≤ MAX_VARIABLE }
    ensures { IfOk result (IsEmpty vars) }
{
    let phases = vec![in alloc; false; vars as usize]?;
    let trail = Trail::make(alloc, vars)?;
    let order = Order::make(alloc, vars)?;
    let watches = Watches::make(alloc, vars)?;
    Ok(SearchState {
        trail,
        arena: Arena::make(alloc),
        watches,
        order,
        phases,
        units: Vec::new(alloc),
        next: 1,
        given: 0,
        conflicts: 0,
        learned: 0,
        reductions: 0,
        tidies: false,
        tidy_below: 0,
    })
}

/// Attaches a clause of the formula.
fn attach(state: &mut SearchState, lits: &[Lit], number: u64) -> Result<(), AllocError>
    requires fits { Fits state.old.watches state.old.arena state.old.trail }
    requires watched { CanBeWatched state.old.watches.variables state.old.trail lits.now }
    ensures { OnOk result (Attaches state.old state.new lits.now number) }
{
    let reference = state.arena.add(lits, number, 0, false)?;
    state.watches.attach(&state.arena, &state.trail, reference)
}

/// Takes the next clause of the formula, whose different literals these are.
fn take_clause(filled: &mut Filled, lits: &[Lit]) -> Result<(), AllocError>
    requires few { filled.old.state.next ≤ 4294967295 }
    requires is_next { (formula : Problem) × IsNext formula filled.old lits.now }
    ensures { OnOk result (TakesNext filled.old lits.now filled.new) }
{
    let number = filled.state.next;
    filled.state.next = number + 1;
    if has_both(lits) {
        return Ok(());
    }
    if lits.len() > 1 {
        return attach(&mut filled.state, lits, number);
    }
    if lits.is_empty() {
        filled.empty = Some(number);
        return Ok(());
    }
    filled.units.push(Single {
        literal: lits[0],
        number,
    })?;
    Ok(())
}

/// Takes the constraint at a place of the formula; parities and assumptions are passed over.
fn take_item(
    alloc: Global,
    formula: &Formula,
    filled: &mut Filled,
    place: usize,
) -> Result<(), AllocError>
    requires few { length formula.now.constraints ≤ 4294967295 }
    requires place { place < length formula.now.constraints }
    requires filled { IsFilledUpTo formula.now (length (clauses_of (take place formula.now.constraints))) filled.old.state filled.old.units.items filled.old.empty }
    ensures { OnOk result (IsFilledUpTo formula.now (length (clauses_of (take (place + 1) formula.now.constraints))) filled.new.state filled.new.units.items filled.new.empty) }
{
    match formula.item(place) {
        ConstraintRef::Clause(lits) => {
            let lits = different(alloc, lits)?;
            take_clause(filled, &lits)
        }
        ConstraintRef::Parity(_) => Ok(()),
        ConstraintRef::Assume(_) => Ok(()),
    }
}

/// A search over the variables of a formula, before its first clause.
pub(crate) fn nothing_filled(alloc: Global, formula: &Formula) -> Result<Filled, AllocError>
    ensures { IfOk result (λ f. IsFilledUpTo formula.now 0 f.state f.units.items f.empty) }
{
    let state = empty_state(alloc, formula.vars())?;
    Ok(Filled {
        state,
        units: Vec::new(alloc),
        empty: None,
    })
}

/// Attaches the clauses of two or more different literals, and gives those of one; tautologies are left out.
///
/// It fails where memory runs out, or where the clauses are more than an arena holds.
pub(crate) fn fill(alloc: Global, formula: &Formula, filled: &mut Filled) -> Result<(), AllocError>
    requires few { length formula.now.constraints ≤ 4294967295 }
    requires none { IsFilledUpTo formula.now 0 filled.old.state filled.old.units.items filled.old.empty }
    ensures { OnOk result (IsFilled formula.now filled.new.state filled.new.units.items filled.new.empty) }
{
    for place in 0..formula.len() {
        take_item(alloc, formula, filled, place)?;
    }
    Ok(())
}
