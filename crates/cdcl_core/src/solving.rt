//! The search as a whole.
ghost use Rattle.std.specs.Prelude.{◌≡◌, true, false, ◌≤◌, ◌^◌, ◌∷◌, [], length, IfOk};
ghost use Rattle.cx_base.specs.Literals.{positive_of, negative_of};
ghost use Rattle.cdcl_search.specs.Logs.{HasNotFailed, told_in};
ghost use Rattle.cdcl_core.specs.Beginning.{IsAtStart};
ghost use Rattle.cdcl_core.specs.Filling.{IsFilledUpTo};
ghost use Rattle.cdcl_core.specs.Given.{AreEngines, HasGiven};
ghost use Rattle.cdcl_core.specs.LogLines.{AreTidyLines, HasNoLine};
ghost use Rattle.cdcl_core.specs.Narrowing.{SearchedIn};
ghost use Rattle.cdcl_core.specs.Results.{AnswersTo, IsFresh};

use crate::beginning::start;
use crate::filling::{Filled, fill, nothing_filled};
use crate::originals::tell_originals;
use crate::preferring::prefer_free;
use crate::recovering::all_parities;
use crate::rounds::Run;
use cdcl_search::SearchState;
use cdcl_search::logs::SearchLog;
use conflict_learn::CoreFault;
use cx_base::{Formula, Lit, LitList, LogEvent, ParityList, Values, Var};
use parity_engine::ParityEngine;
use std::alloc::{AllocError, Global};
use step_text::Sink;

/// What a search comes to.
#[derive(Drop)]
pub enum SearchOutcome {
    /// These values meet the formula.
    Sat(Values),
    /// No values meet the formula, and these assumed literals fail: no values meet its clauses and its parities with them. The log ends with a clause of their negations, or two of
    /// them clash.
    Unsat { failed: LitList },
    /// The budget of counted conflicts is used up. Some values may meet the formula or none.
    Unknown { conflicts: u64 },
}

/// How many counted conflicts a search may come to, and whether it tidies its clauses at restarts.
#[derive(Clone, Copy, Drop)]
pub(crate) struct Effort {
    pub budget: u64,
    pub tidies: bool,
}

/// Searches up to the budget, from the beginning on. It prefers variables that are no row's basic one.
fn search<P: ParityEngine, L: Sink<Item = LogEvent>>(
    log: &mut SearchLog<L>,
    state: &mut SearchState,
    engine: &mut P,
    budget: u64,
) -> Result<SearchOutcome, CoreFault>
    requires begins { IsAtStart log.old.formula.now (told_in L.Sink log.old) state.old (P.state engine.old) }
    requires budget { (1 ≤ budget) × (budget ≤ 10 ^ 18) }
    requires going { HasNotFailed L.Sink log.old }
    requires lines { state.old.tidies ≡ true → AreTidyLines 0 (L.lines log.old.sink.now) }
    ensures { AnswersTo L.Sink state.old.tidies budget log.old result log.new }
{
    let vars = log.formula.vars();
    prefer_free(log.alloc, vars, &mut state.order, engine)?;
    let mut run = Run {
        log,
        state,
        engine,
        budget,
    };
    run.search_in_rounds()
}

/// Fills the clauses of the formula into a search that has none yet, begins it over these parities, and searches up to the budget. Clauses of
/// two or more different literals are attached, those of one are on the trail at level 0, tautologies are left out.
fn fill_and_search<P: ParityEngine + Drop, L: Sink<Item = LogEvent>>(
    log: &mut SearchLog<L>,
    filled: &mut Filled,
    parities: ParityList,
    effort: Effort,
) -> Result<SearchOutcome, CoreFault>
    requires budget { (1 ≤ effort.budget) × (effort.budget ≤ 10 ^ 18) }
    requires few { length log.old.formula.now.constraints ≤ 4294967295 }
    requires given { HasGiven log.old.formula.now parities (told_in L.Sink log.old) }
    requires engines { AreEngines log.old.formula.now parities }
    requires none { IsFilledUpTo log.old.formula.now 0 filled.old.state filled.old.units.items filled.old.empty }
    requires going { HasNotFailed L.Sink log.old }
    requires lines { effort.tidies ≡ true → AreTidyLines 0 (L.lines log.old.sink.now) }
    ensures { AnswersTo L.Sink effort.tidies effort.budget log.old result log.new }
{
    fill(log.alloc, log.formula, filled)?;
    // The list goes before the search.
    let engine = {
        let parities = parities;
        start::<P, L>(log, filled, &parities, effort.tidies)?
    };
    match engine {
        Some(mut engine) => search(log, &mut filled.state, &mut engine, effort.budget),
        None => Ok(SearchOutcome::Unsat {
            failed: LitList::from_vec(Vec::new(log.alloc)),
        }),
    }
}

/// The two literals of a variable.
fn both_of(alloc: Global, variable: Var) -> Result<LitList, AllocError>
    ensures { IfOk result (λ lits. lits ≡ positive_of variable ∷ negative_of variable ∷ []) }
{
    let mut lits = Vec::new(alloc);
    lits.push(Lit::new(variable, false))?;
    lits.push(Lit::new(variable, true))?;
    Ok(LitList::from_vec(lits))
}

/// Tells the originals and the recovered parities, and searches up to the budget. Where the formula's assumptions clash nothing is done after the originals: the least variable
/// that is assumed with both signs fails.
fn search_from_start<P: ParityEngine + Drop, L: Sink<Item = LogEvent>>(
    log: &mut SearchLog<L>,
    effort: Effort,
) -> Result<SearchOutcome, CoreFault>
    requires budget { (1 ≤ effort.budget) × (effort.budget ≤ 10 ^ 18) }
    requires few { length log.old.formula.now.constraints ≤ 4294967295 }
    requires fresh { IsFresh (told_in L.Sink log.old) }
    requires going { HasNotFailed L.Sink log.old }
    requires lines { effort.tidies ≡ true → HasNoLine (L.lines log.old.sink.now) }
    ensures { AnswersTo L.Sink effort.tidies effort.budget log.old result log.new }
{
    tell_originals(log)?;
    if let Some(variable) = log.formula.clash() {
        return Ok(SearchOutcome::Unsat {
            failed: both_of(log.alloc, variable)?,
        });
    }
    let parities = all_parities(log)?;
    let mut filled = nothing_filled(log.alloc, log.formula)?;
    fill_and_search::<P, L>(log, &mut filled, parities, effort)
}

/// Searches the formula over all variables of its header, up to the budget.
pub(crate) fn search_formula<P: ParityEngine + Drop, L: Sink<Item = LogEvent>>(
    alloc: Global,
    formula: &Formula,
    effort: Effort,
    sink: &mut L,
) -> Result<SearchOutcome, CoreFault>
    requires budget { (1 ≤ effort.budget) × (effort.budget ≤ 10 ^ 18) }
    requires few { length formula.now.constraints ≤ 4294967295 }
    requires fresh { IsFresh (L.items sink.old) }
    requires going { L.has_failed sink.old ≡ false }
    requires lines { effort.tidies ≡ true → HasNoLine (L.lines sink.old) }
    ensures { SearchedIn effort.tidies L.Sink formula.now effort.budget sink.old sink.new result }
{
    let mut log = SearchLog {
        alloc,
        formula,
        sink,
    };
    search_from_start::<P, L>(&mut log, effort)
}
