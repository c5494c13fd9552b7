//! A search over no more variables than a formula uses.
ghost use Rattle.std.specs.Prelude.{◌≡◌, ◌≢◌, ℕ, true, false, ◌≤◌, ◌^◌, [], ◌∷◌, ◌++◌, length, IfOk, IfErr, OnOk};
ghost use Rattle.cx_base.specs.Borrowed.{constraint_of};
ghost use Rattle.cx_base.specs.Counts.{Rose};
ghost use Rattle.cx_base.specs.Problem.{literals_of};
ghost use Rattle.cx_semantics.specs.Settled.{Settled};
ghost use Rattle.conflict_learn.specs.declared.fault.CoreFault.TheVariants.{Write};
ghost use Rattle.conflict_learn.specs.Faults.{CountsAs, fault_in};
ghost use Rattle.search_steps.specs.Recovering.{SettledWithRecovered};
ghost use Rattle.cdcl_search.specs.Tells.{GivesUp, HasFailedBy, HaveLowIds, HasNoMark};
ghost use Rattle.cdcl_core.specs.LogLines.{AreInTime, GivesUpIn, HasNoLine};
ghost use Rattle.cdcl_core.specs.Narrowing.{are_up_to, narrowed, padded, padded_answer, SearchedIn, uses_few, uses_up_to};
ghost use Rattle.cdcl_core.specs.Results.{IsRightOutcome, IsRightOutcomeIn, IsFresh};
ghost use Rattle.cdcl_core.specs.declared.solving.SearchOutcome.TheVariants as outcome;

use crate::solving::{Effort, SearchOutcome, search_formula};
use conflict_learn::CoreFault;
use cx_base::{ConstraintRef, Formula, FormulaBuilder, Lit, LogEvent, Values};
use parity_engine::ParityEngine;
use std::alloc::{AllocError, Global};
use step_text::Sink;

/// A search keeps 81 to 93 bytes for each variable: a formula of fewer variables is searched as it is.
const MANY_VARIABLES: u32 = 1_000_000;

/// Whether no literal is of a variable above the last.
fn are_up_to(lits: &[Lit], last: u32) -> bool
    ensures { result ≡ are_up_to last lits.now }
{
    for lit in lits {
        if lit.var().number() > last {
            return false;
        }
    }
    true
}

/// The literals of a constraint.
fn literals_of<'a>(item: ConstraintRef<'a>) -> &'a [Lit]
    ensures { result.now ≡ literals_of (constraint_of item.entry) }
{
    match item {
        ConstraintRef::Clause(lits) => lits,
        ConstraintRef::Parity(lits) => lits,
        ConstraintRef::Assume(lits) => lits,
    }
}

/// Whether no constraint uses a variable above the last.
fn uses_up_to(formula: &Formula, last: u32) -> bool
    ensures { result ≡ uses_up_to last formula.now.constraints }
{
    for place in 0..formula.len() {
        if !are_up_to(literals_of(formula.item(place)), last) {
            return false;
        }
    }
    true
}

/// Whether a copy without the unused variables takes less than their place in a search.
fn uses_few(formula: &Formula) -> bool
    ensures { result ≡ uses_few formula.now }
{
    let vars = formula.vars();
    vars >= MANY_VARIABLES && uses_up_to(formula, (vars - MANY_VARIABLES) / 2)
}

/// Adds literals to the open constraint.
fn push_literals(builder: &mut FormulaBuilder, lits: &[Lit]) -> Result<(), AllocError>
    ensures { OnOk result (builder.new ≡ record builder.old { unfinished = builder.old.unfinished ++ lits.now }) }
{
    for lit in lits {
        builder.push(*lit)?;
    }
    Ok(())
}

/// Adds a constraint.
fn push_constraint(builder: &mut FormulaBuilder, item: ConstraintRef<'_>) -> Result<(), AllocError>
    requires { builder.old.unfinished ≡ [] }
    ensures { OnOk result (builder.new ≡ record { constraints = builder.old.constraints ++ constraint_of item.entry ∷ []; unfinished = [] }) }
{
    push_literals(builder, literals_of(item))?;
    match item {
        ConstraintRef::Clause(_) => builder.end_clause(),
        ConstraintRef::Parity(_) => builder.end_parity(),
        ConstraintRef::Assume(_) => builder.end_assume(),
    }
}

/// A copy over the variables up to the greatest that is used.
fn narrowed(alloc: Global, formula: &Formula) -> Result<Formula, AllocError>
    ensures { IfOk result (λ narrow. narrow ≡ narrowed formula.now) }
{
    let mut builder = FormulaBuilder::new(alloc);
    for place in 0..formula.len() {
        push_constraint(&mut builder, formula.item(place))?;
    }
    Ok(builder.finish(0))
}

/// The values, and false for each further variable.
fn padded(values: Values, vars: u32) -> Result<Values, AllocError>
    ensures { IfOk result (λ v. v ≡ padded vars values) }
{
    let mut values = values.into_vec();
    values.resize(vars as usize, false)?;
    Ok(Values::from_vec(values))
}

/// An answer over more variables.
fn padded_answer(answer: SearchOutcome, vars: u32) -> Result<SearchOutcome, AllocError>
    ensures { IfOk result (λ a. a ≡ padded_answer vars answer) }
{
    match answer {
        SearchOutcome::Sat(values) => Ok(SearchOutcome::Sat(padded(values, vars)?)),
        SearchOutcome::Unsat { failed } => Ok(SearchOutcome::Unsat { failed }),
        SearchOutcome::Unknown { conflicts } => Ok(SearchOutcome::Unknown { conflicts }),
    }
}

/// Searches a formula by its copy over the variables that it uses.
fn search_narrowed<P: ParityEngine + Drop, L: Sink<Item = LogEvent>>(
    alloc: Global,
    formula: &Formula,
    narrow: &Formula,
    effort: Effort,
    sink: &mut L,
) -> Result<SearchOutcome, CoreFault>
    requires narrow { narrow.now ≡ narrowed formula.now }
    requires budget { (1 ≤ effort.budget) × (effort.budget ≤ 10 ^ 18) }
    requires few { length formula.now.constraints ≤ 4294967295 }
    requires fresh { IsFresh (L.items sink.old) }
    requires going { L.has_failed sink.old ≡ false }
    requires lines { effort.tidies ≡ true → HasNoLine (L.lines sink.old) }
    ensures { SearchedIn effort.tidies L.Sink formula.now effort.budget sink.old sink.new result }
{
    // `vars` tells the proof that the literals of both are within their variables.
    let _narrow_vars = narrow.vars();
    let vars = formula.vars();
    let answer = search_formula::<P, L>(alloc, narrow, effort, sink)?;
    Ok(padded_answer(answer, vars)?)
}

/// Searches the formula, or a copy without the variables that it does not use.
fn search_used<P: ParityEngine + Drop, L: Sink<Item = LogEvent>>(
    alloc: Global,
    formula: &Formula,
    effort: Effort,
    sink: &mut L,
) -> Result<SearchOutcome, CoreFault>
    requires budget { (1 ≤ effort.budget) × (effort.budget ≤ 10 ^ 18) }
    requires few { length formula.now.constraints ≤ 4294967295 }
    requires fresh { IsFresh (L.items sink.old) }
    requires going { L.has_failed sink.old ≡ false }
    requires lines { effort.tidies ≡ true → HasNoLine (L.lines sink.old) }
    ensures { SearchedIn effort.tidies L.Sink formula.now effort.budget sink.old sink.new result }
{
    if !uses_few(formula) {
        return search_formula::<P, L>(alloc, formula, effort, sink);
    }
    let narrow = narrowed(alloc, formula)?;
    search_narrowed::<P, L>(alloc, formula, &narrow, effort, sink)
}

/// Searches for values that meet the formula, up to a budget of counted conflicts, 1 to 10^18.
///
/// Conflicts above level 0, where a decision was made, are counted. The sink is told the log: the
/// originals, the parities that are recovered from clauses, a mark and a learned clause for each counted conflict, and
/// the unit clauses of level 0. Where the formula is settled by propagation alone, the recovered parities taken as
/// parities, no conflict is counted and the answer is never unknown.
///
/// The sink has not failed before, and has not after an answer: one that has failed is not asked again.
/// It gives up where memory runs out, or where the sink failed to write; the log is right as far as it goes, also with the
/// event that was torn then.
pub fn solve_core<P: ParityEngine + Drop, L: Sink<Item = LogEvent>>(
    alloc: Global,
    formula: &Formula,
    budget: u64,
    sink: &mut L,
) -> Result<SearchOutcome, CoreFault>
    requires budget { (1 ≤ budget) × (budget ≤ 10 ^ 18) }
    requires few { length formula.now.constraints ≤ 4294967295 }
    requires fresh { IsFresh (L.items sink.old) }
    requires going { L.has_failed sink.old ≡ false }
    ensures answers { IfOk result (λ a. IsRightOutcome formula.now budget (L.items sink.new) a) }
    ensures settled { Settled formula.now → IfOk result (λ a. (conflicts : ℕ) → a ≢ outcome.Unknown conflicts) }
    ensures settled_with_recovered { SettledWithRecovered formula.now → IfOk result (λ a. (conflicts : ℕ) → a ≢ outcome.Unknown conflicts) }
    ensures unmarked { SettledWithRecovered formula.now → HasNoMark (L.items sink.new) }
    ensures ids { HaveLowIds (L.items sink.new) }
    ensures gave_up { IfErr result (λ e. GivesUp formula.now (L.torn sink.new) (L.items sink.new) e) }
    ensures write { IfErr result (λ e. e ≡ Write → Rose (L.faults sink.old) (L.faults sink.new)) }
    ensures faults { CountsAs (fault_in result) (L.faults sink.old) (L.faults sink.new) }
    ensures failed { HasFailedBy (fault_in result) (L.has_failed sink.old) (L.has_failed sink.new) }
    ensures frame { L.keeps sink.old sink.new }
{
    let effort = Effort {
        budget,
        tidies: false,
    };
    search_used::<P, L>(alloc, formula, effort, sink)
}

/// As `solve_core`, with in-processing: at each restart, in time for the next mark, the clauses are tidied, each new clause that
/// arises is told with its hints, and the sink is told the tidy line of that restart. There no live clause of two or more different
/// literals is a tautology, lies inside another, or strengthens one. A learned clause is deleted in a reduction, or at a restart where
/// another live clause lies inside it. No bound on additions is promised.
pub fn solve_tidy<P: ParityEngine + Drop, L: Sink<Item = LogEvent>>(
    alloc: Global,
    formula: &Formula,
    budget: u64,
    sink: &mut L,
) -> Result<SearchOutcome, CoreFault>
    requires budget { (1 ≤ budget) × (budget ≤ 10 ^ 18) }
    requires few { length formula.now.constraints ≤ 4294967295 }
    requires fresh { IsFresh (L.items sink.old) }
    requires lines { HasNoLine (L.lines sink.old) }
    requires going { L.has_failed sink.old ≡ false }
    ensures answers { IfOk result (λ a. IsRightOutcomeIn true formula.now budget (L.items sink.new) a) }
    ensures tidied { OnOk result (AreInTime (L.lines sink.new)) }
    ensures settled { Settled formula.now → IfOk result (λ a. (conflicts : ℕ) → a ≢ outcome.Unknown conflicts) }
    ensures settled_with_recovered { SettledWithRecovered formula.now → IfOk result (λ a. (conflicts : ℕ) → a ≢ outcome.Unknown conflicts) }
    ensures unmarked { SettledWithRecovered formula.now → HasNoMark (L.items sink.new) }
    ensures ids { HaveLowIds (L.items sink.new) }
    ensures gave_up { IfErr result (λ e. GivesUpIn true L.Sink formula.now sink.new e) }
    ensures write { IfErr result (λ e. e ≡ Write → Rose (L.faults sink.old) (L.faults sink.new)) }
    ensures faults { CountsAs (fault_in result) (L.faults sink.old) (L.faults sink.new) }
    ensures failed { HasFailedBy (fault_in result) (L.has_failed sink.old) (L.has_failed sink.new) }
    ensures frame { L.keeps_else sink.old sink.new }
{
    let effort = Effort {
        budget,
        tidies: true,
    };
    search_used::<P, L>(alloc, formula, effort, sink)
}
