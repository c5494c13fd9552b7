//! Whether an event fits what a log told before it.
ghost use Rattle.std.specs.Prelude.{◌≡◌, true, nat_eq, IfOk, MatchBool};
ghost use Rattle.std.specs.List.{list_any, list_all};
ghost use Rattle.cx_base.specs.Integers.{literals};
ghost use Rattle.cx_base.specs.Parity.{normal_form, HasOneOfEach};
ghost use Rattle.cx_semantics.specs.Marked.{IsLearned, IsKnown, IsAllowedDelete, KeepsFormula, MarkFits, StepFits, EventFits};
ghost use Rattle.plain_tests.specs.Marking.{moment_of, adds_literals, are_literals, has_literals, are_one_each, IsKnownUnit, IsAddedWhere, IsOfParity, IsKept};

use crate::constraints::clause_at;
use crate::covering::{is_part, is_reduction, some_lies_inside};
use crate::fresh::is_fresh;
use crate::judged::ends_log;
use crate::tables::literals;
use crate::told::{Told, without};
use cx_base::{Formula, IntList, Lit, LogEvent, LogStep};
use proof_rules::{Live, fill_parity_content};
use std::alloc::{AllocError, Global};
use tidy_rules::relations::has_both;

/// Whether a learned clause has a literal and is fresh.
fn is_learned(alloc: Global, told: &Told, lits: &[Lit]) -> Result<bool, AllocError>
    ensures { IfOk result (λ b. MatchBool b (IsLearned (moment_of told.now) lits.now) (¬ IsLearned (moment_of told.now) lits.now)) }
{
    if lits.is_empty() {
        return Ok(false);
    }
    is_fresh(alloc, &told.live, lits)
}

/// Whether a clause has one literal and is not fresh.
fn is_known_unit(alloc: Global, told: &Told, lits: &[Lit]) -> Result<bool, AllocError>
    ensures { IfOk result (λ b. MatchBool b (IsKnownUnit (moment_of told.now) lits.now) (¬ IsKnownUnit (moment_of told.now) lits.now)) }
{
    if lits.len() != 1 {
        return Ok(false);
    }
    Ok(!is_fresh(alloc, &told.live, lits)?)
}

/// Whether a clause that is not learned has one literal and is not fresh, or is a part of a live clause.
fn is_known(alloc: Global, told: &Told, lits: &[Lit]) -> Result<bool, AllocError>
    ensures { IfOk result (λ b. MatchBool b (IsKnown (moment_of told.now) lits.now) (¬ IsKnown (moment_of told.now) lits.now)) }
{
    if is_known_unit(alloc, told, lits)? {
        return Ok(true);
    }
    is_part(alloc, &told.live, lits)
}

/// Whether a clause that a chain shows fits: it is the learned one that is awaited, ends the log, or is known.
fn is_added(alloc: Global, told: &Told, ends: bool, integers: &IntList) -> Result<bool, AllocError>
    requires { are_literals integers.now ≡ true }
    ensures { IfOk result (λ b. MatchBool b (IsAddedWhere ends (moment_of told.now) (literals integers.now)) (¬ IsAddedWhere ends (moment_of told.now) (literals integers.now))) }
{
    let lits = literals(alloc, integers)?;
    if told.awaits {
        return is_learned(alloc, told, lits.as_slice());
    }
    if ends {
        return Ok(true);
    }
    is_known(alloc, told, lits.as_slice())
}

/// Whether a learned clause may go: many others stay, or a live clause lies inside it.
fn is_allowed_delete(alloc: Global, told: &Told, id: u64) -> Result<bool, AllocError>
    ensures { IfOk result (λ b. MatchBool b (IsAllowedDelete (moment_of told.now) id) (¬ IsAllowedDelete (moment_of told.now) id)) }
{
    if !is_reduction(alloc, told, id)? {
        return Ok(true);
    }
    let others = without(alloc, &told.learned, id)?;
    Ok(1000 + 250 * u128::from(told.reductions) <= others.len() as u128)
}

/// Whether some literal is of the variable.
fn occurs(lits: &[Lit], var: u32) -> bool
    ensures { result ≡ list_any (λ l. nat_eq l.variable var) lits.now }
{
    for lit in lits {
        if lit.var().number() == var {
            return true;
        }
    }
    false
}

/// Whether each variable is that of some literal.
fn all_occur(vars: &[u32], lits: &[Lit]) -> bool
    ensures { result ≡ list_all (λ x. list_any (λ l. nat_eq l.variable x) lits.now) vars.now }
{
    for var in vars {
        if !occurs(lits, *var) {
            return false;
        }
    }
    true
}

/// Whether the variable is among these.
fn is_listed(vars: &[u32], var: u32) -> bool
    ensures { result ≡ list_any (nat_eq var) vars.now }
{
    for other in vars {
        if var == *other {
            return true;
        }
    }
    false
}

/// Whether each literal is of one of the variables.
fn all_among(vars: &[u32], lits: &[Lit]) -> bool
    ensures { result ≡ list_all (λ l. list_any (nat_eq l.variable) vars.now) lits.now }
{
    for lit in lits {
        if !is_listed(vars, lit.var().number()) {
            return false;
        }
    }
    true
}

/// Whether there is one literal of each variable.
fn are_one_each(vars: &[u32], lits: &[Lit]) -> bool
    ensures { result ≡ are_one_each vars.now lits.now }
{
    vars.len() == lits.len() && all_occur(vars, lits) && all_among(vars, lits)
}

/// Whether there is one literal of each variable of the parity's normal form.
fn has_one_of_each(alloc: Global, parity: &[Lit], lits: &[Lit]) -> Result<bool, AllocError>
    ensures { IfOk result (λ b. MatchBool b (HasOneOfEach (normal_form parity.now).variables lits.now) (¬ HasOneOfEach (normal_form parity.now).variables lits.now)) }
{
    let mut vars = Vec::new(alloc);
    fill_parity_content(&mut vars, parity)?;
    let _right_side = vars.remove(0);
    Ok(are_one_each(&vars, lits))
}

/// Whether a clause that a parity implies fits: it has one literal of each variable of the parity.
fn is_of_parity(
    alloc: Global,
    live: &Live,
    integers: &IntList,
    source: u64,
) -> Result<bool, AllocError>
    requires { are_literals integers.now ≡ true }
    ensures { IfOk result (λ b. MatchBool b (IsOfParity live.now.parities (literals integers.now) source) (¬ IsOfParity live.now.parities (literals integers.now) source)) }
{
    let lits = literals(alloc, integers)?;
    match live.parity(source) {
        Some(parity) => has_one_of_each(alloc, parity, lits.as_slice()),
        None => Ok(false),
    }
}

/// Whether a step fits what was told before it.
fn step_fits(
    alloc: Global,
    formula: &Formula,
    told: &Told,
    step: &LogStep,
) -> Result<bool, AllocError>
    requires { adds_literals step.now ≡ true }
    ensures { IfOk result (λ b. MatchBool b (StepFits formula.now (moment_of told.now) step.now) (¬ StepFits formula.now (moment_of told.now) step.now)) }
{
    match step {
        LogStep::Clause(_, lits) => is_added(alloc, told, ends_log(formula, step), lits),
        LogStep::ClauseWithHints(_, lits, _) => {
            is_added(alloc, told, ends_log(formula, step), lits)
        }
        LogStep::ClauseOfParity(_, lits, source) => {
            is_of_parity(alloc, &told.live, lits, *source)
        }
        LogStep::Delete(id, _) => is_allowed_delete(alloc, told, *id),
        LogStep::Original(_, _)
        | LogStep::OriginalParity(_, _)
        | LogStep::Parity(_, _, _)
        | LogStep::ParityOfClauses(_, _, _)
        | LogStep::DeleteParity(_, _)
        | LogStep::Final(_, _)
        | LogStep::FinalParity(_, _)
        | LogStep::MoveClauses(_)
        | LogStep::MoveParities(_) => Ok(true),
    }
}

/// Whether a clause is a tautology, or a live clause lies inside it.
fn is_kept(alloc: Global, live: &Live, clause: &[Lit]) -> Result<bool, AllocError>
    ensures { IfOk result (λ b. MatchBool b (IsKept live.now.clauses clause.now) (¬ IsKept live.now.clauses clause.now)) }
{
    if has_both(clause) {
        return Ok(true);
    }
    some_lies_inside(alloc, live, clause)
}

/// Whether each clause of the formula is kept.
fn keeps_formula(alloc: Global, formula: &Formula, live: &Live) -> Result<bool, AllocError>
    ensures { IfOk result (λ b. MatchBool b (KeepsFormula formula.now live.now.clauses) (¬ KeepsFormula formula.now live.now.clauses)) }
{
    for place in 0..formula.clause_count() {
        if !is_kept(alloc, live, clause_at(formula, place))? {
            return Ok(false);
        }
    }
    Ok(true)
}

/// Whether a mark fits what was told before it.
fn mark_fits(alloc: Global, formula: &Formula, told: &Told) -> Result<bool, AllocError>
    ensures { IfOk result (λ b. MatchBool b (MarkFits formula.now (moment_of told.now)) (¬ MarkFits formula.now (moment_of told.now))) }
{
    if told.awaits || !told.old_clauses.is_empty() || !told.old_sums.is_empty() {
        return Ok(false);
    }
    keeps_formula(alloc, formula, &told.live)
}

/// Whether an event fits what was told before it.
pub(crate) fn event_fits(
    alloc: Global,
    formula: &Formula,
    told: &Told,
    event: &LogEvent,
) -> Result<bool, AllocError>
    requires { has_literals event.now ≡ true }
    ensures { IfOk result (λ b. MatchBool b (EventFits formula.now (moment_of told.now) event.now) (¬ EventFits formula.now (moment_of told.now) event.now)) }
{
    match event {
        LogEvent::Step(step) => step_fits(alloc, formula, told, step),
        LogEvent::Conflict(_) => mark_fits(alloc, formula, told),
    }
}
