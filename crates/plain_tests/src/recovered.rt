//! Whether a formula has a parity as clauses, by a look for each of them.
ghost use Rattle.std.specs.Prelude.{◌≡◌, ◌++◌, ◌∷◌, [], IfOk, MatchBool};
ghost use Rattle.cx_base.specs.Literals.{differ};
ghost use Rattle.cx_base.specs.declared.literal.TheConstants.{MAX_VARIABLE};
ghost use Rattle.parity_engine.specs.Written.{AreRising};
ghost use Rattle.cx_semantics.specs.Chain.{same_literals};
ghost use Rattle.cx_semantics.specs.Recovered.{excluded_sum};
ghost use Rattle.plain_tests.specs.Standing.{stands, all_stand, IsRecovered};

use crate::constraints::clause_at;
use cx_base::{Formula, Lit, Var};
use std::alloc::{AllocError, Global};
use tidy_rules::relations::lies_inside;

/// Whether two clauses have the same literals.
fn have_same(lits: &[Lit], others: &[Lit]) -> bool
    ensures { result ≡ same_literals lits.now others.now }
{
    lies_inside(lits, others) && lies_inside(others, lits)
}

/// Whether a clause of the formula has just these literals.
pub(crate) fn stands(formula: &Formula, lits: &[Lit]) -> bool
    ensures { result ≡ stands formula.now lits.now }
{
    for place in 0..formula.clause_count() {
        if have_same(lits, clause_at(formula, place)) {
            return true;
        }
    }
    false
}

/// Whether the sum that the literals exclude is not the right one.
fn is_wrong(right: bool, lits: &[Lit]) -> bool
    ensures { result ≡ differ right (excluded_sum lits.now) }
{
    let mut wrong = right;
    for lit in lits {
        wrong = wrong != lit.is_negative();
    }
    wrong
}

/// The literals and one more.
pub(crate) fn with(alloc: Global, lits: &[Lit], lit: Lit) -> Result<Vec<Lit>, AllocError>
    ensures { IfOk result (λ more. more.items ≡ lits.now ++ lit ∷ []) }
{
    let mut more = Vec::from_slice(alloc, lits)?;
    more.push(lit)?;
    Ok(more)
}

/// Whether the formula has each clause of these literals and one of each variable that excludes a wrong sum.
fn all_stand(
    alloc: Global,
    formula: &Formula,
    right: bool,
    chosen: &[Lit],
    vars: &[Var],
) -> Result<bool, AllocError>
    ensures { IfOk result (λ b. b ≡ all_stand formula.now right chosen.now vars.now) }
{
    match vars {
        [] => Ok(!is_wrong(right, chosen) || stands(formula, chosen)),
        [first, rest @ ..] => {
            let positive = with(alloc, chosen, Lit::new(*first, false))?;
            if !all_stand(alloc, formula, right, &positive, rest)? {
                return Ok(false);
            }
            let negative = with(alloc, chosen, Lit::new(*first, true))?;
            all_stand(alloc, formula, right, &negative, rest)
        }
    }
}

/// Whether the variables rise, from a least number.
fn are_rising(least: u32, vars: &[Var]) -> bool
    ensures { MatchBool result (AreRising least MAX_VARIABLE vars.now) (¬ AreRising least MAX_VARIABLE vars.now) }
{
    match vars {
        [] => true,
        [first, rest @ ..] => {
            if first.number() < least {
                return false;
            }
            are_rising(first.number() + 1, rest)
        }
    }
}

/// Whether the variables rise and their parity with this right side is recovered from the formula: whether each clause that
/// excludes an assignment of two to six variables with the wrong sum is in it.
pub fn is_recovered(
    alloc: Global,
    formula: &Formula,
    vars: &[Var],
    right: bool,
) -> Result<bool, AllocError>
    ensures { IfOk result (λ b. MatchBool b (IsRecovered formula.now vars.now right) (¬ IsRecovered formula.now vars.now right)) }
{
    if vars.len() < 2 || 6 < vars.len() {
        return Ok(false);
    }
    if !are_rising(1, vars) {
        return Ok(false);
    }
    let none = Vec::new(alloc);
    all_stand(alloc, formula, right, &none, vars)
}
