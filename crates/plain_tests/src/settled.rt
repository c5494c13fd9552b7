//! Whether propagation decides a formula before any decision, by a look at each clause and at all values.
ghost use Rattle.std.specs.Prelude.{◌≡◌, ◌≤◌, ◌||◌, ◌++◌, ◌∷◌, [], false, get_or, IfOk, MatchBool, MatchOption};
ghost use Rattle.std.specs.List.{list_any, list_all, AllByRecursion};
ghost use Rattle.cx_base.specs.Literals.{literal_true, negate, same_literal};
ghost use Rattle.cx_base.specs.Problem.{AreWithin, clauses_of, parities_of, parity_met};
ghost use Rattle.cx_base.specs.declared.literal.TheConstants.{MAX_VARIABLE};
ghost use Rattle.cx_semantics.specs.Chain.{has_literal};
ghost use Rattle.cx_semantics.specs.Fresh.{is_falsified};
ghost use Rattle.cx_semantics.specs.Settled.{Settled, SettledBy};
ghost use Rattle.plain_tests.specs.Settling.{leaves_only, are_solved, some_solve, follows, decides, is_decided, both_of_each, IsNext, IsLeast};

use crate::constraints::{clause_at, parity_at};
use crate::fresh::others_of;
use crate::recovered::with;
use cx_base::{Formula, Lit, LitList, Var};
use std::alloc::{AllocError, Global};
use tidy_rules::relations::has;

/// The value at a place; past the end it is false.
fn value_at(values: &[bool], place: usize) -> bool
    ensures { result ≡ get_or values.now place false }
{
    place < values.len() && values[place]
}

/// Whether the literal is true.
fn is_true(values: &[bool], lit: Lit) -> bool
    ensures { result ≡ literal_true values.now lit }
{
    value_at(values, lit.var().index()) != lit.is_negative()
}

/// Whether all literals are true.
fn all_true(values: &[bool], lits: &[Lit]) -> bool
    ensures { result ≡ list_all (literal_true values.now) lits.now }
{
    for lit in lits {
        if !is_true(values, *lit) {
            return false;
        }
    }
    true
}

/// Whether the parity is met.
fn is_met(values: &[bool], parity: &[Lit]) -> bool
    ensures { result ≡ parity_met values.now parity.now }
{
    let mut odd = false;
    for lit in parity {
        odd = odd != is_true(values, *lit);
    }
    odd
}

/// Whether all parities are met.
fn all_met(values: &[bool], parities: &[LitList]) -> bool
    ensures { result ≡ list_all (parity_met values.now) parities.now }
{
    for parity in parities {
        if !is_met(values, parity.as_slice()) {
            return false;
        }
    }
    true
}

/// Whether all literals of the part are true and all parities are met.
fn are_solved(parities: &[LitList], part: &[Lit], values: &[bool]) -> bool
    ensures { result ≡ are_solved parities.now part.now values.now }
{
    all_true(values, part) && all_met(values, parities)
}

/// The values and one more.
fn with_value(alloc: Global, values: &[bool], value: bool) -> Result<Vec<bool>, AllocError>
    ensures { IfOk result (λ more. more.items ≡ values.now ++ value ∷ []) }
{
    let mut more = Vec::from_slice(alloc, values)?;
    more.push(value)?;
    Ok(more)
}

/// Whether this many more values can follow these so that the literals are true and the parities are met.
fn some_solve(
    alloc: Global,
    parities: &[LitList],
    part: &[Lit],
    values: &[bool],
    left: u32,
) -> Result<bool, AllocError>
    ensures { IfOk result (λ b. b ≡ some_solve parities.now part.now values.now left) }
{
    if left == 0 {
        return Ok(are_solved(parities, part, values));
    }
    let low = with_value(alloc, values, false)?;
    if some_solve(alloc, parities, part, &low, left - 1)? {
        return Ok(true);
    }
    let high = with_value(alloc, values, true)?;
    some_solve(alloc, parities, part, &high, left - 1)
}

/// Whether some values solve the parities with these literals.
fn are_consistent(
    alloc: Global,
    parities: &[LitList],
    part: &[Lit],
    vars: u32,
) -> Result<bool, AllocError>
    ensures { IfOk result (λ b. b ≡ some_solve parities.now part.now [] vars) }
{
    let none = Vec::new(alloc);
    some_solve(alloc, parities, part, &none, vars)
}

/// Whether each literal of the clause is this one, or known to be false.
fn has_no_other(known: &[Lit], lit: Lit, clause: &[Lit]) -> bool
    ensures { result ≡ list_all (λ m. has_literal known.now (negate m) || same_literal lit m) clause.now }
{
    for other in clause {
        if !has(known, other.negate()) && lit != *other {
            return false;
        }
    }
    true
}

/// Whether just this literal of the clause is left.
fn leaves_only(known: &[Lit], lit: Lit, clause: &[Lit]) -> bool
    ensures { result ≡ leaves_only known.now lit clause.now }
{
    has(clause, lit) && !has(known, lit.negate()) && has_no_other(known, lit, clause)
}

/// Whether just this literal of some clause is left.
fn is_left_alone(formula: &Formula, known: &[Lit], lit: Lit) -> bool
    ensures { result ≡ list_any (leaves_only known.now lit) (clauses_of formula.now.constraints) }
{
    for place in 0..formula.clause_count() {
        if leaves_only(known, lit, clause_at(formula, place)) {
            return true;
        }
    }
    false
}

/// Whether the literal follows from what is known.
fn follows(
    alloc: Global,
    formula: &Formula,
    parities: &[LitList],
    known: &[Lit],
    lit: Lit,
) -> Result<bool, AllocError>
    ensures { IfOk result (λ b. b ≡ follows formula.now parities.now known.now lit) }
{
    if is_left_alone(formula, known, lit) {
        return Ok(true);
    }
    let part = with(alloc, known, lit.negate())?;
    Ok(!are_consistent(alloc, parities, &part, formula.vars())?)
}

/// The first of these literals that follows from what is known.
fn first_following(
    alloc: Global,
    formula: &Formula,
    parities: &[LitList],
    known: &[Lit],
    waiting: &[Lit],
) -> Result<Option<Lit>, AllocError>
    ensures { IfOk result (λ o. MatchOption o (list_any (follows formula.now parities.now known.now) waiting.now ≡ false) (IsNext formula.now parities.now known.now waiting.now)) }
{
    for lit in waiting {
        if follows(alloc, formula, parities, known, *lit)? {
            return Ok(Some(*lit));
        }
    }
    Ok(None)
}

/// Both literals of each variable.
fn both_of_each(alloc: Global, vars: u32) -> Result<Vec<Lit>, AllocError>
    requires { vars ≤ MAX_VARIABLE }
    ensures { IfOk result (λ lits. lits.items ≡ both_of_each vars) }
{
    let mut lits = Vec::new(alloc);
    for place in 0..vars {
        let var = Var::new(place + 1);
        lits.push(Lit::new(var, false))?;
        lits.push(Lit::new(var, true))?;
    }
    Ok(lits)
}

/// All that propagation knows.
fn all_known(alloc: Global, formula: &Formula, parities: &[LitList]) -> Result<Vec<Lit>, AllocError>
    requires { AllByRecursion (AreWithin formula.now.variables) parities.now }
    ensures least { IfOk result (λ known. IsLeast formula.now parities.now known.items) }
    ensures within { IfOk result (λ known. AreWithin formula.now.variables known.items) }
{
    let mut known = Vec::new(alloc);
    let mut waiting = both_of_each(alloc, formula.vars())?;
    while let Some(lit) = first_following(alloc, formula, parities, &known, &waiting)? {
        known.push(lit)?;
        waiting = others_of(alloc, &waiting, lit)?;
    }
    Ok(known)
}

/// Whether all literals of the clause are known to be false.
fn is_falsified(known: &[Lit], clause: &[Lit]) -> bool
    ensures { result ≡ is_falsified known.now clause.now }
{
    for lit in clause {
        if !has(known, lit.negate()) {
            return false;
        }
    }
    true
}

/// Whether some clause is falsified.
fn some_is_falsified(formula: &Formula, known: &[Lit]) -> bool
    ensures { result ≡ list_any (is_falsified known.now) (clauses_of formula.now.constraints) }
{
    for place in 0..formula.clause_count() {
        if is_falsified(known, clause_at(formula, place)) {
            return true;
        }
    }
    false
}

/// Whether a literal of each variable is known.
fn decides(vars: u32, known: &[Lit]) -> bool
    requires { vars ≤ MAX_VARIABLE }
    ensures { result ≡ decides vars known.now }
{
    for place in 0..vars {
        let var = Var::new(place + 1);
        if !has(known, Lit::new(var, false)) && !has(known, Lit::new(var, true)) {
            return false;
        }
    }
    true
}

/// Whether a clause is falsified, the parities have no solution, or each variable is decided.
fn is_decided(
    alloc: Global,
    formula: &Formula,
    parities: &[LitList],
    known: &[Lit],
) -> Result<bool, AllocError>
    ensures { IfOk result (λ b. b ≡ is_decided formula.now parities.now known.now) }
{
    if some_is_falsified(formula, known) {
        return Ok(true);
    }
    if !are_consistent(alloc, parities, known, formula.vars())? {
        return Ok(true);
    }
    Ok(decides(formula.vars(), known))
}

/// Whether these parities settle the formula.
pub fn is_settled_by(
    alloc: Global,
    formula: &Formula,
    parities: &[LitList],
) -> Result<bool, AllocError>
    requires { AllByRecursion (AreWithin formula.now.variables) parities.now }
    ensures { IfOk result (λ b. MatchBool b (SettledBy formula.now parities.now) (¬ SettledBy formula.now parities.now)) }
{
    let known = all_known(alloc, formula, parities)?;
    is_decided(alloc, formula, parities, &known)
}

/// Copies of the formula's parities.
fn parities(alloc: Global, formula: &Formula) -> Result<Vec<LitList>, AllocError>
    ensures { IfOk result (λ lists. lists.items ≡ parities_of formula.now.constraints) }
{
    let mut lists = Vec::new(alloc);
    for place in 0..formula.parity_count() {
        let lits = Vec::from_slice(alloc, parity_at(formula, place))?;
        lists.push(LitList::from_vec(lits))?;
    }
    Ok(lists)
}

/// Whether the formula is settled: whether propagation over its clauses and what its parities force decides it before any decision.
pub fn is_settled(alloc: Global, formula: &Formula) -> Result<bool, AllocError>
    ensures { IfOk result (λ b. MatchBool b (Settled formula.now) (¬ Settled formula.now)) }
{
    // that variables are within the range, which this call tells the proof
    let _vars = formula.vars();
    let parities = parities(alloc, formula)?;
    is_settled_by(alloc, formula, &parities)
}
