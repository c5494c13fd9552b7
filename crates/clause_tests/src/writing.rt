//! Literals and formulas as the tests write them: a literal as an integer.
use cx_base::{ConstraintRef, Formula, Lit, Var};
use std::alloc::{AllocError, Global};

/// The literal of an integer from -99 to 99 that is not zero.
pub(crate) fn lit(integer: i32) -> Lit {
    let number = integer.unsigned_abs().clamp(1, 99);
    Lit::new(Var::new(number), integer < 0)
}

/// The literals of integers.
pub(crate) fn lits(alloc: Global, integers: &[i32]) -> Result<Vec<Lit>, AllocError> {
    integers.iter().map(|each| lit(*each)).collect(alloc)
}

/// The integer of a literal.
pub(crate) fn integer(lit: Lit) -> i64 {
    let number = i64::from(lit.var().number());
    if lit.is_negative() { -number } else { number }
}

/// The integers of literals.
pub(crate) fn integers(alloc: Global, lits: &[Lit]) -> Result<Vec<i64>, AllocError> {
    lits.iter().map(|each| integer(*each)).collect(alloc)
}

/// How many clauses a formula has.
fn clause_count(formula: &Formula) -> usize {
    let mut count = 0usize;
    for place in 0..formula.len() {
        if let ConstraintRef::Clause(_) = formula.item(place) {
            count = count.saturating_add(1);
        }
    }
    count
}

/// A constraint's literals, and what is in front: an `x` of a parity, and an `a` of an assumption constraint.
fn parts(item: ConstraintRef<'_>) -> (&'static str, &[Lit]) {
    match item {
        ConstraintRef::Clause(lits) => ("", lits),
        ConstraintRef::Parity(lits) => ("x ", lits),
        ConstraintRef::Assume(lits) => ("a ", lits),
    }
}

/// Appends the constraint at a place.
fn put_item(
    alloc: Global,
    formula: &Formula,
    place: usize,
    text: &mut String,
) -> Result<(), AllocError> {
    if place >= formula.len() {
        return writeln!(text, "{place}: none");
    }
    let (front, lits) = parts(formula.item(place));
    let integers = integers(alloc, lits)?;
    writeln!(text, "{place}: {front}{:?}", integers.as_slice())
}

/// How many variables, constraints and clauses a formula has, and its constraints at these places.
pub(crate) fn show(
    alloc: Global,
    formula: &Formula,
    places: &[usize],
) -> Result<String, AllocError> {
    let (vars, len) = (formula.vars(), formula.len());
    let mut text = format!(in alloc; "{vars} {len} {}\n", clause_count(formula))?;
    for place in places {
        put_item(alloc, formula, *place, &mut text)?;
    }
    Ok(text)
}
