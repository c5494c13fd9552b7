//! A small formula: the values that meet it, and its clauses and parities one by one.
ghost use Rattle.std.specs.Prelude.{◌≡◌, [], OnOk};

use crate::expecting::expect;
use cx_base::{ConstraintRef, Formula, FormulaBuilder, Lit, Var};
use std::alloc::{AllocError, Global};

/// Adds a parity of literals, and a clause of one.
fn add(builder: &mut FormulaBuilder, parity: &[Lit], clause: Lit) -> Result<(), AllocError>
    ensures { OnOk result (builder.new.unfinished ≡ []) }
{
    for lit in parity {
        builder.push(*lit)?;
    }
    builder.end_parity()?;
    builder.push(clause)?;
    builder.end_clause()
}

/// A parity of literals, and a clause of one, over at least one variable.
pub(crate) fn formula(alloc: Global, parity: &[Lit], clause: Lit) -> Result<Formula, AllocError> {
    let mut builder = FormulaBuilder::new(alloc);
    add(&mut builder, parity, clause)?;
    Ok(builder.finish(1))
}

/// The parity of 1, 1 and 2, and the clause of 1.
fn small(alloc: Global) -> Result<Formula, AllocError> {
    let one = Lit::new(Var::new(1), false);
    let two = Lit::new(Var::new(2), false);
    formula(alloc, &[one, one, two], one)
}

/// Appends, for each list of values, the first constraint that it does not meet, and whether it meets all.
fn add_unmet(formula: &Formula, lists: &[&[bool]], told: &mut String) -> Result<(), AllocError> {
    for values in lists {
        if values.len() != formula.vars() as usize {
            return told.push_str("other variables");
        }
        let first = formula.first_unmet(values);
        let all = formula.meets(values);
        writeln!(told, "{first:?} {all}")?;
    }
    Ok(())
}

/// Appends the first clause and the first parity, where there is one of each.
fn add_firsts(formula: &Formula, told: &mut String) -> Result<(), AllocError> {
    if formula.clause_count() != 1 || formula.parity_count() != 1 {
        return told.push_str("other numbers");
    }
    writeln!(told, "{:?} {:?}", formula.clause(1), formula.parity(1))
}

/// Appends the constraints one by one, each by its kind and how many literals it has.
fn add_items(formula: &Formula, told: &mut String) -> Result<(), AllocError> {
    for item in formula.items() {
        let (kind, len) = match item {
            ConstraintRef::Clause(lits) => ("clause", lits.len()),
            ConstraintRef::Parity(lits) => ("parity", lits.len()),
            ConstraintRef::Assume(lits) => ("assumption", lits.len()),
        };
        writeln!(told, "{kind} {len}")?;
    }
    Ok(())
}

/// Appends all that.
fn add_all(formula: &Formula, lists: &[&[bool]], told: &mut String) -> Result<(), AllocError> {
    add_unmet(formula, lists, told)?;
    add_firsts(formula, told)?;
    add_items(formula, told)
}

/// Lists of values for the small formula.
static LISTS: [&[bool]; 3] = [&[true, true], &[true, false], &[false, true]];

/// All that of a formula.
fn told_of(alloc: Global, formula: &Formula) -> Result<String, AllocError> {
    let mut told = String::new(alloc);
    add_all(formula, &LISTS, &mut told)?;
    Ok(told)
}

/// All that of the small formula.
fn told(alloc: Global) -> Result<String, AllocError> {
    let formula = small(alloc)?;
    told_of(alloc, &formula)
}

/// What is told of the small formula: repeats count in parities, clauses and parities are numbered apart, and items come in order.
const WANTED: &str = "\
None true
Some(1) false
Some(2) false
[Lit { code: 2 }] [Lit { code: 2 }, Lit { code: 2 }, Lit { code: 4 }]
parity 3
clause 1
";

#[test]
fn a_small_formula(rt: HostRuntime) {
    expect(&rt, told(rt.alloc()), WANTED);
}
