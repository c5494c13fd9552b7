//! Clauses that are fresh among others, and clauses that are not.
ghost use Rattle.std.specs.Prelude.{◌≡◌, [], OnOk};

use crate::expecting::expect_none;
use crate::learning::lit;
use cx_base::{Formula, FormulaBuilder, Lit};
use plain_tests::fresh::is_fresh;
use proof_rules::Live;
use std::alloc::{AllocError, Global};

/// Adds a clause.
fn add(builder: &mut FormulaBuilder, integers: &[i64]) -> Result<(), AllocError>
    ensures { OnOk result (builder.new.unfinished ≡ []) }
{
    for integer in integers {
        builder.push(lit(*integer))?;
    }
    builder.end_clause()
}

fn formula(alloc: Global, clauses: &[&[i64]]) -> Result<Formula, AllocError> {
    let mut builder = FormulaBuilder::new(alloc);
    for clause in clauses {
        add(&mut builder, clause)?;
    }
    Ok(builder.finish(1))
}

fn lits(alloc: Global, integers: &[i64]) -> Result<Vec<Lit>, AllocError> {
    let mut lits = Vec::new(alloc);
    for integer in integers {
        lits.push(lit(*integer))?;
    }
    Ok(lits)
}

/// Live clauses, another one, and whether that is fresh.
type Case = (&'static [&'static [i64]], &'static [i64], bool);

/// Whether a clause is fresh among live ones.
fn is_fresh_among(alloc: Global, live: &Live, clause: &[i64]) -> Result<bool, AllocError> {
    let lits = lits(alloc, clause)?;
    is_fresh(alloc, live, &lits)
}

/// Whether a clause is fresh among those of a formula.
fn is_fresh_beside(alloc: Global, formula: &Formula, clause: &[i64]) -> Result<bool, AllocError> {
    let live = Live::of(alloc, formula)?;
    is_fresh_among(alloc, &live, clause)
}

fn is_right(alloc: Global, case: &Case) -> Result<bool, AllocError> {
    let (clauses, clause, fresh) = *case;
    let formula = formula(alloc, clauses)?;
    Ok(is_fresh_beside(alloc, &formula, clause)? == fresh)
}

/// Writes the cases that are not so.
fn put_others(alloc: Global, others: &mut String, cases: &[Case]) -> Result<(), AllocError> {
    for case in cases {
        if !is_right(alloc, case)? {
            writeln!(others, "{:?} {:?}", case.0, case.1)?;
        }
    }
    Ok(())
}

static CASES: [Case; 12] = [
    // implied, but propagation from nothing does not know it
    (&[&[1, 2], &[-1, 2]], &[2], true),
    (&[&[1, 2], &[-1, 2]], &[2, 2], true),
    (&[&[1, 2, 3]], &[1, 2], true),
    (&[&[1]], &[2], true),
    (&[], &[1], true),
    // a live clause lies inside
    (&[&[1, 2]], &[2, 1], false),
    (&[&[1, 2, 3]], &[1, 2, 3, 4], false),
    // each literal is reached from the others
    (&[&[1, 2], &[-2, 3]], &[1, 3], false),
    // one of them is not
    (&[&[1, 2], &[-2, 3], &[-2, -3]], &[1, 4], true),
    (&[&[1], &[-1]], &[2], false),
    (&[], &[1, -1], false),
    (&[], &[], false),
];

#[test]
fn worked_clauses_are_fresh_or_not(rt: HostRuntime) {
    let mut others = String::new(rt.alloc());
    let written = put_others(rt.alloc(), &mut others, &CASES);
    expect_none(&rt, written, others.as_str());
}
