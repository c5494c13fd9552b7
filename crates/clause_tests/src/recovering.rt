//! Parities recovered from clauses.
ghost use Rattle.std.specs.Prelude.{◌≡◌, [], OnOk};

use crate::expecting::expect;
use crate::writing::{integers, lit};
use cx_base::{Formula, FormulaBuilder};
use std::alloc::{AllocError, Global};
use xor_recover::{FoundParity, recover};

/// Adds a clause.
fn add(builder: &mut FormulaBuilder, integers: &[i32]) -> Result<(), AllocError>
    ensures { OnOk result (builder.new.unfinished ≡ []) }
{
    for integer in integers {
        builder.push(lit(*integer))?;
    }
    builder.end_clause()
}

/// A formula of clauses.
fn formula(alloc: Global, clauses: &[&[i32]]) -> Result<Formula, AllocError> {
    let mut builder = FormulaBuilder::new(alloc);
    for clause in clauses {
        add(&mut builder, clause)?;
    }
    Ok(builder.finish(1))
}

/// Appends a parity, and the numbers of the clauses that it comes from.
fn put(alloc: Global, found: &FoundParity, text: &mut String) -> Result<(), AllocError> {
    let parity = integers(alloc, found.parity.as_slice())?;
    writeln!(
        text,
        "{:?} by {:?}",
        parity.as_slice(),
        found.clauses.as_slice()
    )
}

fn show_all(alloc: Global, finds: &[FoundParity]) -> Result<String, AllocError> {
    let mut text = String::new(alloc);
    for found in finds {
        put(alloc, found, &mut text)?;
    }
    Ok(text)
}

/// The parities that are recovered from the clauses of a formula, each on a line.
fn told_of(alloc: Global, formula: &Formula) -> Result<String, AllocError> {
    let finds = recover(alloc, formula)?.into_vec();
    show_all(alloc, &finds)
}

/// As `told_of`, of these clauses.
fn told(alloc: Global, clauses: &[&[i32]]) -> Result<String, AllocError> {
    let formula = formula(alloc, clauses)?;
    told_of(alloc, &formula)
}

#[test]
fn two_parities_over_one_set(rt: HostRuntime) {
    let clauses: [&[i32]; 4] = [&[1, 2], &[-1, 2], &[1, -2], &[-1, -2]];
    let wanted = "[-1, 2] by [2, 3]\n[1, 2] by [1, 4]\n";
    expect(&rt, told(rt.alloc(), &clauses), wanted);
}

#[test]
fn a_parity_of_three(rt: HostRuntime) {
    let clauses: [&[i32]; 4] = [&[1, 2, 3], &[1, -2, -3], &[-1, 2, -3], &[-1, -2, 3]];
    let wanted = "[1, 2, 3] by [1, 2, 3, 4]\n";
    expect(&rt, told(rt.alloc(), &clauses), wanted);
}

#[test]
fn repeats_and_copies(rt: HostRuntime) {
    let clauses: [&[i32]; 4] = [&[2, -1, 2], &[1, -1, 2], &[-1, 2], &[-2, 1]];
    let wanted = "[-1, 2] by [1, 4]\n";
    expect(&rt, told(rt.alloc(), &clauses), wanted);
}
