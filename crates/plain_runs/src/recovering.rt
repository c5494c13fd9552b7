//! Parities recovered from drawn formulas: just those that the plain program finds.
use crate::drawing::planted_formula;
use crate::expecting::expect_none;
use cx_base::{Formula, Lit, Var};
use plain_tests::recovered::is_recovered;
use std::alloc::{AllocError, Global};
use xor_recover::{FoundParity, recover};

/// The most variables of a drawn formula.
const MOST: u32 = 10;

/// The variables whose bits are set, rising.
fn vars_of(alloc: Global, mask: u32) -> Result<Vec<Var>, AllocError> {
    let mut vars = Vec::new(alloc);
    for place in 0..MOST {
        if (mask >> place) & 1 == 1 {
            vars.push(Var::new(1 + place))?;
        }
    }
    Ok(vars)
}

/// The bits of the literals' variables.
fn mask_of(lits: &[Lit]) -> u32 {
    let mut mask = 0;
    for lit in lits {
        mask |= 1u32 << (lit.var().index() as u32 % 32);
    }
    mask
}

/// Whether an even number of the literals is negative.
fn right_of(lits: &[Lit]) -> bool {
    let mut right = true;
    for lit in lits {
        right = right != lit.is_negative();
    }
    right
}

/// Whether one of the finds is the parity of these variables with this right side.
fn is_found(finds: &[FoundParity], mask: u32, right: bool) -> bool {
    for find in finds {
        let lits = find.parity.as_slice();
        if mask_of(lits) == mask && right_of(lits) == right {
            return true;
        }
    }
    false
}

/// Writes the parities of these variables that only one of the two finds. How many both do.
fn put_other(
    alloc: Global,
    others: &mut String,
    formula: &Formula,
    finds: &[FoundParity],
    mask: u32,
) -> Result<usize, AllocError> {
    let vars = vars_of(alloc, mask)?;
    let mut both = 0usize;
    for right in [false, true] {
        let plain = is_recovered(alloc, formula, &vars, right)?;
        if plain != is_found(finds, mask, right) {
            writeln!(others, "{mask:b} {right}")?;
        } else if plain {
            both = both.saturating_add(1);
        }
    }
    Ok(both)
}

/// Compares all parities over a formula's variables. How many both find; writes it if these are not all that are recovered.
fn put_others(alloc: Global, others: &mut String, formula: &Formula) -> Result<usize, AllocError> {
    let finds = recover(alloc, formula)?.into_vec();
    let mut both = 0usize;
    for mask in 0..1u32 << formula.vars().min(MOST) {
        both = both.saturating_add(put_other(alloc, others, formula, &finds, mask)?);
    }
    if both != finds.len() {
        writeln!(others, "{both} of {}", finds.len())?;
    }
    Ok(both)
}

/// Compares them for formulas from these seeds. How many parities both find.
fn put_others_of(alloc: Global, others: &mut String, seeds: u64) -> Result<usize, AllocError> {
    let mut both = 0usize;
    for seed in 1..=seeds {
        let formula = planted_formula(alloc, seed, 6 + (seed % 5) as u32)?;
        both = both.saturating_add(put_others(alloc, others, &formula)?);
    }
    Ok(both)
}

/// As `put_others_of`. Writes too how many both find, if these are few.
fn put_others_and_count(alloc: Global, others: &mut String, seeds: u64) -> Result<(), AllocError> {
    let both = put_others_of(alloc, others, seeds)?;
    if both > 40 {
        return Ok(());
    }
    writeln!(others, "{both}")
}

#[test]
fn just_the_parities_that_stand_are_recovered(rt: HostRuntime) {
    let mut others = String::new(rt.alloc());
    let written = put_others_and_count(rt.alloc(), &mut others, 30);
    expect_none(&rt, written, others.as_str());
}
