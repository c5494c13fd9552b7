//! Parities that are the same in each run.
use cx_base::{Lit, LitList, Var};
use std::alloc::{AllocError, Global};

/// The next number of a linear congruential sequence: its multiplier and its addend are Knuth's, of MMIX.
pub(crate) fn next(seed: &mut u64) -> u64 {
    *seed = seed
        .wrapping_mul(6_364_136_223_846_793_005)
        .wrapping_add(1_442_695_040_888_963_407);
    *seed >> 33
}

/// The literal of a variable up to a number, or its negation.
fn some_lit(seed: &mut u64, vars: u32) -> Lit {
    let before = next(seed) % u64::from(vars.clamp(1, 1_000));
    let var = Var::new(1 + before as u32);
    Lit::new(var, next(seed) % 2 == 0)
}

/// Up to five literals over the variables up to a number; rarely none. Literals may come twice, and with their negations.
fn some_lits(alloc: Global, seed: &mut u64, vars: u32) -> Result<LitList, AllocError> {
    let len = match next(seed) % 64 {
        0 => 0,
        other => 1 + other % 5,
    };
    let mut list = Vec::new(alloc);
    for _ in 0..len {
        list.push(some_lit(seed, vars))?;
    }
    Ok(LitList::from_vec(list))
}

/// This many lists.
pub(crate) fn some_lists(
    alloc: Global,
    seed: &mut u64,
    vars: u32,
    count: u64,
) -> Result<Vec<LitList>, AllocError> {
    let mut lists = Vec::new(alloc);
    for _ in 0..count {
        lists.push(some_lits(alloc, seed, vars)?)?;
    }
    Ok(lists)
}
