//! Numbers that are the same in each run, and what is made of them.
use cx_base::{Lit, LitList, Var};
use std::alloc::{AllocError, Global};

/// The next number of a linear congruential sequence: its multiplier and its addend are Knuth's, of MMIX.
pub(crate) fn next(seed: &mut u64) -> u64 {
    *seed = seed
        .wrapping_mul(6_364_136_223_846_793_005)
        .wrapping_add(1_442_695_040_888_963_407);
    *seed >> 33
}

/// The literal of an integer from -1,000 to 1,000 that is not zero.
pub(crate) fn lit(integer: i64) -> Lit {
    let number = integer.unsigned_abs().clamp(1, 1_000) as u32;
    Lit::new(Var::new(number), integer < 0)
}

/// The list of the literals of integers.
pub(crate) fn lits(alloc: Global, integers: &[i64]) -> Result<LitList, AllocError> {
    let mut list = Vec::new(alloc);
    for integer in integers {
        list.push(lit(*integer))?;
    }
    Ok(LitList::from_vec(list))
}

/// The literal of a variable up to a number, or its negation.
fn some_lit(seed: &mut u64, vars: u32) -> Lit {
    let before = next(seed) % u64::from(vars.clamp(1, 1_000));
    let var = Var::new(1 + before as u32);
    Lit::new(var, next(seed) % 2 == 0)
}

/// Up to four literals over the variables up to a number; rarely none. Literals may come twice, and with their negations.
pub(crate) fn some_lits(alloc: Global, seed: &mut u64, vars: u32) -> Result<LitList, AllocError> {
    let len = match next(seed) % 16 {
        0 => 0,
        other => 1 + other % 4,
    };
    let mut list = Vec::new(alloc);
    for _ in 0..len {
        list.push(some_lit(seed, vars))?;
    }
    Ok(LitList::from_vec(list))
}
