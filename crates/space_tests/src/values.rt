//! The solutions of parities over at most eight variables by trying all values. A list of values is a number: variable k is
//! true where bit k - 1 is set.
use cx_base::{Lit, LitList};
use std::alloc::{AllocError, Global};

/// The bit of a variable, from 1 to 8.
pub(crate) fn bit(var: u32) -> u32 {
    1 << (var.clamp(1, 8) - 1)
}

/// Whether a variable is true.
pub(crate) fn is_true(values: u32, var: u32) -> bool {
    values & bit(var) != 0
}

/// Whether an odd number of the literals is true.
fn is_met(parity: &[Lit], values: u32) -> bool {
    let mut odd = false;
    for lit in parity {
        if is_true(values, lit.var().number()) != lit.is_negative() {
            odd = !odd;
        }
    }
    odd
}

fn are_met(parities: &[LitList], values: u32) -> bool {
    for parity in parities {
        if !is_met(parity.as_slice(), values) {
            return false;
        }
    }
    true
}

/// The values over this many variables, at most eight, that meet the parities, rising.
pub(crate) fn solutions(
    alloc: Global,
    parities: &[LitList],
    vars: u32,
) -> Result<Vec<u32>, AllocError> {
    let mut solutions = Vec::new(alloc);
    for values in 0..1u32 << vars.min(8) {
        if are_met(parities, values) {
            solutions.push(values)?;
        }
    }
    Ok(solutions)
}

/// The greatest variable in which two lists of values differ, as a bit; no bit where they are one.
fn greatest_difference(one: u32, other: u32) -> u32 {
    for place in 0..8u32 {
        if (one ^ other) >> place == 1 {
            return 1 << place;
        }
    }
    0
}

/// The greatest variables in which a solution differs from the others.
fn free_beside(solutions: &[u32], one: u32) -> u32 {
    let mut free = 0;
    for other in solutions {
        free |= greatest_difference(one, *other);
    }
    free
}

/// The variables in which two solutions differ that agree on every greater one.
pub(crate) fn free(solutions: &[u32]) -> u32 {
    let mut free = 0;
    for one in solutions {
        free |= free_beside(solutions, *one);
    }
    free
}

/// The first solution in which just these of the free variables are true.
pub(crate) fn solution_with(solutions: &[u32], free: u32, chosen: u32) -> u32 {
    for values in solutions {
        if *values & free == chosen {
            return *values;
        }
    }
    0
}
