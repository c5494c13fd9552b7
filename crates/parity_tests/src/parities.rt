//! Parities to try the engines on.
ghost use Rattle.std.specs.Prelude.{◌≡◌, ◌≤◌, ◌<◌, IfOk, false};
ghost use Rattle.std.specs.List.{AllByRecursion};
ghost use Rattle.cx_base.specs.Problem.{AreWithin};
ghost use Rattle.cx_base.specs.declared.literal.TheConstants.{MAX_VARIABLE};

use cx_base::{Lit, LitList, ParityList, Var};
use std::alloc::{AllocError, Global};

/// The positive literal of the variable.
pub(crate) fn yes(number: u32) -> Lit
    requires low { 1 ≤ number }
    requires high { number ≤ MAX_VARIABLE }
    ensures { result ≡ record { variable = number; negative = false } }
{
    Lit::new(Var::new(number), false)
}

/// The variable of this number, or the nearest one of this many.
fn nearest(number: u32, vars: u32) -> u32
    requires { 1 ≤ vars }
    ensures low { 1 ≤ result }
    ensures high { result ≤ vars }
{
    number.max(1).min(vars)
}

/// The parity of the positive literals of variables, each one of this many.
pub(crate) fn parity_of(alloc: Global, vars: u32, variables: &[u32]) -> Result<LitList, AllocError>
    requires low { 1 ≤ vars }
    requires high { vars ≤ MAX_VARIABLE }
    ensures { IfOk result (AreWithin vars) }
{
    let mut lits = Vec::new(alloc);
    for variable in variables {
        lits.push(yes(nearest(*variable, vars)))?;
    }
    Ok(LitList::from_vec(lits))
}

/// The parities of the positive literals of variables, each one of this many.
pub(crate) fn parities_of(
    alloc: Global,
    vars: u32,
    parities: &[&[u32]],
) -> Result<ParityList, AllocError>
    requires low { 1 ≤ vars }
    requires high { vars ≤ MAX_VARIABLE }
    ensures { IfOk result (AllByRecursion (AreWithin vars)) }
{
    let mut lists = Vec::new(alloc);
    for parity in parities {
        lists.push(parity_of(alloc, vars, parity)?)?;
    }
    Ok(ParityList::from_vec(lists))
}
