//! Parities to try an engine on.
ghost use Rattle.std.specs.Prelude.{◌≤◌, IfOk};
ghost use Rattle.std.specs.List.{AllByRecursion};
ghost use Rattle.cx_base.specs.Problem.{AreWithin};
ghost use Rattle.cx_base.specs.declared.literal.TheConstants.{MAX_VARIABLE};

use crate::numbers::Numbers;
use cx_base::{LitList, ParityList};
use std::alloc::{AllocError, Global};

/// A parity of two to five literals.
fn any_parity(alloc: Global, numbers: &mut Numbers, vars: u32) -> Result<LitList, AllocError>
    requires low { 1 ≤ vars }
    requires high { vars ≤ MAX_VARIABLE }
    ensures { IfOk result (AreWithin vars) }
{
    let mut lits = Vec::new(alloc);
    for _ in 0..2 + numbers.below(4) {
        lits.push(numbers.literal(vars))?;
    }
    Ok(LitList::from_vec(lits))
}

/// This many parities of two to five literals.
pub fn any_parities(
    alloc: Global,
    numbers: &mut Numbers,
    vars: u32,
    count: u32,
) -> Result<ParityList, AllocError>
    requires low { 1 ≤ vars }
    requires high { vars ≤ MAX_VARIABLE }
    ensures { IfOk result (AllByRecursion (AreWithin vars)) }
{
    let mut lists = Vec::new(alloc);
    for _ in 0..count {
        lists.push(any_parity(alloc, numbers, vars)?)?;
    }
    Ok(ParityList::from_vec(lists))
}
