//! The engines know the same after the same acts.
ghost use Rattle.std.specs.Prelude.{◌≤◌};
ghost use Rattle.std.specs.List.{AllByRecursion};
ghost use Rattle.cx_base.specs.Problem.{AreWithin};
ghost use Rattle.cx_base.specs.declared.literal.TheConstants.{MAX_VARIABLE};

use crate::driven::{Act, trace_of};
use crate::expecting::expect;
use cx_base::ParityList;
use gauss_incremental::{Incremental, ShortFirst};
use gauss_jordan::Scratch;
use parity_driver::{Numbers, any_parities};
use parity_engine::ParityEngine;
use std::alloc::{AllocError, Global};

/// Opens a level, takes some back, or assigns a literal, which comes most often.
fn any_act(numbers: &mut Numbers, vars: u32) -> Act
    requires some { 1 ≤ vars }
    requires few { vars ≤ MAX_VARIABLE }
{
    let literal = numbers.literal(vars);
    match numbers.below(20) {
        0..=2 => Act::Open,
        3..=4 => Act::Back(numbers.below(4)),
        _ => Act::Set(literal),
    }
}

/// So many acts that all kinds of them meet.
fn any_acts(alloc: Global, numbers: &mut Numbers, vars: u32) -> Result<Vec<Act>, AllocError>
    requires some { 1 ≤ vars }
    requires few { vars ≤ MAX_VARIABLE }
{
    let mut acts = Vec::new(alloc);
    for _ in 0..80 {
        acts.push(any_act(numbers, vars))?;
    }
    Ok(acts)
}

/// What an engine knows before each act and after the last one.
fn trace<P: ParityEngine + Drop>(
    alloc: Global,
    vars: u32,
    parities: &ParityList,
    acts: &[Act],
) -> Result<String, AllocError>
    requires few { vars ≤ MAX_VARIABLE }
    requires within { AllByRecursion (AreWithin vars) parities.now }
{
    let mut told = Vec::new(alloc);
    trace_of::<P>(alloc, vars, parities, acts, &mut told)
}

/// Whether the engines know the same after the same acts over these parities.
fn agree_on(
    alloc: Global,
    vars: u32,
    parities: &ParityList,
    acts: &[Act],
) -> Result<bool, AllocError>
    requires few { vars ≤ MAX_VARIABLE }
    requires within { AllByRecursion (AreWithin vars) parities.now }
{
    let first = trace::<Scratch>(alloc, vars, parities, acts)?;
    let second = trace::<Incremental>(alloc, vars, parities, acts)?;
    let third = trace::<ShortFirst>(alloc, vars, parities, acts)?;
    Ok(first.as_str() == second.as_str() && first.as_str() == third.as_str())
}

/// As `agree_on`, over parities and acts that follow from the seed.
fn agree(alloc: Global, seed: u64, vars: u32, count: u32) -> Result<bool, AllocError>
    requires some { 1 ≤ vars }
    requires few { vars ≤ MAX_VARIABLE }
{
    let mut numbers = Numbers::from_seed(seed);
    let parities = any_parities(alloc, &mut numbers, vars, count)?;
    let acts = any_acts(alloc, &mut numbers, vars)?;
    agree_on(alloc, vars, &parities, &acts)
}

/// The first seed from which the engines do not know the same, over few parities or over some more.
fn first_fault(alloc: Global) -> Result<Option<u64>, AllocError> {
    for seed in 1..=20 {
        if !agree(alloc, seed, 8, 4)? || !agree(alloc, seed, 30, 14)? {
            return Ok(Some(seed));
        }
    }
    Ok(None)
}

#[test]
fn engines_know_the_same(rt: HostRuntime) {
    expect(&rt, first_fault(rt.alloc()), &None);
}
