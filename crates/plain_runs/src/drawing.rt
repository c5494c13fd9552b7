//! Formulas that are the same in each run.
ghost use Rattle.std.specs.Prelude.{◌≡◌, [], OnOk};

use cx_base::{Formula, FormulaBuilder, Lit, Var};
use std::alloc::{AllocError, Global};

/// The next number of a linear congruential sequence: its multiplier and its addend are Knuth's, of MMIX.
pub(crate) fn next(seed: &mut u64) -> u64 {
    *seed = seed
        .wrapping_mul(6_364_136_223_846_793_005)
        .wrapping_add(1_442_695_040_888_963_407);
    *seed >> 33
}

/// The literal of a variable up to a number, or its negation.
fn some_lit(seed: &mut u64, vars: u64) -> Lit {
    let before = next(seed) % vars.clamp(1, 1_000);
    let var = Var::new(1 + before as u32);
    Lit::new(var, next(seed) % 2 == 0)
}

/// Adds three literals to the constraint that is not ended.
fn add_three(builder: &mut FormulaBuilder, seed: &mut u64, vars: u64) -> Result<(), AllocError> {
    for _ in 0..3 {
        builder.push(some_lit(seed, vars))?;
    }
    Ok(())
}

/// Adds a clause, or now and then a parity, or rarely an assumption constraint.
fn add(builder: &mut FormulaBuilder, seed: &mut u64, vars: u64) -> Result<(), AllocError>
    ensures { OnOk result (builder.new.unfinished ≡ []) }
{
    match next(seed) % 64 {
        0 => {
            builder.push(some_lit(seed, vars))?;
            builder.end_assume()
        }
        1..=4 => {
            add_three(builder, seed, vars)?;
            builder.end_parity()
        }
        _ => {
            add_three(builder, seed, vars)?;
            builder.end_clause()
        }
    }
}

/// This many constraints over variables up to a number.
pub(crate) fn some_formula(
    alloc: Global,
    seed: u64,
    vars: u64,
    count: u64,
) -> Result<Formula, AllocError> {
    let mut seed = seed;
    let mut builder = FormulaBuilder::new(alloc);
    for _ in 0..count {
        add(&mut builder, &mut seed, vars)?;
    }
    Ok(builder.finish(1))
}

/// Adds a clause of this many literals, or a parity of one more.
fn add_short(
    builder: &mut FormulaBuilder,
    seed: &mut u64,
    vars: u64,
    len: u64,
) -> Result<(), AllocError>
    ensures { OnOk result (builder.new.unfinished ≡ []) }
{
    for _ in 0..len {
        builder.push(some_lit(seed, vars))?;
    }
    if next(seed) % 8 > 0 {
        return builder.end_clause();
    }
    builder.push(some_lit(seed, vars))?;
    builder.end_parity()
}

/// This many constraints, among them clauses of one and of two literals, so that propagation goes far.
pub(crate) fn tight_formula(
    alloc: Global,
    seed: u64,
    vars: u64,
    count: u64,
) -> Result<Formula, AllocError> {
    let mut seed = seed;
    let mut builder = FormulaBuilder::new(alloc);
    for _ in 0..count {
        let len = 1 + next(&mut seed) % 3;
        add_short(&mut builder, &mut seed, vars, len)?;
    }
    Ok(builder.finish(1))
}

/// Where the variables of a parity begin, how many there are, and its right side.
#[derive(Clone, Copy, Drop)]
struct Planted {
    first: u32,
    len: u32,
    right: bool,
}

/// Adds the literals of a parity's variables with these signs as a clause. Of some variables there are so many.
fn add_signed(
    builder: &mut FormulaBuilder,
    planted: Planted,
    vars: u32,
    signs: u32,
) -> Result<(), AllocError>
    ensures { OnOk result (builder.new.unfinished ≡ []) }
{
    for place in 0..planted.len.min(6) {
        let var = planted.first.wrapping_add(place) % vars.clamp(1, 1_000);
        builder.push(Lit::new(Var::new(1 + var), (signs >> place) & 1 == 1))?;
    }
    builder.end_clause()
}

/// Adds the clauses that exclude a wrong sum, but now and then not one of them.
fn add_clauses(
    builder: &mut FormulaBuilder,
    seed: &mut u64,
    planted: Planted,
    vars: u32,
) -> Result<(), AllocError>
    requires { builder.old.unfinished ≡ [] }
    ensures { OnOk result (builder.new.unfinished ≡ []) }
{
    for signs in 0..1u32 << planted.len.min(6) {
        let odd = signs.count_ones() % 2 == 1;
        if odd != planted.right && next(seed) % 24 > 0 {
            add_signed(builder, planted, vars, signs)?;
        }
    }
    Ok(())
}

/// Clauses of parities of two to four variables, and some others.
pub(crate) fn planted_formula(alloc: Global, seed: u64, vars: u32) -> Result<Formula, AllocError> {
    let mut seed = seed;
    let mut builder = FormulaBuilder::new(alloc);
    for _ in 0..5 {
        let planted = Planted {
            first: (next(&mut seed) % 16) as u32,
            len: 2 + (next(&mut seed) % 3) as u32,
            right: next(&mut seed) % 2 == 0,
        };
        add_clauses(&mut builder, &mut seed, planted, vars)?;
        add_short(&mut builder, &mut seed, u64::from(vars), 3)?;
    }
    Ok(builder.finish(1))
}
