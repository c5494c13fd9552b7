//! Drawn parities, and all values that meet them.
ghost use Rattle.std.specs.Prelude.{◌≡◌, [], OnOk};

use crate::expecting::expect;
use crate::numbers::{next, some_lists};
use crate::printing::printed;
use crate::values::{bit, free, is_true, solution_with, solutions};
use cx_base::{Formula, FormulaBuilder, LitList, Var};
use gf2_space::{Space, space};
use std::alloc::{AllocError, Global};

/// Adds a parity.
fn add(builder: &mut FormulaBuilder, parity: &LitList) -> Result<(), AllocError>
    ensures { OnOk result (builder.new.unfinished ≡ []) }
{
    for lit in parity.as_slice() {
        builder.push(*lit)?;
    }
    builder.end_parity()
}

/// The formula of parities over at least this many variables.
fn formula(alloc: Global, parities: &[LitList], vars: u32) -> Result<Formula, AllocError> {
    let mut builder = FormulaBuilder::new(alloc);
    for parity in parities {
        add(&mut builder, parity)?;
    }
    Ok(builder.finish(vars.min(8)))
}

/// Writes the variables that are true.
fn put_true(text: &mut String, values: u32, vars: u32) -> Result<(), AllocError> {
    for var in 1..=vars {
        if is_true(values, var) {
            write!(text, " {var}")?;
        }
    }
    Ok(())
}

/// Writes the line of a point.
fn put_point(text: &mut String, values: u32, vars: u32) -> Result<(), AllocError> {
    text.push('t')?;
    for var in 1..=vars {
        text.push_str(if is_true(values, var) { " " } else { " -" })?;
        write!(text, "{var}")?;
    }
    text.push_str(" 0\n")
}

/// Writes the line of the vector of a free variable: where a solution with just that one differs from the point.
fn put_vector(
    text: &mut String,
    solutions: &[u32],
    free: u32,
    var: u32,
    vars: u32,
) -> Result<(), AllocError> {
    let (point, other) = (
        solution_with(solutions, free, 0),
        solution_with(solutions, free, bit(var)),
    );
    text.push('b')?;
    put_true(text, point ^ other, vars)?;
    text.push_str(" 0\n")
}

/// Writes what is to be printed of the space of some solutions.
fn put_space_of(
    text: &mut String,
    solutions: &[u32],
    free: u32,
    vars: u32,
) -> Result<(), AllocError> {
    writeln!(text, "s AFFINE {}", free.count_ones())?;
    put_point(text, solution_with(solutions, free, 0), vars)?;
    for var in 1..=vars {
        if is_true(free, var) {
            put_vector(text, solutions, free, var, vars)?;
        }
    }
    Ok(())
}

/// The value of a variable in the point.
fn point(space: &Space, var: u32) -> bool {
    var != 0 && var <= space.vars() && space.point(Var::new(var))
}

/// Whether a vector has a variable.
fn has(space: &Space, number: u64, var: u32) -> bool {
    if number == 0 || number > space.dimension() || var == 0 || var > space.vars() {
        return false;
    }
    space.has(number, Var::new(var))
}

/// The variable that a vector is of.
fn free_of(space: &Space, number: u64) -> u32 {
    if number == 0 || number > space.dimension() {
        return 0;
    }
    space.free(number).number()
}

/// The point, as a number.
fn point_of(space: &Space) -> u32 {
    let mut values = 0;
    for var in 1..9 {
        if point(space, var) {
            values |= bit(var);
        }
    }
    values
}

/// A vector, as a number.
fn vector_of(space: &Space, number: u64) -> u32 {
    let mut values = 0;
    for var in 1..9 {
        if has(space, number, var) {
            values |= bit(var);
        }
    }
    values
}

/// Whether the vectors are of the free variables, in rising order, and lead from the point to the solutions.
fn has_vectors(space: &Space, solutions: &[u32], free: u32) -> bool {
    let mut number = 0u64;
    for var in 1..9 {
        if is_true(free, var) {
            number = number.saturating_add(1);
            let other = solution_with(solutions, free, bit(var));
            if free_of(space, number) != var
                || vector_of(space, number) != point_of(space) ^ other
            {
                return false;
            }
        }
    }
    number == space.dimension()
}

/// The values as a list.
fn list_of(alloc: Global, values: u32, vars: u32) -> Result<Vec<bool>, AllocError> {
    let mut list = Vec::new(alloc);
    for var in 1..=vars {
        list.push(is_true(values, var))?;
    }
    Ok(list)
}

/// Whether the space has the values.
fn contains(alloc: Global, space: &Space, values: u32) -> Result<bool, AllocError> {
    let list = list_of(alloc, values, space.vars())?;
    Ok(list.len() == space.vars() as usize && space.contains(&list))
}

/// Whether just the solutions are in the space.
fn contains_just(alloc: Global, space: &Space, solutions: &[u32]) -> Result<bool, AllocError> {
    for values in 0..1u32 << space.vars().min(8) {
        if contains(alloc, space, values)? != solutions.contains(&values) {
            return Ok(false);
        }
    }
    Ok(true)
}

/// What is to be printed of the space of some solutions.
fn wanted_of(alloc: Global, solutions: &[u32], vars: u32) -> Result<String, AllocError> {
    let mut text = String::new(alloc);
    put_space_of(&mut text, solutions, free(solutions), vars)?;
    Ok(text)
}

/// Whether that is printed of a space.
fn is_printed(
    alloc: Global,
    space: &Space,
    solutions: &[u32],
    vars: u32,
) -> Result<bool, AllocError> {
    let wanted = wanted_of(alloc, solutions, vars)?;
    let printed = printed(alloc, space, 1000)?;
    Ok(printed.as_slice() == wanted.as_bytes())
}

/// Whether the space of some solutions is told by its calls.
fn is_told(space: &Space, solutions: &[u32], vars: u32) -> bool {
    let free = free(solutions);
    space.vars() == vars
        && point_of(space) == solution_with(solutions, free, 0)
        && has_vectors(space, solutions, free)
}

/// Whether the space of a formula is that of some solutions.
fn is_right(
    alloc: Global,
    formula: &Formula,
    solutions: &[u32],
    vars: u32,
) -> Result<bool, AllocError> {
    match &space(alloc, formula)? {
        Some(space) => Ok(
            is_told(space, solutions, vars)
                && is_printed(alloc, space, solutions, vars)?
                && contains_just(alloc, space, solutions)?,
        ),
        None => Ok(solutions.is_empty()),
    }
}

/// Whether the space of parities is that of some solutions.
fn is_right_of(
    alloc: Global,
    parities: &[LitList],
    solutions: &[u32],
    vars: u32,
) -> Result<bool, AllocError> {
    let formula = formula(alloc, parities, vars)?;
    is_right(alloc, &formula, solutions, vars)
}

/// How many solutions parities have, if the space is right.
fn count_of(alloc: Global, parities: &[LitList], vars: u32) -> Result<Option<usize>, AllocError> {
    let solutions = solutions(alloc, parities, vars)?;
    let right = is_right_of(alloc, parities, &solutions, vars)?;
    Ok(if right { Some(solutions.len()) } else { None })
}

/// As `count_of`, of this many parities over this many variables.
fn count_if_right(
    alloc: Global,
    seed: u64,
    vars: u32,
    count: u64,
) -> Result<Option<usize>, AllocError> {
    let mut numbers = seed;
    let parities = some_lists(alloc, &mut numbers, vars, count)?;
    count_of(alloc, &parities, vars)
}

/// Draws parities of up to eight variables. Writes them if their space is not right, and else counts them with those that
/// have solutions or with those that have none.
fn put_other(
    alloc: Global,
    others: &mut String,
    seed: u64,
    (solved, unsolved): (&mut u64, &mut u64),
) -> Result<(), AllocError> {
    let mut numbers = seed;
    let vars = 1 + (next(&mut numbers) % 8) as u32;
    let count = next(&mut numbers) % 9;
    match count_if_right(alloc, numbers, vars, count)? {
        Some(0) => *unsolved = unsolved.saturating_add(1),
        Some(_) => *solved = solved.saturating_add(1),
        None => writeln!(
            others,
            "seed {seed}: {count} parities over {vars} variables"
        )?,
    }
    Ok(())
}

/// As `put_other`, of each seed. Writes the counts too if they are small.
fn put_others(alloc: Global, others: &mut String, seeds: u64) -> Result<(), AllocError> {
    let (mut solved, mut unsolved) = (0u64, 0u64);
    for seed in 1..=seeds {
        put_other(alloc, others, seed, (&mut solved, &mut unsolved))?;
    }
    if solved > 20 && unsolved > 10 {
        return Ok(());
    }
    writeln!(others, "{solved} and {unsolved}")
}

/// What `put_others` writes.
fn others(alloc: Global, seeds: u64) -> Result<String, AllocError> {
    let mut others = String::new(alloc);
    put_others(alloc, &mut others, seeds)?;
    Ok(others)
}

#[test]
fn drawn_parities_have_the_solutions_that_all_values_show(rt: HostRuntime) {
    expect(&rt, others(rt.alloc(), 80), "");
}
