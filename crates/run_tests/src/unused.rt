//! Values of formulas that use few of the variables that their headers count.
ghost use Rattle.std.specs.Prelude.{◌≡◌, ◌≤◌, [], OnOk};
ghost use Rattle.cx_base.specs.declared.literal.TheConstants.{MAX_VARIABLE};

use crate::expecting::expect;
use cdcl_core::{SearchOutcome, solve_core};
use cx_base::{Formula, FormulaBuilder, Lit, Var};
use gauss_incremental::ShortFirst;
use log_text::NoLog;
use std::alloc::{AllocError, Global};

/// Adds a clause that makes variable 2 true, and a parity that makes variable 1 true with it.
fn add_two_and_one(builder: &mut FormulaBuilder) -> Result<(), AllocError>
    ensures { OnOk result (builder.new.unfinished ≡ []) }
{
    let two = Lit::new(Var::new(2), false);
    builder.push(two)?;
    builder.end_clause()?;
    builder.push(Lit::new(Var::new(1), true))?;
    builder.push(two)?;
    builder.end_parity()
}

fn two_and_one(alloc: Global, vars: u32) -> Result<Formula, AllocError>
    requires { vars ≤ MAX_VARIABLE }
{
    let mut builder = FormulaBuilder::new(alloc);
    add_two_and_one(&mut builder)?;
    Ok(builder.finish(vars))
}

fn put_true(text: &mut String, values: &[bool]) -> Result<(), AllocError> {
    for index in 0..values.len() {
        if values[index] {
            write!(text, " {}", index as u64 + 1)?;
        }
    }
    Ok(())
}

/// How many values there are, and which variables are true.
fn written(alloc: Global, values: &[bool]) -> Result<String, AllocError> {
    let mut text = format!(in alloc; "{} values, true:", values.len())?;
    put_true(&mut text, values)?;
    Ok(text)
}

/// What the search finds within a conflict.
fn found(alloc: Global, formula: &Formula) -> Result<String, AllocError> {
    if formula.len() > u32::MAX as usize {
        return Ok(String::new(alloc));
    }
    let mut log = NoLog;
    match solve_core::<ShortFirst, NoLog>(alloc, formula, 1, &mut log) {
        Ok(SearchOutcome::Sat(values)) => written(alloc, values.as_slice()),
        _ => Ok(String::new(alloc)),
    }
}

/// Whether it finds these values where the header counts this many variables.
fn is_found_among(alloc: Global, vars: u32, wanted: &str) -> Result<bool, AllocError>
    requires { vars ≤ MAX_VARIABLE }
{
    let formula = two_and_one(alloc, vars)?;
    Ok(found(alloc, &formula)?.as_str() == wanted)
}

/// Whether the values are found where no variable is unused, and where many are.
fn both_found(alloc: Global) -> Result<(bool, bool), AllocError> {
    let none_unused = is_found_among(alloc, 2, "2 values, true: 1 2")?;
    let many_unused = is_found_among(alloc, 2_000_000, "2000000 values, true: 1 2")?;
    Ok((none_unused, many_unused))
}

#[test]
fn unused_variables_are_false(rt: HostRuntime) {
    expect(&rt, both_found(rt.alloc()), &(true, true));
}
