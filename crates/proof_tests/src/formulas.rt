//! Small formulas.
ghost use Rattle.std.specs.Prelude.{◌≡◌, [], OnOk};

use crate::numbers::lit;
use cx_base::{Formula, FormulaBuilder};
use std::alloc::{AllocError, Global};

/// Adds the literals of integers from -1,000 to 1,000 that are not zero.
fn push(builder: &mut FormulaBuilder, integers: &[i64]) -> Result<(), AllocError> {
    for integer in integers {
        builder.push(lit(*integer))?;
    }
    Ok(())
}

/// Adds a clause.
fn clause(builder: &mut FormulaBuilder, integers: &[i64]) -> Result<(), AllocError>
    ensures { OnOk result (builder.new.unfinished ≡ []) }
{
    push(builder, integers)?;
    builder.end_clause()
}

/// Adds the four clauses of two variables.
fn add_square(builder: &mut FormulaBuilder) -> Result<(), AllocError>
    ensures { OnOk result (builder.new.unfinished ≡ []) }
{
    clause(builder, &[1, 2])?;
    clause(builder, &[-1, 2])?;
    clause(builder, &[1, -2])?;
    clause(builder, &[-1, -2])
}

/// The four clauses of two variables.
pub(crate) fn square(alloc: Global) -> Result<Formula, AllocError> {
    let mut builder = FormulaBuilder::new(alloc);
    add_square(&mut builder)?;
    Ok(builder.finish(2))
}

/// Adds a parity.
fn parity(builder: &mut FormulaBuilder, integers: &[i64]) -> Result<(), AllocError>
    ensures { OnOk result (builder.new.unfinished ≡ []) }
{
    push(builder, integers)?;
    builder.end_parity()
}

/// Adds a clause of two variables that is said twice, the other three, and a parity that is said twice.
fn add_repeated(builder: &mut FormulaBuilder) -> Result<(), AllocError>
    ensures { OnOk result (builder.new.unfinished ≡ []) }
{
    clause(builder, &[1, 2])?;
    clause(builder, &[2, 1, 2])?;
    clause(builder, &[-1, 2])?;
    clause(builder, &[1, -2])?;
    clause(builder, &[-1, -2])?;
    parity(builder, &[1, 2])?;
    parity(builder, &[-2, -1])
}

/// The four clauses of two variables, the first of them twice, and a parity of these twice.
pub(crate) fn repeated(alloc: Global) -> Result<Formula, AllocError> {
    let mut builder = FormulaBuilder::new(alloc);
    add_repeated(&mut builder)?;
    Ok(builder.finish(2))
}
