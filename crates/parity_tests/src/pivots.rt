//! A worked pivot.
use crate::expecting::expect_told;
use crate::parities::parities_of;
use crate::parts::put_rows;
use cx_base::{Lit, Var};
use gf2_matrix::Matrix;
use std::alloc::{AllocError, Global};

/// Pivots the row on the column, if it has it.
fn pivots(matrix: &mut Matrix, row: usize, column: usize) -> bool {
    if row >= matrix.rows() || column >= matrix.columns() {
        return false;
    }
    let has = matrix.has_column(row, column);
    if has {
        matrix.pivot(row, column);
    }
    has
}

/// Whether there is such a row, it has the variable, and it is the parity of these literals.
fn is_parity(
    alloc: Global,
    matrix: &Matrix,
    row: usize,
    variable: Var,
    wanted: &[Lit],
) -> Result<bool, AllocError> {
    if row >= matrix.rows() || variable.number() > matrix.vars() {
        return Ok(false);
    }
    if !matrix.row_view(row).has(variable) {
        return Ok(false);
    }
    let parity = matrix.row_parity(alloc, row)?;
    Ok(parity.as_slice() == wanted)
}

/// A try to pivot on a column that the row lacks, a pivot, and what is told of the rows then.
fn told(alloc: Global, matrix: &mut Matrix) -> Result<String, AllocError> {
    let lacks = pivots(matrix, 0, 2);
    let done = pivots(matrix, 0, 1);
    let wanted = [Lit::new(Var::new(1), true), Lit::new(Var::new(3), false)];
    let is_parity = is_parity(alloc, matrix, 1, Var::new(3), &wanted)?;
    let mut text = format!(in alloc; "{lacks} {done}\n")?;
    put_rows(alloc, &mut text, matrix)?;
    writeln!(text, "{} {is_parity}", matrix.rows())?;
    Ok(text)
}

/// As `told`, of the matrix of two parities that share a variable.
fn told_of_two(alloc: Global) -> Result<String, AllocError> {
    let parities = parities_of(alloc, 3, &[&[1, 2], &[2, 3]])?;
    let mut matrix = Matrix::make(alloc, 3, &parities)?;
    told(alloc, &mut matrix)
}

#[test]
fn a_pivot_adds_the_sources(rt: HostRuntime) {
    let wanted = "\
false true
[1, 2] true [1]
[1, 3] false [1, 2]
2 true
";
    expect_told(&rt, told_of_two(rt.alloc()), wanted);
}
