//! The rows of a matrix as lists.
ghost use Rattle.std.specs.Prelude.{◌≡◌, ℕ, ◌-◌, ◌<◌, ◌≤◌, length, IfOk};
ghost use Rattle.cx_base.specs.Parity.{occurs_odd};
ghost use Rattle.cx_base.specs.Problem.{AreWithin};
ghost use Rattle.gf2_matrix.specs.Content.{row_at, has, IsOfGiven};
ghost use Rattle.gf2_lists.specs.Made.{IsListOf, AreListsOf};

use crate::row::ListedRow;
use cx_base::{Lit, Var};
use gf2_matrix::Matrix;
use std::alloc::{AllocError, Global};
use xor_blast::fill_rising;

/// The variables of a row as literals, in the order of the columns.
fn literals_of(alloc: Global, matrix: &Matrix, row: usize) -> Result<Vec<Lit>, AllocError>
    requires row_in { row < length matrix.now.rows }
    requires of_given { IsOfGiven matrix.now }
    ensures within { IfOk result (λ lits. AreWithin matrix.now.vars lits.items) }
    ensures all { IfOk result (λ lits. (y : ℕ) → 1 ≤ y → occurs_odd lits.items y ≡ has (row_at matrix.now.rows row) (y - 1)) }
{
    // `columns` tells the proof that each column's number has a successor.
    let _columns = matrix.columns();
    let mut lits = Vec::new(alloc);
    let mut from = 0;
    while let Some(column) = matrix.next_column(row, from) {
        lits.push(Lit::new(Var::new(matrix.column(column)), false))?;
        from = column + 1;
    }
    Ok(lits)
}

/// A row as a list.
fn unpacked_row(alloc: Global, matrix: &Matrix, row: usize) -> Result<ListedRow, AllocError>
    requires row_in { row < length matrix.now.rows }
    requires of_given { IsOfGiven matrix.now }
    ensures { IfOk result (λ r. IsListOf matrix.now.vars (row_at matrix.now.rows row) r.vars.items r.right) }
{
    let lits = literals_of(alloc, matrix, row)?;
    let mut vars = Vec::new(alloc);
    fill_rising(&mut vars, &lits)?;
    let right = matrix.row_right(row);
    Ok(ListedRow { vars, right })
}

/// Its rows as lists.
pub(crate) fn unpacked(alloc: Global, matrix: &Matrix) -> Result<Vec<ListedRow>, AllocError>
    requires { IsOfGiven matrix.now }
    ensures { IfOk result (λ rows. AreListsOf matrix.now.vars matrix.now.rows rows.items (length matrix.now.rows)) }
{
    let mut rows = Vec::with_capacity(alloc, matrix.rows())?;
    for row in 0..matrix.rows() {
        let new = unpacked_row(alloc, matrix, row)?;
        rows.push(new)?;
    }
    Ok(rows)
}
