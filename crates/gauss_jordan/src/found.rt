//! What the rows of a reduced matrix say.
ghost use Rattle.std.specs.Prelude.{◌≡◌, ℕ, ◌<◌, ◌≤◌, length};
ghost use Rattle.gf2_matrix.specs.Bits.{AreBitsOf, reach};
ghost use Rattle.gf2_matrix.specs.Content.{Content, IsOfGiven, IsReducedRow};
ghost use Rattle.gf2_matrix.specs.Views.{words_for};
ghost use Rattle.gauss_jordan.specs.Found.{IsKind, Shows, SumsTo};

use gf2_matrix::{Matrix, RowBits};

/// What one row says under the values assigned.
#[derive(Clone, Copy, Drop)]
pub enum RowKind {
    /// All its columns are assigned, and it is met.
    Met,
    /// All its columns are assigned, and it is not met.
    Unmet,
    /// The column alone is not assigned, and takes the value.
    Unit(usize, bool),
    /// More than one column is not assigned.
    Open,
}

/// The first row that says something.
#[derive(Clone, Copy, Drop)]
pub enum FoundRow {
    Nothing,
    Literal(usize, usize, bool),
    Contradiction(usize),
}

/// Whether the sum over the true columns of the row of these bits is not its right side.
pub fn is_unmet(bits: &RowBits<'_>, truths: &[u64]) -> bool
    requires { reach bits.now ≤ length truths.now }
    ensures { (c : Content) (r : ℕ) → AreBitsOf c r bits.now → length truths.now ≡ words_for (length c.columns) → SumsTo c truths.now r result }
{
    bits.parity_and(truths) ^ bits.right()
}

fn kind_of(matrix: &Matrix, row: usize, assigned: &[u64], truths: &[u64]) -> RowKind
    requires row_in { row < length matrix.now.rows }
    requires long { length assigned.now ≡ words_for (length matrix.now.columns) }
    requires wide { length truths.now ≡ words_for (length matrix.now.columns) }
    ensures { IsKind matrix.now assigned.now truths.now row result }
{
    let _rows = matrix.rows();
    let differs = is_unmet(&matrix.row_bits(row), truths);
    match matrix.first_outside(row, assigned, None) {
        None if differs => RowKind::Unmet,
        None => RowKind::Met,
        Some(first) => match matrix.first_outside(row, assigned, Some(first)) {
            None => RowKind::Unit(first, differs),
            Some(_) => RowKind::Open,
        },
    }
}

/// The first row that implies a literal or is contradicted.
pub(crate) fn find(matrix: &Matrix, assigned: &[u64], truths: &[u64]) -> FoundRow
    requires long { length assigned.now ≡ words_for (length matrix.now.columns) }
    requires wide { length truths.now ≡ words_for (length matrix.now.columns) }
    requires reduced { (r : ℕ) → r < length matrix.now.rows → IsReducedRow matrix.now assigned.now r }
    ensures { Shows matrix.now assigned.now truths.now result }
{
    for row in 0..matrix.rows() {
        match kind_of(matrix, row, assigned, truths) {
            RowKind::Unmet => return FoundRow::Contradiction(row),
            RowKind::Unit(column, value) => return FoundRow::Literal(row, column, value),
            RowKind::Met | RowKind::Open => {}
        }
    }
    FoundRow::Nothing
}
