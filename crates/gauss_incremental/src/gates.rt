//! Whether parities are like the gates of a circuit.
ghost use Rattle.std.specs.Prelude.{◌<◌, length};

use cx_base::ParityList;
use gf2_matrix::Matrix;

/// How many variables a row has.
fn width_of(matrix: &Matrix, row: usize) -> usize
    requires { row < length matrix.now.rows }
{
    // that places of columns are below 2 ^ 64, which this call tells the proof
    let _columns = matrix.columns();
    let mut width = 0usize;
    let mut from = 0;
    while let Some(column) = matrix.next_column(row, from) {
        width = width.saturating_add(1);
        from = column + 1;
    }
    width
}

/// How many variables the rows have in all.
fn width_of_rows(matrix: &Matrix) -> usize {
    let mut width = 0usize;
    for row in 0..matrix.rows() {
        width = width.saturating_add(width_of(matrix, row));
    }
    width
}

/// How many literals the parities have in all.
fn width_of_parities(parities: &ParityList) -> usize {
    let mut width = 0usize;
    for parity in parities.as_slice() {
        width = width.saturating_add(parity.as_slice().len());
    }
    width
}

/// Whether the reduced rows are about as short as the given parities. So it is with the gates of a circuit, each of
/// which has an output of its own: there rows grow long by pivots alone. Where they are long from the start, the matrix
/// says more than single parities do.
pub(crate) fn are_gates(matrix: &Matrix, parities: &ParityList) -> bool {
    width_of_rows(matrix) / 6 <= width_of_parities(parities) / 5
}
