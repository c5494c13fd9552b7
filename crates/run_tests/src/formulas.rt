//! Formulas that more than one test runs over.

/// Three parities that no values meet together.
pub(crate) const TRIANGLE: &str = "p cnf 3 3\nx1 2 0\nx2 3 0\nx1 3 0\n";

/// These parities, each as the two clauses that exclude its wrong assignments.
pub(crate) const TRIANGLE_OF_CLAUSES: &str =
    "p cnf 3 6\n1 2 0\n-1 -2 0\n2 3 0\n-2 -3 0\n1 3 0\n-1 -3 0\n";

/// The four clauses over two variables.
pub(crate) const SQUARE: &str = "p cnf 2 4\n1 2 0\n-1 2 0\n1 -2 0\n-1 -2 0\n";

/// The empty clause.
pub(crate) const EMPTY: &str = "p cnf 1 1\n0\n";
