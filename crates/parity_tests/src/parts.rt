//! Matrices with several parts, and where a part begins inside a word.
ghost use Rattle.std.specs.Prelude.{◌<◌, length};

use crate::expecting::{expect, expect_told};
use crate::parities::parities_of;
use cx_base::Var;
use gf2_matrix::{Matrix, clear_words};
use std::alloc::{AllocError, Global};

/// The column of a variable, or the number of columns; none of what is no variable.
fn place_of(matrix: &Matrix, variable: u32) -> Option<usize> {
    if variable == 0 || variable > matrix.vars() {
        return None;
    }
    Some(matrix.place_of(Var::new(variable)))
}

/// The column of each variable, or the number of columns, from the first one on.
fn places(alloc: Global, matrix: &Matrix) -> Result<Vec<usize>, AllocError> {
    let mut places = Vec::new(alloc);
    for variable in 1..=matrix.vars() {
        if let Some(place) = place_of(matrix, variable) {
            places.push(place)?;
        }
    }
    Ok(places)
}

/// Writes the variables of the columns, and the column of each variable.
fn put_columns(alloc: Global, text: &mut String, matrix: &Matrix) -> Result<(), AllocError> {
    let places = places(alloc, matrix)?;
    writeln!(text, "{:?} {:?}", matrix.variables(), places.as_slice())
}

/// The first column of the row that is not the one to skip.
fn first_but(
    alloc: Global,
    matrix: &Matrix,
    row: usize,
    skip: Option<usize>,
) -> Result<Option<usize>, AllocError>
    requires { row < length matrix.now.rows }
{
    let nothing = clear_words(alloc, matrix.columns())?;
    Ok(matrix.first_outside(row, &nothing, skip))
}

/// A column that no other row has, sought from this one on.
fn own_near(
    alloc: Global,
    matrix: &Matrix,
    row: usize,
    near: Option<usize>,
) -> Result<Option<usize>, AllocError>
    requires { row < length matrix.now.rows }
{
    let nothing = clear_words(alloc, matrix.columns())?;
    Ok(matrix.own_outside_near(row, &nothing, near))
}

/// Writes the row's rarest column, and for each row from the first one on the next row that has it.
fn put_rarest(
    alloc: Global,
    text: &mut String,
    matrix: &Matrix,
    row: usize,
) -> Result<(), AllocError>
    requires { row < length matrix.now.rows }
{
    let rarest = matrix.rarest_column(row);
    let mut next = Vec::new(alloc);
    if let Some(column) = rarest {
        for from in 0..matrix.rows() {
            next.push(matrix.next_with(row, column, from))?;
        }
    }
    write!(text, "{rarest:?} {:?}", next.as_slice())
}

/// Writes the row's rarest column and the rows with it, the columns of its part, its first two columns, and from the
/// second one on a column that it alone has.
fn put_place(
    alloc: Global,
    text: &mut String,
    matrix: &Matrix,
    row: usize,
) -> Result<(), AllocError>
    requires { row < length matrix.now.rows }
{
    let first = first_but(alloc, matrix, row, None)?;
    let second = first_but(alloc, matrix, row, first)?;
    put_rarest(alloc, text, matrix, row)?;
    let own = own_near(alloc, matrix, row, second)?;
    let (low, count) = matrix.span(row);
    writeln!(text, " {low} {count} {first:?} {second:?} {own:?}")
}

/// Writes where each row has its place.
fn put_layout(alloc: Global, text: &mut String, matrix: &Matrix) -> Result<(), AllocError> {
    for row in 0..matrix.rows() {
        put_place(alloc, text, matrix, row)?;
    }
    Ok(())
}

/// Whether the row has a variable of this number.
fn has(matrix: &Matrix, row: usize, variable: u32) -> bool
    requires { row < length matrix.now.rows }
{
    if variable == 0 || variable > matrix.vars() {
        return false;
    }
    matrix.row_view(row).has(Var::new(variable))
}

/// The variables of a row, rising.
fn variables_of(alloc: Global, matrix: &Matrix, row: usize) -> Result<Vec<u32>, AllocError>
    requires { row < length matrix.now.rows }
{
    let mut variables = Vec::new(alloc);
    for variable in 1..=matrix.vars() {
        if has(matrix, row, variable) {
            variables.push(variable)?;
        }
    }
    Ok(variables)
}

/// Writes the row's variables, its right side and its sources.
fn put_row(alloc: Global, text: &mut String, matrix: &Matrix, row: usize) -> Result<(), AllocError>
    requires { row < length matrix.now.rows }
{
    let variables = variables_of(alloc, matrix, row)?;
    let sources = matrix.row_sources(alloc, row)?;
    writeln!(
        text,
        "{:?} {} {:?}",
        variables.as_slice(),
        matrix.row_right(row),
        sources.as_slice()
    )
}

/// Writes each row of the matrix.
pub(crate) fn put_rows(
    alloc: Global,
    text: &mut String,
    matrix: &Matrix,
) -> Result<(), AllocError> {
    for row in 0..matrix.rows() {
        put_row(alloc, text, matrix, row)?;
    }
    Ok(())
}

/// What is shown of a matrix, one after another.
#[derive(Clone, Copy, Drop)]
enum Shown {
    /// How many columns it has.
    Width,
    /// The variables of the columns, and the column of each variable.
    Columns,
    /// Where each row has its place.
    Layout,
    /// Each row, when the matrix is reduced.
    Reduced,
}

fn put_shown(
    alloc: Global,
    text: &mut String,
    matrix: &mut Matrix,
    shown: Shown,
) -> Result<(), AllocError> {
    match shown {
        Shown::Width => writeln!(text, "{}", matrix.columns()),
        Shown::Columns => put_columns(alloc, text, matrix),
        Shown::Layout => put_layout(alloc, text, matrix),
        Shown::Reduced => {
            matrix.reduce();
            put_rows(alloc, text, matrix)
        }
    }
}

fn show_all(alloc: Global, matrix: &mut Matrix, all: &[Shown]) -> Result<String, AllocError> {
    let mut text = String::new(alloc);
    for shown in all {
        put_shown(alloc, &mut text, matrix, *shown)?;
    }
    Ok(text)
}

/// What is shown of the matrix of parities over this many variables, at least one and at most a hundred.
fn told(
    alloc: Global,
    vars: u32,
    parities: &[&[u32]],
    all: &[Shown],
) -> Result<String, AllocError> {
    let vars = vars.clamp(1, 100);
    let parities = parities_of(alloc, vars, parities)?;
    let mut matrix = Matrix::make(alloc, vars, &parities)?;
    show_all(alloc, &mut matrix, all)
}

/// What should be shown of the matrix of parities.
struct Case<'a> {
    vars: u32,
    parities: &'a [&'a [u32]],
    all: &'a [Shown],
    wanted: &'a str,
}

/// Writes what is shown, where that is not what is wanted.
fn put_other(alloc: Global, others: &mut String, case: &Case) -> Result<(), AllocError> {
    let told = told(alloc, case.vars, case.parities, case.all)?;
    if told.as_str() == case.wanted {
        return Ok(());
    }
    writeln!(others, "{told}")
}

/// As `put_other`, of each case.
fn others(alloc: Global, cases: &[Case]) -> Result<String, AllocError> {
    let mut others = String::new(alloc);
    for case in cases {
        put_other(alloc, &mut others, case)?;
    }
    Ok(others)
}

/// Parts that share no variable are apart.
const APART: Case = Case {
    vars: 5,
    parities: &[&[1, 3], &[2, 4]],
    all: &[Shown::Columns, Shown::Layout, Shown::Reduced],
    wanted: "\
[1, 3, 2, 4] [0, 2, 1, 3, 4]
Some(0) [Some(0), None] 0 2 Some(0) Some(1) Some(1)
Some(2) [Some(1), Some(1)] 2 2 Some(2) Some(3) Some(3)
[1, 3] true [1]
[2, 4] true [2]
",
};

/// A parity joins two parts.
const JOINED: Case = Case {
    vars: 6,
    parities: &[&[1, 2], &[3, 4], &[2, 3], &[5, 6]],
    all: &[Shown::Layout, Shown::Reduced],
    wanted: "\
Some(0) [Some(0), None, None, None] 0 4 Some(0) Some(1) Some(0)
Some(3) [Some(1), Some(1), None, None] 0 4 Some(2) Some(3) Some(3)
Some(1) [Some(0), Some(2), Some(2), None] 0 4 Some(1) Some(2) None
Some(4) [Some(3), Some(3), Some(3), Some(3)] 4 2 Some(4) Some(5) Some(5)
[1, 4] true [1, 2, 3]
[3, 4] true [2]
[2, 4] false [2, 3]
[5, 6] true [4]
",
};

/// A parity whose variables cancel has no column.
const CANCELLED: Case = Case {
    vars: 3,
    parities: &[&[1, 2, 1, 2], &[2, 3], &[]],
    all: &[Shown::Columns, Shown::Reduced, Shown::Layout],
    wanted: "\
[2, 3] [2, 0, 1]
[] true [1]
[2, 3] true [2]
[] true [3]
None [] 0 2 None None None
Some(0) [Some(1), Some(1), None] 0 2 Some(0) Some(1) Some(1)
None [] 0 2 None None None
",
};

/// A matrix without a column.
const EMPTY: Case = Case {
    vars: 2,
    parities: &[&[]],
    all: &[Shown::Reduced, Shown::Width],
    wanted: "[] true [1]\n0\n",
};

/// Each worked case.
static CASES: [Case; 4] = [APART, JOINED, CANCELLED, EMPTY];

#[test]
fn matrices_have_parts(rt: HostRuntime) {
    expect_told(&rt, others(rt.alloc(), &CASES), "");
}

/// The numbers from 1 up to 63.
fn long_row(alloc: Global) -> Result<Vec<u32>, AllocError> {
    let mut numbers = Vec::new(alloc);
    for number in 1..64 {
        numbers.push(number)?;
    }
    Ok(numbers)
}

/// What the matrix of a long row and two short ones is told as.
fn wanted_of_long_row(alloc: Global, long: &[u32]) -> Result<String, AllocError> {
    let layout = "\
Some(0) [Some(0), None, None] 0 63 Some(0) Some(1) Some(1)
Some(63) [Some(1), Some(1), None] 63 4 Some(63) Some(64) Some(63)
Some(66) [Some(2), Some(2), Some(2)] 63 4 Some(64) Some(65) Some(66)
";
    format!(in alloc;
        "{layout}{:?} true [1]\n[64, 67] false [2, 3]\n[65, 66, 67] true [3]\n",
        long
    )
}

/// Whether a long row and two short ones, whose part begins inside a word, are told as they should.
fn is_told_across_words(alloc: Global, long: &[u32]) -> Result<bool, AllocError> {
    let parities = [long, &[64, 65, 66], &[65, 66, 67]];
    let told = told(alloc, 67, &parities, &[Shown::Layout, Shown::Reduced])?;
    Ok(told.as_str() == wanted_of_long_row(alloc, long)?.as_str())
}

/// As `is_told_across_words`, of the numbers from 1 up to 63.
fn is_long_row_told(alloc: Global) -> Result<bool, AllocError> {
    let long = long_row(alloc)?;
    is_told_across_words(alloc, &long)
}

#[test]
fn a_part_lies_across_two_words(rt: HostRuntime) {
    expect(&rt, is_long_row_told(rt.alloc()), &true);
}
