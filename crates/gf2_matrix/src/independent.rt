//! Parities that say what more of them say, so that a matrix needs no rows for the others.
ghost use Rattle.std.specs.Prelude.{◌≡◌, ℕ, ◌+◌, ◌<◌, ◌≤◌, ◌++◌, true, false, length, slice_index_or, IfOk, MatchOption};
ghost use Rattle.std.specs.List.{AllByRecursion, range_with_len};
ghost use Rattle.cx_base.specs.declared.literal.TheConstants.{MAX_VARIABLE};
ghost use Rattle.cx_base.specs.Problem.{AreWithin};
ghost use Rattle.parity_engine.specs.Equations.{numbered};
ghost use Rattle.parity_engine.specs.Written.{AreRising};
ghost use Rattle.gf2_matrix.specs.Content.{HasOwnColumn, IsOfGiven, has, row_at};
ghost use Rattle.gf2_matrix.specs.Enough.{SayAll, SayFirst, kept};

use crate::matrix::Matrix;
use cx_base::{LitList, MAX_VARIABLE, ParityList};
use std::alloc::{AllocError, Global};

/// At least so many parities are looked at together.
const BATCH: usize = 2048;

/// The numbers, from 1 and rising, of parities that say what all of them say.
///
/// What is kept of the first ones is looked at with a batch of the next, so that a part's rows are never more than
/// its columns and a batch.
pub(crate) fn independent(
    alloc: Global,
    vars: u32,
    parities: &[LitList],
) -> Result<Vec<u32>, AllocError>
    requires few { vars ≤ MAX_VARIABLE }
    requires within { AllByRecursion (AreWithin vars) parities.now }
    requires few_parities { length parities.now < 4294967296 }
    ensures { IfOk result (λ numbers. SayFirst vars parities.now numbers.items (length parities.now)) }
{
    let mut numbers = Vec::new(alloc);
    let mut from = 0;
    while from < parities.len() {
        let more = numbers.len().max(BATCH).min(parities.len() - from);
        add_range(&mut numbers, from, more)?;
        numbers = enough_of(alloc, vars, parities, &numbers)?;
        from += more;
    }
    Ok(numbers)
}

/// Appends the numbers of so many parities from this place on.
fn add_range(numbers: &mut Vec<u32>, from: usize, more: usize) -> Result<(), AllocError>
    requires { from + more < 4294967296 }
    ensures { IfOk result (λ _. numbers.new.items ≡ numbers.old.items ++ range_with_len (from + 1) more) }
{
    for k in from..from + more {
        numbers.push(k as u32 + 1)?;
    }
    Ok(())
}

/// Of the numbers, those of parities that say what all of theirs say.
fn enough_of(
    alloc: Global,
    vars: u32,
    parities: &[LitList],
    numbers: &[u32],
) -> Result<Vec<u32>, AllocError>
    requires few { vars ≤ MAX_VARIABLE }
    requires within { AllByRecursion (AreWithin vars) parities.now }
    requires rise { AreRising 1 (length parities.now) numbers.now }
    ensures { IfOk result (λ left. (n : ℕ) → SayFirst vars parities.now numbers.now n → SayFirst vars parities.now left.items n) }
{
    let chosen = chosen_of(alloc, parities, numbers)?;
    let marks = marks_of(alloc, vars, &chosen)?;
    marked(alloc, numbers, &marks)
}

/// Copies of the parities of the numbers.
pub(crate) fn chosen_of(
    alloc: Global,
    parities: &[LitList],
    numbers: &[u32],
) -> Result<ParityList, AllocError>
    requires { AreRising 1 (length parities.now) numbers.now }
    ensures { IfOk result (λ chosen. chosen ≡ numbered parities.now numbers.now) }
{
    let mut chosen = Vec::with_capacity(alloc, numbers.len())?;
    for number in numbers {
        let parity = &parities[*number as usize - 1];
        chosen.push(LitList::from_vec(parity.as_slice().to_vec(alloc)?))?;
    }
    Ok(ParityList::from_vec(chosen))
}

/// The numbers that are marked.
fn marked(alloc: Global, numbers: &[u32], marks: &[bool]) -> Result<Vec<u32>, AllocError>
    requires { length marks.now ≡ length numbers.now }
    ensures { IfOk result (λ left. left.items ≡ kept numbers.now marks.now) }
{
    let mut left = Vec::new(alloc);
    for k in 0..numbers.len() {
        if marks[k] {
            left.push(numbers[k])?;
        }
    }
    Ok(left)
}

/// Marks of parities that say what all of them say.
fn marks_of(alloc: Global, vars: u32, parities: &ParityList) -> Result<Vec<bool>, AllocError>
    requires few { vars ≤ MAX_VARIABLE }
    requires within { AllByRecursion (AreWithin vars) parities.now }
    ensures { IfOk result (λ marks. SayAll vars parities.now marks.items) }
{
    let mut matrix = Matrix::make(alloc, vars, parities)?;
    matrix.reduce();
    let mut marks = vec![in alloc; false; matrix.given()]?;
    mark_enough(&matrix, &mut marks);
    Ok(marks)
}

/// Marks parities that say what all of them say: those that add up to a contradiction, if some do, or else those that
/// the rows with a variable are sums of.
fn mark_enough(matrix: &Matrix, marks: &mut [bool])
    requires long { length marks.old ≡ length matrix.now.given }
    requires of_given { IsOfGiven matrix.now }
    requires reduced { (r : ℕ) → r < length matrix.now.rows → HasOwnColumn matrix.now r }
    ensures { SayAll matrix.now.vars matrix.now.given marks.new }
{
    match contradiction(matrix) {
        Some(row) => mark_sources(matrix, row, marks),
        None => mark_rows(matrix, marks),
    }
}

/// A row without a variable and with right side 1.
fn contradiction(matrix: &Matrix) -> Option<usize>
    ensures { MatchOption result
        ((r : ℕ) → r < length matrix.now.rows → ((x : ℕ) → has (row_at matrix.now.rows r) x ≡ false) → (row_at matrix.now.rows r).right ≡ false)
        (λ r. (r < length matrix.now.rows) × ((x : ℕ) → has (row_at matrix.now.rows r) x ≡ false) × ((row_at matrix.now.rows r).right ≡ true)) }
{
    for row in 0..matrix.rows() {
        if matrix.row_right(row) && matrix.first_column(row).is_none() {
            return Some(row);
        }
    }
    None
}

/// Marks the sources of each row that has a variable.
fn mark_rows(matrix: &Matrix, marks: &mut [bool])
    requires { length marks.old ≡ length matrix.now.given }
    ensures long { length marks.new ≡ length marks.old }
    ensures marked { (r x k : ℕ) → r < length matrix.now.rows → k < length matrix.now.given → has (row_at matrix.now.rows r) x ≡ true
        → slice_index_or (row_at matrix.now.rows r).sources k false ≡ true → slice_index_or marks.new k false ≡ true }
{
    for row in 0..matrix.rows() {
        if matrix.first_column(row).is_some() {
            mark_sources(matrix, row, marks);
        }
    }
}

/// Marks the parities that the row is the sum of.
fn mark_sources(matrix: &Matrix, row: usize, marks: &mut [bool])
    requires row_in { row < length matrix.now.rows }
    requires long { length marks.old ≡ length matrix.now.given }
    ensures long { length marks.new ≡ length marks.old }
    ensures stay { (k : ℕ) → slice_index_or marks.old k false ≡ true → slice_index_or marks.new k false ≡ true }
    ensures marked { (k : ℕ) → k < length matrix.now.given → slice_index_or (row_at matrix.now.rows row).sources k false ≡ true → slice_index_or marks.new k false ≡ true }
{
    for at in 0..marks.len() {
        if matrix.has_source(row, at) {
            marks[at] = true;
        }
    }
}
