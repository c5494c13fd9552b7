//! The variables that rows have.
ghost use Rattle.std.specs.Prelude.{◌≡◌, ℕ, ◌-◌, ◌<◌, ◌≤◌, true, false, length, slice_index, slice_index_or, IfOk};
ghost use Rattle.cx_base.specs.declared.literal.TheConstants.{MAX_VARIABLE};
ghost use Rattle.gf2_lists.specs.Listed.{AreListed};
ghost use Rattle.gf2_lists.specs.Occurring.{AreMarked, HasMarks, HaveColumns};
ghost use Rattle.parity_engine.specs.Written.{AreRising};

use crate::row::ListedRow;
use std::alloc::{AllocError, Global};

/// Marks the variables of the list.
fn mark_list(marks: &mut [bool], vars: &[u32])
    requires { AreRising 1 (length marks.old) vars.now }
    ensures long { length marks.new ≡ length marks.old }
    ensures stay { (x : ℕ) → slice_index_or marks.old x false ≡ true → slice_index_or marks.new x false ≡ true }
    ensures marked { (i : ℕ) → i < length vars.now → slice_index_or marks.new (slice_index vars.now i - 1) false ≡ true }
{
    for var in vars {
        marks[*var as usize - 1] = true;
    }
}

/// A mark for each variable, set where some row has it.
fn marks_of(alloc: Global, vars: u32, rows: &[ListedRow]) -> Result<Vec<bool>, AllocError>
    requires { AreListed vars rows.now }
    ensures { IfOk result (λ marks. HasMarks vars rows.now marks.items (length rows.now)) }
{
    let mut marks = vec![in alloc; false; vars as usize]?;
    for row in rows {
        mark_list(&mut marks, &row.vars);
    }
    Ok(marks)
}

/// The marked variables, rising.
fn marked(alloc: Global, marks: &[bool]) -> Result<Vec<u32>, AllocError>
    requires few { length marks.now ≤ MAX_VARIABLE }
    ensures { IfOk result (λ columns. AreMarked marks.now columns.items (length marks.now)) }
{
    let mut columns = Vec::new(alloc);
    for x in 0..marks.len() {
        if marks[x] {
            columns.push(x as u32 + 1)?;
        }
    }
    Ok(columns)
}

/// The variables of the rows, rising.
pub(crate) fn columns_of(
    alloc: Global,
    vars: u32,
    rows: &[ListedRow],
) -> Result<Vec<u32>, AllocError>
    requires few { vars ≤ MAX_VARIABLE }
    requires listed { AreListed vars rows.now }
    ensures rising { IfOk result (λ columns. AreRising 1 vars columns.items) }
    ensures all { IfOk result (λ columns. HaveColumns rows.now columns.items) }
{
    let marks = marks_of(alloc, vars, rows)?;
    let columns = marked(alloc, &marks)?;
    Ok(columns)
}
