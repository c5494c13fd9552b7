//! For each column the variables whose rows have it, rising: what a line of a vector prints.
ghost use Rattle.std.specs.Prelude.{◌≡◌, ◌-◌, ◌+◌, ◌<◌, ◌≤◌, length, IfOk, OnOk};
ghost use Rattle.cx_base.specs.declared.literal.TheConstants.{MAX_VARIABLE};
ghost use Rattle.gf2_space.specs.Kept.{AreOwners};
ghost use Rattle.gf2_space.specs.Supports.{AreEmpty, AreSupports, TakeRow};

use gf2_lists::ListedRows;
use std::alloc::{AllocError, Global};

/// The least variables of the rows that have a column, rising.
#[derive(Drop)]
pub(crate) struct Support {
    pub(crate) vars: Vec<u32>,
}

/// Lists without a variable.
fn empty_supports(alloc: Global, count: usize) -> Result<Vec<Support>, AllocError>
    ensures { IfOk result (λ supports. AreEmpty supports.items count) }
{
    let mut supports = Vec::with_capacity(alloc, count)?;
    for _ in 0..count {
        supports.push(Support {
            vars: Vec::new(alloc),
        })?;
    }
    Ok(supports)
}

/// Adds a row's least variable to the list of each column that the row has.
fn take_row(
    supports: &mut [Support],
    rows: &ListedRows,
    row: usize,
    var: u32,
) -> Result<(), AllocError>
    requires row_in { row < length rows.now.rows }
    requires long { length supports.old ≡ length rows.now.columns }
    ensures { OnOk result (TakeRow rows.now row var supports.old supports.new) }
{
    // `columns` tells the proof that each column's number has a successor.
    let _columns = rows.columns();
    let mut from = 0;
    while let Some(column) = rows.next_column(row, from) {
        supports[column].vars.push(var)?;
        from = column + 1;
    }
    Ok(())
}

/// For each column the least variables of the rows that have it, rising.
pub(crate) fn supports_of(
    alloc: Global,
    rows: &ListedRows,
    owners: &[u32],
) -> Result<Vec<Support>, AllocError>
    requires few { length owners.now ≤ MAX_VARIABLE }
    requires owners { AreOwners rows.now owners.now }
    ensures { IfOk result (λ supports. AreSupports rows.now owners.now supports.items (length owners.now)) }
{
    let mut supports = empty_supports(alloc, rows.columns())?;
    for x in 0..owners.len() {
        if owners[x] != 0 {
            take_row(&mut supports, rows, owners[x] as usize - 1, x as u32 + 1)?;
        }
    }
    Ok(supports)
}
