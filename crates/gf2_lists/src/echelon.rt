//! Rows in echelon form, by lists or by a matrix.
ghost use Rattle.std.specs.Prelude.{◌<◌, ◌≤◌, ◌^◌, length, IfOk, IfSome};
ghost use Rattle.std.specs.List.{AllByRecursion};
ghost use Rattle.cx_base.specs.Problem.{AreWithin};
ghost use Rattle.cx_base.specs.declared.literal.TheConstants.{MAX_VARIABLE};
ghost use Rattle.gf2_lists.specs.Echelon.{AreEchelonOf};

use crate::eliminating::eliminate;
use crate::making::rows_of;
use crate::row::ListedRow;
use crate::unpacked::unpacked;
use cx_base::{LitList, ParityList};
use gf2_matrix::Matrix;
use std::alloc::{AllocError, Global};

/// Rows in echelon form by lists alone, or none where these grew too long.
fn by_lists(
    alloc: Global,
    vars: u32,
    parities: &[LitList],
) -> Result<Option<Vec<ListedRow>>, AllocError>
    requires few { length parities.now < 2 ^ 32 }
    requires within { AllByRecursion (AreWithin vars) parities.now }
    ensures { IfOk result (λ o. IfSome o (λ rows. AreEchelonOf vars parities.now rows.items)) }
{
    let mut rows = rows_of(alloc, parities)?;
    let done = eliminate(alloc, vars, &mut rows)?;
    if done {
        return Ok(Some(rows));
    }
    Ok(None)
}

/// Rows in echelon form by a matrix.
fn by_matrix(alloc: Global, vars: u32, parities: &ParityList) -> Result<Vec<ListedRow>, AllocError>
    requires few { vars ≤ MAX_VARIABLE }
    requires within { AllByRecursion (AreWithin vars) parities.now }
    ensures { IfOk result (λ rows. AreEchelonOf vars parities.now rows.items) }
{
    let mut matrix = Matrix::make_of_independent(alloc, vars, parities)?;
    matrix.echelon();
    let rows = unpacked(alloc, &matrix)?;
    Ok(rows)
}

/// Rows in echelon form that say what the parities say.
pub(crate) fn echelon_rows(
    alloc: Global,
    vars: u32,
    parities: &ParityList,
) -> Result<Vec<ListedRow>, AllocError>
    requires few { vars ≤ MAX_VARIABLE }
    requires few_parities { length parities.now < 2 ^ 32 }
    requires within { AllByRecursion (AreWithin vars) parities.now }
    ensures { IfOk result (λ rows. AreEchelonOf vars parities.now rows.items) }
{
    match by_lists(alloc, vars, parities.as_slice())? {
        Some(rows) => Ok(rows),
        None => by_matrix(alloc, vars, parities),
    }
}
