//! Rows made of parities.
ghost use Rattle.std.specs.Prelude.{IfOk, length};
ghost use Rattle.gf2_lists.specs.Made.{IsRowOf, AreRowsOf};

use crate::row::ListedRow;
use cx_base::{Lit, LitList};
use std::alloc::{AllocError, Global};
use xor_blast::{fill_rising, right_side};

/// The row of a parity's normal form.
fn row_of(alloc: Global, lits: &[Lit]) -> Result<ListedRow, AllocError>
    ensures { IfOk result (λ r. IsRowOf lits.now r.vars.items r.right) }
{
    let mut vars = Vec::new(alloc);
    fill_rising(&mut vars, lits)?;
    let right = right_side(lits);
    Ok(ListedRow { vars, right })
}

/// A row for each parity.
pub(crate) fn rows_of(alloc: Global, parities: &[LitList]) -> Result<Vec<ListedRow>, AllocError>
    ensures { IfOk result (λ rows. AreRowsOf parities.now rows.items (length parities.now)) }
{
    let mut rows = Vec::with_capacity(alloc, parities.len())?;
    for parity in parities {
        let new = row_of(alloc, parity.as_slice())?;
        rows.push(new)?;
    }
    Ok(rows)
}
