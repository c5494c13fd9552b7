//! Rows without the first variables of others.
ghost use Rattle.std.specs.Prelude.{◌≡◌, ◌≢◌, ◌⊎◌, ◌+◌, ◌<◌, ◌^◌, true, false, length, IfOk};
ghost use Rattle.gf2_lists.specs.Listed.{AreListed};
ghost use Rattle.gf2_lists.specs.Reducing.{OwnFirsts, IsReduced};

use crate::row::{ListedRow, sum_of};
use std::alloc::{AllocError, Global};

/// Whether the number, from 1, is that of no row but this.
fn is_own(number: usize, row: usize) -> bool
    requires { row + 1 < 2 ^ 64 }
    ensures yes { result ≡ true → (number ≡ 0) ⊎ (number ≡ row + 1) }
    ensures no { result ≡ false → (number ≢ 0) × (number ≢ row + 1) }
{
    number == 0 || number == row + 1
}

/// The row with other rows added, until it has the first variable of none of them. `owners` has for each variable the
/// number, from 1, of the row whose first it is, or 0.
///
/// The lengths of the lists that it adds are taken from `left`.
pub(crate) fn reduced(
    alloc: Global,
    rows: &[ListedRow],
    owners: &[u32],
    row: usize,
    left: &mut usize,
) -> Result<ListedRow, AllocError>
    requires row_in { row < length rows.now }
    requires few { length rows.now < 2 ^ 32 }
    requires listed { AreListed (length owners.now) rows.now }
    requires owned { OwnFirsts owners.now rows.now }
    ensures { IfOk result (λ r. IsReduced owners.now rows.now row r.vars.items r.right) }
{
    let mut done = Vec::new(alloc);
    let mut rest = rows[row].vars.to_vec(alloc)?;
    let mut right = rows[row].right;
    let mut at = 0;
    'walk: while at < rest.len() {
        let var = rest[at];
        let owner = owners[var as usize - 1] as usize;
        if is_own(owner, row) {
            done.push(var)?;
            at += 1;
        } else {
            let other = &rows[owner - 1];
            *left = left
                .saturating_sub(rest.len())
                .saturating_sub(other.vars.len());
            rest = sum_of(alloc, &rest[at + 1..], &other.vars[1..])?;
            right ^= other.right;
            at = 0;
        }
    }
    Ok(ListedRow { vars: done, right })
}
