//! Elimination: until no row has the first variable of another.
ghost use Rattle.std.specs.Prelude.{◌≡◌, ℕ, ◌+◌, ◌-◌, ◌<◌, ◌^◌, true, length, slice_index, slice_set, IfOk};
ghost use Rattle.parity_engine.specs.Written.{AreRising};
ghost use Rattle.gf2_lists.specs.Listed.{AreListed};
ghost use Rattle.gf2_lists.specs.Eliminating.{SaySame, AreOwners, AreEliminated};

use crate::reducing::reduced;
use crate::row::ListedRow;
use std::alloc::{AllocError, Global};

/// This many times the length of all lists may be added before elimination by lists is given up: sparse parities take a
/// few times their length, and where rows fill up a matrix is faster.
const TIMES: usize = 16;

/// Adds rows to others until none has the first variable of another. It is false where the lists grew too long.
pub(crate) fn eliminate(
    alloc: Global,
    vars: u32,
    rows: &mut [ListedRow],
) -> Result<bool, AllocError>
    requires few { length rows.old < 2 ^ 32 }
    requires listed { AreListed vars rows.old }
    ensures { IfOk result (λ done. done ≡ true → AreEliminated vars rows.old rows.new) }
{
    let mut owners = vec![in alloc; 0; vars as usize]?;
    let mut left = room(rows);
    let entered = enter_rows(alloc, rows, &mut owners, &mut left)?;
    if entered {
        let done = clear_rows(alloc, rows, &owners, &mut left)?;
        return Ok(done);
    }
    Ok(false)
}

/// How much may be added.
fn room(rows: &[ListedRow]) -> usize {
    let mut room = 0usize;
    for row in rows {
        room = room.saturating_add(row.vars.len().saturating_mul(TIMES));
    }
    room
}

/// Notes the number of a row, from 1, at its first variable.
fn note(owners: &mut [u32], vars: &[u32], row: usize)
    requires few { row + 1 < 2 ^ 32 }
    requires rises { AreRising 1 (length owners.old) vars.now }
    ensures none { length vars.now ≡ 0 → owners.new ≡ owners.old }
    ensures some { 0 < length vars.now → owners.new ≡ slice_set owners.old (slice_index vars.now 0 - 1) (row + 1) }
{
    if !vars.is_empty() {
        owners[vars[0] as usize - 1] = row as u32 + 1;
    }
}

/// Takes the rows from the last on, adds rows taken before to each until it has the first variable of none, and notes
/// its number, from 1, at its own first variable.
///
/// From the last on, since rows of a chain that are given in rising order are then added once each.
fn enter_rows(
    alloc: Global,
    rows: &mut [ListedRow],
    owners: &mut [u32],
    left: &mut usize,
) -> Result<bool, AllocError>
    requires few { length rows.old < 2 ^ 32 }
    requires listed { AreListed (length owners.old) rows.old }
    requires none { (x : ℕ) → x < length owners.old → slice_index owners.old x ≡ 0 }
    ensures same { IfOk result (λ done. done ≡ true → SaySame (length owners.old) rows.old rows.new) }
    ensures owners { IfOk result (λ done. done ≡ true → AreOwners (length owners.old) rows.new owners.new (length rows.new)) }
{
    let count = rows.len();
    for k in 0..count {
        if *left == 0 {
            return Ok(false);
        }
        let row = count - 1 - k;
        let new = reduced(alloc, rows, owners, row, left)?;
        note(owners, &new.vars, row);
        rows[row] = new;
    }
    Ok(true)
}

/// Adds rows to those before, the greatest first variable first, until each has the first variable of no other.
fn clear_rows(
    alloc: Global,
    rows: &mut [ListedRow],
    owners: &[u32],
    left: &mut usize,
) -> Result<bool, AllocError>
    requires few { length rows.old < 2 ^ 32 }
    requires listed { AreListed (length owners.now) rows.old }
    requires owners { AreOwners (length owners.now) rows.old owners.now (length rows.old) }
    ensures { IfOk result (λ done. done ≡ true → AreEliminated (length owners.now) rows.old rows.new) }
{
    let vars = owners.len();
    for k in 0..vars {
        if *left == 0 {
            return Ok(false);
        }
        let owner = owners[vars - 1 - k] as usize;
        if owner != 0 {
            let new = reduced(alloc, rows, owners, owner - 1, left)?;
            rows[owner - 1] = new;
        }
    }
    Ok(true)
}
