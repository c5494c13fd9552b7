//! The space of a formula's parities.
ghost use Rattle.std.specs.Prelude.{◌≡◌, ℕ, ◌<◌, ◌≤◌, ◌^◌, true, false, length, IfOk};
ghost use Rattle.std.specs.List.{AllByRecursion};
ghost use Rattle.cx_base.specs.declared.literal.TheConstants.{MAX_VARIABLE};
ghost use Rattle.cx_base.specs.Problem.{AreWithin, parities_of};
ghost use Rattle.gf2_matrix.specs.Content.{IsEchelonRow};
ghost use Rattle.gf2_space.specs.Spaces.{Describes};
ghost use Rattle.gf2_space.specs.Kept.{AreOwners, AreUnowned, HasNoClash, HasClash};

use crate::affine::Space;
use crate::supports::supports_of;
use cx_base::{Formula, Lit, LitList, ParityList};
use gf2_lists::ListedRows;
use std::alloc::{AllocError, Global};

/// The solutions of the formula's parities, or none where they have none. Its clauses have no say.
pub fn space(alloc: Global, formula: &Formula) -> Result<Option<Space>, AllocError>
    ensures { IfOk result (Describes formula.now.variables (parities_of formula.now.constraints)) }
{
    let parities = parities(alloc, formula)?;
    let rows = ListedRows::echelon(alloc, formula.vars(), parities)?;
    if clashes(&rows) {
        return Ok(None);
    }
    let owners = owners_of(alloc, &rows)?;
    let free = free_of(alloc, &owners)?;
    let supports = supports_of(alloc, &rows, &owners)?;
    Ok(Some(Space::new(rows, owners, free, supports)))
}

/// The formula's parities, in order.
fn parities(alloc: Global, formula: &Formula) -> Result<ParityList, AllocError>
    ensures are { IfOk result (λ p. p ≡ parities_of formula.now.constraints) }
    ensures within { IfOk result (λ p. AllByRecursion (AreWithin formula.now.variables) p) }
{
    let mut parities = Vec::with_capacity(alloc, formula.parity_count())?;
    for number in 0..formula.parity_count() {
        parities.push(copy_of(alloc, formula.parity(number + 1))?)?;
    }
    Ok(ParityList::from_vec(parities))
}

/// A copy of these literals.
fn copy_of(alloc: Global, lits: &[Lit]) -> Result<LitList, AllocError>
    ensures { IfOk result (λ copy. copy ≡ lits.now) }
{
    Ok(LitList::from_vec(lits.to_vec(alloc)?))
}

/// Whether some row without a variable has right side 1.
fn clashes(rows: &ListedRows) -> bool
    ensures some { result ≡ true → HasClash rows.now }
    ensures none { result ≡ false → HasNoClash rows.now }
{
    for r in 0..rows.rows() {
        if rows.row_right(r) && rows.least(r).is_none() {
            return true;
        }
    }
    false
}

/// For each variable the number, from 1, of the row whose least it is, or 0.
fn owners_of(alloc: Global, rows: &ListedRows) -> Result<Vec<u32>, AllocError>
    requires few { length rows.now.rows < 2 ^ 32 }
    requires echelon { (r : ℕ) → r < length rows.now.rows → IsEchelonRow rows.now r }
    ensures { IfOk result (λ owners. AreOwners rows.now owners.items) }
{
    let mut owners = vec![in alloc; 0; rows.vars() as usize]?;
    for r in 0..rows.rows() {
        if let Some(var) = rows.least(r) {
            owners[var.number() as usize - 1] = r as u32 + 1;
        }
    }
    Ok(owners)
}

/// The variables without a row, rising.
fn free_of(alloc: Global, owners: &[u32]) -> Result<Vec<u32>, AllocError>
    requires few { length owners.now ≤ MAX_VARIABLE }
    ensures { IfOk result (λ free. AreUnowned owners.now free.items (length owners.now)) }
{
    let mut free = Vec::new(alloc);
    for x in 0..owners.len() {
        if owners[x] == 0 {
            free.push(x as u32 + 1)?;
        }
    }
    Ok(free)
}
