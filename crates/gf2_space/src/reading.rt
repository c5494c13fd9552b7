//! What rows in echelon form say of a point and vectors.
ghost use Rattle.std.specs.Prelude.{◌≡◌, ◌-◌, ◌≤◌};
ghost use Rattle.gf2_space.specs.Kept.{AreOwners, point_value, vector_bit};

use cx_base::Var;
use gf2_lists::ListedRows;

/// The value of a variable in the point.
pub(crate) fn point_value(rows: &ListedRows, owners: &[u32], var: Var) -> bool
    requires owners { AreOwners rows.now owners.now }
    requires within { var ≤ rows.now.vars }
    ensures { result ≡ point_value rows.now owners.now (var - 1) }
{
    let owner = owners[var.index()];
    owner != 0 && rows.row_right(owner as usize - 1)
}

/// Whether the vector of a free variable has a variable.
pub(crate) fn vector_has(rows: &ListedRows, owners: &[u32], free: Var, var: Var) -> bool
    requires owners { AreOwners rows.now owners.now }
    requires free_within { free ≤ rows.now.vars }
    requires within { var ≤ rows.now.vars }
    ensures { result ≡ vector_bit rows.now owners.now free (var - 1) }
{
    let owner = owners[var.index()];
    if var == free {
        return true;
    }
    owner != 0 && rows.has(owner as usize - 1, free)
}
