//! The clauses of a parity.
ghost use Rattle.std.specs.Prelude.{◌≡◌, ℕ, ◌≤◌, ◌++◌, [], IfOk, OnOk};
ghost use Rattle.std.specs.List.{All};
ghost use Rattle.cx_base.specs.Problem.{AreWithin};
ghost use Rattle.cx_base.specs.declared.literal.TheConstants.{MAX_VARIABLE};
ghost use Rattle.cx_base.specs.declared.constraint.Constraint.TheVariants as constraint;
ghost use Rattle.xor_blast.specs.Rising.{IsVariable};
ghost use Rattle.xor_blast.specs.Adding.{AddsPieces, AddsConstraint};

use crate::normal::{fill_rising, right_side};
use crate::piece::push_piece;
use cx_base::{FormulaBuilder, Lit, MAX_VARIABLE};
use std::alloc::AllocError;

/// Adds the clauses of all pieces of these variables and this right side. The new variables are those after `vars`.
///
/// It gives the greatest variable then, or `None` where that would pass the limit.
fn push_pieces(
    builder: &mut FormulaBuilder,
    variables: &mut Vec<u32>,
    right: bool,
    vars: u32,
) -> Result<Option<u32>, AllocError>
    requires ended { builder.old.unfinished ≡ [] }
    requires variables { All IsVariable variables.old.items }
    requires few { vars ≤ MAX_VARIABLE }
    ensures { IfOk result (AddsPieces builder.old builder.new vars variables.old.items right) }
{
    let mut last = vars;
    let mut start = 0;
    while variables.len() - start > 4 {
        if last >= MAX_VARIABLE {
            return Ok(None);
        }
        last += 1;
        let piece = [
            variables[start],
            variables[start + 1],
            variables[start + 2],
            last,
        ];
        push_piece(builder, &piece, false)?;
        start += 2;
        variables[start] = last;
    }
    push_piece(builder, &variables[start..], right)?;
    Ok(Some(last))
}

/// Adds the clauses of a parity, for which it makes a list of its variables.
pub(crate) fn push_parity(
    builder: &mut FormulaBuilder,
    variables: &mut Vec<u32>,
    lits: &[Lit],
    vars: u32,
) -> Result<Option<u32>, AllocError>
    requires ended { builder.old.unfinished ≡ [] }
    requires within { AreWithin MAX_VARIABLE lits.now }
    requires few { vars ≤ MAX_VARIABLE }
    ensures { IfOk result (λ o. (n : ℕ) → AreWithin n lits.now → AddsConstraint builder.old builder.new n vars (constraint.Parity lits.now) o) }
{
    fill_rising(variables, lits)?;
    push_pieces(builder, variables, right_side(lits), vars)
}
