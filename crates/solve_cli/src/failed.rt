//! The assumed literals that fail, as they are told.
ghost use Rattle.std.specs.Prelude.{◌≡◌, IfOk};
ghost use Rattle.cx_semantics.specs.Chain.{HaveSame};
ghost use Rattle.solve_cli.specs.Failed.{AreInOrder, AreRising, has_assumption};

use cdcl_search::integers::integers;
use cx_base::{Formula, IntList, Lit, LitList};
use std::alloc::{AllocError, Global};

/// Whether the formula has an assumption constraint.
fn has_assumption(formula: &Formula) -> bool
    ensures { result ≡ has_assumption formula.now.constraints }
{
    let all = formula.len();
    formula.clause_count() + formula.parity_count() < all
}

/// The different literals, by rising variables; of one variable the literal without a sign comes first.
fn rising(alloc: Global, lits: &[Lit]) -> Result<Vec<Lit>, AllocError>
    ensures rising { IfOk result (λ d. AreRising d.items) }
    ensures same { IfOk result (λ d. HaveSame d.items lits.now) }
{
    let mut found = lits.to_vec(alloc)?;
    found.sort_unstable();
    found.dedup();
    Ok(found)
}

/// The literals that fail, by rising variables; none where the formula has no assumption constraint.
pub(crate) fn in_order(
    alloc: Global,
    formula: &Formula,
    failed: LitList,
) -> Result<Option<IntList>, AllocError>
    ensures { IfOk result (AreInOrder formula.now failed) }
{
    if !has_assumption(formula) {
        return Ok(None);
    }
    let lits = rising(alloc, failed.as_slice())?;
    Ok(Some(integers(alloc, &lits)?))
}
