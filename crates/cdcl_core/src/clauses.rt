//! Clauses of the formula, as the search keeps them.
ghost use Rattle.std.specs.Prelude.{◌≡◌, IfOk, IsTrue};
ghost use Rattle.std.specs.Bool.{OnTrue};
ghost use Rattle.cx_semantics.specs.Chain.{has_literal, same_literals};
ghost use Rattle.cx_semantics.specs.Fresh.{is_tautology};
ghost use Rattle.cdcl_core.specs.Clauses.{AreDifferent, RiseFrom};

use cx_base::Lit;
use std::alloc::{AllocError, Global};

/// A clause of more literals is sorted to find its repeats; up to here pairs take less, and literals stay in order.
const FEW_LITERALS: usize = 32;

/// Whether the literal is one of these.
fn has(lits: &[Lit], lit: Lit) -> bool
    ensures { result ≡ has_literal lits.now lit }
{
    for other in lits {
        if *other == lit {
            return true;
        }
    }
    false
}

/// Whether some literal occurs with its negation, by pairs.
fn has_both_in_pairs(lits: &[Lit]) -> bool
    ensures { result ≡ is_tautology lits.now }
{
    for lit in lits {
        if has(lits, lit.negate()) {
            return true;
        }
    }
    false
}

/// Whether the literals' codes rise.
fn are_rising(lits: &[Lit]) -> bool
    ensures { OnTrue result (RiseFrom 1 lits.now) }
{
    let mut last = 1;
    for lit in lits {
        if lit.code() <= last {
            return false;
        }
        last = lit.code();
    }
    true
}

/// Whether some literal comes right after its negation, among literals whose codes rise.
fn has_both_in_neighbours(lits: &[Lit]) -> bool
    requires { RiseFrom 1 lits.now }
    ensures { result ≡ is_tautology lits.now }
{
    let mut last = 1;
    for lit in lits {
        if lit.is_negative() && lit.code() == last + 1 {
            return true;
        }
        last = lit.code();
    }
    false
}

/// Whether some literal occurs with its negation.
pub(crate) fn has_both(lits: &[Lit]) -> bool
    ensures { result ≡ is_tautology lits.now }
{
    if are_rising(lits) {
        has_both_in_neighbours(lits)
    } else {
        has_both_in_pairs(lits)
    }
}

/// The different literals, in the order in which they come first.
fn different_in_order(alloc: Global, lits: &[Lit]) -> Result<Vec<Lit>, AllocError>
    ensures same { IfOk result (λ d. IsTrue (same_literals d.items lits.now)) }
    ensures once { IfOk result (λ d. AreDifferent d.items) }
{
    let mut found = Vec::new(alloc);
    for lit in lits {
        if !has(&found, *lit) {
            found.push(*lit)?;
        }
    }
    Ok(found)
}

/// The different literals, sorted.
fn different_sorted(alloc: Global, lits: &[Lit]) -> Result<Vec<Lit>, AllocError>
    ensures same { IfOk result (λ d. IsTrue (same_literals d.items lits.now)) }
    ensures once { IfOk result (λ d. AreDifferent d.items) }
{
    let mut found = lits.to_vec(alloc)?;
    found.sort_unstable();
    found.dedup();
    Ok(found)
}

/// The different literals: of a short clause in the order in which they come first, of a long one sorted.
pub(crate) fn different(alloc: Global, lits: &[Lit]) -> Result<Vec<Lit>, AllocError>
    ensures same { IfOk result (λ d. IsTrue (same_literals d.items lits.now)) }
    ensures once { IfOk result (λ d. AreDifferent d.items) }
{
    if lits.len() <= FEW_LITERALS {
        different_in_order(alloc, lits)
    } else {
        different_sorted(alloc, lits)
    }
}
