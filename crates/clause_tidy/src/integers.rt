//! Literals as the integers of a step.
ghost use Rattle.std.specs.Prelude.{◌≡◌, ◌≢◌, ◌≤◌, IfOk, pos, nat_abs};
ghost use Rattle.cx_base.specs.Integers.{integer_of, integers_of, literal, literals};

use cx_base::{IntList, Lit};
use std::alloc::{AllocError, Global};

/// The integer of a literal.
fn integer(lit: Lit) -> i64
    ensures integer { result ≡ integer_of lit }
    ensures literal { literal result ≡ lit }
    ensures proper { (result ≢ pos 0) × (nat_abs result ≤ 9223372036854775807) }
{
    let number = i64::from(lit.var().number());
    if lit.is_negative() { -number } else { number }
}

/// The integers of these literals, in order.
pub(crate) fn integers(alloc: Global, lits: &[Lit]) -> Result<IntList, AllocError>
    ensures integers { IfOk result (λ z. z ≡ integers_of lits.now) }
    ensures literals { IfOk result (λ z. literals z ≡ lits.now) }
{
    let mut integers = Vec::with_capacity(alloc, lits.len())?;
    for lit in lits {
        integers.push(integer(*lit))?;
    }
    Ok(IntList::from_vec(integers))
}
