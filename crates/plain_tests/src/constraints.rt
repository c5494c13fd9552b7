//! The clauses and the parities of a formula by their places.
ghost use Rattle.std.specs.Prelude.{◌≡◌, ◌<◌, [], get_or, length};
ghost use Rattle.cx_base.specs.Problem.{clauses_of, parities_of};

use cx_base::{Formula, Lit};

/// The clause at a place, from 0.
pub(crate) fn clause_at(formula: &Formula, place: usize) -> &[Lit]
    requires { place < length (clauses_of formula.now.constraints) }
    ensures { result.now ≡ get_or (clauses_of formula.now.constraints) place [] }
{
    // that the number fits, which this call tells the proof
    let _count = formula.clause_count();
    formula.clause(place + 1)
}

/// The parity at a place, from 0.
pub(crate) fn parity_at(formula: &Formula, place: usize) -> &[Lit]
    requires { place < length (parities_of formula.now.constraints) }
    ensures { result.now ≡ get_or (parities_of formula.now.constraints) place [] }
{
    // that the number fits, which this call tells the proof
    let _count = formula.parity_count();
    formula.parity(place + 1)
}
