//! The solutions of a formula's parities.
ghost use Rattle.std.specs.Prelude.{◌≤◌};
ghost use Rattle.cx_words.specs.declared.plans.Plan.TheVariants as plan;
ghost use Rattle.solve_cli.specs.Seen.{seen};
ghost use Rattle.solve_cli.specs.Commands.{Unasked};
ghost use Rattle.solve_cli.specs.Steps.{Acts, Finds};

use crate::load::read_formula_of;
use crate::{Ending, Outcome};
use cx_desk::Desk;
use cx_words::Name;
use gf2_space::space;
use std::alloc::{AllocError, Global};

/// `affine`: reads the formula, and finds the solutions of its parities. Its clauses and assumptions have no say.
pub(crate) fn solutions_of<D: Desk>(
    alloc: Global,
    desk: &mut D,
    formula: Name,
    limit: u64,
) -> Result<Ending, Outcome>
    requires fresh { Unasked (D.outside desk.old).asked }
    requires limit { limit ≤ 4294967295 }
    ensures { Acts limit (D.outside desk.old) (D.outside desk.new) (λ w. Finds (plan.Affine formula) limit (seen w (D.outside desk.old)) result (seen w (D.outside desk.new))) }
{
    let formula = read_formula_of(alloc, desk, formula, limit)?;
    match space(alloc, &formula) {
        Ok(space) => Ok(Ending::Affine(space)),
        Err(AllocError) => Err(Outcome::Memory),
    }
}
