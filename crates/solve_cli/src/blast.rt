//! A formula in clauses, written on the Proof port.
ghost use Rattle.std.specs.Prelude.{◌≡◌, ◌≤◌, List, ℕ, None, MatchResult};
ghost use Rattle.cx_words.specs.declared.plans.Plan.TheVariants as plan;
ghost use Rattle.solve_cli.specs.Seen.{seen};
ghost use Rattle.solve_cli.specs.Blasting.{IsInClauses, BlastFails};
ghost use Rattle.solve_cli.specs.Commands.{Unasked};
ghost use Rattle.solve_cli.specs.Steps.{Acts, Finds, ReadsInClauses};

use crate::load::{create_proof, read_formula_of};
use crate::{Ending, Outcome};
use cnfx_reader::put_formula;
use cx_base::Formula;
use cx_desk::{Desk, Failed, Port};
use cx_words::Name;
use std::alloc::Global;
use xor_blast::{BlastRefusal, blast};

/// The formula in clauses.
fn in_clauses(alloc: Global, formula: &Formula) -> Result<Formula, Outcome>
    ensures { MatchResult result (IsInClauses formula.now) (BlastFails formula.now) }
{
    match blast(alloc, formula) {
        Ok(made) => Ok(made),
        Err(BlastRefusal::Limit(number)) => Err(Outcome::Ended(Ending::TooManyVariables(number))),
        Err(BlastRefusal::Memory) => Err(Outcome::Memory),
    }
}

/// Reads the formula, and puts it into clauses.
fn read_in_clauses<D: Desk>(
    alloc: Global,
    desk: &mut D,
    formula: Name,
    limit: u64,
) -> Result<Formula, Outcome>
    requires unasked { (D.outside desk.old).asked.formula ≡ None }
    requires limit { limit ≤ 4294967295 }
    ensures { (out : List ℕ) → Acts limit (D.outside desk.old) (D.outside desk.new) (λ w. ReadsInClauses formula out limit (seen w (D.outside desk.old)) result (seen w (D.outside desk.new))) }
{
    let formula = read_formula_of(alloc, desk, formula, limit)?;
    in_clauses(alloc, &formula)
}

/// `blast`: reads the formula, puts it into clauses, and only then gives the Proof port its file and writes them there.
pub(crate) fn blast_formula<D: Desk>(
    alloc: Global,
    desk: &mut D,
    formula: Name,
    out: Name,
    limit: u64,
) -> Result<Ending, Outcome>
    requires fresh { Unasked (D.outside desk.old).asked }
    requires limit { limit ≤ 4294967295 }
    ensures { Acts limit (D.outside desk.old) (D.outside desk.new) (λ w. Finds (plan.Blast formula out) limit (seen w (D.outside desk.old)) result (seen w (D.outside desk.new))) }
{
    let made = read_in_clauses(alloc, desk, formula, limit)?;
    create_proof(desk, Some(out))?;
    match put_formula(desk, Port::Proof, &made) {
        Ok(()) => Ok(Ending::Blasted {
            variables: made.vars(),
            clauses: made.clause_count() as u64,
        }),
        Err(Failed) => Err(Outcome::WriteFault),
    }
}
