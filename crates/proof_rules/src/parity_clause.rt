//! Clauses that one parity implies.
ghost use Rattle.std.specs.Prelude.{◌≡◌, IfOk, [], ◌∷◌};
ghost use Rattle.cx_base.specs.Problem.{clause_met, parity_met};
ghost use Rattle.cx_semantics.specs.ProofRules.{all_met, clause_of_parity};
ghost use Rattle.proof_rules.specs.Assignments.{has_opposites, forced_sum, Decided};
ghost use Rattle.proof_rules.specs.Judges.{JudgesBy};

use crate::JudgeRefusal;
use crate::literal_set::LiteralSet;
use crate::marks::JudgeMarks;
use cx_base::{Lit, Var};
use cx_semantics::Cause;
use std::alloc::AllocError;

/// Whether the set has the negation of some literal.
fn has_opposite(set: &LiteralSet, lits: &[Lit]) -> bool
    ensures { result ≡ has_opposites set.now lits.now }
{
    for lit in lits {
        if set.contains(lit.negate()) {
            return true;
        }
    }
    false
}

/// The sum of the variables where all literals of the clause are false, if that gives each of them a value.
fn sum_outside(clause: &LiteralSet, variables: &[Var]) -> Option<bool>
    ensures { result ≡ forced_sum clause.now variables.now }
{
    let mut sum = false;
    for variable in variables {
        if clause.contains(Lit::new(*variable, true)) {
            sum = !sum;
        } else if !clause.contains(Lit::new(*variable, false)) {
            return None;
        }
    }
    Some(sum)
}

/// Whether the parity has the clause met under all values that meet it.
///
/// Where all literals of the clause can be false at once, these give the variables of the parity a sum, or leave one of
/// them free.
fn is_implied(marks: &mut JudgeMarks, parity: &[Lit], clause: &[Lit]) -> Result<bool, AllocError>
    ensures { IfOk result (Decided (all_met parity_met (parity.now ∷ [])) (λ values. clause_met values clause.now)) }
{
    marks.assumed.set_to(clause)?;
    if has_opposite(&marks.assumed, clause) {
        return Ok(true);
    }
    marks.sum.set_to(parity)?;
    marks.sum.variables(&mut marks.variables)?;
    match sum_outside(&marks.assumed, &marks.variables) {
        Some(outside) => Ok(outside != marks.sum.right_side()),
        None => Ok(false),
    }
}

/// Judges the target as implied by the parity.
pub(crate) fn judge_target(
    marks: &mut JudgeMarks,
    parity: &[Lit],
    target: &[Lit],
) -> Result<(), JudgeRefusal>
    ensures { JudgesBy (clause_of_parity target.now (parity.now ∷ [])) result }
{
    if is_implied(marks, parity, target)? {
        Ok(())
    } else {
        Err(JudgeRefusal::Wrong(Cause::NotImplied))
    }
}
