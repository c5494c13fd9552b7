//! What the rules of log steps ask, by a look at each constraint.
ghost use Rattle.std.specs.Prelude.{◌≡◌, ◌∷◌, ◌++◌, [], not, IfOk, MatchBool};
ghost use Rattle.cx_base.specs.Integers.{literals};
ghost use Rattle.cx_base.specs.Parity.{normal_form};
ghost use Rattle.cx_semantics.specs.declared.cause.Cause.TheVariants as causes;
ghost use Rattle.cx_semantics.specs.Judging.{refused_where};
ghost use Rattle.cx_semantics.specs.LogRules.{chained, naming, is_original, IsOriginalParity};
ghost use Rattle.cx_semantics.specs.ProofRules.{adding, summing, clause_of_parity, parity_of_clauses};
ghost use Rattle.cx_semantics.specs.Tables.{named};
ghost use Rattle.proof_rules.specs.Judges.{JudgesBy};
ghost use Rattle.proof_rules.specs.Kinds.{chosen};
ghost use Rattle.plain_tests.specs.Judged.{original_parity};

use crate::constraints::parity_at;
use crate::fresh::saturate;
use crate::recovered::stands;
use cx_base::{Formula, IntList, Lit, LitList};
use cx_semantics::Cause;
use proof_rules::{
    JudgeMarks, JudgeRefusal, Kind, Live, admit_into, fill_parity_content,
    judge_clause_of_named_parity, judge_named_sum, judge_parity_of_named_clauses,
};
use std::alloc::{AllocError, Global};

/// The literals of what is added: its variables are the formula's, and its id is not live.
pub(crate) fn admit(
    alloc: Global,
    formula: &Formula,
    live: &Live,
    kind: Kind,
    id: u64,
    lits: &IntList,
) -> Result<LitList, JudgeRefusal>
    ensures judged { JudgesBy (adding formula.now (chosen kind live.now) id lits.now) result }
    ensures literals { IfOk result (λ target. target ≡ literals lits.now) }
{
    admit_into(Vec::new(alloc), formula.vars(), lits, live.has(kind, id))
}

/// A clause follows by a chain where propagation from its negations meets a conflict.
pub(crate) fn judge_chained(alloc: Global, live: &Live, target: &[Lit]) -> Result<(), JudgeRefusal>
    ensures { JudgesBy (chained live.now.clauses target.now) result }
{
    let closed = saturate(alloc, live, target)?;
    if closed.is_some() {
        return Err(JudgeRefusal::Wrong(Cause::NoChain));
    }
    Ok(())
}

/// A clause of the formula has the same literals.
pub(crate) fn judge_original(formula: &Formula, target: &[Lit]) -> Result<(), JudgeRefusal>
    ensures { JudgesBy (refused_where causes.NotInFormula (not (is_original formula.now target.now)) ∷ []) result }
{
    if stands(formula, target) {
        Ok(())
    } else {
        Err(JudgeRefusal::Wrong(Cause::NotInFormula))
    }
}

/// Whether the numbers are the same.
fn are_equal(numbers: &[u32], others: &[u32]) -> bool
    ensures { MatchBool result (numbers.now ≡ others.now) (¬ (numbers.now ≡ others.now)) }
{
    numbers == others
}

/// Whether two parities have one normal form.
fn have_same_form(alloc: Global, lits: &[Lit], others: &[Lit]) -> Result<bool, AllocError>
    ensures { IfOk result (λ b. MatchBool b (normal_form lits.now ≡ normal_form others.now) (¬ (normal_form lits.now ≡ normal_form others.now))) }
{
    let mut first = Vec::new(alloc);
    fill_parity_content(&mut first, lits)?;
    let mut second = Vec::new(alloc);
    fill_parity_content(&mut second, others)?;
    Ok(are_equal(&first, &second))
}

/// Whether a parity of the formula has the same normal form.
fn is_original_parity(alloc: Global, formula: &Formula, lits: &[Lit]) -> Result<bool, AllocError>
    ensures { IfOk result (λ b. MatchBool b (IsOriginalParity formula.now lits.now) (¬ IsOriginalParity formula.now lits.now)) }
{
    for place in 0..formula.parity_count() {
        if have_same_form(alloc, parity_at(formula, place), lits)? {
            return Ok(true);
        }
    }
    Ok(false)
}

/// A parity of the formula has the same normal form.
pub(crate) fn judge_original_parity(
    alloc: Global,
    formula: &Formula,
    target: &[Lit],
) -> Result<(), JudgeRefusal>
    ensures { JudgesBy (original_parity formula.now target.now) result }
{
    if is_original_parity(alloc, formula, target)? {
        Ok(())
    } else {
        Err(JudgeRefusal::Wrong(Cause::NotInFormula))
    }
}

/// A parity is the sum of those of these ids.
pub(crate) fn judge_sum(
    alloc: Global,
    live: &Live,
    target: &LitList,
    ids: &[u64],
) -> Result<(), JudgeRefusal>
    ensures { JudgesBy (naming live.now.parities ids.now ++ summing target.now (named live.now.parities ids.now)) result }
{
    judge_named_sum(&mut JudgeMarks::new(alloc), live, target, ids)
}

/// The parity of this id implies a clause.
pub(crate) fn judge_clause_of_parity(
    alloc: Global,
    live: &Live,
    target: &LitList,
    id: u64,
) -> Result<(), JudgeRefusal>
    ensures { JudgesBy (naming live.now.parities (id ∷ []) ++ clause_of_parity target.now (named live.now.parities (id ∷ []))) result }
{
    judge_clause_of_named_parity(&mut JudgeMarks::new(alloc), live, target, id)
}

/// The clauses of these ids imply a parity.
pub(crate) fn judge_parity_of_clauses(
    alloc: Global,
    live: &Live,
    target: &LitList,
    ids: &[u64],
) -> Result<(), JudgeRefusal>
    ensures { JudgesBy (naming live.now.clauses ids.now ++ parity_of_clauses target.now (named live.now.clauses ids.now)) result }
{
    judge_parity_of_named_clauses(&mut JudgeMarks::new(alloc), live, target, ids)
}
