//! The trimming of a proof.
ghost use Rattle.std.specs.Prelude.{◌≡◌, ℕ, List, false, IfOk, IfErr, length};
ghost use Rattle.cx_base.specs.Problem.{Unmet, clauses_of, parities_of};
ghost use Rattle.xlrup_check.specs.Verdicts.{HasCause, ReadsStand};
ghost use Rattle.proof_trim.specs.Laws.{IsRefutation};
ghost use Rattle.proof_trim.specs.Marking.{marked};
ghost use Rattle.proof_trim.specs.Outcomes.{AnswersAsJudged, IsTrimOf, ListsNames, Trims, WhereDone};
ghost use Rattle.proof_trim.specs.Trimmed.{core_of, trimmed};

use crate::back::{FoundNeeded, go_back};
use crate::keep::keep;
use crate::kept::KeptSteps;
use crate::names::NameSet;
use crate::outcome::{TrimOf, Trimmed};
use crate::store::StepStore;
use cx_base::{Formula, IdList, ProofStep};
use proof_rules::Kind;
use std::alloc::{AllocError, Global};
use step_text::StepSource;
use xlrup_check::{Fault, Verdict, check_and_record};

/// The numbers up to this count, rising, whose names are in the set.
fn numbers_in(
    alloc: Global,
    names: &NameSet,
    kind: Kind,
    count: usize,
) -> Result<IdList, AllocError>
    ensures { IfOk result (ListsNames names.now kind count) }
{
    let mut numbers = Vec::new(alloc);
    for place in 0..count {
        let number = place as u64 + 1;
        if names.has(kind, number) {
            numbers.push(number)?;
        }
    }
    Ok(IdList::from_vec(numbers))
}

/// The numbers of those of a formula's constraints that needed steps name, rising.
#[derive(Drop)]
struct NamedConstraints {
    clauses: IdList,
    parities: IdList,
}

/// The numbers of the formula's constraints whose names are in the set.
fn named_constraints(
    alloc: Global,
    formula: &Formula,
    names: &NameSet,
) -> Result<NamedConstraints, AllocError>
    ensures clauses { IfOk result (λ named. ListsNames names.now Kind.Clauses (length (clauses_of formula.now.constraints)) named.clauses) }
    ensures parities { IfOk result (λ named. ListsNames names.now Kind.Parities (length (parities_of formula.now.constraints)) named.parities) }
{
    let clauses = numbers_in(alloc, names, Kind::Clauses, formula.clause_count())?;
    let parities = numbers_in(alloc, names, Kind::Parities, formula.parity_count())?;
    Ok(NamedConstraints { clauses, parities })
}

/// The marked steps, and the deletions of what is live among them.
fn kept_of(
    alloc: Global,
    formula: &Formula,
    proof: StepStore,
    marks: Vec<bool>,
) -> Result<KeptSteps, AllocError>
    requires { length marks.items ≡ length proof }
    ensures { IfOk result (λ kept. kept.steps ≡ trimmed formula.now (marked marks.items) proof) }
{
    let mut here = proof.opened(alloc)?;
    let stays = keep(alloc, formula, &proof, marks, &mut here)?;
    Ok(KeptSteps::of(proof, stays, here))
}

/// What is left of an accepted proof.
fn trimmed_of(alloc: Global, formula: &Formula, proof: StepStore) -> Result<Trimmed, AllocError>
    ensures { IfOk result (Trims formula.now proof) }
{
    let found = go_back(alloc, formula, &proof)?;
    let FoundNeeded { marks, wanted } = found;
    let named = named_constraints(alloc, formula, &wanted)?;
    let steps = kept_of(alloc, formula, proof, marks)?;
    let NamedConstraints { clauses, parities } = named;
    Ok(Trimmed {
        steps,
        clauses,
        parities,
    })
}

/// Judges a proof of the formula as `check` does, and gives what is left of an accepted one: the steps that its last one
/// needs, by their hints and the hints of those, and the numbers of the formula's constraints that these name.
///
/// The steps that it gives are accepted themselves, and no values meet the constraints that it names together with the
/// assumption constraints. Where the assumptions clash, no step is left and no constraint is named.
pub fn trim<S: StepSource<Step = ProofStep>>(
    alloc: Global,
    formula: &Formula,
    source: &mut S,
) -> Result<TrimOf, Fault>
    requires { S.is_spent source.old ≡ false }
    ensures judged { (text : List ℕ) → S.may_read source.new text → IfOk result (AnswersAsJudged (λ a. S.leaves a text) formula.now source.old) }
    ensures trimmed { (text : List ℕ) → S.may_read source.new text → WhereDone result (IsTrimOf (λ a. S.leaves a text) formula.now source.old) }
    ensures accepted { WhereDone result (λ t. IsRefutation formula.now t.steps.steps) }
    ensures core { WhereDone result (λ t. Unmet (core_of formula.now t.clauses t.parities)) }
    ensures cause { (text : List ℕ) → S.may_read source.new text → IfErr result (HasCause (S.passes_limit source.old text) (S.faults source.old) (S.faults source.new)) }
    ensures narrows { (text : List ℕ) → S.may_read source.new text → S.may_read source.old text }
    ensures reads { ReadsStand result (S.faults source.old) (S.faults source.new) }
    ensures frame { S.keeps source.old source.new }
{
    let mut store = StepStore::new(alloc);
    match check_and_record(alloc, formula, source, &mut store)? {
        Verdict::Refused(number, cause) => Ok(TrimOf::Refused(number, cause)),
        Verdict::Verified(_) => match trimmed_of(alloc, formula, store) {
            Ok(trimmed) => Ok(TrimOf::Done(trimmed)),
            Err(_) => Err(Fault::Memory),
        },
    }
}
