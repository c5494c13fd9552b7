//! One step of a proof: judged, and then done.
ghost use Rattle.std.specs.Prelude.{◌≡◌, ◌&&◌};
ghost use Rattle.proof_rules.specs.Judges.{JudgesBy};
ghost use Rattle.cx_base.specs.Assumptions.{is_ending};
ghost use Rattle.proof_rules.specs.Kinds.{drop_constraints, is_clauses};
ghost use Rattle.xlrup_check.specs.Verdicts.{hint_rules, TakesAdded, TakesStep};

use cx_base::{Formula, IdList, IntList, LitList, ProofStep};
use proof_rules::{
    JudgeMarks, JudgeRefusal, Kind, Live, admit_into, judge_chain, judge_clause_of_parity,
    judge_parity_of_clauses, judge_sum,
};

/// Judges what a step adds by its hints.
#[inline(always)]
fn judge_added(
    marks: &mut JudgeMarks,
    live: &Live,
    step: &ProofStep,
    target: &LitList,
) -> Result<(), JudgeRefusal>
    ensures { JudgesBy (hint_rules live.now step.now target.now) result }
{
    match step {
        ProofStep::Clause(_, _, hints) => judge_chain(
            &mut marks.assumed,
            live,
            target,
            hints.as_slice(),
        ),
        ProofStep::Parity(_, _, hints) => judge_sum(marks, live, target, hints.as_slice()),
        ProofStep::ClauseOfParity(_, _, hint) => {
            judge_clause_of_parity(marks, live, target, *hint)
        }
        ProofStep::ParityOfClauses(_, _, hints) => {
            judge_parity_of_clauses(marks, live, target, hints.as_slice())
        }
        ProofStep::DeleteClauses(_, _) | ProofStep::DeleteParities(_) => Ok(()),
    }
}

/// Whether what a step adds ends the proof: literals of a clause all of whose negations are assumed.
#[inline(always)]
fn ends_proof(formula: &Formula, kind: Kind, target: &LitList) -> bool
    ensures { result ≡ (is_clauses kind && is_ending formula.now.constraints target.now) }
{
    match kind {
        Kind::Clauses => formula.is_ending(target.as_slice()),
        Kind::Parities => false,
    }
}

/// What a step adds: literals under an id.
#[derive(Clone, Copy, Drop)]
struct Added<'s> {
    kind: Kind,
    id: u64,
    lits: &'s IntList,
}

impl<'s> Added<'s> {
    /// These literals under this id.
    #[inline(always)]
    fn new(kind: Kind, id: u64, lits: &'s IntList) -> Added<'s>
        ensures kind { result.kind ≡ kind }
        ensures id { result.id ≡ id }
        ensures lits { result.lits.now ≡ lits.now }
    {
        Added { kind, id, lits }
    }
}

/// Adds the literals of a step, if its hints show them, and says whether they are an ending clause.
// In each of its places the kind of step is known, and so which judge is asked.
#[inline(always)]
fn take_added(
    marks: &mut JudgeMarks,
    formula: &Formula,
    live: &mut Live,
    added: Added<'_>,
    step: &ProofStep,
) -> Result<bool, JudgeRefusal>
    ensures { TakesAdded formula.now live.old added.entry.kind added.entry.id added.entry.lits.now step.now result live.new }
{
    let Added { kind, id, lits } = added;
    let target = admit_into(marks.literals(), formula.vars(), lits, live.has(kind, id))?;
    judge_added(marks, live, step, &target)?;
    live.add_copy(kind, id, target.as_slice())?;
    let ends = ends_proof(formula, kind, &target);
    marks.keep_literals(target);
    Ok(ends)
}

/// Takes constraints out.
fn delete(live: &mut Live, kind: Kind, ids: &IdList)
    ensures { live.new ≡ drop_constraints kind live.old ids.now }
{
    for id in ids.as_slice() {
        live.remove(kind, *id);
    }
}

/// Judges a step, and where it is right does it and says whether it ends the proof. `marks` are for their memory alone.
// The loop over steps is made anew for each recorder, and would call it there.
#[inline(always)]
pub(crate) fn take_step(
    marks: &mut JudgeMarks,
    formula: &Formula,
    live: &mut Live,
    step: &ProofStep,
) -> Result<bool, JudgeRefusal>
    ensures { TakesStep formula.now live.old step.now result live.new }
{
    match step {
        ProofStep::Clause(id, lits, _) => {
            let added = Added::new(Kind::Clauses, *id, lits);
            take_added(marks, formula, live, added, step)
        }
        ProofStep::Parity(id, lits, _) => {
            let added = Added::new(Kind::Parities, *id, lits);
            take_added(marks, formula, live, added, step)
        }
        ProofStep::ClauseOfParity(id, lits, _) => {
            let added = Added::new(Kind::Clauses, *id, lits);
            take_added(marks, formula, live, added, step)
        }
        ProofStep::ParityOfClauses(id, lits, _) => {
            let added = Added::new(Kind::Parities, *id, lits);
            take_added(marks, formula, live, added, step)
        }
        ProofStep::DeleteClauses(_, ids) => {
            delete(live, Kind::Clauses, ids);
            Ok(false)
        }
        ProofStep::DeleteParities(ids) => {
            delete(live, Kind::Parities, ids);
            Ok(false)
        }
    }
}
