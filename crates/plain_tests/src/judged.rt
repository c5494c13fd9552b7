//! The steps of a log, judged and done one after another.
ghost use Rattle.std.specs.Prelude.{◌≡◌, IfOk, OnOk, false};
ghost use Rattle.cx_base.specs.Assumptions.{clashes};
ghost use Rattle.cx_base.specs.Endings.{finished};
ghost use Rattle.cx_base.specs.declared.steps.LogStep.TheVariants as step;
ghost use Rattle.cx_semantics.specs.Judging.{JudgedAs};
ghost use Rattle.cx_semantics.specs.Tables.{no_tables};
ghost use Rattle.cx_semantics.specs.LogRules.{log_rules, after_log_step, derives_ending_clause, log_calculus};
ghost use Rattle.proof_rules.specs.Judges.{JudgesBy};
ghost use Rattle.plain_tests.specs.Judged.{judgement_of};

use crate::log_rules::{
    admit, judge_chained, judge_clause_of_parity, judge_original, judge_original_parity,
    judge_parity_of_clauses, judge_sum,
};
use cx_base::{Formula, IdList, IntList, LogStep};
use cx_semantics::Cause;
use proof_rules::{JudgeRefusal, Kind, Live};
use std::alloc::{AllocError, Global};

/// How a log is judged. Steps count from 1.
#[derive(Clone, Copy, PartialEq, Eq, Debug, Drop)]
pub enum Judged {
    /// Each step is right up to the one that ends the log; 0 where the assumptions clash.
    Right(u64),
    /// The step is refused for its first cause, or the log ends before it.
    Refused(u64, Cause),
}

/// A clause of the formula.
fn take_original(
    alloc: Global,
    formula: &Formula,
    live: &mut Live,
    id: u64,
    lits: &IntList,
) -> Result<(), JudgeRefusal>
    ensures judged { JudgesBy (log_rules formula.now live.old (step.Original id lits.now)) result }
    ensures taken { OnOk result (live.new ≡ after_log_step live.old (step.Original id lits.now)) }
{
    let target = admit(alloc, formula, live, Kind::Clauses, id, lits)?;
    match judge_original(formula, target.as_slice()) {
        Ok(()) => {}
        Err(why) => return Err(why),
    }
    live.add_copy(Kind::Clauses, id, target.as_slice())?;
    Ok(())
}

/// A parity of the formula.
fn take_original_parity(
    alloc: Global,
    formula: &Formula,
    live: &mut Live,
    id: u64,
    lits: &IntList,
) -> Result<(), JudgeRefusal>
    ensures judged { JudgesBy (log_rules formula.now live.old (step.OriginalParity id lits.now)) result }
    ensures taken { OnOk result (live.new ≡ after_log_step live.old (step.OriginalParity id lits.now)) }
{
    let target = admit(alloc, formula, live, Kind::Parities, id, lits)?;
    match judge_original_parity(alloc, formula, target.as_slice()) {
        Ok(()) => {}
        Err(why) => return Err(why),
    }
    live.add_copy(Kind::Parities, id, target.as_slice())?;
    Ok(())
}

/// A clause by a chain.
fn take_clause(
    alloc: Global,
    formula: &Formula,
    live: &mut Live,
    id: u64,
    lits: &IntList,
) -> Result<(), JudgeRefusal>
    ensures judged { JudgesBy (log_rules formula.now live.old (step.Clause id lits.now)) result }
    ensures taken { OnOk result (live.new ≡ after_log_step live.old (step.Clause id lits.now)) }
{
    let target = admit(alloc, formula, live, Kind::Clauses, id, lits)?;
    match judge_chained(alloc, live, target.as_slice()) {
        Ok(()) => {}
        Err(why) => return Err(why),
    }
    live.add_copy(Kind::Clauses, id, target.as_slice())?;
    Ok(())
}

/// A parity as a sum.
fn take_parity(
    alloc: Global,
    formula: &Formula,
    live: &mut Live,
    id: u64,
    lits: &IntList,
    sources: &IdList,
) -> Result<(), JudgeRefusal>
    ensures judged { JudgesBy (log_rules formula.now live.old (step.Parity id lits.now sources.now)) result }
    ensures taken { OnOk result (live.new ≡ after_log_step live.old (step.Parity id lits.now sources.now)) }
{
    let target = admit(alloc, formula, live, Kind::Parities, id, lits)?;
    match judge_sum(alloc, live, &target, sources.as_slice()) {
        Ok(()) => {}
        Err(why) => return Err(why),
    }
    live.add_copy(Kind::Parities, id, target.as_slice())?;
    Ok(())
}

/// A clause that a parity implies.
fn take_clause_of_parity(
    alloc: Global,
    formula: &Formula,
    live: &mut Live,
    id: u64,
    lits: &IntList,
    source: u64,
) -> Result<(), JudgeRefusal>
    ensures judged { JudgesBy (log_rules formula.now live.old (step.ClauseOfParity id lits.now source)) result }
    ensures taken { OnOk result (live.new ≡ after_log_step live.old (step.ClauseOfParity id lits.now source)) }
{
    let target = admit(alloc, formula, live, Kind::Clauses, id, lits)?;
    match judge_clause_of_parity(alloc, live, &target, source) {
        Ok(()) => {}
        Err(why) => return Err(why),
    }
    live.add_copy(Kind::Clauses, id, target.as_slice())?;
    Ok(())
}

/// A parity that clauses imply.
fn take_parity_of_clauses(
    alloc: Global,
    formula: &Formula,
    live: &mut Live,
    id: u64,
    lits: &IntList,
    sources: &IdList,
) -> Result<(), JudgeRefusal>
    ensures judged { JudgesBy (log_rules formula.now live.old (step.ParityOfClauses id lits.now sources.now)) result }
    ensures taken { OnOk result (live.new ≡ after_log_step live.old (step.ParityOfClauses id lits.now sources.now)) }
{
    let target = admit(alloc, formula, live, Kind::Parities, id, lits)?;
    match judge_parity_of_clauses(alloc, live, &target, sources.as_slice()) {
        Ok(()) => {}
        Err(why) => return Err(why),
    }
    live.add_copy(Kind::Parities, id, target.as_slice())?;
    Ok(())
}

/// Judges a step, and does it where it is right. After an error the tables are spoilt.
fn take_step(
    alloc: Global,
    formula: &Formula,
    live: &mut Live,
    step: &LogStep,
) -> Result<(), JudgeRefusal>
    ensures judged { JudgesBy (log_rules formula.now live.old step.now) result }
    ensures taken { OnOk result (live.new ≡ after_log_step live.old step.now) }
{
    match step {
        LogStep::Original(id, lits) => take_original(alloc, formula, live, *id, lits),
        LogStep::OriginalParity(id, lits) => take_original_parity(alloc, formula, live, *id, lits),
        LogStep::Clause(id, lits) | LogStep::ClauseWithHints(id, lits, _) => {
            take_clause(alloc, formula, live, *id, lits)
        }
        LogStep::Parity(id, lits, ids) => take_parity(alloc, formula, live, *id, lits, ids),
        LogStep::ClauseOfParity(id, lits, source) => {
            take_clause_of_parity(alloc, formula, live, *id, lits, *source)
        }
        LogStep::ParityOfClauses(id, lits, ids) => {
            take_parity_of_clauses(alloc, formula, live, *id, lits, ids)
        }
        LogStep::Delete(id, _) => {
            live.remove(Kind::Clauses, *id);
            Ok(())
        }
        LogStep::DeleteParity(id, _) => {
            live.remove(Kind::Parities, *id);
            Ok(())
        }
        LogStep::Final(_, _) | LogStep::FinalParity(_, _) => Ok(()),
        LogStep::MoveClauses(moves) => live.judge_and_move(Kind::Clauses, moves.as_slice()),
        LogStep::MoveParities(moves) => live.judge_and_move(Kind::Parities, moves.as_slice()),
    }
}

/// Whether a right step ends the log.
pub(crate) fn ends_log(formula: &Formula, step: &LogStep) -> bool
    ensures { result ≡ derives_ending_clause formula.now step.now }
{
    match step {
        LogStep::Clause(_, lits)
        | LogStep::ClauseWithHints(_, lits, _)
        | LogStep::ClauseOfParity(_, lits, _) => formula.is_ending_integers(lits.as_slice()),
        LogStep::Original(_, _)
        | LogStep::OriginalParity(_, _)
        | LogStep::Parity(_, _, _)
        | LogStep::ParityOfClauses(_, _, _)
        | LogStep::Delete(_, _)
        | LogStep::DeleteParity(_, _)
        | LogStep::Final(_, _)
        | LogStep::FinalParity(_, _)
        | LogStep::MoveClauses(_)
        | LogStep::MoveParities(_) => false,
    }
}

/// How the steps are judged one after another, where the assumptions do not clash and nothing is live yet.
fn judge_from(
    alloc: Global,
    formula: &Formula,
    live: &mut Live,
    steps: &[LogStep],
) -> Result<Judged, AllocError>
    requires no_clash { clashes formula.now.constraints ≡ false }
    requires nothing { live.old ≡ no_tables }
    ensures { IfOk result (λ judged. JudgedAs (log_calculus formula.now) steps.now finished (judgement_of judged)) }
{
    for place in 0..steps.len() {
        let step = &steps[place];
        match take_step(alloc, formula, live, step) {
            Ok(()) => {}
            Err(JudgeRefusal::Wrong(cause)) => {
                return Ok(Judged::Refused(place as u64 + 1, cause));
            }
            Err(JudgeRefusal::Memory) => return Err(AllocError),
        }
        if ends_log(formula, step) {
            return Ok(Judged::Right(place as u64 + 1));
        }
    }
    Ok(Judged::Refused(steps.len() as u64 + 1, Cause::NoEmptyClause))
}

/// How a log of these steps is judged, with nothing after the last one.
pub fn judge(alloc: Global, formula: &Formula, steps: &[LogStep]) -> Result<Judged, AllocError>
    ensures { IfOk result (λ judged. JudgedAs (log_calculus formula.now) steps.now finished (judgement_of judged)) }
{
    if formula.clash().is_some() {
        return Ok(Judged::Right(0));
    }
    let mut live = Live::beside(alloc, formula);
    judge_from(alloc, formula, &mut live, steps)
}
