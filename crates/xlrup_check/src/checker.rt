//! The judgement of a proof, step by step.
ghost use Rattle.std.specs.Prelude.{◌≡◌, ◌<◌, ◌≤◌, ◌^◌, ℕ, false, None, [], List, Ok, IfOk, IfErr, OnOk};
ghost use Rattle.cx_base.specs.Assumptions.{clashes};
ghost use Rattle.cx_semantics.specs.Tables.{first_tables};
ghost use Rattle.xlrup_check.specs.Verdicts.{IsJudgedBy, IsSound, HasCause, IsTooLongBy, ReadsStand, LeavesSource, CanGoOn, KeepsLimits, RecordsAll, Tells, Kept, Goes, text_refused, what_follows_of};
ghost use Rattle.xlrup_check.specs.declared.verdict.Fault.TheVariants.{Memory};

use crate::recorder::{Recorder, Unrecorded};
use crate::step::take_step;
use crate::verdict::{Fault, Verdict};
use cx_base::{Formula, ProofStep};
use cx_semantics::Cause;
use proof_rules::{JudgeMarks, JudgeRefusal, Live};
use std::alloc::Global;
use step_text::{SpareLists, StepSource, TextRefusal};

/// What is kept from one step to the next.
#[derive(Drop)]
struct Checking<'f> {
    live: Live<'f>,
    /// For their memory alone, as the spare lists.
    marks: JudgeMarks,
    spare: SpareLists,
}

/// Judges a proof of the formula, from a source of steps.
///
/// Steps are taken in order. The first right step that adds an ending clause, all of whose literals are
/// negations of assumed ones, ends the proof; what follows is not judged. The first wrong step is
/// refused for its first cause. Where the assumptions clash, nothing is judged.
/// `Fault::Read` comes only where the source counted a fault, `Fault::TooLong` only where it answered
/// that its text is too long.
pub fn check<S: StepSource<Step = ProofStep>>(
    alloc: Global,
    formula: &Formula,
    source: &mut S,
) -> Result<Verdict, Fault>
    requires { S.is_spent source.old ≡ false }
    ensures judged { (text : List ℕ) → S.may_read source.new text → IfOk result (IsJudgedBy (λ a. S.leaves a text) formula.now source.old) }
    ensures sound { IfOk result (IsSound formula.now) }
    ensures cause { (text : List ℕ) → S.may_read source.new text → IfErr result (HasCause (S.passes_limit source.old text) (S.faults source.old) (S.faults source.new)) }
    ensures long { IfErr result (IsTooLongBy (S.stuck source.new)) }
    ensures narrows { (text : List ℕ) → S.may_read source.new text → S.may_read source.old text }
    ensures reads { ReadsStand result (S.faults source.old) (S.faults source.new) }
    ensures frame { S.keeps source.old source.new }
{
    check_and_record(alloc, formula, source, &mut Unrecorded)
}

/// Judges a proof as `check` does, and tells a recorder each right step, up to the one that ends the proof.
///
/// Where the assumptions clash, no step is told. `Fault::Memory` comes also where the recorder has none.
pub fn check_and_record<S: StepSource<Step = ProofStep>, R: Recorder>(
    alloc: Global,
    formula: &Formula,
    source: &mut S,
    recorder: &mut R,
) -> Result<Verdict, Fault>
    requires { S.is_spent source.old ≡ false }
    ensures judged { (text : List ℕ) → S.may_read source.new text → IfOk result (IsJudgedBy (λ a. S.leaves a text) formula.now source.old) }
    ensures sound { IfOk result (IsSound formula.now) }
    ensures recorded { R.told recorder.old [] → IfOk result (RecordsAll (S.may_read source.new) S.leaves (R.told recorder.new) formula.now source.old) }
    ensures source { LeavesSource S.may_read S.passes_limit S.stuck S.faults S.keeps source.old result source.new }
{
    if formula.clash().is_some() {
        return Ok(Verdict::Verified(0));
    }
    let live = match Live::of(alloc, formula) {
        Ok(live) => live,
        Err(_) => return Err(Fault::Memory),
    };
    let mut checking = Checking {
        live,
        marks: JudgeMarks::new(alloc),
        spare: SpareLists::new(alloc),
    };
    let done = take_all(&mut checking, formula, source, recorder);
    // By a call, since in place each vector in it is a step of the proof.
    drop(checking);
    done
}

/// Takes and judges one step after another, from the first on.
// It is lent what `check_and_record` owns, so that its exits have nothing to drop.
fn take_all<S: StepSource<Step = ProofStep>, R: Recorder>(
    checking: &mut Checking<'_>,
    formula: &Formula,
    source: &mut S,
    recorder: &mut R,
) -> Result<Verdict, Fault>
    requires fresh { S.is_spent source.old ≡ false }
    requires open { clashes formula.now.constraints ≡ false }
    requires first { checking.old.live ≡ first_tables formula.now }
    ensures judged { (text : List ℕ) → S.may_read source.new text → IfOk result (IsJudgedBy (λ a. S.leaves a text) formula.now source.old) }
    ensures sound { IfOk result (IsSound formula.now) }
    ensures recorded { R.told recorder.old [] → IfOk result (RecordsAll (S.may_read source.new) S.leaves (R.told recorder.new) formula.now source.old) }
    ensures source { LeavesSource S.may_read S.passes_limit S.stuck S.faults S.keeps source.old result source.new }
{
    let mut steps = 0;
    loop {
        match take_next(checking, formula, source, recorder, steps) {
            Ok(None) => steps += 1,
            Ok(Some(verdict)) => return Ok(verdict),
            Err(fault) => return Err(fault),
        }
    }
}

/// Takes and judges the next step of a proof, after this many right ones that leave these tables and did not end it. There is
/// no verdict where the proof goes on.
fn take_next<S: StepSource<Step = ProofStep>, R: Recorder>(
    checking: &mut Checking<'_>,
    formula: &Formula,
    source: &mut S,
    recorder: &mut R,
    steps: u64,
) -> Result<Option<Verdict>, Fault>
    requires fresh { S.is_spent source.old ≡ false }
    requires count { steps < 2 ^ 63 }
    requires few { steps ≤ S.place_of source.old }
    ensures goes { (first : S) (start : R) → Kept S.may_read S.leaves R.told formula.now first start source.old recorder.old checking.old.live steps
        → IfOk result (Goes S.may_read S.leaves R.told formula.now first start source.new recorder.new checking.new.live steps) }
    ensures next { IfOk result (λ verdict. verdict ≡ None → CanGoOn S.is_spent S.place_of source.old source.new) }
    ensures limits { KeepsLimits S.may_read S.passes_limit S.place_of source.old source.new }
    ensures source { LeavesSource S.may_read S.passes_limit S.stuck S.faults S.keeps source.old result source.new }
{
    let step = match source.next_step(&mut checking.spare) {
        Ok(Some(step)) => step,
        Ok(None) => {
            return Ok(Some(Verdict::Refused(steps + 1, Cause::NoEmptyClause)));
        }
        Err(why) => return refused_text(why, steps + 1),
    };
    let judged = take_step(&mut checking.marks, formula, &mut checking.live, &step);
    let next = what_follows(judged, recorder, &step, steps + 1);
    checking.spare.keep(step);
    next
}

/// What follows a step that was judged: no verdict where the proof goes on. A right step is told.
fn what_follows<R: Recorder>(
    judged: Result<bool, JudgeRefusal>,
    recorder: &mut R,
    step: &ProofStep,
    number: u64,
) -> Result<Option<Verdict>, Fault>
    ensures follows { IfOk result (λ verdict. what_follows_of judged number ≡ Ok verdict) }
    ensures told { OnOk result (OnOk judged (Tells R.told step.now recorder.old recorder.new)) }
    ensures memory { IfErr result (λ e. e ≡ Memory) }
{
    let ends = match judged {
        Ok(ends) => ends,
        Err(JudgeRefusal::Wrong(cause)) => return Ok(Some(Verdict::Refused(number, cause))),
        Err(JudgeRefusal::Memory) => return Err(Fault::Memory),
    };
    if recorder.tell(step).is_err() {
        return Err(Fault::Memory);
    }
    if ends {
        Ok(Some(Verdict::Verified(number)))
    } else {
        Ok(None)
    }
}

/// What is answered where the source gives no step.
fn refused_text(why: TextRefusal, number: u64) -> Result<Option<Verdict>, Fault>
    ensures { result ≡ text_refused why number }
{
    match why {
        TextRefusal::BadToken(place)
        | TextRefusal::Unterminated(place)
        | TextRefusal::TooBig(place) => {
            Ok(Some(Verdict::Refused(number, Cause::TextRefused(place))))
        }
        TextRefusal::TooLong => Err(Fault::TooLong),
        TextRefusal::Memory => Err(Fault::Memory),
        TextRefusal::Failed => Err(Fault::Read),
    }
}
