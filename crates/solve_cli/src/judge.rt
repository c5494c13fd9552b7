//! The endings of the commands that judge a text.
ghost use Rattle.std.specs.Prelude.{◌≡◌, ◌≤◌, List, ℕ, true, false, IfOk, IfErr, MatchOption};
ghost use Rattle.cx_desk.specs.Outside.{started_in};
ghost use Rattle.cx_desk.specs.declared.desk.Slot.TheVariants.{Second};
ghost use Rattle.cx_texts.specs.ProofText.{proof_steps};
ghost use Rattle.cx_words.specs.declared.plans.Plan.TheVariants as plan;
ghost use Rattle.step_text.specs.Slots.{IsPossible, is_too_long};
ghost use Rattle.step_text.specs.SlotAnswers.{PairLeaves};
ghost use Rattle.step_text.specs.Texts.{is_spent_by};
ghost use Rattle.xlrup_check.specs.Verdicts.{IsJudgedBy, HasCause};
ghost use Rattle.solve_cli.specs.Happens.{refusal_of, Judged};
ghost use Rattle.solve_cli.specs.Seen.{seen};
ghost use Rattle.solve_cli.specs.Steps.{Acts, Ready};
ghost use Rattle.solve_cli.specs.SlotTexts.{JudgesProof, LeavesSlot, checked_as, drained_with};

use crate::proof_on_desk::ProofOnDesk;
use crate::{Ending, Outcome, WrongAnswer};
use cx_base::Formula;
use cx_desk::{Desk, DrainErr, Slot};
use model_out::{AnswerRefusal, read_answer};
use proof_text::ProofGrammar;
use std::alloc::{AllocError, Global};
use step_text::SlotReader;
use xlrup_check::{Fault, Verdict, check};

/// Judges the proof that a reader takes from a desk.
fn check_on<D: Desk>(
    alloc: Global,
    desk: &mut D,
    formula: &Formula,
    reader: &mut SlotReader<ProofGrammar>,
) -> Result<Verdict, Fault>
    requires started { started_in reader.old.bytes.slot (D.outside desk.old).started ≡ true }
    requires fresh { is_spent_by reader.old.refused ≡ false }
    ensures judged { (text : List ℕ) → IsPossible reader.new.bytes (D.outside desk.new) text
        → IfOk result (IsJudgedBy (PairLeaves proof_steps text) formula.now (reader.old, D.outside desk.old)) }
    ensures cause { (text : List ℕ) → IsPossible reader.new.bytes (D.outside desk.new) text
        → IfErr result (HasCause (is_too_long reader.old.bytes (D.outside desk.old) text) (D.outside desk.old).faults.reads (D.outside desk.new).faults.reads) }
    ensures slot { LeavesSlot result reader.old.bytes (D.outside desk.old) reader.new.bytes (D.outside desk.new) }
{
    let mut source = ProofOnDesk { reader, desk };
    check(alloc, formula, &mut source)
}

/// What a judgement of a proof ends in.
fn checked(judged: Result<Verdict, Fault>) -> Result<Ending, Outcome>
    ensures { result ≡ checked_as judged }
{
    match judged {
        Ok(Verdict::Verified(step)) => Ok(Ending::Verified(step)),
        Ok(Verdict::Refused(step, cause)) => Ok(Ending::NotVerified(step, cause)),
        Err(Fault::Memory) => Err(Outcome::Memory),
        Err(Fault::Read) => Err(Outcome::ReadFault),
        Err(Fault::TooLong) => Err(Outcome::Ended(Ending::TooLong(Slot::Second))),
    }
}

/// What was found, where the rest of the second text was read.
pub(crate) fn drained<T: Drop>(found: T, rest: Result<(), DrainErr>) -> Result<T, Outcome>
    ensures { result ≡ drained_with found rest }
{
    match rest {
        Ok(()) => Ok(found),
        Err(DrainErr::Failed) => Err(Outcome::ReadFault),
        Err(DrainErr::TooLong) => Err(Outcome::Ended(Ending::TooLong(Slot::Second))),
    }
}

/// `check`: judges the proof in the second slot, and reads that slot to its end. What comes after the step that decides
/// is not judged, but its length counts.
pub(crate) fn judge_proof<D: Desk>(
    alloc: Global,
    desk: &mut D,
    formula: &Formula,
    limit: u64,
) -> Result<Ending, Outcome>
    requires started { started_in Second (D.outside desk.old).started ≡ true }
    requires limit { limit ≤ 4294967295 }
    ensures { (name : List ℕ) → Ready Second name (D.outside desk.old) → Acts limit (D.outside desk.old) (D.outside desk.new) (λ w. JudgesProof formula.now name limit (seen w (D.outside desk.old)) result (seen w (D.outside desk.new))) }
{
    let mut reader = SlotReader::new(alloc, Slot::Second, limit);
    let judged = check_on(alloc, desk, formula, &mut reader);
    let ending = checked(judged)?;
    let rest = reader.drain_from(desk);
    drained(ending, rest)
}

/// The cause for which printed values are refused; none where memory ran out.
fn wrong_of(refusal: AnswerRefusal) -> Option<WrongAnswer>
    ensures { MatchOption result (refusal ≡ AnswerRefusal.Memory) (λ w. refusal ≡ refusal_of w) }
{
    match refusal {
        AnswerRefusal::NoStatusLine => Some(WrongAnswer::NoStatusLine),
        AnswerRefusal::BadToken(place) => Some(WrongAnswer::BadToken(place)),
        AnswerRefusal::Missing(var) => Some(WrongAnswer::Missing(var.number())),
        AnswerRefusal::Twice(var) => Some(WrongAnswer::Twice(var.number())),
        AnswerRefusal::Unmet(number) => Some(WrongAnswer::Unmet(number)),
        AnswerRefusal::Memory => None,
    }
}

/// `model`: judges the text of an answer.
pub(crate) fn judge_answer(
    alloc: Global,
    formula: &Formula,
    text: &[u8],
) -> Result<Ending, AllocError>
    ensures { (n a : List ℕ) → IfOk result (λ e. Judged e (plan.Model n a) formula.now text.now) }
{
    let refusal = match read_answer(alloc, text, formula) {
        Ok(_values) => return Ok(Ending::ModelRight),
        Err(refusal) => refusal,
    };
    match wrong_of(refusal) {
        Some(wrong) => Ok(Ending::ModelWrong(wrong)),
        None => Err(AllocError),
    }
}
