//! What a proof's last step needs, written on the Proof port.
ghost use Rattle.std.specs.Prelude.{◌≡◌, ◌≤◌, List, ℕ, true, false, IfOk, IfErr};
ghost use Rattle.std.specs.List.{AllByRecursion};
ghost use Rattle.cx_base.specs.Problem.{Unmet};
ghost use Rattle.cx_desk.specs.Calls.{PutsAll};
ghost use Rattle.cx_desk.specs.Outside.{started_in};
ghost use Rattle.cx_desk.specs.declared.desk.Port.TheVariants as port;
ghost use Rattle.cx_desk.specs.declared.desk.Slot.TheVariants.{Second};
ghost use Rattle.cx_texts.specs.Grammar.{spelling};
ghost use Rattle.cx_texts.specs.Printed.{printed_line, printed_proof, HasProofText};
ghost use Rattle.cx_texts.specs.ProofText.{proof_steps};
ghost use Rattle.proof_trim.specs.Laws.{IsRefutation};
ghost use Rattle.proof_trim.specs.Outcomes.{AnswersAsJudged, IsTrimOf, WhereDone};
ghost use Rattle.proof_trim.specs.Trimmed.{core_of};
ghost use Rattle.step_text.specs.SlotAnswers.{PairLeaves};
ghost use Rattle.step_text.specs.Slots.{IsPossible, is_too_long};
ghost use Rattle.step_text.specs.Texts.{is_spent_by};
ghost use Rattle.xlrup_check.specs.Verdicts.{HasCause};
ghost use Rattle.solve_cli.specs.Seen.{seen};
ghost use Rattle.solve_cli.specs.Steps.{Acts, Ready};
ghost use Rattle.solve_cli.specs.SlotTexts.{LeavesSlot, IsRightTrimming, ReadsTrimmed, TrimsProof, uncut_as};

use crate::judge::drained;
use crate::proof_on_desk::ProofOnDesk;
use crate::{Core, Ending, Outcome};
use cx_base::Formula;
use cx_desk::{Desk, Failed, Port, Slot};
use proof_text::{ProofGrammar, put_step_ref};
use proof_trim::{KeptSteps, TrimOf, Trimmed, trim};
use std::alloc::Global;
use step_text::SlotReader;
use step_text::pieces::LineSheet;
use xlrup_check::Fault;

/// Trims the proof that a reader takes from a desk.
fn trim_on<D: Desk>(
    alloc: Global,
    desk: &mut D,
    formula: &Formula,
    reader: &mut SlotReader<ProofGrammar>,
) -> Result<TrimOf, Fault>
    requires started { started_in reader.old.bytes.slot (D.outside desk.old).started ≡ true }
    requires fresh { is_spent_by reader.old.refused ≡ false }
    ensures judged { (text : List ℕ) → IsPossible reader.new.bytes (D.outside desk.new) text
        → IfOk result (AnswersAsJudged (PairLeaves proof_steps text) formula.now (reader.old, D.outside desk.old)) }
    ensures trimmed { (text : List ℕ) → IsPossible reader.new.bytes (D.outside desk.new) text
        → WhereDone result (IsTrimOf (PairLeaves proof_steps text) formula.now (reader.old, D.outside desk.old)) }
    ensures accepted { WhereDone result (λ t. IsRefutation formula.now t.steps.steps) }
    ensures core { WhereDone result (λ t. Unmet (core_of formula.now t.clauses t.parities)) }
    ensures cause { (text : List ℕ) → IsPossible reader.new.bytes (D.outside desk.new) text
        → IfErr result (HasCause (is_too_long reader.old.bytes (D.outside desk.old) text) (D.outside desk.old).faults.reads (D.outside desk.new).faults.reads) }
    ensures slot { LeavesSlot result reader.old.bytes (D.outside desk.old) reader.new.bytes (D.outside desk.new) }
{
    let mut source = ProofOnDesk { reader, desk };
    trim(alloc, formula, &mut source)
}

/// What a trimming that was cut off ends in.
fn uncut(trimmed: Result<TrimOf, Fault>) -> Result<TrimOf, Outcome>
    ensures { result ≡ uncut_as trimmed }
{
    match trimmed {
        Ok(trimmed) => Ok(trimmed),
        Err(Fault::Memory) => Err(Outcome::Memory),
        Err(Fault::Read) => Err(Outcome::ReadFault),
        Err(Fault::TooLong) => Err(Outcome::Ended(Ending::TooLong(Slot::Second))),
    }
}

/// Trims the proof in the second slot, and reads that slot to its end.
fn read_trimmed<D: Desk>(
    alloc: Global,
    desk: &mut D,
    formula: &Formula,
    limit: u64,
) -> Result<TrimOf, Outcome>
    requires started { started_in Second (D.outside desk.old).started ≡ true }
    requires limit { limit ≤ 4294967295 }
    ensures right { IfOk result (IsRightTrimming formula.now) }
    ensures read { (name : List ℕ) → Ready Second name (D.outside desk.old) → Acts limit (D.outside desk.old) (D.outside desk.new) (λ w. ReadsTrimmed formula.now name limit (seen w (D.outside desk.old)) result (seen w (D.outside desk.new))) }
{
    let mut reader = SlotReader::new(alloc, Slot::Second, limit);
    let judged = trim_on(alloc, desk, formula, &mut reader);
    let trimmed = uncut(judged)?;
    let rest = reader.drain_from(desk);
    drained(trimmed, rest)
}

/// Writes the step that was taken last on the Proof port.
fn put_kept<D: Desk>(sheet: &mut LineSheet, desk: &mut D, steps: &KeptSteps) -> Result<(), Failed>
    requires { HasProofText steps.now.here }
    ensures { PutsAll port.Proof (printed_line (spelling proof_steps steps.now.here)) (D.outside desk.old) result (D.outside desk.new) }
{
    put_step_ref(sheet, desk, Port::Proof, steps.step())
}

/// Writes the steps that stay on the Proof port, one after another.
fn put_steps<D: Desk>(desk: &mut D, steps: KeptSteps) -> Result<(), Failed>
    requires { AllByRecursion HasProofText steps.steps }
    ensures { PutsAll port.Proof (printed_proof steps.steps) (D.outside desk.old) result (D.outside desk.new) }
{
    let mut steps = steps;
    let mut sheet = LineSheet::new();
    'each: while steps.advance() {
        put_kept(&mut sheet, desk, &steps)?;
    }
    Ok(())
}

/// Writes the steps that stay, and gives the core.
fn put_trimmed<D: Desk>(desk: &mut D, trimmed: Trimmed) -> Result<Core, Failed>
    requires { AllByRecursion HasProofText trimmed.steps.steps }
    ensures puts { PutsAll port.Proof (printed_proof trimmed.steps.steps) (D.outside desk.old) result (D.outside desk.new) }
    ensures core { IfOk result (λ core. core ≡ record { clauses = trimmed.clauses; parities = trimmed.parities }) }
{
    put_steps(desk, trimmed.steps)?;
    Ok(Core {
        clauses: trimmed.clauses,
        parities: trimmed.parities,
    })
}

/// `trim`: judges the proof in the second slot, reads that slot to its end, and only then writes on the Proof port what the
/// proof's last step needs.
pub(crate) fn trim_proof<D: Desk>(
    alloc: Global,
    desk: &mut D,
    formula: &Formula,
    limit: u64,
) -> Result<Ending, Outcome>
    requires started { started_in Second (D.outside desk.old).started ≡ true }
    requires limit { limit ≤ 4294967295 }
    ensures { (name : List ℕ) → Ready Second name (D.outside desk.old) → Acts limit (D.outside desk.old) (D.outside desk.new) (λ w. TrimsProof formula.now name limit (seen w (D.outside desk.old)) result (seen w (D.outside desk.new))) }
{
    let left = read_trimmed(alloc, desk, formula, limit)?;
    match left {
        TrimOf::Refused(step, cause) => Ok(Ending::NotTrimmed(step, cause)),
        TrimOf::Done(trimmed) => match put_trimmed(desk, trimmed) {
            Ok(core) => Ok(Ending::Trimmed(core)),
            Err(Failed) => Err(Outcome::WriteFault),
        },
    }
}
