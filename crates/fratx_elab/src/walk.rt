//! The elaborator: steps are taken one after another.
ghost use Rattle.std.specs.Prelude.{◌≡◌, ◌+◌, false, None, IfOk, IfErr, List, ℕ};
ghost use Rattle.fratx_elab.specs.Contents.{StandsFor};
ghost use Rattle.fratx_elab.specs.Elaborates.{AreCounts};
ghost use Rattle.fratx_elab.specs.Ends.{IsReady, SinkAnswers, SourceStays};
ghost use Rattle.fratx_elab.specs.EndsLeft.{LeavesEnds, KeepsLimits, GoesOn};
ghost use Rattle.fratx_elab.specs.Outcomes.{IsElaborated, IsCutOff, Kept, Turns, text_refused, step_refused, what_follows_of};
ghost use Rattle.fratx_elab.specs.Takes.{CanBePrinted, HasRoom, CanTakeNext};
ghost use Rattle.fratx_elab.specs.Writing.{WritesDown};

use crate::elaboration::Elaboration;
use crate::ends::ElabEnds;
use crate::one_step::ends_log;
use crate::originals::{Originals, count_kinds};
use crate::outcome::{Elab, ElabFault};
use crate::state::{State, keep_memory};
use cx_base::{Formula, LogStep, ProofStep};
use cx_semantics::Cause;
use proof_rules::JudgeRefusal;
use std::alloc::Global;
use step_text::{SinkFault, TextRefusal};

/// Hands a step to the sink, if there is one.
fn write<E: ElabEnds>(ends: &mut E, written: &Option<ProofStep>) -> Result<(), SinkFault>
    requires text { CanBePrinted written.now }
    requires going { E.view.has_failed ends.old ≡ false }
    ensures told { WritesDown (E.view.steps ends.old) (E.view.steps ends.new) (E.view.torn ends.new) written.now result }
    ensures sink { SinkAnswers E.view ends.old result ends.new }
    ensures source { SourceStays E.view ends.old ends.new }
    ensures frame { E.view.keeps ends.old ends.new }
{
    match written {
        Some(step) => ends.step(step),
        None => Ok(()),
    }
}

/// What is answered where the source gives no step.
fn refused_text(why: TextRefusal, number: u64) -> Result<Option<Elab>, ElabFault>
    ensures { result ≡ text_refused why number }
{
    match why {
        TextRefusal::BadToken(place)
        | TextRefusal::Unterminated(place)
        | TextRefusal::TooBig(place) => {
            Ok(Some(Elab::Refused(number, Cause::TextRefused(place))))
        }
        TextRefusal::TooLong => Err(ElabFault::TooLong),
        TextRefusal::Memory => Err(ElabFault::Memory),
        TextRefusal::Failed => Err(ElabFault::Read),
    }
}

/// What is answered where a step is not right.
fn refused_step(why: JudgeRefusal, number: u64) -> Result<Option<Elab>, ElabFault>
    ensures { result ≡ step_refused why number }
{
    match why {
        JudgeRefusal::Wrong(cause) => Ok(Some(Elab::Refused(number, cause))),
        JudgeRefusal::Memory => Err(ElabFault::Memory),
    }
}

/// What follows a right step that was handed to the sink; none where the log goes on.
fn what_follows(
    wrote: Result<(), SinkFault>,
    is_last: bool,
    number: u64,
) -> Result<Option<Elab>, ElabFault>
    ensures { result ≡ what_follows_of wrote is_last number }
{
    match wrote {
        Ok(()) => {
            if is_last {
                Ok(Some(Elab::Done(number)))
            } else {
                Ok(None)
            }
        }
        Err(SinkFault::Memory) => Err(ElabFault::Memory),
        Err(SinkFault::Failed) => Err(ElabFault::Write),
    }
}

impl Elaboration<'_> {
    /// Takes the next step, after this many; none where the log goes on.
    fn take_next<E: ElabEnds>(
        &self,
        state: &mut State,
        ends: &mut E,
        steps: u64,
    ) -> Result<Option<Elab>, ElabFault>
        requires originals { StandsFor self.now.originals self.now.formula.now }
        requires counts { AreCounts self.now.counts self.now.formula.now }
        requires state { CanTakeNext self.now.formula.now state.old steps }
        requires ready { IsReady E.view ends.old }
        ensures turns { (text : List ℕ) (first : E) → E.view.may_read ends.new text → Kept (λ a. E.view.leaves a text) E.view.steps E.view.torn self.now.formula.now first ends.old state.old steps
            → Turns (λ a. E.view.leaves a text) E.view.steps E.view.torn self.now.formula.now first ends.new state.new steps result }
        ensures next { IfOk result (λ elab. elab ≡ None → GoesOn E.view ends.old ends.new state.new (steps + 1)) }
        ensures limits { KeepsLimits E.view ends.old ends.new }
        ensures ends { LeavesEnds E.view ends.old result ends.new }
    {
        let step = match ends.next_step(&mut state.spare) {
            Ok(Some(step)) => step,
            Ok(None) => return Ok(Some(Elab::Refused(steps + 1, Cause::NoEmptyClause))),
            Err(why) => return refused_text(why, steps + 1),
        };
        let is_last = ends_log(self.formula, &step);
        let written = match self.take_step(state, step) {
            Ok(written) => written,
            Err(why) => return refused_step(why, steps + 1),
        };
        let wrote = write(ends, &written);
        keep_memory(&mut state.spare, written);
        what_follows(wrote, is_last, steps + 1)
    }

    /// Takes one step after another, from the first on.
    fn take_all<E: ElabEnds>(&self, state: &mut State, ends: &mut E) -> Result<Elab, ElabFault>
        requires originals { StandsFor self.now.originals self.now.formula.now }
        requires counts { AreCounts self.now.counts self.now.formula.now }
        requires room { HasRoom state.old 0 }
        requires kept { (text : List ℕ) → E.view.may_read ends.old text → Kept (λ a. E.view.leaves a text) E.view.steps E.view.torn self.now.formula.now ends.old ends.old state.old 0 }
        requires ready { IsReady E.view ends.old }
        ensures judged { (text : List ℕ) → E.view.may_read ends.new text → IfOk result (IsElaborated (λ a. E.view.leaves a text) E.view.steps E.view.torn self.now.formula.now ends.old ends.new) }
        ensures cut_off { IfErr result (IsCutOff E.view.steps E.view.torn self.now.formula.now ends.old ends.new) }
        ensures ends { LeavesEnds E.view ends.old result ends.new }
    {
        let mut steps = 0;
        loop {
            match self.take_next(state, ends, steps) {
                Ok(None) => steps += 1,
                Ok(Some(elab)) => return Ok(elab),
                Err(fault) => return Err(fault),
            }
        }
    }
}

/// Turns a log into a proof of the formula: each step is judged, and what is right is written with hints.
///
/// Steps are taken in order. The first right step that derives an ending clause, all of whose literals are negations
/// of assumed ones, ends the log; what follows is not judged. The first wrong step is refused for its first
/// cause. Where the assumptions clash, nothing is judged and nothing is written.
/// The proof's steps are handed to the sink one by one, each before the next step is read.
/// `ElabFault::Read` and `ElabFault::Write` come only where the source or the sink counted a fault,
/// `ElabFault::TooLong` only where the source answered that its text is too long.
pub fn elaborate<E: ElabEnds>(
    alloc: Global,
    formula: &Formula,
    ends: &mut E,
) -> Result<Elab, ElabFault>
    requires ready { IsReady E.view ends.old }
    ensures judged { (text : List ℕ) → E.view.may_read ends.new text → IfOk result (IsElaborated (λ a. E.view.leaves a text) E.view.steps E.view.torn formula.now ends.old ends.new) }
    ensures cut_off { IfErr result (IsCutOff E.view.steps E.view.torn formula.now ends.old ends.new) }
    ensures ends { LeavesEnds E.view ends.old result ends.new }
{
    if formula.clash().is_some() {
        return Ok(Elab::Done(0));
    }
    let counts = count_kinds(formula);
    let originals = Originals::of(alloc, formula)?;
    let mut state = State::new(alloc, formula, counts);
    let elaboration = Elaboration {
        alloc,
        formula,
        counts,
        originals,
    };
    let done = elaboration.take_all(&mut state, ends);
    // By calls, since in place each vector in them is a step of the proof.
    drop(state);
    drop(elaboration);
    done
}
