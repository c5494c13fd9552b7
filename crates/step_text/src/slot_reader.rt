//! The steps of a text that is read from a desk's slot, by any grammar.
ghost use Rattle.std.specs.Prelude.{◌≡◌, ◌≢◌, ◌<◌, ◌≤◌, ◌+◌, ◌^◌, ℕ, [], None, Some, true, false, length, IfOk, IfErr, MatchResult, MatchOption, take};
ghost use Rattle.cx_texts.specs.Pieces.{EndsBlank};
ghost use Rattle.step_text.specs.declared.source.TextRefusal.TheVariants.{TooLong, Unterminated};
ghost use Rattle.cx_desk.specs.Outside.{Bytes, Outside, started_in};
ghost use Rattle.cx_desk.specs.SlotBytes.{taken_by, to_read};
ghost use Rattle.cx_texts.specs.declared.line_state.LineState.TheVariants.{Start, Kept};
ghost use Rattle.step_text.specs.Found.{IsFound};
ghost use Rattle.step_text.specs.Slots.{DrainsRest, IsPossible, ReadsOn, ReadingFails};
ghost use Rattle.step_text.specs.Sources.{PlaceRises};
ghost use Rattle.step_text.specs.Texts.{is_spent_by};
ghost use Rattle.step_text.specs.SlotAnswers.{IsAnswer, SaysOf, RefusesAfter, ReadsSlot, IsBounded};

use crate::ahead::TokensAhead;
use crate::grammar::StepGrammar;
use crate::source::TextRefusal;
use crate::spare::SpareLists;
use cx_desk::{Desk, DrainErr, Slot, SlotBytes};
use cx_texts::{EndLines, LineState, line_behind, pass_blanks, whole_front};
use std::alloc::Global;
use std::marker::{Model, PhantomData};

/// What the bytes of a text that were read so far say of the next step.
#[derive(Drop)]
enum StepFinding<S> {
    /// The step, and where the text goes on: the place of the token after it, or one after which no token was read.
    Step(S, usize, LineState),
    /// The text ends between two steps.
    End,
    /// The text ends so, or there is no memory for the step.
    Refused(TextRefusal),
    /// More has to be read.
    Unknown,
}

/// How many of the bytes are whole tokens: all where the text ends.
fn whole_len(bytes: &[u8], ended: bool) -> usize
    ensures within { result ≤ length bytes.now }
    ensures all { ended ≡ true → result ≡ length bytes.now }
    ensures blank { ended ≡ false → EndsBlank (take result bytes.now) }
{
    if ended {
        bytes.len()
    } else {
        whole_front(bytes)
    }
}

/// Whether a refusal counts, whatever may follow.
fn counts(refusal: TextRefusal, ended: bool) -> bool
    ensures yes { result ≡ true → ended ≡ false → (at : ℕ) → refusal ≢ Unterminated at }
    ensures no { result ≡ false → ended ≡ false }
{
    match refusal {
        TextRefusal::Unterminated(_) => ended,
        _ => true,
    }
}

/// Looks for a step at the start of the bytes that begin at this place within a kept line.
///
/// Where the text may go on, only whole tokens count, and a step only where a token follows it or none can go on with it: so
/// the blanks and comments after such a step need not be kept.
fn find_step<G: StepGrammar>(
    spare: &mut SpareLists,
    bytes: &[u8],
    place: usize,
    ended: bool,
) -> StepFinding<G::Step>
where
    G::Step: Drop,
    requires { place + length bytes.now < 2 ^ 63 }
    ensures { IsFound G.steps ended place bytes.now result }
{
    let len = whole_len(bytes, ended);
    let mut tokens = TokensAhead::within(&bytes[..len], place);
    if tokens.is_empty() {
        return if ended {
            StepFinding::End
        } else {
            StepFinding::Unknown
        };
    }
    match G::read_step(spare, &mut tokens, place + len) {
        Ok(step) => {
            if !tokens.is_empty() {
                return StepFinding::Step(step, tokens.place(place + len), LineState::Kept);
            }
            if !ended && !G::is_closed(&step) {
                return StepFinding::Unknown;
            }
            StepFinding::Step(
                step,
                place + len,
                line_behind(LineState::Kept, &bytes[..len]),
            )
        }
        Err(refusal) => {
            if !counts(refusal, ended) {
                return StepFinding::Unknown;
            }
            StepFinding::Refused(refusal)
        }
    }
}

/// The steps of a grammar that are read from a slot of a desk, which is lent at each call.
///
/// The text is read piece by piece; only the bytes after the last step are kept, and of those no blanks and comments, so it takes
/// memory for one step and a constant. Its place is the place of the first byte that was not passed.
#[derive(Drop)]
pub struct SlotReader<G> {
    bytes: SlotBytes,
    line: LineState,
    refused: Option<TextRefusal>,
    grammar: PhantomData<G>,
}

impl<G> Model for SlotReader<G> {
    ghost use Rattle.std.specs.Prelude.{◌≡◌, ◌≢◌, ◌<◌, ◌≤◌, ◌+◌, Some};
    ghost use Rattle.cx_desk.specs.SlotBytes.{taken_by};
    ghost use Rattle.step_text.specs.declared.source.TextRefusal.TheVariants.{TooLong};
    ghost use Rattle.step_text.specs.Slots.{SlotState};

    ghost Value = { SlotState };

    ghost view = { λ r. record { bytes = r.bytes; line = r.line; refused = r.refused } };

    ghost invariant = { λ r. (r.bytes.limit ≤ 4294967295) × (r.bytes.place ≤ r.bytes.limit) × (taken_by r.bytes ≤ r.bytes.limit + 1) × (r.refused ≢ Some TooLong → taken_by r.bytes ≤ r.bytes.limit) × (r.refused ≡ Some TooLong → r.bytes.limit < taken_by r.bytes) };
}

impl<G: StepGrammar> SlotReader<G>
where
    G::Step: Drop,
{
    /// The steps of the text that the slot will give, of at most `limit` bytes.
    pub fn new(alloc: Global, slot: Slot, limit: u64) -> SlotReader<G>
        requires { limit ≤ 4294967295 }
        ensures { result ≡ record { bytes = record { slot = slot; limit = limit; bytes = []; place = 0; ended = false }; line = Start; refused = None } }
    {
        SlotReader {
            bytes: SlotBytes::new(alloc, slot, limit),
            line: LineState::Start,
            refused: None,
            grammar: PhantomData,
        }
    }

    /// How many bytes were read: at most the limit, until `TooLong` is answered, and one more then.
    pub fn taken(&self) -> u64
        ensures taken { result ≡ taken_by self.now.bytes }
        ensures within { self.now.refused ≢ Some TooLong → result ≤ self.now.bytes.limit }
        ensures past { self.now.refused ≡ Some TooLong → result ≡ self.now.bytes.limit + 1 }
    {
        self.bytes.taken()
    }

    /// The place of the first byte that was not passed.
    pub fn place(&self) -> u64
        ensures { result ≡ self.now.bytes.place }
    {
        self.bytes.place() as u64
    }

    /// Passes the blanks and comments at hand.
    fn pass_blanks(&mut self)
        requires { self.old.refused ≡ None }
        ensures on { (o : Outside) → ReadsOn self.old o self.new o }
        ensures line { self.new.bytes.bytes ≢ [] → self.new.line ≡ Kept }
        ensures taken { taken_by self.new.bytes ≡ taken_by self.old.bytes }
        ensures ended { self.new.bytes.ended ≡ self.old.bytes.ended }
    {
        let stop = pass_blanks(self.bytes.bytes(), self.line, EndLines::Kept);
        self.bytes.pass(stop.at);
        self.line = stop.line;
    }

    /// Reads as much again as is at hand, or to the end.
    fn read_twice<D: Desk>(&mut self, desk: &mut D) -> Result<(), TextRefusal>
        requires started { started_in self.old.bytes.slot (D.outside desk.old).started ≡ true }
        requires within { taken_by self.old.bytes ≤ self.old.bytes.limit }
        requires open { self.old.bytes.ended ≡ false }
        ensures read { MatchResult result (λ _. ReadsOn self.old (D.outside desk.old) self.new (D.outside desk.new)) (λ e. ReadingFails self.old.bytes (D.outside desk.old) e self.new.bytes (D.outside desk.new)) }
        ensures within { IfOk result (λ _. taken_by self.new.bytes ≤ self.new.bytes.limit) }
        ensures falls { IfOk result (λ _. to_read self.new.bytes < to_read self.old.bytes) }
    {
        match self.bytes.read_twice(desk) {
            Ok(()) => Ok(()),
            Err(err) => {
                let refusal = TextRefusal::from(err);
                self.refused = Some(refusal);
                Err(refusal)
            }
        }
    }

    /// The next step of the bytes at hand, or the end, or a refusal, if they tell it.
    fn take_found(&mut self, spare: &mut SpareLists) -> Option<Result<Option<G::Step>, TextRefusal>>
        requires line { self.old.bytes.bytes ≢ [] → self.old.line ≡ Kept }
        requires fresh { self.old.refused ≡ None }
        ensures answer { MatchOption result ((self.new ≡ self.old) × (self.old.bytes.ended ≡ false)) (λ r. (o : Outside) → IsAnswer G.steps self.old o r self.new o) }
    {
        let place = self.bytes.place();
        match find_step::<G>(spare, self.bytes.bytes(), place, self.bytes.has_ended()) {
            StepFinding::Step(step, next, line) => {
                self.bytes.pass(next - place);
                self.line = line;
                Some(Ok(Some(step)))
            }
            StepFinding::End => Some(Ok(None)),
            StepFinding::Refused(refusal) => Some(Err(refusal)),
            StepFinding::Unknown => None,
        }
    }

    /// Finds the next step, or the end.
    fn find<D: Desk>(
        &mut self,
        spare: &mut SpareLists,
        desk: &mut D,
    ) -> Result<Option<G::Step>, TextRefusal>
        requires started { started_in self.old.bytes.slot (D.outside desk.old).started ≡ true }
        requires fresh { self.old.refused ≡ None }
        requires within { taken_by self.old.bytes ≤ self.old.bytes.limit }
        ensures { IsAnswer G.steps self.old (D.outside desk.old) result self.new (D.outside desk.new) }
    {
        loop {
            self.pass_blanks();
            match self.take_found(spare) {
                Some(answer) => return answer,
                None => self.read_twice(desk)?,
            }
        }
    }

    /// Reads the rest of the text without keeping it, and says whether the whole text was within the limit.
    ///
    /// No step is asked for after this.
    pub fn drain_from<D: Desk>(&self, desk: &mut D) -> Result<(), DrainErr>
        requires { started_in self.now.bytes.slot (D.outside desk.old).started ≡ true }
        ensures { DrainsRest self.now.bytes (D.outside desk.old) result (D.outside desk.new) }
    {
        if self.bytes.is_past_limit() {
            return Err(DrainErr::TooLong);
        }
        match self.bytes.read_rest(desk) {
            Ok(_) => Ok(()),
            Err(err) => Err(err),
        }
    }

    /// The next step, or none at the end of the text between two steps, as a source of steps gives it.
    pub fn next_from<D: Desk>(
        &mut self,
        spare: &mut SpareLists,
        desk: &mut D,
    ) -> Result<Option<G::Step>, TextRefusal>
        requires started { started_in self.old.bytes.slot (D.outside desk.old).started ≡ true }
        requires fresh { is_spent_by self.old.refused ≡ false }
        ensures texts { (text : Bytes) → IsPossible self.new.bytes (D.outside desk.new) text → SaysOf G.steps text self.old (D.outside desk.old) result self.new (D.outside desk.new) }
        ensures refuses { RefusesAfter self.old.refused result self.new.refused }
        ensures rises { PlaceRises result self.old.bytes.place self.new.bytes.place }
        ensures reads { ReadsSlot self.old.bytes (D.outside desk.old) result self.new.bytes (D.outside desk.new) }
        ensures bounded { IsBounded self.new.bytes }
    {
        if let Some(refusal) = self.refused {
            return Err(refusal);
        }
        match self.find(spare, desk) {
            Ok(step) => Ok(step),
            Err(refusal) => {
                self.refused = Some(refusal);
                Err(refusal)
            }
        }
    }
}
