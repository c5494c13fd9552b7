//! A formula from a slot of a desk, read piece by piece.
ghost use Rattle.std.specs.Prelude.{◌≡◌, ◌≢◌, ◌<◌, ◌≤◌, ◌+◌, ℕ, [], ◌++◌, true, false, length, Err, IfOk, IsTrue, IsFalse, MatchResult};
ghost use Rattle.cx_base.specs.declared.literal.TheConstants.{MAX_VARIABLE};
ghost use Rattle.cx_desk.specs.Outside.{Outside, started_in};
ghost use Rattle.cx_desk.specs.SlotBytes.{BytesState, taken_by};
ghost use Rattle.cx_desk.specs.declared.desk.Slot.{Slot as SlotOf};
ghost use Rattle.cx_texts.specs.declared.line_state.LineState.TheVariants.{Kept};
ghost use Rattle.cnfx_reader.specs.FromSlot.{ReadsFrom, formula_of};
ghost use Rattle.cnfx_reader.specs.PieceSteps.{IsPhaseIn};
ghost use Rattle.cnfx_reader.specs.SlotFormula.{GoesOn, HasRead, IsLast, IsRefusedIn};
ghost use Rattle.cnfx_reader.specs.declared.slot_formula.SlotFormula.{SlotFormula as State};

use crate::from_refusal::FromRefusal;
use crate::header_token::HeaderPart;
use crate::piece::{Phase, take_rest, take_some};
use crate::refusal::ReadRefusal;
use cx_base::{Formula, FormulaBuilder};
use cx_desk::{Desk, Slot, SlotBytes};
use cx_texts::{EndLines, LineState, pass_blanks};
use std::alloc::Global;

/// What was read of a slot and not taken yet, and the formula that is made of what was.
#[derive(Drop)]
pub(crate) struct SlotFormula {
    bytes: SlotBytes,
    line: LineState,
    phase: Phase,
    builder: FormulaBuilder,
}

impl SlotFormula {
    /// Nothing was read yet.
    fn new(alloc: Global, slot: Slot, limit: u64) -> SlotFormula
        requires { limit ≤ 4294967295 }
        ensures { (o : Outside) → HasRead slot limit o result o }
    {
        SlotFormula {
            bytes: SlotBytes::new(alloc, slot, limit),
            line: LineState::Start,
            phase: Phase::Head(HeaderPart::P),
            builder: FormulaBuilder::new(alloc),
        }
    }

    /// Passes the blanks and comments at hand, and says whether what is at hand then is the rest of the formula: the text ends there, or
    /// a `%` line ended the formula, and nothing is left at hand.
    fn pass_blanks(&mut self) -> bool
        ensures last { IsTrue result → IsLast self.old self.new }
        ensures on { IsFalse result → GoesOn self.old self.new }
        ensures line { IsFalse result → self.new.bytes.bytes ≢ [] → self.new.line ≡ Kept }
        ensures open { IsFalse result → self.new.bytes.ended ≡ false }
    {
        let stop = pass_blanks(self.bytes.bytes(), self.line, EndLines::End);
        if stop.is_end {
            let len = self.bytes.bytes().len();
            self.bytes.pass(len);
            return true;
        }
        self.bytes.pass(stop.at);
        self.line = stop.line;
        self.bytes.has_ended()
    }

    /// Takes whole tokens that are at hand, and says whether there were any.
    fn take(&mut self) -> Result<bool, ReadRefusal>
        requires line { self.old.bytes.bytes ≢ [] → self.old.line ≡ Kept }
        requires fits { IsPhaseIn self.old.phase self.old.builder }
        ensures { MatchResult result (λ some. GoesOn self.old self.new × (IsTrue some → length self.new.bytes.bytes < length self.old.bytes.bytes)) (λ e. IsRefusedIn e self.old self.new) }
    {
        if self.bytes.bytes().is_empty() {
            return Ok(false);
        }
        let place = self.bytes.place();
        match take_some(&mut self.builder, self.bytes.bytes(), place, self.phase) {
            Ok(taken) => {
                self.bytes.pass(taken.len);
                self.phase = taken.phase;
                Ok(taken.len > 0)
            }
            Err(refusal) => Err(refusal),
        }
    }

    /// Reads to the end of the text, where what is at hand is the rest of the formula, and gives the header's number of variables.
    fn read_end<D: Desk>(&mut self, desk: &mut D) -> Result<u32, FromRefusal>
        requires started { started_in self.old.bytes.slot (D.outside desk.old).started ≡ true }
        requires within { taken_by self.old.bytes ≤ self.old.bytes.limit }
        requires fits { IsPhaseIn self.old.phase self.old.builder }
        ensures within { IfOk result (λ v. (v ≤ MAX_VARIABLE) × (self.new.builder.unfinished ≡ [])) }
        ensures reads { (slot : SlotOf) (limit : ℕ) (o : Outside) (s : State) → HasRead slot limit o s (D.outside desk.old) → IsLast s self.old
            → ReadsFrom slot limit o (formula_of result self.new.builder) (D.outside desk.new) }
    {
        let len = self.bytes.read_rest(desk)?;
        let place = self.bytes.place();
        let rest = self.bytes.bytes();
        Ok(take_rest(&mut self.builder, rest, place, self.phase, len)?)
    }

    /// Reads the rest of the text, and gives the header's number of variables.
    fn read_all<D: Desk>(&mut self, desk: &mut D) -> Result<u32, FromRefusal>
        requires started { started_in self.old.bytes.slot (D.outside desk.old).started ≡ true }
        requires begun { HasRead self.old.bytes.slot self.old.bytes.limit (D.outside desk.old) self.old (D.outside desk.old) }
        ensures within { IfOk result (λ v. (v ≤ MAX_VARIABLE) × (self.new.builder.unfinished ≡ [])) }
        ensures reads { ReadsFrom self.old.bytes.slot self.old.bytes.limit (D.outside desk.old) (formula_of result self.new.builder) (D.outside desk.new) }
    {
        loop {
            let is_last = self.pass_blanks();
            if is_last {
                return self.read_end(desk);
            }
            match self.take() {
                Ok(true) => {}
                Ok(false) => self.bytes.read_twice(desk)?,
                Err(refusal) => return Err(refused(&self.bytes, desk, refusal)),
            }
        }
    }
}

/// Reads the rest of a refused text, since it may be too long, which takes precedence over its offence.
fn refused<D: Desk>(bytes: &SlotBytes, desk: &mut D, refusal: ReadRefusal) -> FromRefusal
    requires started { started_in bytes.now.slot (D.outside desk.old).started ≡ true }
    requires within { taken_by bytes.now ≤ bytes.now.limit }
    ensures { (slot : SlotOf) (limit : ℕ) (o : Outside) (s t : State) → HasRead slot limit o s (D.outside desk.old) → IsRefusedIn refusal s t → t.bytes ≡ bytes.now
        → ReadsFrom slot limit o (Err result) (D.outside desk.new) }
{
    if matches!(refusal, ReadRefusal::Memory) {
        return FromRefusal::Memory;
    }
    match bytes.read_rest(desk) {
        Ok(_) => FromRefusal::from(refusal),
        Err(err) => FromRefusal::from(err),
    }
}

/// Reads a formula of clauses and parities from a started slot: DIMACS CNF with x-lines.
///
/// It is what `read_formula` says of the whole text, where that is within the limit. The text is read to its end also after an
/// offence and a `%` line, so that a text that is too long is told as such whatever it says. It takes memory for the formula and for a
/// piece of the text.
pub fn read_formula_from<D: Desk>(
    alloc: Global,
    desk: &mut D,
    slot: Slot,
    limit: u64,
) -> Result<Formula, FromRefusal>
    requires started { started_in slot (D.outside desk.old).started ≡ true }
    requires few { limit ≤ 4294967295 }
    ensures { ReadsFrom slot limit (D.outside desk.old) result (D.outside desk.new) }
{
    let mut reader = SlotFormula::new(alloc, slot, limit);
    let vars = reader.read_all(desk)?;
    Ok(reader.builder.finish(vars))
}
