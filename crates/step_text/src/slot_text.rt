//! The steps of a text that is read from a slot of a lent desk.
ghost use Rattle.std.specs.Prelude.{◌≡◌, ◌≢◌, ◌≤◌, ◌+◌, [], None, Some, true, false};
ghost use Rattle.cx_desk.specs.Outside.{started_in};
ghost use Rattle.cx_texts.specs.declared.line_state.LineState.TheVariants.{Start};
ghost use Rattle.cx_desk.specs.SlotBytes.{taken_by};
ghost use Rattle.step_text.specs.Slots.{DrainsRest};
ghost use Rattle.step_text.specs.declared.source.TextRefusal.TheVariants.{TooLong};

use crate::grammar::StepGrammar;
use crate::slot_reader::SlotReader;
use crate::source::{StepSource, TextRefusal};
use crate::spare::SpareLists;
use cx_desk::{Desk, DrainErr, Slot};
use std::alloc::Global;

/// A source of the steps in a slot of a lent desk, read piece by piece.
///
/// It answers `TooLong` as soon as it has read a byte past its limit, also where steps come before it. Its place is
/// that of the first byte that was not passed: that of the token after the last step, as long as nothing else was asked.
#[derive(Drop)]
pub struct SlotText<'d, D: Desk, G> {
    desk: &'d mut D,
    reader: SlotReader<G>,
    // the slot that it reads was started
    ghost started: { started_in reader.bytes.slot (D.outside desk.now).started ≡ true },
}

impl<'d, D: Desk, G: StepGrammar> SlotText<'d, D, G>
where
    G::Step: Drop,
{
    /// The steps of the text that a started slot has, of at most `limit` bytes.
    pub fn new(alloc: Global, desk: &'d mut D, slot: Slot, limit: u64) -> SlotText<'d, D, G>
        requires started { started_in slot (D.outside desk.old).started ≡ true }
        requires few { limit ≤ 4294967295 }
        ensures same_desk { result.desk.ghost_name ≡ desk.entry.ghost_name }
        ensures outside { D.outside result.desk.now ≡ D.outside desk.entry.now }
        ensures reader { result.reader ≡ record { bytes = record { slot = slot; limit = limit; bytes = []; place = 0; ended = false }; line = Start; refused = None } }
    {
        SlotText {
            desk,
            reader: SlotReader::new(alloc, slot, limit),
        }
    }

    /// How many bytes were read: at most the limit, until `TooLong` is answered, and one more then.
    pub fn taken(&self) -> u64
        ensures taken { result ≡ taken_by self.now.reader.bytes }
        ensures within { self.now.reader.refused ≢ Some TooLong → result ≤ self.now.reader.bytes.limit }
        ensures past { self.now.reader.refused ≡ Some TooLong → result ≡ self.now.reader.bytes.limit + 1 }
    {
        self.reader.taken()
    }

    /// Reads the rest of the text without keeping it, and says whether the whole text was within the limit.
    pub fn drain(&mut self) -> Result<(), DrainErr>
        ensures drains { DrainsRest self.old.reader.bytes (D.outside self.old.desk.now) result (D.outside self.new.desk.now) }
        ensures same_desk { self.new.desk.ghost_name ≡ self.old.desk.ghost_name }
    {
        self.reader.drain_from(self.desk)
    }
}

impl<'d, D: Desk, G: StepGrammar> StepSource for SlotText<'d, D, G>
where
    G::Step: Drop,
{
    type Step = G::Step;

    ghost use Rattle.std.specs.Prelude.{◌≡◌, refl};
    ghost use Rattle.std.proofs.Common.{◌∙◌};
    ghost use Rattle.step_text.specs.Texts.{is_spent_by, stuck_by};
    ghost use Rattle.step_text.specs.Slots.{IsPossible, SlotLeaves, SlotFrame, is_too_long};
    ghost use Rattle.step_text.specs.SlotLeft.{some_text, slot_is_left, frame_itself, frame_on};

    ghost may_read = { λ s. IsPossible s.reader.bytes (D.outside s.desk.now) };

    ghost leaves = { λ s. SlotLeaves G.steps s.reader (D.outside s.desk.now) };

    ghost passes_limit = { λ s. is_too_long s.reader.bytes (D.outside s.desk.now) };

    ghost is_spent = { λ s. is_spent_by s.reader.refused };

    ghost stuck = { λ s. stuck_by s.reader.refused };

    ghost faults = { λ s. (D.outside s.desk.now).faults.reads };

    ghost place_of = { λ s. s.reader.bytes.place };

    ghost farthest = { λ s. s.reader.bytes.limit };

    ghost keeps = { λ a b. (b.desk.ghost_name ≡ a.desk.ghost_name) × SlotFrame a.reader.bytes (D.outside a.desk.now) b.reader.bytes (D.outside b.desk.now) };

    fn next_step(&mut self, spare: &mut SpareLists) -> Result<Option<G::Step>, TextRefusal> {
        self.reader.next_from(spare, self.desk)
    }

    fn place(&self) -> u64 {
        self.reader.place()
    }

    ghost has_text = { λ s. some_text s.reader.bytes (D.outside s.desk.now) };

    ghost leaves_some = { λ s. slot_is_left G.steps G.forms s.reader (D.outside s.desk.now) };

    ghost keeps_itself = { λ a. (refl, frame_itself a.reader.bytes (D.outside a.desk.now)) };

    ghost keeps_on = { λ a b c h k. (k.0 ∙ h.0, frame_on a.reader.bytes (D.outside a.desk.now) b.reader.bytes (D.outside b.desk.now) c.reader.bytes (D.outside c.desk.now) h.1 k.1) };
}
