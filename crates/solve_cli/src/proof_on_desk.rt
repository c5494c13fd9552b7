//! A proof that is read from a slot of a desk.
ghost use Rattle.std.specs.Prelude.{◌≡◌, true};
ghost use Rattle.cx_desk.specs.Outside.{started_in};

use cx_base::ProofStep;
use cx_desk::Desk;
use proof_text::ProofGrammar;
use step_text::{SlotReader, SpareLists, StepSource, TextRefusal};

/// The steps that a lent reader takes from a lent desk.
///
/// It is made of references alone, so that the owner of both knows what was done to them.
#[derive(Drop)]
pub(crate) struct ProofOnDesk<'r, 'd, D: Desk> {
    /// The reader of the proof's slot.
    pub reader: &'r mut SlotReader<ProofGrammar>,
    /// The desk that has the slot.
    pub desk: &'d mut D,
    // the slot was started
    ghost started: { started_in reader.now.bytes.slot (D.outside desk.now).started ≡ true },
}

impl<D: Desk> StepSource for ProofOnDesk<'_, '_, D> {
    type Step = ProofStep;

    ghost use Rattle.std.specs.Prelude.{◌≡◌, refl};
    ghost use Rattle.std.proofs.Common.{◌∙◌};
    ghost use Rattle.cx_texts.specs.ProofText.{proof_steps};
    ghost use Rattle.cx_texts.proofs.Grammars.{proof_forms};
    ghost use Rattle.step_text.specs.Texts.{is_spent_by, stuck_by};
    ghost use Rattle.step_text.specs.Slots.{IsPossible, is_too_long, SlotLeaves, SlotFrame};
    ghost use Rattle.step_text.specs.SlotLeft.{some_text, slot_is_left, frame_itself, frame_on};

    ghost may_read = { λ s. IsPossible s.reader.now.bytes (D.outside s.desk.now) };

    ghost leaves = { λ s. SlotLeaves proof_steps s.reader.now (D.outside s.desk.now) };

    ghost passes_limit = { λ s. is_too_long s.reader.now.bytes (D.outside s.desk.now) };

    ghost is_spent = { λ s. is_spent_by s.reader.now.refused };

    ghost stuck = { λ s. stuck_by s.reader.now.refused };

    ghost faults = { λ s. (D.outside s.desk.now).faults.reads };

    ghost place_of = { λ s. s.reader.now.bytes.place };

    ghost farthest = { λ s. s.reader.now.bytes.limit };

    ghost keeps = { λ a b. (b.reader.ghost_name ≡ a.reader.ghost_name) × (b.desk.ghost_name ≡ a.desk.ghost_name) × SlotFrame a.reader.now.bytes (D.outside a.desk.now) b.reader.now.bytes (D.outside b.desk.now) };

    fn next_step(&mut self, spare: &mut SpareLists) -> Result<Option<ProofStep>, TextRefusal> {
        self.reader.next_from(spare, self.desk)
    }

    fn place(&self) -> u64 {
        self.reader.place()
    }

    ghost has_text = { λ s. some_text s.reader.now.bytes (D.outside s.desk.now) };

    ghost leaves_some = { λ s. slot_is_left proof_steps proof_forms s.reader.now (D.outside s.desk.now) };

    ghost keeps_itself = { λ a. (refl, refl, frame_itself a.reader.now.bytes (D.outside a.desk.now)) };

    ghost keeps_on = { λ a b c h k. (k.0 ∙ h.0, k.1 ∙ h.1, frame_on a.reader.now.bytes (D.outside a.desk.now) b.reader.now.bytes (D.outside b.desk.now) c.reader.now.bytes (D.outside c.desk.now) h.2 k.2) };
}
